// Copies of expressions and of what stands in them. Each is equal to what it copies.
ghost use Rattle.std.specs.Prelude.{◌≡◌, IfOk};
ghost use Rattle.bpl_ast.specs.ExprView.{each_trigger, each_group, each_groups_of};

use crate::copy_names::{copy_names, copy_type_params};
use crate::expr::{Expr, ExprForm, Group, Index, Term, Trigger, Where};
use crate::numeral::Numeral;
use std::alloc::{AllocError, Global};

impl Expr {
    /// An equal expression.
    #[cycle(copy_expr)]
    pub fn copy(&self, alloc: Global) -> Result<Expr, AllocError>
        ensures { IfOk result (λ x. x ≡ self.now) }
    {
        let at = self.at;
        match &self.form {
            ExprForm::Number(n) => { Ok(Expr::new(at, ExprForm::Number(Numeral::new(n.value())))) }
            ExprForm::Truth(b) => Ok(Expr::new(at, ExprForm::Truth(*b))),
            ExprForm::Variable(name) => Ok(Expr::new(at, ExprForm::Variable(name.copy(alloc)?))),
            ExprForm::Apply {
                function,
                arguments,
            } => Ok(Expr::new(
                at,
                ExprForm::Apply {
                    function: function.copy(alloc)?,
                    arguments: copy_exprs(alloc, arguments)?,
                },
            )),
            ExprForm::Old { at: word, value } => Ok(Expr::new(
                at,
                ExprForm::Old {
                    at: *word,
                    value: copy_boxed_expr(alloc, value)?,
                },
            )),
            ExprForm::If {
                condition,
                then_value,
                else_value,
            } => Ok(Expr::new(
                at,
                ExprForm::If {
                    condition: copy_boxed_expr(alloc, condition)?,
                    then_value: copy_boxed_expr(alloc, then_value)?,
                    else_value: copy_boxed_expr(alloc, else_value)?,
                },
            )),
            ExprForm::Quantified {
                quantifier,
                at: open,
                params,
                groups,
                triggers,
                body,
            } => Ok(Expr::new(
                at,
                ExprForm::Quantified {
                    quantifier: *quantifier,
                    at: *open,
                    params: copy_type_params(alloc, params)?,
                    groups: copy_groups(alloc, groups)?,
                    triggers: copy_triggers(alloc, triggers)?,
                    body: copy_boxed_expr(alloc, body)?,
                },
            )),
            ExprForm::Iff(xs) => Ok(Expr::new(at, ExprForm::Iff(copy_exprs(alloc, xs)?))),
            ExprForm::Implies(xs) => Ok(Expr::new(at, ExprForm::Implies(copy_exprs(alloc, xs)?))),
            ExprForm::And(xs) => Ok(Expr::new(at, ExprForm::And(copy_exprs(alloc, xs)?))),
            ExprForm::Or(xs) => Ok(Expr::new(at, ExprForm::Or(copy_exprs(alloc, xs)?))),
            ExprForm::Compared {
                relation,
                left,
                right,
            } => Ok(Expr::new(
                at,
                ExprForm::Compared {
                    relation: *relation,
                    left: copy_boxed_expr(alloc, left)?,
                    right: copy_boxed_expr(alloc, right)?,
                },
            )),
            ExprForm::Sum { first, others } => Ok(Expr::new(
                at,
                ExprForm::Sum {
                    first: copy_boxed_expr(alloc, first)?,
                    others: copy_terms(alloc, others)?,
                },
            )),
            ExprForm::Product(xs) => Ok(Expr::new(at, ExprForm::Product(copy_exprs(alloc, xs)?))),
            ExprForm::Not(x) => Ok(Expr::new(at, ExprForm::Not(copy_boxed_expr(alloc, x)?))),
            ExprForm::Minus(x) => Ok(Expr::new(at, ExprForm::Minus(copy_boxed_expr(alloc, x)?))),
            ExprForm::Indexed { map, indices } => Ok(Expr::new(
                at,
                ExprForm::Indexed {
                    map: copy_boxed_expr(alloc, map)?,
                    indices: copy_indices(alloc, indices)?,
                },
            )),
        }
    }
}

#[cycle(copy_expr)]
fn copy_boxed_expr(alloc: Global, x: &Expr) -> Result<Box<Expr>, AllocError>
    ensures { IfOk result (λ b. b.value ≡ x.now) }
{
    Ok(Box::new(alloc, x.copy(alloc)?)?)
}

/// Equal expressions.
#[cycle(copy_expr)]
pub fn copy_exprs(alloc: Global, exprs: &[Expr]) -> Result<Vec<Expr>, AllocError>
    ensures { IfOk result (λ v. v.items ≡ exprs.now) }
{
    let mut copies = Vec::new(alloc);
    for x in exprs {
        copies.push(x.copy(alloc)?)?;
    }
    Ok(copies)
}

#[cycle(copy_expr)]
fn copy_term(alloc: Global, term: &Term) -> Result<Term, AllocError>
    ensures { IfOk result (λ t. t ≡ term.now) }
{
    match term {
        Term::Plus(x) => Ok(Term::Plus(x.copy(alloc)?)),
        Term::Less(x) => Ok(Term::Less(x.copy(alloc)?)),
    }
}

/// Equal parts of a sum.
#[cycle(copy_expr)]
pub fn copy_terms(alloc: Global, terms: &[Term]) -> Result<Vec<Term>, AllocError>
    ensures { IfOk result (λ v. v.items ≡ terms.now) }
{
    let mut copies = Vec::new(alloc);
    for term in terms {
        copies.push(copy_term(alloc, term)?)?;
    }
    Ok(copies)
}

#[cycle(copy_expr)]
fn copy_index(alloc: Global, index: &Index) -> Result<Index, AllocError>
    ensures { IfOk result (λ i. i ≡ index.now) }
{
    match index {
        Index::Read(x) => Ok(Index::Read(x.copy(alloc)?)),
        Index::Write(x, y) => Ok(Index::Write(x.copy(alloc)?, y.copy(alloc)?)),
    }
}

/// Equal indices.
#[cycle(copy_expr)]
pub fn copy_indices(alloc: Global, indices: &[Index]) -> Result<Vec<Index>, AllocError>
    ensures { IfOk result (λ v. v.items ≡ indices.now) }
{
    let mut copies = Vec::new(alloc);
    for index in indices {
        copies.push(copy_index(alloc, index)?)?;
    }
    Ok(copies)
}

/// Equal triggers.
#[cycle(copy_expr)]
pub fn copy_triggers(alloc: Global, triggers: &[Trigger]) -> Result<Vec<Trigger>, AllocError>
    ensures { IfOk result (λ v. each_trigger v.items ≡ each_trigger triggers.now) }
{
    let mut copies = Vec::new(alloc);
    for trigger in triggers {
        let patterns = copy_exprs(alloc, &trigger.patterns)?;
        copies.push(Trigger {
            at: trigger.at,
            patterns,
        })?;
    }
    Ok(copies)
}

/// An equal condition, or none.
#[cycle(copy_expr)]
pub fn copy_where(alloc: Global, condition: &Option<Where>) -> Result<Option<Where>, AllocError>
    ensures { IfOk result (λ w. w ≡ condition.now) }
{
    match condition {
        Some(found) => Ok(Some(Where {
            at: found.at,
            condition: found.condition.copy(alloc)?,
        })),
        None => Ok(None),
    }
}

/// Equal groups.
#[cycle(copy_expr)]
pub fn copy_groups(alloc: Global, groups: &[Group]) -> Result<Vec<Group>, AllocError>
    ensures { IfOk result (λ v. each_group v.items ≡ each_group groups.now) }
{
    let mut copies = Vec::new(alloc);
    for group in groups {
        let names = copy_names(alloc, &group.names)?;
        let of = group.of.copy(alloc)?;
        let condition = copy_where(alloc, &group.condition)?;
        copies.push(Group {
            names,
            of,
            condition,
        })?;
    }
    Ok(copies)
}

/// Equal groups of each `var`.
pub fn copy_each_groups(alloc: Global, each: &[Vec<Group>]) -> Result<Vec<Vec<Group>>, AllocError>
    ensures { IfOk result (λ v. each_groups_of v.items ≡ each_groups_of each.now) }
{
    let mut copies = Vec::new(alloc);
    for groups in each {
        copies.push(copy_groups(alloc, groups)?)?;
    }
    Ok(copies)
}

/// An equal expression, or none.
pub fn copy_optional_expr(alloc: Global, x: &Option<Expr>) -> Result<Option<Expr>, AllocError>
    ensures { IfOk result (λ y. y ≡ x.now) }
{
    match x {
        Some(x) => Ok(Some(x.copy(alloc)?)),
        None => Ok(None),
    }
}
