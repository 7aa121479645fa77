// The names that an expression applies, in the order of its term, where variables hide some.
ghost use Rattle.std.specs.Prelude.{◌≡◌, ◌++◌, [], ◌∷◌, IfOk, OnOk};
ghost use Rattle.bpl_ast.specs.ExprView.{exprs_of, terms_of, indices_of, triggers_of, groups_of, clause_of, relation_of};
ghost use Rattle.bpl_scopes.specs.Scopes.{texts_of};
ghost use Rattle.bpl_scopes.specs.Functions.{argument_names, applied_in, all_applied, terms_apply, indices_apply, triggers_apply, groups_apply, clause_applies, name_applies, in_order};
ghost use Rattle.bpl_dependencies.specs.AppliedView.{texts_seen, variables_seen};

use crate::variables::{Variables, argument_names};
use bpl_ast::{Argument, Expr, ExprForm, Group, Index, Relation, Term, Trigger, Where};
use std::alloc::{AllocError, Global};

/// The names that were found to be applied.
#[derive(Drop)]
pub(crate) struct Applied<'a> {
    pub(crate) names: Vec<&'a [u8]>,
}

impl<'a> Applied<'a> {
    fn note(&mut self, variables: &Variables<'_, 'a>, name: &'a [u8]) -> Result<(), AllocError>
        ensures { OnOk result (texts_seen self.new.names.items ≡ texts_seen self.old.names.items ++ name_applies (variables_seen variables.now) name.now) }
    {
        if !variables.has(name) {
            self.names.push(name)?;
        }
        Ok(())
    }

    // Finds what an expression applies.
    #[cycle(applied)]
    fn note_expr(
        &mut self,
        alloc: Global,
        variables: &Variables<'_, 'a>,
        x: &'a Expr,
    ) -> Result<(), AllocError>
        ensures { OnOk result (texts_seen self.new.names.items ≡ texts_seen self.old.names.items ++ applied_in (variables_seen variables.now) x.now) }
    {
        match &x.form {
            ExprForm::Number(_) => Ok(()),
            ExprForm::Truth(_) => Ok(()),
            ExprForm::Variable(_) => Ok(()),
            ExprForm::Apply {
                function,
                arguments,
            } => {
                self.note(variables, function.text.as_bytes())?;
                self.note_exprs(alloc, variables, arguments)
            }
            ExprForm::Old { value, .. } => self.note_expr(alloc, variables, value),
            ExprForm::Not(x) => self.note_expr(alloc, variables, x),
            ExprForm::Minus(x) => self.note_expr(alloc, variables, x),
            ExprForm::If {
                condition,
                then_value,
                else_value,
            } => {
                self.note_expr(alloc, variables, condition)?;
                self.note_expr(alloc, variables, then_value)?;
                self.note_expr(alloc, variables, else_value)
            }
            ExprForm::Quantified {
                groups,
                triggers,
                body,
                ..
            } => {
                self.note_groups(alloc, variables, groups)?;
                let inner = variables.within(alloc, groups)?;
                self.note_triggers(alloc, &inner, triggers)?;
                self.note_expr(alloc, &inner, body)
            }
            ExprForm::Iff(xs) => self.note_exprs(alloc, variables, xs),
            ExprForm::Implies(xs) => self.note_exprs(alloc, variables, xs),
            ExprForm::And(xs) => self.note_exprs(alloc, variables, xs),
            ExprForm::Or(xs) => self.note_exprs(alloc, variables, xs),
            ExprForm::Product(xs) => self.note_exprs(alloc, variables, xs),
            ExprForm::Compared {
                relation,
                left,
                right,
            } => self.note_compared(alloc, variables, *relation, left, right),
            ExprForm::Sum { first, others } => {
                self.note_expr(alloc, variables, first)?;
                self.note_terms(alloc, variables, others)
            }
            ExprForm::Indexed { map, indices } => {
                self.note_expr(alloc, variables, map)?;
                self.note_indices(alloc, variables, indices)
            }
        }
    }

    // The sides of a comparison, in the order of its term.
    #[cycle(applied)]
    fn note_compared(
        &mut self,
        alloc: Global,
        variables: &Variables<'_, 'a>,
        relation: Relation,
        left: &'a Expr,
        right: &'a Expr,
    ) -> Result<(), AllocError>
        ensures { OnOk result (texts_seen self.new.names.items ≡ texts_seen self.old.names.items ++ in_order (relation_of relation) (applied_in (variables_seen variables.now) left.now) (applied_in (variables_seen variables.now) right.now)) }
    {
        match relation {
            Relation::Greater | Relation::AtLeast => {
                self.note_expr(alloc, variables, right)?;
                self.note_expr(alloc, variables, left)
            }
            Relation::Equal | Relation::NotEqual | Relation::Less | Relation::AtMost => {
                self.note_expr(alloc, variables, left)?;
                self.note_expr(alloc, variables, right)
            }
        }
    }

    #[cycle(applied)]
    fn note_exprs(
        &mut self,
        alloc: Global,
        variables: &Variables<'_, 'a>,
        xs: &'a [Expr],
    ) -> Result<(), AllocError>
        ensures { OnOk result (texts_seen self.new.names.items ≡ texts_seen self.old.names.items ++ all_applied (variables_seen variables.now) (exprs_of xs.now)) }
    {
        for x in xs {
            self.note_expr(alloc, variables, x)?;
        }
        Ok(())
    }

    #[cycle(applied)]
    fn note_terms(
        &mut self,
        alloc: Global,
        variables: &Variables<'_, 'a>,
        terms: &'a [Term],
    ) -> Result<(), AllocError>
        ensures { OnOk result (texts_seen self.new.names.items ≡ texts_seen self.old.names.items ++ terms_apply (variables_seen variables.now) (terms_of terms.now)) }
    {
        for term in terms {
            match term {
                Term::Plus(x) => self.note_expr(alloc, variables, x)?,
                Term::Less(x) => self.note_expr(alloc, variables, x)?,
            }
        }
        Ok(())
    }

    #[cycle(applied)]
    fn note_index(
        &mut self,
        alloc: Global,
        variables: &Variables<'_, 'a>,
        index: &'a Index,
    ) -> Result<(), AllocError>
        ensures { OnOk result (texts_seen self.new.names.items ≡ texts_seen self.old.names.items ++ indices_apply (variables_seen variables.now) (indices_of (index.now ∷ []))) }
    {
        match index {
            Index::Read(x) => self.note_expr(alloc, variables, x),
            Index::Write(x, y) => {
                self.note_expr(alloc, variables, x)?;
                self.note_expr(alloc, variables, y)
            }
        }
    }

    #[cycle(applied)]
    fn note_indices(
        &mut self,
        alloc: Global,
        variables: &Variables<'_, 'a>,
        indices: &'a [Index],
    ) -> Result<(), AllocError>
        ensures { OnOk result (texts_seen self.new.names.items ≡ texts_seen self.old.names.items ++ indices_apply (variables_seen variables.now) (indices_of indices.now)) }
    {
        for index in indices {
            self.note_index(alloc, variables, index)?;
        }
        Ok(())
    }

    #[cycle(applied)]
    fn note_triggers(
        &mut self,
        alloc: Global,
        variables: &Variables<'_, 'a>,
        triggers: &'a [Trigger],
    ) -> Result<(), AllocError>
        ensures { OnOk result (texts_seen self.new.names.items ≡ texts_seen self.old.names.items ++ triggers_apply (variables_seen variables.now) (triggers_of triggers.now)) }
    {
        for trigger in triggers {
            self.note_exprs(alloc, variables, &trigger.patterns)?;
        }
        Ok(())
    }

    #[cycle(applied)]
    fn note_clause(
        &mut self,
        alloc: Global,
        variables: &Variables<'_, 'a>,
        condition: &'a Option<Where>,
    ) -> Result<(), AllocError>
        ensures { OnOk result (texts_seen self.new.names.items ≡ texts_seen self.old.names.items ++ clause_applies (variables_seen variables.now) (clause_of condition.now)) }
    {
        match condition {
            Some(found) => self.note_expr(alloc, variables, &found.condition),
            None => Ok(()),
        }
    }

    #[cycle(applied)]
    fn note_groups(
        &mut self,
        alloc: Global,
        variables: &Variables<'_, 'a>,
        groups: &'a [Group],
    ) -> Result<(), AllocError>
        ensures { OnOk result (texts_seen self.new.names.items ≡ texts_seen self.old.names.items ++ groups_apply (variables_seen variables.now) (groups_of groups.now)) }
    {
        for group in groups {
            self.note_clause(alloc, variables, &group.condition)?;
        }
        Ok(())
    }
}

/// The names that the body of a function with these parameters applies, in the order of its term.
pub fn applied_in_body<'a>(
    alloc: Global,
    ins: &'a [Argument],
    body: &'a Expr,
) -> Result<Vec<&'a [u8]>, AllocError>
    ensures { IfOk result (λ v. texts_seen v.items ≡ applied_in (texts_of (argument_names ins.now)) body.now) }
{
    let params = argument_names(alloc, ins)?;
    let variables = Variables {
        bound: Vec::new(alloc),
        params: &params,
    };
    let mut applied = Applied {
        names: Vec::new(alloc),
    };
    applied.note_expr(alloc, &variables, body)?;
    Ok(applied.names)
}
