// The term of an expression, construct by construct.
ghost use Rattle.std.specs.Prelude.{◌≡◌, ◌++◌, [], ◌∷◌, IfOk, OnOk};
ghost use Rattle.bpl_ast.specs.ExprView.{terms_of, indices_of, triggers_of, groups_of, quantifier_of, exprs_of};
ghost use Rattle.bpl_ast.specs.Tree.{sums, apply, choose, minus};
ghost use Rattle.logic_core.specs.View.{trees_of, each_items};
ghost use Rattle.bpl_scopes.specs.Functions.{in_number_order, function_number};
ghost use Rattle.bpl_faults.specs.ScopeView.{scope_seen};
ghost use Rattle.bpl_scopes.specs.Sorts.{within};
ghost use Rattle.bpl_terms.specs.Terms.{term_in, node_term, terms_in, patterns_in, indexed_term, term_of, binder, bound_sorts};
ghost use Rattle.bpl_terms.specs.TermParts.{each_term, part_in, each_part, each_pattern};

use crate::joined::{binder, comparison, equations, implications, product};
use crate::numbers::{meaning_term, position_of};
use crate::sorts::bound_sorts;
use bpl_ast::{Expr, ExprForm, Group, Index, Name, Quantifier, Term as SumPart, Trigger};
use bpl_faults::Scope;
use bpl_scopes::Positions;
use logic_core::{Node, Term};
use std::alloc::{AllocError, Global};

/// The term of an expression outside `old`. The order is that in which functions are numbered.
pub fn term_of<'a>(
    alloc: Global,
    scope: &Scope<'_, 'a>,
    order: &Positions,
    x: &'a Expr,
) -> Result<Term, AllocError>
    requires { order.now ≡ in_number_order (scope_seen scope.now).table }
    ensures { IfOk result (λ t. t ≡ term_of (scope_seen scope.now) x.now) }
{
    term_in(alloc, scope, order, false, x)
}

#[tactic(auto, unfolding(bpl_scopes::specs::Functions::function_number))]
fn function_number(scope: &Scope, order: &Positions, name: &[u8]) -> u64
    requires { order.now ≡ in_number_order (scope_seen scope.now).table }
    ensures { result ≡ function_number (scope_seen scope.now).table name.now }
{
    position_of(order, name) as u64
}

/// The term of an expression, which may stand inside `old`.
#[cycle(terms)]
pub fn term_in<'a>(
    alloc: Global,
    scope: &Scope<'_, 'a>,
    order: &Positions,
    in_old: bool,
    x: &'a Expr,
) -> Result<Term, AllocError>
    requires { order.now ≡ in_number_order (scope_seen scope.now).table }
    ensures { IfOk result (λ t. t ≡ term_in (scope_seen scope.now) in_old x.now) }
{
    match &x.form {
        ExprForm::Number(number) => Ok(Term::new(Node::Num(number.value() as i128))),
        ExprForm::Truth(truth) => Ok(Term::new(Node::Truth(*truth))),
        ExprForm::Variable(name) => {
            meaning_term(in_old, scope.counts, scope.meaning(name.text.as_bytes()))
        }
        ExprForm::Apply {
            function,
            arguments,
        } => application(alloc, scope, order, in_old, function, arguments),
        ExprForm::Old { value, .. } => term_in(alloc, scope, order, true, value),
        ExprForm::If {
            condition,
            then_value,
            else_value,
        } => choice(
            alloc, scope, order, in_old, condition, then_value, else_value,
        ),
        ExprForm::Quantified {
            quantifier,
            groups,
            triggers,
            body,
            ..
        } => quantified(
            alloc,
            scope,
            order,
            in_old,
            *quantifier,
            groups,
            triggers,
            body,
        ),
        ExprForm::Iff(xs) => equations(alloc, terms_in(alloc, scope, order, in_old, xs)?),
        ExprForm::Implies(xs) => { implications(alloc, terms_in(alloc, scope, order, in_old, xs)?) }
        ExprForm::And(xs) => {
            Ok(Term::new(Node::And(terms_in(alloc, scope, order, in_old, xs)?)))
        }
        ExprForm::Or(xs) => { Ok(Term::new(Node::Or(terms_in(alloc, scope, order, in_old, xs)?))) }
        ExprForm::Compared {
            relation,
            left,
            right,
        } => {
            let left = term_in(alloc, scope, order, in_old, left)?;
            let right = term_in(alloc, scope, order, in_old, right)?;
            comparison(alloc, *relation, left, right)
        }
        ExprForm::Sum { first, others } => sum(alloc, scope, order, in_old, first, others),
        ExprForm::Product(xs) => product(alloc, terms_in(alloc, scope, order, in_old, xs)?),
        ExprForm::Not(x) => {
            let denied = term_in(alloc, scope, order, in_old, x)?;
            Ok(Term::new(Node::Not(Box::new(alloc, denied)?)))
        }
        ExprForm::Minus(x) => minus(alloc, scope, order, in_old, x),
        ExprForm::Indexed { map, indices } => {
            let map = term_in(alloc, scope, order, in_old, map)?;
            indexed(alloc, scope, order, in_old, map, indices)
        }
    }
}

/// The terms of expressions, in order.
#[cycle(terms)]
pub fn terms_in<'a>(
    alloc: Global,
    scope: &Scope<'_, 'a>,
    order: &Positions,
    in_old: bool,
    xs: &'a [Expr],
) -> Result<Vec<Term>, AllocError>
    requires { order.now ≡ in_number_order (scope_seen scope.now).table }
    ensures terms { IfOk result (λ v. v.items ≡ each_term (scope_seen scope.now) in_old xs.now) }
    ensures tree { IfOk result (λ v. trees_of v.items ≡ terms_in (scope_seen scope.now) in_old (exprs_of xs.now)) }
{
    let mut terms = Vec::new(alloc);
    for x in xs {
        terms.push(term_in(alloc, scope, order, in_old, x)?)?;
    }
    Ok(terms)
}

#[cycle(terms)]
fn application<'a>(
    alloc: Global,
    scope: &Scope<'_, 'a>,
    order: &Positions,
    in_old: bool,
    function: &Name,
    arguments: &'a [Expr],
) -> Result<Term, AllocError>
    requires { order.now ≡ in_number_order (scope_seen scope.now).table }
    ensures { IfOk result (λ t. t ≡ node_term (scope_seen scope.now) in_old (apply function.now (exprs_of arguments.now))) }
{
    let number = function_number(scope, order, function.text.as_bytes());
    let arguments = terms_in(alloc, scope, order, in_old, arguments)?;
    Ok(Term::new(Node::Call(number, arguments)))
}

#[cycle(terms)]
fn choice<'a>(
    alloc: Global,
    scope: &Scope<'_, 'a>,
    order: &Positions,
    in_old: bool,
    condition: &'a Expr,
    then_value: &'a Expr,
    else_value: &'a Expr,
) -> Result<Term, AllocError>
    requires { order.now ≡ in_number_order (scope_seen scope.now).table }
    ensures { IfOk result (λ t. t ≡ node_term (scope_seen scope.now) in_old (choose condition.now then_value.now else_value.now)) }
{
    let condition = term_in(alloc, scope, order, in_old, condition)?;
    let then_value = term_in(alloc, scope, order, in_old, then_value)?;
    let else_value = term_in(alloc, scope, order, in_old, else_value)?;
    Ok(Term::new(Node::If(
        Box::new(alloc, condition)?,
        Box::new(alloc, then_value)?,
        Box::new(alloc, else_value)?,
    )))
}

#[cycle(terms)]
fn minus<'a>(
    alloc: Global,
    scope: &Scope<'_, 'a>,
    order: &Positions,
    in_old: bool,
    x: &'a Expr,
) -> Result<Term, AllocError>
    requires { order.now ≡ in_number_order (scope_seen scope.now).table }
    ensures { IfOk result (λ t. t ≡ node_term (scope_seen scope.now) in_old (minus x.now)) }
{
    let mut parts = Vec::new(alloc);
    parts.push((-1, term_in(alloc, scope, order, in_old, x)?))?;
    Ok(Term::new(Node::Sum(parts, 0)))
}

#[cycle(terms)]
#[tactic(auto, using(crate::proofs::TermLists::parts_are))]
fn sum<'a>(
    alloc: Global,
    scope: &Scope<'_, 'a>,
    order: &Positions,
    in_old: bool,
    first: &'a Expr,
    others: &'a [SumPart],
) -> Result<Term, AllocError>
    requires { order.now ≡ in_number_order (scope_seen scope.now).table }
    ensures { IfOk result (λ t. t ≡ node_term (scope_seen scope.now) in_old (sums first.now (terms_of others.now))) }
{
    let mut parts = Vec::new(alloc);
    parts.push((1, term_in(alloc, scope, order, in_old, first)?))?;
    push_parts(alloc, scope, order, in_old, others, &mut parts)?;
    Ok(Term::new(Node::Sum(parts, 0)))
}

#[cycle(terms)]
fn part<'a>(
    alloc: Global,
    scope: &Scope<'_, 'a>,
    order: &Positions,
    in_old: bool,
    part: &'a SumPart,
) -> Result<(i128, Term), AllocError>
    requires { order.now ≡ in_number_order (scope_seen scope.now).table }
    ensures { IfOk result (λ p. p ≡ part_in (scope_seen scope.now) in_old part.now) }
{
    match part {
        SumPart::Plus(x) => Ok((1, term_in(alloc, scope, order, in_old, x)?)),
        SumPart::Less(x) => Ok((-1, term_in(alloc, scope, order, in_old, x)?)),
    }
}

#[cycle(terms)]
fn push_parts<'a>(
    alloc: Global,
    scope: &Scope<'_, 'a>,
    order: &Positions,
    in_old: bool,
    others: &'a [SumPart],
    parts: &mut Vec<(i128, Term)>,
) -> Result<(), AllocError>
    requires { order.now ≡ in_number_order (scope_seen scope.now).table }
    ensures { OnOk result (parts.new.items ≡ parts.old.items ++ each_part (scope_seen scope.now) in_old others.now) }
{
    for other in others {
        parts.push(part(alloc, scope, order, in_old, other)?)?;
    }
    Ok(())
}

// What is left after an index of a map.
#[cycle(terms)]
fn at_index<'a>(
    alloc: Global,
    scope: &Scope<'_, 'a>,
    order: &Positions,
    in_old: bool,
    map: Term,
    index: &'a Index,
) -> Result<Term, AllocError>
    requires { order.now ≡ in_number_order (scope_seen scope.now).table }
    ensures { IfOk result (λ t. t ≡ indexed_term (scope_seen scope.now) in_old map (indices_of (index.now ∷ []))) }
{
    let map = Box::new(alloc, map)?;
    match index {
        Index::Read(x) => {
            let at = Box::new(alloc, term_in(alloc, scope, order, in_old, x)?)?;
            Ok(Term::new(Node::Read(map, at)))
        }
        Index::Write(x, y) => {
            let at = Box::new(alloc, term_in(alloc, scope, order, in_old, x)?)?;
            let value = Box::new(alloc, term_in(alloc, scope, order, in_old, y)?)?;
            Ok(Term::new(Node::Write(map, at, value)))
        }
    }
}

#[cycle(terms)]
fn indexed<'a>(
    alloc: Global,
    scope: &Scope<'_, 'a>,
    order: &Positions,
    in_old: bool,
    map: Term,
    indices: &'a [Index],
) -> Result<Term, AllocError>
    requires { order.now ≡ in_number_order (scope_seen scope.now).table }
    ensures { IfOk result (λ t. t ≡ indexed_term (scope_seen scope.now) in_old map (indices_of indices.now)) }
{
    let mut whole = map;
    for index in indices {
        whole = at_index(alloc, scope, order, in_old, whole, index)?;
    }
    Ok(whole)
}

#[cycle(terms)]
#[tactic(auto, using(crate::proofs::TermLists::patterns_are))]
fn quantified<'a>(
    alloc: Global,
    scope: &Scope<'_, 'a>,
    order: &Positions,
    in_old: bool,
    quantifier: Quantifier,
    groups: &'a [Group],
    triggers: &'a [Trigger],
    body: &'a Expr,
) -> Result<Term, AllocError>
    requires { order.now ≡ in_number_order (scope_seen scope.now).table }
    ensures { IfOk result (λ t. t ≡ binder (quantifier_of quantifier) (bound_sorts (scope_seen scope.now) (groups_of groups.now)) (patterns_in (within (scope_seen scope.now) (groups_of groups.now)) in_old (triggers_of triggers.now)) (term_in (within (scope_seen scope.now) (groups_of groups.now)) in_old body.now)) }
{
    let sorts = bound_sorts(alloc, scope, groups)?;
    let inner = scope.within(alloc, groups)?;
    let patterns = patterns(alloc, &inner, order, in_old, triggers)?;
    let body = term_in(alloc, &inner, order, in_old, body)?;
    binder(alloc, quantifier, sorts, patterns, body)
}

#[cycle(terms)]
fn patterns<'a>(
    alloc: Global,
    scope: &Scope<'_, 'a>,
    order: &Positions,
    in_old: bool,
    triggers: &'a [Trigger],
) -> Result<Vec<Vec<Term>>, AllocError>
    requires { order.now ≡ in_number_order (scope_seen scope.now).table }
    ensures { IfOk result (λ v. each_items v.items ≡ each_pattern (scope_seen scope.now) in_old triggers.now) }
{
    let mut patterns = Vec::new(alloc);
    for trigger in triggers {
        patterns.push(terms_in(alloc, scope, order, in_old, &trigger.patterns)?)?;
    }
    Ok(patterns)
}
