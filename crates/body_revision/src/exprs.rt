// Whether expressions are equal, places included.
ghost use Rattle.std.specs.Prelude.{◌≡◌, IsTrue};
ghost use Rattle.bpl_ast.specs.ExprView.{node_of, each_trigger, each_group, term_of, index_of};

use crate::names::{same_name, same_names, same_optional_params};
use crate::parts::{same_quantifier, same_relation};
use crate::types::same_type;
use bpl_ast::{Expr, ExprForm, Group, Index, Term, Trigger, Where};

#[cycle(same_expr)]
pub(crate) fn same_expr(mine: &Expr, theirs: &Expr) -> bool
    ensures equal { IsTrue result → mine.now ≡ theirs.now }
    ensures told { mine.now ≡ theirs.now → IsTrue result }
{
    mine.at == theirs.at && same_form(&mine.form, &theirs.form)
}

// One list after another.
#[cycle(same_expr)]
#[tactic(auto, using(crate::proofs::Injective::exprs_same, crate::proofs::Injective::terms_same, crate::proofs::Injective::indices_same, crate::proofs::Injective::triggers_same, crate::proofs::Injective::groups_same))]
fn same_form(mine: &ExprForm, theirs: &ExprForm) -> bool
    ensures equal { IsTrue result → node_of mine.now ≡ node_of theirs.now }
    ensures told { node_of mine.now ≡ node_of theirs.now → IsTrue result }
{
    match mine {
        ExprForm::Number(n) => match theirs {
            ExprForm::Number(m) => n.value() == m.value(),
            _ => false,
        },
        ExprForm::Truth(b) => match theirs {
            ExprForm::Truth(c) => *b == *c,
            _ => false,
        },
        ExprForm::Variable(name) => match theirs {
            ExprForm::Variable(other) => same_name(name, other),
            _ => false,
        },
        ExprForm::Apply {
            function,
            arguments,
        } => match theirs {
            ExprForm::Apply {
                function: other,
                arguments: others,
            } => same_name(function, other) && same_exprs(arguments, others),
            _ => false,
        },
        ExprForm::Old { at, value } => match theirs {
            ExprForm::Old {
                at: place,
                value: other,
            } => *at == *place && same_expr(value, other),
            _ => false,
        },
        ExprForm::If {
            condition,
            then_value,
            else_value,
        } => match theirs {
            ExprForm::If {
                condition: c,
                then_value: t,
                else_value: e,
            } => same_expr(condition, c) && same_expr(then_value, t) && same_expr(else_value, e),
            _ => false,
        },
        ExprForm::Quantified {
            quantifier,
            at,
            params,
            groups,
            triggers,
            body,
        } => match theirs {
            ExprForm::Quantified {
                quantifier: q,
                at: place,
                params: ps,
                groups: gs,
                triggers: ts,
                body: other,
            } => {
                same_quantifier(*quantifier, *q)
                    && *at == *place
                    && same_optional_params(params, ps)
                    && same_groups(groups, gs)
                    && same_triggers(triggers, ts)
                    && same_expr(body, other)
            }
            _ => false,
        },
        ExprForm::Iff(xs) => match theirs {
            ExprForm::Iff(ys) => same_exprs(xs, ys),
            _ => false,
        },
        ExprForm::Implies(xs) => match theirs {
            ExprForm::Implies(ys) => same_exprs(xs, ys),
            _ => false,
        },
        ExprForm::And(xs) => match theirs {
            ExprForm::And(ys) => same_exprs(xs, ys),
            _ => false,
        },
        ExprForm::Or(xs) => match theirs {
            ExprForm::Or(ys) => same_exprs(xs, ys),
            _ => false,
        },
        ExprForm::Compared {
            relation,
            left,
            right,
        } => match theirs {
            ExprForm::Compared {
                relation: r,
                left: x,
                right: y,
            } => same_relation(*relation, *r) && same_expr(left, x) && same_expr(right, y),
            _ => false,
        },
        ExprForm::Sum { first, others } => match theirs {
            ExprForm::Sum {
                first: x,
                others: ts,
            } => same_expr(first, x) && same_terms(others, ts),
            _ => false,
        },
        ExprForm::Product(xs) => match theirs {
            ExprForm::Product(ys) => same_exprs(xs, ys),
            _ => false,
        },
        ExprForm::Not(x) => match theirs {
            ExprForm::Not(y) => same_expr(x, y),
            _ => false,
        },
        ExprForm::Minus(x) => match theirs {
            ExprForm::Minus(y) => same_expr(x, y),
            _ => false,
        },
        ExprForm::Indexed { map, indices } => match theirs {
            ExprForm::Indexed {
                map: x,
                indices: is,
            } => same_expr(map, x) && same_indices(indices, is),
            _ => false,
        },
    }
}

#[cycle(same_expr)]
fn same_exprs(mine: &[Expr], theirs: &[Expr]) -> bool
    ensures equal { IsTrue result → mine.now ≡ theirs.now }
    ensures told { mine.now ≡ theirs.now → IsTrue result }
{
    if mine.len() != theirs.len() {
        return false;
    }
    for i in 0..mine.len() {
        if !same_expr(&mine[i], &theirs[i]) {
            return false;
        }
    }
    true
}

#[cycle(same_expr)]
fn same_term(mine: &Term, theirs: &Term) -> bool
    ensures equal { IsTrue result → mine.now ≡ theirs.now }
    ensures told { mine.now ≡ theirs.now → IsTrue result }
{
    match mine {
        Term::Plus(x) => match theirs {
            Term::Plus(y) => same_expr(x, y),
            _ => false,
        },
        Term::Less(x) => match theirs {
            Term::Less(y) => same_expr(x, y),
            _ => false,
        },
    }
}

#[cycle(same_expr)]
fn same_terms(mine: &[Term], theirs: &[Term]) -> bool
    ensures equal { IsTrue result → mine.now ≡ theirs.now }
    ensures told { mine.now ≡ theirs.now → IsTrue result }
{
    if mine.len() != theirs.len() {
        return false;
    }
    for i in 0..mine.len() {
        if !same_term(&mine[i], &theirs[i]) {
            return false;
        }
    }
    true
}

#[cycle(same_expr)]
fn same_index(mine: &Index, theirs: &Index) -> bool
    ensures equal { IsTrue result → mine.now ≡ theirs.now }
    ensures told { mine.now ≡ theirs.now → IsTrue result }
{
    match mine {
        Index::Read(x) => match theirs {
            Index::Read(y) => same_expr(x, y),
            _ => false,
        },
        Index::Write(x, value) => match theirs {
            Index::Write(y, other) => same_expr(x, y) && same_expr(value, other),
            _ => false,
        },
    }
}

#[cycle(same_expr)]
fn same_indices(mine: &[Index], theirs: &[Index]) -> bool
    ensures equal { IsTrue result → mine.now ≡ theirs.now }
    ensures told { mine.now ≡ theirs.now → IsTrue result }
{
    if mine.len() != theirs.len() {
        return false;
    }
    for i in 0..mine.len() {
        if !same_index(&mine[i], &theirs[i]) {
            return false;
        }
    }
    true
}

#[cycle(same_expr)]
fn same_trigger(mine: &Trigger, theirs: &Trigger) -> bool
    ensures equal { IsTrue result → (mine.now.at ≡ theirs.now.at) × (mine.now.patterns.items ≡ theirs.now.patterns.items) }
    ensures told { (mine.now.at ≡ theirs.now.at) × (mine.now.patterns.items ≡ theirs.now.patterns.items) → IsTrue result }
{
    mine.at == theirs.at && same_exprs(&mine.patterns, &theirs.patterns)
}

#[cycle(same_expr)]
fn same_triggers(mine: &[Trigger], theirs: &[Trigger]) -> bool
    ensures equal { IsTrue result → each_trigger mine.now ≡ each_trigger theirs.now }
    ensures told { each_trigger mine.now ≡ each_trigger theirs.now → IsTrue result }
{
    if mine.len() != theirs.len() {
        return false;
    }
    for i in 0..mine.len() {
        if !same_trigger(&mine[i], &theirs[i]) {
            return false;
        }
    }
    true
}

#[cycle(same_expr)]
fn same_where(mine: &Option<Where>, theirs: &Option<Where>) -> bool
    ensures equal { IsTrue result → mine.now ≡ theirs.now }
    ensures told { mine.now ≡ theirs.now → IsTrue result }
{
    match mine {
        Some(mine) => match theirs {
            Some(theirs) => {
                mine.at == theirs.at && same_expr(&mine.condition, &theirs.condition)
            }
            None => false,
        },
        None => theirs.is_none(),
    }
}

#[cycle(same_expr)]
fn same_group(mine: &Group, theirs: &Group) -> bool
    ensures equal { IsTrue result → (mine.now.names.items ≡ theirs.now.names.items) × ((mine.now.of ≡ theirs.now.of) × (mine.now.condition ≡ theirs.now.condition)) }
    ensures told { (mine.now.names.items ≡ theirs.now.names.items) × ((mine.now.of ≡ theirs.now.of) × (mine.now.condition ≡ theirs.now.condition)) → IsTrue result }
{
    same_names(&mine.names, &theirs.names)
        && same_type(&mine.of, &theirs.of)
        && same_where(&mine.condition, &theirs.condition)
}

#[cycle(same_expr)]
pub(crate) fn same_groups(mine: &[Group], theirs: &[Group]) -> bool
    ensures equal { IsTrue result → each_group mine.now ≡ each_group theirs.now }
    ensures told { each_group mine.now ≡ each_group theirs.now → IsTrue result }
{
    if mine.len() != theirs.len() {
        return false;
    }
    for i in 0..mine.len() {
        if !same_group(&mine[i], &theirs[i]) {
            return false;
        }
    }
    true
}
