// What the patterns of a trigger are built of, and the variables in them.
ghost use Rattle.std.specs.Prelude.{◌≡◌, [], ◌∷◌, map};
ghost use Rattle.bpl_ast.specs.ExprView.{exprs_of, indices_of};
ghost use Rattle.bpl_faults.specs.ExprFaults.{is_built, all_built, all_reads, is_read_or_application, are_built_patterns, mentions, any_mentions, index_mentions, is_trigger};
ghost use Rattle.bpl_faults.specs.Arguments.{texts_seen};

use bpl_ast::{Expr, ExprForm, Index};

/// Whether an expression is built of reads, applications, variables and literals.
#[cycle(built)]
fn is_built(x: &Expr) -> bool
    ensures { result ≡ is_built x.now }
{
    match &x.form {
        ExprForm::Number(_) | ExprForm::Truth(_) | ExprForm::Variable(_) => true,
        ExprForm::Apply { arguments, .. } => all_built(arguments),
        ExprForm::Indexed { map, indices } => is_built(map) && all_reads(indices),
        ExprForm::Old { .. }
        | ExprForm::If { .. }
        | ExprForm::Quantified { .. }
        | ExprForm::Iff(_)
        | ExprForm::Implies(_)
        | ExprForm::And(_)
        | ExprForm::Or(_)
        | ExprForm::Compared { .. }
        | ExprForm::Sum { .. }
        | ExprForm::Product(_)
        | ExprForm::Not(_)
        | ExprForm::Minus(_) => false,
    }
}

#[cycle(built)]
fn all_built(xs: &[Expr]) -> bool
    ensures { result ≡ all_built (exprs_of xs.now) }
{
    for x in xs {
        if !is_built(x) {
            return false;
        }
    }
    true
}

#[cycle(built)]
fn is_built_read(index: &Index) -> bool
    ensures { result ≡ all_reads (indices_of (index.now ∷ [])) }
{
    match index {
        Index::Read(x) => is_built(x),
        Index::Write(_, _) => false,
    }
}

#[cycle(built)]
fn all_reads(indices: &[Index]) -> bool
    ensures { result ≡ all_reads (indices_of indices.now) }
{
    for index in indices {
        if !is_built_read(index) {
            return false;
        }
    }
    true
}

fn is_read_or_application(x: &Expr) -> bool
    ensures { result ≡ is_read_or_application x.now }
{
    match &x.form {
        ExprForm::Apply { .. } | ExprForm::Indexed { .. } => true,
        ExprForm::Number(_)
        | ExprForm::Truth(_)
        | ExprForm::Variable(_)
        | ExprForm::Old { .. }
        | ExprForm::If { .. }
        | ExprForm::Quantified { .. }
        | ExprForm::Iff(_)
        | ExprForm::Implies(_)
        | ExprForm::And(_)
        | ExprForm::Or(_)
        | ExprForm::Compared { .. }
        | ExprForm::Sum { .. }
        | ExprForm::Product(_)
        | ExprForm::Not(_)
        | ExprForm::Minus(_) => false,
    }
}

fn are_built_patterns(xs: &[Expr]) -> bool
    ensures { result ≡ are_built_patterns (exprs_of xs.now) }
{
    for x in xs {
        if !is_read_or_application(x) || !is_built(x) {
            return false;
        }
    }
    true
}

/// Whether a name stands as a variable in what is so built.
#[cycle(mentions)]
fn mentions(name: &[u8], x: &Expr) -> bool
    ensures { result ≡ mentions name.now x.now }
{
    match &x.form {
        ExprForm::Variable(found) => found.text.as_bytes() == name,
        ExprForm::Apply { arguments, .. } => any_mentions(name, arguments),
        ExprForm::Indexed { map, indices } => mentions(name, map) || index_mentions(name, indices),
        ExprForm::Number(_)
        | ExprForm::Truth(_)
        | ExprForm::Old { .. }
        | ExprForm::If { .. }
        | ExprForm::Quantified { .. }
        | ExprForm::Iff(_)
        | ExprForm::Implies(_)
        | ExprForm::And(_)
        | ExprForm::Or(_)
        | ExprForm::Compared { .. }
        | ExprForm::Sum { .. }
        | ExprForm::Product(_)
        | ExprForm::Not(_)
        | ExprForm::Minus(_) => false,
    }
}

#[cycle(mentions)]
fn any_mentions(name: &[u8], xs: &[Expr]) -> bool
    ensures { result ≡ any_mentions name.now (exprs_of xs.now) }
{
    for x in xs {
        if mentions(name, x) {
            return true;
        }
    }
    false
}

#[cycle(mentions)]
fn is_mentioned_in_index(name: &[u8], index: &Index) -> bool
    ensures { result ≡ index_mentions name.now (indices_of (index.now ∷ [])) }
{
    match index {
        Index::Read(x) => mentions(name, x),
        Index::Write(_, _) => false,
    }
}

#[cycle(mentions)]
fn index_mentions(name: &[u8], indices: &[Index]) -> bool
    ensures { result ≡ index_mentions name.now (indices_of indices.now) }
{
    for index in indices {
        if is_mentioned_in_index(name, index) {
            return true;
        }
    }
    false
}

/// Whether the patterns are a trigger of a quantifier with these variables.
pub(crate) fn is_trigger(variables: &[&[u8]], xs: &[Expr]) -> bool
    ensures { result ≡ is_trigger (texts_seen variables.now) (exprs_of xs.now) }
{
    if !are_built_patterns(xs) {
        return false;
    }
    for variable in variables {
        if !any_mentions(variable, xs) {
            return false;
        }
    }
    true
}
