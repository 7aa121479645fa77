// Whether a quantifier stands in an expression.
ghost use Rattle.std.specs.Prelude.{◌≡◌, [], ◌∷◌};
ghost use Rattle.bpl_ast.specs.ExprView.{exprs_of, terms_of, indices_of};
ghost use Rattle.bpl_scopes.specs.Functions.{is_quantified, any_quantified, terms_quantified, indices_quantified};

use bpl_ast::{Expr, ExprForm, Index, Term};

/// Whether a quantifier stands in the expression.
#[cycle(quantified)]
pub fn is_quantified(x: &Expr) -> bool
    ensures { result ≡ is_quantified x.now }
{
    match &x.form {
        ExprForm::Number(_) | ExprForm::Truth(_) | ExprForm::Variable(_) => false,
        ExprForm::Apply { arguments, .. } => any_quantified(arguments),
        ExprForm::Iff(xs)
        | ExprForm::Implies(xs)
        | ExprForm::And(xs)
        | ExprForm::Or(xs)
        | ExprForm::Product(xs) => any_quantified(xs),
        ExprForm::Old { value, .. } => is_quantified(value),
        ExprForm::Not(x) | ExprForm::Minus(x) => is_quantified(x),
        ExprForm::If {
            condition,
            then_value,
            else_value,
        } => {
            is_quantified(condition) || (is_quantified(then_value) || is_quantified(else_value))
        }
        ExprForm::Quantified { .. } => true,
        ExprForm::Compared { left, right, .. } => is_quantified(left) || is_quantified(right),
        ExprForm::Sum { first, others } => is_quantified(first) || terms_quantified(others),
        ExprForm::Indexed { map, indices } => is_quantified(map) || indices_quantified(indices),
    }
}

#[cycle(quantified)]
fn any_quantified(xs: &[Expr]) -> bool
    ensures { result ≡ any_quantified (exprs_of xs.now) }
{
    for x in xs {
        if is_quantified(x) {
            return true;
        }
    }
    false
}

#[cycle(quantified)]
fn is_term_quantified(term: &Term) -> bool
    ensures { result ≡ terms_quantified (terms_of (term.now ∷ [])) }
{
    match term {
        Term::Plus(x) => is_quantified(x),
        Term::Less(x) => is_quantified(x),
    }
}

#[cycle(quantified)]
fn terms_quantified(terms: &[Term]) -> bool
    ensures { result ≡ terms_quantified (terms_of terms.now) }
{
    for term in terms {
        if is_term_quantified(term) {
            return true;
        }
    }
    false
}

#[cycle(quantified)]
fn is_index_quantified(index: &Index) -> bool
    ensures { result ≡ indices_quantified (indices_of (index.now ∷ [])) }
{
    match index {
        Index::Read(x) => is_quantified(x),
        Index::Write(x, y) => is_quantified(x) || is_quantified(y),
    }
}

#[cycle(quantified)]
fn indices_quantified(indices: &[Index]) -> bool
    ensures { result ≡ indices_quantified (indices_of indices.now) }
{
    for index in indices {
        if is_index_quantified(index) {
            return true;
        }
    }
    false
}
