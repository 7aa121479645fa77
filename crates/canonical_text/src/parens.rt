// Where parentheses are needed.
ghost use Rattle.std.specs.Prelude.{◌≡◌, [], ◌∷◌};
ghost use Rattle.bpl_ast.specs.ExprView.{exprs_of, terms_of, node_of};
ghost use Rattle.canonical_text.specs.Parens.{level, goes_on, chain_of, last_chain, operand_chain, compared, last_compared, operand_compared, if_takes, takes_in, operand_takes, last_takes, terms_take, is_caught, needs_parens};

use crate::level::Level;
use crate::sign::{Chain, Sign};
use bpl_ast::expr::{Expr, ExprForm, Term};

/// The production that spells a form without parentheses.
pub fn level(form: &ExprForm) -> Level
    ensures { result ≡ level (node_of form.now) }
{
    match form {
        ExprForm::Iff(_) => Level::Equivalence,
        ExprForm::Implies(_) => Level::Implication,
        ExprForm::And(_) | ExprForm::Or(_) => Level::Junction,
        ExprForm::Compared { .. } => Level::Comparison,
        ExprForm::Sum { .. } => Level::Sum,
        ExprForm::Product(_) => Level::Product,
        ExprForm::Not(_) | ExprForm::Minus(_) => Level::Unary,
        ExprForm::Indexed { .. } => Level::Postfix,
        ExprForm::Number(_)
        | ExprForm::Truth(_)
        | ExprForm::Variable(_)
        | ExprForm::Apply { .. }
        | ExprForm::Old { .. }
        | ExprForm::If { .. }
        | ExprForm::Quantified { .. } => Level::Atom,
    }
}

/// Whether an expression that ends in this chain, compared or not, goes on with the sign.
fn goes_on(sign: Sign, chain: Chain, is_compared: bool) -> bool
    ensures { result ≡ goes_on sign chain is_compared }
{
    match sign {
        Sign::AndSign => match chain {
            Chain::OrChain => false,
            Chain::NoChain | Chain::AndChain => true,
        },
        Sign::OrSign => match chain {
            Chain::AndChain => false,
            Chain::NoChain | Chain::OrChain => true,
        },
        Sign::RelationSign => !is_compared,
        Sign::IffSign | Sign::ImpliesSign | Sign::TermSign | Sign::FactorSign | Sign::IndexSign =>
            true,
    }
}

/// The chain that the form ends in.
#[cycle(chain)]
fn chain_of(form: &ExprForm) -> Chain
    ensures { result ≡ chain_of (node_of form.now) }
{
    match form {
        ExprForm::Iff(xs) => last_chain(Level::Implication, xs),
        ExprForm::Implies(xs) => last_chain(Level::Junction, xs),
        ExprForm::And(_) => Chain::AndChain,
        ExprForm::Or(_) => Chain::OrChain,
        ExprForm::Compared { .. }
        | ExprForm::Sum { .. }
        | ExprForm::Product(_)
        | ExprForm::Not(_)
        | ExprForm::Minus(_)
        | ExprForm::Indexed { .. }
        | ExprForm::Number(_)
        | ExprForm::Truth(_)
        | ExprForm::Variable(_)
        | ExprForm::Apply { .. }
        | ExprForm::Old { .. }
        | ExprForm::If { .. }
        | ExprForm::Quantified { .. } => Chain::NoChain,
    }
}

/// The chain that an operand ends in where that level stands; in parentheses it ends in none.
#[cycle(chain)]
fn operand_chain(at: Level, x: &Expr) -> Chain
    ensures { result ≡ operand_chain at x.now }
{
    if level(&x.form).is_looser(at) {
        Chain::NoChain
    } else {
        chain_of(&x.form)
    }
}

/// The chain that the last of the operands ends in.
#[cycle(chain)]
#[tactic(auto, using(crate::proofs::LastOperand::last_chain_is, crate::proofs::LastOperand::last_counts))]
fn last_chain(at: Level, xs: &[Expr]) -> Chain
    ensures { result ≡ last_chain at (exprs_of xs.now) }
{
    match xs.split_last() {
        Some((last, _)) => operand_chain(at, last),
        None => Chain::NoChain,
    }
}

/// Whether the last operand of the form is compared.
#[cycle(compared)]
fn compared(form: &ExprForm) -> bool
    ensures { result ≡ compared (node_of form.now) }
{
    match form {
        ExprForm::Iff(xs) => last_compared(Level::Implication, xs),
        ExprForm::Implies(xs) => last_compared(Level::Junction, xs),
        ExprForm::And(xs) | ExprForm::Or(xs) => last_compared(Level::Comparison, xs),
        ExprForm::Compared { .. } => true,
        ExprForm::Sum { .. }
        | ExprForm::Product(_)
        | ExprForm::Not(_)
        | ExprForm::Minus(_)
        | ExprForm::Indexed { .. }
        | ExprForm::Number(_)
        | ExprForm::Truth(_)
        | ExprForm::Variable(_)
        | ExprForm::Apply { .. }
        | ExprForm::Old { .. }
        | ExprForm::If { .. }
        | ExprForm::Quantified { .. } => false,
    }
}

/// Whether an operand ends compared where that level stands.
#[cycle(compared)]
fn operand_compared(at: Level, x: &Expr) -> bool
    ensures { result ≡ operand_compared at x.now }
{
    if level(&x.form).is_looser(at) {
        false
    } else {
        compared(&x.form)
    }
}

/// Whether the last of the operands ends compared.
#[cycle(compared)]
#[tactic(auto, using(crate::proofs::LastOperand::last_compared_is, crate::proofs::LastOperand::last_counts))]
fn last_compared(at: Level, xs: &[Expr]) -> bool
    ensures { result ≡ last_compared at (exprs_of xs.now) }
{
    match xs.split_last() {
        Some((last, _)) => operand_compared(at, last),
        None => false,
    }
}

/// Whether an `if` that ends the form, outside parentheses, takes the sign in.
#[cycle(takes)]
fn if_takes(sign: Sign, form: &ExprForm) -> bool
    ensures { result ≡ if_takes sign (node_of form.now) }
{
    match form {
        ExprForm::If { else_value: y, .. } => takes_in(sign, y),
        ExprForm::Iff(xs) => last_takes(sign, Level::Implication, xs),
        ExprForm::Implies(xs) => last_takes(sign, Level::Junction, xs),
        ExprForm::And(xs) | ExprForm::Or(xs) => last_takes(sign, Level::Comparison, xs),
        ExprForm::Compared { right: y, .. } => operand_takes(sign, Level::Sum, y),
        ExprForm::Sum { others: terms, .. } => terms_take(sign, terms),
        ExprForm::Product(xs) => last_takes(sign, Level::Unary, xs),
        ExprForm::Not(x) | ExprForm::Minus(x) => operand_takes(sign, Level::Unary, x),
        ExprForm::Indexed { .. }
        | ExprForm::Number(_)
        | ExprForm::Truth(_)
        | ExprForm::Variable(_)
        | ExprForm::Apply { .. }
        | ExprForm::Old { .. }
        | ExprForm::Quantified { .. } => false,
    }
}

/// Whether the operand after `else` takes the sign in.
#[cycle(takes)]
fn takes_in(sign: Sign, x: &Expr) -> bool
    ensures { result ≡ takes_in sign x.now }
{
    goes_on(sign, chain_of(&x.form), compared(&x.form)) || if_takes(sign, &x.form)
}

/// Whether an operand takes the sign in where that level stands.
#[cycle(takes)]
fn operand_takes(sign: Sign, at: Level, x: &Expr) -> bool
    ensures { result ≡ operand_takes sign at x.now }
{
    if level(&x.form).is_looser(at) {
        false
    } else {
        if_takes(sign, &x.form)
    }
}

/// Whether the last of the operands takes the sign in.
#[cycle(takes)]
#[tactic(auto, using(crate::proofs::LastOperand::last_takes_is, crate::proofs::LastOperand::last_counts))]
fn last_takes(sign: Sign, at: Level, xs: &[Expr]) -> bool
    ensures { result ≡ last_takes sign at (exprs_of xs.now) }
{
    match xs.split_last() {
        Some((last, _)) => operand_takes(sign, at, last),
        None => false,
    }
}

/// Whether the last part of a sum takes the sign in.
#[cycle(takes)]
#[tactic(auto, using(crate::proofs::LastOperand::terms_take_is, crate::proofs::LastOperand::last_term_counts))]
fn terms_take(sign: Sign, terms: &[Term]) -> bool
    ensures { result ≡ terms_take sign (terms_of terms.now) }
{
    match terms.split_last() {
        Some((last, _)) => term_takes(sign, last),
        None => false,
    }
}

/// Whether a part of a sum takes the sign in.
#[cycle(takes)]
fn term_takes(sign: Sign, term: &Term) -> bool
    ensures { result ≡ terms_take sign (terms_of (term.now ∷ [])) }
{
    match term {
        Term::Plus(x) | Term::Less(x) => operand_takes(sign, Level::Product, x),
    }
}

/// Whether the form is an `if` that would take in the sign behind it.
fn is_caught(behind: Option<Sign>, form: &ExprForm) -> bool
    ensures { result ≡ is_caught behind (node_of form.now) }
{
    match behind {
        Some(sign) => match form {
            ExprForm::If { else_value: y, .. } => takes_in(sign, y),
            ExprForm::Iff(_)
            | ExprForm::Implies(_)
            | ExprForm::And(_)
            | ExprForm::Or(_)
            | ExprForm::Compared { .. }
            | ExprForm::Sum { .. }
            | ExprForm::Product(_)
            | ExprForm::Not(_)
            | ExprForm::Minus(_)
            | ExprForm::Indexed { .. }
            | ExprForm::Number(_)
            | ExprForm::Truth(_)
            | ExprForm::Variable(_)
            | ExprForm::Apply { .. }
            | ExprForm::Old { .. }
            | ExprForm::Quantified { .. } => false,
        },
        None => false,
    }
}

/// Whether parentheses stand around the form where that level stands and that sign comes next.
pub fn needs_parens(at: Level, behind: Option<Sign>, form: &ExprForm) -> bool
    ensures { result ≡ needs_parens at behind (node_of form.now) }
{
    level(form).is_looser(at) || is_caught(behind, form)
}
