// The signs between operands, by which parentheses are decided.
ghost use Rattle.std.specs.Prelude.{◌≡◌};
ghost use Rattle.bpl_ast.specs.ExprView.{exprs_of, terms_of};
ghost use Rattle.canonical_text.specs.Expression.{behind, behind_term};

use bpl_ast::expr::{Expr, Term};

/// The sign behind an operand.
#[derive(Clone, Copy, Drop)]
pub enum Sign {
    IffSign,
    ImpliesSign,
    AndSign,
    OrSign,
    RelationSign,
    TermSign,
    FactorSign,
    IndexSign,
}

/// The chain of `&&` or `||` that an expression ends in.
#[derive(Clone, Copy, Drop)]
pub enum Chain {
    NoChain,
    AndChain,
    OrChain,
}

/// The sign behind an operand of a chain: the chain's own, or the one behind the chain.
pub fn sign_behind(inner: Sign, next: Option<Sign>, others: &[Expr]) -> Option<Sign>
    ensures { result ≡ behind inner next (exprs_of others.now) }
{
    match others.split_first() {
        Some(_) => Some(inner),
        None => next,
    }
}

/// The sign behind a part of a sum.
#[tactic(auto, using(crate::proofs::PartTokens::another_term))]
pub fn sign_behind_term(next: Option<Sign>, others: &[Term]) -> Option<Sign>
    ensures { result ≡ behind_term next (terms_of others.now) }
{
    match others.split_first() {
        Some(_) => Some(Sign::TermSign),
        None => next,
    }
}
