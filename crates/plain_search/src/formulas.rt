// Formulas that the rules make.
ghost use Rattle.std.specs.Prelude.{◌≡◌, pos, negsuc, IfOk};
ghost use Rattle.logic_core.specs.Tree.{num, linear, part, no_parts, at_most};
ghost use Rattle.proof_core.specs.Maps.{below_zero, at_zero, above_zero};
ghost use Rattle.proof_core.specs.Split.{both};

use logic_core::term::{Node, Term};
use std::alloc::{AllocError, Global};
use tableau_branch::build::equal;

/// That both hold.
pub fn both(alloc: Global, s: Term, t: Term) -> Result<Term, AllocError>
    ensures { IfOk result (λ u. u ≡ both s t) }
{
    Ok(Term::new(Node::And(Vec::from_array(alloc, [s, t])?)))
}

/// a - b.
pub fn less(alloc: Global, a: &Term, b: &Term) -> Result<Term, AllocError>
    ensures { IfOk result (λ t. t ≡ linear (part (pos 1) a.now (part (negsuc 0) b.now no_parts)) (pos 0)) }
{
    let parts = [(1, a.copy(alloc)?), (-1, b.copy(alloc)?)];
    Ok(Term::new(Node::Sum(Vec::from_array(alloc, parts)?, 0)))
}

// Le(0, k * d - 1).
fn beyond_zero(alloc: Global, k: i128, d: &Term) -> Result<Term, AllocError>
    ensures { IfOk result (λ t. t ≡ at_most (num (pos 0)) (linear (part k d.now no_parts) (negsuc 0))) }
{
    let parts = Vec::from_array(alloc, [(k, d.copy(alloc)?)])?;
    let zero = Box::new(alloc, Term::new(Node::Num(0)))?;
    let sum = Box::new(alloc, Term::new(Node::Sum(parts, -1)))?;
    Ok(Term::new(Node::Le(zero, sum)))
}

/// Le(0, -d - 1).
pub fn below_zero(alloc: Global, d: &Term) -> Result<Term, AllocError>
    ensures { IfOk result (λ t. t ≡ below_zero d.now) }
{
    beyond_zero(alloc, -1, d)
}

/// Eq(d, 0).
pub fn at_zero(alloc: Global, d: &Term) -> Result<Term, AllocError>
    ensures { IfOk result (λ t. t ≡ at_zero d.now) }
{
    equal(alloc, d, &Term::new(Node::Num(0)))
}

/// Le(0, d - 1).
pub fn above_zero(alloc: Global, d: &Term) -> Result<Term, AllocError>
    ensures { IfOk result (λ t. t ≡ above_zero d.now) }
{
    beyond_zero(alloc, 1, d)
}
