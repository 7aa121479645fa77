// Formulas that the rules make.
ghost use Rattle.std.specs.Prelude.{◌≡◌, IfOk};
ghost use Rattle.logic_core.specs.Tree.{read, negation, equal};

use logic_core::term::{Node, Term};
use std::alloc::{AllocError, Global};

/// Not t.
pub fn not(alloc: Global, t: &Term) -> Result<Term, AllocError>
    ensures { IfOk result (λ u. u ≡ negation t.now) }
{
    Ok(Term::new(Node::Not(Box::new(alloc, t.copy(alloc)?)?)))
}

/// Eq(a, b).
pub fn equal(alloc: Global, a: &Term, b: &Term) -> Result<Term, AllocError>
    ensures { IfOk result (λ t. t ≡ equal a.now b.now) }
{
    let a = Box::new(alloc, a.copy(alloc)?)?;
    let b = Box::new(alloc, b.copy(alloc)?)?;
    Ok(Term::new(Node::Eq(a, b)))
}

/// Read(map, index).
pub fn read(alloc: Global, map: &Term, index: &Term) -> Result<Term, AllocError>
    ensures { IfOk result (λ t. t ≡ read map.now index.now) }
{
    let map = Box::new(alloc, map.copy(alloc)?)?;
    let index = Box::new(alloc, index.copy(alloc)?)?;
    Ok(Term::new(Node::Read(map, index)))
}
