// Terms for tests, over two formulas, a map, two integers and a map: in the order in which the axioms
// mention them.
use logic_core::{Node, Sort, Term};
use std::alloc::{AllocError, Global};

pub const P: u64 = 0;

pub const Q: u64 = 1;

pub const M: u64 = 2;

pub const X: u64 = 3;

pub const Y: u64 = 4;

pub const N: u64 = 5;

pub fn variable(v: u64) -> Term {
    Term::new(Node::Free(v))
}

/// The nearest binder's variable.
pub fn bound() -> Term {
    Term::new(Node::Bound(0))
}

pub fn number(n: i128) -> Term {
    Term::new(Node::Num(n))
}

pub fn not(alloc: Global, t: Term) -> Result<Term, AllocError> {
    Ok(Term::new(Node::Not(Box::new(alloc, t)?)))
}

pub fn equal(alloc: Global, a: Term, b: Term) -> Result<Term, AllocError> {
    Ok(Term::new(Node::Eq(Box::new(alloc, a)?, Box::new(alloc, b)?)))
}

pub fn at_most(alloc: Global, a: Term, b: Term) -> Result<Term, AllocError> {
    Ok(Term::new(Node::Le(Box::new(alloc, a)?, Box::new(alloc, b)?)))
}

pub fn read(alloc: Global, map: Term, index: Term) -> Result<Term, AllocError> {
    Ok(Term::new(Node::Read(Box::new(alloc, map)?, Box::new(alloc, index)?)))
}

/// The map m with 1 at the index, read at x.
pub fn read_past(alloc: Global, index: Term) -> Result<Term, AllocError> {
    let map = Box::new(alloc, variable(M))?;
    let one = Box::new(alloc, number(1))?;
    let written = Term::new(Node::Write(map, Box::new(alloc, index)?, one));
    read(alloc, written, variable(X))
}

/// x where p holds, and y otherwise.
pub fn choice(alloc: Global) -> Result<Term, AllocError> {
    let condition = Box::new(alloc, variable(P))?;
    let (yes, no) = (Box::new(alloc, variable(X))?, Box::new(alloc, variable(Y))?);
    Ok(Term::new(Node::If(condition, yes, no)))
}

/// The definition of number 0, applied to x.
pub fn call(alloc: Global) -> Result<Term, AllocError> {
    Ok(Term::new(Node::Call(0, Vec::from_array(alloc, [variable(X)])?)))
}

/// x + 1.
pub fn next(alloc: Global) -> Result<Term, AllocError> {
    Ok(Term::new(Node::Sum(Vec::from_array(alloc, [(1, variable(X))])?, 1)))
}

/// p and q.
pub fn formulas(alloc: Global) -> Result<Vec<Term>, AllocError> {
    Ok(Vec::from_array(alloc, [variable(P), variable(Q)])?)
}

/// One integer.
pub fn integer(alloc: Global) -> Result<Vec<Sort>, AllocError> {
    Ok(Vec::from_array(alloc, [Sort::int()])?)
}
