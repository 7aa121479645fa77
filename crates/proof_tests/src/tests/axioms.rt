// Axioms, for each rule of steps and of cases one that it can work on.
use super::build::{
    M, N, X, Y, at_most, bound, call, choice, equal, formulas, integer, next, not, number, read,
    read_past, variable,
};
use logic_core::{Node, Term};
use std::alloc::{AllocError, Global};

// Each number is at least 0.
fn every(alloc: Global) -> Result<Term, AllocError> {
    let body = at_most(alloc, number(0), bound())?;
    Ok(Term::new(Node::ForAll(integer(alloc)?, Vec::new(alloc), Box::new(alloc, body)?)))
}

// The map m has 1 somewhere.
fn one(alloc: Global) -> Result<Term, AllocError> {
    let body = equal(alloc, read(alloc, variable(M), bound())?, number(1))?;
    Ok(Term::new(Node::Exists(integer(alloc)?, Vec::new(alloc), Box::new(alloc, body)?)))
}

/// Number 0 is false, and the others in order: p and q; every; one; x + 1 = y; y <= x; a call is 0;
/// reads of m written at x and at y are 0; m and n aren't equal; p or q; a choice is 0.
pub fn axioms(alloc: Global) -> Result<Vec<Term>, AllocError> {
    let mut axioms = Vec::new(alloc);
    axioms.push(Term::new(Node::Truth(false)))?;
    axioms.push(Term::new(Node::And(formulas(alloc)?)))?;
    axioms.push(every(alloc)?)?;
    axioms.push(one(alloc)?)?;
    axioms.push(equal(alloc, next(alloc)?, variable(Y))?)?;
    axioms.push(at_most(alloc, variable(Y), variable(X))?)?;
    axioms.push(equal(alloc, call(alloc)?, number(0))?)?;
    axioms.push(equal(alloc, read_past(alloc, variable(X))?, number(0))?)?;
    axioms.push(equal(alloc, read_past(alloc, variable(Y))?, number(0))?)?;
    axioms.push(not(alloc, equal(alloc, variable(M), variable(N))?)?)?;
    axioms.push(Term::new(Node::Or(formulas(alloc)?)))?;
    axioms.push(equal(alloc, choice(alloc)?, number(0))?)?;
    Ok(axioms)
}
