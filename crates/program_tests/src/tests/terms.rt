// Terms for tests.
use logic_core::{Node, Term};
use std::alloc::{AllocError, Global};

pub fn var(number: u64) -> Term {
    Term::new(Node::Free(number))
}

pub fn equal(alloc: Global, a: Term, b: Term) -> Result<Term, AllocError> {
    Ok(Term::new(Node::Eq(Box::new(alloc, a)?, Box::new(alloc, b)?)))
}

/// That the constant is 0.
pub fn constant_is_zero(alloc: Global) -> Result<Term, AllocError> {
    equal(alloc, var(0), Term::new(Node::Num(0)))
}

/// The function of number 0 of the constant.
pub fn applied(alloc: Global) -> Result<Term, AllocError> {
    Ok(Term::new(Node::Call(0, vec![in alloc; var(0)]?)))
}
