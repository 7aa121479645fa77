// A binder taken away: closed terms stand for its variables in its body. Inside the body's own
// binders the variables are further away: below `depth` inner variables, the binder's variables
// count from `depth` on.
ghost use Rattle.std.specs.Prelude.{◌≡◌, IfOk};
ghost use Rattle.logic_core.specs.Traversed.{deeper, kept};
ghost use Rattle.logic_core.specs.Substitute.{bound_within, for_bound, substitute};

use crate::copy::copy_terms;
use crate::sort::Sort;
use crate::term::{Node, Term};
use crate::traverse::{Walk, traverse};
use std::alloc::{AllocError, Global};

// The variable of that number: an inner one, the term of one of the binder's, or one from outside
// it, which is nearer by as many.
fn bound_within(alloc: Global, terms: &[Term], depth: u64, v: u64) -> Result<Term, AllocError>
    ensures { IfOk result (λ t. t ≡ bound_within terms.now depth v) }
{
    if v < depth {
        return Ok(Term::new(Node::Bound(v)));
    }
    match terms.get((v - depth) as usize) {
        Some(term) => term.copy(alloc),
        None => Ok(Term::new(Node::Bound(v - terms.len() as u64))),
    }
}

// Terms that stand for a binder's variables, its last one's first.
#[derive(Drop)]
struct Substitution<'a> {
    terms: &'a [Term],
}

impl Walk for Substitution<'_> {
    ghost stands = { λ s. for_bound s.terms.now };

    ghost under = { λ s. deeper };

    ghost number = { λ s. kept };

    fn stands(&self, alloc: Global, depth: u64, term: &Term) -> Result<Option<Term>, AllocError> {
        match &term.node {
            Node::Bound(v) => Ok(Some(bound_within(alloc, self.terms, depth, *v)?)),
            _ => Ok(None),
        }
    }

    // More inner variables than are counted don't fit memory.
    fn under(&self, depth: u64, sorts: &[Sort]) -> Result<u64, AllocError> {
        depth.checked_add(sorts.len() as u64).ok_or(AllocError)
    }

    fn number(&self, definition: u64) -> u64 {
        definition
    }
}

/// The body of a binder with these terms for the binder's variables, the first for the first. The
/// terms are meant to be closed: inner binders don't move the bound variables in them.
pub fn substitute(alloc: Global, body: &Term, args: &[Term]) -> Result<Term, AllocError>
    ensures { IfOk result (λ t. t ≡ substitute body.now args.now) }
{
    let mut terms = copy_terms(alloc, args)?;
    terms.reverse();
    traverse(alloc, &Substitution { terms: &terms }, 0, body)
}
