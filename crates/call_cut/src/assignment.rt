// Assignments of a call.
ghost use Rattle.std.specs.Prelude.{◌≡◌, IfOk, map, zip};
ghost use Rattle.logic_core.specs.Tree.{free};

use logic_core::{Node, Term};
use std::alloc::{AllocError, Global};

/// Each variable with its term, as far as both go.
pub fn pairs(alloc: Global, vars: &[u64], terms: &[Term]) -> Result<Vec<(u64, Term)>, AllocError>
    ensures { IfOk result (λ v. v.items ≡ zip vars.now terms.now) }
{
    let shared = vars.len().min(terms.len());
    let mut pairs = Vec::new(alloc);
    for i in 0..shared {
        pairs.push((vars[i], terms[i].copy(alloc)?))?;
    }
    Ok(pairs)
}

/// The variables as terms.
pub fn as_terms(alloc: Global, vars: &[u64]) -> Result<Vec<Term>, AllocError>
    ensures { IfOk result (λ v. v.items ≡ map free vars.now) }
{
    let mut terms = Vec::new(alloc);
    for var in vars {
        terms.push(Term::new(Node::Free(*var)))?;
    }
    Ok(terms)
}
