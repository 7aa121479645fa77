// Stores into maps of maps.
ghost use Rattle.std.specs.Prelude.{◌≡◌, IfOk};
ghost use Rattle.logic_core.specs.View.{trees_of};
ghost use Rattle.bpl_terms.specs.Terms.{stored};

use logic_core::{Node, Term};
use std::alloc::{AllocError, Global};

/// The map after a store at these indices, one in another, or the value where there is none.
pub fn stored(alloc: Global, map: Term, indices: &[Term], value: Term) -> Result<Term, AllocError>
    ensures { IfOk result (λ t. t ≡ stored map (trees_of indices.now) value) }
{
    let Some((first, others)) = indices.split_first() else {
        return Ok(value);
    };
    let inner = Term::new(Node::Read(
        Box::new(alloc, map.copy(alloc)?)?,
        Box::new(alloc, first.copy(alloc)?)?,
    ));
    let entry = stored(alloc, inner, others, value)?;
    Ok(Term::new(Node::Write(
        Box::new(alloc, map)?,
        Box::new(alloc, first.copy(alloc)?)?,
        Box::new(alloc, entry)?,
    )))
}
