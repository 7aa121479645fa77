// Terms with every occurrence of a term replaced. The result need not be in normal form.
ghost use Rattle.std.specs.Prelude.{◌≡◌, IfOk};
ghost use Rattle.logic_terms.specs.Same.{same_term};
ghost use Rattle.logic_core.specs.Traversed.{as_deep, kept};
ghost use Rattle.logic_core.specs.Replace.{for_picked};
ghost use Rattle.logic_core.specs.Subterm.{replaced};

use crate::sort::Sort;
use crate::term::Term;
use crate::traverse::{Walk, traverse};
use std::alloc::{AllocError, Global};

// One term for another.
#[derive(Drop)]
struct Replacement<'a> {
    old: &'a Term,
    new: &'a Term,
}

impl Walk for Replacement<'_> {
    ghost stands = { λ r. for_picked (same_term r.old.now) r.new.now };

    ghost under = { λ r. as_deep };

    ghost number = { λ r. kept };

    fn stands(&self, alloc: Global, _depth: u64, term: &Term) -> Result<Option<Term>, AllocError> {
        if self.old.equals(term) {
            return Ok(Some(self.new.copy(alloc)?));
        }
        Ok(None)
    }

    fn under(&self, depth: u64, _sorts: &[Sort]) -> Result<u64, AllocError> {
        Ok(depth)
    }

    fn number(&self, definition: u64) -> u64 {
        definition
    }
}

/// The term with every occurrence of `old`, inside quantifiers and triggers too, replaced by
/// `new`. What `new` brings in is not looked at again.
pub fn replace(alloc: Global, term: &Term, old: &Term, new: &Term) -> Result<Term, AllocError>
    ensures { IfOk result (λ t. t ≡ replaced old.now new.now term.now) }
{
    traverse(alloc, &Replacement { old, new }, 0, term)
}
