// The sort of a term, by number.
ghost use Rattle.std.specs.Prelude.{◌≡◌, ◌<◌, length, IfOk};
ghost use Rattle.logic_core.specs.Sorts.{sort_of};
ghost use Rattle.term_bank.specs.Numbered.{at};

use crate::tree::tree;
use logic_core::{Def, Sort};
use numbered_terms::Terms;
use std::alloc::AllocError;
use term_bank::TermId;

/// The sort of a term, where it is well sorted, over variables, definitions and bound variables in reach.
pub fn sort_of(
    terms: &Terms,
    vars: &[Sort],
    defs: &[Def],
    bound: &[Sort],
    id: TermId,
) -> Result<Option<Sort>, AllocError>
    requires { id < length terms.now }
    ensures { IfOk result (λ s. s ≡ sort_of vars.now defs.now bound.now (at terms.now id)) }
{
    let term = tree(terms, id)?;
    term.sort_over(terms.alloc(), vars, defs, bound)
}
