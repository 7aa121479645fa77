// The proof of a search that has ended.
ghost use Rattle.std.specs.Prelude.{◌≡◌, IfOk};
ghost use Rattle.tableau.specs.RunView.{run_of};
ghost use Rattle.tableau.specs.Search.{found_by};

use crate::assembly::assemble;
use crate::ended::{Run, Verdict};
use proof_core::proof::Proof;
use std::alloc::{AllocError, Global};

/// The proof that the moves of a search make, where it ended Proved.
pub fn found(alloc: Global, ended: Run) -> Result<Option<Proof>, AllocError>
    ensures { IfOk result (λ p. p ≡ found_by (run_of ended).verdict (run_of ended).moves) }
{
    match ended.verdict {
        Verdict::Proved => assemble(alloc, ended.moves),
        _ => Ok(None),
    }
}
