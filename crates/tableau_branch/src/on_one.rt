// A move that goes on on one branch.
ghost use Rattle.std.specs.Prelude.{◌≡◌, ◌<◌, IfOk, length};
ghost use Rattle.proof_core.specs.View.{step_of};
ghost use Rattle.tableau_branch.specs.OneBranch.{changing};
ghost use Rattle.tableau_branch.specs.View.{move_of};

use crate::branch::{Branch, Made};
use crate::change::{append_by, change_at};
use crate::played::Move;
use logic_core::term::Term;
use proof_core::proof::Step;
use std::alloc::{AllocError, Global};

/// The fact at `at` becomes the one that the node appends.
pub fn changing(
    alloc: Global,
    branch: Branch,
    at: usize,
    node: Step,
    term: Term,
) -> Result<Move, AllocError>
    requires { at < length branch.facts }
    ensures { IfOk result (λ m. move_of m ≡ changing at (step_of node) term branch) }
{
    let mut made = Made::begun(alloc, branch);
    let fact = append_by(alloc, &mut made, node, term)?;
    change_at(&mut made, at, fact);
    Move::on_one(alloc, made)
}
