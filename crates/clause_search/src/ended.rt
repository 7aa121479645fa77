// A search over numbers that ended, and the proof that its moves make over terms.
ghost use Rattle.std.specs.Prelude.{◌≡◌, [], map, length, slice_get, IfOk, OnOk};
ghost use Rattle.std.specs.List.{AllByRecursion};
ghost use Rattle.tableau.specs.PartialView.{partials_of};
ghost use Rattle.tableau.specs.Search.{found_by, proofs_before};
ghost use Rattle.numbered_branches.specs.Moves.{IsPlayedBelow, played_at};
ghost use Rattle.clause_search.specs.Ended.{IsRunBelow, run_at};
ghost use Rattle.clause_search.specs.Packed.{packed_move};

use crate::packed::PackedMove;
use numbered_terms::Terms;
use proof_core::proof::Proof;
use std::alloc::AllocError;
use tableau::assembly::join;
use tableau::ended::Verdict;
use tableau::partial::PartialProof;
use tableau_branch::played::Played as TreePlayed;

/// A search that ended: its verdict, and what the proof needs of its moves.
#[derive(Drop)]
pub struct Run {
    pub verdict: Verdict,
    pub moves: Vec<PackedMove>,
}

// The number of nodes with which the first branch's proof begins.
fn first_steps(played: &TreePlayed) -> usize {
    match played.steps.get(0) {
        Some(steps) => steps.len(),
        None => 0,
    }
}

// Room for exactly so many more nodes of the proof on top. A list that grows by doubling would leave holes
// between the proofs when it is cut to its length.
fn make_room(stack: &mut Vec<PartialProof>, more: usize) -> Result<(), AllocError>
    ensures { OnOk result (partials_of stack.new.items ≡ partials_of stack.old.items) }
{
    match stack.pop() {
        Some(top) => {
            let mut partial = top;
            partial.steps.reserve_exact(more)?;
            stack.push(partial)?;
            Ok(())
        }
        None => Ok(()),
    }
}

// The proof of the first branch, from the moves that emptied the stack. Each is let go once it is joined.
fn assemble(terms: &Terms, mut moves: Vec<PackedMove>) -> Result<Option<Proof>, AllocError>
    requires { AllByRecursion (IsPlayedBelow (length terms.now)) (map packed_move moves.items) }
    ensures { IfOk result (λ p. p ≡ slice_get (proofs_before (map (played_at terms.now) (map packed_move moves.items)) []) 0) }
{
    let alloc = terms.alloc();
    let mut stack = Vec::new(alloc);
    while let Some(step) = moves.pop() {
        let played = step.tree(terms)?;
        let more = first_steps(&played);
        make_room(&mut stack, more)?;
        join(alloc, &mut stack, played)?;
    }
    match stack.pop() {
        Some(partial) => Ok(Some(partial.finish())),
        None => Ok(None),
    }
}

impl Run {
    /// The proof that its moves make, where it ended Proved. Else they are let go.
    pub fn proof(self, terms: &Terms) -> Result<Option<Proof>, AllocError>
        requires { IsRunBelow (length terms.now) self }
        ensures { IfOk result (λ p. p ≡ found_by (run_at terms.now self).verdict (run_at terms.now self).moves) }
    {
        match self.verdict {
            Verdict::Proved => assemble(terms, self.moves),
            _ => Ok(None),
        }
    }
}
