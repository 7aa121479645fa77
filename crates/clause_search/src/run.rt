// The run of a search on a stack of branches.
ghost use Rattle.std.specs.Prelude.{◌≡◌, [], ◌∷◌, length, map, IfOk};
ghost use Rattle.numbered_branches.specs.Branches.{IsBranchOver, branch_at};
ghost use Rattle.numbered_branches.specs.View.{move_seen};
ghost use Rattle.tableau.specs.Search.{run};
ghost use Rattle.term_bank.specs.Numbered.{Begins};
ghost use Rattle.clause_search.specs.Ended.{IsRunBelow, run_at};
ghost use Rattle.clause_search.specs.Packed.{packed_move};
ghost use Rattle.clause_search.specs.Stepped.{ComesTo, IfTaken, IsPaid};
ghost use Rattle.clause_search.specs.Tables.{AreRight};

use crate::ended::Run;
use crate::packed::PackedMove;
use crate::rules::{Tables, step};
use logic_core::fault::NormalFault;
use numbered_branches::branch::Branch;
use numbered_branches::played::Move;
use numbered_facts::Store;
use std::alloc::{AllocError, Global};
use tableau::ended::Verdict;

// What a step on the top branch comes to.
#[derive(Clone, Copy)]
enum Next {
    // It is taken, at this cost.
    Taken(u64),
    // None is taken.
    Ended(Verdict),
}

// Lets a step go.
fn discard(_step: Move) {}

// Takes a step whose cost the turns that are left pay.
fn take(
    alloc: Global,
    left: u64,
    stack: &mut Vec<Branch>,
    moves: &mut Vec<PackedMove>,
    step: Move,
) -> Result<Next, AllocError>
    ensures { IfOk result (IsPaid left stack.old.items stack.new.items (map packed_move moves.old.items) (map packed_move moves.new.items) (move_seen step)) }
{
    let cost = step.cost();
    if left < cost {
        discard(step);
        return Ok(Next::Ended(Verdict::Turns));
    }
    let played = step.play(alloc, stack)?;
    moves.push(PackedMove::of(alloc, played)?)?;
    Ok(Next::Taken(cost))
}

// Steps on the top branch, which is taken off the stack.
fn advance(
    store: &mut Store,
    tables: &mut Tables,
    left: u64,
    stack: &mut Vec<Branch>,
    moves: &mut Vec<PackedMove>,
    branch: Branch,
) -> Result<Next, AllocError>
    requires branch { IsBranchOver store.old.terms branch }
    requires tables { AreRight store.old.terms tables.old }
    ensures terms { Begins store.old.terms store.new.terms }
    ensures defs { IfOk result (λ n. IfTaken n (store.new.defs ≡ store.old.defs)) }
    ensures tables { IfOk result (λ n. IfTaken n (AreRight store.new.terms tables.new)) }
    ensures comes { IfOk result (ComesTo left stack.old.items stack.new.items (map packed_move moves.old.items) (map packed_move moves.new.items) store.old.defs store.old.terms store.new.terms branch) }
{
    let alloc = store.alloc();
    match step(store, tables, branch) {
        Ok(Some(step)) => take(alloc, left, stack, moves, step),
        Ok(None) => Ok(Next::Ended(Verdict::Open)),
        Err(NormalFault::Wide) => Ok(Next::Ended(Verdict::Wide)),
        Err(NormalFault::Memory) => Err(AllocError),
    }
}

/// Searches from one branch: a step at a time on the branch on top of the stack, as long as its
/// cost is paid by the turns that are left.
pub fn run(store: &mut Store, turns: u64, first: Branch) -> Result<Run, AllocError>
    requires { IsBranchOver store.old.terms first }
    ensures terms { Begins store.old.terms store.new.terms }
    ensures below { IfOk result (IsRunBelow (length store.new.terms)) }
    ensures run { IfOk result (λ r. run_at store.new.terms r ≡ run store.old.defs turns turns (branch_at store.old.terms first ∷ [])) }
{
    let alloc = store.alloc();
    let mut tables = Tables::new(alloc);
    let mut left = turns;
    let mut moves = Vec::new(alloc);
    let mut stack = Vec::new(alloc);
    stack.push(first)?;
    while let Some(branch) = stack.pop() {
        let next = advance(store, &mut tables, left, &mut stack, &mut moves, branch)?;
        match next {
            Next::Taken(cost) => left -= cost,
            Next::Ended(verdict) => return Ok(Run { verdict, moves }),
        }
    }
    Ok(Run {
        verdict: Verdict::Proved,
        moves,
    })
}
