//! How turns end.
ghost use Rattle.std.specs.Prelude.{◌≡◌, ℕ, Some};
ghost use Rattle.std.specs.Arc.{arc_value};
ghost use Rattle.turn_lock.specs.Lock.{IsHolding, above, lock_id, splits};
ghost use Rattle.board_core.specs.Board.{Event, Reply, deposit, give_back, no_memory, deposited, given_back, memory};
ghost use Rattle.board_core.specs.Step.{Steps};
ghost use Rattle.board_core.specs.Handed.{ticket};
ghost use Rattle.obligation_board.specs.Calls.{Holds, IsCall, Knows, MayCall};
ghost use Rattle.obligation_board.specs.Passes.{StaysPassOf};

use crate::posted::Posted;
use crate::shared::{Pass, SharedBoard};
use board_core::{Call, Claim};
use bv_base::{Answered, Question};
use std::alloc::Global;
use std::marker::Brand;
use std::snapshot::Snapshot;
use std::sync::Arc;
use turn_lock::{Says, Turn};

impl<A: Answered + Drop> SharedBoard<A>
where
    A::Q: Drop,
{
    // Ends the turn with the call that W says: one that the pass may make, and that took the board from what it was to
    // what it is.
    pub(crate) fn finish<W: Says<Call<A>>>(&self, pass: &mut Pass<A>, turn: Turn<Posted<A>>) -> u64
        requires pass { (pass.old.table_id ≡ lock_id self.now.lock) × IsHolding pass.old turn }
        requires call { (e : Event A) × (r : Reply A) × (W.what ≡ Some (record { event = e; reply = r })) × Steps turn.was.value.board e turn.state.board r × MayCall (λ a. A.Q.key (A.asked a)) A.right pass.old e }
        ensures pass { StaysPassOf self.now pass.old pass.new }
        ensures above { above pass.new ≡ above pass.old }
        ensures splits { splits pass.new ≡ splits pass.old }
        ensures knows { Knows (λ a. A.Q.key (A.asked a)) A.right pass.new }
        ensures call { (e : Event A) (r : Reply A) → W.what ≡ Some (record { event = e; reply = r }) → IsCall (λ a. A.Q.key (A.asked a)) A.right pass.old pass.new e result r }
    {
        self.lock.leave_as::<W>(pass, turn)
    }

    // Ends the turn of a call for which there was no memory.
    pub(crate) fn finish_without_memory(&self, pass: &mut Pass<A>, turn: Turn<Posted<A>>)
        requires pass { (pass.old.table_id ≡ lock_id self.now.lock) × IsHolding pass.old turn }
        requires same { turn.state.board ≡ turn.was.value.board }
        ensures pass { StaysPassOf self.now pass.old pass.new }
        ensures above { above pass.new ≡ above pass.old }
        ensures splits { splits pass.new ≡ splits pass.old }
        ensures knows { Knows (λ a. A.Q.key (A.asked a)) A.right pass.new }
        ensures call { (place : ℕ) × IsCall (λ a. A.Q.key (A.asked a)) A.right pass.old pass.new no_memory place memory }
    {
        self.finish::<Brand>(pass, turn);
    }

    // Ends the turn of a deposit.
    pub(crate) fn finish_deposit<W: Says<Call<A>>>(
        &self,
        pass: &mut Pass<A>,
        turn: Turn<Posted<A>>,
        claim: &Snapshot<Claim<A>>,
        answer: &Snapshot<Arc<A, Global>>,
        present: u64,
    ) -> u64
        requires said { W.what ≡ Some (record { event = deposit (ticket A.Q.key claim.now.value) (arc_value answer.now.value); reply = deposited present }) }
        requires pass { (pass.old.table_id ≡ lock_id self.now.lock) × IsHolding pass.old turn }
        requires step { Steps turn.was.value.board (deposit (ticket A.Q.key claim.now.value) (arc_value answer.now.value)) turn.state.board (deposited present) }
        requires held { Holds pass.old (ticket A.Q.key claim.now.value) }
        requires answer { (A.Q.key (A.asked (arc_value answer.now.value)) ≡ (ticket A.Q.key claim.now.value).key) × A.right (arc_value answer.now.value) }
        ensures pass { StaysPassOf self.now pass.old pass.new }
        ensures above { above pass.new ≡ above pass.old }
        ensures splits { splits pass.new ≡ splits pass.old }
        ensures knows { Knows (λ a. A.Q.key (A.asked a)) A.right pass.new }
        ensures call { IsCall (λ a. A.Q.key (A.asked a)) A.right pass.old pass.new (deposit (ticket A.Q.key claim.now.value) (arc_value answer.now.value)) result (deposited present) }
    {
        self.finish::<W>(pass, turn)
    }

    // Ends the turn in which a claim is given back.
    pub(crate) fn finish_give_back<W: Says<Call<A>>>(
        &self,
        pass: &mut Pass<A>,
        turn: Turn<Posted<A>>,
        claim: &Snapshot<Claim<A>>,
    ) -> u64
        requires said { W.what ≡ Some (record { event = give_back (ticket A.Q.key claim.now.value); reply = given_back }) }
        requires pass { (pass.old.table_id ≡ lock_id self.now.lock) × IsHolding pass.old turn }
        requires step { Steps turn.was.value.board (give_back (ticket A.Q.key claim.now.value)) turn.state.board given_back }
        requires held { Holds pass.old (ticket A.Q.key claim.now.value) }
        ensures pass { StaysPassOf self.now pass.old pass.new }
        ensures above { above pass.new ≡ above pass.old }
        ensures splits { splits pass.new ≡ splits pass.old }
        ensures knows { Knows (λ a. A.Q.key (A.asked a)) A.right pass.new }
        ensures call { IsCall (λ a. A.Q.key (A.asked a)) A.right pass.old pass.new (give_back (ticket A.Q.key claim.now.value)) result given_back }
    {
        self.finish::<W>(pass, turn)
    }
}
