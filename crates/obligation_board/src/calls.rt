//! The calls of a shared board. Each takes a turn, and is one entry of the history of all calls.
ghost use Rattle.std.specs.Prelude.{◌≡◌, ℕ, map, IfOk, IfErr, OnErr};
ghost use Rattle.std.specs.Arc.{arc_value};
ghost use Rattle.std.specs.Option.{option_map};
ghost use Rattle.turn_lock.specs.Lock.{above, number, splits};
ghost use Rattle.board_core.specs.Board.{open_keys, claim, deposit, give_back, look, gather, close, no_memory, deposited, given_back, gathered, closed_now, memory};
ghost use Rattle.board_core.specs.Step.{without};
ghost use Rattle.board_core.specs.History.{after_reply};
ghost use Rattle.board_core.specs.Handed.{ticket, open_answer, claim_answer, look_answer};
ghost use Rattle.obligation_board.specs.Calls.{Holds, IsCall, Knows, claims_of};
ghost use Rattle.obligation_board.specs.Passes.{IsPassOf, StaysPassOf};

use crate::shared::{Pass, Receipt, SharedBoard};
use board_core::{Claim, Claimed, Opened, Snapshot};
use bv_base::{Answered, Question};
use std::alloc::{AllocError, Global};
use std::marker::Brand;
use std::snapshot::Snapshot as Remembered;
use std::sync::{Arc, Wait};

impl<A: Answered + Drop> SharedBoard<A>
where
    A::Q: Drop,
{
    /// Replaces the present goals, drops the answers of absent keys where these keys together have
    /// more bytes than the cache's `LIMIT`, and raises the version by one. Claims that are out stay out.
    /// The opener alone may call it. A call for which there is no memory is an entry too, without
    /// effect.
    pub fn open<R: Wait>(
        &self,
        rt: &R,
        opener: &mut Pass<A>,
        items: Vec<Arc<A::Q, Global>>,
    ) -> Result<Receipt<Opened>, AllocError>
        requires pass { IsPassOf self.now opener.old }
        requires opener { number opener.old ≡ 0 }
        ensures pass { StaysPassOf self.now opener.old opener.new }
        ensures above { above opener.new ≡ above opener.old }
        ensures splits { splits opener.new ≡ splits opener.old }
        ensures knows { Knows (λ a. A.Q.key (A.asked a)) A.right opener.new }
        ensures call { IfOk result (λ r. IsCall (λ a. A.Q.key (A.asked a)) A.right opener.old opener.new (open_keys (map (λ q. A.Q.key (arc_value q)) items.items)) r.place (open_answer r.reply)) }
        ensures memory { IfErr result (λ _. (place : ℕ) × IsCall (λ a. A.Q.key (A.asked a)) A.right opener.old opener.new no_memory place memory) }
        ensures claims { claims_of opener.new ≡ claims_of opener.old }
    {
        let mut turn = self.lock.enter(rt, opener);
        let posted = turn.state();
        match posted.board.open(items) {
            Ok(reply) => {
                let place = self.finish::<Brand>(opener, turn);
                self.questions.ring();
                self.changes.ring();
                Ok(Receipt { place, reply })
            }
            Err(error) => {
                self.finish_without_memory(opener, turn);
                Err(error)
            }
        }
    }

    /// Hands out the first present goal's question whose key is neither kept nor out, with a place
    /// for its answer. Closed exactly where a close stands before, and Empty exactly where the board
    /// isn't closed and no such goal is present. A call for which there is no memory is an entry
    /// too, without effect.
    pub fn claim<R: Wait>(
        &self,
        rt: &R,
        pass: &mut Pass<A>,
    ) -> Result<Receipt<Claimed<A>>, AllocError>
        requires { IsPassOf self.now pass.old }
        ensures pass { StaysPassOf self.now pass.old pass.new }
        ensures above { above pass.new ≡ above pass.old }
        ensures splits { splits pass.new ≡ splits pass.old }
        ensures knows { Knows (λ a. A.Q.key (A.asked a)) A.right pass.new }
        ensures call { IfOk result (λ r. IsCall (λ a. A.Q.key (A.asked a)) A.right pass.old pass.new claim r.place (claim_answer A.Q.key r.reply)) }
        ensures memory { IfErr result (λ _. (place : ℕ) × IsCall (λ a. A.Q.key (A.asked a)) A.right pass.old pass.new no_memory place memory) }
        ensures claims { IfOk result (λ r. claims_of pass.new ≡ after_reply (claims_of pass.old) (claim_answer A.Q.key r.reply)) }
        ensures same_claims { OnErr result (claims_of pass.new ≡ claims_of pass.old) }
    {
        let mut turn = self.lock.enter(rt, pass);
        let posted = turn.state();
        match posted.board.claim() {
            Ok(reply) => {
                let place = self.finish::<Brand>(pass, turn);
                Ok(Receipt { place, reply })
            }
            Err(error) => {
                self.finish_without_memory(pass, turn);
                Err(error)
            }
        }
    }

    /// Keeps the answer of a claim that was given to this pass, and ends the claim. Replies how many
    /// present goals have that key, which is 0 exactly where none has it. It takes no memory.
    pub fn deposit<R: Wait>(
        &self,
        rt: &R,
        pass: &mut Pass<A>,
        claim: Claim<A>,
        answer: Arc<A, Global>,
    ) -> Receipt<u64>
        requires pass { IsPassOf self.now pass.old }
        requires held { Holds pass.old (ticket A.Q.key claim) }
        requires key { A.Q.key (A.asked (arc_value answer)) ≡ (ticket A.Q.key claim).key }
        ensures pass { StaysPassOf self.now pass.old pass.new }
        ensures above { above pass.new ≡ above pass.old }
        ensures splits { splits pass.new ≡ splits pass.old }
        ensures knows { Knows (λ a. A.Q.key (A.asked a)) A.right pass.new }
        ensures call { IsCall (λ a. A.Q.key (A.asked a)) A.right pass.old pass.new (deposit (ticket A.Q.key claim) (arc_value answer)) result.place (deposited result.reply) }
        ensures claims { claims_of pass.new ≡ without (ticket A.Q.key claim).number (claims_of pass.old) }
    {
        // An answer that shows its question is right.
        let _question = answer.question();
        let mut turn = self.lock.enter(rt, pass);
        let claimed = Remembered::of(&claim);
        let answered = Remembered::of(&answer);
        let posted = turn.state();
        let reply = posted.board.deposit(claim, answer);
        let place = self.finish_deposit::<Brand>(pass, turn, &claimed, &answered, reply);
        self.changes.ring();
        Receipt { place, reply }
    }

    /// Ends a claim that was given to this pass without an answer: its key is no longer out.
    pub fn give_back<R: Wait>(&self, rt: &R, pass: &mut Pass<A>, claim: Claim<A>) -> Receipt<()>
        requires pass { IsPassOf self.now pass.old }
        requires held { Holds pass.old (ticket A.Q.key claim) }
        ensures pass { StaysPassOf self.now pass.old pass.new }
        ensures above { above pass.new ≡ above pass.old }
        ensures splits { splits pass.new ≡ splits pass.old }
        ensures knows { Knows (λ a. A.Q.key (A.asked a)) A.right pass.new }
        ensures call { IsCall (λ a. A.Q.key (A.asked a)) A.right pass.old pass.new (give_back (ticket A.Q.key claim)) result.place given_back }
        ensures claims { claims_of pass.new ≡ without (ticket A.Q.key claim).number (claims_of pass.old) }
    {
        let mut turn = self.lock.enter(rt, pass);
        let claimed = Remembered::of(&claim);
        let posted = turn.state();
        posted.board.give_back(claim);
        let place = self.finish_give_back::<Brand>(pass, turn, &claimed);
        self.questions.ring();
        self.changes.ring();
        Receipt { place, reply: () }
    }

    /// The version, how many present goals have a kept answer and how many have none, and whether
    /// the board is closed.
    pub fn look<R: Wait>(&self, rt: &R, pass: &mut Pass<A>) -> Receipt<Snapshot>
        requires { IsPassOf self.now pass.old }
        ensures pass { StaysPassOf self.now pass.old pass.new }
        ensures above { above pass.new ≡ above pass.old }
        ensures splits { splits pass.new ≡ splits pass.old }
        ensures knows { Knows (λ a. A.Q.key (A.asked a)) A.right pass.new }
        ensures call { IsCall (λ a. A.Q.key (A.asked a)) A.right pass.old pass.new look result.place (look_answer result.reply) }
        ensures claims { claims_of pass.new ≡ claims_of pass.old }
    {
        let mut turn = self.lock.enter(rt, pass);
        let posted = turn.state();
        let reply = posted.board.look();
        let place = self.finish::<Brand>(pass, turn);
        Receipt { place, reply }
    }

    /// The kept answer of each present goal in order; None exactly where the goal has none. A call
    /// for which there is no memory is an entry too, without effect.
    pub fn gather<R: Wait>(
        &self,
        rt: &R,
        pass: &mut Pass<A>,
    ) -> Result<Receipt<Vec<Option<Arc<A, Global>>>>, AllocError>
        requires { IsPassOf self.now pass.old }
        ensures pass { StaysPassOf self.now pass.old pass.new }
        ensures above { above pass.new ≡ above pass.old }
        ensures splits { splits pass.new ≡ splits pass.old }
        ensures knows { Knows (λ a. A.Q.key (A.asked a)) A.right pass.new }
        ensures call { IfOk result (λ r. IsCall (λ a. A.Q.key (A.asked a)) A.right pass.old pass.new gather r.place (gathered (map (option_map arc_value) r.reply.items))) }
        ensures memory { IfErr result (λ _. (place : ℕ) × IsCall (λ a. A.Q.key (A.asked a)) A.right pass.old pass.new no_memory place memory) }
        ensures claims { claims_of pass.new ≡ claims_of pass.old }
    {
        let mut turn = self.lock.enter(rt, pass);
        let posted = turn.state();
        match posted.board.gather() {
            Ok(reply) => {
                let place = self.finish::<Brand>(pass, turn);
                Ok(Receipt { place, reply })
            }
            Err(error) => {
                self.finish_without_memory(pass, turn);
                Err(error)
            }
        }
    }

    /// Closes the board: from now on no claim is handed out. The opener alone may call it. A second
    /// close changes nothing.
    pub fn close<R: Wait>(&self, rt: &R, opener: &mut Pass<A>) -> Receipt<()>
        requires pass { IsPassOf self.now opener.old }
        requires opener { number opener.old ≡ 0 }
        ensures pass { StaysPassOf self.now opener.old opener.new }
        ensures above { above opener.new ≡ above opener.old }
        ensures splits { splits opener.new ≡ splits opener.old }
        ensures knows { Knows (λ a. A.Q.key (A.asked a)) A.right opener.new }
        ensures call { IsCall (λ a. A.Q.key (A.asked a)) A.right opener.old opener.new close result.place closed_now }
        ensures claims { claims_of opener.new ≡ claims_of opener.old }
    {
        let mut turn = self.lock.enter(rt, opener);
        let posted = turn.state();
        posted.board.close();
        let place = self.finish::<Brand>(opener, turn);
        self.questions.ring();
        self.changes.ring();
        Receipt { place, reply: () }
    }
}
