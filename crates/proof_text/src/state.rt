// Reading a proof byte by byte.
ghost use Rattle.std.specs.Prelude.{◌≡◌, IfOk};
ghost use Rattle.proof_text.specs.States.{step, start, read_proof};

use crate::branch::Open;
use crate::node::{Argument, Beyond, Branch, Fact, Factor, Level};
use crate::parts::{Noted, Steps};
use crate::stack::Stack;
use crate::term_state::TermState;
use proof_core::proof::Proof;
use std::alloc::{AllocError, Global};

/// Where the place is in the innermost node.
#[derive(Drop)]
pub enum Cursor {
    NodeDue,
    NodeOpened,
    StepDone(Noted),
    FactDue(Fact),
    Number(Fact, u64),
    FactorDue(Factor),
    Minus(Factor),
    Digits(Factor, i128),
    CaseOrTerm(u64),
    Inside(Argument, TermState),
    ChildDue(Branch),
    After(Beyond),
    Ended(Proof),
}

/// A proof that has been read in part.
pub struct State {
    pub levels: Stack<Level>,
    pub steps: Steps,
    pub cursor: Cursor,
}

// Written out: a derived drop is proved again wherever a value is dropped.
impl Drop for State {
    fn drop(self) {
        let State {
            levels,
            steps,
            cursor,
        } = self;
        drop(levels);
        drop(steps);
        drop(cursor);
    }
}

impl State {
    /// The place where a proof begins.
    pub fn start(alloc: Global) -> State
        ensures { result ≡ start }
    {
        State {
            levels: Stack::new(alloc),
            steps: Steps::new(alloc),
            cursor: Cursor::NodeDue,
        }
    }

    /// The state behind one more byte, where a proof's text may go on with it.
    pub fn next(self, alloc: Global, byte: u8) -> Result<Option<State>, AllocError>
        ensures { IfOk result (λ o. o ≡ step self.levels self.steps self.cursor byte) }
    {
        let State {
            levels,
            steps,
            cursor,
        } = self;
        let open = Open { levels, steps };
        match cursor {
            Cursor::NodeDue => Ok(open.node_due(byte)),
            Cursor::NodeOpened => Ok(open.opened(byte)),
            Cursor::StepDone(noted) => open.step_done(noted, byte),
            Cursor::FactDue(fact) => Ok(open.fact_due(fact, byte)),
            Cursor::Number(fact, number) => open.in_number(alloc, fact, number, byte),
            Cursor::FactorDue(factor) => Ok(open.factor_due(factor, byte)),
            Cursor::Minus(factor) => Ok(open.minus(factor, byte)),
            Cursor::Digits(factor, number) => open.in_factor(alloc, factor, number, byte),
            Cursor::CaseOrTerm(f) => open.case_or_term(alloc, f, byte),
            Cursor::Inside(argument, term) => open.inside(alloc, argument, term, byte),
            Cursor::ChildDue(branch) => open.child_due(alloc, branch, byte),
            Cursor::After(beyond) => open.behind(alloc, beyond, byte),
            Cursor::Ended(proof) => open.behind_proof(alloc, proof, byte),
        }
    }

    /// The proof that has been read, where its text may end here.
    pub fn proof(self) -> Option<Proof>
        ensures { result ≡ read_proof self.levels self.cursor }
    {
        let State {
            levels,
            steps,
            cursor,
        } = self;
        drop(steps);
        if !levels.is_empty() {
            drop(cursor);
            return None;
        }
        match cursor {
            Cursor::Ended(proof) => Some(proof),
            other => {
                drop(other);
                None
            }
        }
    }
}
