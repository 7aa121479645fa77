// The branch in which the place is, and what a byte makes of it.
ghost use Rattle.std.specs.Prelude.{◌≡◌, Some, IfOk};
ghost use Rattle.proof_core.specs.View.{step_of};
ghost use Rattle.proof_core.specs.ProofView.{end_of};
ghost use Rattle.proof_text.specs.TermStates.{at_byte};
ghost use Rattle.proof_text.specs.States.{at, proved, child_moves, stepped, next_node, ended, into, term_due, in_term, beyond_space, beyond_step, step};
ghost use Rattle.proof_text.specs.declared.node.Beyond.TheVariants as beyond;
ghost use Rattle.proof_text.specs.declared.node.Argument.TheVariants as argument;
ghost use Rattle.proof_text.specs.declared.state.Cursor.TheVariants.{NodeDue, NodeOpened, StepDone, FactDue, Number, FactorDue, Minus, Digits, CaseOrTerm, Inside, ChildDue, After};

use crate::digit::{digit, first_negative, more_integer, more_number};
use crate::node::{Argument, Beyond, Branch, Fact, Factor, Level, Ways};
use crate::parts::{Noted, Steps};
use crate::stack::Stack;
use crate::state::{Cursor, State};
use crate::term_state::TermState;
use proof_core::proof::{End, Proof, Step};
use std::alloc::{AllocError, Global};

/// The branch in which the place is.
pub struct Open {
    pub levels: Stack<Level>,
    pub steps: Steps,
}

// Written out: a derived drop is proved again wherever a value is dropped.
impl Drop for Open {
    fn drop(self) {
        let Open { levels, steps } = self;
        drop(levels);
        drop(steps);
    }
}

impl Open {
    /// The state at this place.
    pub fn at(self, cursor: Cursor) -> State
        ensures { result ≡ at self.levels self.steps cursor }
    {
        let Open { levels, steps } = self;
        State {
            levels,
            steps,
            cursor,
        }
    }

    /// The state behind a step.
    pub fn stepped(self, step: Step) -> Option<State>
        ensures { result ≡ Some (stepped self.levels self.steps (step_of step)) }
    {
        Some(self.at(Cursor::StepDone(Noted { step })))
    }

    // The state where a node begins, behind a step.
    fn next_node(self, step: Step) -> Result<Option<State>, AllocError>
        ensures { IfOk result (λ o. o ≡ Some (next_node self.levels self.steps (step_of step))) }
    {
        let Open { levels, steps } = self;
        let steps = steps.with(step)?;
        Ok(Some(State {
            levels,
            steps,
            cursor: Cursor::NodeDue,
        }))
    }

    /// The state behind the end of the branch.
    pub fn ended(self, alloc: Global, end: End) -> State
        ensures { result ≡ ended self.levels self.steps (end_of end) }
    {
        let Open { levels, steps } = self;
        let steps = steps.into_vec();
        State {
            levels,
            steps: Steps::new(alloc),
            cursor: Cursor::Ended(Proof { steps, end }),
        }
    }

    // The state where a child begins.
    fn into(self, alloc: Global, branch: Branch) -> Result<Option<State>, AllocError>
        ensures { IfOk result (λ o. o ≡ Some (into self.levels self.steps branch)) }
    {
        let Open { levels, steps } = self;
        let levels = levels.over(Level { steps, branch })?;
        Ok(Some(State {
            levels,
            steps: Steps::new(alloc),
            cursor: Cursor::NodeDue,
        }))
    }

    // The state where a term begins.
    fn term_due(self, alloc: Global, argument: Argument) -> State
        ensures { result ≡ term_due self.levels self.steps argument }
    {
        self.at(Cursor::Inside(argument, TermState::start(alloc)))
    }

    // The state behind a head that a number follows.
    fn fact(self, fact: Fact) -> Option<State>
        ensures { result ≡ Some (at self.levels self.steps (After (beyond.Fact fact))) }
    {
        Some(self.at(Cursor::After(Beyond::Fact(fact))))
    }

    // The state behind a head that a term and three children follow.
    fn three(self, ways: Ways) -> Option<State>
        ensures { result ≡ Some (at self.levels self.steps (After (beyond.Term (argument.Three ways)))) }
    {
        Some(self.at(Cursor::After(Beyond::Term(Argument::Three(ways)))))
    }

    /// Where a node begins.
    pub fn node_due(self, byte: u8) -> Option<State>
        ensures { result ≡ step self.levels self.steps NodeDue byte }
    {
        match byte {
            b'(' => Some(self.at(Cursor::NodeOpened)),
            _ => None,
        }
    }

    /// Behind a step.
    pub fn step_done(self, noted: Noted, byte: u8) -> Result<Option<State>, AllocError>
        ensures { IfOk result (λ o. o ≡ step self.levels self.steps (StepDone noted) byte) }
    {
        match byte {
            b' ' => self.next_node(noted.into_step()),
            _ => {
                drop(noted);
                Ok(None)
            }
        }
    }

    /// Behind a parenthesis, where a node's head stands.
    pub fn opened(self, byte: u8) -> Option<State>
        ensures { result ≡ step self.levels self.steps NodeOpened byte }
    {
        match byte {
            b'c' => self.fact(Fact::Close),
            b's' => self.fact(Fact::Split),
            b'i' => self.fact(Fact::Instance),
            b'w' => self.fact(Fact::Skolem),
            b'd' => self.fact(Fact::Differ),
            b't' => self.fact(Fact::Tighten),
            b'e' => self.fact(Fact::Replace),
            b'u' => self.fact(Fact::Unfold),
            b'r' => self.fact(Fact::Back),
            b'k' => self.fact(Fact::Combine),
            b'p' => self.three(Ways::Past),
            b'y' => self.three(Ways::Trichotomy),
            _ => None,
        }
    }

    // A space behind a part.
    fn space(self, alloc: Global, beyond: Beyond) -> Option<State>
        ensures { result ≡ beyond_space self.levels self.steps beyond }
    {
        match beyond {
            Beyond::Fact(fact) => Some(self.at(Cursor::FactDue(fact))),
            Beyond::Factor(factor) => Some(self.at(Cursor::FactorDue(factor))),
            Beyond::Term(argument) => Some(self.term_due(alloc, argument)),
            Beyond::Child(branch) => Some(self.at(Cursor::ChildDue(branch))),
            Beyond::Split(f) => Some(self.at(Cursor::CaseOrTerm(f))),
            Beyond::Instance(f, terms) => {
                Some(self.term_due(alloc, Argument::Instance(f, terms)))
            }
            Beyond::Cases(f, first, others) => {
                Some(self.at(Cursor::ChildDue(Branch::OtherCase(f, first, others))))
            }
            Beyond::Step(noted) => {
                drop(noted);
                None
            }
            Beyond::Close { .. } => None,
            Beyond::Condition(_, term, yes, no) => {
                drop(term);
                drop(yes);
                drop(no);
                None
            }
            Beyond::Three(_, term, below, same, above) => {
                drop(term);
                drop(below);
                drop(same);
                drop(above);
                None
            }
        }
    }

    /// Behind a part.
    pub fn behind(
        self,
        alloc: Global,
        beyond: Beyond,
        byte: u8,
    ) -> Result<Option<State>, AllocError>
        ensures { IfOk result (λ o. o ≡ beyond_step self.levels self.steps beyond byte) }
    {
        match byte {
            b' ' => Ok(self.space(alloc, beyond)),
            b')' => self.close(alloc, beyond),
            _ => {
                drop(beyond);
                Ok(None)
            }
        }
    }

    /// Where a number is due.
    pub fn fact_due(self, fact: Fact, byte: u8) -> Option<State>
        ensures { result ≡ step self.levels self.steps (FactDue fact) byte }
    {
        match digit(byte) {
            Some(d) => Some(self.at(Cursor::Number(fact, u64::from(d)))),
            None => None,
        }
    }

    /// In the digits of a number.
    pub fn in_number(
        self,
        alloc: Global,
        fact: Fact,
        number: u64,
        byte: u8,
    ) -> Result<Option<State>, AllocError>
        ensures { IfOk result (λ o. o ≡ step self.levels self.steps (Number fact number) byte) }
    {
        match more_number(number, byte) {
            Some(more) => Ok(Some(self.at(Cursor::Number(fact, more)))),
            None => self.behind(alloc, fact.numbered(alloc, number), byte),
        }
    }

    /// Where a multiplier is due.
    pub fn factor_due(self, factor: Factor, byte: u8) -> Option<State>
        ensures { result ≡ step self.levels self.steps (FactorDue factor) byte }
    {
        if byte == b'-' {
            return Some(self.at(Cursor::Minus(factor)));
        }
        match digit(byte) {
            Some(d) => Some(self.at(Cursor::Digits(factor, i128::from(d)))),
            None => None,
        }
    }

    /// Behind a minus.
    pub fn minus(self, factor: Factor, byte: u8) -> Option<State>
        ensures { result ≡ step self.levels self.steps (Minus factor) byte }
    {
        match first_negative(byte) {
            Some(number) => Some(self.at(Cursor::Digits(factor, number))),
            None => None,
        }
    }

    /// In the digits of a multiplier.
    pub fn in_factor(
        self,
        alloc: Global,
        factor: Factor,
        number: i128,
        byte: u8,
    ) -> Result<Option<State>, AllocError>
        ensures { IfOk result (λ o. o ≡ step self.levels self.steps (Digits factor number) byte) }
    {
        match more_integer(number, byte) {
            Some(more) => Ok(Some(self.at(Cursor::Digits(factor, more)))),
            None => self.behind(alloc, factor.multiplied(number), byte),
        }
    }

    // One more byte in a term.
    fn in_term(
        self,
        alloc: Global,
        argument: Argument,
        term: TermState,
        byte: u8,
    ) -> Result<Option<State>, AllocError>
        ensures { IfOk result (λ o. o ≡ in_term self.levels self.steps argument term byte) }
    {
        match term.next(alloc, byte)? {
            Some(next) => Ok(Some(self.at(Cursor::Inside(argument, next)))),
            None => Ok(None),
        }
    }

    /// One more byte in a term, or behind it.
    #[tactic(auto, using(crate::proofs::Finished::absent, crate::proofs::Finished::not_absent))]
    pub fn inside(
        self,
        alloc: Global,
        argument: Argument,
        term: TermState,
        byte: u8,
    ) -> Result<Option<State>, AllocError>
        ensures { IfOk result (λ o. o ≡ step self.levels self.steps (Inside argument term) byte) }
    {
        if (byte == b' ' || byte == b')') && term.is_finished() {
            return match term.into_term() {
                Some(term) => self.behind(alloc, argument.given(term)?, byte),
                None => {
                    drop(argument);
                    Ok(None)
                }
            };
        }
        self.in_term(alloc, argument, term, byte)
    }

    /// Where the first child of a split stands, or the condition by which it splits.
    pub fn case_or_term(self, alloc: Global, f: u64, byte: u8) -> Result<Option<State>, AllocError>
        ensures { IfOk result (λ o. o ≡ step self.levels self.steps (CaseOrTerm f) byte) }
    {
        if byte == b'[' {
            return self.into(alloc, Branch::Case(f));
        }
        self.in_term(alloc, Argument::Condition(f), TermState::start(alloc), byte)
    }

    /// Where a child is due.
    pub fn child_due(
        self,
        alloc: Global,
        branch: Branch,
        byte: u8,
    ) -> Result<Option<State>, AllocError>
        ensures { IfOk result (λ o. o ≡ step self.levels self.steps (ChildDue branch) byte) }
    {
        match byte {
            b'[' => self.into(alloc, branch),
            _ => {
                drop(branch);
                Ok(None)
            }
        }
    }

    // The state behind a child of the innermost open node.
    fn child_ended(
        levels: Stack<Level>,
        level: Level,
        alloc: Global,
        proof: Proof,
    ) -> Result<Option<State>, AllocError>
        ensures { IfOk result (λ o. o ≡ Some (at levels level.steps (After (proved level.branch proof)))) }
    {
        let (steps, beyond) = level.proved(alloc, proof)?;
        Ok(Some(State {
            levels,
            steps,
            cursor: Cursor::After(beyond),
        }))
    }

    /// Behind the end of a proof.
    pub fn behind_proof(
        self,
        alloc: Global,
        proof: Proof,
        byte: u8,
    ) -> Result<Option<State>, AllocError>
        ensures { IfOk result (λ o. o ≡ at_byte byte (child_moves self.levels proof)) }
    {
        let Open { levels, steps } = self;
        drop(steps);
        let (last, levels) = levels.split();
        match last {
            Some(level) => match byte {
                b']' => Open::child_ended(levels, level, alloc, proof),
                _ => Ok(None),
            },
            None => Ok(None),
        }
    }
}
