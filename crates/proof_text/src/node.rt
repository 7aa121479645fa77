// What is open in a node, and what stands behind its numbers, terms and children.
ghost use Rattle.std.specs.Prelude.{◌≡◌, IfOk};
ghost use Rattle.proof_core.specs.ProofView.{end_of};
ghost use Rattle.proof_core.specs.View.{step_of};
ghost use Rattle.proof_text.specs.declared.node.Beyond.TheVariants as beyond;
ghost use Rattle.proof_text.specs.States.{numbered, multiplied, given, proved, three_of};

use crate::parts::{Noted, Steps, boxed_three, joined};
use logic_core::sequence::Sequence;
use logic_core::term::Term;
use proof_core::proof::{End, Proof, Step};
use std::alloc::{AllocError, Global};

/// Which number without a sign a node has here, with those before it.
#[derive(Clone, Copy)]
pub enum Fact {
    Close,
    CloseBy(u64),
    Split,
    Instance,
    Skolem,
    Differ,
    Tighten,
    Replace,
    ReplaceBy(u64),
    Unfold,
    Back,
    Combine,
    CombineBy { first: u64, first_times: i128 },
}

/// Which multiplier a node has here, with the numbers before it.
#[derive(Clone, Copy)]
pub enum Factor {
    First(u64),
    Second {
        first: u64,
        first_times: i128,
        second: u64,
    },
}

/// The nodes with a term and three children.
#[derive(Clone, Copy)]
pub enum Ways {
    Past,
    Trichotomy,
}

/// Which term a node has here, with what stands before it.
pub enum Argument {
    Instance(u64, Sequence<Term>),
    Replace { fact: u64, by: u64 },
    Unfold(u64),
    Back(u64),
    Condition(u64),
    Three(Ways),
}

// Written out: a derived drop is proved again wherever a value is dropped.
impl Drop for Argument {
    fn drop(self) {
        match self {
            Argument::Instance(_, terms) => drop(terms),
            Argument::Replace { fact: _, by: _ } => {}
            Argument::Unfold(_) | Argument::Back(_) | Argument::Condition(_) => {}
            Argument::Three(_) => {}
        }
    }
}

/// Which child a node has here, with what stands before it.
#[derive(Drop)]
pub enum Branch {
    Case(u64),
    OtherCase(u64, Proof, Sequence<Proof>),
    Then(u64, Term),
    Else(u64, Term, Proof),
    Below(Ways, Term),
    Same(Ways, Term, Proof),
    Above(Ways, Term, Proof, Proof),
}

/// What has been read of a node up to the end of a part: what may come is a space and then another
/// part, or the parenthesis that closes the node.
#[derive(Drop)]
pub enum Beyond {
    Fact(Fact),
    Factor(Factor),
    Term(Argument),
    Child(Branch),
    Step(Noted),
    Split(u64),
    Instance(u64, Sequence<Term>),
    Cases(u64, Proof, Sequence<Proof>),
    Close { first: u64, second: u64 },
    Condition(u64, Term, Proof, Proof),
    Three(Ways, Term, Proof, Proof, Proof),
}

/// A branch whose node is open: its steps, and the node up to the child in which the place is.
pub struct Level {
    pub steps: Steps,
    pub branch: Branch,
}

// Written out: a derived drop is proved again wherever a value is dropped.
impl Drop for Level {
    fn drop(self) {
        let Level { steps, branch } = self;
        drop(steps);
        drop(branch);
    }
}

impl Level {
    /// The steps before the node, and what stands behind the child.
    pub fn proved(self, alloc: Global, proof: Proof) -> Result<(Steps, Beyond), AllocError>
        ensures { IfOk result (λ r. (r.0 ≡ self.steps) × (r.1 ≡ proved self.branch proof)) }
    {
        let Level { steps, branch } = self;
        let beyond = branch.proved(alloc, proof)?;
        Ok((steps, beyond))
    }
}

// Behind the last part of a step.
fn step(step: Step) -> Beyond
    ensures { result ≡ beyond.Step (step_of step) }
{
    Beyond::Step(Noted { step })
}

impl Fact {
    /// What stands behind the number.
    pub fn numbered(self, alloc: Global, number: u64) -> Beyond
        ensures { result ≡ numbered self number }
    {
        match self {
            Fact::Close => Beyond::Fact(Fact::CloseBy(number)),
            Fact::CloseBy(first) => Beyond::Close {
                first,
                second: number,
            },
            Fact::Split => Beyond::Split(number),
            Fact::Instance => Beyond::Instance(number, Sequence::new(alloc)),
            Fact::Skolem => step(Step::Skolem(number)),
            Fact::Differ => step(Step::Differ(number)),
            Fact::Tighten => step(Step::Tighten(number)),
            Fact::Replace => Beyond::Fact(Fact::ReplaceBy(number)),
            Fact::ReplaceBy(fact) => Beyond::Term(Argument::Replace { fact, by: number }),
            Fact::Unfold => Beyond::Term(Argument::Unfold(number)),
            Fact::Back => Beyond::Term(Argument::Back(number)),
            Fact::Combine => Beyond::Factor(Factor::First(number)),
            Fact::CombineBy { first, first_times } => Beyond::Factor(Factor::Second {
                first,
                first_times,
                second: number,
            }),
        }
    }
}

impl Factor {
    /// What stands behind the multiplier.
    pub fn multiplied(self, number: i128) -> Beyond
        ensures { result ≡ multiplied self number }
    {
        match self {
            Factor::First(first) => Beyond::Fact(Fact::CombineBy {
                first,
                first_times: number,
            }),
            Factor::Second {
                first,
                first_times,
                second,
            } => step(Step::Combine {
                first,
                first_times,
                second,
                second_times: number,
            }),
        }
    }
}

impl Argument {
    /// What stands behind the term.
    pub fn given(self, term: Term) -> Result<Beyond, AllocError>
        ensures { IfOk result (λ b. b ≡ given self term) }
    {
        match self {
            Argument::Instance(f, terms) => Ok(Beyond::Instance(f, joined(terms, term)?)),
            Argument::Replace { fact, by } => Ok(step(Step::Replace { fact, by, term })),
            Argument::Unfold(f) => Ok(step(Step::Unfold { fact: f, term })),
            Argument::Back(f) => Ok(step(Step::Back { fact: f, term })),
            Argument::Condition(f) => Ok(Beyond::Child(Branch::Then(f, term))),
            Argument::Three(ways) => Ok(Beyond::Child(Branch::Below(ways, term))),
        }
    }
}

impl Branch {
    /// What stands behind the child.
    pub fn proved(self, alloc: Global, proof: Proof) -> Result<Beyond, AllocError>
        ensures { IfOk result (λ b. b ≡ proved self proof) }
    {
        match self {
            Branch::Case(f) => Ok(Beyond::Cases(f, proof, Sequence::new(alloc))),
            Branch::OtherCase(f, first, others) => {
                Ok(Beyond::Cases(f, first, joined(others, proof)?))
            }
            Branch::Then(f, term) => Ok(Beyond::Child(Branch::Else(f, term, proof))),
            Branch::Else(f, term, yes) => Ok(Beyond::Condition(f, term, yes, proof)),
            Branch::Below(ways, term) => Ok(Beyond::Child(Branch::Same(ways, term, proof))),
            Branch::Same(ways, term, below) => {
                Ok(Beyond::Child(Branch::Above(ways, term, below, proof)))
            }
            Branch::Above(ways, term, below, same) => {
                Ok(Beyond::Three(ways, term, below, same, proof))
            }
        }
    }
}

impl Ways {
    /// The node with its term and its children.
    pub fn of(
        self,
        alloc: Global,
        term: Term,
        below: Proof,
        same: Proof,
        above: Proof,
    ) -> Result<End, AllocError>
        ensures { IfOk result (λ e. end_of e ≡ three_of self term below same above) }
    {
        let (below, same, above) = boxed_three(alloc, below, same, above)?;
        match self {
            Ways::Past => Ok(End::Past {
                term,
                below,
                same,
                above,
            }),
            Ways::Trichotomy => Ok(End::Trichotomy {
                term,
                below,
                same,
                above,
            }),
        }
    }
}
