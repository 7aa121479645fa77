// Proofs, seen as data.
ghost use Rattle.std.specs.Prelude.{◌≡◌};
ghost use Rattle.logic_core.specs.Size.{capped};
ghost use Rattle.proof_core.specs.Proof.{proof_nodes, end_nodes, proofs_nodes};
ghost use Rattle.proof_core.specs.View.{proofs_of};
ghost use Rattle.proof_core.specs.ProofView.{end_of};

use logic_core::term::Term;
use std::marker::Model;

/// A node that appends facts to the list of facts. Facts are named by their numbers, from 0.
#[derive(Drop)]
pub enum Step {
    /// The parts of a fact that is an And.
    Split(u64),
    /// The body of a fact that is a ForAll, with the terms for its variables.
    Instantiate {
        fact: u64,
        terms: Vec<Term>,
    },
    /// The body of a fact that is an Exists, with new variables, which take the next numbers.
    Skolem(u64),
    /// The first fact with the term replaced everywhere by what the second fact says.
    Replace {
        fact: u64,
        by: u64,
        term: Term,
    },
    /// The fact with the call in it replaced by its definition's body.
    Unfold {
        fact: u64,
        term: Term,
    },
    /// The fact with a Read of a Write in it, at a constant distance, replaced by what it reads.
    Back {
        fact: u64,
        term: Term,
    },
    /// An index, which is a new variable, at which two maps differ whose Eq the fact denies.
    Differ(u64),
    /// That the sum of multiples of two linear facts is not below zero.
    Combine {
        first: u64,
        first_times: i128,
        second: u64,
        second_times: i128,
    },
    /// The fact with its coefficients divided by their greatest common divisor.
    Tighten(u64),
}

/// A proof: its steps in order, and then its end.
#[cycle(proof)]
pub struct Proof {
    pub steps: Vec<Step>,
    pub end: End,
}

// Written out: a derived drop is proved again wherever a value is dropped.
impl Drop for Proof {
    #[cycle(proof)]
    fn drop(self) {
        let Proof { steps, end } = self;
        drop(steps);
        drop(end);
    }
}

/// How a branch ends: by a close, or by a node with a proof for each of its children.
#[cycle(proof)]
#[derive(Drop)]
pub enum End {
    /// By two facts of which the second is the Not of the first, or by one that is false.
    Close {
        first: u64,
        second: u64,
    },
    /// By a fact that is an Or, an Eq of Bool or the Not of one, with a proof for its first case
    /// and one for each of the others.
    Cases {
        fact: u64,
        first: Box<Proof>,
        others: Vec<Proof>,
    },
    /// By an If in a fact: its condition holds, and then it doesn't.
    Condition {
        fact: u64,
        term: Term,
        yes: Box<Proof>,
        no: Box<Proof>,
    },
    /// By a Read of a Write: the index written is below, at or above the index read.
    Past {
        term: Term,
        below: Box<Proof>,
        same: Box<Proof>,
        above: Box<Proof>,
    },
    /// By a term of Int: it is below, at or above zero.
    Trichotomy {
        term: Term,
        below: Box<Proof>,
        same: Box<Proof>,
        above: Box<Proof>,
    },
}

impl Model for Proof {
    ghost use Rattle.proof_core.specs.Proof.{Proof, proof, proof_nodes};
    ghost use Rattle.proof_core.specs.Codes.{coded_proof};

    ghost Value = { Proof };

    ghost coded = { coded_proof };

    ghost use Rattle.proof_core.specs.View.{steps_of};
    ghost use Rattle.proof_core.specs.ProofView.{end_of};

    ghost view = { λ a. proof (steps_of a.steps.items) (end_of a.end) };

    ghost size = { proof_nodes };

    ghost use Rattle.proof_core.specs.ProofFalls.{proof_falls};

    ghost size_decreases = { λ a h. proof_falls a.steps.items a.end };
}

impl Proof {
    /// The number of nodes, or 2^64 - 1 where there are more.
    #[cycle(size)]
    pub fn size(&self) -> u64
        ensures { result ≡ capped (proof_nodes self.now) }
    {
        (self.steps.len() as u64).saturating_add(self.end.size())
    }
}

impl End {
    #[cycle(size)]
    fn size(&self) -> u64
        ensures { result ≡ capped (end_nodes (end_of self.now)) }
    {
        match self {
            End::Close { .. } => 1,
            End::Cases { first, others, .. } => first
                .size()
                .saturating_add(proofs_size(others))
                .saturating_add(1),
            End::Condition { yes, no, .. } => yes
                .size()
                .saturating_add(no.size())
                .saturating_add(1),
            End::Past {
                below,
                same,
                above,
                ..
            }
            | End::Trichotomy {
                below,
                same,
                above,
                ..
            } => below
                .size()
                .saturating_add(same.size())
                .saturating_add(above.size())
                .saturating_add(1),
        }
    }
}

#[cycle(size)]
fn proofs_size(proofs: &[Proof]) -> u64
    ensures { result ≡ capped (proofs_nodes (proofs_of proofs.now)) }
{
    let mut total: u64 = 0;
    for proof in proofs {
        total = total.saturating_add(proof.size());
    }
    total
}
