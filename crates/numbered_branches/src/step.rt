// Nodes of proofs over the numbers of terms.
ghost use Rattle.std.specs.Prelude.{◌≡◌, ◌<◌, length, map, IfOk};
ghost use Rattle.std.specs.List.{AllByRecursion};
ghost use Rattle.proof_core.specs.View.{step_of};
ghost use Rattle.term_bank.specs.Numbered.{at};
ghost use Rattle.numbered_branches.specs.Branches.{IsStepBelow, step_at};
ghost use Rattle.numbered_branches.specs.StepView.{step_seen};

use logic_core::term::Term;
use numbered_forms::tree::tree;
use numbered_terms::Terms;
use proof_core::proof::Step as TreeStep;
use std::alloc::AllocError;
use term_bank::TermId;

/// A node that appends facts, as proof_core's `Step`, with a number for each term.
#[derive(Drop)]
pub enum Step {
    /// The parts of a fact that is an And.
    Split(u64),
    /// The body of a fact that is a ForAll, with the terms for its variables.
    Instantiate {
        fact: u64,
        terms: Vec<TermId>,
    },
    /// The body of a fact that is an Exists, with new variables, which take the next numbers.
    Skolem(u64),
    /// The first fact with the term replaced everywhere by what the second fact says.
    Replace {
        fact: u64,
        by: u64,
        term: TermId,
    },
    /// The fact with the call in it replaced by its definition's body.
    Unfold {
        fact: u64,
        term: TermId,
    },
    /// The fact with a Read of a Write in it, at a constant distance, replaced by what it reads.
    Back {
        fact: u64,
        term: TermId,
    },
    /// An index, which is a new variable, at which two maps differ whose Eq the fact denies.
    Differ(u64),
    /// That the sum of multiples of two linear facts is not below zero.
    Combine {
        first: u64,
        first_times: i128,
        second: u64,
        second_times: i128,
    },
    /// The fact with its coefficients divided by their greatest common divisor.
    Tighten(u64),
}

/// The trees of numbers.
pub fn trees(terms: &Terms, ids: &[TermId]) -> Result<Vec<Term>, AllocError>
    requires { AllByRecursion (λ i. i < length terms.now) ids.now }
    ensures { IfOk result (λ v. v.items ≡ map (at terms.now) ids.now) }
{
    let mut all = Vec::new(terms.alloc());
    for id in ids {
        all.push(tree(terms, *id)?)?;
    }
    Ok(all)
}

impl Step {
    /// The node over trees.
    pub fn tree(&self, terms: &Terms) -> Result<TreeStep, AllocError>
        requires { IsStepBelow (length terms.now) (step_seen self.now) }
        ensures { IfOk result (λ s. step_of s ≡ step_at terms.now (step_seen self.now)) }
    {
        match self {
            Step::Split(fact) => Ok(TreeStep::Split(*fact)),
            Step::Instantiate { fact, terms: ids } => Ok(TreeStep::Instantiate {
                fact: *fact,
                terms: trees(terms, ids)?,
            }),
            Step::Skolem(fact) => Ok(TreeStep::Skolem(*fact)),
            Step::Replace { fact, by, term } => Ok(TreeStep::Replace {
                fact: *fact,
                by: *by,
                term: tree(terms, *term)?,
            }),
            Step::Unfold { fact, term } => Ok(TreeStep::Unfold {
                fact: *fact,
                term: tree(terms, *term)?,
            }),
            Step::Back { fact, term } => Ok(TreeStep::Back {
                fact: *fact,
                term: tree(terms, *term)?,
            }),
            Step::Differ(fact) => Ok(TreeStep::Differ(*fact)),
            Step::Combine {
                first,
                first_times,
                second,
                second_times,
            } => Ok(TreeStep::Combine {
                first: *first,
                first_times: *first_times,
                second: *second,
                second_times: *second_times,
            }),
            Step::Tighten(fact) => Ok(TreeStep::Tighten(*fact)),
        }
    }
}
