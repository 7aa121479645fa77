// Moves as a run keeps them until it ends: in little room, and their lists backwards, so that what
// comes first is taken first.
ghost use Rattle.std.specs.Prelude.{◌≡◌, IfOk, length, map};
ghost use Rattle.std.specs.List.{AllByRecursion};
ghost use Rattle.proof_core.specs.View.{step_of, steps_of};
ghost use Rattle.tableau_branch.specs.View.{each_steps, played_of};
ghost use Rattle.numbered_branches.specs.Branches.{IsStepBelow, step_at};
ghost use Rattle.numbered_branches.specs.Moves.{IsPlayedBelow, played_at};
ghost use Rattle.numbered_branches.specs.StepView.{step_seen};
ghost use Rattle.numbered_branches.specs.View.{each_seen, played_seen};
ghost use Rattle.clause_search.specs.Packed.{packed_lists, packed_move, packed_step, packed_steps};

use numbered_branches::played::{Ending, Played};
use numbered_branches::step::Step;
use numbered_terms::Terms;
use proof_core::proof::Step as TreeStep;
use std::alloc::{AllocError, Global};
use tableau_branch::played::Played as TreePlayed;
use term_bank::TermId;

/// Two linear facts, and how many times each is taken.
#[derive(Clone, Copy)]
pub struct Combination {
    pub first_times: i128,
    pub second_times: i128,
    pub first: u64,
    pub second: u64,
}

/// A node that appends facts, as numbered_branches' `Step`, in half of its room: a combination, which
/// needs the most, stands apart.
#[derive(Drop)]
pub enum PackedStep {
    Split(u64),
    Instantiate { fact: u64, terms: Vec<TermId> },
    Skolem(u64),
    Replace { fact: u64, by: u64, term: TermId },
    Unfold { fact: u64, term: TermId },
    Back { fact: u64, term: TermId },
    Differ(u64),
    Combine(Box<Combination>),
    Tighten(u64),
}

/// What the proof needs of a move, as numbered_branches' `Played`, without spare room. The lists of
/// nodes stand backwards, and so do the nodes of each.
#[derive(Drop)]
pub struct PackedMove {
    pub ending: Ending,
    pub steps: Vec<Vec<PackedStep>>,
}

/// Lets a node go.
fn discard(_step: Step) {}

impl PackedStep {
    /// The node, packed.
    fn of(alloc: Global, step: Step) -> Result<PackedStep, AllocError>
        ensures { IfOk result (λ p. packed_step p ≡ step_seen step) }
    {
        match step {
            Step::Split(fact) => Ok(PackedStep::Split(fact)),
            Step::Instantiate { fact, mut terms } => {
                terms.shrink_to_fit();
                Ok(PackedStep::Instantiate { fact, terms })
            }
            Step::Skolem(fact) => Ok(PackedStep::Skolem(fact)),
            Step::Replace { fact, by, term } => Ok(PackedStep::Replace { fact, by, term }),
            Step::Unfold { fact, term } => Ok(PackedStep::Unfold { fact, term }),
            Step::Back { fact, term } => Ok(PackedStep::Back { fact, term }),
            Step::Differ(fact) => Ok(PackedStep::Differ(fact)),
            Step::Combine {
                first,
                first_times,
                second,
                second_times,
            } => {
                let combination = Combination {
                    first_times,
                    second_times,
                    first,
                    second,
                };
                Ok(PackedStep::Combine(Box::new(alloc, combination)?))
            }
            Step::Tighten(fact) => Ok(PackedStep::Tighten(fact)),
        }
    }

    /// The node.
    fn unpacked(self) -> Step
        ensures { step_seen result ≡ packed_step self }
    {
        match self {
            PackedStep::Split(fact) => Step::Split(fact),
            PackedStep::Instantiate { fact, terms } => Step::Instantiate { fact, terms },
            PackedStep::Skolem(fact) => Step::Skolem(fact),
            PackedStep::Replace { fact, by, term } => Step::Replace { fact, by, term },
            PackedStep::Unfold { fact, term } => Step::Unfold { fact, term },
            PackedStep::Back { fact, term } => Step::Back { fact, term },
            PackedStep::Differ(fact) => Step::Differ(fact),
            PackedStep::Combine(combination) => {
                let combination = Box::into_inner(combination);
                Step::Combine {
                    first: combination.first,
                    first_times: combination.first_times,
                    second: combination.second,
                    second_times: combination.second_times,
                }
            }
            PackedStep::Tighten(fact) => Step::Tighten(fact),
        }
    }

    /// The node over trees.
    fn tree(self, terms: &Terms) -> Result<TreeStep, AllocError>
        requires { IsStepBelow (length terms.now) (packed_step self) }
        ensures { IfOk result (λ s. step_of s ≡ step_at terms.now (packed_step self)) }
    {
        let step = self.unpacked();
        let tree = step.tree(terms);
        discard(step);
        tree
    }
}

// The nodes, packed.
fn pack_steps(alloc: Global, mut steps: Vec<Step>) -> Result<Vec<PackedStep>, AllocError>
    ensures { IfOk result (λ v. packed_steps v ≡ map step_seen steps.items) }
{
    let mut packed = Vec::with_capacity(alloc, steps.len())?;
    while let Some(step) = steps.pop() {
        packed.push(PackedStep::of(alloc, step)?)?;
    }
    Ok(packed)
}

// The lists of nodes, packed.
fn pack_lists(alloc: Global, mut lists: Vec<Vec<Step>>) -> Result<Vec<Vec<PackedStep>>, AllocError>
    ensures { IfOk result (λ v. packed_lists v.items ≡ each_seen lists.items) }
{
    let mut packed = Vec::with_capacity(alloc, lists.len())?;
    while let Some(list) = lists.pop() {
        packed.push(pack_steps(alloc, list)?)?;
    }
    Ok(packed)
}

// The nodes over trees.
fn steps_tree(terms: &Terms, mut packed: Vec<PackedStep>) -> Result<Vec<TreeStep>, AllocError>
    requires { AllByRecursion (IsStepBelow (length terms.now)) (packed_steps packed) }
    ensures { IfOk result (λ v. steps_of v.items ≡ map (step_at terms.now) (packed_steps packed)) }
{
    let mut trees = Vec::with_capacity(terms.alloc(), packed.len())?;
    while let Some(step) = packed.pop() {
        trees.push(step.tree(terms)?)?;
    }
    Ok(trees)
}

// The lists of nodes over trees.
fn lists_tree(
    terms: &Terms,
    mut packed: Vec<Vec<PackedStep>>,
) -> Result<Vec<Vec<TreeStep>>, AllocError>
    requires { AllByRecursion (AllByRecursion (IsStepBelow (length terms.now))) (packed_lists packed.items) }
    ensures { IfOk result (λ v. each_steps v.items ≡ map (map (step_at terms.now)) (packed_lists packed.items)) }
{
    let mut trees = Vec::with_capacity(terms.alloc(), packed.len())?;
    while let Some(list) = packed.pop() {
        trees.push(steps_tree(terms, list)?)?;
    }
    Ok(trees)
}

impl PackedMove {
    /// The move, packed.
    pub fn of(alloc: Global, played: Played) -> Result<PackedMove, AllocError>
        ensures { IfOk result (λ m. packed_move m ≡ played_seen played) }
    {
        let Played { ending, steps } = played;
        let steps = pack_lists(alloc, steps)?;
        Ok(PackedMove { ending, steps })
    }

    /// The move over trees.
    pub fn tree(self, terms: &Terms) -> Result<TreePlayed, AllocError>
        requires { IsPlayedBelow (length terms.now) (packed_move self) }
        ensures { IfOk result (λ p. played_of p ≡ played_at terms.now (packed_move self)) }
    {
        let PackedMove { ending, steps } = self;
        let ending = ending.tree(terms)?;
        let steps = lists_tree(terms, steps)?;
        Ok(TreePlayed { ending, steps })
    }
}
