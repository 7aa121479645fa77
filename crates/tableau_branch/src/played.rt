// Moves of the search: what a step does to the branch on top of the stack.
ghost use Rattle.std.specs.Prelude.{◌≡◌, ◌++◌, IfOk, OnOk, reverse};
ghost use Rattle.tableau_branch.specs.Move.{branches_of, steps_of};
ghost use Rattle.tableau_branch.specs.View.{each_steps};

use crate::branch::{Branch, Made};
use logic_core::term::Term;
use proof_core::proof::Step;
use std::alloc::{AllocError, Global};

/// How the proof goes on after a step's nodes.
#[derive(Drop)]
pub enum Ending {
    /// On the one branch that the step made.
    GoesOn,
    /// By a close of these two facts: the branch goes.
    Closes { first: u64, second: u64 },
    /// By a split of this fact: a branch for each case.
    Forks(u64),
    /// By the condition of this If in this fact: a branch where it holds, and one where it doesn't.
    Chooses(u64, Term),
    /// By moving this Read past a Write: a branch each for an index below, at and above the other.
    Passes(Term),
    /// By trichotomy of this number: a branch where it is below, at and above zero.
    Decides(Term),
}

/// A step of the search: how the proof goes on, and the branches in place of the one on top.
#[derive(Drop)]
pub struct Move {
    pub ending: Ending,
    pub made: Vec<Made>,
}

/// What a rule makes of a branch that it is tried on: the branch again where the rule can't be
/// applied, or a move.
#[derive(Drop)]
pub enum Attempt {
    Passes(Branch),
    Gives(Move),
}

/// What the proof needs of a move: its ending, and the nodes with which the proof of each branch
/// begins.
#[derive(Drop)]
pub struct Played {
    pub ending: Ending,
    pub steps: Vec<Vec<Step>>,
}

impl Move {
    ghost use Rattle.tableau_branch.specs.Move.{on_one, cost, played};
    ghost use Rattle.tableau_branch.specs.View.{move_of, played_of};

    /// A step that goes on on one branch.
    pub fn on_one(alloc: Global, made: Made) -> Result<Move, AllocError>
        ensures { IfOk result (λ m. move_of m ≡ on_one made) }
    {
        Ok(Move {
            ending: Ending::GoesOn,
            made: Vec::from_array(alloc, [made])?,
        })
    }

    /// The turns that the step costs: one, and one for every 64 nodes of the facts that it adds
    /// or changes.
    pub fn cost(&self) -> u64
        ensures { result ≡ cost (move_of self.now) }
    {
        let mut nodes: u64 = 0;
        for made in &self.made {
            nodes = nodes.saturating_add(made.size);
        }
        1 + nodes / 64
    }

    /// Puts the branches on the stack, whose top is its end: the first branch on top.
    pub fn play(self, alloc: Global, stack: &mut Vec<Branch>) -> Result<Played, AllocError>
        ensures played { IfOk result (λ p. played_of p ≡ played (move_of self)) }
        ensures pushed { OnOk result (reverse stack.new.items ≡ branches_of (move_of self).made ++ reverse stack.old.items) }
    {
        let Move { ending, made } = self;
        let steps = stack_each(alloc, made, stack)?;
        Ok(Played { ending, steps })
    }
}

/// Puts the branches on the stack, the first one on top; the nodes with which the proof of each begins.
fn stack_each(
    alloc: Global,
    mut made: Vec<Made>,
    stack: &mut Vec<Branch>,
) -> Result<Vec<Vec<Step>>, AllocError>
    ensures steps { IfOk result (λ v. each_steps v.items ≡ steps_of made.items) }
    ensures pushed { OnOk result (reverse stack.new.items ≡ branches_of made.items ++ reverse stack.old.items) }
{
    let mut steps = Vec::new(alloc);
    while let Some(made_one) = made.pop() {
        stack.push(made_one.branch)?;
        steps.push(made_one.steps)?;
    }
    steps.reverse();
    Ok(steps)
}
