// Moves over the numbers of terms, and what the proof needs of them.
ghost use Rattle.std.specs.Prelude.{◌≡◌, ◌++◌, IfOk, OnOk, length, reverse};
ghost use Rattle.tableau_branch.specs.View.{ending_of};
ghost use Rattle.numbered_branches.specs.Moves.{IsEndingBelow, ending_at, on_one, cost, branches_of, steps_of, played};
ghost use Rattle.numbered_branches.specs.NumberedChange.{begun};
ghost use Rattle.numbered_branches.specs.View.{ending_seen, each_seen, move_seen, played_seen};

use crate::branch::Branch;
use crate::step::Step;
use numbered_forms::tree::tree;
use numbered_terms::Terms;
use std::alloc::{AllocError, Global};
use std::marker::Model;
use tableau_branch::played::Ending as TreeEnding;
use term_bank::TermId;

/// What a step makes of a branch: the branch, the nodes with which its proof begins, and the sizes of
/// the facts that are added and changed.
#[derive(Drop)]
pub struct Made {
    pub branch: Branch,
    pub steps: Vec<Step>,
    pub size: u64,
}

impl Model for Made {
    ghost use Rattle.std.specs.Prelude.{map};
    ghost use Rattle.numbered_branches.specs.Branches.{NumberedMade};
    ghost use Rattle.numbered_branches.specs.Codes.{coded_made};

    ghost Value = { NumberedMade };

    ghost coded = { coded_made };

    ghost use Rattle.numbered_branches.specs.StepView.{step_seen};

    ghost view = { λ a. record { branch = a.branch; steps = map step_seen a.steps.items; size = a.size } };
}

impl Made {
    /// The branch as it is, before the step's first node.
    pub fn begun(alloc: Global, branch: Branch) -> Made
        ensures { result ≡ begun branch }
    {
        Made {
            branch,
            steps: Vec::new(alloc),
            size: 0,
        }
    }
}

/// How the proof goes on.
#[derive(Drop)]
pub enum Ending {
    /// On the one branch that the step made.
    GoesOn,
    /// By a close of these two facts: the branch goes.
    Closes { first: u64, second: u64 },
    /// By a split of this fact: a branch for each case.
    Forks(u64),
    /// By the condition of this If in this fact: a branch where it holds, and one where it doesn't.
    Chooses(u64, TermId),
    /// By moving this Read past a Write: a branch each for an index below, at and above the other.
    Passes(TermId),
    /// By trichotomy of this number: a branch where it is below, at and above zero.
    Decides(TermId),
}

/// A step of the search.
#[derive(Drop)]
pub struct Move {
    pub ending: Ending,
    pub made: Vec<Made>,
}

/// What comes of a rule that is tried: the branch where it can't be applied, and else the move.
#[derive(Drop)]
pub enum Attempt {
    Passes(Branch),
    Gives(Move),
}

/// What the proof needs of a move.
#[derive(Drop)]
pub struct Played {
    pub ending: Ending,
    pub steps: Vec<Vec<Step>>,
}

impl Ending {
    /// The ending over trees.
    pub fn tree(&self, terms: &Terms) -> Result<TreeEnding, AllocError>
        requires { IsEndingBelow (length terms.now) (ending_seen self.now) }
        ensures { IfOk result (λ e. ending_of e ≡ ending_at terms.now (ending_seen self.now)) }
    {
        match self {
            Ending::GoesOn => Ok(TreeEnding::GoesOn),
            Ending::Closes { first, second } => Ok(TreeEnding::Closes {
                first: *first,
                second: *second,
            }),
            Ending::Forks(fact) => Ok(TreeEnding::Forks(*fact)),
            Ending::Chooses(fact, id) => Ok(TreeEnding::Chooses(*fact, tree(terms, *id)?)),
            Ending::Passes(id) => Ok(TreeEnding::Passes(tree(terms, *id)?)),
            Ending::Decides(id) => Ok(TreeEnding::Decides(tree(terms, *id)?)),
        }
    }
}

// Puts the branches on the stack, the first one on top; the nodes with which the proof of each begins.
fn stack_each(
    alloc: Global,
    mut made: Vec<Made>,
    stack: &mut Vec<Branch>,
) -> Result<Vec<Vec<Step>>, AllocError>
    ensures steps { IfOk result (λ v. each_seen v.items ≡ steps_of made.items) }
    ensures pushed { OnOk result (reverse stack.new.items ≡ branches_of made.items ++ reverse stack.old.items) }
{
    let mut steps = Vec::new(alloc);
    while let Some(made_one) = made.pop() {
        stack.push(made_one.branch)?;
        steps.push(made_one.steps)?;
    }
    steps.reverse();
    Ok(steps)
}

impl Move {
    /// A step that goes on on one branch.
    pub fn on_one(alloc: Global, made: Made) -> Result<Move, AllocError>
        ensures { IfOk result (λ m. move_seen m ≡ on_one made) }
    {
        Ok(Move {
            ending: Ending::GoesOn,
            made: Vec::from_array(alloc, [made])?,
        })
    }

    /// Puts the branches on the stack, whose top is its end: the first branch on top.
    pub fn play(self, alloc: Global, stack: &mut Vec<Branch>) -> Result<Played, AllocError>
        ensures played { IfOk result (λ p. played_seen p ≡ played (move_seen self)) }
        ensures pushed { OnOk result (reverse stack.new.items ≡ branches_of (move_seen self).made ++ reverse stack.old.items) }
    {
        let Move { ending, made } = self;
        let steps = stack_each(alloc, made, stack)?;
        Ok(Played { ending, steps })
    }

    /// The turns that the step costs: one, and one for every 64 nodes of the facts that it adds
    /// or changes.
    pub fn cost(&self) -> u64
        ensures { result ≡ cost (move_seen self.now) }
    {
        let mut nodes: u64 = 0;
        for made in &self.made {
            nodes = nodes.saturating_add(made.size);
        }
        1 + nodes / 64
    }
}
