// The move of numbers for a move.
ghost use Rattle.std.specs.Prelude.{◌≡◌, map, IfOk};
ghost use Rattle.proof_core.specs.View.{step_of, steps_of};
ghost use Rattle.tableau_branch.specs.View.{ending_of, move_of};
ghost use Rattle.numbered_terms.specs.Stored.{Grows};
ghost use Rattle.numbered_branches.specs.Standing.{IsStepAt, AreStepsAt, IsMadeAt, AreMadeAt, IsEndingAt, IsMoveAt};
ghost use Rattle.numbered_branches.specs.StepView.{step_seen};
ghost use Rattle.numbered_branches.specs.View.{ending_seen, move_seen};

use crate::branch::Branch;
use crate::played::{Ending, Made, Move};
use crate::step::Step;
use crate::to_numbers::term_numbers;
use numbered_facts::Store;
use proof_core::proof::Step as TreeStep;
use std::alloc::AllocError;
use tableau_branch::branch::Made as TreeMade;
use tableau_branch::played::{Ending as TreeEnding, Move as TreeMove};

fn step_number(store: &mut Store, step: &TreeStep) -> Result<Step, AllocError>
    ensures grows { Grows store.old store.new }
    ensures step { IfOk result (λ s. IsStepAt store.new.terms (step_seen s) (step_of step.now)) }
{
    match step {
        TreeStep::Split(fact) => Ok(Step::Split(*fact)),
        TreeStep::Instantiate { fact, terms: trees } => {
            let ids = term_numbers(store, trees)?;
            Ok(Step::Instantiate {
                fact: *fact,
                terms: ids,
            })
        }
        TreeStep::Skolem(fact) => Ok(Step::Skolem(*fact)),
        TreeStep::Replace { fact, by, term } => {
            let id = store.number(term)?;
            Ok(Step::Replace {
                fact: *fact,
                by: *by,
                term: id,
            })
        }
        TreeStep::Unfold { fact, term } => {
            let id = store.number(term)?;
            Ok(Step::Unfold {
                fact: *fact,
                term: id,
            })
        }
        TreeStep::Back { fact, term } => {
            let id = store.number(term)?;
            Ok(Step::Back {
                fact: *fact,
                term: id,
            })
        }
        TreeStep::Differ(fact) => Ok(Step::Differ(*fact)),
        TreeStep::Combine {
            first,
            first_times,
            second,
            second_times,
        } => Ok(Step::Combine {
            first: *first,
            first_times: *first_times,
            second: *second,
            second_times: *second_times,
        }),
        TreeStep::Tighten(fact) => Ok(Step::Tighten(*fact)),
    }
}

fn step_numbers(store: &mut Store, steps: &[TreeStep]) -> Result<Vec<Step>, AllocError>
    ensures grows { Grows store.old store.new }
    ensures steps { IfOk result (λ v. AreStepsAt store.new.terms (map step_seen v.items) (steps_of steps.now)) }
{
    let mut all = Vec::new(store.alloc());
    for step in steps {
        let one = step_number(store, step)?;
        all.push(one)?;
    }
    Ok(all)
}

fn made_number(store: &mut Store, made: &TreeMade) -> Result<Made, AllocError>
    ensures grows { Grows store.old store.new }
    ensures made { IfOk result (λ m. IsMadeAt store.new.terms m made.now) }
{
    let branch = Branch::of(store, &made.branch)?;
    let steps = step_numbers(store, &made.steps)?;
    Ok(Made {
        branch,
        steps,
        size: made.size,
    })
}

fn made_numbers(store: &mut Store, made: &[TreeMade]) -> Result<Vec<Made>, AllocError>
    ensures grows { Grows store.old store.new }
    ensures made { IfOk result (λ v. AreMadeAt store.new.terms v.items made.now) }
{
    let mut all = Vec::new(store.alloc());
    for one in made {
        let one = made_number(store, one)?;
        all.push(one)?;
    }
    Ok(all)
}

fn ending_number(store: &mut Store, ending: &TreeEnding) -> Result<Ending, AllocError>
    ensures grows { Grows store.old store.new }
    ensures ending { IfOk result (λ e. IsEndingAt store.new.terms (ending_seen e) (ending_of ending.now)) }
{
    match ending {
        TreeEnding::GoesOn => Ok(Ending::GoesOn),
        TreeEnding::Closes { first, second } => Ok(Ending::Closes {
            first: *first,
            second: *second,
        }),
        TreeEnding::Forks(fact) => Ok(Ending::Forks(*fact)),
        TreeEnding::Chooses(fact, term) => {
            let id = store.number(term)?;
            Ok(Ending::Chooses(*fact, id))
        }
        TreeEnding::Passes(term) => {
            let id = store.number(term)?;
            Ok(Ending::Passes(id))
        }
        TreeEnding::Decides(term) => {
            let id = store.number(term)?;
            Ok(Ending::Decides(id))
        }
    }
}

impl Move {
    /// The move of numbers for a move of terms.
    pub fn of(store: &mut Store, step: &TreeMove) -> Result<Move, AllocError>
        ensures grows { Grows store.old store.new }
        ensures step { IfOk result (λ m. IsMoveAt store.new.terms (move_seen m) (move_of step.now)) }
    {
        let ending = ending_number(store, &step.ending)?;
        let made = made_numbers(store, &step.made)?;
        Ok(Move { ending, made })
    }
}
