// Lists of parts of terms and proofs, as contracts see them.
ghost use Rattle.std.specs.Prelude.{◌≡◌, [], ◌∷◌, ◌++◌, IfOk};
ghost use Rattle.logic_core.specs.View.{each_items};
ghost use Rattle.proof_core.specs.View.{step_of, steps_of};

use logic_core::sequence::Sequence;
use logic_core::term::Term;
use proof_core::proof::Step;
use std::alloc::{AllocError, Global};
use std::marker::Model;

/// The triggers of a quantifier, each a list of terms.
pub struct Patterns {
    patterns: Vec<Vec<Term>>,
}

// Written out: a derived drop is proved again wherever a value is dropped.
impl Drop for Patterns {
    fn drop(self) {
        let Patterns { patterns } = self;
        drop(patterns);
    }
}

impl Model for Patterns {
    ghost use Rattle.std.specs.Prelude.{List};
    ghost use Rattle.std.specs.Coded.{coded_list};
    ghost use Rattle.logic_core.specs.Tree.{Tree};
    ghost use Rattle.logic_core.specs.Codes.{coded_tree};
    ghost use Rattle.logic_core.specs.View.{each_items};

    ghost Value = { List (List Tree) };

    ghost coded = { coded_list (coded_list coded_tree) };

    ghost view = { λ a. each_items a.patterns.items };
}

impl Patterns {
    /// No triggers.
    pub fn new(alloc: Global) -> Patterns
        ensures { result ≡ [] }
    {
        Patterns {
            patterns: Vec::new(alloc),
        }
    }

    /// These triggers and one more.
    pub fn with(self, pattern: Sequence<Term>) -> Result<Patterns, AllocError>
        ensures { IfOk result (λ p. p ≡ self ++ pattern ∷ []) }
    {
        let Patterns { mut patterns } = self;
        patterns.push(pattern.into_vec())?;
        Ok(Patterns { patterns })
    }

    /// The triggers as they stand in a term.
    pub fn into_vec(self) -> Vec<Vec<Term>>
        ensures { each_items result.items ≡ self }
    {
        let Patterns { patterns } = self;
        patterns
    }
}

/// A step.
pub struct Noted {
    pub step: Step,
}

// Written out: a derived drop is proved again wherever a value is dropped.
impl Drop for Noted {
    fn drop(self) {
        let Noted { step } = self;
        drop(step);
    }
}

impl Model for Noted {
    ghost use Rattle.proof_core.specs.Proof.{Step as one_step};
    ghost use Rattle.proof_core.specs.Codes.{coded_step};
    ghost use Rattle.proof_core.specs.View.{step_of};

    ghost Value = { one_step };

    ghost coded = { coded_step };

    ghost view = { λ a. step_of a.step };
}

impl Noted {
    /// The step as it stands in a proof.
    pub fn into_step(self) -> Step
        ensures { step_of result ≡ self }
    {
        let Noted { step } = self;
        step
    }
}

/// The steps of a branch.
pub struct Steps {
    steps: Vec<Step>,
}

// Written out: a derived drop is proved again wherever a value is dropped.
impl Drop for Steps {
    fn drop(self) {
        let Steps { steps } = self;
        drop(steps);
    }
}

impl Model for Steps {
    ghost use Rattle.std.specs.Prelude.{List};
    ghost use Rattle.proof_core.specs.Proof.{Step as one_step};
    ghost use Rattle.proof_core.specs.Codes.{coded_steps};
    ghost use Rattle.proof_core.specs.View.{steps_of};

    ghost Value = { List one_step };

    ghost coded = { coded_steps };

    ghost view = { λ a. steps_of a.steps.items };
}

impl Steps {
    /// No steps.
    pub fn new(alloc: Global) -> Steps
        ensures { result ≡ [] }
    {
        Steps {
            steps: Vec::new(alloc),
        }
    }

    /// These steps and one more.
    pub fn with(self, step: Step) -> Result<Steps, AllocError>
        ensures { IfOk result (λ s. s ≡ self ++ step_of step ∷ []) }
    {
        let Steps { mut steps } = self;
        steps.push(step)?;
        Ok(Steps { steps })
    }

    /// The steps as they stand in a proof.
    pub fn into_vec(self) -> Vec<Step>
        ensures { steps_of result.items ≡ self }
    {
        let Steps { steps } = self;
        steps
    }
}

/// The items and one more.
pub fn joined<T: Drop>(items: Sequence<T>, item: T) -> Result<Sequence<T>, AllocError>
    ensures { IfOk result (λ s. s ≡ items ++ item ∷ []) }
{
    let mut items = items;
    items.push(item)?;
    Ok(items)
}

/// Both values, each in a box.
pub fn boxed<T: Drop>(alloc: Global, first: T, second: T) -> Result<(Box<T>, Box<T>), AllocError>
    ensures { IfOk result (λ r. (r.0.value ≡ first) × (r.1.value ≡ second)) }
{
    let first = Box::new(alloc, first)?;
    let second = Box::new(alloc, second)?;
    Ok((first, second))
}

/// The three values, each in a box.
pub fn boxed_three<T: Drop>(
    alloc: Global,
    first: T,
    second: T,
    third: T,
) -> Result<(Box<T>, Box<T>, Box<T>), AllocError>
    ensures { IfOk result (λ r. (r.0.value ≡ first) × (r.1.value ≡ second) × (r.2.value ≡ third)) }
{
    let third = Box::new(alloc, third)?;
    let (first, second) = boxed(alloc, first, second)?;
    Ok((first, second, third))
}
