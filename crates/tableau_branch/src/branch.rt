// Branches, and what a step makes of one.
ghost use Rattle.std.specs.Prelude.{◌≡◌, IfOk};
ghost use Rattle.tableau_branch.specs.Change.{begun};

use crate::fact::{Fact, copy_facts};
use logic_core::copy::{copy_sorts, copy_terms};
use logic_core::sequence::Sequence;
use logic_core::sort::Sort;
use logic_core::term::Term;
use proof_core::proof::Step;
use std::alloc::{AllocError, Global};
use std::marker::Model;

/// A ForAll, and the terms with which it was instantiated.
#[derive(Drop)]
pub struct Mark {
    pub fact: Term,
    pub tuple: Sequence<Term>,
}

impl Model for Mark {
    ghost use Rattle.tableau_branch.specs.Branch.{Mark as mark};
    ghost use Rattle.tableau_branch.specs.Codes.{coded_mark};

    ghost Value = { mark };

    ghost coded = { coded_mark };

    ghost view = { λ a. record { fact = a.fact; tuple = a.tuple } };
}

impl Mark {
    /// An equal mark.
    pub fn copy(&self, alloc: Global) -> Result<Mark, AllocError>
        ensures { IfOk result (λ m. m ≡ self.now) }
    {
        Ok(Mark {
            fact: self.fact.copy(alloc)?,
            tuple: Sequence::of(copy_terms(alloc, self.tuple.as_slice())?),
        })
    }
}

fn copy_marks(alloc: Global, marks: &[Mark]) -> Result<Vec<Mark>, AllocError>
    ensures { IfOk result (λ v. v.items ≡ marks.now) }
{
    let mut copies = Vec::new(alloc);
    for mark in marks {
        copies.push(mark.copy(alloc)?)?;
    }
    Ok(copies)
}

/// A branch of the search: its facts, oldest first; the calls that were seen; the marks of
/// instances; the sorts of the variables, by number; and the number of the proof's next fact.
pub struct Branch {
    pub facts: Vec<Fact>,
    pub calls: Vec<Term>,
    pub marks: Vec<Mark>,
    pub vars: Vec<Sort>,
    pub next: u64,
}

impl Drop for Branch {
    fn drop(self) {
        let Branch {
            facts,
            calls,
            marks,
            vars,
            next: _,
        } = self;
        drop(facts);
        drop(calls);
        drop(marks);
        drop(vars);
    }
}

impl Model for Branch {
    ghost use Rattle.tableau_branch.specs.Branch.{Branch as branch};
    ghost use Rattle.tableau_branch.specs.Codes.{coded_branch};

    ghost Value = { branch };

    ghost coded = { coded_branch };

    ghost view = { λ a. record { facts = a.facts.items; calls = a.calls.items; marks = a.marks.items; vars = a.vars.items; next = a.next } };
}

impl Branch {
    /// An equal branch.
    pub fn copy(&self, alloc: Global) -> Result<Branch, AllocError>
        ensures { IfOk result (λ b. b ≡ self.now) }
    {
        Ok(Branch {
            facts: copy_facts(alloc, &self.facts)?,
            calls: copy_terms(alloc, &self.calls)?,
            marks: copy_marks(alloc, &self.marks)?,
            vars: copy_sorts(alloc, &self.vars)?,
            next: self.next,
        })
    }
}

/// What a step makes of a branch: the branch after it, the proof nodes that it begins with, and
/// the sizes of the facts that were added or changed.
#[derive(Drop)]
pub struct Made {
    pub branch: Branch,
    pub steps: Vec<Step>,
    pub size: u64,
}

impl Model for Made {
    ghost use Rattle.tableau_branch.specs.Change.{Made as made};
    ghost use Rattle.tableau_branch.specs.Codes.{coded_made};

    ghost Value = { made };

    ghost coded = { coded_made };

    ghost use Rattle.proof_core.specs.View.{steps_of};

    ghost view = { λ a. record { branch = a.branch; steps = steps_of a.steps.items; size = a.size } };
}

impl Made {
    /// The branch as it is, before the step's first node.
    pub fn begun(alloc: Global, branch: Branch) -> Made
        ensures { result ≡ begun branch }
    {
        Made {
            branch,
            steps: Vec::new(alloc),
            size: 0,
        }
    }
}
