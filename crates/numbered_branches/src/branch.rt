// Branches over the numbers of terms.
ghost use Rattle.std.specs.Prelude.{◌≡◌, IfOk};

use logic_core::copy::copy_sorts;
use logic_core::sort::Sort;
use std::alloc::{AllocError, Global};
use std::marker::Model;
use term_bank::TermId;

/// A normal fact, by the number of its formula, and its number in the proof.
#[derive(Clone, Copy)]
pub struct Fact {
    pub term: TermId,
    pub number: u64,
}

impl Model for Fact {
    ghost use Rattle.numbered_branches.specs.Branches.{NumberedFact};
    ghost use Rattle.numbered_branches.specs.Codes.{coded_fact};

    ghost Value = { NumberedFact };

    ghost coded = { coded_fact };

    ghost view = { λ a. record { term = a.term; number = a.number } };

    ghost inverse = { λ f. record { term = f.term; number = f.number } };
}

/// A ForAll that was instantiated, and the And of the terms with which it was.
#[derive(Clone, Copy)]
pub struct Mark {
    pub fact: TermId,
    pub tuple: TermId,
}

impl Model for Mark {
    ghost use Rattle.numbered_branches.specs.Branches.{NumberedMark};
    ghost use Rattle.numbered_branches.specs.Codes.{coded_mark};

    ghost Value = { NumberedMark };

    ghost coded = { coded_mark };

    ghost view = { λ a. record { fact = a.fact; tuple = a.tuple } };

    ghost inverse = { λ m. record { fact = m.fact; tuple = m.tuple } };
}

/// A branch: the facts, oldest first, the seen calls, the marks, the sorts of the variables, and the
/// number of the proof's next fact.
#[derive(Drop)]
pub struct Branch {
    pub facts: Vec<Fact>,
    pub calls: Vec<TermId>,
    pub marks: Vec<Mark>,
    pub vars: Vec<Sort>,
    pub next: u64,
}

impl Model for Branch {
    ghost use Rattle.numbered_branches.specs.Branches.{NumberedBranch};
    ghost use Rattle.numbered_branches.specs.Codes.{coded_branch};

    ghost Value = { NumberedBranch };

    ghost coded = { coded_branch };

    ghost view = { λ a. record { facts = a.facts.items; calls = a.calls.items; marks = a.marks.items; vars = a.vars.items; next = a.next } };
}

// Equal items.
fn copied<T: Copy>(alloc: Global, items: &[T]) -> Result<Vec<T>, AllocError>
    ensures { IfOk result (λ v. v.items ≡ items.now) }
{
    let mut copies = Vec::new(alloc);
    copies.extend_from_slice(items)?;
    Ok(copies)
}

impl Branch {
    /// An equal branch.
    pub fn copy(&self, alloc: Global) -> Result<Branch, AllocError>
        ensures { IfOk result (λ b. b ≡ self.now) }
    {
        Ok(Branch {
            facts: copied(alloc, &self.facts)?,
            calls: copied(alloc, &self.calls)?,
            marks: copied(alloc, &self.marks)?,
            vars: copy_sorts(alloc, &self.vars)?,
            next: self.next,
        })
    }
}
