// Branches of numbers of a node's children that begin with one fact each.
ghost use Rattle.std.specs.Prelude.{◌<◌, length, IfOk};
ghost use Rattle.tableau_branch.specs.Cases.{case};
ghost use Rattle.term_bank.specs.Numbered.{at};
ghost use Rattle.numbered_terms.specs.Stored.{Grows};
ghost use Rattle.numbered_branches.specs.Branches.{IsBranchOver, branch_at};
ghost use Rattle.numbered_branches.specs.Standing.{IsMadeAt};

use crate::append::append_one;
use crate::branch::Branch;
use crate::change::add;
use crate::played::Made;
use numbered_facts::Store;
use std::alloc::AllocError;
use term_bank::TermId;

/// The branch of a child, with one more fact.
pub fn case(store: &mut Store, branch: Branch, term: TermId) -> Result<Made, AllocError>
    requires term { term < length store.old.terms }
    requires branch { IsBranchOver store.old.terms branch }
    ensures grows { Grows store.old store.new }
    ensures made { IfOk result (λ m. IsMadeAt store.new.terms m (case (branch_at store.old.terms branch) (at store.old.terms term))) }
{
    let mut made = Made::begun(store.alloc(), branch);
    let fact = append_one(store, &mut made, term)?;
    add(store.terms(), &mut made, &fact)?;
    Ok(made)
}
