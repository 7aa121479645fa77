// Formulas that were found in a fact of a branch: their normal forms, and the branch without the fact.
ghost use Rattle.std.specs.Prelude.{◌≡◌, ◌<◌, length};
ghost use Rattle.logic_core.specs.Gives.{GivesAs};
ghost use Rattle.tableau_branch.specs.Branch.{normal_in, each, without};

use crate::branch_forms::without;
use logic_core::def::Def;
use logic_core::fault::NormalFault;
use logic_core::sequence::Sequence;
use logic_core::term::Term;
use std::alloc::Global;
use tableau_branch::branch::Branch;
use tableau_branch::forms::normal_forms;
use tableau_branch::found::At;

/// The normal forms of formulas. Wide exactly where one leaves 128 bits.
fn normal_each(
    alloc: Global,
    defs: &[Def],
    branch: &Branch,
    formulas: &[Term],
) -> Result<Vec<Term>, NormalFault>
    ensures { GivesAs (λ v. v.items) result (each (normal_in defs.now branch.now) formulas.now) }
{
    normal_forms(alloc, &branch.vars, defs, formulas)
}

/// The normal forms of the formulas that were found in a fact. Wide exactly where one leaves 128
/// bits.
pub fn normal_parts(
    alloc: Global,
    defs: &[Def],
    branch: &Branch,
    found: &At<Sequence<Term>>,
) -> Result<Vec<Term>, NormalFault>
    ensures { GivesAs (λ v. v.items) result (each (normal_in defs.now branch.now) found.now.what) }
{
    normal_each(alloc, defs, branch, found.what.as_slice())
}

/// The number of the fact in which formulas were found.
pub fn number_of(found: &At<Sequence<Term>>) -> u64
    ensures { result ≡ found.now.fact.number }
{
    found.fact.number
}

/// The branch without the fact in which formulas were found.
pub fn without_found(branch: Branch, found: &At<Sequence<Term>>) -> Branch
    requires { found.now.at < length branch.facts }
    ensures { result ≡ without found.now.at branch }
{
    without(branch, found.at)
}
