// Normal forms over the variables of a branch, and a branch without a fact.
ghost use Rattle.std.specs.Prelude.{◌≡◌, ◌<◌, length};
ghost use Rattle.logic_core.specs.Gives.{Gives};
ghost use Rattle.tableau_branch.specs.Branch.{normal_in, without};

use logic_core::def::Def;
use logic_core::fault::NormalFault;
use logic_core::normal::normal_over;
use logic_core::term::Term;
use std::alloc::Global;
use tableau_branch::branch::Branch;
use tableau_branch::change::take_out;

/// The normal form of a formula. Wide exactly where it leaves 128 bits.
pub fn normal_in(
    alloc: Global,
    defs: &[Def],
    branch: &Branch,
    formula: &Term,
) -> Result<Term, NormalFault>
    ensures { Gives result (normal_in defs.now branch.now formula.now) }
{
    normal_over(alloc, formula, &branch.vars, defs)
}

/// The branch without the fact at this place.
pub fn without(mut branch: Branch, at: usize) -> Branch
    requires { at < length branch.facts }
    ensures { result ≡ without at branch }
{
    take_out(&mut branch.facts, at);
    branch
}
