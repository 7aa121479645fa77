// The rules in the order in which a step tries them.
ghost use Rattle.tableau_branch.specs.Applied.{Tries, Attempts};
ghost use Rattle.tableau.specs.Search.{step};
ghost use Rattle.tableau.specs.Rules.{rule_of};
ghost use Rattle.tableau_branch.specs.View.{move_of};

use crate::back::back;
use crate::closing::close;
use crate::combining::combine;
use crate::flattening::flatten;
use crate::instantiating::instantiate;
use crate::past::past;
use crate::rewriting::rewrite;
use crate::skolem::skolem;
use crate::splitting::split;
use crate::trichotomy::trichotomy;
use crate::unfolding::unfold;
use logic_core::def::Def;
use logic_core::fault::NormalFault;
use std::alloc::Global;
use tableau::rules::Rule;
use tableau_branch::branch::Branch;
use tableau_branch::played::{Attempt, Move};
use theory_rules::condition::condition;
use theory_rules::differ::differ;

/// The order in which a step tries them.
const ORDER: [Rule; 13] = [
    Rule::Close,
    Rule::Flatten,
    Rule::Skolem,
    Rule::Rewrite,
    Rule::Back,
    Rule::Unfold,
    Rule::Combine,
    Rule::Trichotomy,
    Rule::Split,
    Rule::Condition,
    Rule::Past,
    Rule::Differ,
    Rule::Instantiate,
];

/// What the rule makes of the branch. Wide exactly where applying it leaves 128 bits.
fn try_rule(rule: Rule, alloc: Global, defs: &[Def], branch: Branch) -> Result<Attempt, NormalFault>
    ensures { Tries branch result (rule_of defs.now rule branch) }
{
    match rule {
        Rule::Close => Ok(close(alloc, branch)),
        Rule::Flatten => flatten(alloc, defs, branch),
        Rule::Skolem => skolem(alloc, defs, branch),
        Rule::Rewrite => rewrite(alloc, defs, branch),
        Rule::Back => back(alloc, defs, branch),
        Rule::Unfold => unfold(alloc, defs, branch),
        Rule::Combine => combine(alloc, defs, branch),
        Rule::Trichotomy => trichotomy(alloc, defs, branch),
        Rule::Split => split(alloc, defs, branch),
        Rule::Condition => condition(alloc, defs, branch),
        Rule::Past => past(alloc, defs, branch),
        Rule::Differ => differ(alloc, defs, branch),
        Rule::Instantiate => instantiate(alloc, defs, branch),
    }
}

/// Applies the first rule that can be applied. None exactly where there is none, and Wide exactly
/// where applying it leaves 128 bits.
#[tactic(auto, unfolding(tableau::specs::Search::step))]
pub fn step(alloc: Global, defs: &[Def], branch: Branch) -> Result<Option<Move>, NormalFault>
    ensures { Attempts move_of result (step defs.now branch) }
{
    let mut branch = branch;
    for rule in ORDER {
        match try_rule(rule, alloc, defs, branch)? {
            Attempt::Gives(step) => return Ok(Some(step)),
            Attempt::Passes(same) => branch = same,
        }
    }
    Ok(None)
}
