// The ground terms of a branch, by number.
ghost use Rattle.std.specs.Prelude.{◌≡◌, ◌<◌, [], ◌++◌, List, length, map, filter, flat_map, OnOk};
ghost use Rattle.std.specs.List.{AllByRecursion};
ghost use Rattle.logic_core.specs.Tree.{Tree};
ghost use Rattle.logic_core.specs.Subterm.{outside};
ghost use Rattle.tableau_branch.specs.Oriented.{is_application};
ghost use Rattle.logic_rules.specs.Instantiating.{each_once, applications_in, ground_terms};
ghost use Rattle.term_bank.specs.Numbered.{at};
ghost use Rattle.numbered_terms.specs.Stored.{Grows};
ghost use Rattle.numbered_facts.specs.Answers.{AreAt};
ghost use Rattle.numbered_branches.specs.Branches.{IsFactBelow, IsBranchOver, fact_at, branch_at};
ghost use Rattle.numbered_branches.specs.Counts.{once};

use numbered_branches::branch::{Branch, Fact};
use numbered_facts::Store;
use numbered_terms::number_set::NumberSet;
use std::alloc::AllocError;
use term_bank::TermId;

// The numbers join the others, each once.
fn insert_each(set: &mut NumberSet, ids: &[TermId]) -> Result<(), AllocError>
    ensures { OnOk result (set.new ≡ once set.old ids.now) }
{
    for id in ids {
        set.insert(*id)?;
    }
    Ok(())
}

// The ground terms in the term join the others.
fn push_ground(store: &mut Store, ground: &mut NumberSet, term: TermId) -> Result<(), AllocError>
    requires { term < length store.old.terms }
    ensures grows { Grows store.old store.new }
    ensures ground { OnOk result ((before : List Tree) → AreAt store.old.terms ground.old (each_once [] before) → AreAt store.new.terms ground.new (each_once [] (before ++ filter is_application (outside (at store.old.terms term))))) }
{
    store.terms().are_stored();
    if let Some(ids) = store.kept_ground(term) {
        return insert_each(ground, ids);
    }
    let ids = store.ground(term)?;
    store.terms().are_stored();
    insert_each(ground, &ids)
}

// The ground terms in the facts.
fn list_facts(store: &mut Store, ground: &mut NumberSet, facts: &[Fact]) -> Result<(), AllocError>
    requires empty { ground.old ≡ [] }
    requires facts { AllByRecursion (IsFactBelow (length store.old.terms)) facts.now }
    ensures grows { Grows store.old store.new }
    ensures ground { OnOk result (AreAt store.new.terms ground.new (each_once [] (flat_map applications_in (map (fact_at store.old.terms) facts.now)))) }
{
    for fact in facts {
        push_ground(store, ground, fact.term)?;
    }
    Ok(())
}

/// Lists the ground terms of the branch: the Reads and Calls of the facts outside quantifiers, oldest
/// fact first, in preorder, then the seen calls, each once.
pub fn list_ground(
    store: &mut Store,
    ground: &mut NumberSet,
    branch: &Branch,
) -> Result<(), AllocError>
    requires { IsBranchOver store.old.terms branch.now }
    ensures grows { Grows store.old store.new }
    ensures ground { OnOk result (AreAt store.new.terms ground.new (ground_terms (branch_at store.old.terms branch.now))) }
{
    ground.clear();
    list_facts(store, ground, &branch.facts)?;
    store.terms().are_stored();
    insert_each(ground, &branch.calls)
}
