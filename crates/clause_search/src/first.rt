// The first branch of a search, by number.
ghost use Rattle.std.specs.Prelude.{◌≡◌, ◌<◌, ◌++◌, ◌∷◌, [], length, map, option_map, IfOk};
ghost use Rattle.std.specs.List.{AllByRecursion};
ghost use Rattle.logic_core.specs.Gives.{GivesAs};
ghost use Rattle.logic_core.specs.Normal.{normal};
ghost use Rattle.logic_core.specs.Tree.{negation};
ghost use Rattle.proof_core.specs.Context.{start};
ghost use Rattle.tableau_branch.specs.Branch.{each};
ghost use Rattle.tableau.specs.Search.{first_branch};
ghost use Rattle.numbered_terms.specs.Stored.{Grows};
ghost use Rattle.numbered_terms.specs.At.{GivesAt};
ghost use Rattle.numbered_terms.specs.Lists.{terms_at};
ghost use Rattle.numbered_branches.specs.Branches.{branch_at, IsBranchOver};
ghost use Rattle.clause_search.specs.First.{facts_from};

use logic_core::copy::copy_sorts;
use logic_core::fault::NormalFault;
use logic_core::sort::Sort;
use logic_core::term::Term;
use numbered_branches::branch::{Branch, Fact};
use numbered_facts::Store;
use obligation_text::obligation::Obligation;
use std::alloc::{AllocError, Global};
use term_bank::TermId;

/// The normal form of a formula. Wide exactly where it leaves 128 bits.
fn normal_form(store: &mut Store, formula: &Term) -> Result<TermId, NormalFault>
    ensures grows { Grows store.old store.new }
    ensures gives { GivesAt store.new.terms result (normal store.old.vars store.old.defs [] formula.now) }
{
    let id = store.number(formula)?;
    store.normal(id)
}

/// The normal forms of formulas. Wide exactly where one leaves 128 bits.
fn normal_forms(store: &mut Store, formulas: &[Term]) -> Result<Vec<TermId>, NormalFault>
    ensures grows { Grows store.old store.new }
    ensures gives { GivesAs (λ v. terms_at store.new.terms v.items) result (each (λ t. normal store.old.vars store.old.defs [] t) formulas.now) }
    ensures within { IfOk result (λ v. AllByRecursion (λ i. i < length store.new.terms) v.items) }
{
    let mut forms = Vec::new(store.alloc());
    for formula in formulas {
        let form = normal_form(store, formula)?;
        forms.push(form)?;
    }
    Ok(forms)
}

/// The normal Not of a formula. Wide exactly where making it leaves 128 bits.
fn normal_not(store: &mut Store, goal: &Term) -> Result<TermId, NormalFault>
    ensures grows { Grows store.old store.new }
    ensures gives { GivesAt store.new.terms result (normal store.old.vars store.old.defs [] (negation goal.now)) }
{
    let form = normal_form(store, goal)?;
    match store.negation(form)? {
        Some(refuted) => Ok(refuted),
        None => Err(NormalFault::Wide),
    }
}

/// The terms as facts, with the numbers from 0 on.
fn numbered(alloc: Global, forms: &[TermId]) -> Result<Vec<Fact>, AllocError>
    ensures { IfOk result (λ v. v.items ≡ facts_from 0 forms.now) }
{
    let mut facts = Vec::with_capacity(alloc, forms.len())?;
    for i in 0..forms.len() {
        let fact = Fact {
            term: forms[i],
            number: i as u64,
        };
        facts.push(fact)?;
    }
    Ok(facts)
}

/// The branch of these first facts.
fn branch_with(alloc: Global, vars: &[Sort], forms: &[TermId]) -> Result<Branch, AllocError>
    ensures { IfOk result (λ b. b ≡ record { facts = facts_from 0 forms.now; calls = []; marks = []; vars = vars.now; next = length forms.now }) }
{
    Ok(Branch {
        facts: numbered(alloc, forms)?,
        calls: Vec::new(alloc),
        marks: Vec::new(alloc),
        vars: copy_sorts(alloc, vars)?,
        next: forms.len() as u64,
    })
}

/// The branch with the normal axioms and the normal Not of the goal. Wide exactly where making them
/// leaves 128 bits.
pub fn first_branch(store: &mut Store, obligation: &Obligation) -> Result<Branch, NormalFault>
    requires vars { store.old.vars ≡ obligation.now.vars }
    requires defs { store.old.defs ≡ obligation.now.defs }
    ensures grows { Grows store.old store.new }
    ensures gives { GivesAs (λ b. branch_at store.new.terms b) result (option_map first_branch (start obligation.now)) }
    ensures over { IfOk result (λ b. IsBranchOver store.new.terms b) }
{
    let mut forms = normal_forms(store, obligation.axioms())?;
    let refuted = normal_not(store, obligation.goal())?;
    forms.push(refuted)?;
    Ok(branch_with(store.alloc(), store.vars(), &forms)?)
}
