// The rule skolem, over numbers.
ghost use Rattle.std.specs.Prelude.{◌≡◌, ◌<◌, ◌++◌, [], length, map, Some, None, IfOk, IfSome, IfNone, OnOk};
ghost use Rattle.std.specs.List.{AllByRecursion};
ghost use Rattle.logic_core.specs.Normal.{normal};
ghost use Rattle.logic_core.specs.Substitute.{substitute};
ghost use Rattle.proof_core.specs.Context.{new_variables};
ghost use Rattle.term_bank.specs.Numbered.{at, Begins};
ghost use Rattle.tableau_branch.specs.Branch.{first_from, without};
ghost use Rattle.tableau_branch.specs.Variables.{with_variables};
ghost use Rattle.logic_rules.specs.Skolem.{body_of_exists, as_exists, skolemized_at, skolem};
ghost use Rattle.numbered_terms.specs.At.{IsAt, GivesAt};
ghost use Rattle.numbered_terms.specs.Stored.{Grows};
ghost use Rattle.numbered_facts.specs.Answers.{AreAt};
ghost use Rattle.numbered_branches.specs.Applied.{TriesAt, GivesMoveAt};
ghost use Rattle.numbered_branches.specs.Branches.{branch_at, fact_at, IsFactBelow, IsBranchOver};
ghost use Rattle.numbered_logic.specs.Exists.{exists_at, IsExistsIn, FindsExists};

use crate::found::{term_of, without};
use logic_core::copy::copy_sorts;
use logic_core::{NormalFault, Sort};
use numbered_branches::branch::{Branch, Fact};
use numbered_branches::on_one::adding;
use numbered_branches::played::{Attempt, Move};
use numbered_branches::step::Step;
use numbered_facts::Store;
use numbered_terms::Terms;
use std::alloc::AllocError;
use term_bank::{Node, TermId};

/// An Exists at its place in the branch: its formula, its number in the proof, the sorts of its variables,
/// and its body.
#[derive(Drop)]
pub struct FoundExists {
    pub at: usize,
    pub formula: TermId,
    pub number: u64,
    pub sorts: Vec<Sort>,
    pub body: TermId,
}

// The Exists in the fact at this place.
fn found_in(at: usize, fact: &Fact, sorts: Vec<Sort>, body: TermId) -> FoundExists
    ensures { result ≡ record { at = at; formula = fact.now.term; number = fact.now.number; sorts = sorts; body = body } }
{
    FoundExists {
        at,
        formula: fact.term,
        number: fact.number,
        sorts,
        body,
    }
}

// The sorts of the variables of an Exists, and its body.
fn body_of_exists(terms: &Terms, id: TermId) -> Option<(&[Sort], TermId)>
    requires { id < length terms.now }
    ensures is { IfSome result (λ p. body_of_exists (at terms.now id) ≡ Some (p.0.now, at terms.now p.1)) }
    ensures within { IfSome result (λ p. p.1 < length terms.now) }
    ensures other { IfNone result (body_of_exists (at terms.now id) ≡ None) }
{
    match terms.node(id) {
        Node::Exists(sorts, _, body) => Some((sorts, *body)),
        _ => None,
    }
}

// The oldest Exists.
fn oldest_exists(terms: &Terms, facts: &[Fact]) -> Result<Option<FoundExists>, AllocError>
    requires { AllByRecursion (IsFactBelow (length terms.now)) facts.now }
    ensures { IfOk result (λ o. FindsExists terms.now facts.now o (first_from as_exists 0 (map (fact_at terms.now) facts.now))) }
{
    for (at, fact) in facts.iter().enumerate() {
        let id = term_of(fact);
        if let Some(found) = body_of_exists(terms, id) {
            let copies = copy_sorts(terms.alloc(), found.0)?;
            return Ok(Some(found_in(at, fact, copies, found.1)));
        }
    }
    Ok(None)
}

// The new variables of these sorts, which have the next numbers.
fn new_variables(
    store: &mut Store,
    vars: &[Sort],
    sorts: &[Sort],
) -> Result<Vec<TermId>, AllocError>
    ensures grows { Grows store.old store.new }
    ensures are { IfOk result (λ v. AreAt store.new.terms v.items (new_variables (record { vars = vars.now; facts = [] }) sorts.now)) }
{
    let mut number = vars.len() as u64;
    let mut variables = Vec::new(store.alloc());
    for _sort in sorts {
        let variable = store.make(Node::Free(number))?;
        variables.push(variable)?;
        number = number.checked_add(1).ok_or(AllocError)?;
    }
    Ok(variables)
}

// The body with new variables of these sorts.
fn witness(
    store: &mut Store,
    vars: &[Sort],
    sorts: &[Sort],
    body: TermId,
) -> Result<TermId, AllocError>
    requires { body < length store.old.terms }
    ensures grows { Grows store.old store.new }
    ensures is { IfOk result (λ i. IsAt store.new.terms i (substitute (at store.old.terms body) (new_variables (record { vars = vars.now; facts = [] }) sorts.now))) }
{
    let variables = new_variables(store, vars, sorts)?;
    store.substituted(body, &variables)
}

// The body of the Exists with new variables.
fn instance_of(
    store: &mut Store,
    branch: &Branch,
    found: &FoundExists,
) -> Result<TermId, AllocError>
    requires { found.now.body < length store.old.terms }
    ensures grows { Grows store.old store.new }
    ensures is { IfOk result (λ i. IsAt store.new.terms i (substitute (at store.old.terms found.now.body) (new_variables (record { vars = branch.now.vars; facts = [] }) found.now.sorts.items))) }
{
    witness(store, &branch.vars, &found.sorts, found.body)
}

// The branch with more variables.
fn with_variables(branch: Branch, sorts: Vec<Sort>) -> Result<Branch, AllocError>
    ensures { IfOk result (λ b. b ≡ record branch { vars = branch.vars ++ sorts.items }) }
{
    let mut branch = branch;
    let mut sorts = sorts;
    branch.vars.append(&mut sorts)?;
    Ok(branch)
}

// The branch without the Exists, and with variables of its sorts.
fn widened(terms: &Terms, branch: Branch, found: FoundExists) -> Result<Branch, AllocError>
    requires place { found.at < length branch.facts }
    requires branch { IsBranchOver terms.now branch }
    ensures over { IfOk result (λ b. IsBranchOver terms.now b) }
    ensures is { IfOk result (λ b. branch_at terms.now b ≡ with_variables found.sorts.items (without found.at (branch_at terms.now branch))) }
{
    let FoundExists {
        at,
        formula: _formula,
        number: _number,
        sorts,
        body: _body,
    } = found;
    let rest = without(terms, branch, at);
    with_variables(rest, sorts)
}

// The normal form over variables of these sorts. The store goes on with its own. Wide exactly where the
// form leaves 128 bits.
fn form_over(store: &mut Store, vars: &[Sort], id: TermId) -> Result<TermId, NormalFault>
    requires { id < length store.old.terms }
    ensures terms { Begins store.old.terms store.new.terms }
    ensures grows { OnOk result (Grows store.old store.new) }
    ensures gives { GivesAt store.new.terms result (normal vars.now store.old.defs [] (at store.old.terms id)) }
{
    let before = copy_sorts(store.alloc(), store.vars())?;
    store.over(vars)?;
    let form = store.normal(id);
    store.over(&before)?;
    form
}

// The normal form over the branch's variables. The store goes on with its own. Wide exactly where the form
// leaves 128 bits.
fn form_in(store: &mut Store, branch: &Branch, id: TermId) -> Result<TermId, NormalFault>
    requires { id < length store.old.terms }
    ensures terms { Begins store.old.terms store.new.terms }
    ensures grows { OnOk result (Grows store.old store.new) }
    ensures gives { GivesAt store.new.terms result (normal branch.now.vars store.old.defs [] (at store.old.terms id)) }
{
    form_over(store, &branch.vars, id)
}

// The form of the instance with new variables is added to the branch without the Exists. Wide exactly where
// it leaves 128 bits.
fn skolemize_at(store: &mut Store, branch: Branch, found: FoundExists) -> Result<Move, NormalFault>
    requires branch { IsBranchOver store.old.terms branch }
    requires found { IsExistsIn store.old.terms branch.facts found }
    ensures terms { Begins store.old.terms store.new.terms }
    ensures grows { OnOk result (Grows store.old store.new) }
    ensures gives { GivesMoveAt store.new.terms result (skolemized_at store.old.defs (branch_at store.old.terms branch) (exists_at store.old.terms found)) }
{
    let instance = instance_of(store, &branch, &found)?;
    let node = Step::Skolem(found.number);
    let wider = widened(store.terms(), branch, found)?;
    let form = form_in(store, &wider, instance)?;
    Ok(adding(store, wider, node, form)?)
}

/// The oldest Exists goes; its body with new variables is added. Wide exactly where it leaves 128 bits.
pub fn skolem(store: &mut Store, branch: Branch) -> Result<Attempt, NormalFault>
    requires { IsBranchOver store.old.terms branch }
    ensures terms { Begins store.old.terms store.new.terms }
    ensures grows { OnOk result (Grows store.old store.new) }
    ensures tries { TriesAt store.new.terms (branch_at store.old.terms branch) result (skolem store.old.defs (branch_at store.old.terms branch)) }
{
    match oldest_exists(store.terms(), &branch.facts)? {
        Some(found) => Ok(Attempt::Gives(skolemize_at(store, branch, found)?)),
        None => Ok(Attempt::Passes(branch)),
    }
}
