// The rule unfold, over numbers.
ghost use Rattle.std.specs.Prelude.{◌≡◌, ◌<◌, ◌++◌, [], ◌∷◌, length, map, List, IfOk, IfSome, IfNone};
ghost use Rattle.std.specs.List.{AllByRecursion};
ghost use Rattle.logic_core.specs.Def.{Def as definition};
ghost use Rattle.logic_core.specs.Tree.{call};
ghost use Rattle.logic_core.specs.View.{trees_of};
ghost use Rattle.proof_core.specs.Replace.{body_of};
ghost use Rattle.term_bank.specs.Numbered.{at};
ghost use Rattle.tableau_branch.specs.Branch.{first_from};
ghost use Rattle.logic_rules.specs.Unfolding.{first_call, is_plain, with_call, unfolded_form, unfolded_at, unfold_call};
ghost use Rattle.numbered_terms.specs.At.{GivesAt};
ghost use Rattle.numbered_terms.specs.Stored.{Grows};
ghost use Rattle.numbered_branches.specs.Applied.{TriesAt, GivesMoveAt};
ghost use Rattle.numbered_branches.specs.Branches.{branch_at, fact_at, IsFactBelow, IsBranchOver};
ghost use Rattle.numbered_facts.specs.Answers.{StandsFor};
ghost use Rattle.numbered_logic.specs.Forms.{branch_over};
ghost use Rattle.numbered_logic.specs.Found.{found_one_at, IsOneFoundIn, FindsOne};

use crate::found::{FoundOne, term_of};
use logic_core::{Def, NormalFault};
use numbered_branches::branch::{Branch, Fact};
use numbered_branches::on_one::changing;
use numbered_branches::played::{Attempt, Move};
use numbered_branches::step::Step;
use numbered_facts::Store;
use numbered_terms::Terms;
use numbered_terms::renumber::copy_numbers;
use std::alloc::AllocError;
use term_bank::{Node, TermId};

// The oldest fact with a Call outside quantifiers, with the first one.
fn oldest_call(store: &mut Store, facts: &[Fact]) -> Result<Option<FoundOne>, AllocError>
    requires { AllByRecursion (IsFactBelow (length store.old.terms)) facts.now }
    ensures grows { Grows store.old store.new }
    ensures found { IfOk result (λ o. FindsOne store.new.terms facts.now o (first_from first_call 0 (map (fact_at store.old.terms) facts.now))) }
{
    for (at, fact) in facts.iter().enumerate() {
        let id = term_of(fact);
        if let Some(call) = store.call(id)? {
            return Ok(Some(FoundOne::new(at, fact, call)));
        }
    }
    Ok(None)
}

// The number of the definition that a Call applies, and its arguments.
fn called(terms: &Terms, id: TermId) -> Option<(u64, &[TermId])>
    requires { id < length terms.now }
    ensures is { IfSome result (λ p. at terms.now id ≡ call p.0 (trees_of (map (at terms.now) p.1.now))) }
    ensures within { IfSome result (λ p. AllByRecursion (λ j. j < id) p.1.now) }
    ensures other { IfNone result ((defs : List definition) → body_of defs (at terms.now id) ≡ None) }
{
    match terms.node(id) {
        Node::Call(number, args) => Some((*number, args)),
        _ => None,
    }
}

// The body of the definition of this number with the arguments for its parameters.
fn applied(store: &mut Store, number: u64, args: &[TermId]) -> Result<Option<TermId>, AllocError>
    requires { AllByRecursion (λ i. i < length store.old.terms) args.now }
    ensures grows { Grows store.old store.new }
    ensures body { IfOk result (λ o. StandsFor store.new.terms o (body_of store.old.defs (call number (trees_of (map (at store.old.terms) args.now))))) }
{
    match store.body(number)? {
        Some(body) => Ok(Some(store.substituted(body, args)?)),
        None => Ok(None),
    }
}

// The body of the called definition with the arguments for its parameters.
fn body_of(store: &mut Store, id: TermId) -> Result<Option<TermId>, AllocError>
    requires { id < length store.old.terms }
    ensures grows { Grows store.old store.new }
    ensures body { IfOk result (λ o. StandsFor store.new.terms o (body_of store.old.defs (at store.old.terms id))) }
{
    match called(store.terms(), id) {
        Some((number, args)) => {
            let args = copy_numbers(store.alloc(), args)?;
            applied(store, number, &args)
        }
        None => Ok(None),
    }
}

// Whether the definition is logical: its body may have quantifiers.
fn is_logical(def: &Def) -> bool
    ensures { result ≡ def.now.logical }
{
    def.logical
}

// Whether it is a Call of a plain function, whose body has no quantifier.
fn is_plain(terms: &Terms, defs: &[Def], id: TermId) -> bool
    requires { id < length terms.now }
    ensures { result ≡ is_plain defs.now (at terms.now id) }
{
    match terms.node(id) {
        Node::Call(number, _) => match defs.get(*number as usize) {
            Some(def) => !is_logical(def),
            None => false,
        },
        _ => false,
    }
}

// The branch with one seen call more.
fn with_seen(branch: Branch, call: TermId) -> Result<Branch, AllocError>
    ensures { IfOk result (λ b. b ≡ record branch { calls = branch.calls ++ call ∷ [] }) }
{
    let mut branch = branch;
    branch.calls.push(call)?;
    Ok(branch)
}

// A plain function's Call joins the seen calls.
fn with_call(
    terms: &Terms,
    defs: &[Def],
    call: TermId,
    branch: Branch,
) -> Result<Branch, AllocError>
    requires call { call < length terms.now }
    requires branch { IsBranchOver terms.now branch }
    ensures over { IfOk result (λ b. IsBranchOver terms.now b) }
    ensures is { IfOk result (λ b. branch_at terms.now b ≡ with_call defs.now (at terms.now call) (branch_at terms.now branch)) }
    ensures facts { IfOk result (λ b. b.facts ≡ branch.facts) }
{
    if is_plain(terms, defs, call) {
        return with_seen(branch, call);
    }
    Ok(branch)
}

// The formula with the call replaced by the definition's body, in normal form. Wide exactly where no
// definition is called or the normal form leaves 128 bits.
fn unfolded_form(store: &mut Store, formula: TermId, call: TermId) -> Result<TermId, NormalFault>
    requires formula { formula < length store.old.terms }
    requires call { call < length store.old.terms }
    ensures grows { Grows store.old store.new }
    ensures gives { GivesAt store.new.terms result (unfolded_form store.old.defs (branch_over store.old.vars) (at store.old.terms formula) (at store.old.terms call)) }
{
    match body_of(store, call)? {
        Some(body) => store.replaced_form(call, body, formula),
        None => Err(NormalFault::Wide),
    }
}

// The fact is changed: its first Call becomes the definition's body. Wide exactly where the normal
// form leaves 128 bits.
fn unfold_at(store: &mut Store, branch: Branch, found: FoundOne) -> Result<Move, NormalFault>
    requires branch { IsBranchOver store.old.terms branch }
    requires vars { store.old.vars ≡ branch.vars }
    requires found { IsOneFoundIn store.old.terms branch.facts found }
    ensures grows { Grows store.old store.new }
    ensures gives { GivesMoveAt store.new.terms result (unfolded_at store.old.defs (branch_at store.old.terms branch) (found_one_at store.old.terms found)) }
{
    let form = unfolded_form(store, found.formula, found.term)?;
    let more = with_call(store.terms(), store.defs(), found.term, branch)?;
    let node = Step::Unfold {
        fact: found.number,
        term: found.term,
    };
    Ok(changing(store, more, found.at, node, form)?)
}

/// In the oldest fact with a Call outside quantifiers its first one is unfolded.
pub fn unfold(store: &mut Store, branch: Branch) -> Result<Attempt, NormalFault>
    requires branch { IsBranchOver store.old.terms branch }
    requires vars { store.old.vars ≡ branch.vars }
    ensures grows { Grows store.old store.new }
    ensures tries { TriesAt store.new.terms (branch_at store.old.terms branch) result (unfold_call store.old.defs (branch_at store.old.terms branch)) }
{
    match oldest_call(store, &branch.facts)? {
        Some(found) => Ok(Attempt::Gives(unfold_at(store, branch, found)?)),
        None => Ok(Attempt::Passes(branch)),
    }
}
