// A term replaced in the seen calls and in the marks, by number.
ghost use Rattle.std.specs.Prelude.{◌≡◌, ◌<◌, length, map, IfOk};
ghost use Rattle.std.specs.List.{AllByRecursion};
ghost use Rattle.logic_core.specs.Gives.{GivesAs};
ghost use Rattle.tableau_branch.specs.Branch.{each};
ghost use Rattle.logic_rules.specs.Rewriting.{rewritten_within, rewritten_mark};
ghost use Rattle.logic_rules.specs.View.{bare};
ghost use Rattle.term_bank.specs.Numbered.{at};
ghost use Rattle.numbered_terms.specs.At.{GivesAt};
ghost use Rattle.numbered_terms.specs.Lists.{terms_at};
ghost use Rattle.numbered_terms.specs.Stored.{Grows};
ghost use Rattle.numbered_branches.specs.Branches.{IsMarkOver, mark_at};

use crate::instantiating::terms_of;
use logic_core::NormalFault;
use numbered_branches::branch::Mark;
use numbered_facts::Store;
use term_bank::{Node, TermId};

// The term with the left side in it replaced by the right one, in normal form; a term in which the left
// side doesn't occur stays as it is. Wide exactly where the normal form leaves 128 bits.
fn rewrite_within(
    store: &mut Store,
    left: TermId,
    right: TermId,
    term: TermId,
) -> Result<TermId, NormalFault>
    requires left { left < length store.old.terms }
    requires right { right < length store.old.terms }
    requires term { term < length store.old.terms }
    ensures grows { Grows store.old store.new }
    ensures gives { GivesAt store.new.terms result (rewritten_within store.old.defs (bare store.old.defs (at store.old.terms left) (at store.old.terms right) store.old.vars) (at store.old.terms left) (at store.old.terms right) (at store.old.terms term)) }
{
    let is_there = store.occurs(left, term)?;
    if is_there {
        return store.replaced_form(left, right, term);
    }
    Ok(term)
}

/// The same in each term.
pub fn rewrite_terms(
    store: &mut Store,
    left: TermId,
    right: TermId,
    terms: &[TermId],
) -> Result<Vec<TermId>, NormalFault>
    requires left { left < length store.old.terms }
    requires right { right < length store.old.terms }
    requires terms { AllByRecursion (λ i. i < length store.old.terms) terms.now }
    ensures grows { Grows store.old store.new }
    ensures gives { GivesAs (λ v. terms_at store.new.terms v.items) result (each (rewritten_within store.old.defs (bare store.old.defs (at store.old.terms left) (at store.old.terms right) store.old.vars) (at store.old.terms left) (at store.old.terms right)) (terms_at store.old.terms terms.now)) }
    ensures within { IfOk result (λ v. AllByRecursion (λ i. i < length store.new.terms) v.items) }
{
    let mut rewritten = Vec::new(store.alloc());
    for term in terms {
        let made = rewrite_within(store, left, right, *term)?;
        rewritten.push(made)?;
    }
    Ok(rewritten)
}

// The same in a mark.
fn rewrite_mark(
    store: &mut Store,
    left: TermId,
    right: TermId,
    mark: &Mark,
) -> Result<Mark, NormalFault>
    requires left { left < length store.old.terms }
    requires right { right < length store.old.terms }
    requires mark { IsMarkOver store.old.terms mark.now }
    ensures grows { Grows store.old store.new }
    ensures gives { GivesAs (mark_at store.new.terms) result (rewritten_mark store.old.defs (bare store.old.defs (at store.old.terms left) (at store.old.terms right) store.old.vars) (at store.old.terms left) (at store.old.terms right) (mark_at store.old.terms mark.now)) }
    ensures over { IfOk result (IsMarkOver store.new.terms) }
{
    let fact = rewrite_within(store, left, right, mark.fact)?;
    let terms = terms_of(store.terms(), mark.tuple)?;
    let rewritten = rewrite_terms(store, left, right, &terms)?;
    let tuple = store.make(Node::And(rewritten))?;
    Ok(Mark { fact, tuple })
}

/// The same in each mark.
pub fn rewrite_marks(
    store: &mut Store,
    left: TermId,
    right: TermId,
    marks: &[Mark],
) -> Result<Vec<Mark>, NormalFault>
    requires left { left < length store.old.terms }
    requires right { right < length store.old.terms }
    requires marks { AllByRecursion (IsMarkOver store.old.terms) marks.now }
    ensures grows { Grows store.old store.new }
    ensures gives { GivesAs (λ v. map (mark_at store.new.terms) v.items) result (each (rewritten_mark store.old.defs (bare store.old.defs (at store.old.terms left) (at store.old.terms right) store.old.vars) (at store.old.terms left) (at store.old.terms right)) (map (mark_at store.old.terms) marks.now)) }
    ensures over { IfOk result (λ v. AllByRecursion (IsMarkOver store.new.terms) v.items) }
{
    let mut rewritten = Vec::new(store.alloc());
    for mark in marks {
        let made = rewrite_mark(store, left, right, mark)?;
        rewritten.push(made)?;
    }
    Ok(rewritten)
}
