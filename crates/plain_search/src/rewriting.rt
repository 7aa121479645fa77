// The rule rewrite.
ghost use Rattle.std.specs.Prelude.{◌≡◌, IfOk};
ghost use Rattle.std.specs.List.{list_any};
ghost use Rattle.std.specs.Option.{option_copied};
ghost use Rattle.logic_core.specs.Gives.{Gives, GivesAs};
ghost use Rattle.tableau_branch.specs.Applied.{Tries};
ghost use Rattle.tableau_branch.specs.Branch.{oldest, each};
ghost use Rattle.tableau_branch.specs.Replacing.{rewrites};
ghost use Rattle.logic_rules.specs.Rewriting.{left_in_another, rewritten_by, rewritten_within, rewritten_mark, rewrite};
ghost use Rattle.tableau_branch.specs.View.{move_of};
ghost use Rattle.proof_core.specs.Says.{says};
ghost use Rattle.term_bank.specs.Hash.{hash_of};
ghost use Rattle.logic_rules.specs.View.{bare, facts_rewritten, rest_rewritten};

use crate::left_sides::left_side;
use crate::replacing::{Replacing, change_each};
use logic_core::def::Def;
use logic_core::fault::NormalFault;
use logic_core::sequence::Sequence;
use logic_core::sort::Sort;
use logic_core::term::Term;
use proof_core::says::says;
use std::alloc::{AllocError, Global};
use std::mem;
use tableau_branch::branch::{Branch, Made, Mark};
use tableau_branch::changing::Ground;
use tableau_branch::fact::Fact;
use tableau_branch::forms::replaced_form;
use tableau_branch::found::At;
use tableau_branch::played::{Attempt, Move};
use term_bank::hash::hash;

/// Whether this is another fact than that of the number, and the term, whose hash this is, occurs in it.
pub fn rewrites(number: u64, left: &Term, hash: u64, other: &Fact) -> bool
    requires { hash ≡ hash_of left.now }
    ensures { result ≡ rewrites number left.now other.now }
{
    number != other.number() && other.holds(left, hash)
}

/// Whether the term occurs in another fact than that of the number.
fn occurs_in_another(number: u64, left: &Term, facts: &[Fact]) -> bool
    ensures { result ≡ list_any (rewrites number left.now) facts.now }
{
    let hash = hash(left);
    for other in facts {
        if rewrites(number, left, hash, other) {
            return true;
        }
    }
    false
}

/// The left side of an oriented fact that occurs in another fact.
pub fn left_in_another<'a>(
    alloc: Global,
    defs: &[Def],
    branch: &Branch,
    fact: &'a Fact,
) -> Result<Option<&'a Term>, AllocError>
    ensures { IfOk result (λ l. option_copied l ≡ left_in_another defs.now branch.now fact.now) }
{
    match left_side(alloc, &branch.vars, defs, fact)? {
        Some(left) => {
            if occurs_in_another(fact.number(), left, &branch.facts) {
                Ok(Some(left))
            } else {
                Ok(None)
            }
        }
        None => Ok(None),
    }
}

/// The oldest oriented fact whose left side occurs in another fact, with its left side.
pub fn oldest_left(
    alloc: Global,
    defs: &[Def],
    branch: &Branch,
) -> Result<Option<At<Term>>, AllocError>
    ensures { IfOk result (λ o. o ≡ oldest (left_in_another defs.now branch.now) branch.now) }
{
    for (at, fact) in branch.facts.iter().enumerate() {
        if let Some(left) = left_in_another(alloc, defs, branch, fact)? {
            let left = left.copy(alloc)?;
            return Ok(Some(At::new(alloc, at, fact, left)?));
        }
    }
    Ok(None)
}

/// The term with the left side in it replaced by the right one, in normal form; a term in which the
/// left side doesn't occur stays as it is. Wide exactly where the normal form leaves 128 bits.
fn rewrite_within(
    alloc: Global,
    vars: &[Sort],
    defs: &[Def],
    left: &Term,
    right: &Term,
    term: Term,
) -> Result<Term, NormalFault>
    ensures { Gives result (rewritten_within defs.now (bare defs.now left.now right.now vars.now) left.now right.now term) }
{
    if left.occurs_in(&term) {
        replaced_form(alloc, vars, defs, &term, left, right)
    } else {
        Ok(term)
    }
}

/// The same in each term.
fn rewrite_terms(
    alloc: Global,
    vars: &[Sort],
    defs: &[Def],
    left: &Term,
    right: &Term,
    mut terms: Vec<Term>,
) -> Result<Vec<Term>, NormalFault>
    ensures { GivesAs (λ v. v.items) result (each (rewritten_within defs.now (bare defs.now left.now right.now vars.now) left.now right.now) terms.items) }
{
    let mut rewritten = Vec::new(alloc);
    terms.reverse();
    while let Some(term) = terms.pop() {
        rewritten.push(rewrite_within(alloc, vars, defs, left, right, term)?)?;
    }
    Ok(rewritten)
}

/// The same in a mark.
fn rewrite_mark(
    alloc: Global,
    vars: &[Sort],
    defs: &[Def],
    left: &Term,
    right: &Term,
    mark: Mark,
) -> Result<Mark, NormalFault>
    ensures { Gives result (rewritten_mark defs.now (bare defs.now left.now right.now vars.now) left.now right.now mark) }
{
    let Mark { fact, tuple } = mark;
    let fact = rewrite_within(alloc, vars, defs, left, right, fact)?;
    let terms = rewrite_terms(alloc, vars, defs, left, right, tuple.into_vec())?;
    Ok(Mark {
        fact,
        tuple: Sequence::of(terms),
    })
}

/// The same in each mark.
fn rewrite_marks(
    alloc: Global,
    vars: &[Sort],
    defs: &[Def],
    left: &Term,
    right: &Term,
    mut marks: Vec<Mark>,
) -> Result<Vec<Mark>, NormalFault>
    ensures { GivesAs (λ v. v.items) result (each (rewritten_mark defs.now (bare defs.now left.now right.now vars.now) left.now right.now) marks.items) }
{
    let mut rewritten = Vec::new(alloc);
    marks.reverse();
    while let Some(mark) = marks.pop() {
        rewritten.push(rewrite_mark(alloc, vars, defs, left, right, mark)?)?;
    }
    Ok(rewritten)
}

/// The same in the seen calls and in the marks of a branch.
fn rewrite_rest(
    alloc: Global,
    defs: &[Def],
    made: &mut Made,
    left: &Term,
    right: &Term,
) -> Result<(), NormalFault>
    ensures { GivesAs (λ _. made.new) result (rest_rewritten defs.now left.now right.now made.old) }
{
    let calls = mem::replace(&mut made.branch.calls, Vec::new(alloc));
    let marks = mem::replace(&mut made.branch.marks, Vec::new(alloc));
    let calls = rewrite_terms(alloc, &made.branch.vars, defs, left, right, calls)?;
    let marks = rewrite_marks(alloc, &made.branch.vars, defs, left, right, marks)?;
    made.branch.calls = calls;
    made.branch.marks = marks;
    Ok(())
}

/// What the fact says that its left side is equal to.
fn right_of(alloc: Global, found: &At<Term>) -> Result<Option<Term>, AllocError>
    ensures { IfOk result (λ o. o ≡ says found.now.fact.term found.now.what) }
{
    says(alloc, &found.fact.term, &found.what)
}

/// The left side of the fact becomes the right one in all other facts. Wide exactly where a normal form
/// leaves 128 bits.
fn rewrite_facts(
    alloc: Global,
    defs: &[Def],
    made: &mut Made,
    found: &At<Term>,
    right: &Term,
) -> Result<(), NormalFault>
    ensures { GivesAs (λ _. made.new) result (facts_rewritten defs.now found.now.fact found.now.what right.now made.old) }
{
    let replacing = Replacing {
        ground: Ground::Fact(found.fact.number),
        left: &found.what,
        right,
    };
    change_each(alloc, defs, made, &replacing)
}

/// The same in the seen calls and in the marks.
fn rewrite_others(
    alloc: Global,
    defs: &[Def],
    made: &mut Made,
    found: &At<Term>,
    right: &Term,
) -> Result<(), NormalFault>
    ensures { GivesAs (λ _. made.new) result (rest_rewritten defs.now found.now.what right.now made.old) }
{
    rewrite_rest(alloc, defs, made, &found.what, right)
}

/// By this fact its left side becomes the right one in all other facts, in the seen calls and in the
/// marks. Wide exactly where the right side or a normal form leaves 128 bits.
pub fn rewrite_by(
    alloc: Global,
    defs: &[Def],
    branch: Branch,
    found: &At<Term>,
) -> Result<Move, NormalFault>
    ensures { GivesAs move_of result (rewritten_by defs.now branch found.now.fact found.now.what) }
{
    let Some(right) = right_of(alloc, found)? else {
        return Err(NormalFault::Wide);
    };
    let mut made = Made::begun(alloc, branch);
    rewrite_facts(alloc, defs, &mut made, found, &right)?;
    rewrite_others(alloc, defs, &mut made, found, &right)?;
    Ok(Move::on_one(alloc, made)?)
}

/// By the oldest oriented fact whose left side occurs in another fact, the right side takes the place
/// of the left one.
pub fn rewrite(alloc: Global, defs: &[Def], branch: Branch) -> Result<Attempt, NormalFault>
    ensures { Tries branch result (rewrite defs.now branch) }
{
    match oldest_left(alloc, defs, &branch)? {
        Some(found) => Ok(Attempt::Gives(rewrite_by(alloc, defs, branch, &found)?)),
        None => Ok(Attempt::Passes(branch)),
    }
}
