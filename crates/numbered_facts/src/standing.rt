// What stands in terms outside quantifiers, found once.
ghost use Rattle.std.specs.Prelude.{◌≡◌, ◌<◌, ◌≤◌, [], true, length, map, filter, find, is_some, nat_eq, IfOk, IfSome, OnOk, OnErr};
ghost use Rattle.std.specs.List.{flat_map, AllByRecursion};
ghost use Rattle.std.specs.Option.{option_copied};
ghost use Rattle.logic_core.specs.Subterm.{outside, is_quantifier};
ghost use Rattle.logic_core.specs.Tree.{read};
ghost use Rattle.tableau_branch.specs.Oriented.{is_application};
ghost use Rattle.tableau_branch.specs.Shapes.{is_call, is_choice, is_access, has_shape};
ghost use Rattle.logic_rules.specs.Instantiating.{each_once};
ghost use Rattle.term_bank.specs.Numbered.{at};
ghost use Rattle.numbered_facts.specs.Answers.{StandsFor, AreAt};
ghost use Rattle.numbered_facts.specs.Inside.{inner, AreOutside};
ghost use Rattle.numbered_terms.specs.Slots.{kept_at, AreAlike, IsPut, AreKept};
ghost use Rattle.numbered_facts.specs.Memos.{IsStanding};

use crate::numbers::{Members, add, is_in, push_where};
use numbered_terms::Terms;
use numbered_terms::renumber::{copy_numbers, numbers};
use numbered_terms::slots::Slots;
use std::alloc::AllocError;
use tableau_branch::outside::Shape;
use term_bank::{Node, TermId};

/// Of a term: the Reads and Calls in it outside quantifiers, in preorder, each once; the first Call, the
/// first If and the first Read of a Write.
#[derive(Drop)]
pub(crate) struct Standing {
    pub(crate) ground: Vec<TermId>,
    pub(crate) call: Option<TermId>,
    pub(crate) choice: Option<TermId>,
    pub(crate) access: Option<TermId>,
}

/// Whether the term is a quantifier.
pub(crate) fn is_quantifier(terms: &Terms, id: TermId) -> bool
    requires { id < length terms.now }
    ensures { result ≡ is_quantifier (at terms.now id) }
{
    match terms.node(id) {
        Node::ForAll(_, _, _) | Node::Exists(_, _, _) => true,
        _ => false,
    }
}

// Finds a term, and then the terms in it outside quantifiers, in preorder. `done` has the terms whose
// walk is over.
#[cycle(standing)]
fn stand_in(
    terms: &Terms,
    done: &mut Members,
    found: &mut Members,
    id: TermId,
) -> Result<(), AllocError>
    requires id { id < length terms.now }
    requires within { AllByRecursion (λ j. j < length terms.now) found.old }
    requires whole { AreOutside terms.now done.old found.old }
    ensures within { OnOk result (AllByRecursion (λ j. j < length terms.now) found.new) }
    ensures whole { OnOk result (AreOutside terms.now done.new found.new) }
    ensures found { OnOk result (map (at terms.now) found.new ≡ each_once (map (at terms.now) found.old) (outside (at terms.now id))) }
{
    terms.are_stored();
    if is_in(done, id) {
        return Ok(());
    }
    add(found, id)?;
    stand_inside(terms, done, found, id)?;
    add(done, id)
}

// Finds the terms in a term outside quantifiers.
#[cycle(standing)]
fn stand_inside(
    terms: &Terms,
    done: &mut Members,
    found: &mut Members,
    id: TermId,
) -> Result<(), AllocError>
    requires id { id < length terms.now }
    requires within { AllByRecursion (λ j. j < length terms.now) found.old }
    requires whole { AreOutside terms.now done.old found.old }
    ensures within { OnOk result (AllByRecursion (λ j. j < length terms.now) found.new) }
    ensures whole { OnOk result (AreOutside terms.now done.new found.new) }
    ensures found { OnOk result (map (at terms.now) found.new ≡ each_once (map (at terms.now) found.old) (inner (at terms.now id))) }
{
    if is_quantifier(terms, id) {
        return Ok(());
    }
    let parts = numbers(terms.alloc(), terms.node(id))?;
    stand_each(terms, done, found, id.number, &parts)
}

// Finds terms of numbers below this one, and those in them outside quantifiers.
#[cycle(standing)]
fn stand_each(
    terms: &Terms,
    done: &mut Members,
    found: &mut Members,
    below: usize,
    ids: &[TermId],
) -> Result<(), AllocError>
    requires below { below ≤ length terms.now }
    requires lower { AllByRecursion (λ j. j < below) ids.now }
    requires within { AllByRecursion (λ j. j < length terms.now) found.old }
    requires whole { AreOutside terms.now done.old found.old }
    ensures within { OnOk result (AllByRecursion (λ j. j < length terms.now) found.new) }
    ensures whole { OnOk result (AreOutside terms.now done.new found.new) }
    ensures found { OnOk result (map (at terms.now) found.new ≡ each_once (map (at terms.now) found.old) (flat_map (λ i. outside (at terms.now i)) ids.now)) }
{
    for id in ids {
        stand_in(terms, done, found, *id)?;
    }
    Ok(())
}

// The terms in a term outside quantifiers, in preorder, each once.
fn outside(terms: &Terms, id: TermId) -> Result<Vec<TermId>, AllocError>
    requires { id < length terms.now }
    ensures { IfOk result (λ v. AreAt terms.now v.items (each_once [] (outside (at terms.now id)))) }
{
    let mut done = Members::new(terms.alloc());
    let mut found = Members::new(terms.alloc());
    stand_in(terms, &mut done, &mut found, id)?;
    Ok(found.into_list())
}

// Whether the term is a Read or a Call.
fn is_application(terms: &Terms, id: TermId) -> bool
    requires { id < length terms.now }
    ensures { result ≡ is_application (at terms.now id) }
{
    match terms.node(id) {
        Node::Read(_, _) | Node::Call(_, _) => true,
        _ => false,
    }
}

// The Reads and Calls among terms.
fn applications(terms: &Terms, ids: &[TermId]) -> Result<Vec<TermId>, AllocError>
    requires { AllByRecursion (λ j. j < length terms.now) ids.now }
    ensures { IfOk result (λ v. v.items ≡ filter (λ i. is_application (at terms.now i)) ids.now) }
{
    let mut found = Vec::new(terms.alloc());
    for id in ids {
        push_where(&mut found, *id, is_application(terms, *id))?;
    }
    Ok(found)
}

// Whether the term is a Call.
fn is_call(terms: &Terms, id: TermId) -> bool
    requires { id < length terms.now }
    ensures { result ≡ is_call (at terms.now id) }
{
    match terms.node(id) {
        Node::Call(_, _) => true,
        _ => false,
    }
}

// Whether the term is an If.
fn is_choice(terms: &Terms, id: TermId) -> bool
    requires { id < length terms.now }
    ensures { result ≡ is_choice (at terms.now id) }
{
    match terms.node(id) {
        Node::If(_, _, _) => true,
        _ => false,
    }
}

// Whether a Read of this map is one of a Write.
fn is_written(terms: &Terms, map: TermId, index: TermId) -> bool
    requires { map < length terms.now }
    ensures { result ≡ is_access (read (at terms.now map) (at terms.now index)) }
{
    match terms.node(map) {
        Node::Write(_, _, _) => true,
        _ => false,
    }
}

// Whether the term is a Read of a Write.
fn is_access(terms: &Terms, id: TermId) -> bool
    requires { id < length terms.now }
    ensures { result ≡ is_access (at terms.now id) }
{
    match terms.node(id) {
        Node::Read(map, index) => is_written(terms, *map, *index),
        _ => false,
    }
}

// Whether the term has the shape.
fn has_shape(terms: &Terms, shape: Shape, id: TermId) -> bool
    requires { id < length terms.now }
    ensures { result ≡ has_shape shape (at terms.now id) }
{
    match shape {
        Shape::Call => is_call(terms, id),
        Shape::Choice => is_choice(terms, id),
        Shape::Access => is_access(terms, id),
        Shape::Application => is_application(terms, id),
    }
}

// The first of the terms that has the shape.
fn first_of(terms: &Terms, shape: Shape, ids: &[TermId]) -> Option<TermId>
    requires { AllByRecursion (λ j. j < length terms.now) ids.now }
    ensures { StandsFor terms.now result (find (has_shape shape) (map (at terms.now) ids.now)) }
{
    for id in ids {
        if has_shape(terms, shape, *id) {
            return Some(*id);
        }
    }
    None
}

// What stands in a term outside quantifiers.
fn standing_of(terms: &Terms, id: TermId) -> Result<Standing, AllocError>
    requires { id < length terms.now }
    ensures { IfOk result (IsStanding terms.now id) }
{
    let found = outside(terms, id)?;
    let ground = applications(terms, &found)?;
    let call = first_of(terms, Shape::Call, &found);
    let choice = first_of(terms, Shape::Choice, &found);
    let access = first_of(terms, Shape::Access, &found);
    Ok(Standing {
        ground,
        call,
        choice,
        access,
    })
}

// From now on this is kept of the number.
fn keep_standing(
    memo: &mut Slots<Standing>,
    id: TermId,
    standing: Standing,
) -> Result<(), AllocError>
    ensures ok { OnOk result (IsPut memo.old.slots.items id standing memo.new.slots.items) }
    ensures memory { OnErr result (AreAlike memo.old.slots.items memo.new.slots.items) }
{
    memo.put(id, standing)
}

// What is kept of a number.
fn standing_at(memo: &Slots<Standing>, id: TermId) -> Option<&Standing>
    ensures { option_copied result ≡ kept_at memo.now.slots.items id }
{
    memo.get(id)
}

// Whether something is kept of the number.
fn is_kept(memo: &Slots<Standing>, id: TermId) -> bool
    ensures { result ≡ is_some (kept_at memo.now.slots.items id) }
{
    standing_at(memo, id).is_some()
}

// What stands in the term outside quantifiers is kept.
fn stand(terms: &Terms, memo: &mut Slots<Standing>, id: TermId) -> Result<(), AllocError>
    requires id { id < length terms.now }
    requires right { AreKept (IsStanding terms.now) memo.old.slots.items }
    ensures right { AreKept (IsStanding terms.now) memo.new.slots.items }
    ensures there { OnOk result (is_some (kept_at memo.new.slots.items id) ≡ true) }
{
    if is_kept(memo, id) {
        return Ok(());
    }
    let standing = standing_of(terms, id)?;
    keep_standing(memo, id, standing)?;
    Ok(())
}

/// The Reads and Calls in a term outside quantifiers, which are kept.
pub(crate) fn ground(
    terms: &Terms,
    memo: &mut Slots<Standing>,
    id: TermId,
) -> Result<Vec<TermId>, AllocError>
    requires id { id < length terms.now }
    requires right { AreKept (IsStanding terms.now) memo.old.slots.items }
    ensures right { AreKept (IsStanding terms.now) memo.new.slots.items }
    ensures gives { IfOk result (λ v. AreAt terms.now v.items (each_once [] (filter is_application (outside (at terms.now id))))) }
{
    stand(terms, memo, id)?;
    match standing_at(memo, id) {
        Some(standing) => copy_numbers(terms.alloc(), &standing.ground),
        None => Ok(Vec::new(terms.alloc())),
    }
}

/// The same, where they are kept.
pub(crate) fn ground_at<'a>(
    terms: &Terms,
    memo: &'a Slots<Standing>,
    id: TermId,
) -> Option<&'a [TermId]>
    requires { AreKept (IsStanding terms.now) memo.now.slots.items }
    ensures { IfSome result (λ v. AreAt terms.now v.now (each_once [] (filter is_application (outside (at terms.now id))))) }
{
    let _count = terms.len();
    match standing_at(memo, id) {
        Some(standing) => Some(&standing.ground),
        None => None,
    }
}

/// The first Call in a term outside quantifiers, which is kept.
pub(crate) fn call(
    terms: &Terms,
    memo: &mut Slots<Standing>,
    id: TermId,
) -> Result<Option<TermId>, AllocError>
    requires id { id < length terms.now }
    requires right { AreKept (IsStanding terms.now) memo.old.slots.items }
    ensures right { AreKept (IsStanding terms.now) memo.new.slots.items }
    ensures gives { IfOk result (λ o. StandsFor terms.now o (find is_call (outside (at terms.now id)))) }
{
    stand(terms, memo, id)?;
    match standing_at(memo, id) {
        Some(standing) => Ok(standing.call),
        None => Ok(None),
    }
}

/// The first If in a term outside quantifiers, which is kept.
pub(crate) fn choice(
    terms: &Terms,
    memo: &mut Slots<Standing>,
    id: TermId,
) -> Result<Option<TermId>, AllocError>
    requires id { id < length terms.now }
    requires right { AreKept (IsStanding terms.now) memo.old.slots.items }
    ensures right { AreKept (IsStanding terms.now) memo.new.slots.items }
    ensures gives { IfOk result (λ o. StandsFor terms.now o (find is_choice (outside (at terms.now id)))) }
{
    stand(terms, memo, id)?;
    match standing_at(memo, id) {
        Some(standing) => Ok(standing.choice),
        None => Ok(None),
    }
}

/// The first Read of a Write in a term outside quantifiers, which is kept.
pub(crate) fn access(
    terms: &Terms,
    memo: &mut Slots<Standing>,
    id: TermId,
) -> Result<Option<TermId>, AllocError>
    requires id { id < length terms.now }
    requires right { AreKept (IsStanding terms.now) memo.old.slots.items }
    ensures right { AreKept (IsStanding terms.now) memo.new.slots.items }
    ensures gives { IfOk result (λ o. StandsFor terms.now o (find is_access (outside (at terms.now id)))) }
{
    stand(terms, memo, id)?;
    match standing_at(memo, id) {
        Some(standing) => Ok(standing.access),
        None => Ok(None),
    }
}
