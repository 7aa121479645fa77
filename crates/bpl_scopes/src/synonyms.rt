// The sorts for which synonyms stand: each takes its sort behind those in its type, and then one round
// over all shows that these are the sorts.
ghost use Rattle.std.specs.Prelude.{◌≡◌, IfOk, OnOk, IsTrue, map, List, [], Option, None, length};
ghost use Rattle.bpl_ast.specs.TypeView.{tys_of};
ghost use Rattle.bpl_scopes.specs.Scopes.{entity_of};
ghost use Rattle.bpl_scopes.specs.Sorts.{is_int_alone, map_sort_if, sort_by, sorts_by, sort_after};
ghost use Rattle.bpl_scopes.specs.Shape.{kind_seen};
ghost use Rattle.bpl_scopes.specs.KnownSorts.{known_sort, sorts_at, shapes_seen, hidden_seen, sort_unless};
ghost use Rattle.bpl_scopes.specs.Guessed.{IsUnder, next_sorts, put_sort};

use crate::hidden::Hidden;
use crate::names::Positions;
use crate::shape::{Shape, is};
use crate::synonym_order::synonym_order;
use crate::table::{Entity, Entry, Table};
use bpl_ast::{Type, TypeForm, TypeParams};
use std::alloc::{AllocError, Global};

fn known_sort(table: &Table, sorts: &[Option<Shape>], name: &[u8]) -> Option<Shape>
    ensures { kind_seen result ≡ known_sort table.now (shapes_seen sorts.now) name.now }
{
    match table.find(name) {
        Some(at) => match sorts.get(at) {
            Some(sort) => *sort,
            None => None,
        },
        None => None,
    }
}

fn sort_unless(
    table: &Table,
    sorts: &[Option<Shape>],
    hidden: &Hidden,
    name: &[u8],
) -> Option<Shape>
    ensures { kind_seen result ≡ sort_unless (hidden_seen hidden.now) table.now (shapes_seen sorts.now) name.now }
{
    if hidden.has(name) {
        None
    } else {
        known_sort(table, sorts, name)
    }
}

fn map_sort(
    is_int: bool,
    params: &Option<TypeParams>,
    range: Option<Shape>,
) -> Result<Option<Shape>, AllocError>
    ensures { IfOk result (λ r. kind_seen r ≡ map_sort_if is_int params.now (kind_seen range)) }
{
    if params.is_some() || !is_int {
        return Ok(None);
    }
    match range {
        Some(range) => Ok(Some(range.map_of()?)),
        None => Ok(None),
    }
}

/// The sort of a type by those of the synonyms.
#[cycle(sorts)]
pub(crate) fn sort_over(
    table: &Table,
    sorts: &[Option<Shape>],
    hidden: &Hidden,
    of: &Type,
) -> Result<Option<Shape>, AllocError>
    ensures { IfOk result (λ r. kind_seen r ≡ sort_by (sort_unless (hidden_seen hidden.now) table.now (shapes_seen sorts.now)) of.now) }
{
    match &of.form {
        TypeForm::Int => Ok(Some(Shape::int())),
        TypeForm::Bool => Ok(Some(Shape::boolean())),
        TypeForm::Named(name) => Ok(sort_unless(table, sorts, hidden, name.text.as_bytes())),
        TypeForm::Map(params, domain, range) => {
            let is_int = are_int_alone(table, sorts, hidden, domain)?;
            let range = sort_over(table, sorts, hidden, range)?;
            map_sort(is_int, params, range)
        }
    }
}

/// Whether the types are the one type `int`.
#[cycle(sorts)]
pub(crate) fn are_int_alone(
    table: &Table,
    sorts: &[Option<Shape>],
    hidden: &Hidden,
    types: &[Type],
) -> Result<bool, AllocError>
    ensures { IfOk result (λ b. b ≡ is_int_alone (sorts_by (sort_unless (hidden_seen hidden.now) table.now (shapes_seen sorts.now)) (tys_of types.now))) }
{
    if types.len() != 1 {
        return Ok(false);
    }
    Ok(is(Shape::int(), sort_over(table, sorts, hidden, &types[0])?))
}

fn sort_after(
    alloc: Global,
    table: &Table,
    sorts: &[Option<Shape>],
    name: &[u8],
) -> Result<Option<Shape>, AllocError>
    ensures { IfOk result (λ r. kind_seen r ≡ sort_after table.now (known_sort table.now (shapes_seen sorts.now)) name.now) }
{
    let nothing = Positions::new(alloc);
    let hidden = Hidden {
        bounds: &[],
        names: &nothing,
    };
    match table.entity(name) {
        Some(Entity::Synonym { of: Some(of) }) => sort_over(table, sorts, &hidden, of),
        _ => Ok(None),
    }
}

fn round(
    alloc: Global,
    table: &Table,
    sorts: &[Option<Shape>],
    entries: &[Entry],
) -> Result<Vec<Option<Shape>>, AllocError>
    ensures { IfOk result (λ v. shapes_seen v.items ≡ map (λ e. sort_after table.now (known_sort table.now (shapes_seen sorts.now)) e.name.now) entries.now) }
{
    let mut next = Vec::new(alloc);
    for entry in entries {
        next.push(sort_after(alloc, table, sorts, entry.name)?)?;
    }
    Ok(next)
}

fn no_sorts(alloc: Global, entries: &[Entry]) -> Result<Vec<Option<Shape>>, AllocError>
    ensures { IfOk result (λ v. shapes_seen v.items ≡ map (λ e. None) entries.now) }
{
    let mut sorts = Vec::new(alloc);
    for _entry in entries {
        sorts.push(None)?;
    }
    Ok(sorts)
}

fn is_same(mine: Option<Shape>, other: Option<Shape>) -> bool
    ensures { IsTrue result → kind_seen mine ≡ kind_seen other }
{
    match mine {
        Some(mine) => match other {
            Some(other) => mine.equals(other),
            None => false,
        },
        None => other.is_none(),
    }
}

fn are_same(mine: &[Option<Shape>], others: &[Option<Shape>]) -> bool
    ensures { IsTrue result → shapes_seen mine.now ≡ shapes_seen others.now }
{
    if mine.len() != others.len() {
        return false;
    }
    for i in 0..mine.len() {
        if !is_same(mine[i], others[i]) {
            return false;
        }
    }
    true
}

// The entry at this position takes its sort by those of the others.
#[tactic(auto, using(crate::proofs::GuessedSorts::put_none, crate::proofs::GuessedSorts::put_some))]
fn put_sort(
    alloc: Global,
    table: &Table,
    sorts: &mut Vec<Option<Shape>>,
    at: usize,
) -> Result<(), AllocError>
    ensures { OnOk result (shapes_seen sorts.new.items ≡ put_sort table.now (shapes_seen sorts.old.items) at) }
{
    let Some(entry) = table.entries().get(at) else {
        return Ok(());
    };
    let sort = sort_after(alloc, table, sorts, entry.name)?;
    if at < sorts.len() {
        sorts[at] = sort;
    }
    Ok(())
}

// Behind the others there is no entry.
fn position_in(order: &[usize], i: usize) -> usize {
    match order.get(i) {
        Some(at) => *at,
        None => usize::MAX,
    }
}

// The entries in this order take their sorts, each by those so far.
fn put_sorts(
    alloc: Global,
    table: &Table,
    order: &[usize],
    sorts: &mut Vec<Option<Shape>>,
) -> Result<(), AllocError>
    requires { shapes_seen sorts.old.items ≡ sorts_at table.now 0 }
    ensures { OnOk result (IsUnder (shapes_seen sorts.new.items) (sorts_at table.now (length table.now))) }
{
    for i in 0..table.len() {
        put_sort(alloc, table, sorts, position_in(order, i))?;
    }
    Ok(())
}

// Sorts of the synonyms that are right where they are there.
fn guessed_sorts(alloc: Global, table: &Table) -> Result<Vec<Option<Shape>>, AllocError>
    ensures { IfOk result (λ v. IsUnder (shapes_seen v.items) (sorts_at table.now (length table.now))) }
{
    let order = synonym_order(alloc, table)?;
    let mut sorts = no_sorts(alloc, table.entries())?;
    put_sorts(alloc, table, &order, &mut sorts)?;
    Ok(sorts)
}

// Whether following one synonym more finds nothing new.
fn are_settled(alloc: Global, table: &Table, sorts: &[Option<Shape>]) -> Result<bool, AllocError>
    ensures { IfOk result (λ b. IsTrue b → next_sorts table.now (shapes_seen sorts.now) ≡ shapes_seen sorts.now) }
{
    let next = round(alloc, table, sorts, table.entries())?;
    Ok(are_same(&next, sorts))
}

// The sorts of the synonyms, in rounds from none on.
fn sorts_in_rounds(alloc: Global, table: &Table) -> Result<Vec<Option<Shape>>, AllocError>
    ensures { IfOk result (λ v. shapes_seen v.items ≡ sorts_at table.now (length table.now)) }
{
    let mut sorts = no_sorts(alloc, table.entries())?;
    for k in 0..table.len() {
        let next = round(alloc, table, &sorts, table.entries())?;
        if are_same(&next, &sorts) {
            return Ok(sorts);
        }
        sorts = next;
    }
    Ok(sorts)
}

/// The sorts of the synonyms, beside the entries of the table. The time is that of one walk over their
/// types.
pub(crate) fn synonym_sorts(alloc: Global, table: &Table) -> Result<Vec<Option<Shape>>, AllocError>
    ensures { IfOk result (λ v. shapes_seen v.items ≡ sorts_at table.now (length table.now)) }
{
    let sorts = guessed_sorts(alloc, table)?;
    if are_settled(alloc, table, &sorts)? {
        return Ok(sorts);
    }
    sorts_in_rounds(alloc, table)
}
