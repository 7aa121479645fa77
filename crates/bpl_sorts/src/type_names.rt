// The types for which written types stand through synonyms.
ghost use Rattle.std.specs.Prelude.{◌≡◌, ◌+◌, ℕ, suc, List, length, slice_get, IfOk};
ghost use Rattle.bpl_scopes.specs.KnownSorts.{names_in};
ghost use Rattle.bpl_scopes.specs.Positions.{first_at, or_other};
ghost use Rattle.bpl_scopes.specs.TableView.{entity_seen, entries_seen};
ghost use Rattle.bpl_sorts.specs.Types.{Ty as meant};
ghost use Rattle.bpl_sorts.specs.TypeNames.{users_in, users_before, number_of, type_in, type_after, type_over};
ghost use Rattle.bpl_sorts.specs.TypeShapes.{nested, map_depth, innermost, base_type, shape_type, end_type, end_in, walk_type, step_type};
ghost use Rattle.bpl_sorts.specs.TypesView.{ty_seen};

use crate::value_types::Ty;
use bpl_ast::{Type, TypeForm};
use bpl_scopes::{Entity, Entry, Table};
use std::alloc::{AllocError, Global};
use std::marker::Model;

/// What stands under the maps of a type.
#[derive(Clone, Copy)]
pub(crate) enum Base {
    Int,
    Bool,
    User(u64),
}

/// A type: so many maps, one in another, over a base.
#[derive(Clone, Copy)]
pub(crate) struct Shape {
    pub maps: u64,
    pub base: Base,
}

/// Where a written type ends: at a base, or at a name that leads on.
#[derive(Clone, Copy)]
pub(crate) enum End<'a> {
    Here(Base),
    Named(&'a [u8]),
}

/// A written type: so many maps, one in another, over its end.
#[derive(Clone, Copy)]
pub(crate) struct Walk<'a> {
    pub maps: u64,
    pub end: End<'a>,
}

/// What a name is declared as: a user type, by its number, a synonym, or no type.
#[derive(Clone, Copy)]
pub(crate) enum Step<'a> {
    User(u64),
    Synonym(&'a Type),
    Other,
}

/// What the names of types stand for: a table, and how many user types stand before each of its
/// entries and before its end.
#[derive(Drop)]
pub(crate) struct TypeNames<'a> {
    table: Table<'a>,
    numbers: Vec<u64>,
}

impl<'a> Model for TypeNames<'a> {
    ghost use Rattle.std.specs.Prelude.{◌≡◌, List};
    ghost use Rattle.bpl_scopes.specs.Scopes.{Entry as entry};
    ghost use Rattle.bpl_scopes.specs.EntryCodes.{coded_table};
    ghost use Rattle.bpl_sorts.specs.TypeNames.{users_before};

    ghost Value = { List entry };

    ghost coded = { coded_table };

    ghost view = { λ a. a.table };

    ghost invariant = { λ a. a.numbers.items ≡ users_before 0 a.table };
}

// The type in so many further maps. No program that memory holds nests as many maps as a count of
// 64 bits doesn't hold.
#[tactic(auto, using(crate::proofs::NestedTypes::nested_within))]
fn within<'a>(maps: u64, walk: Walk<'a>) -> Result<Walk<'a>, AllocError>
    ensures { (f : List ℕ → meant) → IfOk result (λ w. walk_type f w ≡ nested maps (walk_type f walk.entry)) }
{
    match maps.checked_add(walk.maps) {
        Some(sum) => Ok(Walk {
            maps: sum,
            end: walk.end,
        }),
        None => Err(AllocError),
    }
}

// How many maps stand around what is no map.
fn map_depth(of: &Type) -> Result<u64, AllocError>
    ensures { IfOk result (λ n. n ≡ map_depth of.now) }
{
    match &of.form {
        TypeForm::Int => Ok(0),
        TypeForm::Bool => Ok(0),
        TypeForm::Named(_) => Ok(0),
        TypeForm::Map(_, _, range) => match map_depth(range)?.checked_add(1) {
            Some(depth) => Ok(depth),
            None => Err(AllocError),
        },
    }
}

// What stands in all maps.
fn innermost<'a>(of: &'a Type) -> &'a Type
    ensures { result.now ≡ innermost of.now }
{
    match &of.form {
        TypeForm::Int => of,
        TypeForm::Bool => of,
        TypeForm::Named(_) => of,
        TypeForm::Map(_, _, range) => innermost(range),
    }
}

// Where a type ends that is no map.
fn end_of<'a>(of: &'a Type) -> End<'a>
    ensures { (f : List ℕ → meant) → end_type f result ≡ end_in f of.now }
{
    match &of.form {
        TypeForm::Int => End::Here(Base::Int),
        TypeForm::Bool => End::Here(Base::Bool),
        TypeForm::Named(name) => End::Named(name.text.as_bytes()),
        TypeForm::Map(_, _, _) => End::Here(Base::Int),
    }
}

// A written type, whatever its names stand for.
fn written<'a>(of: &'a Type) -> Result<Walk<'a>, AllocError>
    ensures { (f : List ℕ → meant) → IfOk result (λ w. walk_type f w ≡ type_in f of.now) }
{
    let maps = map_depth(of)?;
    let inner = innermost(of);
    let end = end_of(inner);
    Ok(Walk { maps, end })
}

fn base_ty(base: Base) -> Ty
    ensures { ty_seen result ≡ base_type base }
{
    match base {
        Base::Int => Ty::Int,
        Base::Bool => Ty::Bool,
        Base::User(number) => Ty::User(number),
    }
}

impl Shape {
    /// This type.
    pub(crate) fn ty(self, alloc: Global) -> Result<Ty, AllocError>
        ensures { IfOk result (λ t. ty_seen t ≡ shape_type self) }
    {
        let mut made = base_ty(self.base);
        for depth in 0..self.maps {
            made = Ty::Map(Box::new(alloc, made)?);
        }
        Ok(made)
    }
}

// A step as a written type.
fn walk_of<'a>(step: Step<'a>) -> Result<Walk<'a>, AllocError>
    ensures { (f : List ℕ → meant) → IfOk result (λ w. walk_type f w ≡ step_type f step.entry) }
{
    match step {
        Step::User(number) => Ok(Walk {
            maps: 0,
            end: End::Here(Base::User(number)),
        }),
        Step::Synonym(of) => written(of),
        Step::Other => Ok(Walk {
            maps: 0,
            end: End::Here(Base::Int),
        }),
    }
}

// How many user types there are with this entry.
fn users_with(users: u64, entity: Entity) -> Result<u64, AllocError>
    ensures { IfOk result (λ n. n ≡ users + users_in (entity_seen entity.entry)) }
{
    match entity {
        Entity::Synonym { of: None } => match users.checked_add(1) {
            Some(sum) => Ok(sum),
            None => Err(AllocError),
        },
        _ => Ok(users),
    }
}

// What stands at a position, and 0 behind the last.
fn number_at(numbers: &[u64], at: usize) -> u64
    ensures { result ≡ or_other (slice_get numbers.now at) 0 }
{
    match numbers.get(at) {
        Some(number) => *number,
        None => 0,
    }
}

fn users_before(alloc: Global, entries: &[Entry]) -> Result<Vec<u64>, AllocError>
    ensures { IfOk result (λ v. v.items ≡ users_before 0 (entries_seen entries.now)) }
{
    let mut numbers = Vec::new(alloc);
    let mut users = 0;
    for entry in entries {
        numbers.push(users)?;
        users = users_with(users, entry.entity)?;
    }
    numbers.push(users)?;
    Ok(numbers)
}

impl<'a> TypeNames<'a> {
    /// What the names of types stand for in a table.
    pub(crate) fn of(alloc: Global, table: Table<'a>) -> Result<TypeNames<'a>, AllocError>
        ensures { IfOk result (λ r. r ≡ table.entry) }
    {
        let numbers = users_before(alloc, table.entries())?;
        Ok(TypeNames { table, numbers })
    }

    // Where a name stands first, or the end.
    fn place(&self, name: &[u8]) -> usize
        ensures { result ≡ or_other (first_at name.now (names_in self.now)) (length self.now) }
    {
        match self.table.find(name) {
            Some(at) => at,
            None => self.table.len(),
        }
    }

    // How many user types stand before a name.
    fn number_of(&self, name: &[u8]) -> u64
        ensures { result ≡ number_of self.now name.now }
    {
        let at = self.place(name);
        number_at(&self.numbers, at)
    }

    // What a name is declared as.
    fn step(&self, name: &[u8]) -> Step<'a>
        ensures { (m : ℕ) → type_after self.now (suc m) name.now ≡ step_type (type_after self.now m) result }
    {
        match self.table.entity(name) {
            Some(Entity::Synonym { of: None }) => Step::User(self.number_of(name)),
            Some(Entity::Synonym { of: Some(of) }) => Step::Synonym(of),
            _ => Step::Other,
        }
    }

    // The type of a name, one synonym further.
    fn declared(&self, name: &[u8]) -> Result<Walk<'a>, AllocError>
        ensures { (m : ℕ) → IfOk result (λ w. walk_type (type_after self.now m) w ≡ type_after self.now (suc m) name.now) }
    {
        let step = self.step(name);
        walk_of(step)
    }

    // So many maps over a name, one synonym further.
    fn further(&self, maps: u64, name: &[u8]) -> Result<Walk<'a>, AllocError>
        ensures { (m : ℕ) → IfOk result (λ w. walk_type (type_after self.now m) w ≡ nested maps (type_after self.now (suc m) name.now)) }
    {
        let found = self.declared(name)?;
        within(maps, found)
    }

    /// The type for which a written one stands. A synonym that leads to itself counts as `int`.
    #[tactic(auto, using(crate::proofs::NestedTypes::here_is, crate::proofs::NestedTypes::named_last))]
    pub(crate) fn shape_of(&self, of: &Type) -> Result<Shape, AllocError>
        ensures { IfOk result (λ s. shape_type s ≡ type_over self.now of.now) }
    {
        let mut now = written(of)?;
        for round in 0..self.table.len() {
            match now.end {
                End::Named(name) => now = self.further(now.maps, name)?,
                End::Here(base) => {
                    return Ok(Shape {
                        maps: now.maps,
                        base,
                    });
                }
            }
        }
        match now.end {
            End::Here(base) => Ok(Shape {
                maps: now.maps,
                base,
            }),
            End::Named(_) => Ok(Shape {
                maps: now.maps,
                base: Base::Int,
            }),
        }
    }

    /// The same, made.
    pub(crate) fn type_of(&self, alloc: Global, of: &Type) -> Result<Ty, AllocError>
        ensures { IfOk result (λ t. ty_seen t ≡ type_over self.now of.now) }
    {
        self.shape_of(of)?.ty(alloc)
    }
}
