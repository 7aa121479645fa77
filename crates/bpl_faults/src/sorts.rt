// The sorts of constructs by those of their parts.
ghost use Rattle.std.specs.Prelude.{◌≡◌, ◌&&◌, ◌++◌, List, Option, Some, IfOk};
ghost use Rattle.logic_terms.specs.Tree.{Kind, int, boolean};
ghost use Rattle.logic_terms.specs.Sorts.{is, read_sort, write_sort, choice_sort, equation_sort};
ghost use Rattle.logic_terms.specs.Wide.{when};
ghost use Rattle.bpl_ast.specs.ExprView.{relation_of, groups_of};
ghost use Rattle.bpl_scopes.specs.Fault.{earlier, first_fault};
ghost use Rattle.bpl_scopes.specs.Scopes.{hidden_in, names_of, typed_names};
ghost use Rattle.bpl_scopes.specs.Sorts.{is_same, are_same, all_known, relation_sort, sort_of_entity, sort_of_meaning, applied_heading, argument_sorts, application_sort, sorts_of_names};
ghost use Rattle.bpl_scopes.specs.Shape.{kind_of, kind_seen};
ghost use Rattle.bpl_scopes.specs.KnownSorts.{shapes_seen};
ghost use Rattle.bpl_scopes.specs.TableView.{entity_seen};
ghost use Rattle.bpl_faults.specs.NameFaults.{entry_sort, sort_faults};
ghost use Rattle.bpl_faults.specs.ExprFaults.{comparison_faults, parameter_sorts};
ghost use Rattle.bpl_faults.specs.ScopeView.{scope_seen, meaning_seen};

use crate::meaning::Meaning;
use crate::name_faults::{note_same_sort, note_sort, reads_globals};
use crate::scope::Scope;
use bpl_ast::{Argument, Group, Relation};
use bpl_scopes::{Entity, Faults, Shape, Types, is};
use bv_base::place::Place;
use std::alloc::{AllocError, Global};

/// The sort, where the test holds.
pub fn when(holds: bool, sort: Shape) -> Option<Shape>
    ensures { kind_seen result ≡ when holds (Some (kind_of sort)) }
{
    if holds { Some(sort) } else { None }
}

/// Whether both have a sort, and it is one.
pub fn is_same(wanted: Option<Shape>, found: Option<Shape>) -> bool
    ensures { result ≡ is_same (kind_seen wanted) (kind_seen found) }
{
    match wanted {
        Some(wanted) => is(wanted, found),
        None => false,
    }
}

fn range_of(map: Option<Shape>) -> Option<Shape>
    ensures { kind_seen result ≡ entry_sort (kind_seen map) }
{
    match map {
        Some(map) => map.range(),
        None => None,
    }
}

/// What a map of that sort holds.
pub fn entry_sort(map: Option<Shape>) -> Option<Shape>
    ensures { kind_seen result ≡ entry_sort (kind_seen map) }
{
    range_of(map)
}

/// The sort of a read.
pub fn read_sort(map: Option<Shape>, is_int: bool) -> Option<Shape>
    ensures { (i : Option Kind) → is_int ≡ is int i → kind_seen result ≡ read_sort (kind_seen map) i }
{
    match range_of(map) {
        Some(range) => when(is_int, range),
        None => None,
    }
}

/// The sort of a write.
pub fn write_sort(map: Option<Shape>, is_int: bool, value: Option<Shape>) -> Option<Shape>
    ensures { (i : Option Kind) → is_int ≡ is int i → kind_seen result ≡ write_sort (kind_seen map) i (kind_seen value) }
{
    match map {
        Some(sort) => match sort.range() {
            Some(range) => when(is_int && is(range, value), sort),
            None => None,
        },
        None => None,
    }
}

/// The sort of an `if`.
pub fn choice_sort(is_condition: bool, first: Option<Shape>, second: Option<Shape>) -> Option<Shape>
    ensures { (c : Option Kind) → is_condition ≡ is boolean c → kind_seen result ≡ choice_sort c (kind_seen first) (kind_seen second) }
{
    match first {
        Some(sort) => when(is_condition && is(sort, second), sort),
        None => None,
    }
}

fn equation_sort(first: Option<Shape>, second: Option<Shape>) -> Option<Shape>
    ensures { kind_seen result ≡ equation_sort (kind_seen first) (kind_seen second) }
{
    match first {
        Some(sort) => when(is(sort, second), Shape::boolean()),
        None => None,
    }
}

fn order_sort(first: Option<Shape>, second: Option<Shape>) -> Option<Shape>
    ensures { kind_seen result ≡ when (is int (kind_seen first) && is int (kind_seen second)) (Some boolean) }
{
    when(
        is(Shape::int(), first) && is(Shape::int(), second),
        Shape::boolean(),
    )
}

/// The sort of a comparison.
pub fn relation_sort(
    relation: Relation,
    first: Option<Shape>,
    second: Option<Shape>,
) -> Option<Shape>
    ensures { kind_seen result ≡ relation_sort (relation_of relation) (kind_seen first) (kind_seen second) }
{
    match relation {
        Relation::Equal => equation_sort(first, second),
        Relation::NotEqual => equation_sort(first, second),
        Relation::Less => order_sort(first, second),
        Relation::AtMost => order_sort(first, second),
        Relation::Greater => order_sort(first, second),
        Relation::AtLeast => order_sort(first, second),
    }
}

#[tactic(auto, using(bpl_scopes::proofs::FirstFault::joins))]
fn note_integers(
    faults: &mut Faults,
    first: Option<Shape>,
    second: Option<Shape>,
    at: Place,
    next: Place,
)
    ensures { faults.new.first ≡ earlier faults.old.first (first_fault (sort_faults int (kind_seen first) at ++ sort_faults int (kind_seen second) next)) }
{
    note_sort(faults, Shape::int(), first, at);
    note_sort(faults, Shape::int(), second, next);
}

/// Finds the sides of a comparison that have wrong sorts.
pub fn note_comparison(
    faults: &mut Faults,
    relation: Relation,
    first: Option<Shape>,
    second: Option<Shape>,
    at: Place,
    next: Place,
)
    ensures { faults.new.first ≡ earlier faults.old.first (first_fault (comparison_faults (relation_of relation) (kind_seen first) (kind_seen second) at next)) }
{
    match relation {
        Relation::Equal => note_same_sort(faults, first, second, next),
        Relation::NotEqual => note_same_sort(faults, first, second, next),
        Relation::Less => note_integers(faults, first, second, at, next),
        Relation::AtMost => note_integers(faults, first, second, at, next),
        Relation::Greater => note_integers(faults, first, second, at, next),
        Relation::AtLeast => note_integers(faults, first, second, at, next),
    }
}

fn argument_sorts(
    alloc: Global,
    types: &Types,
    ins: &[Argument],
) -> Result<Vec<Option<Shape>>, AllocError>
    ensures { IfOk result (λ v. shapes_seen v.items ≡ argument_sorts types.now ins.now) }
{
    let mut sorts = Vec::new(alloc);
    for argument in ins {
        sorts.push(types.sort(&types.nothing_hidden(), &argument.of)?)?;
    }
    Ok(sorts)
}

impl<'s, 'a> Scope<'s, 'a> {
    fn sort_of_entity(&self, entity: Entity<'a>) -> Result<Option<Shape>, AllocError>
        ensures { IfOk result (λ r. kind_seen r ≡ sort_of_entity (scope_seen self.now) (entity_seen entity.entry)) }
    {
        let types = self.types();
        match entity {
            Entity::Constant { number: _, of } => types.sort(&types.nothing_hidden(), of),
            Entity::Global { number: _, of } => {
                if !reads_globals(self.part) {
                    return Ok(None);
                }
                types.sort(&types.nothing_hidden(), of)
            }
            Entity::Function {
                ins: _,
                of: _,
                value: _,
            } => Ok(None),
            Entity::Synonym { of: _ } => Ok(None),
            Entity::Procedure {
                number: _,
                signature: _,
                specs: _,
            } => Ok(None),
        }
    }

    /// The sort of a name that stands as a variable.
    pub fn sort_of_meaning(&self, meaning: Meaning<'a>) -> Result<Option<Shape>, AllocError>
        ensures { IfOk result (λ r. kind_seen r ≡ sort_of_meaning (scope_seen self.now) (meaning_seen meaning.entry)) }
    {
        match meaning {
            Meaning::Bound(_, sort) => Ok(sort),
            Meaning::Variable(var) => Ok(var.sort),
            Meaning::Declared(entity) => self.sort_of_entity(entity),
            Meaning::Nothing => Ok(None),
        }
    }

    /// The sorts of the parameters of a name that is applied.
    pub fn parameter_sorts(
        &self,
        alloc: Global,
        meaning: Meaning<'a>,
    ) -> Result<Vec<Option<Shape>>, AllocError>
        ensures { IfOk result (λ v. shapes_seen v.items ≡ parameter_sorts (scope_seen self.now) (applied_heading (meaning_seen meaning.entry))) }
    {
        match meaning {
            Meaning::Declared(
                Entity::Function {
                    ins,
                    of: _,
                    value: _,
                },
            ) => argument_sorts(alloc, self.types(), ins),
            _ => Ok(Vec::new(alloc)),
        }
    }

    /// The sort of an application, where it is known whether the arguments fit.
    pub fn value_sort(&self, meaning: Meaning<'a>, fit: bool) -> Result<Option<Shape>, AllocError>
        ensures { IfOk result (λ r. (ks : List (Option Kind)) → fit ≡ are_same (parameter_sorts (scope_seen self.now) (applied_heading (meaning_seen meaning.entry))) ks → kind_seen r ≡ application_sort (scope_seen self.now).table (applied_heading (meaning_seen meaning.entry)) ks) }
    {
        match meaning {
            Meaning::Declared(
                Entity::Function {
                    ins: _,
                    of,
                    value: _,
                },
            ) => {
                if !fit {
                    return Ok(None);
                }
                let types = self.types();
                types.sort(&types.nothing_hidden(), of)
            }
            _ => Ok(None),
        }
    }

    // Whether the type of a group's names has a sort, where there are names.
    #[tactic(auto, using(crate::proofs::KnownGroups::known_none, crate::proofs::KnownGroups::known_first))]
    fn is_known(&self, group: &Group) -> Result<bool, AllocError>
        ensures { IfOk result (λ b. b ≡ all_known (sorts_of_names (scope_seen self.now).table (hidden_in (scope_seen self.now)) (typed_names group.now.names.items group.now.of))) }
    {
        let sort = self.types().sort(&self.hidden(), &group.of)?;
        match group.names.first() {
            Some(_) => Ok(sort.is_some()),
            None => Ok(true),
        }
    }

    /// Whether the types of all names of the groups have sorts.
    pub fn are_known(&self, groups: &[Group]) -> Result<bool, AllocError>
        ensures { IfOk result (λ b. b ≡ all_known (sorts_of_names (scope_seen self.now).table (hidden_in (scope_seen self.now)) (names_of (groups_of groups.now)))) }
    {
        for group in groups {
            if !self.is_known(group)? {
                return Ok(false);
            }
        }
        Ok(true)
    }
}
