// The faults of a name in an expression, by what it means, and of sorts.
ghost use Rattle.std.specs.Prelude.{◌≡◌};
ghost use Rattle.bpl_scopes.specs.Fault.{earlier, first_fault};
ghost use Rattle.bpl_scopes.specs.Scopes.{declared_as};
ghost use Rattle.bpl_scopes.specs.Sorts.{reads_globals};
ghost use Rattle.bpl_scopes.specs.Shape.{kind_of, kind_seen};
ghost use Rattle.bpl_scopes.specs.TableView.{entity_seen};
ghost use Rattle.bpl_faults.specs.NameFaults.{entity_faults, variable_faults, application_faults, reads_entry, old_faults, sort_faults, same_sort_faults, map_faults};
ghost use Rattle.bpl_faults.specs.ScopeView.{scope_seen, meaning_seen};

use crate::meaning::Meaning;
use crate::scope::Scope;
use bpl_scopes::{Entity, Faults, Part, Shape, TypeKind};
use bv_base::place::Place;

/// Whether globals may be read in such a part.
pub fn reads_globals(part: Part) -> bool
    ensures { result ≡ reads_globals part }
{
    match part {
        Part::Axiom | Part::Function => false,
        Part::Requires
        | Part::Ensures
        | Part::Body
        | Part::ClauseOfGlobal
        | Part::ClauseOfIn
        | Part::ClauseOfOut
        | Part::ClauseOfLocal => true,
    }
}

fn reads_entry(part: Part) -> bool
    ensures { result ≡ reads_entry part }
{
    match part {
        Part::Ensures | Part::Body => true,
        Part::Axiom
        | Part::Function
        | Part::Requires
        | Part::ClauseOfGlobal
        | Part::ClauseOfIn
        | Part::ClauseOfOut
        | Part::ClauseOfLocal => false,
    }
}

fn note_entity(faults: &mut Faults, part: Part, entity: Entity, at: Place)
    ensures { faults.new.first ≡ earlier faults.old.first (first_fault (entity_faults part (entity_seen entity.entry) at)) }
{
    match entity {
        Entity::Constant { number: _, of: _ } => {}
        Entity::Global { number: _, of: _ } => {
            faults.note_unless(reads_globals(part), TypeKind::Kind, at);
        }
        Entity::Function {
            ins: _,
            of: _,
            value: _,
        } => faults.note(TypeKind::Kind, at),
        Entity::Synonym { of: _ } => faults.note(TypeKind::Kind, at),
        Entity::Procedure {
            number: _,
            signature: _,
            specs: _,
        } => faults.note(TypeKind::Kind, at),
    }
}

/// Finds the fault of a name that stands as a variable.
pub fn note_variable(faults: &mut Faults, part: Part, meaning: Meaning, at: Place)
    ensures { faults.new.first ≡ earlier faults.old.first (first_fault (variable_faults part (meaning_seen meaning.entry) at)) }
{
    match meaning {
        Meaning::Bound(_, _) => {}
        Meaning::Variable(_) => {}
        Meaning::Declared(entity) => note_entity(faults, part, entity, at),
        Meaning::Nothing => faults.note(TypeKind::Unknown, at),
    }
}

/// Finds `old` where it doesn't stand.
pub fn note_old(faults: &mut Faults, part: Part, at: Place)
    ensures { faults.new.first ≡ earlier faults.old.first (first_fault (old_faults part at)) }
{
    faults.note_unless(reads_entry(part), TypeKind::OldHere, at);
}

/// Finds an operand that has another sort.
pub fn note_sort(faults: &mut Faults, wanted: Shape, found: Option<Shape>, at: Place)
    ensures { faults.new.first ≡ earlier faults.old.first (first_fault (sort_faults (kind_of wanted) (kind_seen found) at)) }
{
    if let Some(found) = found {
        faults.note_unless(found.equals(wanted), TypeKind::Sort, at);
    }
}

/// Finds an operand that has another sort than something, where both have one.
pub fn note_same_sort(faults: &mut Faults, wanted: Option<Shape>, found: Option<Shape>, at: Place)
    ensures { faults.new.first ≡ earlier faults.old.first (first_fault (same_sort_faults (kind_seen wanted) (kind_seen found) at)) }
{
    if let Some(wanted) = wanted {
        note_sort(faults, wanted, found, at);
    }
}

/// Finds something read or written that is no map.
pub fn note_map(faults: &mut Faults, found: Option<Shape>, at: Place)
    ensures { faults.new.first ≡ earlier faults.old.first (first_fault (map_faults (kind_seen found) at)) }
{
    if let Some(found) = found {
        faults.note_if(found.range().is_none(), TypeKind::Sort, at);
    }
}

impl<'s, 'a> Scope<'s, 'a> {
    /// Finds the faults of a name that is applied to so many arguments.
    pub fn note_application(
        &self,
        faults: &mut Faults,
        is_formula: bool,
        name: &[u8],
        meaning: Meaning<'a>,
        arguments: usize,
        at: Place,
    )
        ensures { faults.new.first ≡ earlier faults.old.first (first_fault (application_faults (scope_seen self.now) is_formula name.now (meaning_seen meaning.entry) arguments at)) }
    {
        match meaning {
            Meaning::Bound(_, _) => faults.note(TypeKind::Kind, at),
            Meaning::Variable(_) => faults.note(TypeKind::Kind, at),
            Meaning::Declared(entity) => {
                self.note_applied(faults, is_formula, name, entity, arguments, at);
            }
            Meaning::Nothing => faults.note(TypeKind::Unknown, at),
        }
    }

    // Finds the faults of a declared name that is applied to so many arguments.
    #[tactic(auto, using(bpl_scopes::proofs::FirstFault::joins))]
    fn note_applied(
        &self,
        faults: &mut Faults,
        is_formula: bool,
        name: &[u8],
        entity: Entity<'a>,
        arguments: usize,
        at: Place,
    )
        ensures { faults.new.first ≡ earlier faults.old.first (first_fault (application_faults (scope_seen self.now) is_formula name.now (declared_as (entity_seen entity.entry)) arguments at)) }
    {
        match entity {
            Entity::Constant { number: _, of: _ } => faults.note(TypeKind::Kind, at),
            Entity::Global { number: _, of: _ } => faults.note(TypeKind::Kind, at),
            Entity::Function {
                ins,
                of: _,
                value: _,
            } => {
                faults.note_unless(ins.len() == arguments, TypeKind::Arity, at);
                let is_logical = self.environment.is_logical(name);
                faults.note_if(!is_formula && is_logical, TypeKind::QuantifierHere, at);
            }
            Entity::Synonym { of: _ } => faults.note(TypeKind::Kind, at),
            Entity::Procedure {
                number: _,
                signature: _,
                specs: _,
            } => faults.note(TypeKind::Kind, at),
        }
    }
}
