// The faults of what is set: targets, and the indices of their entries.
ghost use Rattle.std.specs.Prelude.{◌≡◌, [], ◌∷◌, map, IfOk, OnOk, flat_map};
ghost use Rattle.bpl_ast.specs.ExprView.{exprs_of};
ghost use Rattle.bpl_scopes.specs.Fault.{earlier, first_fault};
ghost use Rattle.bpl_scopes.specs.Shape.{kind_seen};
ghost use Rattle.bpl_scopes.specs.KnownSorts.{shapes_seen};
ghost use Rattle.bpl_scopes.specs.TableView.{entity_seen};
ghost use Rattle.bpl_faults.specs.Arguments.{names_seen};
ghost use Rattle.bpl_statement_faults.specs.BodyView.{body_seen};
ghost use Rattle.bpl_faults.specs.ScopeView.{scope_seen, meaning_seen};
ghost use Rattle.bpl_statement_faults.specs.StmtFaults.{role_faults, target_entity_faults, set_faults, target_faults, targets_faults, target_sort, entry_at, entry_faults, indices_faults, sides_sorts, count_faults};

use crate::body::BodyScope;
use bpl_ast::{Expr, Name, Target};
use bpl_faults::listed::note_again;
use bpl_faults::name_faults::note_map;
use bpl_faults::sorts::read_sort;
use bpl_faults::{Meaning, Scope};
use bpl_scopes::{Entity, Faults, Role, Shape, TypeKind};
use bv_base::place::Place;
use std::alloc::{AllocError, Global};

fn note_role(faults: &mut Faults, role: Role, at: Place)
    ensures { faults.new.first ≡ earlier faults.old.first (first_fault (role_faults role at)) }
{
    match role {
        Role::In => faults.note(TypeKind::NotAssignable, at),
        Role::Out => {}
        Role::Local => {}
    }
}

impl<'b, 's, 'a> BodyScope<'b, 's, 'a> {
    fn note_target_entity(&self, faults: &mut Faults, name: &[u8], entity: Entity<'a>, at: Place)
        ensures { faults.new.first ≡ earlier faults.old.first (first_fault (target_entity_faults (body_seen self.now) name.now (entity_seen entity.entry) at)) }
    {
        match entity {
            Entity::Constant { number: _, of: _ } => faults.note(TypeKind::NotAssignable, at),
            Entity::Global { number: _, of: _ } => {
                faults.note_unless(self.may_modify(name), TypeKind::NotModified, at);
            }
            Entity::Function {
                ins: _,
                of: _,
                value: _,
            } => faults.note(TypeKind::Kind, at),
            Entity::Synonym { of: _ } => faults.note(TypeKind::Kind, at),
            Entity::Procedure {
                number: _,
                signature: _,
                specs: _,
            } => faults.note(TypeKind::Kind, at),
        }
    }

    fn note_target(&self, faults: &mut Faults, name: &Name)
        ensures { faults.new.first ≡ earlier faults.old.first (first_fault (target_faults (body_seen self.now) name.now)) }
    {
        match self.scope.meaning(name.text.as_bytes()) {
            Meaning::Bound(_, _) => {}
            Meaning::Variable(var) => note_role(faults, var.role, name.at),
            Meaning::Declared(entity) => {
                self.note_target_entity(faults, name.text.as_bytes(), entity, name.at);
            }
            Meaning::Nothing => faults.note(TypeKind::Unknown, name.at),
        }
    }

    fn note_each_target(&self, faults: &mut Faults, names: &[&Name])
        ensures { faults.new.first ≡ earlier faults.old.first (first_fault (flat_map (target_faults (body_seen self.now)) (names_seen names.now))) }
    {
        for name in names {
            self.note_target(faults, name);
        }
    }

    /// Finds targets that can't be set, and a variable twice among them.
    #[tactic(auto, using(bpl_scopes::proofs::FirstFault::joins))]
    pub(crate) fn note_targets(
        &self,
        alloc: Global,
        names: &[&Name],
        faults: &mut Faults,
    ) -> Result<(), AllocError>
        ensures { OnOk result (faults.new.first ≡ earlier faults.old.first (first_fault (targets_faults (body_seen self.now) (names_seen names.now)))) }
    {
        self.note_each_target(faults, names);
        note_again(alloc, TypeKind::TargetTwice, names, faults)
    }
}

/// Finds a wrong number of right sides.
#[tactic(auto, using(crate::proofs::CallSteps::count_first))]
pub(crate) fn note_count(faults: &mut Faults, targets: &[Target], values: &[Expr])
    ensures { faults.new.first ≡ earlier faults.old.first (first_fault (count_faults targets.now (exprs_of values.now))) }
{
    if let Some(first) = targets.first() {
        faults.note_unless(
            targets.len() == values.len(),
            TypeKind::Arity,
            first.name.at,
        );
    }
}

/// The sort of a target's variable.
pub(crate) fn sort_of_target(scope: &Scope, name: &Name) -> Result<Option<Shape>, AllocError>
    ensures { IfOk result (λ r. kind_seen r ≡ target_sort (scope_seen scope.now) name.now) }
{
    scope.sort_of_meaning(scope.meaning(name.text.as_bytes()))
}

// The sort of the entry at the indices of a target.
fn note_entry<'a>(
    scope: &Scope<'_, 'a>,
    alloc: Global,
    at: Place,
    map: Option<Shape>,
    indices: &'a [Expr],
    faults: &mut Faults,
) -> Result<Option<Shape>, AllocError>
    ensures sort { IfOk result (λ r. kind_seen r ≡ entry_at (scope_seen scope.now) (kind_seen map) (exprs_of indices.now)) }
    ensures faults { OnOk result (faults.new.first ≡ earlier faults.old.first (first_fault (entry_faults (scope_seen scope.now) at (kind_seen map) (exprs_of indices.now)))) }
{
    let mut sort = map;
    for index in indices {
        note_map(faults, sort, at);
        let is_int = scope.expr_as(alloc, false, Shape::int(), index, faults)?;
        sort = read_sort(sort, is_int);
    }
    Ok(sort)
}

/// The sorts that right sides have to have; the faults of the targets' indices are found.
pub(crate) fn sides<'a>(
    scope: &Scope<'_, 'a>,
    alloc: Global,
    targets: &'a [Target],
    faults: &mut Faults,
) -> Result<Vec<Option<Shape>>, AllocError>
    ensures sorts { IfOk result (λ v. shapes_seen v.items ≡ sides_sorts (scope_seen scope.now) targets.now) }
    ensures faults { OnOk result (faults.new.first ≡ earlier faults.old.first (first_fault (flat_map (indices_faults (scope_seen scope.now)) targets.now))) }
{
    let mut sorts = Vec::new(alloc);
    for target in targets {
        let sort = sort_of_target(scope, &target.name)?;
        sorts.push(note_entry(scope, alloc, target.name.at, sort, &target.indices, faults)?)?;
    }
    Ok(sorts)
}

/// Names by reference.
pub(crate) fn borrowed<'a>(alloc: Global, names: &'a [Name]) -> Result<Vec<&'a Name>, AllocError>
    ensures { IfOk result (λ v. names_seen v.items ≡ names.now) }
{
    let mut found = Vec::new(alloc);
    for name in names {
        found.push(name)?;
    }
    Ok(found)
}

/// The names of targets.
pub(crate) fn target_names<'a>(
    alloc: Global,
    targets: &'a [Target],
) -> Result<Vec<&'a Name>, AllocError>
    ensures { IfOk result (λ v. names_seen v.items ≡ map (λ t. t.name) targets.now) }
{
    let mut found = Vec::new(alloc);
    for target in targets {
        found.push(&target.name)?;
    }
    Ok(found)
}
