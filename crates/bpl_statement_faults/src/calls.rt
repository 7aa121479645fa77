// The faults of a call, and the global variables that a procedure modifies.
ghost use Rattle.std.specs.Prelude.{◌≡◌, ◌+◌, ◌++◌, ◌&&◌, map, filter, nat_eq, not, length, IfOk, OnOk};
ghost use Rattle.std.specs.List.{list_all};
ghost use Rattle.bpl_ast.specs.ExprView.{exprs_of, groups_of};
ghost use Rattle.bv_base.specs.Text.{is_among};
ghost use Rattle.bpl_scopes.specs.Fault.{earlier, first_fault};
ghost use Rattle.bpl_scopes.specs.Scopes.{contract_with, spec_names, names_of, texts_of, signature_names, entity_of};
ghost use Rattle.bpl_scopes.specs.Sorts.{sorts_of_names};
ghost use Rattle.bpl_scopes.specs.Shape.{kind_seen};
ghost use Rattle.bpl_scopes.specs.KnownSorts.{shapes_seen, hidden_seen};
ghost use Rattle.bpl_faults.specs.ScopeView.{scope_seen, meaning_seen};
ghost use Rattle.bpl_statement_faults.specs.BodyView.{body_seen};
ghost use Rattle.bpl_statement_faults.specs.CallView.{modified_where};
ghost use Rattle.bpl_statement_faults.specs.StmtFaults.{is_global, modified_by, may_modify, target_sort, outs_faults, counted_outs_faults, contract_faults, callee_faults, callee_sorts, call_faults};

use crate::body::BodyScope;
use crate::names::parameter_positions;
use crate::targets::{borrowed, sort_of_target};
use bpl_ast::{Expr, Group, Name, Signature, Spec, SpecForm};
use bpl_faults::name_faults::note_same_sort;
use bpl_faults::{Meaning, Scope};
use bpl_scopes::{Entity, Faults, Hidden, Positions, Shape, Table, TypeKind, Types};
use bv_base::place::Place;
use std::alloc::{AllocError, Global};

/// The sorts of the names of groups, where some names are no types.
pub fn group_sorts(
    alloc: Global,
    types: &Types,
    hidden: &Hidden,
    groups: &[Group],
) -> Result<Vec<Option<Shape>>, AllocError>
    ensures { IfOk result (λ v. shapes_seen v.items ≡ sorts_of_names types.now (hidden_seen hidden.now) (names_of (groups_of groups.now))) }
{
    let mut sorts = Vec::new(alloc);
    for group in groups {
        let sort = types.sort(hidden, &group.of)?;
        push_each(&mut sorts, sort, &group.names)?;
    }
    Ok(sorts)
}

fn push_each(
    sorts: &mut Vec<Option<Shape>>,
    sort: Option<Shape>,
    names: &[Name],
) -> Result<(), AllocError>
    ensures { OnOk result (shapes_seen sorts.new.items ≡ shapes_seen sorts.old.items ++ map (λ n. kind_seen sort) names.now) }
{
    for _name in names {
        sorts.push(sort)?;
    }
    Ok(())
}

// How many names groups have. No memory holds as many as a word doesn't count.
fn count_names(groups: &[Group]) -> Result<usize, AllocError>
    ensures { IfOk result (λ n. n ≡ length (names_of (groups_of groups.now))) }
{
    let mut count: usize = 0;
    for group in groups {
        count = plus(count, group.names.len())?;
    }
    Ok(count)
}

fn plus(count: usize, more: usize) -> Result<usize, AllocError>
    ensures { IfOk result (λ n. n ≡ count + more) }
{
    match count.checked_add(more) {
        Some(sum) => Ok(sum),
        None => Err(AllocError),
    }
}

fn is_global_named(table: &Table, name: &[u8]) -> bool
    ensures { result ≡ is_global (entity_of table.now name.now) }
{
    match table.entity(name) {
        None => false,
        Some(Entity::Constant { number: _, of: _ }) => false,
        Some(Entity::Global { number: _, of: _ }) => true,
        Some(
            Entity::Function {
                ins: _,
                of: _,
                value: _,
            },
        ) => false,
        Some(Entity::Synonym { of: _ }) => false,
        Some(
            Entity::Procedure {
                number: _,
                signature: _,
                specs: _,
            },
        ) => false,
    }
}

// Whether the name is a global variable's, and no parameter hides it.
fn is_modified(table: &Table, hidden: &Positions, name: &[u8]) -> bool
    ensures { result ≡ (is_global (entity_of table.now name.now) && not (is_among hidden.now name.now)) }
{
    is_global_named(table, name) && !hidden.contains(name)
}

fn push_modified<'a>(
    table: &Table,
    hidden: &Positions,
    names: &'a [Name],
    modified: &mut Positions<'a>,
) -> Result<(), AllocError>
    ensures { OnOk result (modified.new ≡ modified.old ++ filter (λ n. is_global (entity_of table.now n) && not (is_among hidden.now n)) (texts_of names.now)) }
{
    for name in names {
        if is_modified(table, hidden, name.text.as_bytes()) {
            modified.push(name.text.as_bytes())?;
        }
    }
    Ok(())
}

fn clause_names(clause: &Spec) -> &[Name]
    ensures { result.now ≡ spec_names clause.now }
{
    match &clause.form {
        SpecForm::Requires { .. } => &[],
        SpecForm::Ensures { .. } => &[],
        SpecForm::Modifies(names) => names,
    }
}

fn push_all_modified<'a>(
    table: &Table,
    hidden: &Positions,
    clauses: &'a [Spec],
    modified: &mut Positions<'a>,
) -> Result<(), AllocError>
    ensures { OnOk result (modified.new ≡ modified.old ++ modified_where table.now hidden.now clauses.now) }
{
    for clause in clauses {
        push_modified(table, hidden, clause_names(clause), modified)?;
    }
    Ok(())
}

/// The global variables that a procedure modifies.
#[tactic(auto, using(crate::proofs::CallSteps::modified_are))]
pub fn modified_by<'a>(
    alloc: Global,
    table: &Table,
    signature: &'a Signature,
    clauses: &'a [Spec],
) -> Result<Positions<'a>, AllocError>
    ensures { IfOk result (λ p. p ≡ modified_by table.now (contract_with signature.now clauses.now)) }
{
    let hidden = parameter_positions(alloc, signature)?;
    let mut modified = Positions::new(alloc);
    push_all_modified(table, &hidden, clauses, &mut modified)?;
    Ok(modified)
}

fn note_outs(faults: &mut Faults, targets: &[Option<Shape>], outs: &[Option<Shape>], at: Place)
    ensures { faults.new.first ≡ earlier faults.old.first (first_fault (outs_faults (shapes_seen targets.now) (shapes_seen outs.now) at)) }
{
    for i in 0..targets.len().min(outs.len()) {
        note_same_sort(faults, targets[i], outs[i], at);
    }
}

fn note_counted_outs(
    faults: &mut Faults,
    is_counted: bool,
    targets: &[Option<Shape>],
    outs: &[Option<Shape>],
    at: Place,
)
    ensures { faults.new.first ≡ earlier faults.old.first (first_fault (counted_outs_faults is_counted (shapes_seen targets.now) (shapes_seen outs.now) at)) }
{
    if is_counted {
        note_outs(faults, targets, outs, at);
    } else {
        faults.note(TypeKind::Arity, at);
    }
}

// The sorts of the targets of a call.
fn target_sorts(
    scope: &Scope,
    alloc: Global,
    names: &[Name],
) -> Result<Vec<Option<Shape>>, AllocError>
    ensures { IfOk result (λ v. shapes_seen v.items ≡ map (target_sort (scope_seen scope.now)) names.now) }
{
    let mut sorts = Vec::new(alloc);
    for name in names {
        sorts.push(sort_of_target(scope, name)?)?;
    }
    Ok(sorts)
}

// The sorts of the in-parameters of what is called.
fn callee_sorts<'a>(
    scope: &Scope<'_, 'a>,
    alloc: Global,
    meaning: Meaning<'a>,
) -> Result<Vec<Option<Shape>>, AllocError>
    ensures { IfOk result (λ v. shapes_seen v.items ≡ callee_sorts (scope_seen scope.now).table (meaning_seen meaning.entry)) }
{
    match meaning {
        Meaning::Declared(
            Entity::Procedure {
                number: _,
                signature,
                specs: _,
            },
        ) => parameter_sorts_of(scope, alloc, signature),
        _ => Ok(Vec::new(alloc)),
    }
}

// The sorts of the in-parameters of a procedure.
fn parameter_sorts_of<'a>(
    scope: &Scope<'_, 'a>,
    alloc: Global,
    signature: &'a Signature,
) -> Result<Vec<Option<Shape>>, AllocError>
    ensures { IfOk result (λ v. shapes_seen v.items ≡ sorts_of_names (scope_seen scope.now).table (texts_of (signature_names signature.now)) (names_of signature.now.ins)) }
{
    let names = parameter_positions(alloc, signature)?;
    let hidden = Hidden {
        bounds: &[],
        names: &names,
    };
    group_sorts(alloc, scope.types(), &hidden, &signature.ins)
}

// Finds outs of wrong sorts, and a wrong number of outs or arguments.
fn note_call_outs<'a>(
    scope: &Scope<'_, 'a>,
    alloc: Global,
    outs: &[Name],
    signature: &'a Signature,
    arguments: usize,
    at: Place,
    faults: &mut Faults,
) -> Result<(), AllocError>
    ensures { OnOk result (faults.new.first ≡ earlier faults.old.first (first_fault (counted_outs_faults (nat_eq (length (names_of signature.now.ins)) arguments && nat_eq (length (names_of signature.now.outs)) (length outs.now)) (map (target_sort (scope_seen scope.now)) outs.now) (sorts_of_names (scope_seen scope.now).table (texts_of (signature_names signature.now)) (names_of signature.now.outs)) at))) }
{
    let names = parameter_positions(alloc, signature)?;
    let hidden = Hidden {
        bounds: &[],
        names: &names,
    };
    let ins = count_names(&signature.ins)?;
    let results = count_names(&signature.outs)?;
    let is_counted = ins == arguments && results == outs.len();
    let targets = target_sorts(scope, alloc, outs)?;
    let sorts = group_sorts(alloc, scope.types(), &hidden, &signature.outs)?;
    note_counted_outs(faults, is_counted, &targets, &sorts, at);
    Ok(())
}

impl<'b, 's, 'a> BodyScope<'b, 's, 'a> {
    // Whether each of the names that is a global variable's may be modified.
    fn may_modify_names(&self, hidden: &Positions, names: &[Name]) -> bool
        ensures { result ≡ list_all (may_modify (body_seen self.now).modified) (filter (λ n. is_global (entity_of (scope_seen self.now.scope.now).table n) && not (is_among hidden.now n)) (texts_of names.now)) }
    {
        let table = self.scope.types().table();
        for name in names {
            let text = name.text.as_bytes();
            if is_modified(table, hidden, text) && !self.may_modify(text) {
                return false;
            }
        }
        true
    }

    // Whether all that a procedure with these parameters and clauses modifies may be modified.
    fn may_modify_all(&self, hidden: &Positions, clauses: &[Spec]) -> bool
        ensures { result ≡ list_all (may_modify (body_seen self.now).modified) (modified_where (scope_seen self.now.scope.now).table hidden.now clauses.now) }
    {
        for clause in clauses {
            if !self.may_modify_names(hidden, clause_names(clause)) {
                return false;
            }
        }
        true
    }

    #[tactic(auto, using(bpl_scopes::proofs::FirstFault::joins, crate::proofs::CallSteps::modified_are))]
    fn note_contract(
        &self,
        alloc: Global,
        outs: &[Name],
        signature: &'a Signature,
        clauses: &'a [Spec],
        arguments: usize,
        at: Place,
        faults: &mut Faults,
    ) -> Result<(), AllocError>
        ensures { OnOk result (faults.new.first ≡ earlier faults.old.first (first_fault (contract_faults (body_seen self.now) outs.now (contract_with signature.now clauses.now) arguments at))) }
    {
        note_call_outs(self.scope, alloc, outs, signature, arguments, at, faults)?;
        let hidden = parameter_positions(alloc, signature)?;
        let may_modify = self.may_modify_all(&hidden, clauses);
        faults.note_unless(may_modify, TypeKind::NotModified, at);
        Ok(())
    }

    // Finds the faults of what is called, with so many arguments.
    fn note_callee(
        &self,
        alloc: Global,
        outs: &[Name],
        meaning: Meaning<'a>,
        arguments: usize,
        at: Place,
        faults: &mut Faults,
    ) -> Result<(), AllocError>
        ensures { OnOk result (faults.new.first ≡ earlier faults.old.first (first_fault (callee_faults (body_seen self.now) outs.now (meaning_seen meaning.entry) arguments at))) }
    {
        match meaning {
            Meaning::Declared(
                Entity::Procedure {
                    number: _,
                    signature,
                    specs,
                },
            ) => self.note_contract(alloc, outs, signature, specs, arguments, at, faults),
            Meaning::Nothing => {
                faults.note(TypeKind::Unknown, at);
                Ok(())
            }
            Meaning::Bound(_, _) => {
                faults.note(TypeKind::Kind, at);
                Ok(())
            }
            Meaning::Variable(_) => {
                faults.note(TypeKind::Kind, at);
                Ok(())
            }
            Meaning::Declared(Entity::Constant { number: _, of: _ }) => {
                faults.note(TypeKind::Kind, at);
                Ok(())
            }
            Meaning::Declared(Entity::Global { number: _, of: _ }) => {
                faults.note(TypeKind::Kind, at);
                Ok(())
            }
            Meaning::Declared(
                Entity::Function {
                    ins: _,
                    of: _,
                    value: _,
                },
            ) => {
                faults.note(TypeKind::Kind, at);
                Ok(())
            }
            Meaning::Declared(Entity::Synonym { of: _ }) => {
                faults.note(TypeKind::Kind, at);
                Ok(())
            }
        }
    }

    /// Finds the faults of a call.
    #[tactic(auto, using(bpl_scopes::proofs::FirstFault::joins, bpl_faults::proofs::ArgumentSteps::count_is))]
    pub(crate) fn note_call(
        &self,
        alloc: Global,
        outs: &'a [Name],
        name: &Name,
        arguments: &'a [Expr],
        faults: &mut Faults,
    ) -> Result<(), AllocError>
        ensures { OnOk result (faults.new.first ≡ earlier faults.old.first (first_fault (call_faults (body_seen self.now) outs.now name.now (exprs_of arguments.now)))) }
    {
        self.note_targets(alloc, &borrowed(alloc, outs)?, faults)?;
        let meaning = self.scope.meaning(name.text.as_bytes());
        self.note_callee(alloc, outs, meaning, arguments.len(), name.at, faults)?;
        let sorts = callee_sorts(self.scope, alloc, meaning)?;
        self.scope.arguments(alloc, &sorts, arguments, faults)?;
        Ok(())
    }
}
