// The first fault of a program: each declaration in turn, until one has a fault.
ghost use Rattle.std.specs.Prelude.{◌≡◌, ◌++◌, ◌&&◌, cond, [], ◌∷◌, reverse, option_map, IfOk, OnOk};
ghost use Rattle.bpl_ast.specs.DeclView.{body_of};
ghost use Rattle.bpl_ast.specs.ExprView.{groups_of};
ghost use Rattle.bpl_scopes.specs.declared.fault.TypeKind.TheVariants.{Twice as twice};
ghost use Rattle.bpl_scopes.specs.declared.part.Part.TheVariants.{ClauseOfGlobal as in_clause_of_global};
ghost use Rattle.bpl_scopes.specs.CountsView.{counts_seen};
ghost use Rattle.bv_base.specs.Text.{is_among};
ghost use Rattle.bpl_scopes.specs.Fault.{again, if_so, earlier, first_fault};
ghost use Rattle.bpl_scopes.specs.Functions.{argument_names};
ghost use Rattle.bpl_scopes.specs.Scopes.{texts_of, names_of, only_names, declared_names};
ghost use Rattle.bpl_scopes.specs.TypeFaults.{params_faults, type_faults, group_type_faults};
ghost use Rattle.bpl_faults.specs.ExprFaults.{group_clause_faults};
ghost use Rattle.bpl_declaration_faults.specs.DeclFaults.{unique_faults, cycle_faults, argument_type_faults, function_value_faults, synonym_faults, has_body, body_names, decl_faults, nothing_before, faults_after, first_from, fault_of};
ghost use Rattle.bpl_declaration_faults.specs.DeclView.{before_seen};
ghost use Rattle.bpl_declaration_faults.specs.Variables.{scope_of};
ghost use Rattle.bpl_resolve.specs.FaultView.{fault_seen};

use bpl_ast::{Argument, Body, Decl, DeclBody, Expr, Group, Name, Type, TypeParams};
use bpl_declaration_faults::before::{note_body_of, note_declared, note_own_body_of};
use bpl_declaration_faults::globals::{note_synonym, note_unique};
use bpl_declaration_faults::{Before, Declared};
use bpl_dependencies::{Declarations, Dependencies};
use bpl_faults::listed::{group_names, push_names};
use bpl_scopes::{Counts, Fault, Faults, Positions, TypeKind, Types};
use bv_base::place::Place;
use std::alloc::{AllocError, Global};

/// The first fault of a program: its kind, the position of its declaration, and its place there,
/// lines and columns counted from 1.
#[derive(Clone, Copy, PartialEq, Eq, Debug)]
pub struct TypeFault {
    pub kind: TypeKind,
    pub decl: usize,
    pub at: Place,
}

// Finds a function or synonym that leads to itself.
fn note_cycle(
    alloc: Global,
    dependencies: &Dependencies,
    name: &Name,
    faults: &mut Faults,
) -> Result<(), AllocError>
    ensures { OnOk result (faults.new.first ≡ earlier faults.old.first (first_fault (cycle_faults dependencies.now name.now))) }
{
    let leads = dependencies.leads_to_itself(alloc, name.text.as_bytes())?;
    faults.note_if(leads, TypeKind::Cycle, name.at);
    Ok(())
}

// What a declaration stands in.
fn around<'d, 'a>(dependencies: &'d Dependencies<'a>, counts: Counts) -> Declared<'d, 'a>
    ensures environment { result.environment.now ≡ dependencies.now }
    ensures counts { result.counts ≡ counts }
{
    Declared {
        environment: dependencies.environment(),
        counts,
    }
}

// Finds the faults of constants, and notes their names.
#[tactic(auto, using(bpl_scopes::proofs::FirstFault::joins))]
fn note_constants<'a>(
    alloc: Global,
    types: &Types,
    declared: &mut Positions<'a>,
    unique: &Option<Place>,
    names: &'a [Name],
    of: &Type,
    faults: &mut Faults,
) -> Result<(), AllocError>
    ensures faults { OnOk result (faults.new.first ≡ earlier faults.old.first (first_fault (unique_faults unique.now ++ (again twice (reverse declared.old) names.now ++ type_faults types.now [] of.now)))) }
    ensures names { OnOk result (declared.new ≡ declared.old ++ texts_of names.now) }
{
    note_unique(unique, faults);
    let mut listed = Vec::new(alloc);
    push_names(&mut listed, names)?;
    note_declared(declared, &listed, faults)?;
    types.note_type(&types.nothing_hidden(), of, faults)
}

// Finds the faults of global variables, and notes their names.
#[tactic(auto, using(bpl_scopes::proofs::FirstFault::joins))]
fn note_variables<'a>(
    alloc: Global,
    dependencies: &Dependencies<'a>,
    counts: Counts,
    declared: &mut Positions<'a>,
    groups: &'a [Group],
    faults: &mut Faults,
) -> Result<(), AllocError>
    ensures faults { OnOk result (faults.new.first ≡ earlier faults.old.first (first_fault (again twice (reverse declared.old) (only_names (names_of (groups_of groups.now))) ++ (group_type_faults dependencies.now [] (groups_of groups.now) ++ group_clause_faults (scope_of dependencies.now (counts_seen counts) in_clause_of_global []) (groups_of groups.now))))) }
    ensures names { OnOk result (declared.new ≡ declared.old ++ texts_of (only_names (names_of (groups_of groups.now)))) }
{
    let names = group_names(alloc, groups)?;
    note_declared(declared, &names, faults)?;
    around(dependencies, counts).note_globals(alloc, groups, faults)
}

// Finds a name of a function or synonym that stands before or leads to itself, and notes it.
#[tactic(auto, using(bpl_scopes::proofs::FirstFault::joins))]
fn note_name<'a>(
    alloc: Global,
    dependencies: &Dependencies<'a>,
    declared: &mut Positions<'a>,
    name: &'a Name,
    faults: &mut Faults,
) -> Result<(), AllocError>
    ensures faults { OnOk result (faults.new.first ≡ earlier faults.old.first (first_fault (again twice (reverse declared.old) (name.now ∷ []) ++ cycle_faults dependencies.now name.now))) }
    ensures names { OnOk result (declared.new ≡ declared.old ++ name.now.text ∷ []) }
{
    note_declared(declared, &[name], faults)?;
    note_cycle(alloc, dependencies, name, faults)
}

// Finds the faults of a function, and notes its name.
#[tactic(auto, using(bpl_faults::proofs::ExprSteps::joins_two))]
fn note_function<'a>(
    alloc: Global,
    dependencies: &Dependencies<'a>,
    counts: Counts,
    declared: &mut Positions<'a>,
    name: &'a Name,
    params: &Option<TypeParams>,
    arguments: &'a [Argument],
    of: &'a Type,
    value: &'a Option<Expr>,
    faults: &mut Faults,
) -> Result<(), AllocError>
    ensures faults { OnOk result (faults.new.first ≡ earlier faults.old.first (first_fault (again twice (reverse declared.old) (name.now ∷ []) ++ (cycle_faults dependencies.now name.now ++ (params_faults params.now ++ (again twice [] (argument_names arguments.now) ++ (argument_type_faults dependencies.now arguments.now ++ (type_faults dependencies.now [] of.now ++ function_value_faults dependencies.now (counts_seen counts) name.now arguments.now of.now value.now)))))))) }
    ensures names { OnOk result (declared.new ≡ declared.old ++ name.now.text ∷ []) }
{
    note_name(alloc, dependencies, declared, name, faults)?;
    around(dependencies, counts).note_function(alloc, name, params, arguments, of, value, faults)
}

// Finds the faults of a synonym or user type, and notes its name.
#[tactic(auto, using(bpl_faults::proofs::ExprSteps::joins_two))]
fn note_type_name<'a>(
    alloc: Global,
    dependencies: &Dependencies<'a>,
    declared: &mut Positions<'a>,
    name: &'a Name,
    synonym: &Option<Type>,
    faults: &mut Faults,
) -> Result<(), AllocError>
    ensures faults { OnOk result (faults.new.first ≡ earlier faults.old.first (first_fault (again twice (reverse declared.old) (name.now ∷ []) ++ (cycle_faults dependencies.now name.now ++ synonym_faults dependencies.now synonym.now)))) }
    ensures names { OnOk result (declared.new ≡ declared.old ++ name.now.text ∷ []) }
{
    note_name(alloc, dependencies, declared, name, faults)?;
    note_synonym(dependencies.environment().types(), synonym, faults)
}

// Finds a name of a procedure that stands before, and a second body, and notes both.
#[tactic(auto, using(bpl_scopes::proofs::FirstFault::joins))]
fn note_procedure_name<'a>(
    before: &mut Before<'a>,
    name: &'a Name,
    body: &Option<Body>,
    faults: &mut Faults,
) -> Result<(), AllocError>
    ensures faults { OnOk result (faults.new.first ≡ earlier faults.old.first (first_fault (again twice (reverse before.old.names) (name.now ∷ []) ++ if_so (has_body body.now && is_among (reverse before.old.bodies) name.now.text) twice name.now.at))) }
    ensures names { OnOk result (before.new.names ≡ before.old.names ++ name.now.text ∷ []) }
    ensures bodies { OnOk result (before.new.bodies ≡ before.old.bodies ++ cond (has_body body.now) (name.now.text ∷ []) []) }
{
    note_declared(&mut before.names, &[name], faults)?;
    note_own_body_of(&mut before.bodies, name, body, faults)
}

// Finds the faults of a declaration, and notes what it declares and which body it gives.
#[tactic(auto, using(bpl_scopes::proofs::FirstFault::joins, bpl_faults::proofs::ExprSteps::joins_two, crate::proofs::SameBefore::own_bodies))]
fn note_decl<'a>(
    alloc: Global,
    dependencies: &Dependencies<'a>,
    counts: Counts,
    before: &mut Before<'a>,
    body: &'a DeclBody,
    faults: &mut Faults,
) -> Result<(), AllocError>
    ensures faults { OnOk result (faults.new.first ≡ earlier faults.old.first (first_fault (decl_faults dependencies.now (counts_seen counts) (before_seen before.old) (body_of body.now)))) }
    ensures names { OnOk result (before.new.names ≡ before.old.names ++ texts_of (declared_names (body_of body.now))) }
    ensures bodies { OnOk result (before.new.bodies ≡ before.old.bodies ++ body_names (body_of body.now)) }
{
    match body {
        DeclBody::Const { unique, names, of } => {
            let types = dependencies.environment().types();
            note_constants(alloc, types, &mut before.names, unique, names, of, faults)
        }
        DeclBody::Function {
            name,
            params,
            arguments,
            of,
            value,
        } => {
            note_function(
                alloc,
                dependencies,
                counts,
                &mut before.names,
                name,
                params,
                arguments,
                of,
                value,
                faults,
            )
        }
        DeclBody::Axiom(x) => around(dependencies, counts).note_axiom(alloc, x, faults),
        DeclBody::Var(groups) => {
            note_variables(
                alloc,
                dependencies,
                counts,
                &mut before.names,
                groups,
                faults,
            )
        }
        DeclBody::TypeName { name, synonym } => {
            note_type_name(
                alloc,
                dependencies,
                &mut before.names,
                name,
                synonym,
                faults,
            )
        }
        DeclBody::Procedure {
            name,
            params,
            signature,
            specs,
            body,
        } => {
            note_procedure_name(before, name, body, faults)?;
            around(dependencies, counts).note_procedure(
                alloc, params, signature, specs, body, faults,
            )
        }
        DeclBody::Implementation {
            name,
            params,
            signature,
            body,
        } => {
            note_body_of(&mut before.bodies, name, faults)?;
            around(dependencies, counts).note_implementation(
                alloc, name, params, signature, body, faults,
            )
        }
    }
}

/// The first fault of a declaration, by place and then by kind, where these names and bodies stand before
/// it. The names that it declares, and the procedure that it gives a body, come behind them.
pub fn fault_of_decl<'a>(
    alloc: Global,
    dependencies: &Dependencies<'a>,
    counts: Counts,
    before: &mut Before<'a>,
    body: &'a DeclBody,
) -> Result<Option<Fault>, AllocError>
    ensures fault { IfOk result (λ f. f ≡ first_fault (decl_faults dependencies.now (counts_seen counts) (before_seen before.old) (body_of body.now))) }
    ensures names { OnOk result (before.new.names ≡ before.old.names ++ texts_of (declared_names (body_of body.now))) }
    ensures bodies { OnOk result (before.new.bodies ≡ before.old.bodies ++ body_names (body_of body.now)) }
{
    let mut faults = Faults::none();
    note_decl(alloc, dependencies, counts, before, body, &mut faults)?;
    Ok(faults.first)
}

// The first fault of a program whose declarations these are.
fn first_fault_of<'a>(
    alloc: Global,
    dependencies: &Dependencies<'a>,
    counts: Counts,
    decls: &'a [Decl],
) -> Result<Option<TypeFault>, AllocError>
    ensures { IfOk result (λ r. option_map fault_seen r ≡ first_from 0 (faults_after dependencies.now (counts_seen counts) nothing_before decls.now)) }
{
    let mut before = Before {
        names: Positions::new(alloc),
        bodies: Positions::new(alloc),
    };
    for i in 0..decls.len() {
        let decl = &decls[i];
        if let Some(fault) = fault_of_decl(alloc, dependencies, counts, &mut before, decl.body())? {
            return Ok(Some(TypeFault {
                kind: fault.kind,
                decl: i,
                at: fault.at,
            }));
        }
    }
    Ok(None)
}

/// The first fault of a program of which it is known what is declared: by declaration, then place, then
/// number of its kind; None exactly where it has none. The only error is want of memory.
pub fn first_fault_in<'a>(
    alloc: Global,
    declarations: &Declarations<'a>,
) -> Result<Option<TypeFault>, AllocError>
    ensures { IfOk result (λ r. option_map fault_seen r ≡ fault_of declarations.now) }
{
    let dependencies = declarations.dependencies();
    first_fault_of(
        alloc,
        dependencies,
        declarations.counts(),
        declarations.decls(),
    )
}

/// The first fault of a program, as `first_fault_in` finds it.
pub fn first_fault(alloc: Global, decls: &[Decl]) -> Result<Option<TypeFault>, AllocError>
    ensures { IfOk result (λ r. option_map fault_seen r ≡ fault_of decls.now) }
{
    let declarations = Declarations::of(alloc, decls)?;
    first_fault_in(alloc, &declarations)
}
