// What declarations are by names and types.
ghost use Rattle.std.specs.Prelude.{◌≡◌, ◌<◌, length, false, None, IfOk};
ghost use Rattle.bpl_ast.specs.DeclView.{body_of};
ghost use Rattle.bpl_declaration_faults.specs.DeclFaults.{fault_of};
ghost use Rattle.bpl_scopes.specs.Scopes.{table_of};
ghost use Rattle.bpl_goto.specs.Forward.{AllGoForward};
ghost use Rattle.bpl_resolve.specs.Elaborate.{module_of};
ghost use Rattle.fault_text.specs.FaultView.{SourcesAreShort};
ghost use Rattle.user_types.specs.Erased.{erased};
ghost use Rattle.user_types.specs.CarrierFaults.{carrier_fault};
ghost use Rattle.program_opening.specs.Opening.{told_carrier, typing_by_carriers, typing};
ghost use Rattle.program_opening.specs.NoUsers.{is_user_type, has_user_types};
ghost use Rattle.program_opening.specs.OpenedView.{IsTypedAs};

use bpl_ast::{Decl, DeclBody, Program};
use bpl_model::Module;
use bpl_resolve::{ResolveFault, resolve};
use bpl_scopes::{Table, TypeKind, declare_all};
use bv_base::place::Place;
use fault_text::{Written, fault_in_decl, written_of_program};
use std::alloc::{AllocError, Global};
use user_types::{erase_over, first_carrier_fault_over};

/// What declarations are: a module, or what has a first fault by names and types, as it is written.
#[derive(Drop)]
pub enum Typed {
    Module(Module),
    Refused(Written),
}

// The fault of a user type that is taken for another type, written.
fn written_of_carrier(
    alloc: Global,
    decls: &[Decl],
    decl: usize,
    at: Place,
) -> Result<Written, AllocError>
    requires sources { SourcesAreShort decls.now }
    requires there { decl < length decls.now }
    ensures { IfOk result (λ w. w ≡ told_carrier decls.now (decl, at)) }
{
    let written = fault_in_decl(alloc, &decls[decl], TypeKind::Sort, at)?;
    Ok(Written {
        kind: Vec::from_slice(alloc, b"Carrier")?,
        decl: written.decl,
        place: written.place,
        word: written.word,
    })
}

// What declarations are whose erased ones have no fault and this module.
#[tactic(auto, using(crate::proofs::Openings::carriers_told, crate::proofs::Openings::carriers_right, crate::proofs::Openings::carrier_there))]
fn with_carriers(
    alloc: Global,
    table: &Table,
    program: &Program,
    module: Module,
) -> Result<Typed, AllocError>
    requires table { table.now ≡ table_of program.now }
    requires sources { SourcesAreShort program.now }
    requires faultless { fault_of (erased program.now) ≡ None }
    requires module { «module» ≡ module_of (erased program.now) }
    requires forward { AllGoForward «module» }
    ensures { IfOk result (λ t. IsTypedAs (typing_by_carriers program.now (carrier_fault program.now)) t) }
{
    match first_carrier_fault_over(alloc, table, program)? {
        None => Ok(Typed::Module(module)),
        Some((decl, at)) => Ok(Typed::Refused(written_of_carrier(
            alloc,
            &program.decls,
            decl,
            at,
        )?)),
    }
}

fn is_user_type(body: &DeclBody) -> bool
    ensures { result ≡ is_user_type (body_of body.now) }
{
    match body {
        DeclBody::TypeName {
            name: _,
            synonym: None,
        } => true,
        DeclBody::TypeName {
            name: _,
            synonym: Some(_),
        } => false,
        DeclBody::Const { .. } => false,
        DeclBody::Function { .. } => false,
        DeclBody::Axiom(_) => false,
        DeclBody::Var(_) => false,
        DeclBody::Procedure { .. } => false,
        DeclBody::Implementation { .. } => false,
    }
}

/// Whether any of the declarations is a user type.
pub fn has_user_types(decls: &[Decl]) -> bool
    ensures { result ≡ has_user_types decls.now }
{
    decls.iter().any(|decl| is_user_type(decl.body()))
}

// What declarations without user types are: as they stand there are no carriers to tell.
#[tactic(auto, using(crate::proofs::SameDecls::same_typed, crate::proofs::SameDecls::same_faulty, bpl_resolve::proofs::GoesForward::goes_forward, fault_text::proofs::Position::fault_there))]
fn check_same(alloc: Global, program: &Program) -> Result<Typed, AllocError>
    requires sources { SourcesAreShort program.now }
    requires same { has_user_types program.now ≡ false }
    ensures { IfOk result (λ t. IsTypedAs (typing program.now) t) }
{
    match resolve(alloc, program) {
        Ok(module) => Ok(Typed::Module(module)),
        Err(ResolveFault::Fault(fault)) => {
            Ok(Typed::Refused(written_of_program(alloc, &program.decls, fault)?))
        }
        Err(ResolveFault::Memory) => Err(AllocError),
    }
}

// What declarations are whose user types are read as integers, and then told from them and from each
// other.
#[tactic(auto, using(crate::proofs::Openings::faulty_is, crate::proofs::Openings::typed_as, crate::proofs::Openings::sources_stay, bpl_resolve::proofs::GoesForward::goes_forward, fault_text::proofs::Position::fault_there))]
fn check_erased(alloc: Global, program: &Program) -> Result<Typed, AllocError>
    requires { SourcesAreShort program.now }
    ensures { IfOk result (λ t. IsTypedAs (typing program.now) t) }
{
    let (table, _) = declare_all(alloc, &program.decls)?;
    let erased = erase_over(alloc, &table, program)?;
    match resolve(alloc, &erased) {
        Ok(module) => with_carriers(alloc, &table, program, module),
        Err(ResolveFault::Fault(fault)) => {
            Ok(Typed::Refused(written_of_program(alloc, &erased.decls, fault)?))
        }
        Err(ResolveFault::Memory) => Err(AllocError),
    }
}

/// What the declarations are by names and types: user types are read as integers, and then told from
/// them and from each other. The only error is want of memory.
pub fn type_check(alloc: Global, program: &Program) -> Result<Typed, AllocError>
    requires { SourcesAreShort program.now }
    ensures { IfOk result (λ t. IsTypedAs (typing program.now) t) }
{
    if has_user_types(&program.decls) {
        check_erased(alloc, program)
    } else {
        check_same(alloc, program)
    }
}
