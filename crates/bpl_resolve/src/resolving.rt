// The typed module of a program, or its first fault.
ghost use Rattle.std.specs.Prelude.{◌≡◌, None, IfOk, IfErr};
ghost use Rattle.bpl_declaration_faults.specs.DeclFaults.{fault_of};
ghost use Rattle.bpl_resolve.specs.Elaborate.{module_of};
ghost use Rattle.bpl_resolve.specs.FirstFault.{IsFirstFault};

use crate::fault::ResolveFault;
use crate::parts;
use crate::type_fault::first_fault_in;
use bpl_ast::Program;
use bpl_dependencies::Declarations;
use bpl_model::Module;
use std::alloc::Global;

/// The typed module of a program without faults, in which each name stands for what it names; else
/// the first fault by declaration, then place, then number of its kind. `Memory` comes where memory
/// runs out, and may come in place of any answer.
#[tactic(auto, using(crate::proofs::TypedModules::module_typed))]
pub fn resolve(alloc: Global, program: &Program) -> Result<Module, ResolveFault>
    ensures module { IfOk result (λ m. m ≡ module_of program.now) }
    ensures faultless { IfOk result (λ m. fault_of program.now ≡ None) }
    ensures fault { IfErr result (λ e. IsFirstFault program.now e) }
{
    let declarations = Declarations::of(alloc, &program.decls)?;
    match first_fault_in(alloc, &declarations)? {
        Some(fault) => Err(ResolveFault::Fault(fault)),
        None => Ok(Module::new(parts(alloc, &declarations)?)),
    }
}
