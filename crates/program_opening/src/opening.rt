// What a text is to the commands.
ghost use Rattle.std.specs.Prelude.{◌-◌, ◌^◌, ◌<◌, length, IfOk};
ghost use Rattle.bpl_goto.specs.Forward.{AllGoForward};
ghost use Rattle.vc_build.specs.Large.{program_large};
ghost use Rattle.program_opening.specs.Opening.{opening, unless_large};
ghost use Rattle.fault_text.specs.FaultView.{SourcesAreShort};
ghost use Rattle.program_opening.specs.OpenedView.{IsOpened, IsOpenedText};

use crate::goals::{ProcGoals, program_goals};
use crate::size::written_of_size;
use crate::typing::{Typed, type_check};
use bpl_ast::Program;
use bpl_model::Module;
use bpl_parse::{Fault, parse};
use fault_text::{Written, written_of_text};
use std::alloc::{AllocError, Global};
use vc_build::BuildFault;

/// A program without a fault: its module, and its goals.
#[derive(Drop)]
pub struct Checked {
    pub module: Module,
    pub goals: Vec<ProcGoals>,
}

/// What a text is: a program without a fault, or one with a first fault, as it is written.
#[derive(Drop)]
pub enum Opened {
    Program(Checked),
    Refused(Written),
}

// What a program without faults of names and types is, whose module this is.
#[tactic(auto, using(crate::proofs::Openings::large_is))]
fn open_module(alloc: Global, module: Module) -> Result<Opened, AllocError>
    requires { AllGoForward «module» }
    ensures { IfOk result (λ o. IsOpened (unless_large «module» (program_large «module»)) o) }
{
    match program_goals(alloc, &module) {
        Ok(goals) => Ok(Opened::Program(Checked { module, goals })),
        Err(BuildFault::Large { what, number }) => {
            Ok(Opened::Refused(written_of_size(alloc, what, number)?))
        }
        Err(BuildFault::Memory) => Err(AllocError),
    }
}

// What a program is.
fn open_program(alloc: Global, program: &Program) -> Result<Opened, AllocError>
    requires { SourcesAreShort program.now }
    ensures { IfOk result (λ o. IsOpened (opening program.now) o) }
{
    match type_check(alloc, program)? {
        Typed::Module(module) => open_module(alloc, module),
        Typed::Refused(fault) => Ok(Opened::Refused(fault)),
    }
}

/// What the text is: the program that it spells, with its module and the goals of each procedure with
/// a body, or the first of its faults as it is written. A fault of the text itself stands before those
/// of names and types, and these before the limits on goals. The only error is want of memory.
#[tactic(auto, using(crate::proofs::Openings::spelled_is, crate::proofs::Openings::told_is))]
pub fn open(alloc: Global, text: &[u8]) -> Result<Opened, AllocError>
    requires { length text.now < 2 ^ 32 - 1 }
    ensures { IfOk result (λ o. IsOpenedText text.now o) }
{
    match parse(alloc, text) {
        Ok(program) => open_program(alloc, &program),
        Err(Fault::Memory) => Err(AllocError),
        Err(fault) => Ok(Opened::Refused(written_of_text(alloc, text, fault)?)),
    }
}
