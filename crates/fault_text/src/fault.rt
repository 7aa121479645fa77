// The faults of texts, and of declarations, written.
ghost use Rattle.std.specs.Prelude.{◌≡◌, ◌-◌, ◌^◌, ◌<◌, length, IfOk};
ghost use Rattle.bpl_parse.specs.Program.{IsFaultOf};
ghost use Rattle.bpl_resolve.specs.FaultView.{fault_seen};
ghost use Rattle.fault_text.specs.WrittenFault.{decl_fault};
ghost use Rattle.fault_text.specs.FaultView.{IsWrittenOf, SourcesAreShort};

use crate::{Written, fault_in_decl, fault_in_text};
use bpl_ast::Decl;
use bpl_parse::Fault;
use bpl_resolve::TypeFault;
use std::alloc::{AllocError, Global};

/// The text's fault, written. Want of memory at the parser is want of memory here.
pub fn written_of_text(alloc: Global, text: &[u8], fault: Fault) -> Result<Written, AllocError>
    requires short { length text.now < 2 ^ 32 - 1 }
    requires there { IsFaultOf text.now fault }
    ensures { IfOk result (IsWrittenOf text.now fault) }
{
    match fault {
        Fault::Lex { at } => fault_in_text(alloc, text, "Lex", at),
        Fault::Syntax { at } => fault_in_text(alloc, text, "Syntax", at),
        Fault::Deep { at } => fault_in_text(alloc, text, "Deep", at),
        Fault::Wide { at } => fault_in_text(alloc, text, "Wide", at),
        Fault::Memory => Err(AllocError),
    }
}

/// The program's fault by names and sorts, written.
pub fn written_of_program(
    alloc: Global,
    decls: &[Decl],
    fault: TypeFault,
) -> Result<Written, AllocError>
    requires sources { SourcesAreShort decls.now }
    requires there { fault.decl < length decls.now }
    ensures { IfOk result (λ w. w ≡ decl_fault decls.now (fault_seen fault)) }
{
    let decl = &decls[fault.decl];
    fault_in_decl(alloc, decl, fault.kind, fault.at)
}
