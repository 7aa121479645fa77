// What of a module is new with one revision.
use bpl_model::{DeclText, Proc};
use logic_core::{Formula, Term};

/// A procedure, an axiom, or the value of a function, and which of the module's procedures, axioms or
/// functions it is.
#[derive(Drop)]
pub enum ModulePart {
    Procedure { at: usize, proc: Proc },
    Axiom { at: usize, formula: Formula },
    Function { at: usize, body: Term },
}

/// A part of the module, and the texts of its declaration, and which of the module's texts they are.
#[derive(Drop)]
pub struct Revision {
    pub decl_at: usize,
    pub part: ModulePart,
    pub text: DeclText,
}
