// Copies of the parts of modules. Each is equal to what it copies.
ghost use Rattle.std.specs.Prelude.{◌≡◌, IfOk};

use crate::copy_decls::{copy_locals, copy_specs};
use crate::copy_stmts::copy_body;
use crate::decl::{Const, Function, Global};
use crate::module::{DeclText, Parts};
use crate::proc::Proc;
use logic_core::copy::copy_terms;
use std::alloc;

/// Equal constants.
pub fn copy_consts(alloc: alloc::Global, consts: &[Const]) -> Result<Vec<Const>, alloc::AllocError>
    ensures { IfOk result (λ v. v.items ≡ consts.now) }
{
    let mut copies = Vec::new(alloc);
    for constant in consts {
        copies.push(constant.copy(alloc)?)?;
    }
    Ok(copies)
}

/// Equal functions.
pub fn copy_functions(
    alloc: alloc::Global,
    functions: &[Function],
) -> Result<Vec<Function>, alloc::AllocError>
    ensures { IfOk result (λ v. v.items ≡ functions.now) }
{
    let mut copies = Vec::new(alloc);
    for function in functions {
        copies.push(function.copy(alloc)?)?;
    }
    Ok(copies)
}

/// Equal globals.
pub fn copy_globals(
    alloc: alloc::Global,
    globals: &[Global],
) -> Result<Vec<Global>, alloc::AllocError>
    ensures { IfOk result (λ v. v.items ≡ globals.now) }
{
    let mut copies = Vec::new(alloc);
    for global in globals {
        copies.push(global.copy(alloc)?)?;
    }
    Ok(copies)
}

impl Proc {
    /// An equal procedure.
    pub fn copy(&self, alloc: alloc::Global) -> Result<Proc, alloc::AllocError>
        ensures { IfOk result (λ p. p ≡ self.now) }
    {
        Ok(Proc {
            name: self.name.copy(alloc)?,
            ins: copy_locals(alloc, &self.ins)?,
            outs: copy_locals(alloc, &self.outs)?,
            locals: copy_locals(alloc, &self.locals)?,
            specs: copy_specs(alloc, &self.specs)?,
            body: copy_body(alloc, &self.body)?,
        })
    }
}

/// Equal procedures.
pub fn copy_procs(alloc: alloc::Global, procs: &[Proc]) -> Result<Vec<Proc>, alloc::AllocError>
    ensures { IfOk result (λ v. v.items ≡ procs.now) }
{
    let mut copies = Vec::new(alloc);
    for proc in procs {
        copies.push(proc.copy(alloc)?)?;
    }
    Ok(copies)
}

impl DeclText {
    /// An equal text.
    pub fn copy(&self, alloc: alloc::Global) -> Result<DeclText, alloc::AllocError>
        ensures { IfOk result (λ t. t ≡ self.now) }
    {
        Ok(DeclText {
            name: self.name.copy(alloc)?,
            text: Vec::from_slice(alloc, &self.text)?,
            contract: Vec::from_slice(alloc, &self.contract)?,
            leads: Vec::from_slice(alloc, &self.leads)?,
            contract_leads: Vec::from_slice(alloc, &self.contract_leads)?,
        })
    }
}

/// Equal texts.
pub fn copy_texts(
    alloc: alloc::Global,
    texts: &[DeclText],
) -> Result<Vec<DeclText>, alloc::AllocError>
    ensures { IfOk result (λ v. v.items ≡ texts.now) }
{
    let mut copies = Vec::new(alloc);
    for text in texts {
        copies.push(text.copy(alloc)?)?;
    }
    Ok(copies)
}

impl Parts {
    /// Equal parts.
    pub fn copy(&self, alloc: alloc::Global) -> Result<Parts, alloc::AllocError>
        ensures { IfOk result (λ p. p ≡ self.now) }
    {
        Ok(Parts {
            consts: copy_consts(alloc, &self.consts)?,
            axioms: copy_terms(alloc, &self.axioms)?,
            functions: copy_functions(alloc, &self.functions)?,
            globals: copy_globals(alloc, &self.globals)?,
            procs: copy_procs(alloc, &self.procs)?,
            texts: copy_texts(alloc, &self.texts)?,
        })
    }
}
