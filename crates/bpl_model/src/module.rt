// Modules.
ghost use Rattle.std.specs.Prelude.{◌≡◌, ◌<◌, length, slice_get, IfOk, Some};
ghost use Rattle.bpl_model.specs.Module.{with_procedure};
ghost use Rattle.bpl_model.specs.Numbering.{defs_of};
ghost use Rattle.bpl_model.specs.Typed.{IsTypedModule};

use crate::decl::{Const, Function, Global};
use crate::name::Name;
use crate::proc::Proc;
use logic_core::{Def, Formula};
use std::marker::Model;
use std::{alloc, mem};

/// A declaration's canonical text, the same without a body, and the positions of the declarations
/// that the names of each of the two stand for.
#[derive(Drop)]
pub struct DeclText {
    pub name: Name,
    /// Its canonical text, in bytes.
    pub text: Vec<u8>,
    /// The same without a body.
    pub contract: Vec<u8>,
    /// The positions, among all declarations, of those that names in the text stand for.
    pub leads: Vec<u64>,
    /// The positions of those that names in the contract stand for.
    pub contract_leads: Vec<u64>,
}

impl Model for DeclText {
    ghost use Rattle.bpl_model.specs.Module.{DeclText as text_of_declaration};
    ghost use Rattle.bpl_model.specs.Codes.{coded_decl_text};

    ghost Value = { text_of_declaration };

    ghost coded = { coded_decl_text };

    ghost view = { λ a. record { name = a.name; text = a.text.items; contract = a.contract.items; leads = a.leads.items; contract_leads = a.contract_leads.items } };
}

/// A procedure, and the texts of its declaration.
#[derive(Drop)]
pub struct DeclaredProc {
    pub proc: Proc,
    pub text: DeclText,
}

/// The parts of a module, typed or not.
pub struct Parts {
    pub consts: Vec<Const>,
    pub axioms: Vec<Formula>,
    pub functions: Vec<Function>,
    pub globals: Vec<Global>,
    pub procs: Vec<Proc>,
    pub texts: Vec<DeclText>,
}

// Written out: a derived drop is proved again wherever a value is dropped.
impl Drop for Parts {
    fn drop(self) {
        let Parts {
            consts,
            axioms,
            functions,
            globals,
            procs,
            texts,
        } = self;
        drop(consts);
        drop(axioms);
        drop(functions);
        drop(globals);
        drop(procs);
        drop(texts);
    }
}

impl Model for Parts {
    ghost use Rattle.bpl_model.specs.Module.{Module as parts_of_module};
    ghost use Rattle.bpl_model.specs.Codes.{coded_module};

    ghost Value = { parts_of_module };

    ghost coded = { coded_module };

    ghost view = { λ a. record { consts = a.consts.items; axioms = a.axioms.items; functions = a.functions.items; globals = a.globals.items; procs = a.procs.items; texts = a.texts.items } };
}

impl Parts {
    /// The definitions of the functions, by number.
    pub fn defs(&self, alloc: alloc::Global) -> Result<Vec<Def>, alloc::AllocError>
        ensures { IfOk result (λ v. v.items ≡ defs_of self.now) }
    {
        let mut defs = Vec::new(alloc);
        for function in &self.functions {
            defs.push(function.def.copy(alloc)?)?;
        }
        Ok(defs)
    }
}

/// A typed module. Its terms are well sorted, and its numbers name what is there. A function's body
/// uses functions of lower numbers, constants and its own parameters, an axiom constants. A
/// statement sets globals, outs and locals, none twice. A call has the arguments and results of its
/// callee. A contract reads no local, and a `requires` no entry value and no out; a clause reads no
/// entry value and what is declared before its variable's kind. A `break` leaves a statement around
/// it. No variable stands for a replaced call.
pub struct Module {
    parts: Parts,
}

// Written out: a derived drop is proved again wherever a value is dropped.
impl Drop for Module {
    fn drop(self) {
        let Module { parts } = self;
        drop(parts);
    }
}

impl Model for Module {
    ghost use Rattle.bpl_model.specs.Module.{Module as typed_module};
    ghost use Rattle.bpl_model.specs.Codes.{coded_module};
    ghost use Rattle.bpl_model.specs.Typed.{IsTypedModule};

    ghost Value = { typed_module };

    ghost coded = { coded_module };

    ghost view = { λ a. a.parts };

    ghost invariant = { λ a. IsTypedModule a.parts };
}

impl Module {
    /// The module of these parts.
    pub fn new(parts: Parts) -> Module
        requires { IsTypedModule parts }
        ensures { result ≡ parts }
    {
        Module { parts }
    }

    /// The parts again.
    pub fn into_parts(self) -> Parts
        ensures same { result ≡ self }
        ensures typed { IsTypedModule result }
    {
        let Module { parts } = self;
        parts
    }

    /// The parts.
    pub fn parts(&self) -> &Parts
        ensures same { result.now ≡ self.now }
        ensures typed { IsTypedModule result.now }
    {
        &self.parts
    }

    /// Puts a procedure and the texts of its declaration in the place of others, which are given back.
    pub fn put_procedure(
        &mut self,
        proc_at: usize,
        decl_at: usize,
        declared: DeclaredProc,
    ) -> DeclaredProc
        requires procs { proc_at < length self.old.procs }
        requires texts { decl_at < length self.old.texts }
        requires typed { IsTypedModule (with_procedure proc_at declared.proc decl_at declared.text self.old) }
        ensures put { self.new ≡ with_procedure proc_at declared.proc decl_at declared.text self.old }
        ensures proc { Some result.proc ≡ slice_get self.old.procs proc_at }
        ensures text { Some result.text ≡ slice_get self.old.texts decl_at }
    {
        let DeclaredProc { proc, text } = declared;
        let proc = mem::replace(&mut self.parts.procs[proc_at], proc);
        let text = mem::replace(&mut self.parts.texts[decl_at], text);
        DeclaredProc { proc, text }
    }
}
