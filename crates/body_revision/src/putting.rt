// What is new is put into a module.
ghost use Rattle.std.specs.Prelude.{◌≡◌, ◌<◌, length, option_map, slice_get, Some};
ghost use Rattle.bpl_model.specs.Module.{with_procedure};
ghost use Rattle.bpl_model.specs.Typed.{IsTypedModule};
ghost use Rattle.body_revision.specs.Revision.{with_axiom, with_value, with_function, revised, HasPlaces};

use crate::revised::{ModulePart, Revision};
use bpl_model::{DeclText, DeclaredProc, Function, Module, Parts};
use logic_core::{Formula, Term};
use std::alloc::Global;
use std::mem;

// An axiom, and the texts of its declaration.
#[derive(Drop)]
struct DeclaredAxiom {
    formula: Formula,
    text: DeclText,
}

// The value of a function, and the texts of its declaration.
#[derive(Drop)]
struct DeclaredValue {
    body: Term,
    text: DeclText,
}

fn empty_module(alloc: Global) -> Module {
    let consts = Vec::new(alloc);
    let axioms = Vec::new(alloc);
    let functions = Vec::new(alloc);
    let globals = Vec::new(alloc);
    let procs = Vec::new(alloc);
    let texts = Vec::new(alloc);
    Module::new(Parts {
        consts,
        axioms,
        functions,
        globals,
        procs,
        texts,
    })
}

// Puts an axiom and the texts of its declaration among the parts, in the place of others, which are given
// back.
fn put_among(
    parts: &mut Parts,
    axiom_at: usize,
    decl_at: usize,
    declared: DeclaredAxiom,
) -> DeclaredAxiom
    requires axioms { axiom_at < length parts.old.axioms }
    requires texts { decl_at < length parts.old.texts }
    ensures put { parts.new ≡ with_axiom axiom_at declared.formula decl_at declared.text parts.old }
    ensures formula { Some result.formula ≡ slice_get parts.old.axioms axiom_at }
    ensures text { Some result.text ≡ slice_get parts.old.texts decl_at }
{
    let DeclaredAxiom { formula, text } = declared;
    let formula = mem::replace(&mut parts.axioms[axiom_at], formula);
    let text = mem::replace(&mut parts.texts[decl_at], text);
    DeclaredAxiom { formula, text }
}

// The same, in a module.
fn put_axiom(
    alloc: Global,
    typed: &mut Module,
    axiom_at: usize,
    decl_at: usize,
    declared: DeclaredAxiom,
) -> DeclaredAxiom
    requires axioms { axiom_at < length typed.old.axioms }
    requires texts { decl_at < length typed.old.texts }
    requires typed { IsTypedModule (with_axiom axiom_at declared.formula decl_at declared.text typed.old) }
    ensures put { typed.new ≡ with_axiom axiom_at declared.formula decl_at declared.text typed.old }
    ensures formula { Some result.formula ≡ slice_get typed.old.axioms axiom_at }
    ensures text { Some result.text ≡ slice_get typed.old.texts decl_at }
{
    let module = mem::replace(typed, empty_module(alloc));
    let mut parts = module.into_parts();
    let before = put_among(&mut parts, axiom_at, decl_at, declared);
    *typed = Module::new(parts);
    before
}

// Puts a value in the place of a function's own, which is given back.
fn put_value(function: &mut Function, body: Term) -> Term
    ensures put { function.new ≡ with_value body function.old }
    ensures body { result ≡ function.old.def.body }
{
    mem::replace(&mut function.def.body, body)
}

// Puts the value of a function and the texts of its declaration among the parts, in the place of others,
// which are given back.
fn put_function_among(
    parts: &mut Parts,
    at: usize,
    decl_at: usize,
    declared: DeclaredValue,
) -> DeclaredValue
    requires functions { at < length parts.old.functions }
    requires texts { decl_at < length parts.old.texts }
    ensures put { parts.new ≡ with_function at declared.body decl_at declared.text parts.old }
    ensures body { Some result.body ≡ option_map (λ f. f.def.body) (slice_get parts.old.functions at) }
    ensures text { Some result.text ≡ slice_get parts.old.texts decl_at }
{
    let DeclaredValue { body, text } = declared;
    let body = put_value(&mut parts.functions[at], body);
    let text = mem::replace(&mut parts.texts[decl_at], text);
    DeclaredValue { body, text }
}

// The same, in a module.
fn put_function(
    alloc: Global,
    typed: &mut Module,
    at: usize,
    decl_at: usize,
    declared: DeclaredValue,
) -> DeclaredValue
    requires functions { at < length typed.old.functions }
    requires texts { decl_at < length typed.old.texts }
    requires typed { IsTypedModule (with_function at declared.body decl_at declared.text typed.old) }
    ensures put { typed.new ≡ with_function at declared.body decl_at declared.text typed.old }
    ensures body { Some result.body ≡ option_map (λ f. f.def.body) (slice_get typed.old.functions at) }
    ensures text { Some result.text ≡ slice_get typed.old.texts decl_at }
{
    let module = mem::replace(typed, empty_module(alloc));
    let mut parts = module.into_parts();
    let before = put_function_among(&mut parts, at, decl_at, declared);
    *typed = Module::new(parts);
    before
}

// What stood where the value of a function is put.
fn put_body(
    alloc: Global,
    typed: &mut Module,
    at: usize,
    decl_at: usize,
    declared: DeclaredValue,
) -> Revision
    requires functions { at < length typed.old.functions }
    requires texts { decl_at < length typed.old.texts }
    requires typed { IsTypedModule (with_function at declared.body decl_at declared.text typed.old) }
    ensures put { typed.new ≡ with_function at declared.body decl_at declared.text typed.old }
    ensures places { HasPlaces typed.new result }
    ensures back { revised result typed.new ≡ typed.old }
{
    let before = put_function(alloc, typed, at, decl_at, declared);
    let DeclaredValue { body, text } = before;
    Revision {
        decl_at,
        part: ModulePart::Function { at, body },
        text,
    }
}

// What stood where a procedure is put.
fn put_proc(typed: &mut Module, at: usize, decl_at: usize, declared: DeclaredProc) -> Revision
    requires procs { at < length typed.old.procs }
    requires texts { decl_at < length typed.old.texts }
    requires typed { IsTypedModule (with_procedure at declared.proc decl_at declared.text typed.old) }
    ensures put { typed.new ≡ with_procedure at declared.proc decl_at declared.text typed.old }
    ensures places { HasPlaces typed.new result }
    ensures back { revised result typed.new ≡ typed.old }
{
    let before = typed.put_procedure(at, decl_at, declared);
    let DeclaredProc { proc, text } = before;
    Revision {
        decl_at,
        part: ModulePart::Procedure { at, proc },
        text,
    }
}

// What stood where an axiom is put.
fn put_formula(
    alloc: Global,
    typed: &mut Module,
    at: usize,
    decl_at: usize,
    declared: DeclaredAxiom,
) -> Revision
    requires axioms { at < length typed.old.axioms }
    requires texts { decl_at < length typed.old.texts }
    requires typed { IsTypedModule (with_axiom at declared.formula decl_at declared.text typed.old) }
    ensures put { typed.new ≡ with_axiom at declared.formula decl_at declared.text typed.old }
    ensures places { HasPlaces typed.new result }
    ensures back { revised result typed.new ≡ typed.old }
{
    let before = put_axiom(alloc, typed, at, decl_at, declared);
    let DeclaredAxiom { formula, text } = before;
    Revision {
        decl_at,
        part: ModulePart::Axiom { at, formula },
        text,
    }
}

/// Puts what is new into the module, and gives back what stood there: put in again, it makes the module
/// what it was.
pub fn put_revision(alloc: Global, typed: &mut Module, revision: Revision) -> Revision
    requires places { HasPlaces typed.old revision }
    requires typed { IsTypedModule (revised revision typed.old) }
    ensures put { typed.new ≡ revised revision typed.old }
    ensures places { HasPlaces typed.new result }
    ensures back { revised result typed.new ≡ typed.old }
{
    let Revision {
        decl_at,
        part,
        text,
    } = revision;
    match part {
        ModulePart::Procedure { at, proc } => {
            put_proc(typed, at, decl_at, DeclaredProc { proc, text })
        }
        ModulePart::Axiom { at, formula } => {
            put_formula(alloc, typed, at, decl_at, DeclaredAxiom { formula, text })
        }
        ModulePart::Function { at, body } => {
            put_body(alloc, typed, at, decl_at, DeclaredValue { body, text })
        }
    }
}
