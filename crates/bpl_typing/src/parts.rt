// Whether the parts of a module are typed.
ghost use Rattle.std.specs.Prelude.{◌≡◌, ◌↔◌, ◌++◌, length, nat_lt, IsTrue, IfOk, []};
ghost use Rattle.std.specs.List.{list_all};
ghost use Rattle.logic_core.specs.Sorts.{bodies_sorted};
ghost use Rattle.bpl_model.specs.Numbering.{const_sorts, global_sorts};
ghost use Rattle.bpl_model.specs.VariablesView.{variables_of};
ghost use Rattle.bpl_model.specs.Typed.{IsTypedModule};
ghost use Rattle.bpl_model.specs.TypedTest.{is_formula_or_none, is_typed_proc, is_text, is_typed_over, is_typed_module};

use crate::statements::Scope;
use crate::terms::{are_formulas, is_formula_or_none};
use bpl_model::variables::{Variables, push_const_sorts, push_global_sorts};
use bpl_model::{DeclText, Parts, Proc};
use logic_core::copy::copy_sorts;
use logic_core::{Def, Sort};
use std::alloc::{AllocError, Global};

/// Whether the parts are a typed module's. The time is that of one walk over all terms and
/// statements, and for each procedure one over the constants and globals; the targets of one
/// statement are compared with one another.
#[tactic(auto, using(crate::proofs::TypedIsTyped::answers))]
pub fn is_typed(alloc: Global, parts: &Parts) -> Result<bool, AllocError>
    ensures { IfOk result (λ h. IsTrue h ↔ IsTypedModule parts.now) }
{
    passes(alloc, parts)
}

fn passes(alloc: Global, parts: &Parts) -> Result<bool, AllocError>
    ensures { IfOk result (λ h. h ≡ is_typed_module parts.now) }
{
    let defs = parts.defs(alloc)?;
    let consts = const_sorts(alloc, parts)?;
    let shared = shared_sorts(alloc, parts)?;
    let typed = is_typed_over(alloc, parts, &defs, &consts, &shared)?;
    Ok(typed)
}

fn is_typed_over(
    alloc: Global,
    parts: &Parts,
    defs: &[Def],
    consts: &[Sort],
    shared: &[Sort],
) -> Result<bool, AllocError>
    ensures { IfOk result (λ h. h ≡ is_typed_over defs.now consts.now shared.now parts.now) }
{
    Ok(
        are_bodies_sorted(alloc, consts, defs)?
            && are_formulas(alloc, defs, consts, &parts.axioms)?
            && are_clauses(alloc, defs, shared, &parts.globals)?
            && are_procs(alloc, parts, defs, &parts.procs)?
            && are_texts(parts.texts.len() as u64, &parts.texts),
    )
}

// The sorts of the constants.
fn const_sorts(alloc: Global, parts: &Parts) -> Result<Vec<Sort>, AllocError>
    ensures { IfOk result (λ v. v.items ≡ const_sorts parts.now) }
{
    let mut sorts = Vec::new(alloc);
    push_const_sorts(alloc, &mut sorts, &parts.consts)?;
    Ok(sorts)
}

// The sorts of the constants and the globals.
fn shared_sorts(alloc: Global, parts: &Parts) -> Result<Vec<Sort>, AllocError>
    ensures { IfOk result (λ v. v.items ≡ const_sorts parts.now ++ global_sorts parts.now) }
{
    let mut sorts = const_sorts(alloc, parts)?;
    push_global_sorts(alloc, &mut sorts, &parts.globals)?;
    Ok(sorts)
}

// Whether each of the procedures is typed.
fn are_procs(alloc: Global, parts: &Parts, defs: &[Def], procs: &[Proc]) -> Result<bool, AllocError>
    ensures { IfOk result (λ h. h ≡ list_all (λ p. is_typed_proc defs.now parts.now.procs (variables_of parts.now p) p) procs.now) }
{
    for proc in procs {
        if !is_proc(alloc, parts, defs, proc)? {
            return Ok(false);
        }
    }
    Ok(true)
}

fn is_proc(alloc: Global, parts: &Parts, defs: &[Def], proc: &Proc) -> Result<bool, AllocError>
    ensures { IfOk result (λ h. h ≡ is_typed_proc defs.now parts.now.procs (variables_of parts.now proc.now) proc.now) }
{
    let vars = Variables::of(alloc, parts, proc)?;
    let scope = Scope {
        defs,
        procs: &parts.procs,
        vars: &vars,
    };
    let typed = scope.is_typed_proc(alloc, proc)?;
    Ok(typed)
}

// Whether each body is well sorted under its parameters, of its definition's sort, over the
// definitions of lower numbers.
fn are_bodies_sorted(alloc: Global, vars: &[Sort], defs: &[Def]) -> Result<bool, AllocError>
    ensures { IfOk result (λ h. h ≡ bodies_sorted vars.now [] defs.now) }
{
    for (i, def) in defs.iter().enumerate() {
        let mut params = copy_sorts(alloc, def.params.as_slice())?;
        params.reverse();
        if !def
            .body
            .has_sort(alloc, vars, &defs[..i], &params, &def.sort)?
        {
            return Ok(false);
        }
    }
    Ok(true)
}

fn are_clauses(
    alloc: Global,
    defs: &[Def],
    vars: &[Sort],
    globals: &[bpl_model::Global],
) -> Result<bool, AllocError>
    ensures { IfOk result (λ h. h ≡ list_all (λ g. is_formula_or_none defs.now vars.now g.clause) globals.now) }
{
    for global in globals {
        if !is_formula_or_none(alloc, defs, vars, &global.clause)? {
            return Ok(false);
        }
    }
    Ok(true)
}

// Whether the positions in the text are those of declarations, of which there are so many.
fn is_text(count: u64, text: &DeclText) -> bool
    ensures { result ≡ is_text count text.now }
{
    all_below(count, &text.leads) && all_below(count, &text.contract_leads)
}

fn are_texts(count: u64, texts: &[DeclText]) -> bool
    ensures { result ≡ list_all (is_text count) texts.now }
{
    texts.iter().all(|text| is_text(count, text))
}

fn all_below(limit: u64, numbers: &[u64]) -> bool
    ensures { result ≡ list_all (λ k. nat_lt k limit) numbers.now }
{
    numbers.iter().all(|number| *number < limit)
}
