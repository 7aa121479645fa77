// Declarations by their names and positions.
ghost use Rattle.std.specs.Prelude.{◌≡◌, ◌++◌, [], IfOk, OnOk, codes, map};
ghost use Rattle.std.specs.List.{flat_map, range_with_len};
ghost use Rattle.bpl_model.specs.Reach.{axiom_name};
ghost use Rattle.bpl_model.specs.Names.{with_names};
ghost use Rattle.bpl_model.specs.Marking.{mark_all};
ghost use Rattle.bpl_model.specs.Walk.{is_at, text_at};

use crate::decl::{Const, Function};
use crate::marking::Marking;
use crate::module::DeclText;
use crate::name::Name;
use crate::name_set::NameSet;
use std::alloc;

/// So many positions, from 0.
pub fn positions(alloc: alloc::Global, count: usize) -> Result<Vec<u64>, alloc::AllocError>
    ensures { IfOk result (λ v. v.items ≡ range_with_len 0 count) }
{
    let mut numbers = Vec::new(alloc);
    for i in 0..count {
        numbers.push(i as u64)?;
    }
    Ok(numbers)
}

/// The name of the declaration at a position; empty where there is none.
pub fn name_at(texts: &[DeclText], d: u64) -> &[u8]
    ensures { result.now ≡ (text_at texts.now d).name }
{
    match texts.get(d as usize) {
        Some(text) => text.name.as_bytes(),
        None => &[],
    }
}

/// The positions that the declaration's names stand for.
pub fn leads_at(texts: &[DeclText], d: u64) -> &[u64]
    ensures { result.now ≡ (text_at texts.now d).leads }
{
    match texts.get(d as usize) {
        Some(text) => text.leads.as_slice(),
        None => &[],
    }
}

/// The positions that the names of the declaration without its body stand for.
pub fn contract_leads_at(texts: &[DeclText], d: u64) -> &[u64]
    ensures { result.now ≡ (text_at texts.now d).contract_leads }
{
    match texts.get(d as usize) {
        Some(text) => text.contract_leads.as_slice(),
        None => &[],
    }
}

/// Whether the declaration has one of the names.
pub fn is_at(texts: &[DeclText], names: &NameSet<'_>, d: u64) -> bool
    ensures { result ≡ is_at texts.now names.now d }
{
    names.contains(name_at(texts, d))
}

/// Puts in the names of constants.
pub fn put_constants<'a>(
    names: &mut NameSet<'a>,
    constants: &'a [Const],
) -> Result<(), alloc::AllocError>
    ensures { OnOk result (names.new ≡ with_names names.old (map (λ c. c.name) constants.now)) }
{
    for constant in constants {
        names.put(constant.name.as_bytes())?;
    }
    Ok(())
}

/// Puts in the names of functions.
pub fn put_functions<'a>(
    names: &mut NameSet<'a>,
    functions: &'a [Function],
) -> Result<(), alloc::AllocError>
    ensures { OnOk result (names.new ≡ with_names names.old (map (λ f. f.name) functions.now)) }
{
    for function in functions {
        names.put(function.name.as_bytes())?;
    }
    Ok(())
}

/// Puts in names.
pub fn put_names<'a>(names: &mut NameSet<'a>, more: &'a [Name]) -> Result<(), alloc::AllocError>
    ensures { OnOk result (names.new ≡ with_names names.old more.now) }
{
    for name in more {
        names.put(name.as_bytes())?;
    }
    Ok(())
}

/// The names of the declarations at these positions.
pub fn names_at<'a>(
    alloc: alloc::Global,
    texts: &'a [DeclText],
    positions: &[u64],
) -> Result<NameSet<'a>, alloc::AllocError>
    ensures { IfOk result (λ s. s ≡ with_names [] (map (λ d. (text_at texts.now d).name) positions.now)) }
{
    let mut names = NameSet::new(alloc);
    for d in positions {
        names.put(name_at(texts, *d))?;
    }
    Ok(names)
}

/// The name of an axiom's declaration: `@1` is the first.
pub fn axiom_name(alloc: alloc::Global, number: u64) -> Result<Name, alloc::AllocError>
    ensures { IfOk result (λ n. n ≡ axiom_name number) }
{
    Ok(Name {
        text: format!(in alloc; "@{number}")?,
    })
}

/// The names of so many axioms.
pub fn axiom_names(alloc: alloc::Global, count: usize) -> Result<Vec<Name>, alloc::AllocError>
    ensures { IfOk result (λ v. v.items ≡ map axiom_name (range_with_len 1 count)) }
{
    let mut names = Vec::new(alloc);
    for k in 0..count {
        names.push(axiom_name(alloc, k as u64 + 1)?)?;
    }
    Ok(names)
}

/// The name of a procedure's implementation.
pub fn own_name(alloc: alloc::Global, name: &[u8]) -> Result<Vec<u8>, alloc::AllocError>
    ensures { IfOk result (λ v. v.items ≡ codes "implementation " ++ name.now) }
{
    let mut implementation = Vec::from_slice(alloc, b"implementation ")?;
    implementation.extend_from_slice(name)?;
    Ok(implementation)
}

/// Marks what the declarations at these positions lead to.
pub fn mark_leads(
    texts: &[DeclText],
    positions: &[u64],
    marking: &mut Marking,
) -> Result<(), alloc::AllocError>
    ensures { OnOk result (marking.new ≡ mark_all marking.old (flat_map (λ d. (text_at texts.now d).leads) positions.now)) }
{
    for d in positions {
        marking.mark_all(leads_at(texts, *d))?;
    }
    Ok(())
}
