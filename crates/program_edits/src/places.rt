// Declarations at their places: old ones, and those that are put in.
ghost use Rattle.std.specs.Prelude.{◌≡◌, ◌<◌, ◌-◌, ◌^◌, ◌++◌, [], ◌∷◌, map, filter, find, not, string_bytes, option_map, IfOk, OnOk};
ghost use Rattle.bpl_ast.specs.Statement.{axioms_with};
ghost use Rattle.bv_base.specs.Text.{is_among};
ghost use Rattle.program_edits.specs.Edited.{names, in_place, applied, numbered};
ghost use Rattle.program_edits.specs.Seen.{decls_seen};

use crate::names::{is_axiom, names_in, names_of, renamed};
use bpl_ast::Decl;
use bpl_scopes::Positions;
use std::alloc::{AllocError, Global};

/// The first of the dropped names that is not among these.
pub(crate) fn first_absent<'a>(present: &Positions<'_>, drops: &'a [String]) -> Option<&'a String>
    ensures { option_map (λ n. string_bytes n.now) result ≡ find (λ n. not (is_among present.now n)) (map string_bytes drops.now) }
{
    for name in drops {
        if !present.contains(name.as_bytes()) {
            return Some(name);
        }
    }
    None
}

// The put of the declaration's name, or else the declaration.
fn in_place<'a>(puts: &'a [Decl], put_names: &Positions<'_>, decl: &'a Decl) -> &'a Decl
    requires { put_names.now ≡ names puts.now }
    ensures { result.now ≡ in_place puts.now decl.now }
{
    match put_names.find(decl.name.as_bytes()) {
        Some(at) => match puts.get(at) {
            Some(put) => put,
            None => decl,
        },
        None => decl,
    }
}

// The declaration, or the put of its name, behind the others, unless it is dropped.
#[tactic(auto, using(crate::proofs::Steps::seen_behind))]
fn keep<'a>(
    kept: &mut Vec<&'a Decl>,
    puts: &'a [Decl],
    put_names: &Positions<'_>,
    dropped: &Positions<'_>,
    decl: &'a Decl,
) -> Result<(), AllocError>
    requires { put_names.now ≡ names puts.now }
    ensures { OnOk result (decls_seen kept.new.items ≡ decls_seen kept.old.items ++ map (in_place puts.now) (filter (λ d. not (is_among dropped.now d.name)) (decl.now ∷ []))) }
{
    if dropped.contains(decl.name.as_bytes()) {
        return Ok(());
    }
    kept.push(in_place(puts, put_names, decl))?;
    Ok(())
}

// The declarations that are not dropped, each put in its place.
fn kept<'a>(
    alloc: Global,
    old: &'a [Decl],
    puts: &'a [Decl],
    dropped: &Positions<'_>,
) -> Result<Vec<&'a Decl>, AllocError>
    ensures { IfOk result (λ v. decls_seen v.items ≡ map (in_place puts.now) (filter (λ d. not (is_among dropped.now d.name)) old.now)) }
{
    let put_names = names_of(alloc, puts)?;
    let mut found = Vec::new(alloc);
    for decl in old {
        keep(&mut found, puts, &put_names, dropped, decl)?;
    }
    Ok(found)
}

// The put behind the others, unless its name is among the present ones.
#[tactic(auto, using(crate::proofs::Steps::seen_behind))]
fn add<'a>(
    found: &mut Vec<&'a Decl>,
    present: &Positions<'_>,
    put: &'a Decl,
) -> Result<(), AllocError>
    ensures { OnOk result (decls_seen found.new.items ≡ decls_seen found.old.items ++ filter (λ p. not (is_among present.now p.name)) (put.now ∷ [])) }
{
    if present.contains(put.name.as_bytes()) {
        return Ok(());
    }
    found.push(put)?;
    Ok(())
}

// The puts behind the others whose names are not among the present ones.
fn add_new<'a>(
    found: &mut Vec<&'a Decl>,
    present: &Positions<'_>,
    puts: &'a [Decl],
) -> Result<(), AllocError>
    ensures { OnOk result (decls_seen found.new.items ≡ decls_seen found.old.items ++ filter (λ p. not (is_among present.now p.name)) puts.now) }
{
    for put in puts {
        add(found, present, put)?;
    }
    Ok(())
}

// How many axioms there are with this declaration.
fn axioms_with(axioms: usize, decl: &Decl) -> usize
    requires { axioms < 2 ^ 64 - 1 }
    ensures { result ≡ axioms_with axioms decl.now.body }
{
    if is_axiom(decl) { axioms + 1 } else { axioms }
}

// Copies, which have their bodies in common with these, with the axioms numbered anew.
fn numbered(alloc: Global, decls: &[&Decl]) -> Result<Vec<Decl>, AllocError>
    ensures { IfOk result (λ v. v.items ≡ numbered 0 (decls_seen decls.now)) }
{
    let mut found = Vec::new(alloc);
    let mut axioms = 0;
    for decl in decls {
        found.push(renamed(alloc, axioms, decl)?)?;
        axioms = axioms_with(axioms, decl);
    }
    Ok(found)
}

/// The old declarations without the dropped ones, each put in its place, and the other puts behind
/// them. Old and new declarations have their bodies in common.
pub(crate) fn applied(
    alloc: Global,
    old: &[Decl],
    present: &Positions<'_>,
    puts: &[Decl],
    drops: &[String],
) -> Result<Vec<Decl>, AllocError>
    requires { present.now ≡ names old.now }
    ensures { IfOk result (λ v. v.items ≡ numbered 0 (applied old.now puts.now (map string_bytes drops.now))) }
{
    let dropped = names_in(alloc, drops)?;
    let mut chosen = kept(alloc, old, puts, &dropped)?;
    add_new(&mut chosen, present, puts)?;
    numbered(alloc, &chosen)
}
