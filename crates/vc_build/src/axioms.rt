// The axioms of a procedure's obligations.
ghost use Rattle.std.specs.Prelude.{◌≡◌, ◌∷◌, [], ◌++◌, IfOk, OnOk};
ghost use Rattle.vc_build.specs.Depends.{reached_axioms};
ghost use Rattle.vc_build.specs.NamedAxioms.{axioms_named};

use bpl_model::declarations::{axiom_name, names_at};
use bpl_model::name_set::NameSet;
use bpl_model::reach::reached_by;
use bpl_model::{Links, Proc};
use logic_core::Formula;
use std::alloc::{AllocError, Global};

// The axiom of this number, where its name is among these, comes behind.
fn push_axiom(
    alloc: Global,
    found: &mut Vec<Formula>,
    names: &NameSet<'_>,
    number: u64,
    formula: &Formula,
) -> Result<(), AllocError>
    ensures { OnOk result (found.new.items ≡ found.old.items ++ axioms_named names.now number (formula.now ∷ [])) }
{
    let name = axiom_name(alloc, number)?;
    if names.contains(name.as_bytes()) {
        found.push(formula.copy(alloc)?)?;
    }
    Ok(())
}

// Of the axioms those whose names are among these, in order.
#[tactic(auto, using(crate::proofs::NamedAxioms::named_next))]
fn axioms_named(
    alloc: Global,
    names: &NameSet<'_>,
    axioms: &[Formula],
) -> Result<Vec<Formula>, AllocError>
    ensures { IfOk result (λ v. v.items ≡ axioms_named names.now 1 axioms.now) }
{
    let mut found = Vec::new(alloc);
    for i in 0..axioms.len() {
        push_axiom(alloc, &mut found, names, i as u64 + 1, &axioms[i])?;
    }
    Ok(found)
}

/// The axioms that the procedure's names reach, in order of declaration.
#[tactic(auto, using(crate::proofs::NamedAxioms::named_are_reached))]
pub fn reached_axioms(
    alloc: Global,
    links: &Links<'_>,
    proc: &Proc,
) -> Result<Vec<Formula>, AllocError>
    ensures { IfOk result (λ v. v.items ≡ reached_axioms links.now proc.now) }
{
    let reached = reached_by(alloc, links, proc)?;
    let parts = links.parts();
    let names = names_at(alloc, &parts.texts, &reached)?;
    axioms_named(alloc, &names, &parts.axioms)
}
