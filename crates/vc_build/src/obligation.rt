// The obligation of an assertion.
ghost use Rattle.std.specs.Prelude.{◌≡◌, IfOk, map};
ghost use Rattle.logic_core.specs.WellSorted.{IsWellSorted};
ghost use Rattle.quantifier_triggers.specs.Choice.{with_triggers, def_with_triggers, obligation_with_triggers};
ghost use Rattle.obligation_text.specs.Canonical.{canonical};
ghost use Rattle.vc_build.specs.Goals.{sequent_at, obligation_at};

use block_wp::equations;
use logic_core::copy::copy_sorts;
use logic_core::{Def, Formula, Sequence, Signature, Term};
use obligation_text::obligation::Obligation;
use passive_form::Passive;
use quantifier_triggers::with_triggers;
use std::alloc::{AllocError, Global};

// The definition with chosen triggers in its body.
fn def_with_triggers(alloc: Global, signature: &Signature, def: &Def) -> Result<Def, AllocError>
    ensures { IfOk result (λ d. d ≡ def_with_triggers signature.now.defs def.now) }
{
    Ok(Def {
        params: Sequence::of(copy_sorts(alloc, def.params.as_slice())?),
        sort: def.sort.copy(alloc)?,
        logical: def.logical,
        body: with_triggers(alloc, &def.body, signature)?,
    })
}

// The definitions with chosen triggers in their bodies.
fn defs_with_triggers(
    alloc: Global,
    signature: &Signature,
    defs: &[Def],
) -> Result<Vec<Def>, AllocError>
    ensures { IfOk result (λ v. v.items ≡ map (def_with_triggers signature.now.defs) defs.now) }
{
    let mut chosen = Vec::new(alloc);
    for def in defs {
        chosen.push(def_with_triggers(alloc, signature, def)?)?;
    }
    Ok(chosen)
}

fn terms_with_triggers(
    alloc: Global,
    signature: &Signature,
    terms: &[Term],
) -> Result<Vec<Term>, AllocError>
    ensures { IfOk result (λ v. v.items ≡ map (with_triggers signature.now.defs) terms.now) }
{
    let mut chosen = Vec::new(alloc);
    for term in terms {
        chosen.push(with_triggers(alloc, term, signature)?)?;
    }
    Ok(chosen)
}

// The obligation with chosen triggers and then canonical numbers.
fn chosen_and_numbered(
    alloc: Global,
    signature: &Signature,
    axioms: &[Formula],
    goal: &Formula,
) -> Result<Obligation, AllocError>
    requires { IsWellSorted (record { vars = signature.now.vars; defs = signature.now.defs; axioms = axioms.now; goal = goal.now }) }
    ensures { IfOk result (λ o. o ≡ canonical (obligation_with_triggers (record { vars = signature.now.vars; defs = signature.now.defs; axioms = axioms.now; goal = goal.now }))) }
{
    let defs = defs_with_triggers(alloc, signature, signature.defs())?;
    let axioms = terms_with_triggers(alloc, signature, axioms)?;
    let goal = with_triggers(alloc, goal, signature)?;
    let vars = copy_sorts(alloc, signature.vars())?;
    let chosen = Signature::new(Sequence::of(vars), Sequence::of(defs));
    Obligation::numbered(alloc, &chosen, &axioms, &goal)
}

/// The obligation of the assertion at place `at` of the block.
pub fn obligation_at(
    alloc: Global,
    passive: &Passive,
    defs: &[Def],
    axioms: &[Formula],
    block: u64,
    at: u64,
) -> Result<Obligation, AllocError>
    requires { IsWellSorted (sequent_at passive.now defs.now axioms.now block at) }
    ensures { IfOk result (λ o. o ≡ obligation_at passive.now defs.now axioms.now block at) }
{
    let sequent = equations(alloc, passive, defs, block, at)?;
    let vars = copy_sorts(alloc, passive.vars.as_slice())?;
    let signature = Signature::new(Sequence::of(vars), sequent.defs);
    chosen_and_numbered(alloc, &signature, axioms, &sequent.goal)
}
