// Obligations with canonical numbers.
ghost use Rattle.std.specs.Prelude.{◌≡◌, ℕ, ◌<◌, [], ◌∷◌, ◌++◌, map, IfOk, OnOk};
ghost use Rattle.logic_core.specs.WellSorted.{IsWellSorted};
ghost use Rattle.logic_core.specs.Renamed.{both_renamed, def_renamed, new_number};
ghost use Rattle.logic_core.specs.Variables.{place_in};
ghost use Rattle.obligation_text.specs.Numbering.{definition_order, variable_order, IsCanonical};
ghost use Rattle.obligation_text.specs.Canonical.{picked, canonical};

use crate::numbering::{definition_order, variable_order};
use crate::obligation::Obligation;
use crate::order::Order;
use logic_core::copy::copy_sorts;
use logic_core::def::{Def, Signature};
use logic_core::rename::rename;
use logic_core::sequence::Sequence;
use logic_core::sort::Sort;
use logic_core::term::Term;
use std::alloc::{AllocError, Global};

// A table of the places of all numbers below the count.
fn places(alloc: Global, order: &Order, count: usize) -> Result<Vec<u64>, AllocError>
    ensures { IfOk result (λ v. (k : ℕ) → k < count → new_number v.items k ≡ place_in order.now k) }
{
    let mut places = Vec::new(alloc);
    for number in 0..count {
        places.push(order.place(number as u64).unwrap_or(0))?;
    }
    Ok(places)
}

// The sort of this number, where there is one, comes behind.
fn pick_sort(
    alloc: Global,
    found: &mut Vec<Sort>,
    sorts: &[Sort],
    number: u64,
) -> Result<(), AllocError>
    ensures { OnOk result (found.new.items ≡ found.old.items ++ picked sorts.now (number ∷ [])) }
{
    match sorts.get(number as usize) {
        Some(sort) => Ok(found.push(sort.copy(alloc)?)?),
        None => Ok(()),
    }
}

// The sorts of these numbers.
#[tactic(auto, using(crate::proofs::Places::picked_more))]
fn picked_sorts(alloc: Global, sorts: &[Sort], order: &[u64]) -> Result<Vec<Sort>, AllocError>
    ensures { IfOk result (λ v. v.items ≡ picked sorts.now order.now) }
{
    let mut found = Vec::new(alloc);
    for number in order {
        pick_sort(alloc, &mut found, sorts, *number)?;
    }
    Ok(found)
}

// The definition with other numbers in its body.
fn renamed_def(
    alloc: Global,
    def: &Def,
    definitions: &[u64],
    variables: &[u64],
) -> Result<Def, AllocError>
    ensures { IfOk result (λ d. d ≡ def_renamed (new_number definitions.now) (new_number variables.now) def.now) }
{
    Ok(Def {
        params: Sequence::of(copy_sorts(alloc, def.params.as_slice())?),
        sort: def.sort.copy(alloc)?,
        logical: def.logical,
        body: rename(alloc, &def.body, definitions, variables)?,
    })
}

// The definition of this number, where there is one, comes behind.
fn pick_def(
    alloc: Global,
    found: &mut Vec<Def>,
    defs: &[Def],
    number: u64,
) -> Result<(), AllocError>
    ensures { OnOk result (found.new.items ≡ found.old.items ++ picked defs.now (number ∷ [])) }
{
    match defs.get(number as usize) {
        Some(def) => Ok(found.push(def.copy(alloc)?)?),
        None => Ok(()),
    }
}

// The definitions of these numbers.
#[tactic(auto, using(crate::proofs::Places::picked_more))]
fn picked_defs(alloc: Global, defs: &[Def], order: &[u64]) -> Result<Vec<Def>, AllocError>
    ensures { IfOk result (λ v. v.items ≡ picked defs.now order.now) }
{
    let mut found = Vec::new(alloc);
    for number in order {
        pick_def(alloc, &mut found, defs, *number)?;
    }
    Ok(found)
}

// The definitions with other numbers in their bodies.
fn renamed_defs(
    alloc: Global,
    defs: &[Def],
    definitions: &[u64],
    variables: &[u64],
) -> Result<Vec<Def>, AllocError>
    ensures { IfOk result (λ v. v.items ≡ map (def_renamed (new_number definitions.now) (new_number variables.now)) defs.now) }
{
    let mut renamed = Vec::new(alloc);
    for def in defs {
        renamed.push(renamed_def(alloc, def, definitions, variables)?)?;
    }
    Ok(renamed)
}

// The terms with other numbers.
fn renamed_terms(
    alloc: Global,
    terms: &[Term],
    definitions: &[u64],
    variables: &[u64],
) -> Result<Vec<Term>, AllocError>
    ensures { IfOk result (λ v. v.items ≡ map (both_renamed (new_number definitions.now) (new_number variables.now)) terms.now) }
{
    let mut renamed = Vec::new(alloc);
    for term in terms {
        renamed.push(rename(alloc, term, definitions, variables)?)?;
    }
    Ok(renamed)
}

// The parts of an obligation.
#[derive(Drop)]
struct Parts {
    vars: Sequence<Sort>,
    defs: Sequence<Def>,
    axioms: Sequence<Term>,
    goal: Term,
}

impl Parts {
    fn into_obligation(self) -> Obligation
        requires sorted { IsWellSorted (record { vars = self.vars; defs = self.defs; axioms = self.axioms; goal = self.goal }) }
        requires numbered { IsCanonical (record { vars = self.vars; defs = self.defs; axioms = self.axioms; goal = self.goal }) }
        ensures { result ≡ record { vars = self.vars; defs = self.defs; axioms = self.axioms; goal = self.goal } }
    {
        let signature = Signature::new(self.vars, self.defs);
        Obligation::new(signature, self.axioms, self.goal)
    }
}

// The parts with the numbers of these orders.
fn renumbered(
    alloc: Global,
    signature: &Signature,
    axioms: &[Term],
    goal: &Term,
    order: &Order,
    named: &Order,
) -> Result<Parts, AllocError>
    requires sorted { IsWellSorted (record { vars = signature.now.vars; defs = signature.now.defs; axioms = axioms.now; goal = goal.now }) }
    requires order { order.now ≡ definition_order (record { vars = signature.now.vars; defs = signature.now.defs; axioms = axioms.now; goal = goal.now }) }
    requires named { named.now ≡ variable_order (record { vars = signature.now.vars; defs = signature.now.defs; axioms = axioms.now; goal = goal.now }) order.now }
    ensures { IfOk result (λ p. record { vars = p.vars; defs = p.defs; axioms = p.axioms; goal = p.goal } ≡ canonical (record { vars = signature.now.vars; defs = signature.now.defs; axioms = axioms.now; goal = goal.now })) }
{
    let definitions = places(alloc, order, signature.defs().len())?;
    let variables = places(alloc, named, signature.vars().len())?;
    let vars = picked_sorts(alloc, signature.vars(), named.numbers())?;
    let picked = picked_defs(alloc, signature.defs(), order.numbers())?;
    let defs = renamed_defs(alloc, &picked, &definitions, &variables)?;
    let axioms = renamed_terms(alloc, axioms, &definitions, &variables)?;
    let goal = rename(alloc, goal, &definitions, &variables)?;
    Ok(Parts {
        vars: Sequence::of(vars),
        defs: Sequence::of(defs),
        axioms: Sequence::of(axioms),
        goal,
    })
}

impl Obligation {
    /// The obligation with canonical numbers: definitions that the goal and then the axioms reach, each
    /// after those that its body calls, and variables in the order in which the text has them. The
    /// others are left out. It is valid exactly where the obligation is.
    pub fn numbered(
        alloc: Global,
        signature: &Signature,
        axioms: &[Term],
        goal: &Term,
    ) -> Result<Obligation, AllocError>
        requires { IsWellSorted (record { vars = signature.now.vars; defs = signature.now.defs; axioms = axioms.now; goal = goal.now }) }
        ensures { IfOk result (λ o. o ≡ canonical (record { vars = signature.now.vars; defs = signature.now.defs; axioms = axioms.now; goal = goal.now })) }
    {
        let order = definition_order(alloc, signature.defs(), axioms, goal)?;
        let named = variable_order(alloc, signature.defs(), order.numbers(), axioms, goal)?;
        let parts = renumbered(alloc, signature, axioms, goal, &order, &named)?;
        Ok(parts.into_obligation())
    }
}
