// Whether a sequent is well sorted.
ghost use Rattle.std.specs.Prelude.{◌≡◌, [], IsTrue, IfOk};
ghost use Rattle.logic_core.specs.Sorts.{bodies_sorted};
ghost use Rattle.logic_core.specs.WellSorted.{IsFormula};

use logic_core::copy::copy_sorts;
use logic_core::{Def, Signature, Sort, Term};
use std::alloc::{AllocError, Global};

/// Whether each body has its definition's sort, over the definitions of lower numbers.
pub fn are_bodies_sorted(alloc: Global, vars: &[Sort], defs: &[Def]) -> Result<bool, AllocError>
    ensures { IfOk result (λ h. h ≡ bodies_sorted vars.now [] defs.now) }
{
    for (i, def) in defs.iter().enumerate() {
        let mut params = copy_sorts(alloc, def.params.as_slice())?;
        params.reverse();
        if !def
            .body
            .has_sort(alloc, vars, &defs[..i], &params, &def.sort)?
        {
            return Ok(false);
        }
    }
    Ok(true)
}

/// Whether it is a closed, well-sorted formula.
#[tactic(auto, using(logic_laws::proofs::SortTests::is_sort))]
pub fn is_formula(alloc: Global, sig: &Signature, t: &Term) -> Result<bool, AllocError>
    ensures { IfOk result (λ b. IsTrue b → IsFormula sig.now.vars sig.now.defs t.now) }
{
    t.has_sort(alloc, sig.vars(), sig.defs(), &[], &Sort::boolean())
}
