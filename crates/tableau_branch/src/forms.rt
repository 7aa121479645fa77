// Normal forms over the variables of a branch.
ghost use Rattle.std.specs.Prelude.{[]};
ghost use Rattle.logic_core.specs.Gives.{Gives, GivesAs};
ghost use Rattle.logic_core.specs.Normal.{normal};
ghost use Rattle.logic_core.specs.Subterm.{replaced};
ghost use Rattle.tableau_branch.specs.Branch.{each};

use logic_core::def::Def;
use logic_core::fault::NormalFault;
use logic_core::normal::normal_over;
use logic_core::replace::replace;
use logic_core::sort::Sort;
use logic_core::term::Term;
use std::alloc::Global;

/// The normal form of a formula with a term replaced. Wide exactly where it leaves 128 bits.
pub fn replaced_form(
    alloc: Global,
    vars: &[Sort],
    defs: &[Def],
    formula: &Term,
    old: &Term,
    new: &Term,
) -> Result<Term, NormalFault>
    ensures { Gives result (normal vars.now defs.now [] (replaced old.now new.now formula.now)) }
{
    let changed = replace(alloc, formula, old, new)?;
    normal_over(alloc, &changed, vars, defs)
}

/// The normal forms of formulas. Wide exactly where one leaves 128 bits.
pub fn normal_forms(
    alloc: Global,
    vars: &[Sort],
    defs: &[Def],
    terms: &[Term],
) -> Result<Vec<Term>, NormalFault>
    ensures { GivesAs (λ v. v.items) result (each (λ t. normal vars.now defs.now [] t) terms.now) }
{
    let mut forms = Vec::new(alloc);
    for term in terms {
        forms.push(normal_over(alloc, term, vars, defs)?)?;
    }
    Ok(forms)
}
