// Normal forms of several formulas.
ghost use Rattle.std.specs.Prelude.{◌≡◌, ◌<◌, [], length, map};
ghost use Rattle.std.specs.List.{AllByRecursion};
ghost use Rattle.logic_core.specs.Normal.{normal};
ghost use Rattle.term_bank.specs.Numbered.{at};
ghost use Rattle.tableau_branch.specs.Branch.{each};
ghost use Rattle.numbered_terms.specs.Stored.{Grows};
ghost use Rattle.numbered_logic.specs.Forms.{GiveAt};

use logic_core::NormalFault;
use numbered_facts::Store;
use term_bank::TermId;

/// The normal forms of formulas. Wide exactly where one leaves 128 bits.
pub fn normal_forms(store: &mut Store, ids: &[TermId]) -> Result<Vec<TermId>, NormalFault>
    requires { AllByRecursion (λ i. i < length store.old.terms) ids.now }
    ensures grows { Grows store.old store.new }
    ensures forms { GiveAt store.new.terms result (each (λ t. normal store.old.vars store.old.defs [] t) (map (at store.old.terms) ids.now)) }
{
    let mut forms = Vec::new(store.alloc());
    for id in ids {
        let form = store.normal(*id)?;
        forms.push(form)?;
    }
    Ok(forms)
}
