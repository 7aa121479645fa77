// The tuples of a fact's triggers, by number.
ghost use Rattle.std.specs.Prelude.{◌≡◌, ◌<◌, length, IfOk};
ghost use Rattle.std.specs.List.{AllByRecursion};
ghost use Rattle.logic_core.specs.View.{patterns_of};
ghost use Rattle.term_bank.specs.Numbered.{at};
ghost use Rattle.term_bank.specs.Node.{in_lists};
ghost use Rattle.numbered_terms.specs.Lists.{terms_at, lists_at};
ghost use Rattle.numbered_instances.specs.Instances.{tuples_by, tuples_in};
ghost use Rattle.numbered_instances.specs.Passed.{FindOne};

use crate::trigger::push_matches;
use logic_core::{Def, Sort};
use numbered_terms::Terms;
use numbered_terms::number_set::NumberSet;
use std::alloc::AllocError;
use term_bank::{Node, TermId};

// The tuples of the triggers in order, as far as the first new one is found among them.
fn tuples_by(
    terms: &Terms,
    vars: &[Sort],
    defs: &[Def],
    ground: &[TermId],
    passed: &NumberSet,
    sorts: &[Sort],
    triggers: &[Vec<TermId>],
) -> Result<Vec<Vec<TermId>>, AllocError>
    requires ground { AllByRecursion (λ j. j < length terms.now) ground.now }
    requires triggers { AllByRecursion (λ j. j < length terms.now) (in_lists triggers.now) }
    ensures tuples { IfOk result (λ v. FindOne terms.now passed.now (lists_at terms.now v.items) (tuples_by vars.now defs.now sorts.now (terms_at terms.now ground.now) (patterns_of (lists_at terms.now triggers.now)))) }
    ensures within { IfOk result (λ v. AllByRecursion (λ j. j < length terms.now) (in_lists v.items)) }
{
    let mut tuples = Vec::new(terms.alloc());
    for trigger in triggers {
        push_matches(
            terms,
            trigger,
            sorts,
            vars,
            defs,
            ground,
            passed,
            &mut tuples,
        )?;
    }
    Ok(tuples)
}

/// The tuples of the triggers of a fact that is a ForAll, in order, as far as the first new one is found
/// among them; none of another fact.
pub fn tuples_of(
    terms: &Terms,
    vars: &[Sort],
    defs: &[Def],
    ground: &[TermId],
    passed: &NumberSet,
    fact: TermId,
) -> Result<Vec<Vec<TermId>>, AllocError>
    requires ground { AllByRecursion (λ j. j < length terms.now) ground.now }
    requires fact { fact < length terms.now }
    ensures tuples { IfOk result (λ v. FindOne terms.now passed.now (lists_at terms.now v.items) (tuples_in vars.now defs.now (terms_at terms.now ground.now) (at terms.now fact))) }
    ensures within { IfOk result (λ v. AllByRecursion (λ j. j < length terms.now) (in_lists v.items)) }
{
    match terms.node(fact) {
        Node::ForAll(sorts, triggers, _) => tuples_by(
            terms, vars, defs, ground, passed, sorts, triggers,
        ),
        _ => Ok(Vec::new(terms.alloc())),
    }
}
