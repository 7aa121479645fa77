// Normal Nots, found once.
ghost use Rattle.std.specs.Prelude.{◌≡◌, ◌<◌, length, IfOk};
ghost use Rattle.logic_core.specs.Junction.{negated};
ghost use Rattle.term_bank.specs.Numbered.{at, Begins};
ghost use Rattle.numbered_facts.specs.Answers.{StandsFor};
ghost use Rattle.numbered_terms.specs.Slots.{AreKept};
ghost use Rattle.numbered_facts.specs.Memos.{IsNegation};

use crate::memo::{keep, kept};
use logic_core::NormalFault;
use numbered_forms::negation::negated;
use numbered_terms::Terms;
use numbered_terms::slots::Slots;
use std::alloc::AllocError;
use term_bank::TermId;

// The normal Not of a normal formula, where it stays in 128 bits.
fn negation_of(terms: &mut Terms, id: TermId) -> Result<Option<TermId>, AllocError>
    requires { id < length terms.old }
    ensures grows { Begins terms.old terms.new }
    ensures gives { IfOk result (λ o. StandsFor terms.new o (negated (at terms.old id))) }
{
    match negated(terms, id) {
        Ok(negation) => Ok(Some(negation)),
        Err(NormalFault::Wide) => Ok(None),
        Err(NormalFault::Memory) => Err(AllocError),
    }
}

/// The same, which is kept.
pub(crate) fn negation(
    terms: &mut Terms,
    negations: &mut Slots<Option<TermId>>,
    id: TermId,
) -> Result<Option<TermId>, AllocError>
    requires id { id < length terms.old }
    requires right { AreKept (IsNegation terms.old) negations.old.slots.items }
    ensures grows { Begins terms.old terms.new }
    ensures right { AreKept (IsNegation terms.new) negations.new.slots.items }
    ensures gives { IfOk result (λ o. StandsFor terms.new o (negated (at terms.old id))) }
{
    if let Some(found) = kept(negations, id) {
        return Ok(found);
    }
    let negation = negation_of(terms, id)?;
    keep(negations, id, &negation)?;
    Ok(negation)
}
