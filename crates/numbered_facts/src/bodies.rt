// Numbers of terms, and bodies of definitions, numbered once.
ghost use Rattle.std.specs.Prelude.{◌≡◌, Some, option_map, slice_get, IfOk};
ghost use Rattle.term_bank.specs.Numbered.{Begins};
ghost use Rattle.numbered_terms.specs.At.{IsAt};
ghost use Rattle.numbered_terms.specs.Slots.{AreKept};
ghost use Rattle.numbered_facts.specs.Answers.{StandsFor};
ghost use Rattle.numbered_facts.specs.Memos.{IsBody};

use crate::memo::{keep, kept};
use logic_core::{Def, Term};
use numbered_terms::Terms;
use numbered_terms::number::number;
use numbered_terms::slots::Slots;
use std::alloc::AllocError;
use term_bank::TermId;

/// The number of a term.
pub(crate) fn number_at(terms: &mut Terms, term: &Term) -> Result<TermId, AllocError>
    ensures grows { Begins terms.old terms.new }
    ensures gives { IfOk result (λ i. IsAt terms.new i term.now) }
{
    let id = number(terms, term)?;
    terms.are_stored();
    Ok(id)
}

// The number of a definition's body.
fn body_of(terms: &mut Terms, def: &Def) -> Result<TermId, AllocError>
    ensures grows { Begins terms.old terms.new }
    ensures gives { IfOk result (λ i. IsAt terms.new i def.now.body) }
{
    number_at(terms, &def.body)
}

// The number of the body of a definition, which is kept.
fn kept_body(
    terms: &mut Terms,
    bodies: &mut Slots<Option<TermId>>,
    defs: &[Def],
    place: TermId,
    def: &Def,
) -> Result<Option<TermId>, AllocError>
    requires there { slice_get defs.now place ≡ Some def.now }
    requires right { AreKept (IsBody terms.old defs.now) bodies.old.slots.items }
    ensures grows { Begins terms.old terms.new }
    ensures right { AreKept (IsBody terms.new defs.now) bodies.new.slots.items }
    ensures gives { IfOk result (λ o. StandsFor terms.new o (Some def.now.body)) }
{
    let _count = defs.len();
    if let Some(found) = kept(bodies, place) {
        return Ok(found);
    }
    let id = body_of(terms, def)?;
    let body = Some(id);
    keep(bodies, place, &body)?;
    Ok(body)
}

/// The number of the body of the definition of this number, where there is one. It is kept.
pub(crate) fn body(
    terms: &mut Terms,
    bodies: &mut Slots<Option<TermId>>,
    defs: &[Def],
    number: u64,
) -> Result<Option<TermId>, AllocError>
    requires right { AreKept (IsBody terms.old defs.now) bodies.old.slots.items }
    ensures grows { Begins terms.old terms.new }
    ensures right { AreKept (IsBody terms.new defs.now) bodies.new.slots.items }
    ensures gives { IfOk result (λ o. StandsFor terms.new o (option_map (λ d. d.body) (slice_get defs.now number))) }
{
    let number = number as usize;
    match defs.get(number) {
        Some(def) => kept_body(terms, bodies, defs, TermId { number }, def),
        None => Ok(None),
    }
}
