// Left sides, found once.
ghost use Rattle.std.specs.Prelude.{◌≡◌, ◌<◌, length, IfOk};
ghost use Rattle.tableau_branch.specs.Oriented.{left_side};
ghost use Rattle.term_bank.specs.Numbered.{at};
ghost use Rattle.numbered_facts.specs.Answers.{StandsFor};
ghost use Rattle.numbered_terms.specs.Slots.{AreKept};
ghost use Rattle.numbered_facts.specs.Memos.{IsLeft, IsSort};

use crate::left::left_side;
use crate::memo::{keep, kept};
use logic_core::{Def, Sort};
use numbered_terms::Terms;
use numbered_terms::slots::Slots;
use std::alloc::AllocError;
use term_bank::TermId;

/// The left side of a fact, which is kept.
pub(crate) fn left(
    terms: &Terms,
    lefts: &mut Slots<Option<TermId>>,
    sorts: &mut Slots<Option<Sort>>,
    vars: &[Sort],
    defs: &[Def],
    fact: TermId,
) -> Result<Option<TermId>, AllocError>
    requires fact { fact < length terms.now }
    requires right { AreKept (IsLeft (record { terms = terms.now; vars = vars.now; defs = defs.now })) lefts.old.slots.items }
    requires sorts { AreKept (IsSort (record { terms = terms.now; vars = vars.now; defs = defs.now })) sorts.old.slots.items }
    ensures right { AreKept (IsLeft (record { terms = terms.now; vars = vars.now; defs = defs.now })) lefts.new.slots.items }
    ensures sorts { AreKept (IsSort (record { terms = terms.now; vars = vars.now; defs = defs.now })) sorts.new.slots.items }
    ensures gives { IfOk result (λ o. StandsFor terms.now o (left_side vars.now defs.now (at terms.now fact))) }
{
    if let Some(found) = kept(lefts, fact) {
        return Ok(found);
    }
    let side = left_side(terms, sorts, vars, defs, fact)?;
    keep(lefts, fact, &side)?;
    Ok(side)
}
