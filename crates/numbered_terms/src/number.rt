// Numbers for the terms in a term, the parts before the whole.
ghost use Rattle.std.specs.Prelude.{◌≡◌, IfOk};
ghost use Rattle.term_bank.specs.Numbered.{Begins, IsNumber, AreNumbers, AreLists};
ghost use Rattle.term_bank.specs.Standing.{triggers, row_of};

use crate::terms::Terms;
use logic_core::Term;
use std::alloc::AllocError;
use term_bank::TermId;
use term_bank::made::node_of;
use term_bank::places::{Way, part_of, row_len, trigger_count};

/// The number of a term. The terms in it get numbers before it.
#[cycle(number)]
pub fn number(terms: &mut Terms, term: &Term) -> Result<TermId, AllocError>
    ensures grows { Begins terms.old terms.new }
    ensures number { IfOk result (λ i. IsNumber terms.new i term.now) }
{
    let lists = number_lists(terms, term)?;
    let parts = number_row(terms, term, None)?;
    let node = node_of(terms.alloc(), term, parts, lists)?;
    let made = terms.make(node)?;
    terms.are_stored();
    Ok(made)
}

// The numbers of the direct parts of the term, or of the terms of its trigger.
#[cycle(number)]
fn number_row(
    terms: &mut Terms,
    term: &Term,
    pattern: Option<usize>,
) -> Result<Vec<TermId>, AllocError>
    ensures grows { Begins terms.old terms.new }
    ensures numbers { IfOk result (λ v. AreNumbers terms.new v.items (row_of term.now pattern)) }
{
    let mut numbers = Vec::new(terms.alloc());
    for item in 0..row_len(term, pattern) {
        let way = Way { pattern, item };
        let id = number(terms, part_of(term, way))?;
        numbers.push(id)?;
    }
    Ok(numbers)
}

// The numbers of the terms of each trigger of the term.
#[cycle(number)]
fn number_lists(terms: &mut Terms, term: &Term) -> Result<Vec<Vec<TermId>>, AllocError>
    ensures grows { Begins terms.old terms.new }
    ensures numbers { IfOk result (λ v. AreLists terms.new v.items (triggers term.now)) }
{
    let mut lists = Vec::new(terms.alloc());
    for pattern in 0..trigger_count(term) {
        let row = number_row(terms, term, Some(pattern))?;
        lists.push(row)?;
    }
    Ok(lists)
}
