// Numbers for the terms in a term, the parts before the whole.
ghost use Rattle.std.specs.Prelude.{◌≡◌, ◌<◌, length, OnOk, IfOk};
ghost use Rattle.logic_core.specs.View.{trees_of, patterns_of};
ghost use Rattle.term_bank.specs.Numbered.{at, with_whole, with_each, with_patterns, Begins, IsNumber, AreNumbers, AreLists};
ghost use Rattle.term_bank.specs.Numbering.{Extends};
ghost use Rattle.term_bank.specs.Standing.{triggers, row_of};

use crate::made::node_of;
use crate::node::TermId;
use crate::places::{Way, part_of, row_len, trigger_count};
use crate::table::Table;
use logic_core::Term;
use std::alloc::AllocError;

impl Table {
    /// The number of a term, which gets a place of its own. The terms in it get numbers before it.
    pub fn number_whole(&mut self, term: &Term) -> Result<TermId, AllocError>
        ensures terms { OnOk result (self.new.terms ≡ with_whole self.old.terms term.now) }
        ensures number { IfOk result (λ i. IsNumber self.new.terms i term.now) }
        ensures kept { Begins self.old.terms self.new.terms }
    {
        let copy = term.copy(self.alloc())?;
        let place = self.place_whole(copy)?;
        let id = self.number(term, place)?;
        Ok(id)
    }

    /// The number of a term that stands at a place. The terms in it get numbers before it.
    #[cycle(number)]
    #[tactic(none)]
    pub fn number(&mut self, term: &Term, place: usize) -> Result<TermId, AllocError>
        requires within { place < length self.old.standing }
        requires stands { at self.old.standing place ≡ term.now }
        ensures { Extends (λ ts i. IsNumber ts i term.now) self.old self.new (with_whole self.old.terms term.now) result }
    {
        let lists = self.number_lists(term, place)?;
        let parts = self.number_row(term, place, None)?;
        let node = node_of(self.alloc(), term, parts, lists)?;
        let id = self.add(node, term, place)?;
        Ok(id)
    }

    // The numbers of the direct parts of the term at a place, or of the terms of its trigger.
    #[cycle(number)]
    #[tactic(none)]
    fn number_row(
        &mut self,
        term: &Term,
        of: usize,
        pattern: Option<usize>,
    ) -> Result<Vec<TermId>, AllocError>
        requires within { of < length self.old.standing }
        requires stands { at self.old.standing of ≡ term.now }
        ensures { Extends (λ ts v. AreNumbers ts v.items (row_of term.now pattern)) self.old self.new (with_each self.old.terms (trees_of (row_of term.now pattern))) result }
    {
        let mut numbers = Vec::new(self.alloc());
        for item in 0..row_len(term, pattern) {
            let way = Way { pattern, item };
            let place = self.place_part(of, way)?;
            let number = self.number(part_of(term, way), place)?;
            numbers.push(number)?;
        }
        Ok(numbers)
    }

    // The numbers of the terms of each trigger of the term at a place.
    #[cycle(number)]
    #[tactic(none)]
    fn number_lists(&mut self, term: &Term, of: usize) -> Result<Vec<Vec<TermId>>, AllocError>
        requires within { of < length self.old.standing }
        requires stands { at self.old.standing of ≡ term.now }
        ensures { Extends (λ ts v. AreLists ts v.items (triggers term.now)) self.old self.new (with_patterns self.old.terms (patterns_of (triggers term.now))) result }
    {
        let mut lists = Vec::new(self.alloc());
        for pattern in 0..trigger_count(term) {
            let row = self.number_row(term, of, Some(pattern))?;
            lists.push(row)?;
        }
        Ok(lists)
    }
}
