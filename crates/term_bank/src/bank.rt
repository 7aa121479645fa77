// Banks of shared terms.
ghost use Rattle.std.specs.Prelude.{◌≡◌, ◌<◌, [], Some, length, IfOk, OnOk, OnErr};
ghost use Rattle.std.specs.List.{AllByRecursion};
ghost use Rattle.term_bank.specs.Numbered.{at, number_of, interned, Begins};
ghost use Rattle.term_bank.specs.Node.{tree_over, numbers_in};

use crate::node::{Node, TermId};
use crate::table::Table;
use logic_core::Term;
use std::alloc::{AllocError, Global};
use std::marker::Model;

/// Distinct terms by number. A term has one number, and a number that was given keeps its term.
#[derive(Drop)]
pub struct Bank {
    table: Table,
}

impl Model for Bank {
    ghost use Rattle.std.specs.Prelude.{List};
    ghost use Rattle.std.specs.Coded.{coded_list};
    ghost use Rattle.logic_core.specs.Tree.{Tree};
    ghost use Rattle.logic_core.specs.Codes.{coded_tree};

    ghost Value = { List Tree };

    ghost coded = { coded_list coded_tree };

    ghost view = { λ a. a.table.terms };
}

impl Bank {
    /// A bank without terms. It keeps the allocator.
    pub fn new(alloc: Global) -> Bank
        ensures { result ≡ [] }
    {
        Bank {
            table: Table::new(alloc),
        }
    }

    /// The number of terms, which are those of the numbers below it.
    pub fn len(&self) -> usize
        ensures { result ≡ length self.now }
    {
        self.table.len()
    }

    /// The number of the term. A new term joins the bank behind the terms in it that are new.
    /// Without memory the bank is as before.
    #[tactic(auto, using(crate::proofs::Numbers::interned_there, crate::proofs::Numbers::interned_new, crate::proofs::Numbers::begins_same, crate::proofs::Numbers::begins_back))]
    pub fn intern(&mut self, term: &Term) -> Result<TermId, AllocError>
        ensures terms { OnOk result (self.new ≡ interned self.old term.now) }
        ensures number { IfOk result (λ i. number_of self.new term.now ≡ Some i) }
        ensures kept { Begins self.old self.new }
        ensures memory { OnErr result (self.new ≡ self.old) }
    {
        if let Some(found) = self.table.find(term) {
            return Ok(found);
        }
        let before = self.table.len();
        match self.table.number_whole(term) {
            Ok(id) => Ok(id),
            Err(error) => {
                self.table.truncate(before);
                Err(error)
            }
        }
    }

    /// The term of a number.
    pub fn term(&self, id: TermId) -> &Term
        requires { id < length self.now }
        ensures term { result.now ≡ at self.now id }
        ensures one_number { number_of self.now result.now ≡ Some id }
    {
        self.table.term(id)
    }

    /// The node of a number. Its parts have lower numbers.
    pub fn node(&self, id: TermId) -> &Node
        requires { id < length self.now }
        ensures node { tree_over (at self.now) result.now ≡ at self.now id }
        ensures lower { AllByRecursion (λ j. j < id) (numbers_in result.now) }
    {
        self.table.node(id)
    }

    /// The number of the term. None exactly where it isn't there.
    pub fn lookup(&self, term: &Term) -> Option<TermId>
        ensures { result ≡ number_of self.now term.now }
    {
        self.table.find(term)
    }
}
