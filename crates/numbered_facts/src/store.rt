// The terms of a search by number, with the sorts of the variables and the definitions.
ghost use Rattle.std.specs.Prelude.{◌≡◌, ◌<◌, length, option_map, slice_get, IfOk, OnOk};
ghost use Rattle.std.specs.List.{AllByRecursion};
ghost use Rattle.term_bank.specs.Numbered.{at};
ghost use Rattle.term_bank.specs.Node.{tree_over, numbers_in};
ghost use Rattle.numbered_terms.specs.At.{IsAt};
ghost use Rattle.numbered_terms.specs.Stored.{Grows};
ghost use Rattle.numbered_facts.specs.Answers.{StandsFor};

use crate::bodies::{body, number_at};
use crate::replacements::Replacement;
use crate::standing::Standing;
use crate::width::{agree, width_of};
use logic_core::copy::copy_sorts;
use logic_core::same::equal_sorts;
use logic_core::{Def, Sort, Term};
use numbered_terms::Terms;
use numbered_terms::slots::Slots;
use std::alloc::{AllocError, Global};
use std::marker::Model;
use term_bank::{Node, TermId};

/// Terms by number over variables of these sorts and over definitions. A number that was given keeps
/// its term.
#[derive(Drop)]
pub struct Store<'a> {
    pub(crate) terms: Terms,
    pub(crate) vars: Vec<Sort>,
    pub(crate) defs: &'a [Def],
    pub(crate) forms: Slots<TermId>,
    pub(crate) lefts: Slots<Option<TermId>>,
    pub(crate) negations: Slots<Option<TermId>>,
    pub(crate) atoms: Slots<Vec<TermId>>,
    pub(crate) standing: Slots<Standing>,
    pub(crate) bodies: Slots<Option<TermId>>,
    pub(crate) sorts: Slots<Option<Sort>>,
    pub(crate) replacements: Slots<Replacement>,
    pub(crate) tights: Slots<TermId>,
    // Below which number the variables in so many of the terms stand.
    pub(crate) counted: usize,
    pub(crate) width: u128,
}

impl<'a> Model for Store<'a> {
    ghost use Rattle.numbered_terms.specs.Stored.{Numbered};
    ghost use Rattle.numbered_facts.specs.Codes.{coded_numbered};

    ghost Value = { Numbered };

    ghost coded = { coded_numbered };

    ghost use Rattle.numbered_facts.specs.Alike.{AreCounted};
    ghost use Rattle.numbered_facts.specs.Memos.{AreMemos};

    ghost view = { λ a. record { terms = a.terms; vars = a.vars.items; defs = a.defs.now } };

    ghost invariant = { λ a. AreMemos (record { terms = a.terms; vars = a.vars.items; defs = a.defs.now }) a.forms.slots.items a.lefts.slots.items a.negations.slots.items a.atoms.slots.items a.standing.slots.items a.bodies.slots.items a.sorts.slots.items a.replacements.slots.items a.tights.slots.items × AreCounted a.terms a.counted a.width };
}

impl<'a> Store<'a> {
    /// These terms, variables and definitions.
    pub fn new(terms: Terms, vars: Vec<Sort>, defs: &'a [Def]) -> Store<'a>
        ensures { result ≡ record { terms = terms; vars = vars.items; defs = defs.now } }
    {
        let alloc = terms.alloc();
        Store {
            terms,
            vars,
            defs,
            forms: Slots::new(alloc),
            lefts: Slots::new(alloc),
            negations: Slots::new(alloc),
            atoms: Slots::new(alloc),
            standing: Slots::new(alloc),
            bodies: Slots::new(alloc),
            sorts: Slots::new(alloc),
            replacements: Slots::new(alloc),
            tights: Slots::new(alloc),
            counted: 0,
            width: 0,
        }
    }

    /// The allocator that the store keeps.
    pub fn alloc(&self) -> Global {
        self.terms.alloc()
    }

    /// The terms.
    pub fn terms(&self) -> &Terms
        ensures { result.now ≡ self.now.terms }
    {
        &self.terms
    }

    /// The sorts of the variables.
    pub fn vars(&self) -> &[Sort]
        ensures { result.now ≡ self.now.vars }
    {
        &self.vars
    }

    /// The definitions.
    pub fn defs(&self) -> &[Def]
        ensures { result.now ≡ self.now.defs }
    {
        self.defs
    }

    /// From now on the variables have these sorts.
    pub fn over(&mut self, vars: &[Sort]) -> Result<(), AllocError>
        ensures terms { self.new.terms ≡ self.old.terms }
        ensures vars { OnOk result (self.new ≡ record self.old { vars = vars.now }) }
    {
        if equal_sorts(&self.vars, vars) {
            return Ok(());
        }
        self.width = width_of(&self.terms, self.counted, self.width);
        self.counted = self.terms.len();
        if agree(&self.vars, vars, self.width) {
            self.vars = copy_sorts(self.terms.alloc(), vars)?;
            return Ok(());
        }
        let copies = copy_sorts(self.terms.alloc(), vars)?;
        self.forms = Slots::new(self.terms.alloc());
        self.lefts = Slots::new(self.terms.alloc());
        self.sorts = Slots::new(self.terms.alloc());
        self.vars = copies;
        Ok(())
    }

    /// The number of the node's term. A new term has the next number.
    pub fn make(&mut self, node: Node) -> Result<TermId, AllocError>
        requires { AllByRecursion (λ j. j < length self.old.terms) (numbers_in node) }
        ensures grows { Grows self.old self.new }
        ensures gives { IfOk result (λ i. IsAt self.new.terms i (tree_over (at self.old.terms) node)) }
    {
        self.terms.make(node)
    }

    /// The number of a term.
    pub fn number(&mut self, term: &Term) -> Result<TermId, AllocError>
        ensures grows { Grows self.old self.new }
        ensures gives { IfOk result (λ i. IsAt self.new.terms i term.now) }
    {
        number_at(&mut self.terms, term)
    }

    /// The number of the body of the definition of this number, where there is one.
    pub fn body(&mut self, number: u64) -> Result<Option<TermId>, AllocError>
        ensures grows { Grows self.old self.new }
        ensures gives { IfOk result (λ o. StandsFor self.new.terms o (option_map (λ d. d.body) (slice_get self.old.defs number))) }
    {
        body(&mut self.terms, &mut self.bodies, self.defs, number)
    }
}
