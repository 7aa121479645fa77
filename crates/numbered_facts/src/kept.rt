// What a search leaves for the next.
ghost use Rattle.std.specs.Prelude.{◌≡◌, map, IfOk, IfSome};
ghost use Rattle.numbered_facts.specs.Alike.{head_of};

use crate::heads::{heads, same_heads};
use crate::replacements::Replacement;
use crate::standing::Standing;
use crate::store::Store;
use crate::width::{agree, width_of};
use logic_core::copy::copy_sorts;
use logic_core::{Def, Sort};
use numbered_terms::Terms;
use numbered_terms::slots::Slots;
use std::alloc::AllocError;
use std::marker::Model;
use term_bank::TermId;

// Of more terms nothing is kept: what is listed by the numbers of terms grows with them.
const MOST: usize = 16_384;

/// The terms of a store and what was found of them, over its variables and its definitions without
/// their bodies.
pub struct Kept {
    terms: Terms,
    vars: Vec<Sort>,
    heads: Vec<Def>,
    forms: Slots<TermId>,
    lefts: Slots<Option<TermId>>,
    negations: Slots<Option<TermId>>,
    atoms: Slots<Vec<TermId>>,
    standing: Slots<Standing>,
    sorts: Slots<Option<Sort>>,
    replacements: Slots<Replacement>,
    tights: Slots<TermId>,
    // The variables in the terms stand below this number.
    width: u128,
}

impl Model for Kept {
    ghost use Rattle.numbered_terms.specs.Stored.{Numbered};
    ghost use Rattle.numbered_facts.specs.Codes.{coded_numbered};

    ghost Value = { Numbered };

    ghost coded = { coded_numbered };

    ghost use Rattle.std.specs.Prelude.{[], length};
    ghost use Rattle.numbered_facts.specs.Alike.{AreBelow};
    ghost use Rattle.numbered_facts.specs.Memos.{AreMemos};

    ghost view = { λ a. record { terms = a.terms; vars = a.vars.items; defs = a.heads.items } };

    ghost invariant = { λ a. AreMemos (record { terms = a.terms; vars = a.vars.items; defs = a.heads.items }) a.forms.slots.items a.lefts.slots.items a.negations.slots.items a.atoms.slots.items a.standing.slots.items [] a.sorts.slots.items a.replacements.slots.items a.tights.slots.items × AreBelow a.terms (length a.terms) a.width };
}

// Written out: a derived drop is proved again wherever a value is dropped.
impl Drop for Kept {
    fn drop(self) {
        let Kept {
            terms: _terms,
            vars: _vars,
            heads: _heads,
            forms: _forms,
            lefts: _lefts,
            negations: _negations,
            atoms: _atoms,
            standing: _standing,
            sorts: _sorts,
            replacements: _replacements,
            tights: _tights,
            width: _,
        } = self;
    }
}

// Lets it go.
fn discard(_kept: Kept) {}

// Lets a store go.
fn discard_store(_store: Store<'_>) {}

impl Kept {
    /// What the store leaves. None where it has too many terms.
    pub fn of(store: Store<'_>) -> Result<Option<Kept>, AllocError>
        ensures terms { IfOk result (λ o. IfSome o (λ k. k.terms ≡ store.entry.terms)) }
        ensures vars { IfOk result (λ o. IfSome o (λ k. k.vars ≡ store.entry.vars)) }
        ensures heads { IfOk result (λ o. IfSome o (λ k. map head_of k.defs ≡ map head_of store.entry.defs)) }
    {
        if store.terms.len() > MOST {
            discard_store(store);
            return Ok(None);
        }
        let heads = heads(store.terms.alloc(), store.defs)?;
        let width = width_of(&store.terms, store.counted, store.width);
        let Store {
            terms,
            vars,
            defs: _,
            forms,
            lefts,
            negations,
            atoms,
            standing,
            bodies: _bodies,
            sorts,
            replacements,
            tights,
            counted: _,
            width: _,
        } = store;
        Ok(Some(Kept {
            terms,
            vars,
            heads,
            forms,
            lefts,
            negations,
            atoms,
            standing,
            sorts,
            replacements,
            tights,
            width,
        }))
    }

    /// The store over these variables and definitions that begins with what was kept. None where that
    /// need not be right over them.
    pub fn store<'a>(self, vars: &[Sort], defs: &'a [Def]) -> Result<Option<Store<'a>>, AllocError>
        ensures { IfOk result (λ o. IfSome o (λ s. s ≡ record { terms = self.terms; vars = vars.now; defs = defs.now })) }
    {
        if !agree(&self.vars, vars, self.width) {
            discard(self);
            return Ok(None);
        }
        if !same_heads(&self.heads, defs) {
            discard(self);
            return Ok(None);
        }
        let vars = copy_sorts(self.terms.alloc(), vars)?;
        let Kept {
            terms,
            vars: _vars,
            heads: _heads,
            forms,
            lefts,
            negations,
            atoms,
            standing,
            sorts,
            replacements,
            tights,
            width,
        } = self;
        let counted = terms.len();
        let bodies = Slots::new(terms.alloc());
        Ok(Some(Store {
            terms,
            vars,
            defs,
            forms,
            lefts,
            negations,
            atoms,
            standing,
            bodies,
            sorts,
            replacements,
            tights,
            counted,
            width,
        }))
    }
}
