// Normal forms, and terms that are made of terms.
ghost use Rattle.std.specs.Prelude.{◌≡◌, ◌<◌, [], length, IfOk};
ghost use Rattle.std.specs.List.{AllByRecursion};
ghost use Rattle.logic_core.specs.Normal.{normal};
ghost use Rattle.logic_core.specs.Junction.{negated};
ghost use Rattle.logic_core.specs.Subterm.{replaced};
ghost use Rattle.logic_core.specs.Substitute.{substitute};
ghost use Rattle.logic_core.specs.Tighten.{tighten};
ghost use Rattle.term_bank.specs.Numbered.{at};
ghost use Rattle.numbered_terms.specs.At.{IsAt, GivesAt};
ghost use Rattle.numbered_terms.specs.Lists.{terms_at};
ghost use Rattle.numbered_terms.specs.Stored.{Grows};
ghost use Rattle.numbered_facts.specs.Answers.{StandsFor};

use crate::negations::negation;
use crate::replacements::with_replaced;
use crate::store::Store;
use crate::tights::tight;
use logic_core::NormalFault;
use numbered_forms::normal::normal_over;
use numbered_forms::substitute::substitute;
use std::alloc::AllocError;
use term_bank::TermId;

impl<'a> Store<'a> {
    /// The normal form of a term. Wide exactly where a number leaves 128 bits.
    pub fn normal(&mut self, id: TermId) -> Result<TermId, NormalFault>
        requires { id < length self.old.terms }
        ensures grows { Grows self.old self.new }
        ensures gives { GivesAt self.new.terms result (normal self.old.vars self.old.defs [] (at self.old.terms id)) }
    {
        normal_over(&mut self.terms, &mut self.forms, &self.vars, self.defs, id)
    }

    /// The term with every occurrence of the old one, inside quantifiers and triggers too, replaced by
    /// the new one.
    pub fn replaced(&mut self, old: TermId, new: TermId, id: TermId) -> Result<TermId, AllocError>
        requires old { old < length self.old.terms }
        requires new { new < length self.old.terms }
        requires id { id < length self.old.terms }
        ensures grows { Grows self.old self.new }
        ensures gives { IfOk result (λ i. IsAt self.new.terms i (replaced (at self.old.terms old) (at self.old.terms new) (at self.old.terms id))) }
    {
        with_replaced(&mut self.terms, &mut self.replacements, old, new, id)
    }

    /// The normal form of the same. Wide exactly where a number leaves 128 bits.
    pub fn replaced_form(
        &mut self,
        old: TermId,
        new: TermId,
        id: TermId,
    ) -> Result<TermId, NormalFault>
        requires old { old < length self.old.terms }
        requires new { new < length self.old.terms }
        requires id { id < length self.old.terms }
        ensures grows { Grows self.old self.new }
        ensures gives { GivesAt self.new.terms result (normal self.old.vars self.old.defs [] (replaced (at self.old.terms old) (at self.old.terms new) (at self.old.terms id))) }
    {
        let changed = self.replaced(old, new, id)?;
        self.normal(changed)
    }

    /// A binder's body with these closed terms for the binder's variables, the first for the first.
    pub fn substituted(&mut self, body: TermId, args: &[TermId]) -> Result<TermId, AllocError>
        requires args { AllByRecursion (λ j. j < length self.old.terms) args.now }
        requires body { body < length self.old.terms }
        ensures grows { Grows self.old self.new }
        ensures gives { IfOk result (λ i. IsAt self.new.terms i (substitute (at self.old.terms body) (terms_at self.old.terms args.now))) }
    {
        substitute(&mut self.terms, body, args)
    }

    /// The normal Not of a normal formula, where it stays in 128 bits.
    pub fn negation(&mut self, id: TermId) -> Result<Option<TermId>, AllocError>
        requires { id < length self.old.terms }
        ensures grows { Grows self.old self.new }
        ensures gives { IfOk result (λ o. StandsFor self.new.terms o (negated (at self.old.terms id))) }
    {
        negation(&mut self.terms, &mut self.negations, id)
    }

    /// The fact tightened: where the greatest common divisor of its coefficients is above 1, they are
    /// divided by it.
    pub fn tightened(&mut self, id: TermId) -> Result<TermId, AllocError>
        requires { id < length self.old.terms }
        ensures grows { Grows self.old self.new }
        ensures gives { IfOk result (λ i. IsAt self.new.terms i (tighten (at self.old.terms id))) }
    {
        tight(&mut self.terms, &mut self.tights, id)
    }
}
