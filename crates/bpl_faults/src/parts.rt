// What an expression may have several of, in the order of the text: operands, terms of a sum, indices,
// arguments and triggers.
ghost use Rattle.std.specs.Prelude.{◌≡◌, [], ◌∷◌, IfOk, OnOk, drop, slice_get};
ghost use Rattle.bpl_ast.specs.ExprView.{exprs_of, terms_of, indices_of, triggers_of};
ghost use Rattle.bpl_scopes.specs.Fault.{earlier, first_fault};
ghost use Rattle.bpl_scopes.specs.Sorts.{sort_in, sorts_in, all_are, are_same, are_ints, are_patterns, all_known, indices_sort};
ghost use Rattle.bpl_scopes.specs.Shape.{kind_of, kind_seen};
ghost use Rattle.bpl_scopes.specs.KnownSorts.{shapes_seen};
ghost use Rattle.bpl_faults.specs.ExprFaults.{operand_faults, argument_faults, term_faults, index_faults, trigger_faults, pattern_faults};
ghost use Rattle.bpl_faults.specs.Arguments.{argument_fits, one_argument_faults, texts_seen};
ghost use Rattle.bpl_faults.specs.ScopeView.{scope_seen};

use crate::name_faults::{note_map, note_same_sort};
use crate::patterns::is_trigger;
use crate::scope::Scope;
use crate::sorts::{entry_sort, is_same, read_sort, write_sort};
use bpl_ast::{Expr, Index, Term, Trigger};
use bpl_scopes::{Faults, Shape, TypeKind};
use bv_base::place::Place;
use std::alloc::{AllocError, Global};

// The sorts behind the first.
fn tail(sorts: &[Option<Shape>]) -> &[Option<Shape>]
    ensures { result.now ≡ drop 1 sorts.now }
{
    match sorts.split_first() {
        Some((_, rest)) => rest,
        None => sorts,
    }
}

impl<'s, 'a> Scope<'s, 'a> {
    // Whether all operands have that sort.
    #[cycle(exprs)]
    #[tactic(auto, using(bpl_scopes::proofs::FirstFault::joins))]
    pub(crate) fn operands(
        &self,
        alloc: Global,
        is_formula: bool,
        wanted: Shape,
        xs: &'a [Expr],
        faults: &mut Faults,
    ) -> Result<bool, AllocError>
        ensures sorts { IfOk result (λ b. b ≡ all_are (kind_of wanted) (sorts_in (scope_seen self.now) (exprs_of xs.now))) }
        ensures faults { OnOk result (faults.new.first ≡ earlier faults.old.first (first_fault (operand_faults (scope_seen self.now) is_formula (kind_of wanted) (exprs_of xs.now)))) }
    {
        let mut all = true;
        for x in xs {
            let fits = self.expr_as(alloc, is_formula, wanted, x, faults)?;
            all = all && fits;
        }
        Ok(all)
    }

    #[cycle(exprs)]
    fn term(&self, alloc: Global, term: &'a Term, faults: &mut Faults) -> Result<bool, AllocError>
        ensures sort { IfOk result (λ b. b ≡ are_ints (scope_seen self.now) (terms_of (term.now ∷ []))) }
        ensures faults { OnOk result (faults.new.first ≡ earlier faults.old.first (first_fault (term_faults (scope_seen self.now) (terms_of (term.now ∷ []))))) }
    {
        match term {
            Term::Plus(x) => self.expr_as(alloc, false, Shape::int(), x, faults),
            Term::Less(x) => self.expr_as(alloc, false, Shape::int(), x, faults),
        }
    }

    #[cycle(exprs)]
    #[tactic(auto, using(bpl_scopes::proofs::FirstFault::joins))]
    pub(crate) fn terms(
        &self,
        alloc: Global,
        terms: &'a [Term],
        faults: &mut Faults,
    ) -> Result<bool, AllocError>
        ensures sorts { IfOk result (λ b. b ≡ are_ints (scope_seen self.now) (terms_of terms.now)) }
        ensures faults { OnOk result (faults.new.first ≡ earlier faults.old.first (first_fault (term_faults (scope_seen self.now) (terms_of terms.now)))) }
    {
        let mut all = true;
        for term in terms {
            let fits = self.term(alloc, term, faults)?;
            all = all && fits;
        }
        Ok(all)
    }

    // The sort after an index of what begins there.
    #[cycle(exprs)]
    #[tactic(auto, using(bpl_scopes::proofs::FirstFault::joins))]
    fn index(
        &self,
        alloc: Global,
        at: Place,
        map: Option<Shape>,
        index: &'a Index,
        faults: &mut Faults,
    ) -> Result<Option<Shape>, AllocError>
        ensures sort { IfOk result (λ r. kind_seen r ≡ indices_sort (scope_seen self.now) (kind_seen map) (indices_of (index.now ∷ []))) }
        ensures faults { OnOk result (faults.new.first ≡ earlier faults.old.first (first_fault (index_faults (scope_seen self.now) at (kind_seen map) (indices_of (index.now ∷ []))))) }
    {
        note_map(faults, map, at);
        match index {
            Index::Read(x) => {
                let is_int = self.expr_as(alloc, false, Shape::int(), x, faults)?;
                Ok(read_sort(map, is_int))
            }
            Index::Write(x, y) => {
                let is_int = self.expr_as(alloc, false, Shape::int(), x, faults)?;
                let value = self.expr(alloc, false, y, faults)?;
                note_same_sort(faults, entry_sort(map), value, y.at);
                Ok(write_sort(map, is_int, value))
            }
        }
    }

    #[cycle(exprs)]
    #[tactic(auto, using(bpl_scopes::proofs::FirstFault::joins))]
    pub(crate) fn indices(
        &self,
        alloc: Global,
        at: Place,
        map: Option<Shape>,
        indices: &'a [Index],
        faults: &mut Faults,
    ) -> Result<Option<Shape>, AllocError>
        ensures sort { IfOk result (λ r. kind_seen r ≡ indices_sort (scope_seen self.now) (kind_seen map) (indices_of indices.now)) }
        ensures faults { OnOk result (faults.new.first ≡ earlier faults.old.first (first_fault (index_faults (scope_seen self.now) at (kind_seen map) (indices_of indices.now)))) }
    {
        let mut sort = map;
        for index in indices {
            sort = self.index(alloc, at, sort, index, faults)?;
        }
        Ok(sort)
    }

    /// Whether arguments have these sorts, and are as many.
    #[cycle(exprs)]
    #[tactic(auto, using(bpl_scopes::proofs::FirstFault::joins))]
    pub fn arguments(
        &self,
        alloc: Global,
        sorts: &[Option<Shape>],
        xs: &'a [Expr],
        faults: &mut Faults,
    ) -> Result<bool, AllocError>
        ensures sorts { IfOk result (λ b. b ≡ are_same (shapes_seen sorts.now) (sorts_in (scope_seen self.now) (exprs_of xs.now))) }
        ensures faults { OnOk result (faults.new.first ≡ earlier faults.old.first (first_fault (argument_faults (scope_seen self.now) (shapes_seen sorts.now) (exprs_of xs.now)))) }
    {
        let mut all = true;
        let mut rest = sorts;
        for x in xs {
            let fits = self.argument(alloc, rest, x, faults)?;
            all = all && fits;
            rest = tail(rest);
        }
        Ok(all && rest.is_empty())
    }

    // Whether an argument has the first of these sorts, where there is one.
    #[cycle(exprs)]
    #[tactic(auto, using(bpl_scopes::proofs::FirstFault::joins))]
    fn argument(
        &self,
        alloc: Global,
        sorts: &[Option<Shape>],
        x: &'a Expr,
        faults: &mut Faults,
    ) -> Result<bool, AllocError>
        ensures sort { IfOk result (λ b. b ≡ argument_fits (slice_get sorts.now 0) (sort_in (scope_seen self.now) x.now)) }
        ensures faults { OnOk result (faults.new.first ≡ earlier faults.old.first (first_fault (one_argument_faults (scope_seen self.now) (slice_get sorts.now 0) x.now))) }
    {
        let found = self.expr(alloc, false, x, faults)?;
        match sorts.first() {
            Some(wanted) => {
                note_same_sort(faults, *wanted, found, x.at);
                Ok(is_same(*wanted, found))
            }
            None => Ok(false),
        }
    }

    // Whether each pattern has a sort.
    #[cycle(exprs)]
    #[tactic(auto, using(bpl_scopes::proofs::FirstFault::joins))]
    pub(crate) fn triggers(
        &self,
        alloc: Global,
        variables: &[&[u8]],
        triggers: &'a [Trigger],
        faults: &mut Faults,
    ) -> Result<bool, AllocError>
        ensures sorts { IfOk result (λ b. b ≡ are_patterns (scope_seen self.now) (triggers_of triggers.now)) }
        ensures faults { OnOk result (faults.new.first ≡ earlier faults.old.first (first_fault (trigger_faults (scope_seen self.now) (texts_seen variables.now) (triggers_of triggers.now)))) }
    {
        let mut all = true;
        for trigger in triggers {
            let is_built = is_trigger(variables, &trigger.patterns);
            faults.note_unless(is_built, TypeKind::Trigger, trigger.at);
            let known = self.patterns(alloc, &trigger.patterns, faults)?;
            all = all && known;
        }
        Ok(all)
    }

    #[cycle(exprs)]
    #[tactic(auto, using(bpl_scopes::proofs::FirstFault::joins))]
    fn patterns(
        &self,
        alloc: Global,
        xs: &'a [Expr],
        faults: &mut Faults,
    ) -> Result<bool, AllocError>
        ensures sorts { IfOk result (λ b. b ≡ all_known (sorts_in (scope_seen self.now) (exprs_of xs.now))) }
        ensures faults { OnOk result (faults.new.first ≡ earlier faults.old.first (first_fault (pattern_faults (scope_seen self.now) (exprs_of xs.now)))) }
    {
        let mut all = true;
        for x in xs {
            let sort = self.expr(alloc, false, x, faults)?;
            all = all && sort.is_some();
        }
        Ok(all)
    }
}
