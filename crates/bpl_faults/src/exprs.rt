// The faults and the sort of an expression, in one walk.
ghost use Rattle.std.specs.Prelude.{◌≡◌, ◌&&◌, false, Some, IfOk, OnOk};
ghost use Rattle.logic_terms.specs.Sorts.{is, choice_sort};
ghost use Rattle.logic_terms.specs.Wide.{when};
ghost use Rattle.logic_terms.specs.Tree.{int, boolean};
ghost use Rattle.bpl_ast.specs.Tree.{variable, apply, choose, related, sums, indexed, quantified};
ghost use Rattle.bpl_ast.specs.ExprView.{exprs_of, terms_of, indices_of, triggers_of, groups_of, relation_of, quantifier_of};
ghost use Rattle.bpl_scopes.specs.Fault.{earlier, first_fault};
ghost use Rattle.bpl_scopes.specs.Sorts.{node_sort, sort_in, sorts_in, all_are, are_ints, indices_sort, relation_sort};
ghost use Rattle.bpl_scopes.specs.Shape.{kind_of, kind_seen};
ghost use Rattle.bpl_faults.specs.ExprFaults.{expr_faults, node_faults, operand_faults, faults_as};
ghost use Rattle.bpl_faults.specs.ScopeView.{scope_seen};

use crate::listed::{group_names, note_again, texts_of};
use crate::name_faults::{note_old, note_same_sort, note_sort, note_variable};
use crate::scope::Scope;
use crate::sorts::{choice_sort, note_comparison, relation_sort, when};
use bpl_ast::{
    Expr, ExprForm, Group, Index, Name, Quantifier, Relation, Term, Trigger, TypeParams,
};
use bpl_scopes::{Faults, Shape, TypeKind, is};
use bv_base::place::Place;
use std::alloc::{AllocError, Global};

impl<'s, 'a> Scope<'s, 'a> {
    /// The sort of an expression; its faults are found.
    #[cycle(exprs)]
    #[tactic(auto, using(bpl_scopes::proofs::FirstFault::joins))]
    pub fn expr(
        &self,
        alloc: Global,
        is_formula: bool,
        x: &'a Expr,
        faults: &mut Faults,
    ) -> Result<Option<Shape>, AllocError>
        ensures sort { IfOk result (λ r. kind_seen r ≡ sort_in (scope_seen self.now) x.now) }
        ensures faults { OnOk result (faults.new.first ≡ earlier faults.old.first (first_fault (expr_faults (scope_seen self.now) is_formula x.now))) }
    {
        match &x.form {
            ExprForm::Number(_) => Ok(Some(Shape::int())),
            ExprForm::Truth(_) => Ok(Some(Shape::boolean())),
            ExprForm::Variable(name) => self.variable(name, faults),
            ExprForm::Apply {
                function,
                arguments,
            } => self.application(alloc, is_formula, function, arguments, faults),
            ExprForm::Old { at, value } => {
                note_old(faults, self.part, *at);
                self.expr(alloc, false, value, faults)
            }
            ExprForm::If {
                condition,
                then_value,
                else_value,
            } => self.choice(alloc, condition, then_value, else_value, faults),
            ExprForm::Quantified {
                quantifier,
                at,
                params,
                groups,
                triggers,
                body,
            } => {
                self.quantified(
                    alloc,
                    is_formula,
                    *quantifier,
                    *at,
                    params,
                    groups,
                    triggers,
                    body,
                    faults,
                )
            }
            ExprForm::Iff(xs) => self.junction(alloc, is_formula, xs, faults),
            ExprForm::Implies(xs) => self.junction(alloc, is_formula, xs, faults),
            ExprForm::And(xs) => self.junction(alloc, is_formula, xs, faults),
            ExprForm::Or(xs) => self.junction(alloc, is_formula, xs, faults),
            ExprForm::Compared {
                relation,
                left,
                right,
            } => self.comparison(alloc, *relation, left, right, faults),
            ExprForm::Sum { first, others } => self.sum(alloc, first, others, faults),
            ExprForm::Product(xs) => self.product(alloc, xs, faults),
            ExprForm::Not(x) => self.negation(alloc, is_formula, x, faults),
            ExprForm::Minus(x) => self.minus(alloc, x, faults),
            ExprForm::Indexed { map, indices } => self.indexed(alloc, map, indices, faults),
        }
    }

    #[tactic(auto, unfolding(bpl_scopes::specs::Scopes::meaning))]
    fn variable(&self, name: &Name, faults: &mut Faults) -> Result<Option<Shape>, AllocError>
        ensures sort { IfOk result (λ r. kind_seen r ≡ node_sort (scope_seen self.now) (variable name.now)) }
        ensures faults { OnOk result (faults.new.first ≡ earlier faults.old.first (first_fault (node_faults (scope_seen self.now) false (variable name.now)))) }
    {
        let meaning = self.meaning(name.text.as_bytes());
        note_variable(faults, self.part, meaning, name.at);
        self.sort_of_meaning(meaning)
    }

    /// The sort of an expression and its faults, where it has to have that sort.
    #[cycle(exprs)]
    #[tactic(auto, using(bpl_scopes::proofs::FirstFault::joins))]
    pub fn expr_as(
        &self,
        alloc: Global,
        is_formula: bool,
        wanted: Shape,
        x: &'a Expr,
        faults: &mut Faults,
    ) -> Result<bool, AllocError>
        ensures sort { IfOk result (λ b. b ≡ is (kind_of wanted) (sort_in (scope_seen self.now) x.now)) }
        ensures faults { OnOk result (faults.new.first ≡ earlier faults.old.first (first_fault (faults_as (scope_seen self.now) is_formula (kind_of wanted) x.now))) }
    {
        let found = self.expr(alloc, is_formula, x, faults)?;
        note_sort(faults, wanted, found, x.at);
        Ok(is(wanted, found))
    }

    #[cycle(exprs)]
    fn junction(
        &self,
        alloc: Global,
        is_formula: bool,
        xs: &'a [Expr],
        faults: &mut Faults,
    ) -> Result<Option<Shape>, AllocError>
        ensures sort { IfOk result (λ r. kind_seen r ≡ when (all_are boolean (sorts_in (scope_seen self.now) (exprs_of xs.now))) (Some boolean)) }
        ensures faults { OnOk result (faults.new.first ≡ earlier faults.old.first (first_fault (operand_faults (scope_seen self.now) is_formula boolean (exprs_of xs.now)))) }
    {
        let all = self.operands(alloc, is_formula, Shape::boolean(), xs, faults)?;
        Ok(when(all, Shape::boolean()))
    }

    #[cycle(exprs)]
    fn product(
        &self,
        alloc: Global,
        xs: &'a [Expr],
        faults: &mut Faults,
    ) -> Result<Option<Shape>, AllocError>
        ensures sort { IfOk result (λ r. kind_seen r ≡ when (all_are int (sorts_in (scope_seen self.now) (exprs_of xs.now))) (Some int)) }
        ensures faults { OnOk result (faults.new.first ≡ earlier faults.old.first (first_fault (operand_faults (scope_seen self.now) false int (exprs_of xs.now)))) }
    {
        let all = self.operands(alloc, false, Shape::int(), xs, faults)?;
        Ok(when(all, Shape::int()))
    }

    #[cycle(exprs)]
    fn negation(
        &self,
        alloc: Global,
        is_formula: bool,
        x: &'a Expr,
        faults: &mut Faults,
    ) -> Result<Option<Shape>, AllocError>
        ensures sort { IfOk result (λ r. kind_seen r ≡ when (is boolean (sort_in (scope_seen self.now) x.now)) (Some boolean)) }
        ensures faults { OnOk result (faults.new.first ≡ earlier faults.old.first (first_fault (faults_as (scope_seen self.now) is_formula boolean x.now))) }
    {
        let fits = self.expr_as(alloc, is_formula, Shape::boolean(), x, faults)?;
        Ok(when(fits, Shape::boolean()))
    }

    #[cycle(exprs)]
    fn minus(
        &self,
        alloc: Global,
        x: &'a Expr,
        faults: &mut Faults,
    ) -> Result<Option<Shape>, AllocError>
        ensures sort { IfOk result (λ r. kind_seen r ≡ when (is int (sort_in (scope_seen self.now) x.now)) (Some int)) }
        ensures faults { OnOk result (faults.new.first ≡ earlier faults.old.first (first_fault (faults_as (scope_seen self.now) false int x.now))) }
    {
        let fits = self.expr_as(alloc, false, Shape::int(), x, faults)?;
        Ok(when(fits, Shape::int()))
    }

    #[cycle(exprs)]
    #[tactic(auto, using(bpl_scopes::proofs::FirstFault::joins))]
    fn choice(
        &self,
        alloc: Global,
        c: &'a Expr,
        x: &'a Expr,
        y: &'a Expr,
        faults: &mut Faults,
    ) -> Result<Option<Shape>, AllocError>
        ensures sort { IfOk result (λ r. kind_seen r ≡ choice_sort (sort_in (scope_seen self.now) c.now) (sort_in (scope_seen self.now) x.now) (sort_in (scope_seen self.now) y.now)) }
        ensures faults { OnOk result (faults.new.first ≡ earlier faults.old.first (first_fault (node_faults (scope_seen self.now) false (choose c.now x.now y.now)))) }
    {
        let is_condition = self.expr_as(alloc, false, Shape::boolean(), c, faults)?;
        let first = self.expr(alloc, false, x, faults)?;
        let second = self.expr(alloc, false, y, faults)?;
        note_same_sort(faults, first, second, y.at);
        Ok(choice_sort(is_condition, first, second))
    }

    #[cycle(exprs)]
    #[tactic(auto, using(bpl_scopes::proofs::FirstFault::joins))]
    fn comparison(
        &self,
        alloc: Global,
        relation: Relation,
        x: &'a Expr,
        y: &'a Expr,
        faults: &mut Faults,
    ) -> Result<Option<Shape>, AllocError>
        ensures sort { IfOk result (λ r. kind_seen r ≡ relation_sort (relation_of relation) (sort_in (scope_seen self.now) x.now) (sort_in (scope_seen self.now) y.now)) }
        ensures faults { OnOk result (faults.new.first ≡ earlier faults.old.first (first_fault (node_faults (scope_seen self.now) false (related (relation_of relation) x.now y.now)))) }
    {
        let first = self.expr(alloc, false, x, faults)?;
        let second = self.expr(alloc, false, y, faults)?;
        note_comparison(faults, relation, first, second, x.at, y.at);
        Ok(relation_sort(relation, first, second))
    }

    #[cycle(exprs)]
    #[tactic(auto, using(bpl_scopes::proofs::FirstFault::joins))]
    fn sum(
        &self,
        alloc: Global,
        x: &'a Expr,
        terms: &'a [Term],
        faults: &mut Faults,
    ) -> Result<Option<Shape>, AllocError>
        ensures sort { IfOk result (λ r. kind_seen r ≡ when (is int (sort_in (scope_seen self.now) x.now) && are_ints (scope_seen self.now) (terms_of terms.now)) (Some int)) }
        ensures faults { OnOk result (faults.new.first ≡ earlier faults.old.first (first_fault (node_faults (scope_seen self.now) false (sums x.now (terms_of terms.now))))) }
    {
        let is_first = self.expr_as(alloc, false, Shape::int(), x, faults)?;
        let are_others = self.terms(alloc, terms, faults)?;
        Ok(when(is_first && are_others, Shape::int()))
    }

    #[cycle(exprs)]
    #[tactic(auto, using(bpl_scopes::proofs::FirstFault::joins))]
    fn indexed(
        &self,
        alloc: Global,
        x: &'a Expr,
        indices: &'a [Index],
        faults: &mut Faults,
    ) -> Result<Option<Shape>, AllocError>
        ensures sort { IfOk result (λ r. kind_seen r ≡ indices_sort (scope_seen self.now) (sort_in (scope_seen self.now) x.now) (indices_of indices.now)) }
        ensures faults { OnOk result (faults.new.first ≡ earlier faults.old.first (first_fault (node_faults (scope_seen self.now) false (indexed x.now (indices_of indices.now))))) }
    {
        let map = self.expr(alloc, false, x, faults)?;
        self.indices(alloc, x.at, map, indices, faults)
    }

    #[cycle(exprs)]
    #[tactic(auto, using(bpl_scopes::proofs::FirstFault::joins, crate::proofs::ArgumentSteps::count_is))]
    fn application(
        &self,
        alloc: Global,
        is_formula: bool,
        name: &Name,
        xs: &'a [Expr],
        faults: &mut Faults,
    ) -> Result<Option<Shape>, AllocError>
        ensures sort { IfOk result (λ r. kind_seen r ≡ node_sort (scope_seen self.now) (apply name.now (exprs_of xs.now))) }
        ensures faults { OnOk result (faults.new.first ≡ earlier faults.old.first (first_fault (node_faults (scope_seen self.now) is_formula (apply name.now (exprs_of xs.now))))) }
    {
        let meaning = self.meaning(name.text.as_bytes());
        self.note_application(
            faults,
            is_formula,
            name.text.as_bytes(),
            meaning,
            xs.len(),
            name.at,
        );
        let sorts = self.parameter_sorts(alloc, meaning)?;
        let fit = self.arguments(alloc, &sorts, xs, faults)?;
        self.value_sort(meaning, fit)
    }

    #[cycle(exprs)]
    #[tactic(auto, using(bpl_scopes::proofs::FirstFault::joins))]
    fn quantified(
        &self,
        alloc: Global,
        is_formula: bool,
        quantifier: Quantifier,
        paren: Place,
        params: &Option<TypeParams>,
        groups: &'a [Group],
        triggers: &'a [Trigger],
        body: &'a Expr,
        faults: &mut Faults,
    ) -> Result<Option<Shape>, AllocError>
        ensures sort { IfOk result (λ r. kind_seen r ≡ node_sort (scope_seen self.now) (quantified (quantifier_of quantifier) paren params.now (groups_of groups.now) (triggers_of triggers.now) body.now)) }
        ensures faults { OnOk result (faults.new.first ≡ earlier faults.old.first (first_fault (node_faults (scope_seen self.now) is_formula (quantified (quantifier_of quantifier) paren params.now (groups_of groups.now) (triggers_of triggers.now) body.now)))) }
    {
        faults.note_unless(is_formula, TypeKind::QuantifierHere, paren);
        faults.note_params(params);
        self.types()
            .note_group_types(&self.hidden(), groups, faults)?;
        faults.note_each_where(groups);
        let names = group_names(alloc, groups)?;
        note_again(alloc, TypeKind::Twice, &names, faults)?;
        let variables = texts_of(alloc, &names)?;
        let inner = self.within(alloc, groups)?;
        let are_patterns = inner.triggers(alloc, &variables, triggers, faults)?;
        let is_body = inner.expr_as(alloc, true, Shape::boolean(), body, faults)?;
        let are_known = self.are_known(groups)?;
        Ok(when(are_known && (are_patterns && is_body), Shape::boolean()))
    }
}
