// The names in types and expressions that no variable hides.
ghost use Rattle.std.specs.Prelude.{◌≡◌, ◌++◌, [], ◌∷◌, OnOk};
ghost use Rattle.bpl_ast.specs.TypeView.{tys_of};
ghost use Rattle.bpl_ast.specs.ExprView.{exprs_of, terms_of, indices_of, triggers_of, groups_of, clause_of};
ghost use Rattle.bpl_dependencies.specs.AppliedView.{texts_seen, variables_seen};
ghost use Rattle.bpl_texts.specs.Uses.{use_of, uses_of, type_uses, types_uses, expr_uses, exprs_uses, terms_uses, indices_uses, triggers_uses, groups_uses, clause_uses};

use bpl_ast::{Expr, ExprForm, Group, Index, Name, Term, Trigger, Type, TypeForm, Where};
use bpl_dependencies::Variables;
use std::alloc::{AllocError, Global};

/// The names that were found.
#[derive(Drop)]
pub struct Uses<'a> {
    pub names: Vec<&'a [u8]>,
}

impl<'a> Uses<'a> {
    /// Finds a name, unless a variable hides it.
    pub(crate) fn note(
        &mut self,
        variables: &Variables<'_, 'a>,
        name: &'a [u8],
    ) -> Result<(), AllocError>
        ensures { OnOk result (texts_seen self.new.names.items ≡ texts_seen self.old.names.items ++ use_of (variables_seen variables.now) name.now) }
    {
        if !variables.has(name) {
            self.names.push(name)?;
        }
        Ok(())
    }

    /// Finds names.
    pub(crate) fn note_names(
        &mut self,
        variables: &Variables<'_, 'a>,
        names: &'a [Name],
    ) -> Result<(), AllocError>
        ensures { OnOk result (texts_seen self.new.names.items ≡ texts_seen self.old.names.items ++ uses_of (variables_seen variables.now) names.now) }
    {
        for name in names {
            self.note(variables, name.text.as_bytes())?;
        }
        Ok(())
    }

    /// Finds the names in a type.
    #[cycle(types)]
    #[tactic(auto, using(crate::proofs::TypeNames::uses_both, crate::proofs::TypeNames::one_use))]
    pub(crate) fn note_type(
        &mut self,
        variables: &Variables<'_, 'a>,
        of: &'a Type,
    ) -> Result<(), AllocError>
        ensures { OnOk result (texts_seen self.new.names.items ≡ texts_seen self.old.names.items ++ type_uses (variables_seen variables.now) of.now) }
    {
        match &of.form {
            TypeForm::Int => Ok(()),
            TypeForm::Bool => Ok(()),
            TypeForm::Named(name) => self.note(variables, name.text.as_bytes()),
            TypeForm::Map(_, domain, range) => {
                self.note_types(variables, domain)?;
                self.note_type(variables, range)
            }
        }
    }

    #[cycle(types)]
    #[tactic(auto, using(crate::proofs::TypeNames::uses_both, crate::proofs::TypeNames::one_use))]
    fn note_types(
        &mut self,
        variables: &Variables<'_, 'a>,
        types: &'a [Type],
    ) -> Result<(), AllocError>
        ensures { OnOk result (texts_seen self.new.names.items ≡ texts_seen self.old.names.items ++ types_uses (variables_seen variables.now) (tys_of types.now)) }
    {
        for of in types {
            self.note_type(variables, of)?;
        }
        Ok(())
    }

    /// Finds the names in an expression.
    #[cycle(exprs)]
    pub(crate) fn note_expr(
        &mut self,
        alloc: Global,
        variables: &Variables<'_, 'a>,
        x: &'a Expr,
    ) -> Result<(), AllocError>
        ensures { OnOk result (texts_seen self.new.names.items ≡ texts_seen self.old.names.items ++ expr_uses (variables_seen variables.now) x.now) }
    {
        match &x.form {
            ExprForm::Number(_) => Ok(()),
            ExprForm::Truth(_) => Ok(()),
            ExprForm::Variable(name) => self.note(variables, name.text.as_bytes()),
            ExprForm::Apply {
                function,
                arguments,
            } => {
                self.note(variables, function.text.as_bytes())?;
                self.note_exprs(alloc, variables, arguments)
            }
            ExprForm::Old { value, .. } => self.note_expr(alloc, variables, value),
            ExprForm::Not(x) => self.note_expr(alloc, variables, x),
            ExprForm::Minus(x) => self.note_expr(alloc, variables, x),
            ExprForm::If {
                condition,
                then_value,
                else_value,
            } => {
                self.note_expr(alloc, variables, condition)?;
                self.note_expr(alloc, variables, then_value)?;
                self.note_expr(alloc, variables, else_value)
            }
            ExprForm::Quantified {
                groups,
                triggers,
                body,
                ..
            } => {
                self.note_groups(alloc, variables, groups)?;
                let inner = variables.within(alloc, groups)?;
                self.note_triggers(alloc, &inner, triggers)?;
                self.note_expr(alloc, &inner, body)
            }
            ExprForm::Iff(xs) => self.note_exprs(alloc, variables, xs),
            ExprForm::Implies(xs) => self.note_exprs(alloc, variables, xs),
            ExprForm::And(xs) => self.note_exprs(alloc, variables, xs),
            ExprForm::Or(xs) => self.note_exprs(alloc, variables, xs),
            ExprForm::Product(xs) => self.note_exprs(alloc, variables, xs),
            ExprForm::Compared { left, right, .. } => {
                self.note_expr(alloc, variables, left)?;
                self.note_expr(alloc, variables, right)
            }
            ExprForm::Sum { first, others } => {
                self.note_expr(alloc, variables, first)?;
                self.note_terms(alloc, variables, others)
            }
            ExprForm::Indexed { map, indices } => {
                self.note_expr(alloc, variables, map)?;
                self.note_indices(alloc, variables, indices)
            }
        }
    }

    /// Finds the names in expressions.
    #[cycle(exprs)]
    pub(crate) fn note_exprs(
        &mut self,
        alloc: Global,
        variables: &Variables<'_, 'a>,
        xs: &'a [Expr],
    ) -> Result<(), AllocError>
        ensures { OnOk result (texts_seen self.new.names.items ≡ texts_seen self.old.names.items ++ exprs_uses (variables_seen variables.now) (exprs_of xs.now)) }
    {
        for x in xs {
            self.note_expr(alloc, variables, x)?;
        }
        Ok(())
    }

    #[cycle(exprs)]
    fn note_terms(
        &mut self,
        alloc: Global,
        variables: &Variables<'_, 'a>,
        terms: &'a [Term],
    ) -> Result<(), AllocError>
        ensures { OnOk result (texts_seen self.new.names.items ≡ texts_seen self.old.names.items ++ terms_uses (variables_seen variables.now) (terms_of terms.now)) }
    {
        for term in terms {
            match term {
                Term::Plus(x) => self.note_expr(alloc, variables, x)?,
                Term::Less(x) => self.note_expr(alloc, variables, x)?,
            }
        }
        Ok(())
    }

    #[cycle(exprs)]
    fn note_index(
        &mut self,
        alloc: Global,
        variables: &Variables<'_, 'a>,
        index: &'a Index,
    ) -> Result<(), AllocError>
        ensures { OnOk result (texts_seen self.new.names.items ≡ texts_seen self.old.names.items ++ indices_uses (variables_seen variables.now) (indices_of (index.now ∷ []))) }
    {
        match index {
            Index::Read(x) => self.note_expr(alloc, variables, x),
            Index::Write(x, y) => {
                self.note_expr(alloc, variables, x)?;
                self.note_expr(alloc, variables, y)
            }
        }
    }

    #[cycle(exprs)]
    fn note_indices(
        &mut self,
        alloc: Global,
        variables: &Variables<'_, 'a>,
        indices: &'a [Index],
    ) -> Result<(), AllocError>
        ensures { OnOk result (texts_seen self.new.names.items ≡ texts_seen self.old.names.items ++ indices_uses (variables_seen variables.now) (indices_of indices.now)) }
    {
        for index in indices {
            self.note_index(alloc, variables, index)?;
        }
        Ok(())
    }

    #[cycle(exprs)]
    fn note_triggers(
        &mut self,
        alloc: Global,
        variables: &Variables<'_, 'a>,
        triggers: &'a [Trigger],
    ) -> Result<(), AllocError>
        ensures { OnOk result (texts_seen self.new.names.items ≡ texts_seen self.old.names.items ++ triggers_uses (variables_seen variables.now) (triggers_of triggers.now)) }
    {
        for trigger in triggers {
            self.note_exprs(alloc, variables, &trigger.patterns)?;
        }
        Ok(())
    }

    #[cycle(exprs)]
    fn note_clause(
        &mut self,
        alloc: Global,
        variables: &Variables<'_, 'a>,
        condition: &'a Option<Where>,
    ) -> Result<(), AllocError>
        ensures { OnOk result (texts_seen self.new.names.items ≡ texts_seen self.old.names.items ++ clause_uses (variables_seen variables.now) (clause_of condition.now)) }
    {
        match condition {
            Some(found) => self.note_expr(alloc, variables, &found.condition),
            None => Ok(()),
        }
    }

    /// Finds the names in the types of groups and in their clauses.
    #[cycle(exprs)]
    pub(crate) fn note_groups(
        &mut self,
        alloc: Global,
        variables: &Variables<'_, 'a>,
        groups: &'a [Group],
    ) -> Result<(), AllocError>
        ensures { OnOk result (texts_seen self.new.names.items ≡ texts_seen self.old.names.items ++ groups_uses (variables_seen variables.now) (groups_of groups.now)) }
    {
        for group in groups {
            self.note_type(variables, &group.of)?;
            self.note_clause(alloc, variables, &group.condition)?;
        }
        Ok(())
    }
}
