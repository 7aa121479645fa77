// The names in declarations that no variable hides.
ghost use Rattle.std.specs.Prelude.{◌≡◌, ◌++◌, [], flat_map, IfOk, OnOk};
ghost use Rattle.bpl_ast.specs.DeclView.{body_of};
ghost use Rattle.bpl_ast.specs.ExprView.{groups_of, each_groups_of};
ghost use Rattle.bpl_scopes.specs.Scopes.{names_of, only_names, texts_of, signature_names};
ghost use Rattle.bpl_scopes.specs.Functions.{argument_names};
ghost use Rattle.bpl_dependencies.specs.AppliedView.{texts_seen, variables_seen};
ghost use Rattle.bpl_texts.specs.Uses.{type_uses, guard_uses, spec_uses, local_texts, locals_uses, stmts_uses, body_uses, optional_body_uses, optional_type_uses, signature_uses, arguments_uses, contract_uses, last_uses, decl_uses};

use crate::expr_uses::Uses;
use bpl_ast::{Argument, Body, DeclBody, Expr, Group, Name, Signature, Spec, SpecForm, Type};
use bpl_dependencies::{Variables, argument_names};
use bpl_scopes::Positions;
use std::alloc::{AllocError, Global};

fn push_texts<'a>(texts: &mut Positions<'a>, names: &'a [Name]) -> Result<(), AllocError>
    ensures { OnOk result (texts.new ≡ texts.old ++ texts_of names.now) }
{
    for name in names {
        texts.push(name.text.as_bytes())?;
    }
    Ok(())
}

fn push_group_texts<'a>(texts: &mut Positions<'a>, groups: &'a [Group]) -> Result<(), AllocError>
    ensures { OnOk result (texts.new ≡ texts.old ++ texts_of (only_names (names_of (groups_of groups.now)))) }
{
    for group in groups {
        push_texts(texts, &group.names)?;
    }
    Ok(())
}

/// Puts the names of the parameters behind others.
#[tactic(auto, using(crate::proofs::Names::both_texts))]
pub fn push_signature<'a>(
    texts: &mut Positions<'a>,
    signature: &'a Signature,
) -> Result<(), AllocError>
    ensures { OnOk result (texts.new ≡ texts.old ++ texts_of (signature_names signature.now)) }
{
    push_group_texts(texts, &signature.ins)?;
    push_group_texts(texts, &signature.outs)
}

fn push_locals<'a>(texts: &mut Positions<'a>, locals: &'a [Vec<Group>]) -> Result<(), AllocError>
    ensures { OnOk result (texts.new ≡ texts.old ++ texts_of (only_names (flat_map names_of (each_groups_of locals.now)))) }
{
    for groups in locals {
        push_group_texts(texts, groups)?;
    }
    Ok(())
}

/// The names of a body's variables, and then of the parameters.
pub fn body_names<'a>(
    alloc: Global,
    signature: &'a Signature,
    body: &'a Body,
) -> Result<Positions<'a>, AllocError>
    ensures { IfOk result (λ p. p ≡ local_texts body.now ++ texts_of (signature_names signature.now)) }
{
    let mut names = Positions::new(alloc);
    push_locals(&mut names, &body.locals)?;
    push_signature(&mut names, signature)?;
    Ok(names)
}

/// No variables but these.
pub fn variables_of<'s, 'a>(alloc: Global, params: &'s Positions<'a>) -> Variables<'s, 'a>
    ensures { variables_seen result ≡ params.now }
{
    Variables {
        bound: Vec::new(alloc),
        params,
    }
}

impl<'a> Uses<'a> {
    fn note_arguments(&mut self, alloc: Global, arguments: &'a [Argument]) -> Result<(), AllocError>
        ensures { OnOk result (texts_seen self.new.names.items ≡ texts_seen self.old.names.items ++ arguments_uses arguments.now) }
    {
        let nothing = Positions::new(alloc);
        let variables = variables_of(alloc, &nothing);
        for argument in arguments {
            self.note_type(&variables, &argument.of)?;
        }
        Ok(())
    }

    fn note_optional_type(&mut self, alloc: Global, of: &'a Option<Type>) -> Result<(), AllocError>
        ensures { OnOk result (texts_seen self.new.names.items ≡ texts_seen self.old.names.items ++ optional_type_uses of.now) }
    {
        let nothing = Positions::new(alloc);
        let variables = variables_of(alloc, &nothing);
        match of {
            Some(of) => self.note_type(&variables, of),
            None => Ok(()),
        }
    }

    /// Finds the names in a clause of a contract.
    pub(crate) fn note_spec(
        &mut self,
        alloc: Global,
        variables: &Variables<'_, 'a>,
        spec: &'a Spec,
    ) -> Result<(), AllocError>
        ensures { OnOk result (texts_seen self.new.names.items ≡ texts_seen self.old.names.items ++ spec_uses (variables_seen variables.now) spec.now) }
    {
        match &spec.form {
            SpecForm::Requires { formula, .. } => self.note_expr(alloc, variables, formula),
            SpecForm::Ensures { formula, .. } => self.note_expr(alloc, variables, formula),
            SpecForm::Modifies(names) => self.note_names(variables, names),
        }
    }

    fn note_specs(
        &mut self,
        alloc: Global,
        variables: &Variables<'_, 'a>,
        specs: &'a [Spec],
    ) -> Result<(), AllocError>
        ensures { OnOk result (texts_seen self.new.names.items ≡ texts_seen self.old.names.items ++ flat_map (spec_uses (variables_seen variables.now)) specs.now) }
    {
        for spec in specs {
            self.note_spec(alloc, variables, spec)?;
        }
        Ok(())
    }

    /// Finds the names in the types of parameters and in their clauses.
    pub(crate) fn note_signature(
        &mut self,
        alloc: Global,
        signature: &'a Signature,
    ) -> Result<(), AllocError>
        ensures { OnOk result (texts_seen self.new.names.items ≡ texts_seen self.old.names.items ++ signature_uses signature.now) }
    {
        let mut params = Positions::new(alloc);
        push_signature(&mut params, signature)?;
        let variables = variables_of(alloc, &params);
        self.note_groups(alloc, &variables, &signature.ins)?;
        self.note_groups(alloc, &variables, &signature.outs)
    }

    fn note_contract(
        &mut self,
        alloc: Global,
        signature: &'a Signature,
        specs: &'a [Spec],
    ) -> Result<(), AllocError>
        ensures { OnOk result (texts_seen self.new.names.items ≡ texts_seen self.old.names.items ++ (signature_uses signature.now ++ flat_map (spec_uses (texts_of (signature_names signature.now))) specs.now)) }
    {
        self.note_signature(alloc, signature)?;
        let mut params = Positions::new(alloc);
        push_signature(&mut params, signature)?;
        let variables = variables_of(alloc, &params);
        self.note_specs(alloc, &variables, specs)
    }

    fn note_locals(
        &mut self,
        alloc: Global,
        variables: &Variables<'_, 'a>,
        locals: &'a [Vec<Group>],
    ) -> Result<(), AllocError>
        ensures { OnOk result (texts_seen self.new.names.items ≡ texts_seen self.old.names.items ++ locals_uses (variables_seen variables.now) (each_groups_of locals.now)) }
    {
        for groups in locals {
            self.note_groups(alloc, variables, groups)?;
        }
        Ok(())
    }

    fn note_parts(
        &mut self,
        alloc: Global,
        variables: &Variables<'_, 'a>,
        body: &'a Body,
    ) -> Result<(), AllocError>
        ensures { OnOk result (texts_seen self.new.names.items ≡ texts_seen self.old.names.items ++ (locals_uses (variables_seen variables.now) body.now.locals ++ stmts_uses (variables_seen variables.now) body.now.stmts)) }
    {
        self.note_locals(alloc, variables, &body.locals)?;
        self.note_stmts(alloc, variables, &body.stmts)
    }

    fn note_body(
        &mut self,
        alloc: Global,
        signature: &'a Signature,
        body: &'a Body,
    ) -> Result<(), AllocError>
        ensures { OnOk result (texts_seen self.new.names.items ≡ texts_seen self.old.names.items ++ body_uses signature.now body.now) }
    {
        let names = body_names(alloc, signature, body)?;
        self.note_parts(alloc, &variables_of(alloc, &names), body)
    }

    fn note_optional_body(
        &mut self,
        alloc: Global,
        signature: &'a Signature,
        body: &'a Option<Body>,
    ) -> Result<(), AllocError>
        ensures { OnOk result (texts_seen self.new.names.items ≡ texts_seen self.old.names.items ++ optional_body_uses signature.now body.now) }
    {
        match body {
            Some(body) => self.note_body(alloc, signature, body),
            None => Ok(()),
        }
    }

    fn note_function(
        &mut self,
        alloc: Global,
        arguments: &'a [Argument],
        of: &'a Type,
        value: &'a Option<Expr>,
    ) -> Result<(), AllocError>
        ensures { OnOk result (texts_seen self.new.names.items ≡ texts_seen self.old.names.items ++ (arguments_uses arguments.now ++ (type_uses [] of.now ++ guard_uses (texts_of (argument_names arguments.now)) value.now))) }
    {
        let nothing = Positions::new(alloc);
        self.note_arguments(alloc, arguments)?;
        self.note_type(&variables_of(alloc, &nothing), of)?;
        let params = argument_names(alloc, arguments)?;
        self.note_guard(alloc, &variables_of(alloc, &params), value)
    }

    // Finds the names in a declaration's text without a body; a function keeps its body there.
    fn note_head(&mut self, alloc: Global, decl: &'a DeclBody) -> Result<(), AllocError>
        ensures { OnOk result (texts_seen self.new.names.items ≡ texts_seen self.old.names.items ++ contract_uses (body_of decl.now)) }
    {
        let nothing = Positions::new(alloc);
        let variables = variables_of(alloc, &nothing);
        match decl {
            DeclBody::Const { of, .. } => self.note_type(&variables, of),
            DeclBody::Function {
                arguments,
                of,
                value,
                ..
            } => self.note_function(alloc, arguments, of, value),
            DeclBody::Axiom(formula) => self.note_expr(alloc, &variables, formula),
            DeclBody::Var(groups) => self.note_groups(alloc, &variables, groups),
            DeclBody::TypeName { synonym, .. } => self.note_optional_type(alloc, synonym),
            DeclBody::Procedure {
                signature,
                specs,
                ..
            } => self.note_contract(alloc, signature, specs),
            DeclBody::Implementation {
                name,
                signature,
                ..
            } => {
                self.names.push(name.text.as_bytes())?;
                self.note_signature(alloc, signature)
            }
        }
    }

    // Finds the names in what is left of the text.
    fn note_rest(&mut self, alloc: Global, decl: &'a DeclBody) -> Result<(), AllocError>
        ensures { OnOk result (texts_seen self.new.names.items ≡ texts_seen self.old.names.items ++ last_uses (body_of decl.now)) }
    {
        match decl {
            DeclBody::Procedure {
                signature,
                body,
                ..
            } => self.note_optional_body(alloc, signature, body),
            DeclBody::Implementation {
                signature,
                body,
                ..
            } => self.note_body(alloc, signature, body),
            DeclBody::Const { .. } => Ok(()),
            DeclBody::Function { .. } => Ok(()),
            DeclBody::Axiom(_) => Ok(()),
            DeclBody::Var(_) => Ok(()),
            DeclBody::TypeName { .. } => Ok(()),
        }
    }
}

/// The names in a declaration's text without a body that stand for declarations.
pub fn contract_uses<'a>(alloc: Global, decl: &'a DeclBody) -> Result<Vec<&'a [u8]>, AllocError>
    ensures { IfOk result (λ v. texts_seen v.items ≡ contract_uses (body_of decl.now)) }
{
    let mut uses = Uses {
        names: Vec::new(alloc),
    };
    uses.note_head(alloc, decl)?;
    Ok(uses.names)
}

/// The names in a declaration's text that stand for declarations.
pub fn decl_uses<'a>(alloc: Global, decl: &'a DeclBody) -> Result<Vec<&'a [u8]>, AllocError>
    ensures { IfOk result (λ v. texts_seen v.items ≡ decl_uses (body_of decl.now)) }
{
    let mut uses = Uses {
        names: Vec::new(alloc),
    };
    uses.note_head(alloc, decl)?;
    uses.note_rest(alloc, decl)?;
    Ok(uses.names)
}
