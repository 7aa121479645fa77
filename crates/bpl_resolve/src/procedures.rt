// Procedures: parameters, contract, locals and body.
ghost use Rattle.std.specs.Prelude.{◌≡◌, ◌++◌, map, flat_map, option_map, IfOk, OnOk};
ghost use Rattle.bpl_model.specs.StmtView.{body_of as module_body, stmts_of as module_stmts};
ghost use Rattle.bpl_scopes.specs.CountsView.{counts_seen};
ghost use Rattle.bpl_scopes.specs.Functions.{in_number_order};
ghost use Rattle.bpl_scopes.specs.declared.part.Part.TheVariants.{Body as in_body, ClauseOfIn as in_clause_of_in, ClauseOfOut as in_clause_of_out, ClauseOfLocal as in_clause_of_local};
ghost use Rattle.bpl_declaration_faults.specs.Variables.{in_vars, out_vars, local_vars, parameters, body_vars, scope_of};
ghost use Rattle.bpl_resolve.specs.Elaborate.{clause_terms, locals_with, stmts_of, or_else, own_body, proc_locals, proc_body, proc_of, procs_in};
ghost use Rattle.bpl_resolve.specs.Implemented.{implemented_seen, bodies_seen, body_for, procs_with};

use crate::implementations::{Implementations, Implemented};
use crate::names::name_of;
use crate::specs::specs_in;
use crate::stmts::stmts_of;
use crate::variables::{each_locals_in, locals_in};
use bpl_ast::{Body, Decl, DeclBody, Name, Signature, Spec};
use bpl_declaration_faults::Declared;
use bpl_declaration_faults::variables::{body_positions, body_vars, parameters};
use bpl_faults::Vars;
use bpl_model::{Local, Proc, Stmt};
use bpl_scopes::{Part, Positions};
use bpl_statement_faults::names::parameter_positions;
use std::alloc::{AllocError, Global};

// The in-parameters of a procedure whose parameters these are.
#[tactic(auto, using(crate::proofs::GroupedLocals::ins_are))]
fn ins_of<'d, 'a>(
    alloc: Global,
    declared: &Declared<'d, 'a>,
    order: &Positions,
    vars: &Vars<'a>,
    signature: &'a Signature,
) -> Result<Vec<Local>, AllocError>
    requires order { order.now ≡ in_number_order declared.now.environment.now }
    requires vars { vars.now ≡ parameters declared.now.environment.now (counts_seen declared.now.counts) signature.now }
    ensures { IfOk result (λ v. v.items ≡ locals_with (in_vars declared.now.environment.now (counts_seen declared.now.counts) signature.now) (clause_terms (scope_of declared.now.environment.now (counts_seen declared.now.counts) in_clause_of_in (parameters declared.now.environment.now (counts_seen declared.now.counts) signature.now)) signature.now.ins)) }
{
    let names = parameter_positions(alloc, signature)?;
    let scope = declared.scope(alloc, Part::ClauseOfIn, vars);
    locals_in(alloc, &scope, order, &names, &signature.ins)
}

// The out-parameters of a procedure whose parameters these are.
#[tactic(auto, using(crate::proofs::GroupedLocals::outs_are))]
fn outs_of<'d, 'a>(
    alloc: Global,
    declared: &Declared<'d, 'a>,
    order: &Positions,
    vars: &Vars<'a>,
    signature: &'a Signature,
) -> Result<Vec<Local>, AllocError>
    requires order { order.now ≡ in_number_order declared.now.environment.now }
    requires vars { vars.now ≡ parameters declared.now.environment.now (counts_seen declared.now.counts) signature.now }
    ensures { IfOk result (λ v. v.items ≡ locals_with (out_vars declared.now.environment.now (counts_seen declared.now.counts) signature.now) (clause_terms (scope_of declared.now.environment.now (counts_seen declared.now.counts) in_clause_of_out (parameters declared.now.environment.now (counts_seen declared.now.counts) signature.now)) signature.now.outs)) }
{
    let names = parameter_positions(alloc, signature)?;
    let scope = declared.scope(alloc, Part::ClauseOfOut, vars);
    locals_in(alloc, &scope, order, &names, &signature.outs)
}

#[tactic(auto, using(crate::proofs::GroupedLocals::body_locals_are))]
fn body_locals<'d, 'a>(
    alloc: Global,
    declared: &Declared<'d, 'a>,
    order: &Positions,
    signature: &'a Signature,
    body: &'a Body,
) -> Result<Vec<Local>, AllocError>
    requires { order.now ≡ in_number_order declared.now.environment.now }
    ensures { IfOk result (λ v. v.items ≡ locals_with (local_vars declared.now.environment.now (counts_seen declared.now.counts) signature.now body.now.locals) (flat_map (clause_terms (scope_of declared.now.environment.now (counts_seen declared.now.counts) in_clause_of_local (body_vars declared.now.environment.now (counts_seen declared.now.counts) signature.now body.now.locals))) body.now.locals)) }
{
    let vars = body_vars(
        alloc,
        declared.types(),
        declared.counts,
        signature,
        &body.locals,
    )?;
    let names = body_positions(alloc, signature, &body.locals)?;
    let scope = declared.scope(alloc, Part::ClauseOfLocal, &vars);
    each_locals_in(alloc, &scope, order, &names, &body.locals)
}

// The locals of a body, where there is one.
fn locals_of<'d, 'a>(
    alloc: Global,
    declared: &Declared<'d, 'a>,
    order: &Positions,
    implemented: Option<Implemented<'a>>,
) -> Result<Vec<Local>, AllocError>
    requires { order.now ≡ in_number_order declared.now.environment.now }
    ensures { IfOk result (λ v. v.items ≡ proc_locals declared.now.environment.now (counts_seen declared.now.counts) (option_map implemented_seen implemented.entry)) }
{
    match implemented {
        Some(found) => body_locals(alloc, declared, order, found.signature, found.body),
        None => Ok(Vec::new(alloc)),
    }
}

// The statements of a body of a procedure with these parameters.
fn body_stmts<'d, 'a>(
    alloc: Global,
    declared: &Declared<'d, 'a>,
    order: &Positions,
    signature: &'a Signature,
    body: &'a Body,
) -> Result<Vec<Stmt>, AllocError>
    requires { order.now ≡ in_number_order declared.now.environment.now }
    ensures { IfOk result (λ v. module_stmts v.items ≡ stmts_of (scope_of declared.now.environment.now (counts_seen declared.now.counts) in_body (body_vars declared.now.environment.now (counts_seen declared.now.counts) signature.now body.now.locals)) body.now.stmts) }
{
    let types = declared.types();
    let vars = body_vars(alloc, types, declared.counts, signature, &body.locals)?;
    let scope = declared.scope(alloc, Part::Body, &vars);
    stmts_of(alloc, &scope, order, &body.stmts)
}

// The statements of a body, where there is one.
fn stmts_in<'d, 'a>(
    alloc: Global,
    declared: &Declared<'d, 'a>,
    order: &Positions,
    implemented: Option<Implemented<'a>>,
) -> Result<Option<Vec<Stmt>>, AllocError>
    requires { order.now ≡ in_number_order declared.now.environment.now }
    ensures { IfOk result (λ b. module_body b ≡ proc_body declared.now.environment.now (counts_seen declared.now.counts) (option_map implemented_seen implemented.entry)) }
{
    match implemented {
        Some(found) => {
            let stmts = body_stmts(alloc, declared, order, found.signature, found.body)?;
            Ok(Some(stmts))
        }
        None => Ok(None),
    }
}

/// The procedure of this name and contract, with this body.
pub fn procedure<'d, 'a>(
    alloc: Global,
    declared: &Declared<'d, 'a>,
    order: &Positions,
    name: &Name,
    signature: &'a Signature,
    specs: &'a [Spec],
    implemented: Option<Implemented<'a>>,
) -> Result<Proc, AllocError>
    requires { order.now ≡ in_number_order declared.now.environment.now }
    ensures { IfOk result (λ p. p ≡ proc_of declared.now.environment.now (counts_seen declared.now.counts) name.now.text signature.now specs.now (option_map implemented_seen implemented.entry)) }
{
    let vars = parameters(alloc, declared.types(), declared.counts, signature)?;
    let ins = ins_of(alloc, declared, order, &vars, signature)?;
    let outs = outs_of(alloc, declared, order, &vars, signature)?;
    let specs = specs_in(alloc, declared, order, &vars, specs)?;
    let locals = locals_of(alloc, declared, order, implemented)?;
    let body = stmts_in(alloc, declared, order, implemented)?;
    Ok(Proc {
        name: name_of(alloc, name)?,
        ins,
        outs,
        locals,
        specs,
        body,
    })
}

// A procedure's own body, or that of its implementation.
fn implemented_by<'a>(
    implementations: &Implementations<'a>,
    name: &Name,
    signature: &'a Signature,
    body: &'a Option<Body>,
) -> Option<Implemented<'a>>
    ensures { option_map implemented_seen result ≡ or_else (own_body signature.now body.now) (body_for implementations.now.names (bodies_seen implementations.now.bodies.items) name.now.text) }
{
    match body {
        Some(body) => Some(Implemented { signature, body }),
        None => implementations.find(name.text.as_bytes()),
    }
}

// Puts the procedure behind others that a declaration declares.
fn push_procedure<'d, 'a>(
    alloc: Global,
    declared: &Declared<'d, 'a>,
    order: &Positions,
    implementations: &Implementations<'a>,
    decl: &'a Decl,
    procs: &mut Vec<Proc>,
) -> Result<(), AllocError>
    requires { order.now ≡ in_number_order declared.now.environment.now }
    ensures { OnOk result (procs.new.items ≡ procs.old.items ++ procs_with implementations.now.names (bodies_seen implementations.now.bodies.items) declared.now.environment.now (counts_seen declared.now.counts) decl.now.body) }
{
    match decl.body() {
        DeclBody::Procedure {
            name,
            signature,
            specs,
            body,
            ..
        } => {
            let implemented = implemented_by(implementations, name, signature, body);
            procs.push(procedure(alloc, declared, order, name, signature, specs, implemented)?)?;
            Ok(())
        }
        DeclBody::Const { .. } => Ok(()),
        DeclBody::Function { .. } => Ok(()),
        DeclBody::Axiom(_) => Ok(()),
        DeclBody::Var(_) => Ok(()),
        DeclBody::TypeName { .. } => Ok(()),
        DeclBody::Implementation { .. } => Ok(()),
    }
}

// The procedures that declarations declare, where these are the bodies of implementations.
fn procedures_with<'d, 'a>(
    alloc: Global,
    declared: &Declared<'d, 'a>,
    order: &Positions,
    implementations: &Implementations<'a>,
    decls: &'a [Decl],
) -> Result<Vec<Proc>, AllocError>
    requires { order.now ≡ in_number_order declared.now.environment.now }
    ensures { IfOk result (λ v. v.items ≡ flat_map (λ d. procs_with implementations.now.names (bodies_seen implementations.now.bodies.items) declared.now.environment.now (counts_seen declared.now.counts) d.body) decls.now) }
{
    let mut procs = Vec::new(alloc);
    for decl in decls {
        push_procedure(alloc, declared, order, implementations, decl, &mut procs)?;
    }
    Ok(procs)
}

/// The procedures that declarations declare, each with its body or that of its implementation.
pub(crate) fn procedures<'d, 'a>(
    alloc: Global,
    declared: &Declared<'d, 'a>,
    order: &Positions,
    decls: &'a [Decl],
) -> Result<Vec<Proc>, AllocError>
    requires { order.now ≡ in_number_order declared.now.environment.now }
    ensures { IfOk result (λ v. v.items ≡ flat_map (λ d. procs_in decls.now declared.now.environment.now (counts_seen declared.now.counts) d.body) decls.now) }
{
    let implementations = Implementations::of(alloc, decls)?;
    procedures_with(alloc, declared, order, &implementations, decls)
}
