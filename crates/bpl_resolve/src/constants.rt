// Constants and axioms.
ghost use Rattle.std.specs.Prelude.{◌≡◌, ◌++◌, [], map, flat_map, IfOk, OnOk};
ghost use Rattle.bpl_scopes.specs.CountsView.{counts_seen};
ghost use Rattle.bpl_scopes.specs.Functions.{in_number_order};
ghost use Rattle.bpl_scopes.specs.Shape.{kind_seen};
ghost use Rattle.bpl_scopes.specs.declared.part.Part.TheVariants.{Axiom as in_axiom};
ghost use Rattle.bpl_declaration_faults.specs.Variables.{scope_of};
ghost use Rattle.bpl_terms.specs.Terms.{sort_or_int, term_of};
ghost use Rattle.bpl_resolve.specs.Elaborate.{consts_in, axioms_in};

use crate::names::name_of;
use bpl_ast::{Decl, DeclBody, Expr, Name};
use bpl_declaration_faults::Declared;
use bpl_faults::Vars;
use bpl_model::Const;
use bpl_scopes::{Part, Positions, Shape};
use bpl_terms::{sort_or_int, term_of};
use logic_core::Term;
use std::alloc::{AllocError, Global};

// Puts a constant for each name behind others.
fn push_named(
    alloc: Global,
    sort: Option<Shape>,
    names: &[Name],
    consts: &mut Vec<Const>,
) -> Result<(), AllocError>
    ensures { OnOk result (consts.new.items ≡ consts.old.items ++ map (λ n. record { name = n.text; sort = sort_or_int (kind_seen sort) }) names.now) }
{
    for name in names {
        consts.push(Const {
            name: name_of(alloc, name)?,
            sort: sort_or_int(alloc, sort)?,
        })?;
    }
    Ok(())
}

// Puts the constants behind others that a declaration declares.
fn push_consts<'d, 'a>(
    alloc: Global,
    declared: &Declared<'d, 'a>,
    decl: &Decl,
    consts: &mut Vec<Const>,
) -> Result<(), AllocError>
    ensures { OnOk result (consts.new.items ≡ consts.old.items ++ consts_in declared.now.environment.now (counts_seen declared.now.counts) decl.now.body) }
{
    match decl.body() {
        DeclBody::Const { names, of, .. } => {
            let types = declared.types();
            let sort = types.sort(&types.nothing_hidden(), of)?;
            push_named(alloc, sort, names, consts)
        }
        DeclBody::Function { .. } => Ok(()),
        DeclBody::Axiom(_) => Ok(()),
        DeclBody::Var(_) => Ok(()),
        DeclBody::TypeName { .. } => Ok(()),
        DeclBody::Procedure { .. } => Ok(()),
        DeclBody::Implementation { .. } => Ok(()),
    }
}

/// The constants that declarations declare.
pub(crate) fn constants<'d, 'a>(
    alloc: Global,
    declared: &Declared<'d, 'a>,
    decls: &[Decl],
) -> Result<Vec<Const>, AllocError>
    ensures { IfOk result (λ v. v.items ≡ flat_map (λ d. consts_in declared.now.environment.now (counts_seen declared.now.counts) d.body) decls.now) }
{
    let mut consts = Vec::new(alloc);
    for decl in decls {
        push_consts(alloc, declared, decl, &mut consts)?;
    }
    Ok(consts)
}

/// The axiom that an expression states.
pub fn axiom<'d, 'a>(
    alloc: Global,
    declared: &Declared<'d, 'a>,
    order: &Positions,
    x: &'a Expr,
) -> Result<Term, AllocError>
    requires { order.now ≡ in_number_order declared.now.environment.now }
    ensures { IfOk result (λ t. t ≡ term_of (scope_of declared.now.environment.now (counts_seen declared.now.counts) in_axiom []) x.now) }
{
    let vars = Vars::new(alloc);
    let scope = declared.scope(alloc, Part::Axiom, &vars);
    term_of(alloc, &scope, order, x)
}

// Puts the axiom behind others that a declaration states.
fn push_axiom<'d, 'a>(
    alloc: Global,
    declared: &Declared<'d, 'a>,
    order: &Positions,
    decl: &'a Decl,
    axioms: &mut Vec<Term>,
) -> Result<(), AllocError>
    requires { order.now ≡ in_number_order declared.now.environment.now }
    ensures { OnOk result (axioms.new.items ≡ axioms.old.items ++ axioms_in declared.now.environment.now (counts_seen declared.now.counts) decl.now.body) }
{
    match decl.body() {
        DeclBody::Axiom(x) => {
            axioms.push(axiom(alloc, declared, order, x)?)?;
            Ok(())
        }
        DeclBody::Const { .. } => Ok(()),
        DeclBody::Function { .. } => Ok(()),
        DeclBody::Var(_) => Ok(()),
        DeclBody::TypeName { .. } => Ok(()),
        DeclBody::Procedure { .. } => Ok(()),
        DeclBody::Implementation { .. } => Ok(()),
    }
}

/// The axioms that declarations state.
pub(crate) fn axioms<'d, 'a>(
    alloc: Global,
    declared: &Declared<'d, 'a>,
    order: &Positions,
    decls: &'a [Decl],
) -> Result<Vec<Term>, AllocError>
    requires { order.now ≡ in_number_order declared.now.environment.now }
    ensures { IfOk result (λ v. v.items ≡ flat_map (λ d. axioms_in declared.now.environment.now (counts_seen declared.now.counts) d.body) decls.now) }
{
    let mut axioms = Vec::new(alloc);
    for decl in decls {
        push_axiom(alloc, declared, order, decl, &mut axioms)?;
    }
    Ok(axioms)
}
