// Global variables with their sorts and clauses. The clause of a group belongs to each of its names.
ghost use Rattle.std.specs.Prelude.{◌≡◌, ◌++◌, map, flat_map, IfOk, OnOk};
ghost use Rattle.bpl_ast.specs.ExprView.{groups_of, clause_of};
ghost use Rattle.bpl_scopes.specs.CountsView.{counts_seen};
ghost use Rattle.bpl_scopes.specs.Functions.{in_number_order};
ghost use Rattle.bpl_scopes.specs.Shape.{kind_seen};
ghost use Rattle.bpl_faults.specs.ScopeView.{scope_seen};
ghost use Rattle.bpl_terms.specs.Terms.{sort_or_int};
ghost use Rattle.bpl_resolve.specs.Elaborate.{clause_term, globals_in};
ghost use Rattle.bpl_resolve.specs.Locals.{globals_of};

use crate::names::name_of;
use crate::variables::clause_term;
use bpl_ast::{Decl, DeclBody, Group, Name, Where};
use bpl_declaration_faults::Declared;
use bpl_faults::{Scope, Vars};
use bpl_model::Global;
use bpl_scopes::{Part, Positions, Shape};
use bpl_terms::sort_or_int;
use std::alloc;
use std::alloc::AllocError;

// Puts a global variable for each name behind others.
fn push_named<'a>(
    alloc: alloc::Global,
    scope: &Scope<'_, 'a>,
    order: &Positions,
    sort: Option<Shape>,
    condition: &'a Option<Where>,
    names: &[Name],
    globals: &mut Vec<Global>,
) -> Result<(), AllocError>
    requires { order.now ≡ in_number_order (scope_seen scope.now).table }
    ensures { OnOk result (globals.new.items ≡ globals.old.items ++ map (λ n. record { name = n.text; sort = sort_or_int (kind_seen sort); clause = clause_term (scope_seen scope.now) (clause_of condition.now) }) names.now) }
{
    for name in names {
        globals.push(Global {
            name: name_of(alloc, name)?,
            sort: sort_or_int(alloc, sort)?,
            clause: clause_term(alloc, scope, order, condition)?,
        })?;
    }
    Ok(())
}

// Puts the global variables of groups behind others.
fn push_group_globals<'a>(
    alloc: alloc::Global,
    scope: &Scope<'_, 'a>,
    order: &Positions,
    groups: &'a [Group],
    globals: &mut Vec<Global>,
) -> Result<(), AllocError>
    requires { order.now ≡ in_number_order (scope_seen scope.now).table }
    ensures { OnOk result (globals.new.items ≡ globals.old.items ++ globals_of (scope_seen scope.now) (groups_of groups.now)) }
{
    for group in groups {
        let types = scope.types();
        let sort = types.sort(&types.nothing_hidden(), &group.of)?;
        push_named(
            alloc,
            scope,
            order,
            sort,
            &group.condition,
            &group.names,
            globals,
        )?;
    }
    Ok(())
}

// Puts the global variables behind others that a declaration declares.
#[tactic(auto, using(crate::proofs::GroupedLocals::globals_are))]
fn push_globals<'d, 'a>(
    alloc: alloc::Global,
    declared: &Declared<'d, 'a>,
    order: &Positions,
    decl: &'a Decl,
    globals: &mut Vec<Global>,
) -> Result<(), AllocError>
    requires { order.now ≡ in_number_order declared.now.environment.now }
    ensures { OnOk result (globals.new.items ≡ globals.old.items ++ globals_in declared.now.environment.now (counts_seen declared.now.counts) decl.now.body) }
{
    match decl.body() {
        DeclBody::Var(groups) => {
            let vars = Vars::new(alloc);
            let scope = declared.scope(alloc, Part::ClauseOfGlobal, &vars);
            push_group_globals(alloc, &scope, order, groups, globals)
        }
        DeclBody::Const { .. } => Ok(()),
        DeclBody::Function { .. } => Ok(()),
        DeclBody::Axiom(_) => Ok(()),
        DeclBody::TypeName { .. } => Ok(()),
        DeclBody::Procedure { .. } => Ok(()),
        DeclBody::Implementation { .. } => Ok(()),
    }
}

/// The global variables that declarations declare.
pub(crate) fn globals<'d, 'a>(
    alloc: alloc::Global,
    declared: &Declared<'d, 'a>,
    order: &Positions,
    decls: &'a [Decl],
) -> Result<Vec<Global>, AllocError>
    requires { order.now ≡ in_number_order declared.now.environment.now }
    ensures { IfOk result (λ v. v.items ≡ flat_map (λ d. globals_in declared.now.environment.now (counts_seen declared.now.counts) d.body) decls.now) }
{
    let mut globals = Vec::new(alloc);
    for decl in decls {
        push_globals(alloc, declared, order, decl, &mut globals)?;
    }
    Ok(globals)
}
