// Parameters and locals with their sorts and clauses. The clause of a group belongs to each of its
// names.
ghost use Rattle.std.specs.Prelude.{◌≡◌, ◌++◌, map, flat_map, false, IfOk, OnOk};
ghost use Rattle.bpl_ast.specs.ExprView.{groups_of, clause_of, each_groups_of};
ghost use Rattle.bpl_scopes.specs.Functions.{in_number_order};
ghost use Rattle.bpl_scopes.specs.KnownSorts.{hidden_seen};
ghost use Rattle.bpl_scopes.specs.Shape.{kind_seen};
ghost use Rattle.bpl_faults.specs.ScopeView.{scope_seen};
ghost use Rattle.bpl_terms.specs.Terms.{sort_or_int};
ghost use Rattle.bpl_resolve.specs.Elaborate.{clause_term};
ghost use Rattle.bpl_resolve.specs.Locals.{locals_in};

use crate::names::name_of;
use bpl_ast::{Group, Name, Where};
use bpl_faults::Scope;
use bpl_model::Local;
use bpl_scopes::{Hidden, Positions, Shape};
use bpl_terms::{sort_or_int, term_of};
use logic_core::Term;
use std::alloc::{AllocError, Global};

/// The term of a clause, where there is one.
pub(crate) fn clause_term<'a>(
    alloc: Global,
    scope: &Scope<'_, 'a>,
    order: &Positions,
    condition: &'a Option<Where>,
) -> Result<Option<Term>, AllocError>
    requires { order.now ≡ in_number_order (scope_seen scope.now).table }
    ensures { IfOk result (λ c. c ≡ clause_term (scope_seen scope.now) (clause_of condition.now)) }
{
    match condition {
        Some(found) => Ok(Some(term_of(alloc, scope, order, &found.condition)?)),
        None => Ok(None),
    }
}

// Puts a parameter or local for each name behind others.
fn push_named<'a>(
    alloc: Global,
    scope: &Scope<'_, 'a>,
    order: &Positions,
    sort: Option<Shape>,
    condition: &'a Option<Where>,
    names: &[Name],
    locals: &mut Vec<Local>,
) -> Result<(), AllocError>
    requires { order.now ≡ in_number_order (scope_seen scope.now).table }
    ensures { OnOk result (locals.new.items ≡ locals.old.items ++ map (λ n. record { name = n.text; sort = sort_or_int (kind_seen sort); own = false; clause = clause_term (scope_seen scope.now) (clause_of condition.now) }) names.now) }
{
    for name in names {
        locals.push(Local {
            name: name_of(alloc, name)?,
            sort: sort_or_int(alloc, sort)?,
            own: false,
            clause: clause_term(alloc, scope, order, condition)?,
        })?;
    }
    Ok(())
}

/// Puts the parameters or locals of groups behind others, where these names are no types.
pub(crate) fn push_locals<'a>(
    alloc: Global,
    scope: &Scope<'_, 'a>,
    order: &Positions,
    hidden: &Hidden,
    groups: &'a [Group],
    locals: &mut Vec<Local>,
) -> Result<(), AllocError>
    requires { order.now ≡ in_number_order (scope_seen scope.now).table }
    ensures { OnOk result (locals.new.items ≡ locals.old.items ++ locals_in (scope_seen scope.now) (hidden_seen hidden.now) (groups_of groups.now)) }
{
    for group in groups {
        let sort = scope.types().sort(hidden, &group.of)?;
        push_named(
            alloc,
            scope,
            order,
            sort,
            &group.condition,
            &group.names,
            locals,
        )?;
    }
    Ok(())
}

/// The parameters of groups, where these names are no types.
pub(crate) fn locals_in<'a>(
    alloc: Global,
    scope: &Scope<'_, 'a>,
    order: &Positions,
    names: &Positions<'a>,
    groups: &'a [Group],
) -> Result<Vec<Local>, AllocError>
    requires { order.now ≡ in_number_order (scope_seen scope.now).table }
    ensures { IfOk result (λ v. v.items ≡ locals_in (scope_seen scope.now) names.now (groups_of groups.now)) }
{
    let hidden = Hidden { bounds: &[], names };
    let mut locals = Vec::new(alloc);
    push_locals(alloc, scope, order, &hidden, groups, &mut locals)?;
    Ok(locals)
}

/// The locals of a body, where these names are no types.
pub(crate) fn each_locals_in<'a>(
    alloc: Global,
    scope: &Scope<'_, 'a>,
    order: &Positions,
    names: &Positions<'a>,
    groups: &'a [Vec<Group>],
) -> Result<Vec<Local>, AllocError>
    requires { order.now ≡ in_number_order (scope_seen scope.now).table }
    ensures { IfOk result (λ v. v.items ≡ flat_map (locals_in (scope_seen scope.now) names.now) (each_groups_of groups.now)) }
{
    let hidden = Hidden { bounds: &[], names };
    let mut locals = Vec::new(alloc);
    for declared in groups {
        push_locals(alloc, scope, order, &hidden, declared, &mut locals)?;
    }
    Ok(locals)
}
