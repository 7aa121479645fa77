// What declarations stand in: what is declared, and the scopes of their parts.
ghost use Rattle.std.specs.Prelude.{◌≡◌, OnOk};
ghost use Rattle.bpl_ast.specs.ExprView.{groups_of, clause_of};
ghost use Rattle.bpl_scopes.specs.CountsView.{counts_seen};
ghost use Rattle.bpl_scopes.specs.Fault.{earlier, first_fault};
ghost use Rattle.bpl_faults.specs.ExprFaults.{formula_faults, clause_faults, group_clause_faults};
ghost use Rattle.bpl_faults.specs.ScopeView.{scope_seen};
ghost use Rattle.bpl_declaration_faults.specs.Variables.{scope_of};

use bpl_ast::{Expr, Group, Where};
use bpl_faults::{Scope, Vars};
use bpl_scopes::{Counts, Environment, Faults, Part, Shape, Types};
use std::alloc::{AllocError, Global};

/// What is declared, and how many names of each kind there are.
#[derive(Drop)]
pub struct Declared<'d, 'a> {
    pub environment: &'d Environment<'a>,
    pub counts: Counts,
}

impl<'d, 'a> Declared<'d, 'a> {
    /// The table with the sorts of its types.
    pub fn types(&self) -> &'d Types<'a>
        ensures { result.now ≡ self.now.environment.now }
    {
        self.environment.types()
    }

    /// The scope of a part in which these are the parameters and locals.
    pub fn scope<'v>(&self, alloc: Global, part: Part, vars: &'v Vars<'a>) -> Scope<'v, 'a>
    where
        'd: 'v,
        ensures { scope_seen result ≡ scope_of self.now.environment.now (counts_seen self.now.counts) part vars.now }
    {
        Scope {
            environment: self.environment,
            counts: self.counts,
            part,
            vars,
            bounds: Vec::new(alloc),
        }
    }
}

/// Finds the faults of a formula.
pub fn note_formula<'a>(
    alloc: Global,
    scope: &Scope<'_, 'a>,
    x: &'a Expr,
    faults: &mut Faults,
) -> Result<(), AllocError>
    ensures { OnOk result (faults.new.first ≡ earlier faults.old.first (first_fault (formula_faults (scope_seen scope.now) x.now))) }
{
    scope.expr_as(alloc, true, Shape::boolean(), x, faults)?;
    Ok(())
}

fn note_clause<'a>(
    alloc: Global,
    scope: &Scope<'_, 'a>,
    condition: &'a Option<Where>,
    faults: &mut Faults,
) -> Result<(), AllocError>
    ensures { OnOk result (faults.new.first ≡ earlier faults.old.first (first_fault (clause_faults (scope_seen scope.now) (clause_of condition.now)))) }
{
    match condition {
        Some(found) => note_formula(alloc, scope, &found.condition, faults),
        None => Ok(()),
    }
}

/// Finds the faults of the where clauses of groups.
pub fn note_clauses<'a>(
    alloc: Global,
    scope: &Scope<'_, 'a>,
    groups: &'a [Group],
    faults: &mut Faults,
) -> Result<(), AllocError>
    ensures { OnOk result (faults.new.first ≡ earlier faults.old.first (first_fault (group_clause_faults (scope_seen scope.now) (groups_of groups.now)))) }
{
    for group in groups {
        note_clause(alloc, scope, &group.condition, faults)?;
    }
    Ok(())
}
