// The names in each line of a declaration that no variable hides.
ghost use Rattle.std.specs.Prelude.{◌≡◌, ◌++◌, IfOk};
ghost use Rattle.bpl_ast.specs.ExprView.{groups_of};
ghost use Rattle.bpl_dependencies.specs.AppliedView.{texts_seen, variables_seen};
ghost use Rattle.bpl_texts.specs.Uses.{stmt_uses, guard_uses, invariant_uses, groups_uses, spec_uses, signature_uses};

use crate::expr_uses::Uses;
use bpl_ast::{Expr, Group, Invariant, Signature, Spec, Stmt};
use bpl_dependencies::Variables;
use std::alloc::{AllocError, Global};

/// The names in a statement.
pub fn stmt_uses<'a>(
    alloc: Global,
    variables: &Variables<'_, 'a>,
    stmt: &'a Stmt,
) -> Result<Vec<&'a [u8]>, AllocError>
    ensures { IfOk result (λ v. texts_seen v.items ≡ stmt_uses (variables_seen variables.now) stmt.now) }
{
    let mut uses = Uses {
        names: Vec::new(alloc),
    };
    uses.note_stmt(alloc, variables, stmt)?;
    Ok(uses.names)
}

/// The names in a guard.
pub fn guard_uses<'a>(
    alloc: Global,
    variables: &Variables<'_, 'a>,
    guard: &'a Option<Expr>,
) -> Result<Vec<&'a [u8]>, AllocError>
    ensures { IfOk result (λ v. texts_seen v.items ≡ guard_uses (variables_seen variables.now) guard.now) }
{
    let mut uses = Uses {
        names: Vec::new(alloc),
    };
    uses.note_guard(alloc, variables, guard)?;
    Ok(uses.names)
}

/// The names in an invariant.
pub fn invariant_uses<'a>(
    alloc: Global,
    variables: &Variables<'_, 'a>,
    invariant: &'a Invariant,
) -> Result<Vec<&'a [u8]>, AllocError>
    ensures { IfOk result (λ v. texts_seen v.items ≡ invariant_uses (variables_seen variables.now) invariant.now) }
{
    let mut uses = Uses {
        names: Vec::new(alloc),
    };
    uses.note_expr(alloc, variables, &invariant.formula)?;
    Ok(uses.names)
}

/// The names in the types of groups and in their clauses.
pub fn groups_uses<'a>(
    alloc: Global,
    variables: &Variables<'_, 'a>,
    groups: &'a [Group],
) -> Result<Vec<&'a [u8]>, AllocError>
    ensures { IfOk result (λ v. texts_seen v.items ≡ groups_uses (variables_seen variables.now) (groups_of groups.now)) }
{
    let mut uses = Uses {
        names: Vec::new(alloc),
    };
    uses.note_groups(alloc, variables, groups)?;
    Ok(uses.names)
}

/// The names in a clause of a contract.
pub fn spec_uses<'a>(
    alloc: Global,
    variables: &Variables<'_, 'a>,
    spec: &'a Spec,
) -> Result<Vec<&'a [u8]>, AllocError>
    ensures { IfOk result (λ v. texts_seen v.items ≡ spec_uses (variables_seen variables.now) spec.now) }
{
    let mut uses = Uses {
        names: Vec::new(alloc),
    };
    uses.note_spec(alloc, variables, spec)?;
    Ok(uses.names)
}

/// The names in the types of parameters and in their clauses.
pub fn signature_uses<'a>(
    alloc: Global,
    signature: &'a Signature,
) -> Result<Vec<&'a [u8]>, AllocError>
    ensures { IfOk result (λ v. texts_seen v.items ≡ signature_uses signature.now) }
{
    let mut uses = Uses {
        names: Vec::new(alloc),
    };
    uses.note_signature(alloc, signature)?;
    Ok(uses.names)
}
