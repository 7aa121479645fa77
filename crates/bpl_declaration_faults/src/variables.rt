// The variables of a procedure with their numbers.
ghost use Rattle.std.specs.Prelude.{◌≡◌, ◌++◌, ◌+◌, length, IfOk, OnOk};
ghost use Rattle.bpl_ast.specs.ExprView.{groups_of, each_groups_of};
ghost use Rattle.bpl_scopes.specs.CountsView.{counts_seen};
ghost use Rattle.bpl_scopes.specs.KnownSorts.{hidden_seen};
ghost use Rattle.bpl_scopes.specs.declared.part.Role.TheVariants.{Local as local_variable};
ghost use Rattle.bpl_scopes.specs.Shape.{kind_seen};
ghost use Rattle.bpl_scopes.specs.Scopes.{names_of, texts_of};
ghost use Rattle.bpl_faults.specs.Arguments.{names_seen};
ghost use Rattle.bpl_declaration_faults.specs.DeclView.{vars_named};
ghost use Rattle.bpl_declaration_faults.specs.Variables.{vars_from, first_parameter, locals_of, names_in_body, parameters, body_vars};

use bpl_ast::{Group, Name, Signature};
use bpl_faults::listed::push_group_names;
use bpl_faults::{Var, Vars};
use bpl_scopes::{Counts, Hidden, Positions, Role, Shape, Types};
use bpl_statement_faults::names::{parameter_names, parameter_positions, positions_of};
use std::alloc::{AllocError, Global};

// The sum of two counts. No memory holds as many names as a count of 64 bits doesn't hold.
fn plus(count: u64, more: u64) -> Result<u64, AllocError>
    ensures { IfOk result (λ n. n ≡ count + more) }
{
    match count.checked_add(more) {
        Some(sum) => Ok(sum),
        None => Err(AllocError),
    }
}

fn push_named<'a>(
    vars: &mut Vars<'a>,
    role: Role,
    from: u64,
    sort: Option<Shape>,
    names: &'a [Name],
) -> Result<u64, AllocError>
    ensures vars { OnOk result (vars.new ≡ vars.old ++ vars_named (kind_seen sort) role from names.now) }
    ensures counted { IfOk result (λ n. n ≡ from + length names.now) }
{
    let mut number = from;
    for name in names {
        let name = name.text.as_bytes();
        vars.push(Var {
            name,
            role,
            number,
            sort,
        })?;
        number = plus(number, 1)?;
    }
    Ok(number)
}

// Puts the names of groups behind others, numbered from a number on, where some names are no types.
fn push_group_vars<'a>(
    vars: &mut Vars<'a>,
    types: &Types,
    hidden: &Hidden,
    role: Role,
    from: u64,
    groups: &'a [Group],
) -> Result<u64, AllocError>
    ensures vars { OnOk result (vars.new ≡ vars.old ++ vars_from types.now (hidden_seen hidden.now) role from (names_of (groups_of groups.now))) }
    ensures counted { IfOk result (λ n. n ≡ from + length (names_of (groups_of groups.now))) }
{
    let mut number = from;
    for group in groups {
        let sort = types.sort(hidden, &group.of)?;
        number = push_named(vars, role, number, sort, &group.names)?;
    }
    Ok(number)
}

fn first_parameter(counts: Counts) -> Result<u64, AllocError>
    ensures { IfOk result (λ n. n ≡ first_parameter (counts_seen counts)) }
{
    plus(counts.constants, plus(counts.globals, counts.globals)?)
}

// The parameters of a procedure, and the number of its first local.
fn numbered_parameters<'a>(
    alloc: Global,
    types: &Types,
    counts: Counts,
    signature: &'a Signature,
) -> Result<(Vars<'a>, u64), AllocError>
    ensures vars { IfOk result (λ r. r.0 ≡ parameters types.now (counts_seen counts) signature.now) }
    ensures counted { IfOk result (λ r. r.1 ≡ first_parameter (counts_seen counts) + (length (names_of signature.now.ins) + length (names_of signature.now.outs))) }
{
    let names = parameter_positions(alloc, signature)?;
    let hidden = Hidden {
        bounds: &[],
        names: &names,
    };
    let mut vars = Vars::new(alloc);
    let first = first_parameter(counts)?;
    let outs = push_group_vars(&mut vars, types, &hidden, Role::In, first, &signature.ins)?;
    let locals = push_group_vars(&mut vars, types, &hidden, Role::Out, outs, &signature.outs)?;
    Ok((vars, locals))
}

/// The parameters of a procedure.
pub fn parameters<'a>(
    alloc: Global,
    types: &Types,
    counts: Counts,
    signature: &'a Signature,
) -> Result<Vars<'a>, AllocError>
    ensures { IfOk result (λ v. v ≡ parameters types.now (counts_seen counts) signature.now) }
{
    let (vars, _) = numbered_parameters(alloc, types, counts, signature)?;
    Ok(vars)
}

/// The names of a procedure's parameters, and then those of locals.
pub fn names_in_body<'a>(
    alloc: Global,
    signature: &'a Signature,
    locals: &'a [Vec<Group>],
) -> Result<Vec<&'a Name>, AllocError>
    ensures { IfOk result (λ v. names_seen v.items ≡ names_in_body signature.now (each_groups_of locals.now)) }
{
    let mut names = parameter_names(alloc, signature)?;
    for groups in locals {
        push_group_names(&mut names, groups)?;
    }
    Ok(names)
}

/// The names of a procedure's parameters and locals, found by hash.
pub fn body_positions<'a>(
    alloc: Global,
    signature: &'a Signature,
    locals: &'a [Vec<Group>],
) -> Result<Positions<'a>, AllocError>
    ensures { IfOk result (λ p. p ≡ texts_of (names_in_body signature.now (each_groups_of locals.now))) }
{
    let names = names_in_body(alloc, signature, locals)?;
    positions_of(alloc, &names)
}

// Puts locals behind others, numbered from a number on, where some names are no types.
fn push_locals<'a>(
    vars: &mut Vars<'a>,
    types: &Types,
    hidden: &Hidden,
    from: u64,
    locals: &'a [Vec<Group>],
) -> Result<(), AllocError>
    ensures { OnOk result (vars.new ≡ vars.old ++ vars_from types.now (hidden_seen hidden.now) local_variable from (locals_of (each_groups_of locals.now))) }
{
    let mut number = from;
    for groups in locals {
        number = push_group_vars(vars, types, hidden, Role::Local, number, groups)?;
    }
    Ok(())
}

/// The parameters and locals of a procedure.
pub fn body_vars<'a>(
    alloc: Global,
    types: &Types,
    counts: Counts,
    signature: &'a Signature,
    locals: &'a [Vec<Group>],
) -> Result<Vars<'a>, AllocError>
    ensures { IfOk result (λ v. v ≡ body_vars types.now (counts_seen counts) signature.now (each_groups_of locals.now)) }
{
    let names = body_positions(alloc, signature, locals)?;
    let hidden = Hidden {
        bounds: &[],
        names: &names,
    };
    let (mut vars, first) = numbered_parameters(alloc, types, counts, signature)?;
    push_locals(&mut vars, types, &hidden, first, locals)?;
    Ok(vars)
}
