// The clauses of contracts with their terms.
ghost use Rattle.std.specs.Prelude.{◌≡◌, ◌++◌, [], ◌∷◌, filter_map, map, option_map, IfOk, OnOk};
ghost use Rattle.bpl_ast.specs.SpecView.{spec_of as spec_tree};
ghost use Rattle.bpl_scopes.specs.CountsView.{counts_seen};
ghost use Rattle.bpl_scopes.specs.Functions.{in_number_order};
ghost use Rattle.bpl_scopes.specs.TableView.{entity_seen};
ghost use Rattle.bpl_resolve.specs.Elaborate.{entity_number, modified_number, spec_in};

use bpl_ast::{Name, Spec, SpecForm};
use bpl_declaration_faults::Declared;
use bpl_faults::Vars;
use bpl_model::{Spec as Typed, SpecForm as TypedForm};
use bpl_scopes::{Counts, Entity, Part, Positions, Table};
use bpl_terms::numbers::global_number;
use bpl_terms::term_of;
use std::alloc::{AllocError, Global};

// The number of a global variable.
fn entity_number(counts: Counts, entity: Option<Entity>) -> Result<Option<u64>, AllocError>
    ensures { IfOk result (λ n. n ≡ entity_number (counts_seen counts) (option_map entity_seen entity.entry)) }
{
    match entity {
        Some(Entity::Global { number, of: _ }) => Ok(Some(global_number(counts, number)?)),
        Some(Entity::Constant { number: _, of: _ }) => Ok(None),
        Some(
            Entity::Function {
                ins: _,
                of: _,
                value: _,
            },
        ) => Ok(None),
        Some(Entity::Synonym { of: _ }) => Ok(None),
        Some(
            Entity::Procedure {
                number: _,
                signature: _,
                specs: _,
            },
        ) => Ok(None),
        None => Ok(None),
    }
}

fn modified_number(table: &Table, counts: Counts, name: &Name) -> Result<Option<u64>, AllocError>
    ensures { IfOk result (λ n. n ≡ modified_number table.now (counts_seen counts) name.now) }
{
    entity_number(counts, table.entity(name.text.as_bytes()))
}

// Puts the number behind others, where there is one.
fn push_number(numbers: &mut Vec<u64>, number: Option<u64>) -> Result<(), AllocError>
    ensures { OnOk result (numbers.new.items ≡ numbers.old.items ++ filter_map (λ n. n) (number ∷ [])) }
{
    match number {
        Some(number) => {
            numbers.push(number)?;
            Ok(())
        }
        None => Ok(()),
    }
}

fn modified_numbers(
    alloc: Global,
    table: &Table,
    counts: Counts,
    names: &[Name],
) -> Result<Vec<u64>, AllocError>
    ensures { IfOk result (λ v. v.items ≡ filter_map (modified_number table.now (counts_seen counts)) names.now) }
{
    let mut numbers = Vec::new(alloc);
    for name in names {
        push_number(&mut numbers, modified_number(table, counts, name)?)?;
    }
    Ok(numbers)
}

// A clause of a contract whose parameters these are.
fn spec_in<'d, 'a>(
    alloc: Global,
    declared: &Declared<'d, 'a>,
    order: &Positions,
    vars: &Vars<'a>,
    spec: &'a Spec,
) -> Result<Typed, AllocError>
    requires { order.now ≡ in_number_order declared.now.environment.now }
    ensures { IfOk result (λ s. s ≡ spec_in declared.now.environment.now (counts_seen declared.now.counts) vars.now spec.now) }
{
    match &spec.form {
        SpecForm::Requires { free, formula } => {
            let scope = declared.scope(alloc, Part::Requires, vars);
            let formula = term_of(alloc, &scope, order, formula)?;
            Ok(Typed::new(TypedForm::Requires(*free, spec.at, formula)))
        }
        SpecForm::Ensures { free, formula } => {
            let scope = declared.scope(alloc, Part::Ensures, vars);
            let formula = term_of(alloc, &scope, order, formula)?;
            Ok(Typed::new(TypedForm::Ensures(*free, spec.at, formula)))
        }
        SpecForm::Modifies(names) => {
            let table = declared.types().table();
            let numbers = modified_numbers(alloc, table, declared.counts, names)?;
            Ok(Typed::new(TypedForm::Modifies(numbers)))
        }
    }
}

/// The clauses of a contract whose parameters these are.
pub(crate) fn specs_in<'d, 'a>(
    alloc: Global,
    declared: &Declared<'d, 'a>,
    order: &Positions,
    vars: &Vars<'a>,
    specs: &'a [Spec],
) -> Result<Vec<Typed>, AllocError>
    requires { order.now ≡ in_number_order declared.now.environment.now }
    ensures { IfOk result (λ v. v.items ≡ map (spec_in declared.now.environment.now (counts_seen declared.now.counts) vars.now) specs.now) }
{
    let mut typed = Vec::new(alloc);
    for spec in specs {
        typed.push(spec_in(alloc, declared, order, vars, spec)?)?;
    }
    Ok(typed)
}
