// To which names each name leads in one step: a function to the functions that it applies, a
// synonym to the synonyms in its type.
ghost use Rattle.std.specs.Prelude.{◌≡◌, ◌++◌, [], ◌∷◌, map, Some, IfOk, OnOk};
ghost use Rattle.bpl_scopes.specs.Scopes.{entity_of, texts_of};
ghost use Rattle.bpl_scopes.specs.TableView.{entries_seen};
ghost use Rattle.bpl_dependencies.specs.AppliedView.{texts_seen};
ghost use Rattle.bpl_scopes.specs.Functions.{applied_in, argument_names, names_in_type, is_function, is_synonym};
ghost use Rattle.bpl_dependencies.specs.Reach.{next_of, first_position, functions_among, synonyms_among, function_alone, synonym_alone, edges_seen, AreEdges};

use crate::applied::{Applied, applied_in_body};
use bpl_ast::Type;
use bpl_scopes::{Entity, Entry, Table};
use std::alloc::{AllocError, Global};

pub(crate) fn is_function_named(table: &Table, name: &[u8]) -> bool
    ensures { result ≡ is_function (entity_of table.now name.now) }
{
    match table.entity(name) {
        Some(
            Entity::Function {
                ins: _,
                of: _,
                value: _,
            },
        ) => true,
        _ => false,
    }
}

fn is_synonym_named(table: &Table, name: &[u8]) -> bool
    ensures { result ≡ is_synonym (entity_of table.now name.now) }
{
    match table.entity(name) {
        Some(Entity::Synonym { of: _ }) => true,
        _ => false,
    }
}

#[tactic(auto, using(crate::proofs::NextNames::kept_one, crate::proofs::NextNames::kept_none, crate::proofs::NextNames::function_stands), unfolding(crate::specs::Reach::function_alone, crate::specs::Reach::functions_among))]
fn push_function(table: &Table, name: &[u8], positions: &mut Vec<usize>) -> Result<(), AllocError>
    ensures { OnOk result (map Some positions.new.items ≡ map Some positions.old.items ++ function_alone table.now name.now) }
{
    if !is_function_named(table, name) {
        return Ok(());
    }
    let Some(at) = table.find(name) else {
        return Ok(());
    };
    positions.push(at)?;
    Ok(())
}

fn functions_at(alloc: Global, table: &Table, names: &[&[u8]]) -> Result<Vec<usize>, AllocError>
    ensures { IfOk result (λ v. map Some v.items ≡ functions_among table.now (texts_seen names.now)) }
{
    let mut positions = Vec::new(alloc);
    for name in names {
        push_function(table, name, &mut positions)?;
    }
    Ok(positions)
}

#[tactic(auto, using(crate::proofs::NextNames::kept_one, crate::proofs::NextNames::kept_none, crate::proofs::NextNames::synonym_stands), unfolding(crate::specs::Reach::synonym_alone, crate::specs::Reach::synonyms_among))]
fn push_synonym(table: &Table, name: &[u8], positions: &mut Vec<usize>) -> Result<(), AllocError>
    ensures { OnOk result (map Some positions.new.items ≡ map Some positions.old.items ++ synonym_alone table.now name.now) }
{
    if !is_synonym_named(table, name) {
        return Ok(());
    }
    let Some(at) = table.find(name) else {
        return Ok(());
    };
    positions.push(at)?;
    Ok(())
}

fn synonyms_at(alloc: Global, table: &Table, names: &[&[u8]]) -> Result<Vec<usize>, AllocError>
    ensures { IfOk result (λ v. map Some v.items ≡ synonyms_among table.now (texts_seen names.now)) }
{
    let mut positions = Vec::new(alloc);
    for name in names {
        push_synonym(table, name, &mut positions)?;
    }
    Ok(positions)
}

#[tactic(auto, unfolding(crate::specs::Reach::functions_among, crate::specs::Reach::synonyms_among))]
fn edges_of(alloc: Global, table: &Table, name: &[u8]) -> Result<Vec<usize>, AllocError>
    ensures { IfOk result (λ v. map Some v.items ≡ map (first_position table.now) (next_of table.now name.now)) }
{
    match table.entity(name) {
        Some(
            Entity::Function {
                ins,
                of: _,
                value: Some(body),
            },
        ) => {
            let names = applied_in_body(alloc, ins, body)?;
            functions_at(alloc, table, &names)
        }
        Some(Entity::Synonym { of: Some(of) }) => {
            let names = named_in_type(alloc, of)?;
            synonyms_at(alloc, table, &names)
        }
        _ => Ok(Vec::new(alloc)),
    }
}

fn named_in_type<'a>(alloc: Global, of: &'a Type) -> Result<Vec<&'a [u8]>, AllocError>
    ensures { IfOk result (λ v. texts_seen v.items ≡ names_in_type of.now) }
{
    let mut named = Applied {
        names: Vec::new(alloc),
    };
    named.note_type(of)?;
    Ok(named.names)
}

fn each_edges(
    alloc: Global,
    table: &Table,
    entries: &[Entry],
) -> Result<Vec<Vec<usize>>, AllocError>
    ensures { IfOk result (λ v. map (map Some) (edges_seen v.items) ≡ map (λ e. map (first_position table.now) (next_of table.now e.name)) (entries_seen entries.now)) }
{
    let mut edges = Vec::new(alloc);
    for entry in entries {
        edges.push(edges_of(alloc, table, entry.name)?)?;
    }
    Ok(edges)
}

/// The edges of each entry's name.
pub(crate) fn table_edges(alloc: Global, table: &Table) -> Result<Vec<Vec<usize>>, AllocError>
    ensures { IfOk result (λ v. AreEdges table.now (edges_seen v.items)) }
{
    each_edges(alloc, table, table.entries())
}
