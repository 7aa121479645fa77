// The order in which functions are numbered: each behind those that it applies, which a walk from
// the first function on finds.
ghost use Rattle.std.specs.Prelude.{◌≡◌, [], ◌∷◌, fold, filter, length, OnOk};
ghost use Rattle.bpl_scopes.specs.Positions.{beside};
ghost use Rattle.bpl_scopes.specs.Scopes.{entity_of};
ghost use Rattle.bpl_scopes.specs.KnownSorts.{names_in};
ghost use Rattle.bpl_scopes.specs.Functions.{numbered, is_function};
ghost use Rattle.bpl_scopes.specs.TableView.{entries_seen};
ghost use Rattle.bpl_dependencies.specs.NamesAt.{name_at, names_at, looked_name};
ghost use Rattle.bpl_dependencies.specs.Reach.{edges_seen, AreEdges};

use crate::edges::is_function_named;
use crate::reach::row;
use bpl_scopes::{Entry, Positions, Table};
use std::alloc::AllocError;

fn entry_name<'a>(entries: &[Entry<'a>], at: usize) -> &'a [u8]
    ensures { result.now ≡ looked_name entries.now at }
{
    match entries.get(at) {
        Some(entry) => entry.name,
        None => &[],
    }
}

fn name_at<'a>(table: &Table<'a>, at: usize) -> &'a [u8]
    ensures { result.now ≡ name_at (names_in table.now) at }
{
    entry_name(table.entries(), at)
}

fn edges_at(edges: &[Vec<usize>], at: Option<usize>) -> &[usize]
    ensures { result.now ≡ beside [] (edges_seen edges.now) at }
{
    match at {
        Some(at) => row(edges, at),
        None => &[],
    }
}

// Numbers a function behind those that it applies, unless it has a number.
#[cycle(numbering)]
fn number<'a>(
    table: &Table<'a>,
    edges: &[Vec<usize>],
    room: usize,
    name: &'a [u8],
    order: &mut Positions<'a>,
) -> Result<(), AllocError>
    requires { AreEdges table.now (edges_seen edges.now) }
    ensures { OnOk result (order.new ≡ numbered table.now room order.old name.now) }
{
    if room == 0 {
        return Ok(());
    }
    if order.contains(name) {
        return Ok(());
    }
    let next = edges_at(edges, table.find(name));
    number_each(table, edges, room - 1, next, order)?;
    order.push(name)?;
    Ok(())
}

#[cycle(numbering)]
fn number_each<'a>(
    table: &Table<'a>,
    edges: &[Vec<usize>],
    room: usize,
    positions: &[usize],
    order: &mut Positions<'a>,
) -> Result<(), AllocError>
    requires { AreEdges table.now (edges_seen edges.now) }
    ensures { OnOk result (order.new ≡ fold (numbered table.now room) order.old (names_at (names_in table.now) positions.now)) }
{
    for position in positions {
        let name = name_at(table, *position);
        number(table, edges, room, name, order)?;
    }
    Ok(())
}

fn number_function<'a>(
    table: &Table<'a>,
    edges: &[Vec<usize>],
    name: &'a [u8],
    order: &mut Positions<'a>,
) -> Result<(), AllocError>
    requires { AreEdges table.now (edges_seen edges.now) }
    ensures { OnOk result (order.new ≡ fold (numbered table.now (length table.now)) order.old (filter (λ n. is_function (entity_of table.now n)) (name.now ∷ []))) }
{
    if !is_function_named(table, name) {
        return Ok(());
    }
    number(table, edges, table.len(), name, order)
}

/// Numbers the functions among entries.
pub(crate) fn number_functions<'a>(
    table: &Table<'a>,
    edges: &[Vec<usize>],
    entries: &[Entry<'a>],
    order: &mut Positions<'a>,
) -> Result<(), AllocError>
    requires { AreEdges table.now (edges_seen edges.now) }
    ensures { OnOk result (order.new ≡ fold (numbered table.now (length table.now)) order.old (filter (λ n. is_function (entity_of table.now n)) (names_in (entries_seen entries.now)))) }
{
    for entry in entries {
        number_function(table, edges, entry.name, order)?;
    }
    Ok(())
}
