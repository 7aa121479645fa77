// Which names are logical functions, as flags beside the entries of a table.
ghost use Rattle.std.specs.Prelude.{◌≡◌, IfOk};
ghost use Rattle.bpl_scopes.specs.LogicalView.{logical_at};
ghost use Rattle.bpl_scopes.specs.TableView.{entries_seen};
ghost use Rattle.bpl_dependencies.specs.Reach.{edges_seen, AreEdges, is_quantified_at, flags_at};

use crate::quantified::is_quantified;
use crate::reach::reached;
use bpl_scopes::{Entity, Entry, Table};
use std::alloc::{AllocError, Global};

fn is_quantified_named(table: &Table, name: &[u8]) -> bool
    ensures { result ≡ is_quantified_at table.now name.now }
{
    match table.entity(name) {
        Some(
            Entity::Function {
                ins: _,
                of: _,
                value: Some(body),
            },
        ) => is_quantified(body),
        _ => false,
    }
}

// Whether the body of each entry's function has a quantifier.
fn each_quantified(alloc: Global, table: &Table, entries: &[Entry]) -> Result<Vec<bool>, AllocError>
    ensures { IfOk result (λ v. v.items ≡ flags_at (entries_seen entries.now) (is_quantified_at table.now)) }
{
    let mut flags = Vec::new(alloc);
    for entry in entries {
        flags.push(is_quantified_named(table, entry.name))?;
    }
    Ok(flags)
}

fn table_quantified(alloc: Global, table: &Table) -> Result<Vec<bool>, AllocError>
    ensures { IfOk result (λ v. v.items ≡ flags_at table.now (is_quantified_at table.now)) }
{
    each_quantified(alloc, table, table.entries())
}

/// Which entries' names are logical functions.
#[tactic(auto, using(crate::proofs::Reaching::logical_from))]
pub(crate) fn logical_flags(
    alloc: Global,
    table: &Table,
    edges: &[Vec<usize>],
) -> Result<Vec<bool>, AllocError>
    requires { AreEdges table.now (edges_seen edges.now) }
    ensures { IfOk result (λ v. v.items ≡ logical_at table.now) }
{
    let quantified = table_quantified(alloc, table)?;
    let flags = reached(alloc, &quantified, edges)?;
    Ok(flags)
}
