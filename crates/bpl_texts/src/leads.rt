// The declarations for which names stand.
ghost use Rattle.std.specs.Prelude.{◌≡◌, ◌++◌, IfOk, OnOk, option_map};
ghost use Rattle.bpl_scopes.specs.Scopes.{entry_of};
ghost use Rattle.bpl_dependencies.specs.AppliedView.{texts_seen};
ghost use Rattle.bpl_texts.specs.Uses.{leads_of};
ghost use Rattle.bpl_texts.specs.Leads.{looked_decl, decl_below, decls_below};

use bpl_scopes::{Entry, Table};
use std::alloc::{AllocError, Global};

fn decl_at(entries: &[Entry], at: Option<usize>) -> Option<usize>
    ensures { result ≡ looked_decl entries.now at }
{
    match at {
        Some(at) => match entries.get(at) {
            Some(entry) => Some(entry.decl),
            None => None,
        },
        None => None,
    }
}

// The position of the declaration for which the name stands.
fn decl_of(table: &Table, name: &[u8]) -> Option<usize>
    ensures { result ≡ option_map (λ e. e.decl) (entry_of table.now name.now) }
{
    decl_at(table.entries(), table.find(name))
}

// Puts a position behind others, where it is one of so many.
fn push_below(decls: &mut Vec<u64>, count: usize, decl: Option<usize>) -> Result<(), AllocError>
    ensures { OnOk result (decls.new.items ≡ decls.old.items ++ decl_below count decl) }
{
    match decl {
        Some(decl) => {
            if decl < count {
                decls.push(decl as u64)?;
                Ok(())
            } else {
                Ok(())
            }
        }
        None => Ok(()),
    }
}

// The positions of the declarations for which names stand, one after another.
fn decls_below(
    alloc: Global,
    table: &Table,
    count: usize,
    names: &[&[u8]],
) -> Result<Vec<u64>, AllocError>
    ensures { IfOk result (λ v. v.items ≡ decls_below table.now count (texts_seen names.now)) }
{
    let mut decls = Vec::new(alloc);
    for name in names {
        push_below(&mut decls, count, decl_of(table, name))?;
    }
    Ok(decls)
}

/// The positions of the declarations for which names stand, among so many, in rising order.
pub fn leads_of(
    alloc: Global,
    table: &Table,
    count: usize,
    names: &[&[u8]],
) -> Result<Vec<u64>, AllocError>
    ensures { IfOk result (λ v. v.items ≡ leads_of table.now count (texts_seen names.now)) }
{
    let mut leads = decls_below(alloc, table, count, names)?;
    leads.sort_unstable();
    leads.dedup();
    Ok(leads)
}
