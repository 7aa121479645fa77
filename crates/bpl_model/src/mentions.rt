// The axioms that name a constant or a function, by its position.
ghost use Rattle.std.specs.Prelude.{◌≡◌, IfOk, OnOk, [], filter};
ghost use lib.ListN.{replicate};
ghost use Rattle.bpl_model.specs.Walk.{is_free, mention_rows, names_none, rows_of, with_axiom, with_entry, with_mention, with_mentions};

use crate::declarations::{is_at, leads_at};
use crate::module::DeclText;
use crate::name_set::NameSet;
use std::alloc;

/// For each declaration, those of the axioms at these positions that name it, where it is one of
/// constants or a function.
pub fn mention_rows(
    alloc: alloc::Global,
    texts: &[DeclText],
    symbols: &NameSet<'_>,
    axioms: &NameSet<'_>,
    positions: &[u64],
) -> Result<Vec<Vec<u64>>, alloc::AllocError>
    ensures { IfOk result (λ v. rows_of v.items ≡ mention_rows texts.now symbols.now axioms.now positions.now) }
{
    let mut rows = empty_rows(alloc, texts.len())?;
    for d in positions {
        put_axiom(texts, symbols, axioms, *d, &mut rows)?;
    }
    Ok(rows)
}

/// So many rows in which nothing stands.
pub fn empty_rows(alloc: alloc::Global, count: usize) -> Result<Vec<Vec<u64>>, alloc::AllocError>
    ensures { IfOk result (λ v. rows_of v.items ≡ replicate count []) }
{
    let mut rows = Vec::new(alloc);
    for _row in 0..count {
        rows.push(Vec::new(alloc))?;
    }
    Ok(rows)
}

// Puts an axiom into the rows of what it names; another declaration into none.
fn put_axiom(
    texts: &[DeclText],
    symbols: &NameSet<'_>,
    axioms: &NameSet<'_>,
    d: u64,
    rows: &mut Vec<Vec<u64>>,
) -> Result<(), alloc::AllocError>
    ensures { OnOk result (rows_of rows.new.items ≡ with_axiom texts.now symbols.now axioms.now (rows_of rows.old.items) d) }
{
    if is_at(texts, axioms, d) {
        put_mentions(texts, symbols, d, leads_at(texts, d), rows)
    } else {
        Ok(())
    }
}

fn put_mentions(
    texts: &[DeclText],
    symbols: &NameSet<'_>,
    d: u64,
    leads: &[u64],
    rows: &mut Vec<Vec<u64>>,
) -> Result<(), alloc::AllocError>
    ensures { OnOk result (rows_of rows.new.items ≡ with_mentions texts.now symbols.now d (rows_of rows.old.items) leads.now) }
{
    for lead in leads {
        put_mention(texts, symbols, d, *lead, rows)?;
    }
    Ok(())
}

fn put_mention(
    texts: &[DeclText],
    symbols: &NameSet<'_>,
    d: u64,
    lead: u64,
    rows: &mut Vec<Vec<u64>>,
) -> Result<(), alloc::AllocError>
    ensures { OnOk result (rows_of rows.new.items ≡ with_mention texts.now symbols.now d (rows_of rows.old.items) lead) }
{
    if is_at(texts, symbols, lead) {
        put_entry(rows, lead, d)
    } else {
        Ok(())
    }
}

/// Puts an entry behind a row, if it is there.
#[tactic(auto, using(crate::proofs::Rows::entry_put))]
pub fn put_entry(rows: &mut Vec<Vec<u64>>, r: u64, d: u64) -> Result<(), alloc::AllocError>
    ensures { OnOk result (rows_of rows.new.items ≡ with_entry (rows_of rows.old.items) r d) }
{
    let at = r as usize;
    if at < rows.len() {
        rows[at].push(d)?;
    }
    Ok(())
}

/// Those of the axioms at these positions that name no constant and no function.
pub fn free_axioms(
    alloc: alloc::Global,
    texts: &[DeclText],
    symbols: &NameSet<'_>,
    axioms: &NameSet<'_>,
    positions: &[u64],
) -> Result<Vec<u64>, alloc::AllocError>
    ensures { IfOk result (λ v. v.items ≡ filter (is_free texts.now symbols.now axioms.now) positions.now) }
{
    let mut free = Vec::new(alloc);
    for d in positions {
        if is_free(texts, symbols, axioms, *d) {
            free.push(*d)?;
        }
    }
    Ok(free)
}

fn is_free(texts: &[DeclText], symbols: &NameSet<'_>, axioms: &NameSet<'_>, d: u64) -> bool
    ensures { result ≡ is_free texts.now symbols.now axioms.now d }
{
    is_at(texts, axioms, d) && names_none(texts, symbols, leads_at(texts, d))
}

fn names_none(texts: &[DeclText], symbols: &NameSet<'_>, leads: &[u64]) -> bool
    ensures { result ≡ names_none texts.now symbols.now leads.now }
{
    for lead in leads {
        if is_at(texts, symbols, *lead) {
            return false;
        }
    }
    true
}
