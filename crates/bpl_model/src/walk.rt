// What is marked leads on.
ghost use Rattle.std.specs.Prelude.{◌≡◌, OnOk, length};
ghost use Rattle.std.specs.List.{flat_map};
ghost use Rattle.bpl_model.specs.Marking.{follow_on, mark_all};
ghost use Rattle.bpl_model.specs.Walk.{on, rows_of};

use crate::declarations::contract_leads_at;
use crate::links::row_at;
use crate::marking::Marking;
use crate::module::DeclText;
use std::alloc;

/// Marks what these declarations lead to by the names of their texts without bodies, and the axioms
/// in their rows.
pub fn follow(
    texts: &[DeclText],
    rows: &[Vec<u64>],
    from: &[u64],
    marking: &mut Marking,
) -> Result<(), alloc::AllocError>
    ensures { OnOk result (marking.new ≡ mark_all marking.old (flat_map (on texts.now (rows_of rows.now)) from.now)) }
{
    for r in from {
        marking.mark_all(contract_leads_at(texts, *r))?;
        marking.mark_all(row_at(rows, *r))?;
    }
    Ok(())
}

/// Marks what new marks lead to, round after round, until there are none: each declaration leads on
/// once.
pub fn follow_on(
    alloc: alloc::Global,
    texts: &[DeclText],
    rows: &[Vec<u64>],
    marking: &mut Marking,
) -> Result<(), alloc::AllocError>
    ensures { OnOk result (marking.new.marks ≡ (follow_on (on texts.now (rows_of rows.now)) (length texts.now) marking.old).marks) }
{
    for _round in 0..texts.len() {
        let from = marking.take_fresh(alloc);
        if from.is_empty() {
            return Ok(());
        }
        follow(texts, rows, from.as_slice(), marking)?;
    }
    Ok(())
}
