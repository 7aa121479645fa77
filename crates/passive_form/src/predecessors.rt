// Which blocks have an edge to each block.
ghost use Rattle.std.specs.Prelude.{◌≡◌, ℕ, ◌+◌, ◌-◌, ◌<◌, ◌↔◌, Bool, cond, List, [], ◌∷◌, ◌++◌, map, length, slice_get, Some, IsTrue, All, IfOk, OnOk};
ghost use Rattle.std.specs.List.{range_with_len};
ghost use Rattle.passive_form.specs.Incarnations.{numbers, predecessors, predecessors_below};

use flow_core::Block;
use logic_core::Sequence;
use std::alloc::{AllocError, Global};

// Whether the number stands at the end.
fn ends_with(row: &[u64], number: u64) -> bool
    ensures { IsTrue result ↔ (slice_get row.now (length row.now - 1) ≡ Some number) }
{
    match row.last() {
        Some(last) => *last == number,
        None => false,
    }
}

// A number above all others of the row stands at its end, once.
fn note(row: &mut Sequence<u64>, number: u64) -> Result<(), AllocError>
    ensures { OnOk result ((above : List ℕ) (noted : Bool) → All (λ m. m < number) above → row.old ≡ above ++ cond noted (number ∷ []) [] → row.new ≡ above ++ number ∷ []) }
{
    if ends_with(row.as_slice(), number) {
        return Ok(());
    }
    row.push(number)
}

// Rows with the predecessors among the blocks below this one get those among one more.
fn note_edges(rows: &mut [Sequence<u64>], blocks: &[Block], number: u64) -> Result<(), AllocError>
    requires there { number < length blocks.now }
    requires below { rows.old ≡ map (predecessors_below blocks.now number) (numbers blocks.now) }
    ensures { OnOk result (rows.new ≡ map (predecessors_below blocks.now (number + 1)) (numbers blocks.now)) }
{
    for block in blocks[number as usize].next.as_slice() {
        let place = *block as usize;
        if place < rows.len() {
            note(&mut rows[place], number)?;
        }
    }
    Ok(())
}

fn empty_rows(alloc: Global, count: usize) -> Result<Vec<Sequence<u64>>, AllocError>
    ensures { IfOk result (λ v. v.items ≡ map (λ b. []) (range_with_len 0 count)) }
{
    let mut rows = Vec::new(alloc);
    for place in 0..count {
        rows.push(Sequence::new(alloc))?;
    }
    Ok(rows)
}

/// Of each block those with an edge to it, in rising order.
pub fn predecessors(alloc: Global, blocks: &[Block]) -> Result<Vec<Sequence<u64>>, AllocError>
    ensures { IfOk result (λ v. v.items ≡ map (predecessors blocks.now) (numbers blocks.now)) }
{
    let mut rows = empty_rows(alloc, blocks.len())?;
    for number in 0..blocks.len() as u64 {
        note_edges(&mut rows, blocks, number)?;
    }
    Ok(rows)
}
