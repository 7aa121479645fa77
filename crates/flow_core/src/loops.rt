// Whether the loops are plain.
ghost use Rattle.std.specs.Prelude.{◌<◌, ◌≤◌, ◌↔◌, ◌≡◌, nat_lt, ◌&&◌, IsTrue};
ghost use Rattle.std.specs.List.{list_any};
ghost use Rattle.flow_core.specs.Plain.{LoopIsPlain, LoopsArePlain};

use crate::block::Block;
use crate::edges::entry_limit;

/// Whether each block of a loop other than its head is entered only from blocks of that loop.
pub fn loops_are_plain(blocks: &[Block]) -> bool
    ensures { IsTrue result ↔ LoopsArePlain blocks.now }
{
    for (h, block) in blocks.iter().enumerate() {
        if block.head.is_some() && !loop_is_plain(blocks, h as u64) {
            return false;
        }
    }
    true
}

fn loop_is_plain(blocks: &[Block], head: u64) -> bool
    ensures { IsTrue result ↔ LoopIsPlain blocks.now head }
{
    let limit = entry_limit(blocks, head);
    for (b, block) in blocks.iter().enumerate() {
        let inside = is_between(b as u64, head, limit);
        if !inside && has_between(block.next.as_slice(), head, limit) {
            return false;
        }
    }
    true
}

// Whether the number is at least the first and below the second.
fn is_between(number: u64, low: u64, high: u64) -> bool
    ensures { IsTrue result ↔ ((low ≤ number) × (number < high)) }
{
    low <= number && number < high
}

// Whether one of the numbers lies above the first and below the second.
fn has_between(numbers: &[u64], above: u64, below: u64) -> bool
    ensures { result ≡ list_any (λ n. nat_lt above n && nat_lt n below) numbers.now }
{
    numbers.iter().any(|n| above < *n && *n < below)
}
