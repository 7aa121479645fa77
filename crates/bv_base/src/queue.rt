// The front of a queue.
ghost use Rattle.std.specs.Prelude.{◌≡◌, ◌≤◌, length, take, drop, IfOk, OnOk};

use std::alloc::{AllocError, Global};
use std::collections::VecDeque;

/// Takes the first so many items out of a queue, in order. The only error is want of memory.
pub fn taken<T: Drop>(
    alloc: Global,
    left: &mut VecDeque<T>,
    count: usize,
) -> Result<Vec<T>, AllocError>
    requires { count ≤ length left.old.items }
    ensures taken { IfOk result (λ v. v.items ≡ take count left.old.items) }
    ensures left { OnOk result (left.new.items ≡ drop count left.old.items) }
{
    let mut own = Vec::new(alloc);
    for _done in 0..count {
        if let Some(item) = left.pop_front() {
            own.push(item)?;
        }
    }
    Ok(own)
}
