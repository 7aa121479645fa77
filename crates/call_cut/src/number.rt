// Numbers of variables.
ghost use Rattle.std.specs.Prelude.{◌≡◌, ◌+◌, IfOk, length};
ghost use Rattle.std.specs.List.{range_with_len};
ghost use Rattle.bpl_model.specs.Numbering.{first_entry, first_in, first_out, first_local};

use bpl_model::number::sum;
use bpl_model::{Parts, Proc};
use std::alloc::{AllocError, Global};

/// The number of the first entry value.
pub fn first_entry(parts: &Parts) -> Result<u64, AllocError>
    ensures { IfOk result (λ n. n ≡ first_entry parts.now) }
{
    sum(parts.consts.len() as u64, parts.globals.len() as u64)
}

/// The number of a procedure's first in-parameter.
pub fn first_in(parts: &Parts) -> Result<u64, AllocError>
    ensures { IfOk result (λ n. n ≡ first_in parts.now) }
{
    sum(first_entry(parts)?, parts.globals.len() as u64)
}

/// The number of the procedure's first out.
pub fn first_out(parts: &Parts, proc: &Proc) -> Result<u64, AllocError>
    ensures { IfOk result (λ n. n ≡ first_out parts.now proc.now) }
{
    sum(first_in(parts)?, proc.ins.len() as u64)
}

/// The number of the procedure's first local.
pub fn first_local(parts: &Parts, proc: &Proc) -> Result<u64, AllocError>
    ensures { IfOk result (λ n. n ≡ first_local parts.now proc.now) }
{
    sum(first_out(parts, proc)?, proc.outs.len() as u64)
}

/// Numbers one after another.
pub fn range(alloc: Global, first: u64, count: usize) -> Result<Vec<u64>, AllocError>
    ensures { IfOk result (λ v. v.items ≡ range_with_len first count) }
{
    let mut numbers = Vec::new(alloc);
    for i in 0..count {
        numbers.push(sum(first, i as u64)?)?;
    }
    Ok(numbers)
}
