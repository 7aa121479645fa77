// Where the predecessors of a block join.
ghost use Rattle.std.specs.Prelude.{◌≡◌, ◌∷◌, nat_eq, nat_lt, cond, map, slice_index_or, IfOk, OnOk};
ghost use Rattle.std.specs.List.{list_all, range_with_len};
ghost use Rattle.passive_form.specs.Incarnations.{incarnation, nothing_done, lasts, disagree, arriving, havocked, new_at_join};

use crate::done::{Done, last_of};
use crate::incarnations::Incarnations;
use crate::made::Made;
use logic_core::Sequence;
use std::alloc::{AllocError, Global};

// Whether the variable has this incarnation at the end of each of the blocks.
fn agree(done: &[Done], blocks: &[u64], variable: u64, number: u64) -> bool
    ensures { result ≡ list_all (λ j. nat_eq number (incarnation j variable)) (lasts done.now blocks.now) }
{
    for block in blocks {
        if last_of(done, *block, variable) != number {
            return false;
        }
    }
    true
}

fn disagree_with(
    alloc: Global,
    own: u64,
    done: &[Done],
    first: u64,
    others: &[u64],
) -> Result<Vec<u64>, AllocError>
    ensures { IfOk result (λ v. v.items ≡ disagree own (lasts done.now (first ∷ others.now))) }
{
    let mut variables = Vec::new(alloc);
    for variable in 0..own {
        if !agree(done, others, variable, last_of(done, first, variable)) {
            variables.push(variable)?;
        }
    }
    Ok(variables)
}

/// The variables on which two predecessors disagree, those of replaced calls apart.
pub fn disagree(
    alloc: Global,
    own: u64,
    done: &[Done],
    predecessors: &[u64],
) -> Result<Vec<u64>, AllocError>
    ensures { IfOk result (λ v. v.items ≡ disagree own (lasts done.now predecessors.now)) }
{
    match predecessors.split_first() {
        Some((first, others)) => disagree_with(alloc, own, done, *first, others),
        None => Ok(Vec::new(alloc)),
    }
}

// The incarnation of the variable at the end of a block; a replaced call's variable stands for
// itself.
fn kept(own: u64, done: &[Done], predecessor: u64, variable: u64) -> u64
    ensures { result ≡ cond (nat_lt variable own) (incarnation (slice_index_or done.now predecessor nothing_done).last variable) variable }
{
    if variable < own {
        last_of(done, predecessor, variable)
    } else {
        variable
    }
}

fn from_predecessor(
    alloc: Global,
    own: u64,
    count: usize,
    done: &[Done],
    predecessor: u64,
) -> Result<Incarnations, AllocError>
    ensures { IfOk result (λ i. i ≡ map (λ v. cond (nat_lt v own) (incarnation (slice_index_or done.now predecessor nothing_done).last v) v) (range_with_len 0 count)) }
{
    let mut numbers = Vec::new(alloc);
    for variable in 0..count as u64 {
        numbers.push(kept(own, done, predecessor, variable))?;
    }
    Ok(Incarnations::new(numbers))
}

/// The incarnations at the arrival at a block: the first ones where it has no predecessor, and else
/// those of its first predecessor, replaced calls' variables apart.
pub fn arriving(
    alloc: Global,
    own: u64,
    first: &[u64],
    done: &[Done],
    predecessors: &[u64],
) -> Result<Incarnations, AllocError>
    ensures { IfOk result (λ i. i ≡ arriving own first.now (lasts done.now predecessors.now)) }
{
    match predecessors.first() {
        Some(predecessor) => from_predecessor(alloc, own, first.len(), done, *predecessor),
        None => Ok(Incarnations::new(Vec::from_slice(alloc, first)?)),
    }
}

impl Made {
    /// Each of the variables has a new incarnation, with which it is in the result.
    pub fn join(
        &mut self,
        alloc: Global,
        variables: &[u64],
    ) -> Result<Sequence<(u64, u64)>, AllocError>
        ensures made { OnOk result (self.new ≡ havocked self.old variables.now) }
        ensures joined { IfOk result (λ j. j ≡ new_at_join self.old variables.now) }
    {
        let mut joined = Sequence::new(alloc);
        for variable in variables {
            joined.push((*variable, self.next()))?;
            self.anew(alloc, *variable)?;
        }
        Ok(joined)
    }
}
