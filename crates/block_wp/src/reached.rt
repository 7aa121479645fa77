// The blocks from which a block is reached, and the numbers of their definitions.
ghost use Rattle.std.specs.Prelude.{◌≡◌, [], ◌∷◌, cond, is_some, length, Some, None, IfOk, OnOk};
ghost use Rattle.std.specs.List.{list_any};
ghost use Rattle.passive_form.specs.Passive.{passive_block_at};
ghost use Rattle.block_wp.specs.Numbers.{number_in, with_lower, IsReached};

use logic_core::{Def, Sequence};
use passive_form::Passive;
use std::alloc::{AllocError, Global};

/// The blocks from which the last one is reached, highest first, and the number of each one's
/// definition, which come after those given. The table has the numbers from the last block's
/// downwards.
#[derive(Drop)]
pub struct Reached {
    pub given: u64,
    pub last: u64,
    pub blocks: Sequence<u64>,
    pub table: Sequence<Option<u64>>,
}

impl Reached {
    /// The number of the block's definition, if it has one.
    pub fn number(&self, block: u64) -> Option<u64>
        ensures { result ≡ number_in self.now block }
    {
        if block > self.last {
            return None;
        }
        match self.table.as_slice().get((self.last - block) as usize) {
            Some(number) => *number,
            None => None,
        }
    }

    // Whether one of the blocks has a definition.
    fn has_one_of(&self, blocks: &[u64]) -> bool
        ensures { result ≡ list_any (λ c. is_some (number_in self.now c)) blocks.now }
    {
        for block in blocks {
            if self.number(*block).is_some() {
                return true;
            }
        }
        false
    }

    // Whether an edge goes from the block to one that has a definition.
    fn is_led_to(&self, passive: &Passive, block: u64) -> bool
        ensures { result ≡ list_any (λ c. is_some (number_in self.now c)) (passive_block_at passive.now.blocks block).next }
    {
        match passive.blocks.as_slice().get(block as usize) {
            Some(block) => self.has_one_of(block.next.as_slice()),
            None => false,
        }
    }

    // The next lower block comes into the table, and if it is so among the blocks.
    fn lower(&mut self, block: u64, joins: bool, number: u64) -> Result<(), AllocError>
        ensures { OnOk result (self.new ≡ with_lower self.old block joins number) }
    {
        if joins {
            self.blocks.push(block)?;
            self.table.push(Some(number))
        } else {
            self.table.push(None)
        }
    }
}

// The last block alone, whose definition comes after those given.
fn alone(alloc: Global, given: u64, last: u64) -> Result<Reached, AllocError>
    ensures { IfOk result (λ r. r ≡ record { given = given; last = last; blocks = last ∷ []; table = Some given ∷ [] }) }
{
    let mut blocks = Sequence::new(alloc);
    blocks.push(last)?;
    let mut table = Sequence::new(alloc);
    table.push(Some(given))?;
    Ok(Reached {
        given,
        last,
        blocks,
        table,
    })
}

/// The blocks from which this one is reached, and the numbers of their definitions, which come
/// after the given ones.
pub fn reaching(
    alloc: Global,
    passive: &Passive,
    defs: &[Def],
    last: u64,
) -> Result<Reached, AllocError>
    ensures { IfOk result (λ r. IsReached passive.now (length defs.now) last r) }
{
    let mut reached = alone(alloc, defs.len() as u64, last)?;
    for i in 0..last {
        let block = last - 1 - i;
        let joins = reached.is_led_to(passive, block);
        let number = (defs.len() + reached.blocks.as_slice().len()) as u64;
        reached.lower(block, joins, number)?;
    }
    Ok(reached)
}
