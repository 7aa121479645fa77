// The edges of blocks.
ghost use Rattle.std.specs.Prelude.{◌↔◌, ◌≡◌, ℕ, ◌<◌, ◌==◌, IsTrue, count_by, Contains};
ghost use Rattle.flow_core.specs.Plain.{EnteredFrom};

use crate::block::Block;

impl Block {
    /// Whether an edge goes from the block to the one of this number.
    pub fn leads_to(&self, block: u64) -> bool
        ensures { IsTrue result ↔ Contains self.now.next block }
    {
        self.next.as_slice().contains(&block)
    }

    /// The number of edges from the block to the one of this number.
    pub fn edges_to(&self, block: u64) -> usize
        ensures { result ≡ count_by (λ x. x == block) self.now.next }
    {
        self.next.as_slice().iter().filter(|x| **x == block).count()
    }
}

/// The number after the greatest block with an edge to this one, and 0 where no edge goes there.
pub fn entry_limit(blocks: &[Block], target: u64) -> u64
    ensures { (low : ℕ) → (low < result) ↔ EnteredFrom blocks.now low target }
{
    let mut limit = 0;
    for (b, block) in blocks.iter().enumerate() {
        if block.leads_to(target) {
            limit = b as u64 + 1;
        }
    }
    limit
}
