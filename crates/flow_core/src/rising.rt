// Whether every edge goes to a higher number.
ghost use Rattle.std.specs.Prelude.{◌↔◌, ◌≡◌, ◌<◌, nat_lt, IsTrue};
ghost use Rattle.std.specs.List.{list_all};
ghost use Rattle.flow_core.specs.Plain.{IsRising};

use crate::block::Block;
use crate::graph::Graph;

impl Graph {
    /// Whether every edge goes to a higher number.
    pub fn rising(&self) -> bool
        ensures { IsTrue result ↔ IsRising self.now.blocks }
    {
        edges_rise(self.blocks())
    }
}

fn edges_rise(blocks: &[Block]) -> bool
    ensures { IsTrue result ↔ IsRising blocks.now }
{
    for (b, block) in blocks.iter().enumerate() {
        if !all_above(block.next.as_slice(), b as u64) {
            return false;
        }
    }
    true
}

fn all_above(numbers: &[u64], low: u64) -> bool
    ensures { result ≡ list_all (λ n. nat_lt low n) numbers.now }
{
    numbers.iter().all(|n| low < *n)
}
