// Whether a graph is plain.
ghost use Rattle.std.specs.Prelude.{◌↔◌, IsTrue};
ghost use Rattle.flow_core.specs.Plain.{IsPlain};

use crate::branches::branches_are_plain;
use crate::calls::calls_are_plain;
use crate::graph::Graph;
use crate::heads::heads_are_plain;
use crate::loops::loops_are_plain;

impl Graph {
    /// Whether the graph is plain. An edge goes back to each head of a loop, which isn't block 0
    /// and no successor of a block with several edges. A block with several edges is the only
    /// predecessor, by one edge, of each of its successors. A block of a loop other than its head
    /// is entered only from blocks of that loop. Each block sets a variable of a replaced call
    /// before it reads it, and no invariant reads one.
    pub fn plain(&self) -> bool
        ensures { IsTrue result ↔ IsPlain self.now }
    {
        let blocks = self.blocks();
        heads_are_plain(blocks)
            && branches_are_plain(blocks)
            && loops_are_plain(blocks)
            && calls_are_plain(self.own(), blocks)
    }
}
