// Graphs.
ghost use Rattle.std.specs.Prelude.{◌≡◌};
ghost use Rattle.flow_core.specs.Graph.{KeepsEntryValues, PairsOnce, SetsNoEntryValue, TargetsNoEntryValue};

use crate::block::Block;
use logic_core::Sequence;
use std::marker::Model;

/// A graph of blocks, which go by their numbers from 0 on; a run begins in block 0. Each global is
/// paired with its entry value: no number stands twice in these pairs, no block sets an entry
/// value, and no head's targets hold one.
#[derive(Drop)]
pub struct Graph {
    blocks: Sequence<Block>,
    own: u64,
    olds: Sequence<(u64, u64)>,
}

impl Model for Graph {
    ghost use Rattle.flow_core.specs.Graph.{Graph as graph, KeepsEntryValues};
    ghost use Rattle.logic_core.specs.contracts.term.Term as term;
    ghost use Rattle.std.specs.Coded.{codes};

    ghost Value = { graph };

    ghost coded = { Prim.hlevel (codes, term.the_row.coded) };

    ghost view = { λ a. record { blocks = a.blocks; own = a.own; olds = a.olds } };

    ghost invariant = { λ a. KeepsEntryValues a.blocks a.olds };
}

impl Graph {
    /// The graph of these blocks. The variables from number `own` on are those that replaced calls
    /// own; `olds` pairs each global with its entry value.
    pub fn new(blocks: Sequence<Block>, own: u64, olds: Sequence<(u64, u64)>) -> Graph
        requires paired_once { PairsOnce olds }
        requires never_set { SetsNoEntryValue olds blocks }
        requires never_target { TargetsNoEntryValue olds blocks }
        ensures { result ≡ record { blocks = blocks; own = own; olds = olds } }
    {
        Graph { blocks, own, olds }
    }

    /// The blocks, by number.
    pub fn blocks(&self) -> &[Block]
        ensures { result.now ≡ self.now.blocks }
    {
        self.blocks.as_slice()
    }

    /// The number from which on variables are those that replaced calls own.
    pub fn own(&self) -> u64
        ensures { result ≡ self.now.own }
    {
        self.own
    }

    /// Each global, with its entry value, which nothing sets.
    pub fn olds(&self) -> &[(u64, u64)]
        ensures pairs { result.now ≡ self.now.olds }
        ensures never_set { KeepsEntryValues self.now.blocks self.now.olds }
    {
        self.olds.as_slice()
    }
}
