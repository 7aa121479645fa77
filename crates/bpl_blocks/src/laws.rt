//! What the graph keeps. The function does nothing; its contract is a law.
ghost use Rattle.bpl_blocks.specs.Kept.{ToBlocksKeepsFailures};

/// Of a procedure of a typed module in which no goto stands, its calls replaced: each failing
/// execution has a failing run of the graph, with the same mark and from the same state. The graph is
/// plain, each head's targets hold every variable below `own` that a block of its loop sets, and
/// edges back go to heads alone.
pub fn to_blocks_keeps_failures()
    ensures { ToBlocksKeepsFailures }
{}
