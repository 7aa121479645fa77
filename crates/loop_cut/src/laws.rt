//! What cutting keeps, over all graphs. Each function does nothing; its contract is a law.
ghost use Rattle.loop_cut.specs.Kept.{CutKeepsFailures, FrameLaw};

/// Where the graph is plain and edges back go to heads alone, the cut graph is plain and each of its
/// edges rises. Where the targets cover their loops besides, each failing run has a failing run of
/// the cut graph, with the same mark and from the same first state.
pub fn cut_keeps_failures()
    ensures { CutKeepsFailures }
{}

/// In a plain graph whose targets cover their loops, a variable below `own` that is no target of a
/// head has, where an edge back arrives at that head, the value that it had at the arrival before.
pub fn frame_law()
    ensures { FrameLaw }
{}
