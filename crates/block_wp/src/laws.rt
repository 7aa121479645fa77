//! What the equations keep, over all passive graphs.
ghost use Rattle.block_wp.specs.Broken.{EquationsBreak};
ghost use Rattle.block_wp.specs.Sorted.{EquationsAreSorted, PassiveEquationsAreSorted};

/// Where every edge goes to a higher number and the formulas are well sorted, an assignment that
/// breaks an assertion along a path from block 0 makes the goal of its equations false.
pub fn equations_break()
    ensures { EquationsBreak }
{}

/// Beside well-sorted definitions and axioms the equations are a well-sorted obligation.
pub fn equations_are_sorted()
    ensures { EquationsAreSorted }
{}

/// The passive form of a graph that may be passified rises, its formulas are well sorted, and with
/// axioms over the graph's variables the equations of its assertions are well-sorted obligations.
pub fn passive_equations_are_sorted()
    ensures { PassiveEquationsAreSorted }
{}
