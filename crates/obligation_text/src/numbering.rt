// The order in which definitions and variables take their canonical numbers.
ghost use Rattle.std.specs.Prelude.{◌≡◌, [], ◌++◌, List, map, flat_map, fold, IfOk, OnOk};
ghost use Rattle.logic_core.specs.Tree.{Kind};
ghost use Rattle.logic_core.specs.Variables.{variables, calls, first_occurrences};
ghost use Rattle.obligation_text.specs.Numbering.{body, visited, definition_order, variable_order};

use crate::order::Order;
use logic_core::def::Def;
use logic_core::mention::Mentioned;
use logic_core::term::Term;
use std::alloc::{AllocError, Global};

// The numbers, each once, in the order of their first occurrences.
fn first_occurrences(alloc: Global, numbers: &[u64]) -> Result<Order, AllocError>
    ensures { IfOk result (λ order. order ≡ first_occurrences [] numbers.now) }
{
    let mut order = Order::new(alloc);
    for number in numbers {
        order.join(*number)?;
    }
    Ok(order)
}

// What the body of the definition mentions comes behind.
fn add_body(mentioned: &mut Mentioned, defs: &[Def], f: u64) -> Result<(), AllocError>
    ensures variables { OnOk result (mentioned.new.variables.items ≡ mentioned.old.variables.items ++ variables (body defs.now f)) }
    ensures definitions { OnOk result (mentioned.new.definitions.items ≡ mentioned.old.definitions.items ++ calls (body defs.now f)) }
{
    if let Some(def) = defs.get(f as usize) {
        mentioned.add_term(&def.body)?;
    }
    Ok(())
}

// A definition whose number isn't there yet takes the next one, after those that its body calls.
#[cycle(walk)]
#[tactic(auto, using(crate::proofs::Walk::visited_step))]
fn visit(
    alloc: Global,
    defs: &[Def],
    depth: usize,
    order: &mut Order,
    f: u64,
) -> Result<(), AllocError>
    ensures { OnOk result (order.new ≡ visited defs.now depth order.old f) }
{
    if depth == 0 {
        return order.join(f);
    }
    if order.contains(f) {
        return Ok(());
    }
    let mut mentioned = Mentioned::nothing(alloc);
    add_body(&mut mentioned, defs, f)?;
    visit_each(alloc, defs, depth - 1, order, &mentioned.definitions)?;
    order.join(f)
}

#[cycle(walk)]
fn visit_each(
    alloc: Global,
    defs: &[Def],
    depth: usize,
    order: &mut Order,
    called: &[u64],
) -> Result<(), AllocError>
    ensures { OnOk result (order.new ≡ fold (visited defs.now depth) order.old called.now) }
{
    for f in called {
        visit(alloc, defs, depth, order, *f)?;
    }
    Ok(())
}

/// The definitions that are reached from the goal and then the axioms, in the order of their
/// canonical numbers.
#[tactic(auto, using(crate::proofs::Lists::calls_flat))]
pub fn definition_order(
    alloc: Global,
    defs: &[Def],
    axioms: &[Term],
    goal: &Term,
) -> Result<Order, AllocError>
    ensures { IfOk result (λ order. (vars : List Kind) → order ≡ definition_order (record { vars = vars; defs = defs.now; axioms = axioms.now; goal = goal.now })) }
{
    let mut mentioned = Mentioned::nothing(alloc);
    mentioned.add_term(goal)?;
    mentioned.add_terms(axioms)?;
    let mut order = Order::new(alloc);
    visit_each(alloc, defs, defs.len(), &mut order, &mentioned.definitions)?;
    Ok(order)
}

// What the bodies of these definitions mention comes behind.
fn add_bodies(mentioned: &mut Mentioned, defs: &[Def], order: &[u64]) -> Result<(), AllocError>
    ensures { OnOk result (mentioned.new.variables.items ≡ mentioned.old.variables.items ++ flat_map variables (map (body defs.now) order.now)) }
{
    for f in order {
        add_body(mentioned, defs, *f)?;
    }
    Ok(())
}

/// The variables that the bodies of these definitions, the axioms and the goal mention, in the order
/// of their canonical numbers.
#[tactic(auto, using(crate::proofs::Lists::numbered_flat))]
pub fn variable_order(
    alloc: Global,
    defs: &[Def],
    order: &[u64],
    axioms: &[Term],
    goal: &Term,
) -> Result<Order, AllocError>
    ensures { IfOk result (λ named. (vars : List Kind) → named ≡ variable_order (record { vars = vars; defs = defs.now; axioms = axioms.now; goal = goal.now }) order.now) }
{
    let mut mentioned = Mentioned::nothing(alloc);
    add_bodies(&mut mentioned, defs, order)?;
    mentioned.add_terms(axioms)?;
    mentioned.add_term(goal)?;
    first_occurrences(alloc, &mentioned.variables)
}
