// The equations of an assertion.
ghost use Rattle.std.specs.Prelude.{◌≡◌, ◌++◌, cond, true, map, IfOk, ◌==◌};
ghost use Rattle.std.specs.List.{list_any};
ghost use Rattle.logic_core.specs.Tree.{truth};
ghost use Rattle.block_wp.specs.Equations.{block_call, block_definition, body_of, equations};
ghost use Rattle.block_wp.specs.Numbers.{IsNumbered};

use crate::bodies::definition;
use crate::reached::{Reached, reaching};
use crate::sequent::Sequent;
use logic_core::def::copy_defs;
use logic_core::{Def, Node, Sequence, Term};
use passive_form::Passive;
use std::alloc::{AllocError, Global};

// Block 0's application, or true where it has no definition.
fn goal(alloc: Global, reached: &Reached) -> Term
    requires { IsNumbered reached.now }
    ensures { result ≡ cond (list_any (λ y. y == 0) reached.now.blocks) (block_call reached.now.given reached.now.blocks 0) (truth true) }
{
    if reached.has(0) {
        reached.block_call(alloc, 0)
    } else {
        Term::new(Node::Truth(true))
    }
}

// The given definitions, and then those of the blocks.
fn definitions(
    alloc: Global,
    passive: &Passive,
    defs: &[Def],
    reached: &Reached,
    at: u64,
) -> Result<Sequence<Def>, AllocError>
    requires { IsNumbered reached.now }
    ensures { IfOk result (λ s. s ≡ defs.now ++ map (λ b. block_definition (body_of passive.now reached.now.given reached.now.blocks reached.now.last at b)) reached.now.blocks) }
{
    let mut all = copy_defs(alloc, defs)?;
    for number in reached.blocks.as_slice() {
        all.push(definition(alloc, passive, reached, at, *number)?)?;
    }
    Ok(Sequence::of(all))
}

/// The sequent of the assertion at place `at` of the block. Its definitions are the given ones and
/// then, highest first, one for each block from which this one is reached, itself among them. Its
/// own says that a formula before the assertion doesn't hold or the assertion does; that of another
/// block that one of its formulas doesn't hold or its successors' definitions do. The goal is the
/// application of block 0's definition, or true where the block isn't reached from there.
pub fn equations(
    alloc: Global,
    passive: &Passive,
    defs: &[Def],
    block: u64,
    at: u64,
) -> Result<Sequent, AllocError>
    ensures { IfOk result (λ s. s ≡ equations passive.now defs.now block at) }
{
    let reached = reaching(alloc, passive, defs, block)?;
    let all = definitions(alloc, passive, defs, &reached, at)?;
    let goal = goal(alloc, &reached);
    Ok(Sequent { defs: all, goal })
}
