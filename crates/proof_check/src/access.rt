// Reads of written maps: the distance from the index read to the index written, and what is read.
ghost use Rattle.std.specs.Prelude.{◌≡◌, [], pos, negsuc, IfOk};
ghost use Rattle.logic_core.specs.Tree.{linear, part, no_parts, read};
ghost use Rattle.logic_core.specs.Normal.{normal};
ghost use Rattle.proof_core.specs.Maps.{read_at_distance};
ghost use Rattle.proof_check.specs.ReadOf.{read_of};
ghost use Rattle.proof_check.specs.Refusals.{Finds};

use crate::context::Context;
use crate::fault::Refusal;
use logic_core::def::Def;
use logic_core::normal::normal_over;
use logic_core::term::{Node, Term};
use std::alloc::{AllocError, Global};

/// Read(map, index).
pub fn read(alloc: Global, map: &Term, index: &Term) -> Result<Term, AllocError>
    ensures { IfOk result (λ t. t ≡ read map.now index.now) }
{
    let map = map.copy(alloc)?;
    let index = index.copy(alloc)?;
    Ok(Term::new(Node::Read(Box::new(alloc, map)?, Box::new(alloc, index)?)))
}

/// The normal form of the index written less the index read.
pub fn distance(
    alloc: Global,
    defs: &[Def],
    context: &Context,
    at: &Term,
    index: &Term,
) -> Result<Term, Refusal>
    ensures { Finds result (normal context.now.vars defs.now [] (linear (part (pos 1) at.now (part (negsuc 0) index.now no_parts)) (pos 0))) }
{
    let parts = [(1, at.copy(alloc)?), (-1, index.copy(alloc)?)];
    let sum = Term::new(Node::Sum(Vec::from_array(alloc, parts)?, 0));
    Ok(normal_over(alloc, &sum, &context.vars, defs)?)
}

// What a Read at `index` of a map that was written at `at` reads, where the distance of the two is a
// number.
fn read_at_distance(
    alloc: Global,
    defs: &[Def],
    context: &Context,
    map: &Term,
    at: &Term,
    value: &Term,
    index: &Term,
) -> Result<Term, Refusal>
    ensures { Finds result (read_at_distance defs.now context.now (record { table = map.now; at = at.now; value = value.now; index = index.now })) }
{
    match &distance(alloc, defs, context, at, index)?.node {
        Node::Num(0) => Ok(value.copy(alloc)?),
        Node::Num(_) => Ok(read(alloc, map, index)?),
        _ => Err(Refusal::Unmet),
    }
}

/// What a Read of a Write at constant distance reads: the value written at distance 0, and otherwise
/// what the map held before.
pub fn read_of(alloc: Global, defs: &[Def], context: &Context, t: &Term) -> Result<Term, Refusal>
    ensures { Finds result (read_of defs.now context.now t.now) }
{
    match &t.node {
        Node::Read(written, index) => match &written.node {
            Node::Write(map, at, value) => {
                read_at_distance(alloc, defs, context, map, at, value, index)
            }
            _ => Err(Refusal::Unmet),
        },
        _ => Err(Refusal::Unmet),
    }
}
