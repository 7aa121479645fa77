// Blocks one after another, and what each has in the passive form.
ghost use Rattle.std.specs.Prelude.{◌≡◌, ◌++◌, ◌<◌, [], length, slice_index_or, map, flat_map, IfOk, OnOk};
ghost use Rattle.std.specs.List.{range_with_len};
ghost use Rattle.logic_core.specs.Tree.{free, equal};
ghost use Rattle.flow_core.specs.declared.command.Command.TheVariants.{Assume};
ghost use Rattle.passive_form.specs.Incarnations.{incarnation, first_incarnations, predecessors, nothing_done, numbers, do_block, do_blocks, equations_for, passive_block};

use crate::done::{Done, last_of};
use crate::incarnations::Incarnations;
use crate::joins::{arriving, disagree};
use crate::made::{Made, equation};
use crate::passive::PassiveBlock;
use crate::predecessors::predecessors;
use flow_core::command::copy_numbers;
use flow_core::{Command, Graph};
use logic_core::copy::copy_sorts;
use logic_core::{Node, Sequence, Sort, Term};
use std::alloc::{AllocError, Global};

/// The sorts of all incarnations, and the blocks.
#[derive(Drop)]
pub struct AllDone {
    pub sorts: Sequence<Sort>,
    pub blocks: Sequence<Done>,
}

// Each variable's own number.
fn own_numbers(alloc: Global, count: usize) -> Result<Vec<u64>, AllocError>
    ensures { IfOk result (λ v. v.items ≡ range_with_len 0 count) }
{
    (0..count as u64).collect(alloc)
}

// Of an entry value its global's number, and else the variable's own. The first pair counts, so it
// is written last.
fn first_incarnations(
    alloc: Global,
    graph: &Graph,
    vars: &[Sort],
) -> Result<Incarnations, AllocError>
    ensures { IfOk result (λ i. i ≡ first_incarnations graph.now vars.now) }
{
    let olds = graph.olds();
    let mut numbers = Incarnations::new(own_numbers(alloc, vars.len())?);
    for i in (0..olds.len()).rev() {
        let old = olds[i];
        numbers.renew(old.1, old.0);
    }
    Ok(numbers)
}

// The block, after the blocks before it.
fn do_block(
    alloc: Global,
    graph: &Graph,
    first: &[u64],
    sorts: Sequence<Sort>,
    before: &[Done],
    entering: &[u64],
    number: u64,
) -> Result<(Sequence<Sort>, Done), AllocError>
    requires { entering.now ≡ predecessors graph.now.blocks number }
    ensures sorts { IfOk result (λ r. r.0 ≡ (do_block graph.now first.now sorts before.now number).0.sorts) }
    ensures done { IfOk result (λ r. r.1 ≡ (do_block graph.now first.now sorts before.now number).1) }
{
    let mut made = Made {
        sorts,
        present: arriving(alloc, graph.own(), first, before, entering)?,
        commands: Sequence::new(alloc),
    };
    let unequal = disagree(alloc, graph.own(), before, entering)?;
    let joined = made.join(alloc, &unequal)?;
    if let Some(block) = graph.blocks().get(number as usize) {
        made.perform_all(alloc, block.commands.as_slice())?;
    }
    let done = Done {
        joined,
        commands: made.commands,
        last: made.present,
    };
    Ok((made.sorts, done))
}

/// All blocks, in order.
pub fn do_blocks(alloc: Global, graph: &Graph, vars: &[Sort]) -> Result<AllDone, AllocError>
    ensures sorts { IfOk result (λ r. r.sorts ≡ (do_blocks graph.now (first_incarnations graph.now vars.now) vars.now [] (numbers graph.now.blocks)).0) }
    ensures blocks { IfOk result (λ r. r.blocks ≡ (do_blocks graph.now (first_incarnations graph.now vars.now) vars.now [] (numbers graph.now.blocks)).1) }
{
    let all = graph.blocks();
    let rows = predecessors(alloc, all)?;
    let numbers = first_incarnations(alloc, graph, vars)?;
    let first = numbers.as_slice();
    let mut sorts = Sequence::of(copy_sorts(alloc, vars)?);
    let mut blocks = Vec::new(alloc);
    for number in 0..all.len() as u64 {
        let entering = rows[number as usize].as_slice();
        let (more, done) = do_block(alloc, graph, first, sorts, &blocks, entering, number)?;
        sorts = more;
        blocks.push(done)?;
    }
    Ok(AllDone {
        sorts,
        blocks: Sequence::of(blocks),
    })
}

// Equal commands.
fn copy_commands(alloc: Global, commands: &[Command]) -> Result<Vec<Command>, AllocError>
    ensures { IfOk result (λ v. v.items ≡ commands.now) }
{
    let mut copies = Vec::new(alloc);
    for command in commands {
        copies.push(command.copy(alloc)?)?;
    }
    Ok(copies)
}

// At the end of the block each of these incarnations is equal to its variable's own.
fn push_equations(
    alloc: Global,
    commands: Vec<Command>,
    done: &[Done],
    block: u64,
    joined: &[(u64, u64)],
) -> Result<Vec<Command>, AllocError>
    ensures { IfOk result (λ v. v.items ≡ commands.items ++ map (λ p. Assume (equal (free p.1) (free (incarnation (slice_index_or done.now block nothing_done).last p.0)))) joined.now) }
{
    let mut commands = commands;
    for pair in joined {
        let own = Term::new(Node::Free(last_of(done, block, pair.0)));
        commands.push(equation(alloc, pair.1, own)?)?;
    }
    Ok(commands)
}

// At the end of the block the new incarnations of a join are equal to its own.
fn equations_for(
    alloc: Global,
    commands: Vec<Command>,
    done: &[Done],
    block: u64,
    join: u64,
) -> Result<Vec<Command>, AllocError>
    ensures { IfOk result (λ v. v.items ≡ commands.items ++ equations_for (slice_index_or done.now block nothing_done) (slice_index_or done.now join nothing_done)) }
{
    match done.get(join as usize) {
        Some(joining) => push_equations(alloc, commands, done, block, joining.joined.as_slice()),
        None => Ok(commands),
    }
}

// The formulas of the block.
fn commands_of(alloc: Global, done: &[Done], block: u64) -> Result<Vec<Command>, AllocError>
    ensures { IfOk result (λ v. v.items ≡ (slice_index_or done.now block nothing_done).commands) }
{
    match done.get(block as usize) {
        Some(done) => copy_commands(alloc, done.commands.as_slice()),
        None => Ok(Vec::new(alloc)),
    }
}

/// The block's formulas and the equations for its successors, with its edges.
pub fn passive_block(
    alloc: Global,
    graph: &Graph,
    done: &[Done],
    number: u64,
) -> Result<PassiveBlock, AllocError>
    requires { number < length graph.now.blocks }
    ensures { IfOk result (λ k. k ≡ passive_block graph.now done.now number) }
{
    let next = graph.blocks()[number as usize].next.as_slice();
    let mut commands = commands_of(alloc, done, number)?;
    for successor in next {
        commands = equations_for(alloc, commands, done, number, *successor)?;
    }
    Ok(PassiveBlock {
        commands: Sequence::of(commands),
        next: copy_numbers(alloc, next)?,
    })
}
