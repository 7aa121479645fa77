// The commands that read invariants: at a head of a loop, and before an edge to one.
ghost use Rattle.std.specs.Prelude.{◌≡◌, ◌++◌, IfOk, OnOk, map};
ghost use Rattle.flow_core.specs.Clause.{read_invariant};
ghost use Rattle.flow_core.specs.Reader.{command_of};
ghost use Rattle.flow_core.specs.Run.{arrival_kind, clauses_at};
ghost use Rattle.flow_core.specs.declared.command.Command.TheVariants.{Assume};
ghost use Rattle.loop_cut.specs.Cut.{at_head, before_edges};

use flow_core::command::copy_numbers;
use flow_core::{Block, Command, GoalKind, Invariant, LoopHead, Mark};
use std::alloc::{AllocError, Global};

/// At a head: any values for the targets with which every invariant holds, free or not.
pub fn push_at_head(
    alloc: Global,
    head: &Option<LoopHead>,
    commands: &mut Vec<Command>,
) -> Result<(), AllocError>
    ensures { OnOk result (commands.new.items ≡ commands.old.items ++ at_head head.now) }
{
    let Some(head) = head else {
        return Ok(());
    };
    commands.push(Command::Havoc(copy_numbers(alloc, head.targets.as_slice())?))?;
    push_assumed(alloc, head.invariants.as_slice(), commands)
}

fn push_assumed(
    alloc: Global,
    invariants: &[Invariant],
    commands: &mut Vec<Command>,
) -> Result<(), AllocError>
    ensures { OnOk result (commands.new.items ≡ commands.old.items ++ map (λ i. Assume i.formula) invariants.now) }
{
    for invariant in invariants {
        commands.push(Command::Assume(invariant.formula.copy(alloc)?))?;
    }
    Ok(())
}

/// Before the edges of block `b`: the invariants of the heads to which they go.
pub fn push_before_edges(
    alloc: Global,
    blocks: &[Block],
    b: u64,
    next: &[u64],
    commands: &mut Vec<Command>,
) -> Result<(), AllocError>
    ensures { OnOk result (commands.new.items ≡ commands.old.items ++ before_edges blocks.now b next.now) }
{
    for c in next {
        if let Some(block) = blocks.get(*c as usize) {
            push_clauses(alloc, kind_of_edge(b, *c), &block.head, commands)?;
        }
    }
    Ok(())
}

// An edge to a number not higher makes a later arrival.
fn kind_of_edge(b: u64, c: u64) -> GoalKind
    ensures { result ≡ arrival_kind b c }
{
    if b < c {
        GoalKind::InvariantEntry
    } else {
        GoalKind::InvariantKept
    }
}

fn push_clauses(
    alloc: Global,
    kind: GoalKind,
    head: &Option<LoopHead>,
    commands: &mut Vec<Command>,
) -> Result<(), AllocError>
    ensures { OnOk result (commands.new.items ≡ commands.old.items ++ map command_of (clauses_at kind head.now)) }
{
    match head {
        None => Ok(()),
        Some(head) => push_read(alloc, kind, head.invariants.as_slice(), commands),
    }
}

fn push_read(
    alloc: Global,
    kind: GoalKind,
    invariants: &[Invariant],
    commands: &mut Vec<Command>,
) -> Result<(), AllocError>
    ensures { OnOk result (commands.new.items ≡ commands.old.items ++ map command_of (map (read_invariant kind) invariants.now)) }
{
    for invariant in invariants {
        commands.push(read_by(alloc, kind, invariant)?)?;
    }
    Ok(())
}

// A free invariant is only assumed.
fn read_by(alloc: Global, kind: GoalKind, invariant: &Invariant) -> Result<Command, AllocError>
    ensures { IfOk result (λ c. c ≡ command_of (read_invariant kind invariant.now)) }
{
    let formula = invariant.formula.copy(alloc)?;
    if invariant.free {
        return Ok(Command::Assume(formula));
    }
    let mark = Mark {
        place: invariant.place,
        kind,
    };
    Ok(Command::Assert(mark, formula))
}
