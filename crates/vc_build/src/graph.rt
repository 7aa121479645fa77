// The goals of a passive graph.
ghost use Rattle.std.specs.Prelude.{◌≡◌, ℕ, ◌∷◌, [], ◌++◌, IfErr, OnOk};
ghost use Rattle.logic_core.specs.WellSorted.{IsWellSorted};
ghost use Rattle.passive_form.specs.Passive.{passive_block_at};
ghost use Rattle.vc_build.specs.Goals.{sequent_at, goals_in, goals_of_graph};
ghost use Rattle.vc_build.specs.Exceeds.{IsFaultOf};

use crate::fault::BuildFault;
use crate::goal::Goal;
use crate::obligation::obligation_at;
use crate::tally::Tally;
use flow_core::Command;
use logic_core::{Def, Formula};
use passive_form::Passive;
use std::alloc::Global;

// The goal of the command, where it is an assertion, comes behind.
fn add_command(
    alloc: Global,
    tally: &mut Tally,
    passive: &Passive,
    defs: &[Def],
    axioms: &[Formula],
    block: u64,
    at: u64,
    command: &Command,
) -> Result<(), BuildFault>
    requires { IsWellSorted (sequent_at passive.now defs.now axioms.now block at) }
    ensures added { OnOk result (tally.new ≡ tally.old ++ goals_in passive.now defs.now axioms.now block at (command.now ∷ [])) }
    ensures fault { IfErr result (IsFaultOf (tally.old ++ goals_in passive.now defs.now axioms.now block at (command.now ∷ []))) }
{
    match command {
        Command::Assert(mark, _) => {
            let obligation = obligation_at(alloc, passive, defs, axioms, block, at)?;
            tally.add(
                alloc,
                Goal {
                    mark: *mark,
                    obligation,
                },
            )
        }
        Command::Assume(_) | Command::Assign(_) | Command::Havoc(_) => Ok(()),
    }
}

// The goals of the block's commands come behind.
fn add_commands(
    alloc: Global,
    tally: &mut Tally,
    passive: &Passive,
    defs: &[Def],
    axioms: &[Formula],
    block: u64,
    commands: &[Command],
) -> Result<(), BuildFault>
    requires { (at : ℕ) → IsWellSorted (sequent_at passive.now defs.now axioms.now block at) }
    ensures added { OnOk result (tally.new ≡ tally.old ++ goals_in passive.now defs.now axioms.now block 0 commands.now) }
    ensures fault { IfErr result (IsFaultOf (tally.old ++ goals_in passive.now defs.now axioms.now block 0 commands.now)) }
{
    for at in 0..commands.len() {
        add_command(
            alloc,
            tally,
            passive,
            defs,
            axioms,
            block,
            at as u64,
            &commands[at],
        )?;
    }
    Ok(())
}

// The goals of the block, if it is there, come behind.
fn add_block(
    alloc: Global,
    tally: &mut Tally,
    passive: &Passive,
    defs: &[Def],
    axioms: &[Formula],
    block: u64,
) -> Result<(), BuildFault>
    requires { (at : ℕ) → IsWellSorted (sequent_at passive.now defs.now axioms.now block at) }
    ensures added { OnOk result (tally.new ≡ tally.old ++ goals_in passive.now defs.now axioms.now block 0 (passive_block_at passive.now.blocks block).commands) }
    ensures fault { IfErr result (IsFaultOf (tally.old ++ goals_in passive.now defs.now axioms.now block 0 (passive_block_at passive.now.blocks block).commands)) }
{
    match passive.blocks.as_slice().get(block as usize) {
        Some(found) => {
            add_commands(
                alloc,
                tally,
                passive,
                defs,
                axioms,
                block,
                found.commands.as_slice(),
            )
        }
        None => Ok(()),
    }
}

/// The goals of the graph come behind, block by block.
pub fn add_graph(
    alloc: Global,
    tally: &mut Tally,
    passive: &Passive,
    defs: &[Def],
    axioms: &[Formula],
) -> Result<(), BuildFault>
    requires { (block : ℕ) (at : ℕ) → IsWellSorted (sequent_at passive.now defs.now axioms.now block at) }
    ensures added { OnOk result (tally.new ≡ tally.old ++ goals_of_graph passive.now defs.now axioms.now) }
    ensures fault { IfErr result (IsFaultOf (tally.old ++ goals_of_graph passive.now defs.now axioms.now)) }
{
    for block in 0..passive.blocks.len() {
        add_block(alloc, tally, passive, defs, axioms, block as u64)?;
    }
    Ok(())
}
