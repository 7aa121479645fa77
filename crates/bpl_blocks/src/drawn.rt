// A graph as far as it is drawn.
ghost use Rattle.std.specs.Prelude.{◌≡◌, [], ◌∷◌, ◌++◌, OnOk, Some, length};
ghost use Rattle.bpl_blocks.specs.Drawn.{ended};

use flow_core::{Block, Command, LoopHead};
use logic_core::{Formula, Sequence};
use std::alloc::{AllocError, Global};
use std::marker::Model;
use std::mem;

/// What is the same throughout a body: the clauses of the variables, the number from which on these
/// stand for calls, and the last block's number.
#[derive(Drop)]
pub struct Setting {
    pub clauses: Vec<Option<Formula>>,
    pub own: u64,
    pub last: u64,
}

impl Model for Setting {
    ghost use Rattle.bpl_blocks.specs.Drawn.{Setting as setting};
    ghost use Rattle.logic_core.specs.contracts.term.Term as term;
    ghost use Rattle.std.specs.Coded.{codes};

    ghost Value = { setting };

    ghost coded = { Prim.hlevel (codes, term.the_row.coded) };

    ghost view = { λ a. record { clauses = a.clauses.items; own = a.own; last = a.last } };
}

/// The blocks that are finished, and the commands so far of the current block, whose number is that
/// of the finished ones.
#[derive(Drop)]
pub struct Drawn {
    pub blocks: Vec<Block>,
    pub commands: Vec<Command>,
}

impl Model for Drawn {
    ghost use Rattle.bpl_blocks.specs.Drawn.{Drawn as drawn};
    ghost use Rattle.logic_core.specs.contracts.term.Term as term;
    ghost use Rattle.std.specs.Coded.{codes};

    ghost Value = { drawn };

    ghost coded = { Prim.hlevel (codes, term.the_row.coded) };

    ghost view = { λ a. record { blocks = a.blocks.items; commands = a.commands.items } };
}

impl Drawn {
    /// The current block's number.
    pub fn number(&self) -> u64
        ensures { result ≡ length self.now.blocks }
    {
        self.blocks.len() as u64
    }

    /// One more command.
    pub fn add(&mut self, command: Command) -> Result<(), AllocError>
        ensures { OnOk result (self.new ≡ record self.old { commands = self.old.commands ++ command ∷ [] }) }
    {
        self.commands.push(command)?;
        Ok(())
    }

    /// The current block ends with these edges, and the next one begins.
    pub fn end(&mut self, alloc: Global, next: Vec<u64>) -> Result<(), AllocError>
        ensures { OnOk result (self.new ≡ ended self.old next.items) }
    {
        let commands = mem::replace(&mut self.commands, Vec::new(alloc));
        self.blocks.push(Block {
            commands: Sequence::of(commands),
            next: Sequence::of(next),
            head: None,
        })?;
        Ok(())
    }

    /// The head of a loop, where the current block has no commands yet.
    pub fn add_head(
        &mut self,
        alloc: Global,
        head: LoopHead,
        next: Vec<u64>,
    ) -> Result<(), AllocError>
        ensures { OnOk result (self.new ≡ record self.old { blocks = self.old.blocks ++ record { commands = []; next = next.items; head = Some head } ∷ [] }) }
    {
        self.blocks.push(Block {
            commands: Sequence::new(alloc),
            next: Sequence::of(next),
            head: Some(head),
        })?;
        Ok(())
    }
}
