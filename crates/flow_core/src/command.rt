// Commands.
ghost use Rattle.std.specs.Prelude.{◌≡◌, IfOk};

use crate::mark::Mark;
use logic_core::{Formula, Sequence, Term};
use std::alloc::{AllocError, Global};

/// A command. Variables go by their numbers.
#[derive(Drop)]
pub enum Command {
    /// The formula is to hold; the mark says what has failed where it doesn't.
    Assert(Mark, Formula),
    /// The formula is taken to hold.
    Assume(Formula),
    /// Each variable takes the value of its term, all at once.
    Assign(Sequence<(u64, Term)>),
    /// Each of the variables takes any value of its sort.
    Havoc(Sequence<u64>),
}

impl Command {
    /// An equal command.
    pub fn copy(&self, alloc: Global) -> Result<Command, AllocError>
        ensures { IfOk result (λ c. c ≡ self.now) }
    {
        match self {
            Command::Assert(mark, formula) => Ok(Command::Assert(*mark, formula.copy(alloc)?)),
            Command::Assume(formula) => Ok(Command::Assume(formula.copy(alloc)?)),
            Command::Assign(pairs) => Ok(Command::Assign(copy_assigned(alloc, pairs.as_slice())?)),
            Command::Havoc(vars) => Ok(Command::Havoc(copy_numbers(alloc, vars.as_slice())?)),
        }
    }
}

fn copy_assigned(alloc: Global, pairs: &[(u64, Term)]) -> Result<Sequence<(u64, Term)>, AllocError>
    ensures { IfOk result (λ s. s ≡ pairs.now) }
{
    let mut copies = Vec::new(alloc);
    for pair in pairs {
        copies.push((pair.0, pair.1.copy(alloc)?))?;
    }
    Ok(Sequence::of(copies))
}

/// An equal sequence.
pub fn copy_numbers(alloc: Global, numbers: &[u64]) -> Result<Sequence<u64>, AllocError>
    ensures { IfOk result (λ s. s ≡ numbers.now) }
{
    Ok(Sequence::of(Vec::from_slice(alloc, numbers)?))
}
