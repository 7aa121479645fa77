// The definitions of blocks.
ghost use Rattle.std.specs.Prelude.{◌≡◌, take, slice_get, IfOk};
ghost use Rattle.passive_form.specs.Passive.{formulas};
ghost use Rattle.block_wp.specs.Equations.{block_equation, formula_of, block_definition, equation_of, body_of};
ghost use Rattle.block_wp.specs.Numbers.{IsNumbered};

use crate::formulas::{block_equation, formula_at};
use crate::reached::Reached;
use flow_core::Command;
use logic_core::{Def, Sequence, Sort, SortKind, Term};
use passive_form::Passive;
use std::alloc::{AllocError, Global};

// Of the block of the assertion: the formulas before it are assumed, and the assertion is what
// comes after.
fn assertion_equation(alloc: Global, commands: &[Command], at: u64) -> Result<Term, AllocError>
    ensures { IfOk result (λ t. t ≡ block_equation (formulas (take at commands.now)) (formula_of (slice_get commands.now at))) }
{
    let then = formula_at(alloc, commands, at)?;
    let place = at as usize;
    if place < commands.len() {
        block_equation(alloc, &commands[..place], then)
    } else {
        block_equation(alloc, commands, then)
    }
}

// What the definition of a block with these commands and edges says.
fn equation_of(
    alloc: Global,
    reached: &Reached,
    at: u64,
    number: u64,
    commands: &[Command],
    next: &[u64],
) -> Result<Term, AllocError>
    requires { IsNumbered reached.now }
    ensures { IfOk result (λ t. t ≡ equation_of reached.now.given reached.now.blocks reached.now.last at number (record { commands = commands.now; next = next.now })) }
{
    if number == reached.last {
        assertion_equation(alloc, commands, at)
    } else {
        let then = reached.successors(alloc, next)?;
        block_equation(alloc, commands, then)
    }
}

// What the block's definition says.
fn body_of(
    alloc: Global,
    passive: &Passive,
    reached: &Reached,
    at: u64,
    number: u64,
) -> Result<Term, AllocError>
    requires { IsNumbered reached.now }
    ensures { IfOk result (λ t. t ≡ body_of passive.now reached.now.given reached.now.blocks reached.now.last at number) }
{
    match passive.blocks.as_slice().get(number as usize) {
        Some(block) => {
            let commands = block.commands.as_slice();
            equation_of(alloc, reached, at, number, commands, block.next.as_slice())
        }
        None => equation_of(alloc, reached, at, number, &[], &[]),
    }
}

/// The definition of the block; it is logical and has no parameters.
pub fn definition(
    alloc: Global,
    passive: &Passive,
    reached: &Reached,
    at: u64,
    number: u64,
) -> Result<Def, AllocError>
    requires { IsNumbered reached.now }
    ensures { IfOk result (λ d. d ≡ block_definition (body_of passive.now reached.now.given reached.now.blocks reached.now.last at number)) }
{
    Ok(Def {
        params: Sequence::new(alloc),
        sort: Sort {
            kind: SortKind::Bool,
        },
        logical: true,
        body: body_of(alloc, passive, reached, at, number)?,
    })
}
