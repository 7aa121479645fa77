// The formulas of blocks, and the equations over them.
ghost use Rattle.std.specs.Prelude.{◌≡◌, IfOk, slice_get, take};
ghost use Rattle.passive_form.specs.Passive.{formula_in, formulas};
ghost use Rattle.block_wp.specs.Equations.{negations, block_equation, formula_of, conjunction};

use flow_core::Command;
use logic_core::{Node, Term};
use std::alloc::{AllocError, Global};

// The asserted or assumed formula.
fn formula_in(alloc: Global, command: &Command) -> Result<Term, AllocError>
    ensures { IfOk result (λ t. t ≡ formula_in command.now) }
{
    match command {
        Command::Assert(_, formula) | Command::Assume(formula) => formula.copy(alloc),
        Command::Assign(_) | Command::Havoc(_) => Ok(Term::new(Node::Truth(true))),
    }
}

/// The formula of the command at this place.
pub fn formula_at(alloc: Global, commands: &[Command], at: u64) -> Result<Term, AllocError>
    ensures { IfOk result (λ t. t ≡ formula_of (slice_get commands.now at)) }
{
    match commands.get(at as usize) {
        Some(command) => formula_in(alloc, command),
        None => Ok(Term::new(Node::Truth(true))),
    }
}

// The formulas of the commands, each denied.
fn negations(alloc: Global, commands: &[Command]) -> Result<Vec<Term>, AllocError>
    ensures { IfOk result (λ v. v.items ≡ negations (formulas commands.now)) }
{
    let mut all = Vec::new(alloc);
    for command in commands {
        let formula = Box::new(alloc, formula_in(alloc, command)?)?;
        all.push(Term::new(Node::Not(formula)))?;
    }
    Ok(all)
}

/// Some formula of the commands doesn't hold, or what comes after them does.
pub fn block_equation(alloc: Global, commands: &[Command], then: Term) -> Result<Term, AllocError>
    ensures { IfOk result (λ t. t ≡ block_equation (formulas commands.now) then) }
{
    let mut parts = negations(alloc, commands)?;
    parts.push(then)?;
    Ok(Term::new(Node::Or(parts)))
}

/// The conjunction of the formulas, or the one alone.
pub fn conjunction(terms: Vec<Term>) -> Term
    ensures { result ≡ conjunction terms.items }
{
    if terms.len() > 1 {
        return Term::new(Node::And(terms));
    }
    let mut terms = terms;
    match terms.pop() {
        Some(alone) => alone,
        None => Term::new(Node::And(terms)),
    }
}
