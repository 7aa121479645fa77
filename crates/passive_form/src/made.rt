// What has been made of a block so far: new incarnations, and formulas over them.
ghost use Rattle.std.specs.Prelude.{◌≡◌, length, map, slice_index_or, IfOk, OnOk};
ghost use Rattle.logic_core.specs.Tree.{int, free, equal};
ghost use Rattle.flow_core.specs.declared.command.Command.TheVariants.{Assume};
ghost use Rattle.passive_form.specs.Incarnations.{read, anew, also, assigned, havocked, perform, perform_all};

use crate::incarnations::Incarnations;
use flow_core::Command;
use logic_core::rename::rename_variables;
use logic_core::{Node, Sequence, Sort, SortKind, Term};
use std::alloc::{AllocError, Global};

/// The sorts of all incarnations so far, the present ones, and the formulas that were made.
#[derive(Drop)]
pub struct Made {
    pub sorts: Sequence<Sort>,
    pub present: Incarnations,
    pub commands: Sequence<Command>,
}

/// The sort of the variable.
fn sort_at(alloc: Global, sorts: &[Sort], variable: u64) -> Result<Sort, AllocError>
    ensures { IfOk result (λ s. s ≡ slice_index_or sorts.now variable int) }
{
    match sorts.get(variable as usize) {
        Some(sort) => sort.copy(alloc),
        None => Ok(Sort {
            kind: SortKind::Int,
        }),
    }
}

/// The term over the present incarnations.
fn read(alloc: Global, present: &Incarnations, term: &Term) -> Result<Term, AllocError>
    ensures { IfOk result (λ t. t ≡ read present.now term.now) }
{
    rename_variables(alloc, term, present.as_slice())
}

/// The targets, each with its right side over the present incarnations.
fn read_each(
    alloc: Global,
    present: &Incarnations,
    pairs: &[(u64, Term)],
) -> Result<Vec<(u64, Term)>, AllocError>
    ensures { IfOk result (λ v. v.items ≡ map (λ p. (p.0, read present.now p.1)) pairs.now) }
{
    let mut all = Vec::new(alloc);
    for pair in pairs {
        all.push((pair.0, read(alloc, present, &pair.1)?))?;
    }
    Ok(all)
}

/// The assumption that an incarnation is equal to a term.
pub fn equation(alloc: Global, incarnation: u64, term: Term) -> Result<Command, AllocError>
    ensures { IfOk result (λ c. c ≡ Assume (equal (free incarnation) term)) }
{
    let left = Term::new(Node::Free(incarnation));
    let right = Box::new(alloc, term)?;
    Ok(Command::Assume(Term::new(Node::Eq(Box::new(alloc, left)?, right))))
}

impl Made {
    /// The number of the incarnation that is made next.
    pub fn next(&self) -> u64
        ensures { result ≡ length self.now.sorts }
    {
        self.sorts.len() as u64
    }

    /// A new incarnation of the variable, of its sort.
    pub fn anew(&mut self, alloc: Global, variable: u64) -> Result<(), AllocError>
        ensures { OnOk result (self.new ≡ anew self.old variable) }
    {
        let number = self.next();
        let sort = sort_at(alloc, self.sorts.as_slice(), variable)?;
        self.sorts.push(sort)?;
        self.present.renew(variable, number);
        Ok(())
    }

    fn also(&mut self, command: Command) -> Result<(), AllocError>
        ensures { OnOk result (self.new ≡ also self.old command) }
    {
        self.commands.push(command)
    }

    /// Each target in order is equal to its right side, which was read before.
    fn assigned(&mut self, alloc: Global, pairs: Vec<(u64, Term)>) -> Result<(), AllocError>
        ensures { OnOk result (self.new ≡ assigned self.old pairs.items) }
    {
        for (variable, term) in pairs {
            let number = self.next();
            self.anew(alloc, variable)?;
            self.also(equation(alloc, number, term)?)?;
        }
        Ok(())
    }

    /// Each of the variables has a new incarnation.
    fn havocked(&mut self, alloc: Global, variables: &[u64]) -> Result<(), AllocError>
        ensures { OnOk result (self.new ≡ havocked self.old variables.now) }
    {
        for variable in variables {
            self.anew(alloc, *variable)?;
        }
        Ok(())
    }

    fn perform(&mut self, alloc: Global, command: &Command) -> Result<(), AllocError>
        ensures { OnOk result (self.new ≡ perform self.old command.now) }
    {
        match command {
            Command::Assert(mark, formula) => {
                let formula = read(alloc, &self.present, formula)?;
                self.also(Command::Assert(*mark, formula))
            }
            Command::Assume(formula) => {
                let formula = read(alloc, &self.present, formula)?;
                self.also(Command::Assume(formula))
            }
            Command::Assign(pairs) => {
                let pairs = read_each(alloc, &self.present, pairs.as_slice())?;
                self.assigned(alloc, pairs)
            }
            Command::Havoc(variables) => self.havocked(alloc, variables.as_slice()),
        }
    }

    /// The commands one after another.
    pub fn perform_all(&mut self, alloc: Global, commands: &[Command]) -> Result<(), AllocError>
        ensures { OnOk result (self.new ≡ perform_all self.old commands.now) }
    {
        for command in commands {
            self.perform(alloc, command)?;
        }
        Ok(())
    }
}
