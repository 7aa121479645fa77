// The successors of a block among those from which another is reached.
ghost use Rattle.std.specs.Prelude.{◌≡◌, ◌+◌, nat_eq, is_some, unwrap_or, position, filter, reverse, map, IfOk, ◌==◌};
ghost use Rattle.std.specs.List.{list_any};
ghost use Rattle.block_wp.specs.Equations.{block_call, conjunction};
ghost use Rattle.block_wp.specs.Numbers.{number_in, IsNumbered};

use crate::formulas::conjunction;
use crate::reached::Reached;
use logic_core::{Node, Term};
use std::alloc::{AllocError, Global};

impl Reached {
    /// Whether the block has a definition.
    pub fn has(&self, block: u64) -> bool
        requires { IsNumbered self.now }
        ensures { result ≡ list_any (λ y. y == block) self.now.blocks }
    {
        self.number(block).is_some()
    }

    // The number of the block's definition; where it has none, that of the first.
    fn definition_of(&self, block: u64) -> u64
        requires { IsNumbered self.now }
        ensures { result ≡ self.now.given + unwrap_or (position (nat_eq block) self.now.blocks) 0 }
    {
        match self.number(block) {
            Some(number) => number,
            None => self.given,
        }
    }

    /// The application of the block's definition.
    pub fn block_call(&self, alloc: Global, block: u64) -> Term
        requires { IsNumbered self.now }
        ensures { result ≡ block_call self.now.given self.now.blocks block }
    {
        Term::new(Node::Call(self.definition_of(block), Vec::new(alloc)))
    }

    // Those of the blocks that have a definition.
    fn among(&self, alloc: Global, blocks: &[u64]) -> Result<Vec<u64>, AllocError>
        ensures { IfOk result (λ v. v.items ≡ filter (λ c. is_some (number_in self.now c)) blocks.now) }
    {
        let mut those = Vec::new(alloc);
        for block in blocks {
            if self.number(*block).is_some() {
                those.push(*block)?;
            }
        }
        Ok(those)
    }

    // Those of the blocks that have a definition, in rising order, each once.
    fn rising(&self, alloc: Global, blocks: &[u64]) -> Result<Vec<u64>, AllocError>
        requires { IsNumbered self.now }
        ensures { IfOk result (λ v. v.items ≡ filter (λ x. list_any (λ y. y == x) blocks.now) (reverse self.now.blocks)) }
    {
        let mut those = self.among(alloc, blocks)?;
        those.sort_unstable();
        those.dedup();
        Ok(those)
    }

    // The applications of the blocks' definitions.
    fn block_calls(&self, alloc: Global, blocks: &[u64]) -> Result<Vec<Term>, AllocError>
        requires { IsNumbered self.now }
        ensures { IfOk result (λ v. v.items ≡ map (block_call self.now.given self.now.blocks) blocks.now) }
    {
        let mut calls = Vec::new(alloc);
        for block in blocks {
            calls.push(self.block_call(alloc, *block))?;
        }
        Ok(calls)
    }

    /// The applications of the definitions of the successors that have one, in rising order: their
    /// conjunction, or the one alone.
    pub fn successors(&self, alloc: Global, next: &[u64]) -> Result<Term, AllocError>
        requires { IsNumbered self.now }
        ensures { IfOk result (λ t. t ≡ conjunction (map (block_call self.now.given self.now.blocks) (filter (λ x. list_any (λ y. y == x) next.now) (reverse self.now.blocks)))) }
    {
        let rising = self.rising(alloc, next)?;
        let calls = self.block_calls(alloc, rising.as_slice())?;
        Ok(conjunction(calls))
    }
}
