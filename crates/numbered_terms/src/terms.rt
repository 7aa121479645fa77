// Terms by number, with their sizes and how far their bound variables reach.
ghost use Rattle.std.specs.Prelude.{◌≡◌, ◌<◌, ◌≤◌, [], ◌∷◌, ◌++◌, None, length, IfOk, OnOk, OnErr};
ghost use Rattle.std.specs.Vec.{vec_len, vec_capacity};
ghost use Rattle.std.specs.List.{AllByRecursion};
ghost use Rattle.logic_core.specs.Same.{same_term};
ghost use Rattle.term_bank.specs.Numbered.{at, number_of, Begins};
ghost use Rattle.term_bank.specs.Node.{tree_over, numbers_in};
ghost use Rattle.term_bank.specs.Hash.{hash_of};
ghost use Rattle.numbered_terms.specs.At.{IsAt};
ghost use Rattle.numbered_terms.specs.Stored.{AreStored, shape};
ghost use Rattle.numbered_terms.specs.Reach.{reach};
ghost use Rattle.numbered_terms.specs.Measures.{size_of};

use crate::hash::hash;
use crate::measure::{reach, size};
use crate::nodes::Nodes;
use std::alloc::{AllocError, Global};
use std::marker::Model;
use term_bank::{Node, TermId};

// Room is made for so many terms at once.
const ROOM: usize = 64;

/// Distinct terms by number. A number that was given keeps its term.
#[derive(Drop)]
pub struct Terms {
    nodes: Nodes,
    sizes: Vec<u64>,
    reaches: Vec<u128>,
    alloc: Global,
}

impl Model for Terms {
    ghost use Rattle.std.specs.Prelude.{List};
    ghost use Rattle.std.specs.Coded.{coded_list};
    ghost use Rattle.logic_core.specs.Tree.{Tree};
    ghost use Rattle.logic_core.specs.Codes.{coded_tree};

    ghost Value = { List Tree };

    ghost coded = { coded_list coded_tree };

    ghost use Rattle.numbered_terms.specs.Measures.{AreMeasured};

    ghost view = { λ a. a.nodes };

    ghost invariant = { λ a. AreMeasured a.nodes a.sizes.items a.reaches.items };
}

// Lets a node go.
fn discard(_node: Node) {}

// Puts in the size of the next term, for which there is room.
fn put_size(sizes: &mut Vec<u64>, size: u64)
    requires { vec_len sizes.old < vec_capacity sizes.old }
    ensures { sizes.new.items ≡ sizes.old.items ++ size ∷ [] }
{
    sizes.push(size).unwrap();
}

// Puts in the reach of the next term, for which there is room.
fn put_reach(reaches: &mut Vec<u128>, reach: u128)
    requires { vec_len reaches.old < vec_capacity reaches.old }
    ensures { reaches.new.items ≡ reaches.old.items ++ reach ∷ [] }
{
    reaches.push(reach).unwrap();
}

impl Terms {
    /// No terms.
    pub fn new(alloc: Global) -> Terms
        ensures { result ≡ [] }
    {
        Terms {
            nodes: Nodes::new(alloc),
            sizes: Vec::new(alloc),
            reaches: Vec::new(alloc),
            alloc,
        }
    }

    /// The allocator that the store keeps.
    pub fn alloc(&self) -> Global {
        self.alloc
    }

    /// The number of terms, which are those of the numbers below it.
    pub fn len(&self) -> usize
        ensures { result ≡ length self.now }
    {
        self.nodes.len()
    }

    /// The node of a number.
    pub fn node(&self, id: TermId) -> &Node
        requires { id < length self.now }
        ensures node { tree_over (at self.now) result.now ≡ at self.now id }
        ensures lower { AllByRecursion (λ j. j < id) (numbers_in result.now) }
    {
        self.nodes.node(id)
    }

    /// The number of nodes of a number's term, 2^64 - 1 where it is more.
    pub fn size(&self, id: TermId) -> u64
        requires { id < length self.now }
        ensures { result ≡ size_of (at self.now id) }
    {
        self.sizes[id.number]
    }

    /// How far the bound variables of a number's term reach beyond its own binders: 0 where it is
    /// closed.
    pub fn reach(&self, id: TermId) -> u128
        requires { id < length self.now }
        ensures { result ≡ reach (at self.now id) }
    {
        self.reaches[id.number]
    }

    /// Each term is built of those of lower numbers, and none has two numbers.
    pub fn are_stored(&self)
        ensures { AreStored self.now }
    {
        self.nodes.are_stored();
    }

    /// Whether two numbers are those of one term, which are one number then.
    pub fn is_same(&self, a: TermId, b: TermId) -> bool
        requires a { a < length self.now }
        requires b { b < length self.now }
        ensures { result ≡ same_term (at self.now a) (at self.now b) }
    {
        self.nodes.are_stored();
        a == b
    }

    // One more term, of this node and hash, which isn't there yet.
    fn push(&mut self, node: Node, hash: u64) -> Result<TermId, AllocError>
        requires lower { AllByRecursion (λ j. j < length self.old) (numbers_in node) }
        requires hash { hash ≡ hash_of (shape node) }
        requires new { number_of self.old (tree_over (at self.old) node) ≡ None }
        ensures grows { Begins self.old self.new }
        ensures number { IfOk result (λ i. IsAt self.new i (tree_over (at self.old) node)) }
        ensures memory { OnErr result (self.new ≡ self.old) }
    {
        let size = size(&self.sizes, &node);
        let reach = reach(&self.reaches, &node);
        self.sizes.reserve(ROOM)?;
        self.reaches.reserve(ROOM)?;
        let number = self.nodes.len();
        self.nodes.push(node, hash)?;
        put_size(&mut self.sizes, size);
        put_reach(&mut self.reaches, reach);
        Ok(TermId { number })
    }

    /// The number of the node's term. A new term has the next number.
    pub fn make(&mut self, node: Node) -> Result<TermId, AllocError>
        requires { AllByRecursion (λ j. j < length self.old) (numbers_in node) }
        ensures grows { Begins self.old self.new }
        ensures number { IfOk result (λ i. IsAt self.new i (tree_over (at self.old) node)) }
        ensures memory { OnErr result (self.new ≡ self.old) }
    {
        let hash = hash(&node);
        if let Some(found) = self.nodes.find(&node, hash) {
            discard(node);
            return Ok(found);
        }
        self.push(node, hash)
    }
}
