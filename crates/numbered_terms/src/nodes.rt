// Nodes by number, no node twice.
ghost use Rattle.std.specs.Prelude.{◌≡◌, ◌<◌, [], ◌∷◌, ◌++◌, None, length, OnOk, OnErr};
ghost use Rattle.std.specs.Vec.{vec_len, vec_capacity};
ghost use Rattle.std.specs.List.{AllByRecursion};
ghost use Rattle.term_bank.specs.Numbered.{at, number_of};
ghost use Rattle.term_bank.specs.Node.{tree_over, numbers_in};
ghost use Rattle.term_bank.specs.Hash.{hash_of};
ghost use Rattle.numbered_terms.specs.Stored.{AreStored, shape};

use crate::same::same;
use std::alloc::{AllocError, Global};
use std::marker::Model;
use term_bank::hash_index::HashIndex;
use term_bank::{Node, TermId};

// Room is made for so many nodes at once.
const ROOM: usize = 64;

/// Distinct terms by number, as nodes over the numbers of their parts. A number that was given
/// keeps its term.
#[derive(Drop)]
pub struct Nodes {
    nodes: Vec<Node>,
    index: HashIndex,
}

impl Model for Nodes {
    ghost use Rattle.std.specs.Prelude.{List};
    ghost use Rattle.std.specs.Coded.{coded_list};
    ghost use Rattle.logic_core.specs.Tree.{Tree};
    ghost use Rattle.logic_core.specs.Codes.{coded_tree};

    ghost Value = { List Tree };

    ghost coded = { coded_list coded_tree };

    ghost use Rattle.numbered_terms.specs.Store.{terms_of, IsStore};

    ghost view = { λ a. terms_of a.nodes.items };

    ghost invariant = { λ a. IsStore a.nodes.items a.index };
}

// Puts in the next node, for which there is room.
fn put_node(nodes: &mut Vec<Node>, node: Node)
    requires { vec_len nodes.old < vec_capacity nodes.old }
    ensures { nodes.new.items ≡ nodes.old.items ++ node ∷ [] }
{
    nodes.push(node).unwrap();
}

impl Nodes {
    /// No terms.
    pub fn new(alloc: Global) -> Nodes
        ensures { result ≡ [] }
    {
        Nodes {
            nodes: Vec::new(alloc),
            index: HashIndex::new(alloc),
        }
    }

    /// The number of terms, which are those of the numbers below it.
    pub fn len(&self) -> usize
        ensures { result ≡ length self.now }
    {
        self.nodes.len()
    }

    /// The node of a number.
    pub fn node(&self, id: TermId) -> &Node
        requires { id < length self.now }
        ensures node { tree_over (at self.now) result.now ≡ at self.now id }
        ensures lower { AllByRecursion (λ j. j < id) (numbers_in result.now) }
    {
        &self.nodes[id.number]
    }

    /// Each term is built of those of lower numbers, and none has two numbers.
    pub fn are_stored(&self)
        ensures { AreStored self.now }
    {
        let _count = self.nodes.len();
    }

    /// The number of a node of this hash, if it is there.
    pub fn find(&self, node: &Node, hash: u64) -> Option<TermId>
        requires lower { AllByRecursion (λ j. j < length self.now) (numbers_in node.now) }
        requires hash { hash ≡ hash_of (shape node.now) }
        ensures { result ≡ number_of self.now (tree_over (at self.now) node.now) }
    {
        let mut latest = self.index.latest(hash);
        while let Some(number) = latest {
            if same(&self.nodes[number], node) {
                return Some(TermId { number });
            }
            latest = self.index.earlier(number);
        }
        None
    }

    /// One more node of this hash, which isn't there yet.
    pub fn push(&mut self, node: Node, hash: u64) -> Result<(), AllocError>
        requires lower { AllByRecursion (λ j. j < length self.old) (numbers_in node) }
        requires hash { hash ≡ hash_of (shape node) }
        requires new { number_of self.old (tree_over (at self.old) node) ≡ None }
        ensures ok { OnOk result (self.new ≡ self.old ++ tree_over (at self.old) node ∷ []) }
        ensures memory { OnErr result (self.new ≡ self.old) }
    {
        self.nodes.reserve(ROOM)?;
        self.index.push(hash)?;
        put_node(&mut self.nodes, node);
        Ok(())
    }
}
