// Hashes of nodes, made of their own numbers.
ghost use Rattle.std.specs.Prelude.{◌≡◌};
ghost use Rattle.logic_core.specs.View.{trees_of, parts_of, patterns_of};
ghost use Rattle.logic_core.specs.Tree.{free};
ghost use Rattle.term_bank.specs.Hash.{hash_of, hash_of_each, hash_of_parts, hash_of_patterns};
ghost use Rattle.numbered_terms.specs.Stored.{shape};
ghost use Rattle.numbered_terms.specs.Shaped.{shaped, shaped_atoms, shaped_lists};

use term_bank::hash::{mix, number_hash};
use term_bank::{Node, TermId};

fn hash_number(id: TermId) -> u64
    ensures { result ≡ hash_of (free id) }
{
    mix(2, id.number as u64)
}

fn hash_numbers(start: u64, ids: &[TermId]) -> u64
    ensures { result ≡ hash_of_each start (trees_of (shaped ids.now)) }
{
    let mut mixed = start;
    for id in ids {
        mixed = mix(mixed, hash_number(*id));
    }
    mixed
}

fn hash_atoms(start: u64, parts: &[(i128, TermId)]) -> u64
    ensures { result ≡ hash_of_parts start (parts_of (shaped_atoms parts.now)) }
{
    let mut mixed = start;
    for part in parts {
        mixed = mix(mix(mixed, number_hash(part.0)), hash_number(part.1));
    }
    mixed
}

fn hash_lists(start: u64, lists: &[Vec<TermId>]) -> u64
    ensures { result ≡ hash_of_patterns start (patterns_of (shaped_lists lists.now)) }
{
    let mut mixed = start;
    for list in lists {
        mixed = mix(mixed, hash_numbers(17, list));
    }
    mixed
}

/// A hash of the node: one node has one hash.
pub fn hash(node: &Node) -> u64
    ensures { result ≡ hash_of (shape node.now) }
{
    match node {
        Node::Num(n) => number_hash(*n),
        Node::Truth(true) => mix(1, 1),
        Node::Truth(false) => mix(1, 0),
        Node::Free(v) => mix(2, *v),
        Node::Bound(v) => mix(3, *v),
        Node::Sum(parts, rest) => mix(hash_atoms(4, parts), number_hash(*rest)),
        Node::Mul(a, b) => mix(mix(5, hash_number(*a)), hash_number(*b)),
        Node::Read(a, b) => mix(mix(6, hash_number(*a)), hash_number(*b)),
        Node::Write(a, b, c) => mix(
            mix(mix(7, hash_number(*a)), hash_number(*b)),
            hash_number(*c),
        ),
        Node::If(a, b, c) => mix(
            mix(mix(8, hash_number(*a)), hash_number(*b)),
            hash_number(*c),
        ),
        Node::Call(f, terms) => hash_numbers(mix(9, *f), terms),
        Node::Not(a) => mix(10, hash_number(*a)),
        Node::And(terms) => hash_numbers(11, terms),
        Node::Or(terms) => hash_numbers(12, terms),
        Node::Eq(a, b) => mix(mix(13, hash_number(*a)), hash_number(*b)),
        Node::Le(a, b) => mix(mix(14, hash_number(*a)), hash_number(*b)),
        Node::ForAll(_, patterns, body) => mix(hash_lists(15, patterns), hash_number(*body)),
        Node::Exists(_, patterns, body) => mix(hash_lists(16, patterns), hash_number(*body)),
    }
}
