// Hashes of terms.
ghost use Rattle.std.specs.Prelude.{◌≡◌, unsigned_abs};
ghost use Rattle.logic_core.specs.Size.{capped};
ghost use Rattle.logic_core.specs.View.{trees_of, parts_of, patterns_of, each_items};
ghost use Rattle.term_bank.specs.Hash.{mixed, number_hash, hash_of, hash_of_each, hash_of_parts, hash_of_patterns};

use logic_core::{Node, Term};

// The multiplier: 2^64 over the golden ratio, made odd.
const SPREAD: u64 = 11_400_714_819_323_198_485;

// One more number in a hash.
#[tactic(auto, unfolding(crate::specs::Hash::mixed))]
pub fn mix(hash: u64, number: u64) -> u64
    ensures { result ≡ mixed hash number }
{
    let sum = hash.wrapping_mul(SPREAD).wrapping_add(number);
    sum.wrapping_mul(sum.wrapping_add(sum).wrapping_add(1))
}

// The absolute value of a number, or 2^64 - 1 where it is more.
fn size_of(number: i128) -> u64
    ensures { result ≡ capped (unsigned_abs number) }
{
    let size = number.unsigned_abs();
    if size > u64::MAX as u128 {
        u64::MAX
    } else {
        size as u64
    }
}

// A hash of a number.
pub fn number_hash(number: i128) -> u64
    ensures { result ≡ number_hash number }
{
    if number < 0 {
        mix(1, size_of(number))
    } else {
        mix(0, size_of(number))
    }
}

/// A hash of the term: equal terms have equal ones.
#[cycle(hash)]
pub fn hash(term: &Term) -> u64
    ensures { result ≡ hash_of term.now }
{
    match &term.node {
        Node::Num(n) => number_hash(*n),
        Node::Truth(true) => mix(1, 1),
        Node::Truth(false) => mix(1, 0),
        Node::Free(v) => mix(2, *v),
        Node::Bound(v) => mix(3, *v),
        Node::Sum(parts, rest) => mix(hash_parts(4, parts), number_hash(*rest)),
        Node::Mul(a, b) => mix(mix(5, hash(a)), hash(b)),
        Node::Read(a, b) => mix(mix(6, hash(a)), hash(b)),
        Node::Write(a, b, c) => mix(mix(mix(7, hash(a)), hash(b)), hash(c)),
        Node::If(a, b, c) => mix(mix(mix(8, hash(a)), hash(b)), hash(c)),
        Node::Call(f, terms) => hash_each(mix(9, *f), terms),
        Node::Not(a) => mix(10, hash(a)),
        Node::And(terms) => hash_each(11, terms),
        Node::Or(terms) => hash_each(12, terms),
        Node::Eq(a, b) => mix(mix(13, hash(a)), hash(b)),
        Node::Le(a, b) => mix(mix(14, hash(a)), hash(b)),
        Node::ForAll(_, patterns, body) => mix(hash_patterns(15, patterns), hash(body)),
        Node::Exists(_, patterns, body) => mix(hash_patterns(16, patterns), hash(body)),
    }
}

// The hashes of the terms, one after another in a hash.
#[cycle(hash)]
fn hash_each(start: u64, terms: &[Term]) -> u64
    ensures { result ≡ hash_of_each start (trees_of terms.now) }
{
    let mut mixed = start;
    for term in terms {
        mixed = mix(mixed, hash(term));
    }
    mixed
}

// The coefficients and the atoms of a sum likewise.
#[cycle(hash)]
fn hash_parts(start: u64, parts: &[(i128, Term)]) -> u64
    ensures { result ≡ hash_of_parts start (parts_of parts.now) }
{
    let mut mixed = start;
    for part in parts {
        mixed = mix(mix(mixed, number_hash(part.0)), hash(&part.1));
    }
    mixed
}

// The terms of each trigger likewise.
#[cycle(hash)]
fn hash_patterns(start: u64, patterns: &[Vec<Term>]) -> u64
    ensures { result ≡ hash_of_patterns start (patterns_of (each_items patterns.now)) }
{
    let mut mixed = start;
    for pattern in patterns {
        mixed = mix(mixed, hash_each(17, pattern));
    }
    mixed
}
