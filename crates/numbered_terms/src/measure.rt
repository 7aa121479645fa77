// The size and the reach of a node's term, by those of its numbers.
ghost use Rattle.std.specs.Prelude.{◌≡◌, ◌+◌, ◌-◌, max, ◌∷◌, length, get_or, map, ℤ, ℕ};
ghost use Rattle.logic_core.specs.Size.{capped};
ghost use Rattle.term_bank.specs.Node.{in_lists};
ghost use Rattle.numbered_terms.specs.Measures.{sum_over, most_over, node_size, node_reach};

use logic_core::Sort;
use term_bank::{Node, TermId};

// The size of a number's term.
fn size_at(sizes: &[u64], id: TermId) -> u64
    ensures { result ≡ get_or sizes.now id 0 }
{
    match sizes.get(id.number) {
        Some(size) => *size,
        None => 0,
    }
}

fn sizes_of(sizes: &[u64], ids: &[TermId]) -> u64
    ensures { result ≡ capped (sum_over (λ i. get_or sizes.now i 0) ids.now) }
{
    let mut total: u64 = 0;
    for id in ids {
        total = total.saturating_add(size_at(sizes, *id));
    }
    total
}

fn atom_sizes(sizes: &[u64], parts: &[(i128, TermId)]) -> u64
    ensures { result ≡ capped (sum_over (λ i. get_or sizes.now i 0) (map (λ (p : ℤ × ℕ). p.1) parts.now)) }
{
    let mut total: u64 = 0;
    for part in parts {
        total = total.saturating_add(size_at(sizes, part.1));
    }
    total
}

fn list_sizes(sizes: &[u64], lists: &[Vec<TermId>]) -> u64
    ensures { result ≡ capped (sum_over (λ i. get_or sizes.now i 0) (in_lists lists.now)) }
{
    let mut total: u64 = 0;
    for list in lists {
        total = total.saturating_add(sizes_of(sizes, list));
    }
    total
}

fn quantified_size(sizes: &[u64], lists: &[Vec<TermId>], body: TermId) -> u64
    ensures { result ≡ capped (sum_over (λ i. get_or sizes.now i 0) (body ∷ in_lists lists.now) + 1) }
{
    let in_lists = list_sizes(sizes, lists);
    size_at(sizes, body)
        .saturating_add(in_lists)
        .saturating_add(1)
}

/// The number of nodes of the node's term, where these are the numbers of nodes of the terms of
/// its numbers; 2^64 - 1 where it is more.
pub fn size(sizes: &[u64], node: &Node) -> u64
    ensures { result ≡ capped (node_size (λ i. get_or sizes.now i 0) node.now) }
{
    match node {
        Node::Num(_) | Node::Truth(_) | Node::Free(_) | Node::Bound(_) => 1,
        Node::Sum(parts, _) => atom_sizes(sizes, parts).saturating_add(1),
        Node::Mul(a, b) | Node::Read(a, b) | Node::Eq(a, b) | Node::Le(a, b) => size_at(sizes, *a)
            .saturating_add(size_at(sizes, *b))
            .saturating_add(1),
        Node::Write(a, b, c) | Node::If(a, b, c) => size_at(sizes, *a)
            .saturating_add(size_at(sizes, *b))
            .saturating_add(size_at(sizes, *c))
            .saturating_add(1),
        Node::Call(_, terms) | Node::And(terms) | Node::Or(terms) => {
            sizes_of(sizes, terms).saturating_add(1)
        }
        Node::Not(a) => size_at(sizes, *a).saturating_add(1),
        Node::ForAll(_, lists, body) => quantified_size(sizes, lists, *body),
        Node::Exists(_, lists, body) => quantified_size(sizes, lists, *body),
    }
}

// The reach of a number's term.
fn reach_at(reaches: &[u128], id: TermId) -> u128
    ensures { result ≡ get_or reaches.now id 0 }
{
    match reaches.get(id.number) {
        Some(reach) => *reach,
        None => 0,
    }
}

fn reaches_of(reaches: &[u128], ids: &[TermId]) -> u128
    ensures { result ≡ most_over (λ i. get_or reaches.now i 0) ids.now }
{
    let mut most: u128 = 0;
    for id in ids {
        most = most.max(reach_at(reaches, *id));
    }
    most
}

fn atom_reaches(reaches: &[u128], parts: &[(i128, TermId)]) -> u128
    ensures { result ≡ most_over (λ i. get_or reaches.now i 0) (map (λ (p : ℤ × ℕ). p.1) parts.now) }
{
    let mut most: u128 = 0;
    for part in parts {
        most = most.max(reach_at(reaches, part.1));
    }
    most
}

fn list_reaches(reaches: &[u128], lists: &[Vec<TermId>]) -> u128
    ensures { result ≡ most_over (λ i. get_or reaches.now i 0) (in_lists lists.now) }
{
    let mut most: u128 = 0;
    for list in lists {
        most = most.max(reaches_of(reaches, list));
    }
    most
}

fn quantified_reach(reaches: &[u128], sorts: &[Sort], lists: &[Vec<TermId>], body: TermId) -> u128
    ensures { result ≡ max (get_or reaches.now body 0) (most_over (λ i. get_or reaches.now i 0) (in_lists lists.now)) - length sorts.now }
{
    let in_lists = list_reaches(reaches, lists);
    let most = reach_at(reaches, body).max(in_lists);
    most.saturating_sub(sorts.len() as u128)
}

/// How far the bound variables of the node's term reach beyond its own binders, where these are the
/// reaches of the terms of its numbers.
pub fn reach(reaches: &[u128], node: &Node) -> u128
    ensures { result ≡ node_reach (λ i. get_or reaches.now i 0) node.now }
{
    match node {
        Node::Num(_) | Node::Truth(_) | Node::Free(_) => 0,
        Node::Bound(v) => *v as u128 + 1,
        Node::Sum(parts, _) => atom_reaches(reaches, parts),
        Node::Mul(a, b) | Node::Read(a, b) | Node::Eq(a, b) | Node::Le(a, b) => {
            reach_at(reaches, *a).max(reach_at(reaches, *b))
        }
        Node::Write(a, b, c) | Node::If(a, b, c) => reach_at(reaches, *a).max(reach_at(
            reaches, *b,
        ).max(reach_at(reaches, *c))),
        Node::Call(_, terms) | Node::And(terms) | Node::Or(terms) => reaches_of(reaches, terms),
        Node::Not(a) => reach_at(reaches, *a),
        Node::ForAll(sorts, lists, body) => quantified_reach(reaches, sorts, lists, *body),
        Node::Exists(sorts, lists, body) => quantified_reach(reaches, sorts, lists, *body),
    }
}
