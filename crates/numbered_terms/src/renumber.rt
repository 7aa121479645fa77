// The numbers of a node's parts, and a node with other numbers.
ghost use Rattle.std.specs.Prelude.{◌≡◌, ◌∷◌, ◌++◌, IfOk, OnOk, OnErr, map, nat_eq, is_some, ℤ, ℕ};
ghost use Rattle.std.specs.Map.{lookup};
ghost use Rattle.indexmap.specs.IndexMap.{insert_entry};
ghost use Rattle.logic_core.specs.Tree.{free};
ghost use Rattle.term_bank.specs.Node.{tree_over, numbers_in, in_lists};
ghost use Rattle.numbered_terms.specs.Stored.{shape};
ghost use Rattle.numbered_terms.specs.Renumbered.{new_of};

use indexmap::IndexMap;
use logic_core::copy::copy_sorts;
use std::alloc::{AllocError, Global};
use term_bank::{Node, TermId};

/// The same numbers.
pub fn copy_numbers(alloc: Global, ids: &[TermId]) -> Result<Vec<TermId>, AllocError>
    ensures { IfOk result (λ v. v.items ≡ ids.now) }
{
    let mut numbers = Vec::new(alloc);
    numbers.extend_from_slice(ids)?;
    Ok(numbers)
}

/// The same atoms with their coefficients.
pub fn copy_atoms(
    alloc: Global,
    parts: &[(i128, TermId)],
) -> Result<Vec<(i128, TermId)>, AllocError>
    ensures { IfOk result (λ v. v.items ≡ parts.now) }
{
    let mut atoms = Vec::new(alloc);
    atoms.extend_from_slice(parts)?;
    Ok(atoms)
}

/// The same lists of numbers.
pub fn copy_lists(alloc: Global, lists: &[Vec<TermId>]) -> Result<Vec<Vec<TermId>>, AllocError>
    ensures { IfOk result (λ v. map (λ w. w.items) v.items ≡ map (λ w. w.items) lists.now) }
{
    let mut all = Vec::new(alloc);
    for list in lists {
        all.push(copy_numbers(alloc, list)?)?;
    }
    Ok(all)
}

fn atom_numbers(alloc: Global, parts: &[(i128, TermId)]) -> Result<Vec<TermId>, AllocError>
    ensures { IfOk result (λ v. v.items ≡ map (λ (p : ℤ × ℕ). p.1) parts.now) }
{
    let mut numbers = Vec::with_capacity(alloc, parts.len())?;
    for part in parts {
        numbers.push(part.1)?;
    }
    Ok(numbers)
}

// More numbers at the end.
fn push_all(numbers: &mut Vec<TermId>, more: &[TermId]) -> Result<(), AllocError>
    ensures { OnOk result (numbers.new.items ≡ numbers.old.items ++ more.now) }
{
    numbers.extend_from_slice(more)?;
    Ok(())
}

// The number of a quantifier's body, and those in its triggers.
fn list_numbers(
    alloc: Global,
    body: TermId,
    lists: &[Vec<TermId>],
) -> Result<Vec<TermId>, AllocError>
    ensures { IfOk result (λ v. v.items ≡ body ∷ in_lists lists.now) }
{
    let mut numbers = Vec::from_array(alloc, [body])?;
    for list in lists {
        push_all(&mut numbers, list)?;
    }
    Ok(numbers)
}

/// The numbers of the node's parts, of a quantifier that of its body first.
pub fn numbers(alloc: Global, node: &Node) -> Result<Vec<TermId>, AllocError>
    ensures { IfOk result (λ v. v.items ≡ numbers_in node.now) }
{
    match node {
        Node::Num(_) | Node::Truth(_) | Node::Free(_) | Node::Bound(_) => Ok(Vec::new(alloc)),
        Node::Sum(parts, _) => atom_numbers(alloc, parts),
        Node::Mul(a, b) | Node::Read(a, b) | Node::Eq(a, b) | Node::Le(a, b) => {
            Ok(Vec::from_array(alloc, [*a, *b])?)
        }
        Node::Write(a, b, c) | Node::If(a, b, c) => Ok(Vec::from_array(alloc, [*a, *b, *c])?),
        Node::Call(_, terms) | Node::And(terms) | Node::Or(terms) => copy_numbers(alloc, terms),
        Node::Not(a) => Ok(Vec::from_array(alloc, [*a])?),
        Node::ForAll(_, lists, body) | Node::Exists(_, lists, body) => {
            list_numbers(alloc, *body, lists)
        }
    }
}

/// From now on this number is found for that one.
pub fn note(found: &mut IndexMap<usize, TermId>, of: TermId, id: TermId) -> Result<(), AllocError>
    ensures ok { OnOk result (found.new.entries ≡ insert_entry nat_eq found.old.entries of id) }
    ensures memory { OnErr result (found.new.entries ≡ found.old.entries) }
{
    found.insert(of.number, id)?;
    Ok(())
}

/// Whether a number is found for this one.
pub fn is_there(found: &IndexMap<usize, TermId>, id: TermId) -> bool
    ensures { result ≡ is_some (lookup (nat_eq id) found.now.entries) }
{
    match found.get(&id.number) {
        Some(_) => true,
        None => false,
    }
}

/// The number found for a number, and the number itself where none is found.
pub fn new_number(found: &IndexMap<usize, TermId>, id: TermId) -> TermId
    ensures { result ≡ new_of found.now.entries id }
{
    match found.get(&id.number) {
        Some(other) => *other,
        None => id,
    }
}

fn new_numbers(
    alloc: Global,
    found: &IndexMap<usize, TermId>,
    ids: &[TermId],
) -> Result<Vec<TermId>, AllocError>
    ensures { IfOk result (λ v. v.items ≡ map (new_of found.now.entries) ids.now) }
{
    let mut numbers = Vec::with_capacity(alloc, ids.len())?;
    for id in ids {
        numbers.push(new_number(found, *id))?;
    }
    Ok(numbers)
}

fn new_atoms(
    alloc: Global,
    found: &IndexMap<usize, TermId>,
    parts: &[(i128, TermId)],
) -> Result<Vec<(i128, TermId)>, AllocError>
    ensures { IfOk result (λ v. v.items ≡ map (λ (p : ℤ × ℕ). (p.0, new_of found.now.entries p.1)) parts.now) }
{
    let mut atoms = Vec::with_capacity(alloc, parts.len())?;
    for part in parts {
        atoms.push((part.0, new_number(found, part.1)))?;
    }
    Ok(atoms)
}

fn new_lists(
    alloc: Global,
    found: &IndexMap<usize, TermId>,
    lists: &[Vec<TermId>],
) -> Result<Vec<Vec<TermId>>, AllocError>
    ensures { IfOk result (λ v. map (λ w. w.items) v.items ≡ map (λ w. map (new_of found.now.entries) w.items) lists.now) }
{
    let mut all = Vec::new(alloc);
    for list in lists {
        all.push(new_numbers(alloc, found, list)?)?;
    }
    Ok(all)
}

/// The node with the numbers that are found for its parts.
pub fn renumbered(
    alloc: Global,
    found: &IndexMap<usize, TermId>,
    node: &Node,
) -> Result<Node, AllocError>
    ensures { IfOk result (λ n. shape n ≡ tree_over (λ i. free (new_of found.now.entries i)) node.now) }
{
    match node {
        Node::Num(n) => Ok(Node::Num(*n)),
        Node::Truth(b) => Ok(Node::Truth(*b)),
        Node::Free(v) => Ok(Node::Free(*v)),
        Node::Bound(v) => Ok(Node::Bound(*v)),
        Node::Sum(parts, rest) => Ok(Node::Sum(new_atoms(alloc, found, parts)?, *rest)),
        Node::Mul(a, b) => Ok(Node::Mul(new_number(found, *a), new_number(found, *b))),
        Node::Read(a, b) => Ok(Node::Read(new_number(found, *a), new_number(found, *b))),
        Node::Write(a, b, c) => Ok(Node::Write(
            new_number(found, *a),
            new_number(found, *b),
            new_number(found, *c),
        )),
        Node::If(a, b, c) => Ok(Node::If(
            new_number(found, *a),
            new_number(found, *b),
            new_number(found, *c),
        )),
        Node::Call(f, terms) => Ok(Node::Call(*f, new_numbers(alloc, found, terms)?)),
        Node::Not(a) => Ok(Node::Not(new_number(found, *a))),
        Node::And(terms) => Ok(Node::And(new_numbers(alloc, found, terms)?)),
        Node::Or(terms) => Ok(Node::Or(new_numbers(alloc, found, terms)?)),
        Node::Eq(a, b) => Ok(Node::Eq(new_number(found, *a), new_number(found, *b))),
        Node::Le(a, b) => Ok(Node::Le(new_number(found, *a), new_number(found, *b))),
        Node::ForAll(sorts, lists, body) => Ok(Node::ForAll(
            copy_sorts(alloc, sorts)?,
            new_lists(alloc, found, lists)?,
            new_number(found, *body),
        )),
        Node::Exists(sorts, lists, body) => Ok(Node::Exists(
            copy_sorts(alloc, sorts)?,
            new_lists(alloc, found, lists)?,
            new_number(found, *body),
        )),
    }
}
