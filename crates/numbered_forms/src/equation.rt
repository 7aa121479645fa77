// The normal If, and the normal Eq of normal sides, by number.
ghost use Rattle.std.specs.Prelude.{◌≡◌, ◌<◌, length, Some, IfOk};
ghost use Rattle.logic_core.specs.Tree.{int};
ghost use Rattle.logic_core.specs.Normal.{choice, equivalence_with, equivalence, equation_of, equation};
ghost use Rattle.term_bank.specs.Numbered.{at, Begins};
ghost use Rattle.numbered_terms.specs.At.{IsAt, GivesAt};

use crate::arithmetic::{difference, equals_zero, in_order};
use crate::negation::negated;
use logic_core::{NormalFault, Sort, SortKind};
use numbered_terms::Terms;
use std::alloc::AllocError;
use term_bank::{Node, TermId};

/// If: a truth value chooses; equal branches are the result.
pub fn choice(terms: &mut Terms, c: TermId, a: TermId, b: TermId) -> Result<TermId, AllocError>
    requires c { c < length terms.old }
    requires a { a < length terms.old }
    requires b { b < length terms.old }
    ensures grows { Begins terms.old terms.new }
    ensures gives { IfOk result (λ i. IsAt terms.new i (choice (at terms.old c) (at terms.old a) (at terms.old b))) }
{
    match terms.node(c) {
        Node::Truth(true) => Ok(a),
        Node::Truth(false) => Ok(b),
        _ => {
            if terms.is_same(a, b) {
                return Ok(a);
            }
            terms.make(Node::If(c, a, b))
        }
    }
}

// Eq of Bool, where the first side is no truth value: beside one it is the first side or its Not.
fn equivalence_with(terms: &mut Terms, a: TermId, b: TermId) -> Result<TermId, NormalFault>
    requires a { a < length terms.old }
    requires b { b < length terms.old }
    ensures grows { Begins terms.old terms.new }
    ensures gives { GivesAt terms.new result (equivalence_with (at terms.old a) (at terms.old b)) }
{
    match terms.node(b) {
        Node::Truth(true) => Ok(a),
        Node::Truth(false) => negated(terms, a),
        _ => {
            let (first, second) = in_order(terms, a, b);
            Ok(terms.make(Node::Eq(first, second))?)
        }
    }
}

// Eq of Bool: beside a truth value the other side or its Not, and else the smaller side first.
fn equivalence(terms: &mut Terms, a: TermId, b: TermId) -> Result<TermId, NormalFault>
    requires a { a < length terms.old }
    requires b { b < length terms.old }
    ensures grows { Begins terms.old terms.new }
    ensures gives { GivesAt terms.new result (equivalence (at terms.old a) (at terms.old b)) }
{
    match terms.node(a) {
        Node::Truth(true) => Ok(b),
        Node::Truth(false) => negated(terms, b),
        _ => equivalence_with(terms, a, b),
    }
}

// Eq of integers, by the difference of the sides.
fn integer_equation(terms: &mut Terms, a: TermId, b: TermId) -> Result<TermId, NormalFault>
    requires a { a < length terms.old }
    requires b { b < length terms.old }
    ensures grows { Begins terms.old terms.new }
    ensures gives { GivesAt terms.new result (equation_of (Some int) (at terms.old a) (at terms.old b)) }
{
    let difference = difference(terms, a, b)?;
    equals_zero(terms, difference)
}

// Eq of sides that aren't equal, by their sort.
fn equation_of(
    terms: &mut Terms,
    sort: Option<Sort>,
    a: TermId,
    b: TermId,
) -> Result<TermId, NormalFault>
    requires a { a < length terms.old }
    requires b { b < length terms.old }
    ensures grows { Begins terms.old terms.new }
    ensures gives { GivesAt terms.new result (equation_of sort (at terms.old a) (at terms.old b)) }
{
    match sort {
        Some(sort) => match &sort.kind {
            SortKind::Int => integer_equation(terms, a, b),
            SortKind::Bool => equivalence(terms, a, b),
            SortKind::Map(_) => {
                let (first, second) = in_order(terms, a, b);
                Ok(terms.make(Node::Eq(first, second))?)
            }
        },
        None => Ok(terms.make(Node::Eq(a, b))?),
    }
}

/// Eq, of normal sides, the first of this sort: equal sides are true; an Eq of integers compares
/// their difference with zero; one of truth values beside a truth value is the other side or its
/// Not; every other has the smaller side first. Wide exactly where a number leaves 128 bits.
pub fn equation(
    terms: &mut Terms,
    sort: Option<Sort>,
    a: TermId,
    b: TermId,
) -> Result<TermId, NormalFault>
    requires a { a < length terms.old }
    requires b { b < length terms.old }
    ensures grows { Begins terms.old terms.new }
    ensures gives { GivesAt terms.new result (equation sort (at terms.old a) (at terms.old b)) }
{
    if terms.is_same(a, b) {
        return Ok(terms.make(Node::Truth(true))?);
    }
    equation_of(terms, sort, a, b)
}
