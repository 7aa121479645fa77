// The normal form of each construct, by the normal forms of its parts.
ghost use Rattle.std.specs.Prelude.{◌≡◌, ◌<◌, ◌≤◌, length};
ghost use Rattle.std.specs.List.{AllByRecursion};
ghost use Rattle.logic_core.specs.View.{trees_of, patterns_of};
ghost use Rattle.logic_core.specs.Normal.{normal};
ghost use Rattle.logic_core.specs.Tree.{mul, read, write, choose, call, negation, all, some, equal, at_most, for_all, exists};
ghost use Rattle.term_bank.specs.Numbered.{at, Begins};
ghost use Rattle.term_bank.specs.Node.{in_lists};
ghost use Rattle.numbered_terms.specs.At.{GivesAt};
ghost use Rattle.numbered_terms.specs.Lists.{terms_at, lists_at};
ghost use Rattle.numbered_forms.specs.Forms.{AreForms};

use crate::arithmetic::{inequality, product};
use crate::binders::{exists, for_all, within_binder};
use crate::equation::{choice, equation};
use crate::junction::junction;
use crate::listed::{normal_each, normal_parts, normal_three, normal_two};
use crate::negation::negated;
use crate::normal::normal_under;
use crate::sorts::sort_of;
use logic_core::junction::Connective;
use logic_core::{Def, NormalFault, Sort};
use numbered_terms::Terms;
use numbered_terms::slots::Slots;
use term_bank::{Node, TermId};

// The normal form of a product.
#[cycle(normal)]
pub(crate) fn normal_product(
    terms: &mut Terms,
    forms: &mut Slots<TermId>,
    vars: &[Sort],
    defs: &[Def],
    bound: &[Sort],
    below: usize,
    a: TermId,
    b: TermId,
) -> Result<TermId, NormalFault>
    requires below { below ≤ length terms.old }
    requires a { a < below }
    requires b { b < below }
    requires forms { AreForms vars.now defs.now terms.old forms.old.slots.items }
    ensures grows { Begins terms.old terms.new }
    ensures forms { AreForms vars.now defs.now terms.new forms.new.slots.items }
    ensures gives { GivesAt terms.new result (normal vars.now defs.now bound.now (mul (at terms.old a) (at terms.old b))) }
{
    let (a, b) = normal_two(terms, forms, vars, defs, bound, below, a, b)?;
    product(terms, a, b)
}

// The normal form of a Read.
#[cycle(normal)]
pub(crate) fn normal_read(
    terms: &mut Terms,
    forms: &mut Slots<TermId>,
    vars: &[Sort],
    defs: &[Def],
    bound: &[Sort],
    below: usize,
    map: TermId,
    index: TermId,
) -> Result<TermId, NormalFault>
    requires below { below ≤ length terms.old }
    requires map { map < below }
    requires index { index < below }
    requires forms { AreForms vars.now defs.now terms.old forms.old.slots.items }
    ensures grows { Begins terms.old terms.new }
    ensures forms { AreForms vars.now defs.now terms.new forms.new.slots.items }
    ensures gives { GivesAt terms.new result (normal vars.now defs.now bound.now (read (at terms.old map) (at terms.old index))) }
{
    let (map, index) = normal_two(terms, forms, vars, defs, bound, below, map, index)?;
    Ok(terms.make(Node::Read(map, index))?)
}

// The normal form of a Le.
#[cycle(normal)]
pub(crate) fn normal_inequality(
    terms: &mut Terms,
    forms: &mut Slots<TermId>,
    vars: &[Sort],
    defs: &[Def],
    bound: &[Sort],
    below: usize,
    a: TermId,
    b: TermId,
) -> Result<TermId, NormalFault>
    requires below { below ≤ length terms.old }
    requires a { a < below }
    requires b { b < below }
    requires forms { AreForms vars.now defs.now terms.old forms.old.slots.items }
    ensures grows { Begins terms.old terms.new }
    ensures forms { AreForms vars.now defs.now terms.new forms.new.slots.items }
    ensures gives { GivesAt terms.new result (normal vars.now defs.now bound.now (at_most (at terms.old a) (at terms.old b))) }
{
    let (a, b) = normal_two(terms, forms, vars, defs, bound, below, a, b)?;
    inequality(terms, a, b)
}

// The normal form of an Eq.
#[cycle(normal)]
pub(crate) fn normal_equation(
    terms: &mut Terms,
    forms: &mut Slots<TermId>,
    vars: &[Sort],
    defs: &[Def],
    bound: &[Sort],
    below: usize,
    a: TermId,
    b: TermId,
) -> Result<TermId, NormalFault>
    requires below { below ≤ length terms.old }
    requires a { a < below }
    requires b { b < below }
    requires forms { AreForms vars.now defs.now terms.old forms.old.slots.items }
    ensures grows { Begins terms.old terms.new }
    ensures forms { AreForms vars.now defs.now terms.new forms.new.slots.items }
    ensures gives { GivesAt terms.new result (normal vars.now defs.now bound.now (equal (at terms.old a) (at terms.old b))) }
{
    let sort = sort_of(terms, vars, defs, bound, a)?;
    let (a, b) = normal_two(terms, forms, vars, defs, bound, below, a, b)?;
    equation(terms, sort, a, b)
}

// The normal form of a Write.
#[cycle(normal)]
pub(crate) fn normal_write(
    terms: &mut Terms,
    forms: &mut Slots<TermId>,
    vars: &[Sort],
    defs: &[Def],
    bound: &[Sort],
    below: usize,
    map: TermId,
    index: TermId,
    value: TermId,
) -> Result<TermId, NormalFault>
    requires below { below ≤ length terms.old }
    requires map { map < below }
    requires index { index < below }
    requires value { value < below }
    requires forms { AreForms vars.now defs.now terms.old forms.old.slots.items }
    ensures grows { Begins terms.old terms.new }
    ensures forms { AreForms vars.now defs.now terms.new forms.new.slots.items }
    ensures gives { GivesAt terms.new result (normal vars.now defs.now bound.now (write (at terms.old map) (at terms.old index) (at terms.old value))) }
{
    let (map, index, value) = normal_three(
        terms, forms, vars, defs, bound, below, map, index, value,
    )?;
    Ok(terms.make(Node::Write(map, index, value))?)
}

// The normal form of an If.
#[cycle(normal)]
pub(crate) fn normal_choice(
    terms: &mut Terms,
    forms: &mut Slots<TermId>,
    vars: &[Sort],
    defs: &[Def],
    bound: &[Sort],
    below: usize,
    c: TermId,
    a: TermId,
    b: TermId,
) -> Result<TermId, NormalFault>
    requires below { below ≤ length terms.old }
    requires c { c < below }
    requires a { a < below }
    requires b { b < below }
    requires forms { AreForms vars.now defs.now terms.old forms.old.slots.items }
    ensures grows { Begins terms.old terms.new }
    ensures forms { AreForms vars.now defs.now terms.new forms.new.slots.items }
    ensures gives { GivesAt terms.new result (normal vars.now defs.now bound.now (choose (at terms.old c) (at terms.old a) (at terms.old b))) }
{
    let (c, a, b) = normal_three(terms, forms, vars, defs, bound, below, c, a, b)?;
    Ok(choice(terms, c, a, b)?)
}

// The normal form of a Call.
#[cycle(normal)]
pub(crate) fn normal_call(
    terms: &mut Terms,
    forms: &mut Slots<TermId>,
    vars: &[Sort],
    defs: &[Def],
    bound: &[Sort],
    below: usize,
    f: u64,
    ids: &[TermId],
) -> Result<TermId, NormalFault>
    requires below { below ≤ length terms.old }
    requires ids { AllByRecursion (λ j. j < below) ids.now }
    requires forms { AreForms vars.now defs.now terms.old forms.old.slots.items }
    ensures grows { Begins terms.old terms.new }
    ensures forms { AreForms vars.now defs.now terms.new forms.new.slots.items }
    ensures gives { GivesAt terms.new result (normal vars.now defs.now bound.now (call f (trees_of (terms_at terms.old ids.now)))) }
{
    let args = normal_each(terms, forms, vars, defs, bound, below, ids)?;
    Ok(terms.make(Node::Call(f, args))?)
}

// The normal form of an And.
#[cycle(normal)]
pub(crate) fn normal_conjunction(
    terms: &mut Terms,
    forms: &mut Slots<TermId>,
    vars: &[Sort],
    defs: &[Def],
    bound: &[Sort],
    below: usize,
    ids: &[TermId],
) -> Result<TermId, NormalFault>
    requires below { below ≤ length terms.old }
    requires ids { AllByRecursion (λ j. j < below) ids.now }
    requires forms { AreForms vars.now defs.now terms.old forms.old.slots.items }
    ensures grows { Begins terms.old terms.new }
    ensures forms { AreForms vars.now defs.now terms.new forms.new.slots.items }
    ensures gives { GivesAt terms.new result (normal vars.now defs.now bound.now (all (trees_of (terms_at terms.old ids.now)))) }
{
    let parts = normal_each(terms, forms, vars, defs, bound, below, ids)?;
    Ok(junction(terms, Connective::And, &parts)?)
}

// The normal form of an Or.
#[cycle(normal)]
pub(crate) fn normal_disjunction(
    terms: &mut Terms,
    forms: &mut Slots<TermId>,
    vars: &[Sort],
    defs: &[Def],
    bound: &[Sort],
    below: usize,
    ids: &[TermId],
) -> Result<TermId, NormalFault>
    requires below { below ≤ length terms.old }
    requires ids { AllByRecursion (λ j. j < below) ids.now }
    requires forms { AreForms vars.now defs.now terms.old forms.old.slots.items }
    ensures grows { Begins terms.old terms.new }
    ensures forms { AreForms vars.now defs.now terms.new forms.new.slots.items }
    ensures gives { GivesAt terms.new result (normal vars.now defs.now bound.now (some (trees_of (terms_at terms.old ids.now)))) }
{
    let parts = normal_each(terms, forms, vars, defs, bound, below, ids)?;
    Ok(junction(terms, Connective::Or, &parts)?)
}

// The normal form of a Not.
#[cycle(normal)]
pub(crate) fn normal_negation(
    terms: &mut Terms,
    forms: &mut Slots<TermId>,
    vars: &[Sort],
    defs: &[Def],
    bound: &[Sort],
    below: usize,
    a: TermId,
) -> Result<TermId, NormalFault>
    requires below { below ≤ length terms.old }
    requires a { a < below }
    requires forms { AreForms vars.now defs.now terms.old forms.old.slots.items }
    ensures grows { Begins terms.old terms.new }
    ensures forms { AreForms vars.now defs.now terms.new forms.new.slots.items }
    ensures gives { GivesAt terms.new result (normal vars.now defs.now bound.now (negation (at terms.old a))) }
{
    let a = normal_under(terms, forms, vars, defs, bound, a)?;
    negated(terms, a)
}

// The normal form of a ForAll.
#[cycle(normal)]
pub(crate) fn normal_for_all(
    terms: &mut Terms,
    forms: &mut Slots<TermId>,
    vars: &[Sort],
    defs: &[Def],
    bound: &[Sort],
    below: usize,
    sorts: Vec<Sort>,
    lists: &[Vec<TermId>],
    body: TermId,
) -> Result<TermId, NormalFault>
    requires below { below ≤ length terms.old }
    requires lists { AllByRecursion (λ j. j < below) (in_lists lists.now) }
    requires body { body < below }
    requires forms { AreForms vars.now defs.now terms.old forms.old.slots.items }
    ensures grows { Begins terms.old terms.new }
    ensures forms { AreForms vars.now defs.now terms.new forms.new.slots.items }
    ensures gives { GivesAt terms.new result (normal vars.now defs.now bound.now (for_all sorts.items (patterns_of (lists_at terms.old lists.now)) (at terms.old body))) }
{
    let within = within_binder(terms.alloc(), &sorts, bound)?;
    let (lists, body) = normal_parts(terms, forms, vars, defs, &within, below, lists, body)?;
    Ok(for_all(terms, sorts, lists, body)?)
}

// The normal form of an Exists.
#[cycle(normal)]
pub(crate) fn normal_exists(
    terms: &mut Terms,
    forms: &mut Slots<TermId>,
    vars: &[Sort],
    defs: &[Def],
    bound: &[Sort],
    below: usize,
    sorts: Vec<Sort>,
    lists: &[Vec<TermId>],
    body: TermId,
) -> Result<TermId, NormalFault>
    requires below { below ≤ length terms.old }
    requires lists { AllByRecursion (λ j. j < below) (in_lists lists.now) }
    requires body { body < below }
    requires forms { AreForms vars.now defs.now terms.old forms.old.slots.items }
    ensures grows { Begins terms.old terms.new }
    ensures forms { AreForms vars.now defs.now terms.new forms.new.slots.items }
    ensures gives { GivesAt terms.new result (normal vars.now defs.now bound.now (exists sorts.items (patterns_of (lists_at terms.old lists.now)) (at terms.old body))) }
{
    let within = within_binder(terms.alloc(), &sorts, bound)?;
    let (lists, body) = normal_parts(terms, forms, vars, defs, &within, below, lists, body)?;
    Ok(exists(terms, sorts, lists, body)?)
}
