// The normal form of a term, by number, made from the parts up. Outside binders the form of a term
// is kept by its number.
ghost use Rattle.std.specs.Prelude.{◌≡◌, ◌<◌, [], length, IsTrue};
ghost use Rattle.logic_core.specs.Normal.{normal};
ghost use Rattle.term_bank.specs.Numbered.{at, Begins};
ghost use Rattle.numbered_terms.specs.At.{GivesAt};
ghost use Rattle.numbered_terms.specs.Slots.{kept_at};
ghost use Rattle.numbered_forms.specs.Forms.{AreForms};

use crate::constructs::{
    normal_call, normal_choice, normal_conjunction, normal_disjunction, normal_equation,
    normal_exists, normal_for_all, normal_inequality, normal_negation, normal_product, normal_read,
    normal_write,
};
use crate::listed::normal_sum;
use logic_core::copy::copy_sorts;
use logic_core::{Def, NormalFault, Sort};
use numbered_terms::Terms;
use numbered_terms::renumber::{copy_atoms, copy_lists, copy_numbers};
use numbered_terms::slots::Slots;
use term_bank::{Node, TermId};

// The form that is kept of a number.
fn form_of(forms: &Slots<TermId>, id: TermId) -> Option<TermId>
    ensures { result ≡ kept_at forms.now.slots.items id }
{
    match forms.get(id) {
        Some(form) => Some(*form),
        None => None,
    }
}

// Whether no variable is bound.
fn is_closed(bound: &[Sort]) -> bool
    ensures { IsTrue result → bound.now ≡ [] }
{
    bound.is_empty()
}

// The normal form under binders whose variables have these sorts.
#[cycle(normal)]
pub(crate) fn normal_under(
    terms: &mut Terms,
    forms: &mut Slots<TermId>,
    vars: &[Sort],
    defs: &[Def],
    bound: &[Sort],
    id: TermId,
) -> Result<TermId, NormalFault>
    requires id { id < length terms.old }
    requires forms { AreForms vars.now defs.now terms.old forms.old.slots.items }
    ensures grows { Begins terms.old terms.new }
    ensures forms { AreForms vars.now defs.now terms.new forms.new.slots.items }
    ensures gives { GivesAt terms.new result (normal vars.now defs.now bound.now (at terms.old id)) }
{
    if is_closed(bound) {
        return normal_closed(terms, forms, vars, defs, bound, id);
    }
    normal_node(terms, forms, vars, defs, bound, id)
}

// The same outside binders, where forms are kept.
#[cycle(normal)]
fn normal_closed(
    terms: &mut Terms,
    forms: &mut Slots<TermId>,
    vars: &[Sort],
    defs: &[Def],
    bound: &[Sort],
    id: TermId,
) -> Result<TermId, NormalFault>
    requires id { id < length terms.old }
    requires bound { bound.now ≡ [] }
    requires forms { AreForms vars.now defs.now terms.old forms.old.slots.items }
    ensures grows { Begins terms.old terms.new }
    ensures forms { AreForms vars.now defs.now terms.new forms.new.slots.items }
    ensures gives { GivesAt terms.new result (normal vars.now defs.now bound.now (at terms.old id)) }
{
    if let Some(form) = form_of(forms, id) {
        return Ok(form);
    }
    let form = normal_node(terms, forms, vars, defs, bound, id)?;
    forms.put(id, form)?;
    Ok(form)
}

// The same of a term whose form isn't known.
#[cycle(normal)]
fn normal_node(
    terms: &mut Terms,
    forms: &mut Slots<TermId>,
    vars: &[Sort],
    defs: &[Def],
    bound: &[Sort],
    id: TermId,
) -> Result<TermId, NormalFault>
    requires id { id < length terms.old }
    requires forms { AreForms vars.now defs.now terms.old forms.old.slots.items }
    ensures grows { Begins terms.old terms.new }
    ensures forms { AreForms vars.now defs.now terms.new forms.new.slots.items }
    ensures gives { GivesAt terms.new result (normal vars.now defs.now bound.now (at terms.old id)) }
{
    match terms.node(id) {
        Node::Num(_) | Node::Truth(_) | Node::Free(_) | Node::Bound(_) => Ok(id),
        Node::Sum(parts, c) => {
            let c = *c;
            let parts = copy_atoms(terms.alloc(), parts)?;
            normal_sum(terms, forms, vars, defs, bound, id.number, &parts, c)
        }
        Node::Mul(a, b) => {
            let a = *a;
            let b = *b;
            normal_product(terms, forms, vars, defs, bound, id.number, a, b)
        }
        Node::Read(map, index) => {
            let map = *map;
            let index = *index;
            normal_read(terms, forms, vars, defs, bound, id.number, map, index)
        }
        Node::Write(map, index, value) => {
            let map = *map;
            let index = *index;
            let value = *value;
            normal_write(
                terms, forms, vars, defs, bound, id.number, map, index, value,
            )
        }
        Node::If(c, a, b) => {
            let c = *c;
            let a = *a;
            let b = *b;
            normal_choice(terms, forms, vars, defs, bound, id.number, c, a, b)
        }
        Node::Call(f, ids) => {
            let f = *f;
            let ids = copy_numbers(terms.alloc(), ids)?;
            normal_call(terms, forms, vars, defs, bound, id.number, f, &ids)
        }
        Node::Not(a) => {
            let a = *a;
            normal_negation(terms, forms, vars, defs, bound, id.number, a)
        }
        Node::And(ids) => {
            let ids = copy_numbers(terms.alloc(), ids)?;
            normal_conjunction(terms, forms, vars, defs, bound, id.number, &ids)
        }
        Node::Or(ids) => {
            let ids = copy_numbers(terms.alloc(), ids)?;
            normal_disjunction(terms, forms, vars, defs, bound, id.number, &ids)
        }
        Node::Eq(a, b) => {
            let a = *a;
            let b = *b;
            normal_equation(terms, forms, vars, defs, bound, id.number, a, b)
        }
        Node::Le(a, b) => {
            let a = *a;
            let b = *b;
            normal_inequality(terms, forms, vars, defs, bound, id.number, a, b)
        }
        Node::ForAll(sorts, lists, body) => {
            let body = *body;
            let sorts = copy_sorts(terms.alloc(), sorts)?;
            let lists = copy_lists(terms.alloc(), lists)?;
            normal_for_all(
                terms, forms, vars, defs, bound, id.number, sorts, &lists, body,
            )
        }
        Node::Exists(sorts, lists, body) => {
            let body = *body;
            let sorts = copy_sorts(terms.alloc(), sorts)?;
            let lists = copy_lists(terms.alloc(), lists)?;
            normal_exists(
                terms, forms, vars, defs, bound, id.number, sorts, &lists, body,
            )
        }
    }
}

/// The normal form of a term over these variables and definitions. What is found of terms is kept in
/// `forms`. Wide exactly where a coefficient or a constant on the way leaves 128 bits.
pub fn normal_over(
    terms: &mut Terms,
    forms: &mut Slots<TermId>,
    vars: &[Sort],
    defs: &[Def],
    id: TermId,
) -> Result<TermId, NormalFault>
    requires id { id < length terms.old }
    requires forms { AreForms vars.now defs.now terms.old forms.old.slots.items }
    ensures grows { Begins terms.old terms.new }
    ensures forms { AreForms vars.now defs.now terms.new forms.new.slots.items }
    ensures gives { GivesAt terms.new result (normal vars.now defs.now [] (at terms.old id)) }
{
    let unbound = Vec::new(terms.alloc());
    normal_under(terms, forms, vars, defs, &unbound, id)
}
