// The texts of sorts and terms, as bytes that come behind others.
ghost use Rattle.std.specs.Prelude.{◌≡◌, ◌++◌, codes, OnOk};
ghost use Rattle.logic_core.specs.View.{trees_of, parts_of, patterns_of, each_items};
ghost use Rattle.obligation_text.specs.Numbers.{number_text, signed_text};
ghost use Rattle.obligation_text.specs.Text.{spaced, form, sort_text, together, sorts_text, term_text, terms_text, parts_text, triggers_text};

use itoa::Buffer;
use logic_core::sort::{Sort, SortKind};
use logic_core::term::{Node, Term};
use std::alloc::AllocError;

/// The bytes come behind.
pub fn put(out: &mut Vec<u8>, bytes: &[u8]) -> Result<(), AllocError>
    ensures { OnOk result (out.new.items ≡ out.old.items ++ bytes.now) }
{
    out.extend_from_slice(bytes)?;
    Ok(())
}

/// The number's decimal digits come behind.
#[tactic(auto, using(crate::proofs::Printable::number_is))]
pub fn put_number(out: &mut Vec<u8>, n: u64) -> Result<(), AllocError>
    ensures { OnOk result (out.new.items ≡ out.old.items ++ number_text n) }
{
    let mut buffer = Buffer::new();
    put(out, buffer.format(n).as_bytes())
}

/// The number's decimal digits come behind, with a minus sign where it is negative.
#[tactic(auto, using(crate::proofs::Printable::signed_is))]
pub fn put_signed(out: &mut Vec<u8>, n: i128) -> Result<(), AllocError>
    ensures { OnOk result (out.new.items ≡ out.old.items ++ signed_text n) }
{
    let mut buffer = Buffer::new();
    put(out, buffer.format(n).as_bytes())
}

/// The sort's text comes behind.
#[tactic(auto, using(logic_core::proofs::Mentioned::behind))]
pub(crate) fn put_sort(out: &mut Vec<u8>, sort: &Sort) -> Result<(), AllocError>
    ensures { OnOk result (out.new.items ≡ out.old.items ++ sort_text sort.now) }
{
    match &sort.kind {
        SortKind::Int => put(out, b"i"),
        SortKind::Bool => put(out, b"b"),
        SortKind::Map(range) => {
            put(out, b"m")?;
            put_sort(out, range)
        }
    }
}

/// The sorts together, or - where there is none.
#[tactic(auto, using(logic_core::proofs::Mentioned::behind))]
pub(crate) fn put_sorts(out: &mut Vec<u8>, sorts: &[Sort]) -> Result<(), AllocError>
    ensures { OnOk result (out.new.items ≡ out.old.items ++ sorts_text sorts.now) }
{
    if sorts.is_empty() {
        return put(out, b"-");
    }
    for sort in sorts {
        put_sort(out, sort)?;
    }
    Ok(())
}

/// The opening parenthesis and the head of a form come behind.
#[tactic(auto, using(logic_core::proofs::Mentioned::behind))]
pub fn open(out: &mut Vec<u8>, head: &[u8]) -> Result<(), AllocError>
    ensures { OnOk result (out.new.items ≡ out.old.items ++ codes "(" ++ head.now) }
{
    put(out, b"(")?;
    put(out, head)
}

/// The term's text comes behind.
#[cycle(text)]
#[tactic(auto, using(logic_core::proofs::Mentioned::behind))]
pub fn put_term(out: &mut Vec<u8>, term: &Term) -> Result<(), AllocError>
    ensures { OnOk result (out.new.items ≡ out.old.items ++ term_text term.now) }
{
    match &term.node {
        Node::Num(n) => put_signed(out, *n),
        Node::Truth(true) => put(out, b"T"),
        Node::Truth(false) => put(out, b"F"),
        Node::Free(v) => {
            put(out, b"v")?;
            put_number(out, *v)
        }
        Node::Bound(v) => {
            put(out, b"k")?;
            put_number(out, *v)
        }
        Node::Sum(parts, c) => {
            open(out, b"+")?;
            put_parts(out, parts)?;
            put(out, b" ")?;
            put_signed(out, *c)?;
            put(out, b")")
        }
        Node::Mul(a, b) => put_two(out, b"*", a, b),
        Node::Read(a, b) => put_two(out, b"r", a, b),
        Node::Write(a, b, c) => put_three(out, b"w", a, b, c),
        Node::If(a, b, c) => put_three(out, b"?", a, b, c),
        Node::Call(f, terms) => {
            put(out, b"(")?;
            put(out, b"f")?;
            put_number(out, *f)?;
            put_terms(out, terms)?;
            put(out, b")")
        }
        Node::Not(a) => {
            open(out, b"!")?;
            put_spaced(out, a)?;
            put(out, b")")
        }
        Node::And(terms) => put_form(out, b"&", terms),
        Node::Or(terms) => put_form(out, b"|", terms),
        Node::Eq(a, b) => put_two(out, b"=", a, b),
        Node::Le(a, b) => put_two(out, b"<=", a, b),
        Node::ForAll(sorts, patterns, body) => put_quantifier(out, b"A", sorts, patterns, body),
        Node::Exists(sorts, patterns, body) => put_quantifier(out, b"E", sorts, patterns, body),
    }
}

/// A space and the term's text come behind.
#[cycle(text)]
#[tactic(auto, using(logic_core::proofs::Mentioned::behind))]
pub fn put_spaced(out: &mut Vec<u8>, term: &Term) -> Result<(), AllocError>
    ensures { OnOk result (out.new.items ≡ out.old.items ++ spaced (term_text term.now)) }
{
    put(out, b" ")?;
    put_term(out, term)
}

#[cycle(text)]
#[tactic(auto, using(logic_core::proofs::Mentioned::behind))]
fn put_two(out: &mut Vec<u8>, head: &[u8], a: &Term, b: &Term) -> Result<(), AllocError>
    ensures { OnOk result (out.new.items ≡ out.old.items ++ form head.now (spaced (term_text a.now) ++ spaced (term_text b.now))) }
{
    open(out, head)?;
    put_spaced(out, a)?;
    put_spaced(out, b)?;
    put(out, b")")
}

#[cycle(text)]
#[tactic(auto, using(logic_core::proofs::Mentioned::behind))]
fn put_three(out: &mut Vec<u8>, head: &[u8], a: &Term, b: &Term, c: &Term) -> Result<(), AllocError>
    ensures { OnOk result (out.new.items ≡ out.old.items ++ form head.now (spaced (term_text a.now) ++ spaced (term_text b.now) ++ spaced (term_text c.now))) }
{
    open(out, head)?;
    put_spaced(out, a)?;
    put_spaced(out, b)?;
    put_spaced(out, c)?;
    put(out, b")")
}

#[cycle(text)]
#[tactic(auto, using(logic_core::proofs::Mentioned::behind))]
fn put_form(out: &mut Vec<u8>, head: &[u8], terms: &[Term]) -> Result<(), AllocError>
    ensures { OnOk result (out.new.items ≡ out.old.items ++ form head.now (terms_text (trees_of terms.now))) }
{
    open(out, head)?;
    put_terms(out, terms)?;
    put(out, b")")
}

#[cycle(text)]
#[tactic(auto, using(logic_core::proofs::Mentioned::behind))]
fn put_quantifier(
    out: &mut Vec<u8>,
    head: &[u8],
    sorts: &[Sort],
    patterns: &[Vec<Term>],
    body: &Term,
) -> Result<(), AllocError>
    ensures { OnOk result (out.new.items ≡ out.old.items ++ form head.now (spaced (sorts_text sorts.now) ++ triggers_text (patterns_of (each_items patterns.now)) ++ spaced (term_text body.now))) }
{
    open(out, head)?;
    put(out, b" ")?;
    put_sorts(out, sorts)?;
    put_triggers(out, patterns)?;
    put_spaced(out, body)?;
    put(out, b")")
}

#[cycle(text)]
#[tactic(auto, using(logic_core::proofs::Mentioned::behind))]
fn put_terms(out: &mut Vec<u8>, terms: &[Term]) -> Result<(), AllocError>
    ensures { OnOk result (out.new.items ≡ out.old.items ++ terms_text (trees_of terms.now)) }
{
    for term in terms {
        put_spaced(out, term)?;
    }
    Ok(())
}

#[cycle(text)]
#[tactic(auto, using(logic_core::proofs::Mentioned::behind))]
fn put_parts(out: &mut Vec<u8>, parts: &[(i128, Term)]) -> Result<(), AllocError>
    ensures { OnOk result (out.new.items ≡ out.old.items ++ parts_text (parts_of parts.now)) }
{
    for part in parts {
        put(out, b" ")?;
        put_signed(out, part.0)?;
        put_spaced(out, &part.1)?;
    }
    Ok(())
}

#[cycle(text)]
#[tactic(auto, using(logic_core::proofs::Mentioned::behind))]
fn put_triggers(out: &mut Vec<u8>, patterns: &[Vec<Term>]) -> Result<(), AllocError>
    ensures { OnOk result (out.new.items ≡ out.old.items ++ triggers_text (patterns_of (each_items patterns.now))) }
{
    for pattern in patterns {
        put(out, b" ")?;
        put_form(out, b"t", pattern)?;
    }
    Ok(())
}
