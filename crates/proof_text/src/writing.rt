// The texts of steps and proofs.
ghost use Rattle.std.specs.Prelude.{◌≡◌, ◌++◌, codes, IfOk, OnOk};
ghost use Rattle.obligation_text.specs.Numbers.{signed_text};
ghost use Rattle.obligation_text.specs.Text.{spaced, form};
ghost use Rattle.proof_core.specs.Proof.{by_cases, by_condition};
ghost use Rattle.proof_core.specs.View.{step_of, steps_of, proofs_of};
ghost use Rattle.proof_core.specs.ProofView.{end_of};
ghost use Rattle.proof_text.specs.Reading.{Spells};
ghost use Rattle.proof_text.specs.Text.{fact_text, named_text, tuple_text, step_text, steps_text, child, proof_text, end_text, children_text};

use crate::ranges::proof_fits;
use logic_core::term::Term;
use obligation_text::text::{open, put, put_number, put_signed, put_spaced};
use proof_core::proof::{End, Proof, Step};
use std::alloc::{AllocError, Global};

// A space, and a fact's number.
#[tactic(auto, using(logic_core::proofs::Mentioned::behind))]
fn put_fact(out: &mut Vec<u8>, f: u64) -> Result<(), AllocError>
    ensures { OnOk result (out.new.items ≡ out.old.items ++ fact_text f) }
{
    put(out, b" ")?;
    put_number(out, f)
}

// A space, and a multiplier.
#[tactic(auto, using(logic_core::proofs::Mentioned::behind))]
fn put_multiplier(out: &mut Vec<u8>, n: i128) -> Result<(), AllocError>
    ensures { OnOk result (out.new.items ≡ out.old.items ++ spaced (signed_text n)) }
{
    put(out, b" ")?;
    put_signed(out, n)
}

// The terms, each after a space.
#[tactic(auto, using(logic_core::proofs::Mentioned::behind))]
fn put_tuple(out: &mut Vec<u8>, terms: &[Term]) -> Result<(), AllocError>
    ensures { OnOk result (out.new.items ≡ out.old.items ++ tuple_text terms.now) }
{
    for term in terms {
        put_spaced(out, term)?;
    }
    Ok(())
}

// The opening parenthesis and the head of a node, and the fact that it names first.
#[tactic(auto, using(logic_core::proofs::Mentioned::behind))]
fn open_fact(out: &mut Vec<u8>, head: &[u8], f: u64) -> Result<(), AllocError>
    ensures { OnOk result (out.new.items ≡ out.old.items ++ codes "(" ++ head.now ++ fact_text f) }
{
    open(out, head)?;
    put_fact(out, f)
}

// A node that names one fact.
#[tactic(auto, using(logic_core::proofs::Mentioned::behind))]
fn put_fact_node(out: &mut Vec<u8>, head: &[u8], f: u64) -> Result<(), AllocError>
    ensures { OnOk result (out.new.items ≡ out.old.items ++ form head.now (fact_text f)) }
{
    open_fact(out, head, f)?;
    put(out, b")")
}

// A node that names a fact and a term in it.
#[tactic(auto, using(logic_core::proofs::Mentioned::behind))]
fn put_term_node(out: &mut Vec<u8>, head: &[u8], f: u64, term: &Term) -> Result<(), AllocError>
    ensures { OnOk result (out.new.items ≡ out.old.items ++ form head.now (fact_text f ++ named_text term.now)) }
{
    open_fact(out, head, f)?;
    put_spaced(out, term)?;
    put(out, b")")
}

#[tactic(auto, using(logic_core::proofs::Mentioned::behind))]
fn put_step(out: &mut Vec<u8>, step: &Step) -> Result<(), AllocError>
    ensures { OnOk result (out.new.items ≡ out.old.items ++ step_text (step_of step.now)) }
{
    match step {
        Step::Split(f) => put_fact_node(out, b"s", *f),
        Step::Instantiate { fact, terms } => {
            open_fact(out, b"i", *fact)?;
            put_tuple(out, terms)?;
            put(out, b")")
        }
        Step::Skolem(f) => put_fact_node(out, b"w", *f),
        Step::Replace { fact, by, term } => {
            open_fact(out, b"e", *fact)?;
            put_fact(out, *by)?;
            put_spaced(out, term)?;
            put(out, b")")
        }
        Step::Unfold { fact, term } => put_term_node(out, b"u", *fact, term),
        Step::Back { fact, term } => put_term_node(out, b"r", *fact, term),
        Step::Differ(f) => put_fact_node(out, b"d", *f),
        Step::Combine {
            first,
            first_times,
            second,
            second_times,
        } => {
            open_fact(out, b"k", *first)?;
            put_multiplier(out, *first_times)?;
            put_fact(out, *second)?;
            put_multiplier(out, *second_times)?;
            put(out, b")")
        }
        Step::Tighten(f) => put_fact_node(out, b"t", *f),
    }
}

// The steps, each before a space.
#[tactic(auto, using(logic_core::proofs::Mentioned::behind))]
fn put_steps(out: &mut Vec<u8>, steps: &[Step]) -> Result<(), AllocError>
    ensures { OnOk result (out.new.items ≡ out.old.items ++ steps_text (steps_of steps.now)) }
{
    for step in steps {
        put_step(out, step)?;
        put(out, b" ")?;
    }
    Ok(())
}

#[cycle(write)]
#[tactic(auto, using(logic_core::proofs::Mentioned::behind))]
fn put_proof(out: &mut Vec<u8>, proof: &Proof) -> Result<(), AllocError>
    ensures { OnOk result (out.new.items ≡ out.old.items ++ proof_text proof.now) }
{
    put_steps(out, &proof.steps)?;
    put_end(out, &proof.end)
}

// A space, and the proof in brackets.
#[cycle(write)]
#[tactic(auto, using(logic_core::proofs::Mentioned::behind))]
fn put_child(out: &mut Vec<u8>, proof: &Proof) -> Result<(), AllocError>
    ensures { OnOk result (out.new.items ≡ out.old.items ++ child (proof_text proof.now)) }
{
    put(out, b" [")?;
    put_proof(out, proof)?;
    put(out, b"]")
}

#[cycle(write)]
#[tactic(auto, using(logic_core::proofs::Mentioned::behind))]
fn put_children(out: &mut Vec<u8>, proofs: &[Proof]) -> Result<(), AllocError>
    ensures { OnOk result (out.new.items ≡ out.old.items ++ children_text (proofs_of proofs.now)) }
{
    for proof in proofs {
        put_child(out, proof)?;
    }
    Ok(())
}

// A split of a fact into cases.
#[cycle(write)]
#[tactic(auto, using(logic_core::proofs::Mentioned::behind))]
fn put_cases(
    out: &mut Vec<u8>,
    fact: u64,
    first: &Proof,
    others: &[Proof],
) -> Result<(), AllocError>
    ensures { OnOk result (out.new.items ≡ out.old.items ++ end_text (by_cases fact first.now (proofs_of others.now))) }
{
    open_fact(out, b"s", fact)?;
    put_child(out, first)?;
    put_children(out, others)?;
    put(out, b")")
}

// A split of a fact by a condition.
#[cycle(write)]
#[tactic(auto, using(logic_core::proofs::Mentioned::behind))]
fn put_condition(
    out: &mut Vec<u8>,
    fact: u64,
    term: &Term,
    yes: &Proof,
    no: &Proof,
) -> Result<(), AllocError>
    ensures { OnOk result (out.new.items ≡ out.old.items ++ end_text (by_condition fact term.now yes.now no.now)) }
{
    open_fact(out, b"s", fact)?;
    put_spaced(out, term)?;
    put_child(out, yes)?;
    put_child(out, no)?;
    put(out, b")")
}

// A node that names a term, with a child for each of three cases.
#[cycle(write)]
#[tactic(auto, using(logic_core::proofs::Mentioned::behind))]
fn put_three_ways(
    out: &mut Vec<u8>,
    head: &[u8],
    term: &Term,
    below: &Proof,
    same: &Proof,
    above: &Proof,
) -> Result<(), AllocError>
    ensures { OnOk result (out.new.items ≡ out.old.items ++ form head.now (named_text term.now ++ child (proof_text below.now) ++ child (proof_text same.now) ++ child (proof_text above.now))) }
{
    open(out, head)?;
    put_spaced(out, term)?;
    put_child(out, below)?;
    put_child(out, same)?;
    put_child(out, above)?;
    put(out, b")")
}

#[cycle(write)]
#[tactic(auto, using(logic_core::proofs::Mentioned::behind))]
fn put_end(out: &mut Vec<u8>, end: &End) -> Result<(), AllocError>
    ensures { OnOk result (out.new.items ≡ out.old.items ++ end_text (end_of end.now)) }
{
    match end {
        End::Close { first, second } => {
            open_fact(out, b"c", *first)?;
            put_fact(out, *second)?;
            put(out, b")")
        }
        End::Cases {
            fact,
            first,
            others,
        } => put_cases(out, *fact, first, others),
        End::Condition {
            fact,
            term,
            yes,
            no,
        } => put_condition(out, *fact, term, yes, no),
        End::Past {
            term,
            below,
            same,
            above,
        } => { put_three_ways(out, b"p", term, below, same, above) }
        End::Trichotomy {
            term,
            below,
            same,
            above,
        } => { put_three_ways(out, b"y", term, below, same, above) }
    }
}

// The bytes of the proof's text.
fn written(alloc: Global, proof: &Proof) -> Result<Vec<u8>, AllocError>
    ensures { IfOk result (λ v. v.items ≡ proof_text proof.now) }
{
    let mut out = Vec::new(alloc);
    put_proof(&mut out, proof)?;
    Ok(out)
}

/// The proof's text.
#[tactic(auto, using(crate::proofs::RoundTrip::spells))]
pub fn write(alloc: Global, proof: &Proof) -> Result<Vec<u8>, AllocError>
    ensures { IfOk result (λ v. Spells v.items proof.now) }
{
    proof_fits(proof);
    let text = written(alloc, proof)?;
    Ok(text)
}
