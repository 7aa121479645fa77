// That each number in a proof is in range. The types say it of each; these walks show it of the whole,
// and do nothing else.
ghost use Rattle.std.specs.Prelude.{◌≡◌, ◌&&◌, true};
ghost use Rattle.std.specs.List.{list_all};
ghost use Rattle.logic_core.specs.Wide.{fits};
ghost use Rattle.logic_core.specs.View.{trees_of, parts_of, patterns_of, each_items};
ghost use Rattle.proof_core.specs.Proof.{by_condition};
ghost use Rattle.proof_core.specs.View.{step_of, steps_of, proofs_of};
ghost use Rattle.proof_core.specs.ProofView.{end_of};
ghost use Rattle.proof_text.specs.Reading.{is_number, term_fits, terms_fit, parts_fit, triggers_fit, step_fits, steps_fit, proof_fits, end_fits, proofs_fit};

use logic_core::term::{Node, Term};
use proof_core::proof::{End, Proof, Step};

fn number_fits(n: u64)
    ensures { is_number n ≡ true }
{
    let _n = n;
}

fn integer_fits(n: i128)
    ensures { fits n ≡ true }
{
    let _n = n;
}

#[cycle(terms)]
fn term_fits(term: &Term)
    ensures { term_fits term.now ≡ true }
{
    match &term.node {
        Node::Num(n) => integer_fits(*n),
        Node::Truth(_) => {}
        Node::Free(v) | Node::Bound(v) => number_fits(*v),
        Node::Sum(parts, constant) => {
            parts_fit(parts);
            integer_fits(*constant)
        }
        Node::Mul(a, b) | Node::Read(a, b) | Node::Eq(a, b) | Node::Le(a, b) => {
            term_fits(a);
            term_fits(b)
        }
        Node::Write(a, b, c) | Node::If(a, b, c) => {
            term_fits(a);
            term_fits(b);
            term_fits(c)
        }
        Node::Call(f, terms) => {
            number_fits(*f);
            terms_fit(terms)
        }
        Node::Not(a) => term_fits(a),
        Node::And(terms) | Node::Or(terms) => terms_fit(terms),
        Node::ForAll(_, patterns, body) | Node::Exists(_, patterns, body) => {
            triggers_fit(patterns);
            term_fits(body)
        }
    }
}

#[cycle(terms)]
fn terms_fit(terms: &[Term])
    ensures { terms_fit (trees_of terms.now) ≡ true }
{
    for term in terms {
        term_fits(term);
    }
}

#[cycle(terms)]
fn parts_fit(parts: &[(i128, Term)])
    ensures { parts_fit (parts_of parts.now) ≡ true }
{
    for part in parts {
        integer_fits(part.0);
        term_fits(&part.1);
    }
}

#[cycle(terms)]
fn triggers_fit(patterns: &[Vec<Term>])
    ensures { triggers_fit (patterns_of (each_items patterns.now)) ≡ true }
{
    for pattern in patterns {
        terms_fit(pattern);
    }
}

fn tuple_fits(terms: &[Term])
    ensures { list_all term_fits terms.now ≡ true }
{
    for term in terms {
        term_fits(term);
    }
}

fn step_fits(step: &Step)
    ensures { step_fits (step_of step.now) ≡ true }
{
    match step {
        Step::Split(f) | Step::Skolem(f) | Step::Differ(f) | Step::Tighten(f) => number_fits(*f),
        Step::Instantiate { fact, terms } => {
            number_fits(*fact);
            tuple_fits(terms)
        }
        Step::Replace { fact, by, term } => {
            number_fits(*fact);
            number_fits(*by);
            term_fits(term)
        }
        Step::Unfold { fact, term } | Step::Back { fact, term } => {
            number_fits(*fact);
            term_fits(term)
        }
        Step::Combine {
            first,
            first_times,
            second,
            second_times,
        } => {
            number_fits(*first);
            integer_fits(*first_times);
            number_fits(*second);
            integer_fits(*second_times)
        }
    }
}

fn steps_fit(steps: &[Step])
    ensures { steps_fit (steps_of steps.now) ≡ true }
{
    for step in steps {
        step_fits(step);
    }
}

/// Each number in the proof is in range.
#[cycle(proofs)]
pub fn proof_fits(proof: &Proof)
    ensures { proof_fits proof.now ≡ true }
{
    steps_fit(&proof.steps);
    end_fits(&proof.end)
}

#[cycle(proofs)]
fn end_fits(end: &End)
    ensures { end_fits (end_of end.now) ≡ true }
{
    match end {
        End::Close { first, second } => {
            number_fits(*first);
            number_fits(*second)
        }
        End::Cases {
            fact,
            first,
            others,
        } => {
            number_fits(*fact);
            proof_fits(first);
            proofs_fit(others)
        }
        End::Condition {
            fact,
            term,
            yes,
            no,
        } => condition_fits(*fact, term, yes, no),
        End::Past {
            term,
            below,
            same,
            above,
        }
        | End::Trichotomy {
            term,
            below,
            same,
            above,
        } => three_fit(term, below, same, above),
    }
}

// A split by a condition.
#[cycle(proofs)]
fn condition_fits(fact: u64, term: &Term, yes: &Proof, no: &Proof)
    ensures { end_fits (by_condition fact term.now yes.now no.now) ≡ true }
{
    number_fits(fact);
    term_fits(term);
    proof_fits(yes);
    proof_fits(no)
}

// A term, and the proofs of three children.
#[cycle(proofs)]
fn three_fit(term: &Term, below: &Proof, same: &Proof, above: &Proof)
    ensures { (term_fits term.now && (proof_fits below.now && (proof_fits same.now && proof_fits above.now))) ≡ true }
{
    term_fits(term);
    proof_fits(below);
    proof_fits(same);
    proof_fits(above)
}

#[cycle(proofs)]
fn proofs_fit(proofs: &[Proof])
    ensures { proofs_fit (proofs_of proofs.now) ≡ true }
{
    for proof in proofs {
        proof_fits(proof);
    }
}
