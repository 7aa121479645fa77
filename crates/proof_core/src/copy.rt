// Copies of proofs.
ghost use Rattle.std.specs.Prelude.{◌≡◌, IfOk};
ghost use Rattle.proof_core.specs.Proof.{by_cases, by_condition, by_past, by_trichotomy};
ghost use Rattle.proof_core.specs.ProofView.{end_of};
ghost use Rattle.proof_core.specs.View.{step_of, steps_of, proofs_of};

use crate::proof::{End, Proof, Step};
use logic_core::copy::copy_terms;
use logic_core::term::Term;
use std::alloc::{AllocError, Global};

impl Step {
    /// An equal step.
    pub fn copy(&self, alloc: Global) -> Result<Step, AllocError>
        ensures { IfOk result (λ s. step_of s ≡ step_of self.now) }
    {
        match self {
            Step::Split(f) => Ok(Step::Split(*f)),
            Step::Instantiate { fact, terms } => Ok(Step::Instantiate {
                fact: *fact,
                terms: copy_terms(alloc, terms)?,
            }),
            Step::Skolem(f) => Ok(Step::Skolem(*f)),
            Step::Replace { fact, by, term } => Ok(Step::Replace {
                fact: *fact,
                by: *by,
                term: term.copy(alloc)?,
            }),
            Step::Unfold { fact, term } => Ok(Step::Unfold {
                fact: *fact,
                term: term.copy(alloc)?,
            }),
            Step::Back { fact, term } => Ok(Step::Back {
                fact: *fact,
                term: term.copy(alloc)?,
            }),
            Step::Differ(f) => Ok(Step::Differ(*f)),
            Step::Combine {
                first,
                first_times,
                second,
                second_times,
            } => Ok(Step::Combine {
                first: *first,
                first_times: *first_times,
                second: *second,
                second_times: *second_times,
            }),
            Step::Tighten(f) => Ok(Step::Tighten(*f)),
        }
    }
}

fn copy_steps(alloc: Global, steps: &[Step]) -> Result<Vec<Step>, AllocError>
    ensures { IfOk result (λ v. steps_of v.items ≡ steps_of steps.now) }
{
    let mut copies = Vec::new(alloc);
    for step in steps {
        copies.push(step.copy(alloc)?)?;
    }
    Ok(copies)
}

impl Proof {
    /// An equal proof.
    #[cycle(copy)]
    pub fn copy(&self, alloc: Global) -> Result<Proof, AllocError>
        ensures { IfOk result (λ p. p ≡ self.now) }
    {
        let steps = copy_steps(alloc, &self.steps)?;
        let end = copy_end(alloc, &self.end)?;
        Ok(Proof { steps, end })
    }
}

#[cycle(copy)]
fn copy_end(alloc: Global, end: &End) -> Result<End, AllocError>
    ensures { IfOk result (λ e. end_of e ≡ end_of end.now) }
{
    match end {
        End::Close { first, second } => Ok(End::Close {
            first: *first,
            second: *second,
        }),
        End::Cases {
            fact,
            first,
            others,
        } => copy_cases(alloc, *fact, first, others),
        End::Condition {
            fact,
            term,
            yes,
            no,
        } => copy_condition(alloc, *fact, term, yes, no),
        End::Past {
            term,
            below,
            same,
            above,
        } => copy_past(alloc, term, below, same, above),
        End::Trichotomy {
            term,
            below,
            same,
            above,
        } => copy_trichotomy(alloc, term, below, same, above),
    }
}

#[cycle(copy)]
fn copy_cases(alloc: Global, fact: u64, first: &Proof, others: &[Proof]) -> Result<End, AllocError>
    ensures { IfOk result (λ e. end_of e ≡ by_cases fact first.now (proofs_of others.now)) }
{
    let first = copy_boxed(alloc, first)?;
    Ok(End::Cases {
        fact,
        first,
        others: copy_proofs(alloc, others)?,
    })
}

#[cycle(copy)]
fn copy_condition(
    alloc: Global,
    fact: u64,
    term: &Term,
    yes: &Proof,
    no: &Proof,
) -> Result<End, AllocError>
    ensures { IfOk result (λ e. end_of e ≡ by_condition fact term.now yes.now no.now) }
{
    let term = term.copy(alloc)?;
    let yes = copy_boxed(alloc, yes)?;
    Ok(End::Condition {
        fact,
        term,
        yes,
        no: copy_boxed(alloc, no)?,
    })
}

#[cycle(copy)]
fn copy_past(
    alloc: Global,
    term: &Term,
    below: &Proof,
    same: &Proof,
    above: &Proof,
) -> Result<End, AllocError>
    ensures { IfOk result (λ e. end_of e ≡ by_past term.now below.now same.now above.now) }
{
    let term = term.copy(alloc)?;
    let below = copy_boxed(alloc, below)?;
    let same = copy_boxed(alloc, same)?;
    Ok(End::Past {
        term,
        below,
        same,
        above: copy_boxed(alloc, above)?,
    })
}

#[cycle(copy)]
fn copy_trichotomy(
    alloc: Global,
    term: &Term,
    below: &Proof,
    same: &Proof,
    above: &Proof,
) -> Result<End, AllocError>
    ensures { IfOk result (λ e. end_of e ≡ by_trichotomy term.now below.now same.now above.now) }
{
    let term = term.copy(alloc)?;
    let below = copy_boxed(alloc, below)?;
    let same = copy_boxed(alloc, same)?;
    Ok(End::Trichotomy {
        term,
        below,
        same,
        above: copy_boxed(alloc, above)?,
    })
}

#[cycle(copy)]
fn copy_boxed(alloc: Global, proof: &Proof) -> Result<Box<Proof>, AllocError>
    ensures { IfOk result (λ p. p.value ≡ proof.now) }
{
    Ok(Box::new(alloc, proof.copy(alloc)?)?)
}

#[cycle(copy)]
fn copy_proofs(alloc: Global, proofs: &[Proof]) -> Result<Vec<Proof>, AllocError>
    ensures { IfOk result (λ v. v.items ≡ proofs.now) }
{
    let mut copies = Vec::new(alloc);
    for proof in proofs {
        copies.push(proof.copy(alloc)?)?;
    }
    Ok(copies)
}
