// A proof by every rule.
use super::build::{X, Y, call, choice, read_past, variable};
use super::obligations::obligation;
use proof_check::{CheckFault, Rule, check};
use proof_core::proof::{End, Proof, Step};
use std::alloc::{AllocError, Global};
use std::test::Fail;

// Each step works on an axiom.
fn steps(alloc: Global) -> Result<Vec<Step>, AllocError> {
    let mut steps = Vec::new(alloc);
    steps.push(Step::Split(1))?;
    steps.push(Step::Instantiate {
        fact: 2,
        terms: Vec::from_array(alloc, [variable(X)])?,
    })?;
    steps.push(Step::Skolem(3))?;
    steps.push(Step::Replace {
        fact: 5,
        by: 4,
        term: variable(X),
    })?;
    steps.push(Step::Combine {
        first: 5,
        first_times: 1,
        second: 4,
        second_times: 1,
    })?;
    steps.push(Step::Tighten(5))?;
    steps.push(Step::Unfold {
        fact: 6,
        term: call(alloc)?,
    })?;
    steps.push(Step::Back {
        fact: 7,
        term: read_past(alloc, variable(X))?,
    })?;
    steps.push(Step::Differ(9))?;
    Ok(steps)
}

// A proof without steps.
fn ended(alloc: Global, end: End) -> Proof {
    let steps = Vec::new(alloc);
    Proof { steps, end }
}

fn boxed(alloc: Global, end: End) -> Result<Box<Proof>, AllocError> {
    Ok(Box::new(alloc, ended(alloc, end))?)
}

// A close by the axiom that is false.
fn closed(alloc: Global) -> Result<Box<Proof>, AllocError> {
    boxed(
        alloc,
        End::Close {
            first: 0,
            second: 0,
        },
    )
}

// Cases of p or q; of what a read past a write finds; and of a choice.
fn children(alloc: Global) -> Result<(Box<Proof>, Box<Proof>, Box<Proof>), AllocError> {
    let mut others = Vec::new(alloc);
    others.push(ended(
        alloc,
        End::Close {
            first: 0,
            second: 0,
        },
    ))?;
    let cases = End::Cases {
        fact: 10,
        first: closed(alloc)?,
        others,
    };
    let place = read_past(alloc, variable(Y))?;
    let past = End::Past {
        term: place,
        below: closed(alloc)?,
        same: closed(alloc)?,
        above: closed(alloc)?,
    };
    let condition = End::Condition {
        fact: 11,
        term: choice(alloc)?,
        yes: closed(alloc)?,
        no: closed(alloc)?,
    };
    Ok((
        boxed(alloc, cases)?,
        boxed(alloc, past)?,
        boxed(alloc, condition)?,
    ))
}

fn by_every_rule(alloc: Global) -> Result<Proof, AllocError> {
    let (below, same, above) = children(alloc)?;
    Ok(Proof {
        steps: steps(alloc)?,
        end: End::Trichotomy {
            term: variable(X),
            below,
            same,
            above,
        },
    })
}

// Whether the proof is accepted, or the node that is refused and its rule; None where an axiom is no
// formula.
fn judged(alloc: Global, proof: &Proof) -> Result<Option<Result<(), CheckFault>>, AllocError> {
    match obligation(alloc)? {
        Some(o) => Ok(Some(check(alloc, &o, proof))),
        None => Ok(None),
    }
}

#[test]
fn a_proof_by_every_rule_is_accepted(rt: HostRuntime) -> Result<(), Fail> {
    let alloc = rt.alloc();
    let proof = by_every_rule(alloc)?.copy(alloc)?;
    assert_eq!(rt; proof.size(), 20);
    assert!(rt; matches!(judged(alloc, &proof)?, Some(Ok(()))));
    Ok(())
}

#[test]
fn a_conjunction_is_not_skolemized(rt: HostRuntime) -> Result<(), Fail> {
    let alloc = rt.alloc();
    let mut forged = by_every_rule(alloc)?;
    forged.steps.push(Step::Skolem(1))?;
    let Some(Err(CheckFault::Rejected { node, rule })) = judged(alloc, &forged)? else {
        panic!(rt; "a conjunction was skolemized");
    };
    assert_eq!(rt; node, 10);
    assert!(rt; rule == Rule::Skolem);
    Ok(())
}
