// The proof that the moves of a search make.
ghost use Rattle.std.specs.Prelude.{◌≡◌, [], IfOk, OnOk, map, drop, length, slice_get};
ghost use Rattle.proof_core.specs.Proof.{proof};
ghost use Rattle.proof_core.specs.ProofView.{end_of};
ghost use Rattle.tableau.specs.Counted.{two, three};
ghost use Rattle.tableau.specs.Search.{begin_each, only, chosen_proof, passed_proof, decided_proof, proof_of, joined, proofs_before};
ghost use Rattle.tableau_branch.specs.Move.{forks};
ghost use Rattle.tableau_branch.specs.View.{each_steps, ending_of, played_of};
ghost use Rattle.tableau.specs.PartialView.{partial_of, partials_of};

use crate::partial::PartialProof;
use logic_core::term::Term;
use proof_core::proof::{End, Proof, Step};
use std::alloc::{AllocError, Global};
use tableau_branch::played::{Ending, Played};

/// Takes as many proofs from the stack as there are lists of steps: each begins with its steps.
fn begin_each(
    alloc: Global,
    mut steps: Vec<Vec<Step>>,
    stack: &mut Vec<PartialProof>,
) -> Result<Vec<PartialProof>, AllocError>
    ensures begun { IfOk result (λ v. map partial_of v.items ≡ begin_each (each_steps steps.items) (partials_of stack.old.items)) }
    ensures left { OnOk result (partials_of stack.new.items ≡ drop (length steps.items) (partials_of stack.old.items)) }
{
    let mut begun = Vec::new(alloc);
    steps.reverse();
    while let Some(first) = steps.pop() {
        match stack.pop() {
            Some(partial) => begun.push(partial.begin_with(first)?)?,
            None => return Ok(begun),
        }
    }
    Ok(begun)
}

/// The proof without steps that ends so.
fn ended(alloc: Global, end: End) -> PartialProof
    ensures { partial_of result ≡ proof [] (end_of end) }
{
    PartialProof {
        steps: Vec::new(alloc),
        end,
    }
}

/// The two proofs, where there are two.
fn two(mut proofs: Vec<Proof>) -> Option<(Proof, Proof)>
    ensures { result ≡ two proofs.items }
{
    if proofs.len() != 2 {
        return None;
    }
    let second = proofs.pop()?;
    let first = proofs.pop()?;
    Some((first, second))
}

/// The three proofs, where there are three.
fn three(mut proofs: Vec<Proof>) -> Option<(Proof, Proof, Proof)>
    ensures { result ≡ three proofs.items }
{
    if proofs.len() != 3 {
        return None;
    }
    let third = proofs.pop()?;
    let second = proofs.pop()?;
    let first = proofs.pop()?;
    Some((first, second, third))
}

/// The first proof, which is the only one.
fn only(alloc: Global, mut begun: Vec<PartialProof>) -> PartialProof
    ensures { partial_of result ≡ only (map partial_of begun.items) }
{
    begun.reverse();
    match begun.pop() {
        Some(partial) => partial,
        None => ended(
            alloc,
            End::Close {
                first: 0,
                second: 0,
            },
        ),
    }
}

/// The finished proofs.
fn finish_each(alloc: Global, begun: Vec<PartialProof>) -> Result<Vec<Proof>, AllocError>
    ensures { IfOk result (λ v. v.items ≡ map partial_of begun.items) }
{
    begun
        .into_iter()
        .map(|partial| partial.finish())
        .collect(alloc)
}

/// The proof that ends in a split of this fact, with these proofs of its cases, of which there is at
/// least one.
fn fork(alloc: Global, f: u64, begun: Vec<PartialProof>) -> Result<PartialProof, AllocError>
    ensures { IfOk result (λ p. partial_of p ≡ proof_of (forks f) (map partial_of begun.items)) }
{
    let mut proofs = finish_each(alloc, begun)?;
    proofs.reverse();
    match proofs.pop() {
        Some(first) => {
            proofs.reverse();
            let first = Box::new(alloc, first)?;
            Ok(ended(
                alloc,
                End::Cases {
                    fact: f,
                    first,
                    others: proofs,
                },
            ))
        }
        None => Ok(ended(
            alloc,
            End::Close {
                first: 0,
                second: 0,
            },
        )),
    }
}

/// The proof that ends in a split by this condition in this fact, where there are two proofs.
fn chosen_proof(
    alloc: Global,
    f: u64,
    condition: Term,
    begun: Vec<PartialProof>,
) -> Result<PartialProof, AllocError>
    ensures { IfOk result (λ p. partial_of p ≡ chosen_proof f condition (map partial_of begun.items)) }
{
    match two(finish_each(alloc, begun)?) {
        Some((yes, no)) => {
            let yes = Box::new(alloc, yes)?;
            let no = Box::new(alloc, no)?;
            Ok(ended(
                alloc,
                End::Condition {
                    fact: f,
                    term: condition,
                    yes,
                    no,
                },
            ))
        }
        None => Ok(ended(
            alloc,
            End::Close {
                first: 0,
                second: 0,
            },
        )),
    }
}

/// The proof that ends in moving this Read past a Write, where there are three proofs.
fn passed_proof(
    alloc: Global,
    access: Term,
    begun: Vec<PartialProof>,
) -> Result<PartialProof, AllocError>
    ensures { IfOk result (λ p. partial_of p ≡ passed_proof access (map partial_of begun.items)) }
{
    match three(finish_each(alloc, begun)?) {
        Some((below, same, above)) => {
            let below = Box::new(alloc, below)?;
            let same = Box::new(alloc, same)?;
            let above = Box::new(alloc, above)?;
            Ok(ended(
                alloc,
                End::Past {
                    term: access,
                    below,
                    same,
                    above,
                },
            ))
        }
        None => Ok(ended(
            alloc,
            End::Close {
                first: 0,
                second: 0,
            },
        )),
    }
}

/// The proof that ends in trichotomy of this number, where there are three proofs.
fn decided_proof(
    alloc: Global,
    number: Term,
    begun: Vec<PartialProof>,
) -> Result<PartialProof, AllocError>
    ensures { IfOk result (λ p. partial_of p ≡ decided_proof number (map partial_of begun.items)) }
{
    match three(finish_each(alloc, begun)?) {
        Some((below, same, above)) => {
            let below = Box::new(alloc, below)?;
            let same = Box::new(alloc, same)?;
            let above = Box::new(alloc, above)?;
            Ok(ended(
                alloc,
                End::Trichotomy {
                    term: number,
                    below,
                    same,
                    above,
                },
            ))
        }
        None => Ok(ended(
            alloc,
            End::Close {
                first: 0,
                second: 0,
            },
        )),
    }
}

/// The proof of a branch on which a move was made, from those of the branches that it made.
fn proof_of(
    alloc: Global,
    ending: Ending,
    begun: Vec<PartialProof>,
) -> Result<PartialProof, AllocError>
    ensures { IfOk result (λ p. partial_of p ≡ proof_of (ending_of ending) (map partial_of begun.items)) }
{
    match ending {
        Ending::GoesOn => Ok(only(alloc, begun)),
        Ending::Closes { first, second } => Ok(ended(alloc, End::Close { first, second })),
        Ending::Forks(f) => fork(alloc, f, begun),
        Ending::Chooses(f, condition) => chosen_proof(alloc, f, condition, begun),
        Ending::Passes(access) => passed_proof(alloc, access, begun),
        Ending::Decides(number) => decided_proof(alloc, number, begun),
    }
}

/// Puts the proofs of the branches before a move in place of those after it.
pub fn join(alloc: Global, stack: &mut Vec<PartialProof>, played: Played) -> Result<(), AllocError>
    ensures { OnOk result (partials_of stack.new.items ≡ joined (played_of played) (partials_of stack.old.items)) }
{
    let Played { ending, steps } = played;
    let begun = begin_each(alloc, steps, stack)?;
    stack.push(proof_of(alloc, ending, begun)?)?;
    Ok(())
}

/// The proof of the first branch, from the moves that emptied the stack.
pub fn assemble(alloc: Global, mut moves: Vec<Played>) -> Result<Option<Proof>, AllocError>
    ensures { IfOk result (λ p. p ≡ slice_get (proofs_before (map played_of moves.items) []) 0) }
{
    let mut stack = Vec::new(alloc);
    while let Some(played) = moves.pop() {
        join(alloc, &mut stack, played)?;
    }
    match stack.pop() {
        Some(partial) => Ok(Some(partial.finish())),
        None => Ok(None),
    }
}
