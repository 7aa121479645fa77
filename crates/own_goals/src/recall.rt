// Answers that are at hand: each is right for its own question, whatever the board keeps.
ghost use Rattle.std.specs.Prelude.{◌≡◌, ◌≤◌, ◌-◌, [], ◌∷◌, ◌++◌, IsTrue, IfOk, OnOk, IfSome, map, length, min, take};
ghost use Rattle.std.specs.Arc.{arc_value};
ghost use Rattle.obligation_text.specs.Asked.{key_of};
ghost use Rattle.tableau.specs.Settled.{settled_by};
ghost use Rattle.own_goals.specs.Standing.{StillStand};

use crate::told::{Told, push_answers};
use bv_base::{Answered, Question};
use obligation_text::Asked;
use obligation_text::laws::keys_tell_apart;
use std::alloc::{AllocError, Global};
use std::sync::Arc;
use tableau::settled::Settled;

/// Answers that were told before, and those that were found since.
#[derive(Clone, Copy)]
pub(crate) struct AtHand<'a> {
    /// In the order of the goals before.
    pub(crate) told: &'a [Arc<Settled, Global>],
    /// In the order in which they were found.
    pub(crate) since: &'a [Arc<Settled, Global>],
}

// Whether it answers the question.
fn is_answer(answer: &Arc<Settled, Global>, question: &Arc<Asked, Global>) -> bool
    ensures { IsTrue result → arc_value answer.now ≡ settled_by (arc_value question.now) }
{
    keys_tell_apart();
    answer.question().key() == question.key()
}

// The answer at this place, if it answers the question.
fn answer_at<'a>(
    answers: &'a [Arc<Settled, Global>],
    at: usize,
    question: &Arc<Asked, Global>,
) -> Option<&'a Arc<Settled, Global>>
    ensures { IfSome result (λ a. arc_value a.now ≡ settled_by (arc_value question.now)) }
{
    match answers.get(at) {
        None => None,
        Some(answer) => if is_answer(answer, question) {
            Some(answer)
        } else {
            None
        },
    }
}

// The answer that was told at this place, or else at that one, if it answers the question.
fn told_at<'a>(
    told: &'a [Arc<Settled, Global>],
    at: usize,
    other: usize,
    question: &Arc<Asked, Global>,
) -> Option<&'a Arc<Settled, Global>>
    ensures { IfSome result (λ a. arc_value a.now ≡ settled_by (arc_value question.now)) }
{
    match answer_at(told, at, question) {
        Some(answer) => Some(answer),
        None => answer_at(told, other, question),
    }
}

// The answer comes behind, where it is there.
fn push_if(
    all: &mut Vec<Arc<Settled, Global>>,
    answer: Option<&Arc<Settled, Global>>,
    question: &Arc<Asked, Global>,
) -> Result<bool, AllocError>
    requires { IfSome answer (λ a. arc_value a.now ≡ settled_by (arc_value question.now)) }
    ensures { IfOk result (λ is. IsTrue is → map arc_value all.new.items ≡ map arc_value all.old.items ++ settled_by (arc_value question.now) ∷ []) }
{
    match answer {
        Some(answer) => {
            all.push(Arc::try_clone(answer)?)?;
            Ok(true)
        }
        None => Ok(false),
    }
}

// The answer to the question of the goal at a place comes behind, if it is at hand: it was told of the
// goal at this place, or of the one as far from the end, or else it is the next that was found since.
fn push_answer(
    all: &mut Vec<Arc<Settled, Global>>,
    hand: AtHand<'_>,
    at: usize,
    from_end: usize,
    next: &mut usize,
    question: &Arc<Asked, Global>,
) -> Result<bool, AllocError>
    ensures { IfOk result (λ is. IsTrue is → map arc_value all.new.items ≡ map arc_value all.old.items ++ settled_by (arc_value question.now) ∷ []) }
{
    let other = hand.told.len().saturating_sub(from_end);
    if let Some(answer) = told_at(hand.told, at, other, question) {
        return push_if(all, Some(answer), question);
    }
    let found = answer_at(hand.since, *next, question);
    *next = next.saturating_add(1);
    push_if(all, found, question)
}

// The answers to the questions from one place to another come behind those to the ones before, if all of
// them are at hand.
fn push_between(
    all: &mut Vec<Arc<Settled, Global>>,
    questions: &[Arc<Asked, Global>],
    from: usize,
    to: usize,
    hand: AtHand<'_>,
) -> Result<bool, AllocError>
    requires from { from ≤ to }
    requires to { to ≤ length questions.now }
    requires before { map arc_value all.old.items ≡ map settled_by (map arc_value (take from questions.now)) }
    ensures { IfOk result (λ is. IsTrue is → map arc_value all.new.items ≡ map settled_by (map arc_value (take to questions.now))) }
{
    let mut next = 0;
    for at in from..to {
        let from_end = questions.len() - at;
        if !push_answer(all, hand, at, from_end, &mut next, &questions[at])? {
            return Ok(false);
        }
    }
    Ok(true)
}

// The answers to the first questions that stand.
fn first_answers(
    alloc: Global,
    questions: &[Arc<Asked, Global>],
    told: &Told,
) -> Result<Vec<Arc<Settled, Global>>, AllocError>
    requires { StillStand (map key_of (map arc_value questions.now)) (map arc_value told.now.answers.items) told.now.first told.now.last }
    ensures { IfOk result (λ v. map arc_value v.items ≡ map settled_by (map arc_value (take told.now.first questions.now))) }
{
    keys_tell_apart();
    let mut all = Vec::with_capacity(alloc, questions.len())?;
    push_answers(&mut all, told.first_ones(told.first))?;
    Ok(all)
}

// The answers to the questions from a place on, which stand, come behind those to the ones before.
fn push_last(
    all: &mut Vec<Arc<Settled, Global>>,
    questions: &[Arc<Asked, Global>],
    told: &Told,
    to: usize,
) -> Result<(), AllocError>
    requires stand { StillStand (map key_of (map arc_value questions.now)) (map arc_value told.now.answers.items) told.now.first told.now.last }
    requires to { to ≤ length questions.now }
    requires last { length questions.now - to ≤ told.now.last }
    requires before { map arc_value all.old.items ≡ map settled_by (map arc_value (take to questions.now)) }
    ensures { OnOk result (map arc_value all.new.items ≡ map settled_by (map arc_value questions.now)) }
{
    keys_tell_apart();
    push_answers(all, told.last_ones(questions.len() - to))?;
    Ok(())
}

// Where the answers to so many goals end that are to be looked for: the last ones stand from there on.
fn end_between(count: usize, told: &Told) -> usize
    ensures { result ≡ count - min told.now.last (count - told.now.first) }
{
    let left = count.saturating_sub(told.first);
    count.saturating_sub(told.last.min(left))
}

/// The answers to the questions in order, if all of them are at hand: the first and the last ones that
/// stand, and between them those that are found by their keys.
pub(crate) fn recalled(
    alloc: Global,
    questions: &[Arc<Asked, Global>],
    told: &Told,
    since: &[Arc<Settled, Global>],
) -> Result<Option<Vec<Arc<Settled, Global>>>, AllocError>
    requires { StillStand (map key_of (map arc_value questions.now)) (map arc_value told.now.answers.items) told.now.first told.now.last }
    ensures { IfOk result (λ o. IfSome o (λ v. map arc_value v.items ≡ map settled_by (map arc_value questions.now))) }
{
    let mut all = first_answers(alloc, questions, told)?;
    let to = end_between(questions.len(), told);
    let hand = AtHand {
        told: told.answers.as_slice(),
        since,
    };
    if !push_between(&mut all, questions, told.first, to, hand)? {
        return Ok(None);
    }
    push_last(&mut all, questions, told, to)?;
    Ok(Some(all))
}
