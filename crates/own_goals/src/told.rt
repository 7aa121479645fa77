// Answers that were told, and how many of them still stand.
ghost use Rattle.std.specs.Prelude.{◌≡◌, ◌≤◌, ◌-◌, ◌++◌, [], map, length, take, drop, IfOk, OnOk};
ghost use Rattle.std.specs.Arc.{arc_value};

use std::alloc::{AllocError, Global};
use std::sync::Arc;
use tableau::settled::Settled;

/// Answers in the order of the goals that were present then. So many first ones are those to the first
/// goals that are present, and so many last ones those to the last.
#[derive(Drop)]
pub(crate) struct Told {
    pub(crate) answers: Vec<Arc<Settled, Global>>,
    pub(crate) first: usize,
    pub(crate) last: usize,
}

impl Told {
    /// None.
    pub(crate) fn none(alloc: Global) -> Told
        ensures answers { result.answers.items ≡ [] }
        ensures first { result.first ≡ 0 }
        ensures last { result.last ≡ 0 }
    {
        Told {
            answers: Vec::new(alloc),
            first: 0,
            last: 0,
        }
    }

    /// The first so many.
    pub(crate) fn first_ones(&self, count: usize) -> &[Arc<Settled, Global>]
        requires { count ≤ length self.now.answers.items }
        ensures { result.now ≡ take count self.now.answers.items }
    {
        &self.answers[..count]
    }

    /// The last so many.
    pub(crate) fn last_ones(&self, count: usize) -> &[Arc<Settled, Global>]
        requires { count ≤ length self.now.answers.items }
        ensures { result.now ≡ drop (length self.now.answers.items - count) self.now.answers.items }
    {
        &self.answers[self.answers.len() - count..]
    }
}

/// The answers come behind once more.
pub(crate) fn push_answers(
    all: &mut Vec<Arc<Settled, Global>>,
    answers: &[Arc<Settled, Global>],
) -> Result<(), AllocError>
    ensures { OnOk result (map arc_value all.new.items ≡ map arc_value all.old.items ++ map arc_value answers.now) }
{
    for answer in answers {
        all.push(Arc::try_clone(answer)?)?;
    }
    Ok(())
}

/// These, told once more: all of them stand.
pub(crate) fn all_told(alloc: Global, answers: &[Arc<Settled, Global>]) -> Result<Told, AllocError>
    ensures answers { IfOk result (λ t. map arc_value t.answers.items ≡ map arc_value answers.now) }
    ensures first { IfOk result (λ t. t.first ≡ length answers.now) }
    ensures last { IfOk result (λ t. t.last ≡ length answers.now) }
{
    let count = answers.len();
    let mut all = Vec::with_capacity(alloc, count)?;
    push_answers(&mut all, answers)?;
    Ok(Told {
        answers: all,
        first: count,
        last: count,
    })
}
