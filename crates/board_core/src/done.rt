//! How many of the present goals have a kept answer, before and after an opening.
ghost use Rattle.std.specs.Prelude.{◌≡◌, ◌+◌, ◌≤◌, ◌-◌, map, length, take, drop, count_by};
ghost use Rattle.std.specs.Arc.{arc_value};
ghost use Rattle.bv_base.specs.Text.{is_among};
ghost use Rattle.board_core.specs.Kept.{kept_keys};
ghost use Rattle.board_core.specs.Difference.{IsDifference};

use crate::cache::Cache;
use crate::difference::Difference;
use bv_base::{Answered, Question};
use std::alloc::Global;
use std::sync::Arc;

/// How many of the questions have a kept answer.
pub(crate) fn count_done<A: Answered + Drop>(
    questions: &[Arc<A::Q, Global>],
    cache: &Cache<A>,
) -> u64
    ensures { result ≡ count_by (is_among (kept_keys cache.now.kept)) (map (λ q. A.Q.key (arc_value q)) questions.now) }
{
    let mut done = 0;
    for question in questions {
        if cache.find(question.key()).is_some() {
            done += 1;
        }
    }
    done
}

/// How many of the new questions have a kept answer, where so many of the old ones have one.
pub(crate) fn done_after<A: Answered + Drop>(
    done: u64,
    old: &[Arc<A::Q, Global>],
    new: &[Arc<A::Q, Global>],
    at: &Difference,
    cache: &Cache<A>,
) -> u64
    requires differ { IsDifference (map (λ q. A.Q.key (arc_value q)) old.now) (map (λ q. A.Q.key (arc_value q)) new.now) at.now.start at.now.old_end at.now.new_end }
    requires done { done ≡ count_by (is_among (kept_keys cache.now.kept)) (map (λ q. A.Q.key (arc_value q)) old.now) }
    ensures { result ≡ count_by (is_among (kept_keys cache.now.kept)) (map (λ q. A.Q.key (arc_value q)) new.now) }
{
    let gone = count_done(&old[at.start..at.old_end], cache);
    let come = count_done(&new[at.start..at.new_end], cache);
    done - gone + come
}

/// How many of the first and the last so many questions have a kept answer, where so many of all of them
/// have one.
pub(crate) fn done_around<A: Answered + Drop>(
    done: u64,
    questions: &[Arc<A::Q, Global>],
    first: usize,
    last: usize,
    cache: &Cache<A>,
) -> u64
    requires within { first + last ≤ length questions.now }
    requires done { done ≡ count_by (is_among (kept_keys cache.now.kept)) (map (λ q. A.Q.key (arc_value q)) questions.now) }
    ensures { result ≡ count_by (is_among (kept_keys cache.now.kept)) (take first (map (λ q. A.Q.key (arc_value q)) questions.now)) + count_by (is_among (kept_keys cache.now.kept)) (drop (length questions.now - last) (map (λ q. A.Q.key (arc_value q)) questions.now)) }
{
    done - count_done(&questions[first..questions.len() - last], cache)
}

/// How many of all questions have a kept answer, where so many of the first and the last ones have one.
pub(crate) fn done_within<A: Answered + Drop>(
    around: u64,
    questions: &[Arc<A::Q, Global>],
    first: usize,
    last: usize,
    cache: &Cache<A>,
) -> u64
    requires within { first + last ≤ length questions.now }
    requires around { around ≡ count_by (is_among (kept_keys cache.now.kept)) (take first (map (λ q. A.Q.key (arc_value q)) questions.now)) + count_by (is_among (kept_keys cache.now.kept)) (drop (length questions.now - last) (map (λ q. A.Q.key (arc_value q)) questions.now)) }
    ensures { result ≡ count_by (is_among (kept_keys cache.now.kept)) (map (λ q. A.Q.key (arc_value q)) questions.now) }
{
    around + count_done(&questions[first..questions.len() - last], cache)
}
