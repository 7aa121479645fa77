//! How a thread sleeps until there is something new. None of these takes a turn, so none is an entry of the history.
use crate::shared::SharedBoard;
use bv_base::Answered;
use std::sync::Wait;

impl<A: Answered + Drop> SharedBoard<A>
where
    A::Q: Drop,
{
    /// How many calls there were after which a claim may find a question where it found none, or find the board
    /// closed. To be read before the claim.
    pub fn questions_heard(&self) -> u64 {
        self.questions.count()
    }

    /// Sleeps until there is a further such call, and not at all where there was one since the count was `heard`.
    pub fn wait_for_questions<R: Wait>(&self, rt: &R, heard: u64) {
        self.questions.wait_past(rt, heard);
    }

    /// How many calls there were after which a look may show something else, or a claim find a question where it found
    /// none. To be read before both.
    pub fn changes_heard(&self) -> u64 {
        self.changes.count()
    }

    /// Sleeps until there is a further such call, and not at all where there was one since the count was `heard`.
    pub fn wait_for_changes<R: Wait>(&self, rt: &R, heard: u64) {
        self.changes.wait_past(rt, heard);
    }
}
