// What answers the lines of a session.
ghost use Rattle.std.specs.Prelude.{◌≡◌, ◌≤◌, ◌*◌, ◌+◌, ◌<◌, ◌^◌, ◌↔◌, ℕ, List, IsTrue, IfOk, OnOk, OnErr, Err, length};
ghost use Rattle.vc_build.specs.Large.{count_limit};
ghost use Rattle.request_text.specs.Reading.{longest};
ghost use Rattle.request_text.specs.Request.{ended, too_long};
ghost use Rattle.request_text.specs.RequestView.{IsAnswer};
ghost use Rattle.request_text.specs.ReplyView.{reply_view};
ghost use Rattle.edit_session.specs.Answers.{Asked, new_session};
ghost use Rattle.edit_session.specs.Replying.{RepliesTo, RepliesAs, FailsTo, FailsAs, HasAnswered};

use crate::session::Session;
use goal_board::GoalBoard;
use line_server::{Answerer, Reply};
use request_text::{BadRequest, Request, read_request};
use std::alloc::{AllocError, Global};
use std::marker::Model;
use std::sync::ledger::Ledger;

/// A session whose requests and replies are lines.
pub struct LineSession<B: GoalBoard, L: Ledger> {
    alloc: Global,
    session: Session<B, L>,
}

impl<B: GoalBoard, L: Ledger> Model for LineSession<B, L> {
    ghost use Rattle.edit_session.specs.Kept.{Session as state};
    ghost use Rattle.edit_session.specs.Codes.{coded_session};

    ghost Value = { state };

    ghost coded = { coded_session };

    ghost view = { λ a. a.session };
}

// Whether the session ends with the reply.
fn is_quit(reply: &request_text::Reply) -> bool
    ensures { IsTrue result ↔ (reply_view reply.now ≡ ended) }
{
    match reply {
        request_text::Reply::Quit => true,
        request_text::Reply::Accepted { .. } => false,
        request_text::Reply::Status { .. } => false,
        request_text::Reply::Report { .. } => false,
        request_text::Reply::Sums { .. } => false,
        request_text::Reply::Proofs { .. } => false,
        request_text::Reply::Bad(_) => false,
        request_text::Reply::Memory => false,
        request_text::Reply::Absent(_) => false,
        request_text::Reply::Name(_) => false,
        request_text::Reply::Fault { .. } => false,
    }
}

impl<B: GoalBoard, L: Ledger> LineSession<B, L> {
    /// The session, by its lines.
    pub fn new(alloc: Global, session: Session<B, L>) -> LineSession<B, L>
        ensures { result ≡ session }
    {
        LineSession { alloc, session }
    }

    /// Lets go of the session, and hands its board out.
    pub fn end(self) -> B
        ensures { B.noted result ≡ self.noted }
    {
        let LineSession {
            alloc: _alloc,
            session,
        } = self;
        session.end()
    }

    // Answers what a line is.
    fn reply(&mut self, request: Result<Request, BadRequest>) -> Result<Reply, AllocError>
        requires { (n : ℕ) × (n < 2 ^ 32) × HasAnswered self.old n }
        ensures reply { IfOk result (λ r. (wanted : Asked) → IsAnswer wanted request → RepliesAs self.old wanted self.new r.text.items r.is_last) }
        ensures failed { OnErr result ((wanted : Asked) → IsAnswer wanted request → FailsAs self.old wanted self.new) }
        ensures few { OnOk result ((n : ℕ) → HasAnswered self.old n → HasAnswered self.new (n + 1)) }
    {
        let reply = self.session.answer(request);
        let is_last = is_quit(&reply);
        let text = reply.into_bytes(self.alloc)?;
        Ok(Reply { text, is_last })
    }
}

impl<B: GoalBoard, L: Ledger> Answerer for LineSession<B, L> {
    ghost LONGEST = { longest };

    ghost replies = { RepliesTo };

    ghost fails = { FailsTo };

    ghost answered = { HasAnswered };

    const LONGEST: usize = request_text::LONGEST;

    fn answer(&mut self, line: &[u8]) -> Result<Reply, AllocError> {
        let request = read_request(self.alloc, line);
        self.reply(request)
    }

    fn answer_long(&mut self) -> Result<Reply, AllocError> {
        self.reply(Err(BadRequest::Long))
    }
}
