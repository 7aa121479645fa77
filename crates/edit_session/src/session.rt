// The session.
ghost use Rattle.std.specs.Prelude.{◌≡◌, ◌<◌, ◌^◌, ◌-◌, length, Result, Ok, Err, IfOk, IfErr, OnOk, OnErr};
ghost use Rattle.bpl_model.specs.Module.{Module as typed_module};
ghost use Rattle.canonical_text.specs.RoundTrip.{AreWrittenDecls};
ghost use Rattle.vc_build.specs.Rebuild.{built, rebuilt as rebuilt_of};
ghost use Rattle.fault_text.specs.FaultView.{SourcesAreShort};
ghost use Rattle.tableau.specs.Settled.{Settled as settled};
ghost use Rattle.board_core.specs.Board.{first};
ghost use Rattle.program_edits.specs.Edited.{IsEdited, edited as edited_to};
ghost use Rattle.program_edits.specs.Replaced.{with_replacements, AreThere};
ghost use Rattle.program_edits.specs.Refusals.{IsChange, TextsAreShort};
ghost use Rattle.request_text.specs.Request as asked;
ghost use Rattle.request_text.specs.RequestView.{request_view, IsAnswer};
ghost use Rattle.request_text.specs.ReplyView.{reply_view};
ghost use Rattle.edit_session.specs.Program.{IsModuleOf};
ghost use Rattle.edit_session.specs.Answers.{Asked, new_session};
ghost use Rattle.edit_session.specs.Asking.{Asks, taken};
ghost use Rattle.edit_session.specs.Judged.{reply_of};
ghost use Rattle.edit_session.specs.Kept.{IsAnswered, IsLater, HasRoom};
ghost use Rattle.edit_session.specs.Told.{IsUnchanged};

use crate::board_calls::{open_goals, prove_goals, report_goals};
use crate::lines::sum_lines;
use crate::program::{Judged, OpenProgram};
use crate::refusals::refusal;
use crate::texts::has_short_texts;
use bpl_ast::Decl;
use bv_base::Steps;
use goal_board::GoalBoard;
use program_edits::{Replacement, edited, replacements_of};
use request_text::{BadRequest, Reply, Request};
use std::alloc::{AllocError, Global};
use std::marker::Model;
use std::sync::ledger::Ledger;

/// The program that is open, and the board of its goals, which nobody else works on or others do. Each
/// goal is searched with the same turns.
pub struct Session<B: GoalBoard, L: Ledger> {
    alloc: Global,
    turns: u64,
    // The board's.
    version: u64,
    opened: OpenProgram,
    board: B,
    steps: Steps<L>,
}

impl<B: GoalBoard, L: Ledger> Model for Session<B, L> {
    ghost use Rattle.edit_session.specs.Kept.{Session as session, IsReady};
    ghost use Rattle.edit_session.specs.Codes.{coded_session};

    ghost Value = { session };

    ghost coded = { coded_session };

    ghost view = { λ a. record { turns = a.turns; workers = B.workers; state = record { decls = a.opened.decls; version = a.version; board = B.state a.board }; noted = B.noted a.board } };

    ghost invariant = { λ a. IsReady a.turns a.version a.opened.typed (B.state a.board) };
}

impl<B: GoalBoard, L: Ledger> Session<B, L> {
    /// A session without declarations, at version 0, on a new board. Each goal is to be searched with so
    /// many turns. Without memory the board is handed back.
    pub fn new(alloc: Global, turns: u64, board: B, mut steps: Steps<L>) -> Result<Session<B, L>, B>
        requires { B.state board ≡ first settled }
        ensures new { IfOk result (λ s. s ≡ record { turns = turns; workers = B.workers; state = new_session; noted = B.noted board }) }
        ensures memory { IfErr result (λ b. b ≡ board) }
    {
        match OpenProgram::empty(alloc, turns, &mut steps) {
            Ok(opened) => Ok(Session {
                alloc,
                turns,
                version: 0,
                opened,
                board,
                steps,
            }),
            Err(_) => Err(board),
        }
    }

    /// Lets go of the session, and hands the board out.
    pub fn end(self) -> B
        ensures noted { B.noted result ≡ self.noted }
        ensures state { B.state result ≡ self.state.board }
    {
        let Session {
            alloc: _alloc,
            turns: _turns,
            version: _version,
            opened,
            board,
            steps,
        } = self;
        drop(opened);
        drop(steps);
        board
    }

    /// Answers a line: the request that it is, or why it is none. The reply, the calls on the board, and
    /// the declarations and the version after it are those that the definitions give a line; where others
    /// work on the board, the calls are exactly the line's. A refusal leaves all as it was, and so does
    /// want of memory, but for goals that were settled before it. A quit is answered by `Reply::Quit`,
    /// with which the session ends.
    pub fn answer(&mut self, request: Result<Request, BadRequest>) -> Reply
        requires { HasRoom self.old }
        ensures answered { (wanted : Asked) → IsAnswer wanted request → IsAnswered self.old wanted (reply_view result) self.new }
        ensures later { IsLater self.old self.new }
    {
        match self.reply(request) {
            Ok(reply) => reply,
            Err(_) => Reply::Memory,
        }
    }

    fn reply(&mut self, request: Result<Request, BadRequest>) -> Result<Reply, AllocError>
        requires { HasRoom self.old }
        ensures answered { (wanted : Asked) → IsAnswer wanted request → IsAnswered self.old wanted (reply_of result) self.new }
        ensures later { IsLater self.old self.new }
    {
        match request {
            Ok(request) => self.reply_to(&request),
            Err(why) => Ok(Reply::Bad(why)),
        }
    }

    #[tactic(auto, using(crate::proofs::Answering::no_later))]
    fn reply_to(&mut self, request: &Request) -> Result<Reply, AllocError>
        requires { HasRoom self.old }
        ensures answered { IsAnswered self.old (Ok (request_view request.now)) (reply_of result) self.new }
        ensures later { IsLater self.old self.new }
    {
        match request {
            Request::Open { .. } => self.edit(request),
            Request::Edit { .. } => self.edit(request),
            Request::Status => Ok(self.status()),
            Request::Report => self.report(),
            Request::Sums => self.sums(),
            Request::Proofs => self.proofs(),
            Request::Quit => Ok(Reply::Quit),
        }
    }

    // An open or an edit. Its puts are read once.
    #[tactic(auto, using(crate::proofs::Answering::no_later))]
    fn edit(&mut self, request: &Request) -> Result<Reply, AllocError>
        requires change { IsChange (request_view request.now) }
        requires room { HasRoom self.old }
        ensures answered { IsAnswered self.old (Ok (request_view request.now)) (reply_of result) self.new }
        ensures later { IsLater self.old self.new }
    {
        if !has_short_texts(request) {
            return Err(AllocError);
        }
        match replacements_of(self.alloc, self.opened.decls(), request) {
            Ok(Some(replacements)) => self.replace(replacements),
            Ok(None) => self.edit_any(request),
            Err(fault) => refusal(fault),
        }
    }

    // The declarations take the places of those that stand there: where they are revisions of these, the
    // program stays open with them.
    fn replace(&mut self, replacements: Vec<Replacement>) -> Result<Reply, AllocError>
        requires there { AreThere self.old.state.decls replacements.items }
        requires short { SourcesAreShort (with_replacements self.old.state.decls replacements.items) }
        requires written { AreWrittenDecls 0 (with_replacements self.old.state.decls replacements.items) }
        requires room { HasRoom self.old }
        ensures answered { (r : asked.Request) → IsEdited self.old.state.decls r (edited_to (with_replacements self.old.state.decls replacements.items)) → IsAnswered self.old (Ok r) (reply_of result) self.new }
        ensures later { IsLater self.old self.new }
    {
        match self.put(replacements) {
            Ok(reply) => Ok(reply),
            Err(replacements) => self.take_replaced(replacements),
        }
    }

    // Revisions take the places of those that stand there; else nothing changes, and they are given back.
    fn put(&mut self, replacements: Vec<Replacement>) -> Result<Reply, Vec<Replacement>>
        requires there { AreThere self.old.state.decls replacements.items }
        requires short { SourcesAreShort (with_replacements self.old.state.decls replacements.items) }
        requires written { AreWrittenDecls 0 (with_replacements self.old.state.decls replacements.items) }
        requires room { HasRoom self.old }
        ensures answered { IfOk result (λ x. (r : asked.Request) → IsEdited self.old.state.decls r (edited_to (with_replacements self.old.state.decls replacements.items)) → IsAnswered self.old (Ok r) (reply_view x) self.new) }
        ensures later { OnOk result (IsLater self.old self.new) }
        ensures back { IfErr result (λ v. v.items ≡ replacements.items) }
        ensures same { OnErr result (IsUnchanged self.old self.new) }
    {
        self.opened.has_module();
        match self.opened.revise(
            self.alloc,
            &mut self.board,
            replacements,
            self.turns,
            &mut self.steps,
        ) {
            Ok(reply) => {
                self.version += 1;
                Ok(reply)
            }
            Err(replacements) => Err(replacements),
        }
    }

    // Takes the program's declarations with these in their places, where they have no fault.
    fn take_replaced(&mut self, replacements: Vec<Replacement>) -> Result<Reply, AllocError>
        requires there { AreThere self.old.state.decls replacements.items }
        requires short { SourcesAreShort (with_replacements self.old.state.decls replacements.items) }
        requires written { AreWrittenDecls 0 (with_replacements self.old.state.decls replacements.items) }
        requires room { HasRoom self.old }
        ensures answered { (r : asked.Request) → IsEdited self.old.state.decls r (edited_to (with_replacements self.old.state.decls replacements.items)) → IsAnswered self.old (Ok r) (reply_of result) self.new }
        ensures later { IsLater self.old self.new }
    {
        let decls = self.opened.with_replacements(self.alloc, replacements)?;
        self.take(decls)
    }

    // Any other open or edit.
    fn edit_any(&mut self, request: &Request) -> Result<Reply, AllocError>
        requires change { IsChange (request_view request.now) }
        requires short { TextsAreShort (request_view request.now) }
        requires room { HasRoom self.old }
        ensures answered { IsAnswered self.old (Ok (request_view request.now)) (reply_of result) self.new }
        ensures later { IsLater self.old self.new }
    {
        match edited(self.alloc, self.opened.decls(), request) {
            Ok(decls) => self.take(decls),
            Err(fault) => refusal(fault),
        }
    }

    // Takes the declarations, where they have no fault.
    fn take(&mut self, decls: Vec<Decl>) -> Result<Reply, AllocError>
        requires room { HasRoom self.old }
        requires short { SourcesAreShort decls.items }
        requires written { AreWrittenDecls 0 decls.items }
        ensures answered { (r : asked.Request) → IsEdited self.old.state.decls r (edited_to decls.items) → IsAnswered self.old (Ok r) (reply_of result) self.new }
        ensures later { IsLater self.old self.new }
    {
        self.opened.has_module();
        let judged = self.opened.judge(self.alloc, decls, &mut self.steps)?;
        match judged {
            Judged::Taken { program, rebuilt } => self.open_program(program, rebuilt),
            Judged::Refused(reply) => Ok(reply),
        }
    }

    // Opens the program, of which so many procedures are new.
    fn open_program(&mut self, program: OpenProgram, rebuilt: u64) -> Result<Reply, AllocError>
        requires { HasRoom self.old }
        ensures answered { (r : asked.Request) (m : typed_module) → IsModuleOf self.old.state.decls m → rebuilt ≡ rebuilt_of (built m) program.typed → Asks self.old.state.decls r (taken program) → IsAnswered self.old (Ok r) (reply_of result) self.new }
        ensures later { IsLater self.old self.new }
    {
        let reply = open_goals(
            self.alloc,
            &mut self.board,
            self.opened.built(),
            program.built(),
            None,
            rebuilt,
            self.turns,
        )?;
        self.opened = program;
        self.version += 1;
        Ok(reply)
    }

    // How many goals are answered.
    fn status(&mut self) -> Reply
        ensures answered { IsAnswered self.old (Ok asked.status) (reply_view result) self.new }
        ensures later { IsLater self.old self.new }
    {
        let seen = self.board.look();
        Reply::Status {
            done: seen.done,
            pending: seen.pending,
            version: self.version,
        }
    }

    // The report, once each goal is answered.
    fn report(&mut self) -> Result<Reply, AllocError>
        requires { HasRoom self.old }
        ensures answered { IsAnswered self.old (Ok asked.report) (reply_of result) self.new }
        ensures later { IsLater self.old self.new }
    {
        self.opened.has_module();
        report_goals(
            self.alloc,
            &mut self.board,
            &self.opened,
            self.turns,
            self.version,
        )
    }

    // The proofs, once each goal is answered.
    fn proofs(&mut self) -> Result<Reply, AllocError>
        requires { HasRoom self.old }
        ensures answered { IsAnswered self.old (Ok asked.proofs) (reply_of result) self.new }
        ensures later { IsLater self.old self.new }
    {
        self.opened.has_module();
        prove_goals(
            self.alloc,
            &mut self.board,
            &self.opened,
            self.turns,
            self.version,
        )
    }

    // The checksums.
    fn sums(&self) -> Result<Reply, AllocError>
        ensures { IsAnswered self.now (Ok asked.sums) (reply_of result) self.now }
    {
        let opened = &self.opened;
        opened.has_module();
        let lines = sum_lines(self.alloc, opened.typed(), opened.program(), opened.procs())?;
        Ok(Reply::Sums {
            lines,
            version: self.version,
        })
    }
}
