// The program that is open, and declarations that are to be.
ghost use Rattle.std.specs.Prelude.{◌≡◌, ◌<◌, ◌-◌, ◌^◌, ◌≤◌, [], map, length, sum, slice_set, IfOk, IfErr, OnErr};
ghost use Rattle.bpl_goto.specs.Forward.{AllGoForward};
ghost use Rattle.canonical_text.specs.RoundTrip.{AreWrittenDecls};
ghost use Rattle.rebuild_laws.specs.Resolved.{IsResolved};
ghost use Rattle.vc_build.specs.Large.{count_limit};
ghost use Rattle.vc_build.specs.Rebuild.{built, rebuilt};
ghost use Rattle.fault_text.specs.FaultView.{SourcesAreShort};
ghost use Rattle.program_opening.specs.Opening.{typing, typed as typed_as};
ghost use Rattle.program_opening.specs.ProcGoals.{goals_by_proc};
ghost use Rattle.request_text.specs.ReplyView.{reply_view};
ghost use Rattle.program_edits.specs.Replaced.{with_replacements, AreThere};
ghost use Rattle.edit_session.specs.Program.{IsModuleOf, keys};
ghost use Rattle.edit_session.specs.Built.{proc_goals, goal_counts};
ghost use Rattle.edit_session.specs.Judged.{IsJudged};
ghost use Rattle.edit_session.specs.Told.{IsOpened, IsUndone};

use crate::refusals::fault_reply;
use crate::revising::reopen_revised;
use bpl_ast::{Decl, Program};
use bpl_model::Module;
use bv_base::Steps;
use goal_board::GoalBoard;
use program_edits::Replacement;
use program_opening::size::written_of_size;
use program_opening::{Typed, type_check};
use request_text::Reply;
use std::alloc::{AllocError, Global};
use std::marker::Model;
use std::mem;
use std::sync::ledger::Ledger;
use vc_build::BuildFault;
use vc_rebuild::{Built, BuiltProc, rebuild};

/// Declarations without a fault, their module, and what was built of it.
#[derive(Drop)]
pub struct OpenProgram {
    program: Program,
    typed: Module,
    built: Built,
}

impl Model for OpenProgram {
    ghost use Rattle.edit_session.specs.Asking.{Taken};
    ghost use Rattle.edit_session.specs.Codes.{coded_taken};

    ghost Value = { Taken };

    ghost coded = { coded_taken };

    ghost view = { λ a. record { decls = a.program; typed = a.typed } };

    ghost use Rattle.edit_session.specs.Kept.{IsOpen};

    ghost invariant = { λ a. IsOpen (record { decls = a.program; typed = a.typed }) a.built };
}

/// What declarations are: a program, of which so many procedures are new, or what has a first fault.
#[derive(Drop)]
pub enum Judged {
    Taken { program: OpenProgram, rebuilt: u64 },
    Refused(Reply),
}

// What declarations are that have no fault by names and types.
#[tactic(auto, using(crate::proofs::Programs::is_taken, crate::proofs::Programs::large_denied, crate::proofs::Programs::opens_so))]
fn build<L: Ledger>(
    alloc: Global,
    old: &Built,
    program: Program,
    typed: Module,
    steps: &mut Steps<L>,
) -> Result<Judged, AllocError>
    requires short { SourcesAreShort program }
    requires is_typed { typing program ≡ typed_as typed }
    requires written { AreWrittenDecls 0 program }
    requires forward { AllGoForward typed }
    requires resolved { IsResolved typed }
    ensures { IfOk result (IsJudged old.now.procs program) }
{
    match rebuild(alloc, old, &typed, steps) {
        Ok(built) => {
            let rebuilt = built.rebuilt();
            let program = OpenProgram {
                program,
                typed,
                built,
            };
            Ok(Judged::Taken { program, rebuilt })
        }
        Err(BuildFault::Large { what, number }) => {
            Ok(Judged::Refused(fault_reply(written_of_size(alloc, what, number)?)?))
        }
        Err(BuildFault::Memory) => Err(AllocError),
    }
}

/// How many declarations a module has: fewer than a number of 64 bits can tell.
pub(crate) fn count_decls(typed: &Module) -> usize
    ensures count { result ≡ length typed.now.texts }
    ensures few { length typed.now.texts < 2 ^ 64 }
{
    typed.parts().texts.len()
}

// What the declarations are, where this was built before.
#[tactic(auto, using(crate::proofs::Programs::ill_denied, crate::proofs::OpenResolved::typed_resolved))]
fn judge<L: Ledger>(
    alloc: Global,
    old: &Built,
    decls: Vec<Decl>,
    steps: &mut Steps<L>,
) -> Result<Judged, AllocError>
    requires short { SourcesAreShort decls.items }
    requires written { AreWrittenDecls 0 decls.items }
    ensures { IfOk result (IsJudged old.now.procs decls.items) }
{
    let program = Program { decls };
    match type_check(alloc, &program)? {
        Typed::Module(typed) => {
            let _count = count_decls(&typed);
            build(alloc, old, program, typed, steps)
        }
        Typed::Refused(fault) => Ok(Judged::Refused(fault_reply(fault)?)),
    }
}

// The declaration takes the place of the one that stands there.
fn put_decl(program: &mut Program, replacement: Replacement)
    requires { replacement.at < length program.old }
    ensures { program.new ≡ slice_set program.old replacement.at replacement.decl }
{
    let Replacement { at, decl } = replacement;
    drop(mem::replace(&mut program.decls[at], decl));
}

// The declarations take the places of those that stand there.
fn put_decls(program: &mut Program, mut replacements: Vec<Replacement>)
    requires { AreThere program.old replacements.items }
    ensures { program.new ≡ with_replacements program.old replacements.items }
{
    while let Some(replacement) = replacements.pop() {
        put_decl(program, replacement);
    }
}

// The program's declarations.
fn decls_of(program: &Program) -> &[Decl]
    ensures { result.now ≡ program.now }
{
    program.decls.as_slice()
}

impl OpenProgram {
    /// The program without declarations, whose goals are to be searched with so many turns. Nothing in
    /// it has a fault.
    #[tactic(auto, using(crate::proofs::Programs::taken_decls, crate::proofs::Programs::taken_module))]
    pub fn empty<L: Ledger>(
        alloc: Global,
        turns: u64,
        steps: &mut Steps<L>,
    ) -> Result<OpenProgram, AllocError>
        ensures none { IfOk result (λ p. p.decls ≡ []) }
        ensures is_module { IfOk result (λ p. IsModuleOf [] p.typed) }
    {
        let nothing = Built::asking(alloc, turns);
        match judge(alloc, &nothing, Vec::new(alloc), steps)? {
            Judged::Taken { program, .. } => Ok(program),
            Judged::Refused(reply) => {
                drop(reply);
                Err(AllocError)
            }
        }
    }

    /// What declarations are that are to be open in its place: of their procedures those are built
    /// whose dependency text none of its procedures has.
    pub fn judge<L: Ledger>(
        &self,
        alloc: Global,
        decls: Vec<Decl>,
        steps: &mut Steps<L>,
    ) -> Result<Judged, AllocError>
        requires short { SourcesAreShort decls.items }
        requires written { AreWrittenDecls 0 decls.items }
        ensures { IfOk result (IsJudged (built self.now.typed) decls.items) }
    {
        judge(alloc, &self.built, decls, steps)
    }

    /// What is known of every program that is open: its declarations have no fault, and its module is
    /// theirs.
    pub fn has_module(&self)
        ensures { IsModuleOf self.now.decls self.now.typed }
    {
        let _typed = &self.typed;
    }

    /// The declarations of the program that is open.
    pub fn decls(&self) -> &[Decl]
        ensures decls { result.now ≡ self.now.decls }
        ensures short { SourcesAreShort self.now.decls }
        ensures written { AreWrittenDecls 0 self.now.decls }
    {
        self.program.decls.as_slice()
    }

    /// Its declarations, as a program.
    pub fn program(&self) -> &Program
        ensures { result.now ≡ self.now.decls }
    {
        &self.program
    }

    /// Its module.
    pub fn typed(&self) -> &Module
        ensures { result.now ≡ self.now.typed }
    {
        &self.typed
    }

    /// Its procedures with a body, as they were built.
    #[tactic(auto, using(crate::proofs::Programs::procs_are))]
    pub fn procs(&self) -> &[BuiltProc]
        ensures { map proc_goals result.now ≡ goals_by_proc self.now.typed }
    {
        self.built.procs()
    }

    /// What was built of it: no more goals than are allowed.
    #[tactic(auto, using(crate::proofs::Programs::procs_are))]
    pub fn built(&self) -> &Built
        ensures goals { map proc_goals result.now.procs ≡ goals_by_proc self.now.typed }
        ensures few { sum (goal_counts result.now.procs) ≤ count_limit }
    {
        &self.built
    }

    /// Its declarations with others in the places of some of them. It stays as it is.
    pub fn with_replacements(
        &self,
        alloc: Global,
        replacements: Vec<Replacement>,
    ) -> Result<Vec<Decl>, AllocError>
        requires { AreThere self.now.decls replacements.items }
        ensures { IfOk result (λ v. v.items ≡ with_replacements self.now.decls replacements.items) }
    {
        let mut program = self.program.copy(alloc)?;
        put_decls(&mut program, replacements);
        Ok(program.decls)
    }

    /// The declarations take the places of those that stand there, if they are revisions of these, and
    /// the program with them has no fault; the board has the goals of the program then. Else they are
    /// given back and nothing changes, and so it is without memory.
    #[tactic(auto, using(crate::proofs::Revised::stays_open, crate::proofs::Revised::opened_by))]
    pub fn revise<B: GoalBoard, L: Ledger>(
        &mut self,
        alloc: Global,
        board: &mut B,
        replacements: Vec<Replacement>,
        turns: u64,
        steps: &mut Steps<L>,
    ) -> Result<Reply, Vec<Replacement>>
        requires there { AreThere self.old.decls replacements.items }
        requires short { SourcesAreShort (with_replacements self.old.decls replacements.items) }
        requires written { AreWrittenDecls 0 (with_replacements self.old.decls replacements.items) }
        requires room { B.workers ≡ 0 → (B.state board.old).version < 2 ^ 64 - 1 }
        requires goals { (B.state board.old).present ≡ keys turns self.old.typed }
        ensures decls { IfOk result (λ x. self.new.decls ≡ with_replacements self.old.decls replacements.items) }
        ensures is_module { IfOk result (λ x. IsModuleOf self.new.decls self.new.typed) }
        ensures opened { IfOk result (λ x. IsOpened B.workers (B.state board.old) (B.noted board.old) (B.state board.new) (B.noted board.new) turns (rebuilt (built self.old.typed) self.new.typed) self.new.typed (reply_view x)) }
        ensures back { IfErr result (λ v. v.items ≡ replacements.items) }
        ensures same { OnErr result (self.new ≡ self.old) }
        ensures board { OnErr result (IsUndone B.workers (B.state board.old) (B.noted board.old) (B.state board.new) (B.noted board.new)) }
    {
        match reopen_revised(
            alloc,
            decls_of(&self.program),
            &mut self.typed,
            &mut self.built,
            board,
            &replacements,
            turns,
            steps,
        ) {
            Some(reply) => {
                put_decls(&mut self.program, replacements);
                Ok(reply)
            }
            None => Err(replacements),
        }
    }
}
