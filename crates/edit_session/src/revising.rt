// The program after some of its declarations have given way to revisions.
ghost use Rattle.std.specs.Prelude.{◌≡◌, ◌<◌, ◌-◌, ◌^◌, map, length, false, is_none, slice_get, Some, IsTrue, IfOk, OnErr, IfSome, IfNone};
ghost use Rattle.bpl_ast.specs.Statement.{Decl as decl_of};
ghost use Rattle.bpl_goto.specs.Forward.{AllGoForward};
ghost use Rattle.bpl_scopes.specs.Scopes.{table_of, no_counts, counts_after};
ghost use Rattle.user_types.specs.Erased.{erased, told_apart};
ghost use Rattle.canonical_text.specs.RoundTrip.{AreWrittenDecls};
ghost use Rattle.rebuild_laws.specs.Resolved.{IsResolved};
ghost use Rattle.vc_build.specs.Rebuild.{built};
ghost use Rattle.vc_rebuild.specs.Change.{IsChangedAt};
ghost use Rattle.body_revision.specs.Names.{AreNamesOf, own_fault};
ghost use Rattle.body_revision.specs.Revised.{IsRevised};
ghost use Rattle.body_revision.specs.Revision.{AreRevised, HaveNoFaults, all_revised};
ghost use Rattle.program_opening.specs.NoUsers.{has_user_types};
ghost use Rattle.program_edits.specs.Replaced.{with_replacements, AreThere};
ghost use Rattle.request_text.specs.ReplyView.{reply_view};
ghost use Rattle.obligation_text.specs.Asked.{key_of};
ghost use Rattle.edit_session.specs.Program.{IsModuleOf, keys};
ghost use Rattle.edit_session.specs.Built.{questions_of};
ghost use Rattle.edit_session.specs.Revising.{changes, AreBrought, AreRevisions, IsRevision, CanBePut, IsReopened};
ghost use Rattle.edit_session.specs.Told.{IsUndone};

use crate::alone::changed_alone;
use crate::board_calls::open_goals;
use crate::program::count_decls;
use body_revision::faultless::own_fault;
use body_revision::module::revision;
use body_revision::{DeclaredNames, Revision, is_revised, put_revision, read_heads};
use bpl_ast::Decl;
use bpl_model::Module;
use bv_base::Steps;
use goal_board::GoalBoard;
use program_edits::Replacement;
use program_opening::typing::has_user_types;
use request_text::Reply;
use std::alloc::{AllocError, Global};
use std::sync::ledger::Ledger;
use user_types::Reading;
use vc_build::BuildFault;
use vc_rebuild::{Built, ChangedBody, rebuild_changed};

// So many revisions at most are made at once: each takes a place on the stack while the module is built.
const MOST_REVISIONS: usize = 200;

// Whether the new declaration is a revision of the old one.
fn is_revision(alloc: Global, old: &Decl, new: &Decl) -> Result<bool, AllocError>
    ensures { IfOk result (λ b. IsTrue b → IsRevised old.now.body new.now.body) }
{
    is_revised(alloc, old.body(), new.body())
}

// Whether it is a revision of the declaration in whose place it comes.
fn is_revision_at(
    alloc: Global,
    decls: &[Decl],
    replacement: &Replacement,
) -> Result<bool, AllocError>
    requires { replacement.now.at < length decls.now }
    ensures { IfOk result (λ b. IsTrue b → (d : decl_of) → slice_get decls.now replacement.now.at ≡ Some d → IsRevised d.body replacement.now.decl.body) }
{
    let at = replacement.at;
    is_revision(alloc, &decls[at], &replacement.decl)
}

// Whether each of them is one. No names are asked for.
fn are_revised(
    alloc: Global,
    decls: &[Decl],
    replacements: &[Replacement],
) -> Result<bool, AllocError>
    requires { AreThere decls.now replacements.now }
    ensures { IfOk result (λ b. IsTrue b → AreRevised decls.now (changes replacements.now)) }
{
    for replacement in replacements {
        if !is_revision_at(alloc, decls, replacement)? {
            return Ok(false);
        }
    }
    Ok(true)
}

// What is new in the module, if the declaration is a revision of the one in whose place it comes, and
// has no fault of its own where user types are integers.
fn revision_at<'a>(
    alloc: Global,
    names: &DeclaredNames<'a>,
    decls: &'a [Decl],
    count: usize,
    replacement: &'a Replacement,
) -> Result<Option<Revision>, AllocError>
    requires names { AreNamesOf (erased decls.now) names.now }
    requires count { count ≡ length (erased decls.now) }
    requires there { replacement.now.at < length decls.now }
    ensures { IfOk result (λ o. IfSome o (IsRevision decls.now replacement.now)) }
{
    let at = replacement.at;
    let decl = &replacement.decl;
    if is_revision(alloc, &decls[at], decl)? {
        revision(alloc, names, decls, at, count, decl)
    } else {
        Ok(None)
    }
}

// What is new in the module of each, where each is so.
fn revisions_at<'a>(
    alloc: Global,
    names: &DeclaredNames<'a>,
    decls: &'a [Decl],
    count: usize,
    replacements: &'a [Replacement],
) -> Result<Option<Vec<Revision>>, AllocError>
    requires names { AreNamesOf (erased decls.now) names.now }
    requires count { count ≡ length (erased decls.now) }
    requires there { AreThere decls.now replacements.now }
    ensures { IfOk result (λ o. IfSome o (λ v. AreBrought decls.now replacements.now v.items)) }
{
    let mut found = Vec::new(alloc);
    for replacement in replacements {
        match revision_at(alloc, names, decls, count, replacement)? {
            Some(revision) => found.push(revision)?,
            None => return Ok(None),
        }
    }
    Ok(Some(found))
}

// Whether the declaration has no fault of its own.
fn is_faultless<'a>(
    alloc: Global,
    names: &DeclaredNames<'a>,
    decl: &'a Decl,
) -> Result<bool, AllocError>
    ensures { IfOk result (λ b. b ≡ is_none (own_fault (table_of names.now.declarations) (counts_after no_counts names.now.declarations) decl.now.body)) }
{
    let fault = own_fault(alloc, names, decl)?;
    Ok(fault.is_none())
}

// Whether none of them has one.
fn are_faultless<'a>(
    alloc: Global,
    names: &DeclaredNames<'a>,
    replacements: &'a [Replacement],
) -> Result<bool, AllocError>
    ensures { IfOk result (λ b. IsTrue b → HaveNoFaults names.now.declarations (changes replacements.now)) }
{
    for replacement in replacements {
        if !is_faultless(alloc, names, &replacement.decl)? {
            return Ok(false);
        }
    }
    Ok(true)
}

// Whether none of them has one where user types are told apart.
fn are_faultless_apart(
    alloc: Global,
    decls: &[Decl],
    replacements: &[Replacement],
) -> Result<bool, AllocError>
    ensures { IfOk result (λ b. IsTrue b → HaveNoFaults (told_apart decls.now) (changes replacements.now)) }
{
    let heads = read_heads(alloc, Reading::Apart, decls)?;
    let names = DeclaredNames::of(alloc, &heads)?;
    are_faultless(alloc, &names, replacements)
}

// What is new in the module of each, where each is a revision without a fault where user types are
// integers: names are those of the heads.
fn erased_revisions(
    alloc: Global,
    decls: &[Decl],
    count: usize,
    replacements: &[Replacement],
) -> Result<Option<Vec<Revision>>, AllocError>
    requires count { count ≡ length (erased decls.now) }
    requires there { AreThere decls.now replacements.now }
    ensures { IfOk result (λ o. IfSome o (λ v. AreBrought decls.now replacements.now v.items)) }
{
    let heads = read_heads(alloc, Reading::Integers, decls)?;
    let names = DeclaredNames::of(alloc, &heads)?;
    revisions_at(alloc, &names, decls, count, replacements)
}

// The same, without a fault in either reading of user types.
fn read_revisions(
    alloc: Global,
    decls: &[Decl],
    count: usize,
    replacements: &[Replacement],
) -> Result<Option<Vec<Revision>>, AllocError>
    requires count { count ≡ length (erased decls.now) }
    requires there { AreThere decls.now replacements.now }
    ensures { IfOk result (λ o. IfSome o (λ v. AreRevisions decls.now replacements.now v.items)) }
{
    if are_faultless_apart(alloc, decls, replacements)? {
        erased_revisions(alloc, decls, count, replacements)
    } else {
        Ok(None)
    }
}

// The same where there are no user types: both readings declare what the declarations do as they stand.
fn plain_revisions(
    alloc: Global,
    decls: &[Decl],
    count: usize,
    replacements: &[Replacement],
) -> Result<Option<Vec<Revision>>, AllocError>
    requires plain { has_user_types decls.now ≡ false }
    requires count { count ≡ length (erased decls.now) }
    requires there { AreThere decls.now replacements.now }
    ensures { IfOk result (λ o. IfSome o (λ v. AreRevisions decls.now replacements.now v.items)) }
{
    let names = DeclaredNames::of(alloc, decls)?;
    revisions_at(alloc, &names, decls, count, replacements)
}

// What is new in the module of each, where each is a revision without a fault.
fn revisions_of(
    alloc: Global,
    decls: &[Decl],
    count: usize,
    replacements: &[Replacement],
) -> Result<Option<Vec<Revision>>, AllocError>
    requires count { count ≡ length (erased decls.now) }
    requires there { AreThere decls.now replacements.now }
    ensures { IfOk result (λ o. IfSome o (λ v. AreRevisions decls.now replacements.now v.items)) }
{
    if replacements.len() > MOST_REVISIONS {
        return Ok(None);
    }
    if !are_revised(alloc, decls, replacements)? {
        return Ok(None);
    }
    if has_user_types(decls) {
        read_revisions(alloc, decls, count, replacements)
    } else {
        plain_revisions(alloc, decls, count, replacements)
    }
}

// The module is built, where this was built before, and the board has its goals. Where it exceeds a
// limit, and without memory, all is as it was.
fn reopen<B: GoalBoard, L: Ledger>(
    alloc: Global,
    kept: &mut Built,
    typed: &Module,
    but: Option<ChangedBody>,
    board: &mut B,
    turns: u64,
    steps: &mut Steps<L>,
) -> Result<Reply, BuildFault>
    requires forward { AllGoForward typed.now }
    requires resolved { IsResolved typed.now }
    requires changed { IsChangedAt but kept.old.procs typed.now }
    requires room { B.workers ≡ 0 → (B.state board.old).version < 2 ^ 64 - 1 }
    requires goals { (B.state board.old).present ≡ map key_of (questions_of turns kept.old.procs) }
    ensures opened { IfOk result (λ x. IsReopened B.workers (B.state board.old) (B.noted board.old) (B.state board.new) (B.noted board.new) turns typed.now kept.old.procs kept.new.procs (reply_view x)) }
    ensures kept { OnErr result (kept.new ≡ kept.old) }
    ensures board { OnErr result (IsUndone B.workers (B.state board.old) (B.noted board.old) (B.state board.new) (B.noted board.new)) }
{
    let new = rebuild_changed(alloc, kept, typed, but, steps)?;
    let place = new.place;
    let built = new.built;
    let reply = open_goals(alloc, board, kept, &built, place, built.rebuilt(), turns)?;
    *kept = built;
    Ok(reply)
}

// The module with what is new takes its place, the last first, is built, and the board has its goals; or
// else all is as it was.
#[cycle(reopen_with)]
fn reopen_with<B: GoalBoard, L: Ledger>(
    alloc: Global,
    typed: &mut Module,
    kept: &mut Built,
    but: Option<ChangedBody>,
    board: &mut B,
    revisions: &mut Vec<Revision>,
    turns: u64,
    steps: &mut Steps<L>,
) -> Option<Reply>
    requires each { CanBePut typed.old revisions.old.items }
    requires forward { AllGoForward (all_revised typed.old revisions.old.items) }
    requires resolved { IsResolved (all_revised typed.old revisions.old.items) }
    requires changed { IsChangedAt but kept.old.procs (all_revised typed.old revisions.old.items) }
    requires room { B.workers ≡ 0 → (B.state board.old).version < 2 ^ 64 - 1 }
    requires goals { (B.state board.old).present ≡ map key_of (questions_of turns kept.old.procs) }
    ensures revised { IfSome result (λ x. typed.new ≡ all_revised typed.old revisions.old.items) }
    ensures opened { IfSome result (λ x. IsReopened B.workers (B.state board.old) (B.noted board.old) (B.state board.new) (B.noted board.new) turns typed.new kept.old.procs kept.new.procs (reply_view x)) }
    ensures typed { IfNone result (typed.new ≡ typed.old) }
    ensures kept { IfNone result (kept.new ≡ kept.old) }
    ensures board { IfNone result (IsUndone B.workers (B.state board.old) (B.noted board.old) (B.state board.new) (B.noted board.new)) }
{
    match revisions.pop() {
        None => match reopen(alloc, kept, typed, but, board, turns, steps) {
            Ok(reply) => Some(reply),
            Err(_) => None,
        },
        Some(revision) => {
            let before = put_revision(alloc, typed, revision);
            match reopen_with(alloc, typed, kept, but, board, revisions, turns, steps) {
                Some(reply) => {
                    drop(before);
                    Some(reply)
                }
                None => {
                    drop(put_revision(alloc, typed, before));
                    None
                }
            }
        }
    }
}

/// The module of declarations becomes that of the same with others in their places, and the board has
/// its goals, if the new ones are revisions of the old ones, and have no fault. Else all is as it was,
/// and so it is without memory.
pub fn reopen_revised<B: GoalBoard, L: Ledger>(
    alloc: Global,
    decls: &[Decl],
    typed: &mut Module,
    kept: &mut Built,
    board: &mut B,
    replacements: &[Replacement],
    turns: u64,
    steps: &mut Steps<L>,
) -> Option<Reply>
    requires is_module { IsModuleOf decls.now typed.old }
    requires there { AreThere decls.now replacements.now }
    requires written { AreWrittenDecls 0 (with_replacements decls.now replacements.now) }
    requires room { B.workers ≡ 0 → (B.state board.old).version < 2 ^ 64 - 1 }
    requires goals { (B.state board.old).present ≡ keys turns typed.old }
    requires built { kept.old.procs ≡ built typed.old }
    ensures is_module { IfSome result (λ x. IsModuleOf (with_replacements decls.now replacements.now) typed.new) }
    ensures opened { IfSome result (λ x. IsReopened B.workers (B.state board.old) (B.noted board.old) (B.state board.new) (B.noted board.new) turns typed.new kept.old.procs kept.new.procs (reply_view x)) }
    ensures typed { IfNone result (typed.new ≡ typed.old) }
    ensures kept { IfNone result (kept.new ≡ kept.old) }
    ensures board { IfNone result (IsUndone B.workers (B.state board.old) (B.noted board.old) (B.state board.new) (B.noted board.new)) }
{
    let count = count_decls(typed);
    match revisions_of(alloc, decls, count, replacements) {
        Ok(Some(mut revisions)) => {
            let but = changed_alone(typed, revisions.as_slice());
            reopen_with(alloc, typed, kept, but, board, &mut revisions, turns, steps)
        }
        Ok(None) | Err(_) => None,
    }
}
