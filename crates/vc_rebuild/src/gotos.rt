// Gotos removed from a program where some stand in it.
ghost use Rattle.std.specs.Prelude.{◌≡◌, IfOk};
ghost use Rattle.bpl_goto.specs.Forward.{AllGoForward};
ghost use Rattle.bpl_goto.specs.Removed.{remove_gotos};
ghost use Rattle.bpl_model.specs.StmtView.{body_of, stmts_of};
ghost use Rattle.vc_rebuild.specs.Gotos.{body_has_goto, has_goto, have_goto, some_goto};
ghost use Rattle.vc_rebuild.specs.Plain.{IsPlainOf};

use bpl_goto::laws::nothing_removed;
use bpl_goto::remove_gotos;
use bpl_model::{Module, Proc, Stmt, StmtForm};
use std::alloc::{AllocError, Global};

#[cycle(gotos)]
fn has_goto(stmt: &Stmt) -> bool
    ensures { result ≡ has_goto stmt.now }
{
    match &stmt.form {
        StmtForm::If(_, _, _, first, second) => have_goto(first) || have_goto(second),
        StmtForm::While(_, _, _, body) => have_goto(body),
        StmtForm::Goto(_, _) => true,
        StmtForm::Labelled(_, behind) => has_goto(behind),
        _ => false,
    }
}

#[cycle(gotos)]
fn have_goto(stmts: &[Stmt]) -> bool
    ensures { result ≡ have_goto (stmts_of stmts.now) }
{
    for stmt in stmts {
        if has_goto(stmt) {
            return true;
        }
    }
    false
}

fn body_has_goto(body: &Option<Vec<Stmt>>) -> bool
    ensures { result ≡ body_has_goto (body_of body.now) }
{
    match body {
        Some(stmts) => have_goto(stmts),
        None => false,
    }
}

// Whether a goto stands in some procedure.
fn some_goto(procs: &[Proc]) -> bool
    ensures { result ≡ some_goto procs.now }
{
    for proc in procs {
        if body_has_goto(&proc.body) {
            return true;
        }
    }
    false
}

/// The program with its gotos removed; none where there are none.
#[tactic(auto, using(crate::proofs::NoGotos::nothing_in))]
pub fn without_gotos(alloc: Global, typed: &Module) -> Result<Option<Module>, AllocError>
    requires { AllGoForward typed.now }
    ensures { IfOk result (IsPlainOf typed.now) }
{
    nothing_removed();
    if !some_goto(&typed.parts().procs) {
        return Ok(None);
    }
    let plain = remove_gotos(alloc, typed)?;
    Ok(Some(plain))
}

/// The program without gotos: this one, or else the given one, which has none.
pub fn plain_of<'a>(plain: &'a Option<Module>, typed: &'a Module) -> &'a Module
    requires { IsPlainOf typed.now plain.now }
    ensures { result.now ≡ remove_gotos typed.now }
{
    match plain {
        Some(plain) => plain,
        None => typed,
    }
}
