// The variables that a body sets, and the targets of a loop.
ghost use Rattle.std.specs.Prelude.{◌≡◌, ◌++◌, IfOk, OnOk, map};
ghost use Rattle.bpl_model.specs.StmtView.{stmts_of};
ghost use Rattle.bpl_blocks.specs.Targets.{sets, list_sets, loop_targets};

use bpl_model::number::rising;
use bpl_model::{Stmt, StmtForm};
use logic_core::Term;
use std::alloc::{AllocError, Global};

/// The variables numbered below `own` that the body of a loop sets, each once, in rising order.
pub fn loop_targets(alloc: Global, own: u64, body: &[Stmt]) -> Result<Vec<u64>, AllocError>
    ensures { IfOk result (λ v. v.items ≡ loop_targets own (stmts_of body.now)) }
{
    let mut set = Vec::new(alloc);
    push_list_sets(body, &mut set)?;
    rising(alloc, set.as_slice(), 0, own)
}

#[cycle(sets)]
fn push_sets(stmt: &Stmt, set: &mut Vec<u64>) -> Result<(), AllocError>
    ensures { OnOk result (set.new.items ≡ set.old.items ++ sets stmt.now) }
{
    match &stmt.form {
        StmtForm::Havoc(_, vars) | StmtForm::Call(_, _, _, vars) => set.extend_from_slice(vars),
        StmtForm::Assign(_, pairs) => push_assigned(pairs, set),
        StmtForm::If(_, _, _, first, second) => {
            push_list_sets(first, set)?;
            push_list_sets(second, set)
        }
        StmtForm::While(_, _, _, body) => push_list_sets(body, set),
        StmtForm::Labelled(_, behind) => push_sets(behind, set),
        _ => Ok(()),
    }
}

#[cycle(sets)]
fn push_list_sets(stmts: &[Stmt], set: &mut Vec<u64>) -> Result<(), AllocError>
    ensures { OnOk result (set.new.items ≡ set.old.items ++ list_sets (stmts_of stmts.now)) }
{
    for stmt in stmts {
        push_sets(stmt, set)?;
    }
    Ok(())
}

fn push_assigned(pairs: &[(u64, Term)], set: &mut Vec<u64>) -> Result<(), AllocError>
    ensures { OnOk result (set.new.items ≡ set.old.items ++ map (λ p. p.0) pairs.now) }
{
    for pair in pairs {
        set.push(pair.0)?;
    }
    Ok(())
}
