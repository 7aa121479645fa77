// The number of blocks that a statement makes.
ghost use Rattle.std.specs.Prelude.{◌≡◌, IfOk};
ghost use Rattle.bpl_model.specs.StmtView.{stmts_of};
ghost use Rattle.bpl_blocks.specs.Targets.{size, list_size};

use bpl_model::number::sum;
use bpl_model::{Stmt, StmtForm};
use std::alloc::AllocError;

#[cycle(size)]
fn size(stmt: &Stmt) -> Result<u64, AllocError>
    ensures { IfOk result (λ n. n ≡ size stmt.now) }
{
    match &stmt.form {
        StmtForm::If(_, _, _, first, second) => sum(sum(list_size(first)?, list_size(second)?)?, 3),
        StmtForm::While(_, _, _, body) => sum(list_size(body)?, 4),
        StmtForm::Break(_, _) | StmtForm::Return(_) => Ok(1),
        StmtForm::Labelled(_, behind) => size(behind),
        _ => Ok(0),
    }
}

/// The number of blocks that the statements make.
#[cycle(size)]
pub fn list_size(stmts: &[Stmt]) -> Result<u64, AllocError>
    ensures { IfOk result (λ n. n ≡ list_size (stmts_of stmts.now)) }
{
    let mut total = 0;
    for stmt in stmts {
        total = sum(total, size(stmt)?)?;
    }
    Ok(total)
}
