// Copies of statements and of what stands in them. Each is equal to what it copies.
ghost use Rattle.std.specs.Prelude.{◌≡◌, IfOk};
ghost use Rattle.bpl_model.specs.StmtView.{body_of};

use crate::copy_decls::copy_optional_formula;
use crate::name::{Name, copy_names};
use crate::stmt::{Stmt, StmtForm};
use flow_core::Invariant;
use logic_core::Term;
use logic_core::copy::copy_terms;
use std::alloc::{AllocError, Global};

/// Equal pairs of a variable and a term.
pub fn copy_assigned(alloc: Global, pairs: &[(u64, Term)]) -> Result<Vec<(u64, Term)>, AllocError>
    ensures { IfOk result (λ v. v.items ≡ pairs.now) }
{
    let mut copies = Vec::new(alloc);
    for pair in pairs {
        copies.push((pair.0, pair.1.copy(alloc)?))?;
    }
    Ok(copies)
}

/// An equal invariant.
pub fn copy_invariant(alloc: Global, invariant: &Invariant) -> Result<Invariant, AllocError>
    ensures { IfOk result (λ i. i ≡ invariant.now) }
{
    Ok(Invariant {
        free: invariant.free,
        place: invariant.place,
        formula: invariant.formula.copy(alloc)?,
    })
}

/// Equal invariants.
pub fn copy_invariants(
    alloc: Global,
    invariants: &[Invariant],
) -> Result<Vec<Invariant>, AllocError>
    ensures { IfOk result (λ v. v.items ≡ invariants.now) }
{
    let mut copies = Vec::new(alloc);
    for found in invariants {
        copies.push(copy_invariant(alloc, found)?)?;
    }
    Ok(copies)
}

fn copy_optional_name(alloc: Global, name: &Option<Name>) -> Result<Option<Name>, AllocError>
    ensures { IfOk result (λ n. n ≡ name.now) }
{
    match name {
        Some(name) => Ok(Some(name.copy(alloc)?)),
        None => Ok(None),
    }
}

impl Stmt {
    /// An equal statement.
    #[cycle(copy_stmt)]
    pub fn copy(&self, alloc: Global) -> Result<Stmt, AllocError>
        ensures { IfOk result (λ s. s ≡ self.now) }
    {
        match &self.form {
            StmtForm::Assert(mark, formula) => {
                Ok(Stmt::new(StmtForm::Assert(*mark, formula.copy(alloc)?)))
            }
            StmtForm::Assume(at, formula) => {
                Ok(Stmt::new(StmtForm::Assume(*at, formula.copy(alloc)?)))
            }
            StmtForm::Havoc(at, vars) => Ok(Stmt::new(StmtForm::Havoc(
                *at,
                Vec::from_slice(alloc, vars)?,
            ))),
            StmtForm::Assign(at, pairs) => Ok(Stmt::new(StmtForm::Assign(
                *at,
                copy_assigned(alloc, pairs)?,
            ))),
            StmtForm::Call(at, callee, arguments, vars) => {
                let arguments = copy_terms(alloc, arguments)?;
                let vars = Vec::from_slice(alloc, vars)?;
                Ok(Stmt::new(StmtForm::Call(*at, *callee, arguments, vars)))
            }
            StmtForm::If(at, has_else, guard, first, second) => {
                let guard = copy_optional_formula(alloc, guard)?;
                let first = copy_stmts(alloc, first)?;
                let second = copy_stmts(alloc, second)?;
                Ok(Stmt::new(StmtForm::If(*at, *has_else, guard, first, second)))
            }
            StmtForm::While(at, guard, invariants, body) => {
                let guard = copy_optional_formula(alloc, guard)?;
                let invariants = copy_invariants(alloc, invariants)?;
                let body = copy_stmts(alloc, body)?;
                Ok(Stmt::new(StmtForm::While(*at, guard, invariants, body)))
            }
            StmtForm::Break(at, label) => {
                let label = copy_optional_name(alloc, label)?;
                Ok(Stmt::new(StmtForm::Break(*at, label)))
            }
            StmtForm::Return(at) => Ok(Stmt::new(StmtForm::Return(*at))),
            StmtForm::Goto(at, labels) => Ok(Stmt::new(StmtForm::Goto(
                *at,
                copy_names(alloc, labels)?,
            ))),
            StmtForm::Labelled(labels, behind) => {
                let labels = copy_names(alloc, labels)?;
                let behind = Box::new(alloc, behind.copy(alloc)?)?;
                Ok(Stmt::new(StmtForm::Labelled(labels, behind)))
            }
        }
    }
}

/// Equal statements.
#[cycle(copy_stmt)]
pub fn copy_stmts(alloc: Global, stmts: &[Stmt]) -> Result<Vec<Stmt>, AllocError>
    ensures { IfOk result (λ v. v.items ≡ stmts.now) }
{
    let mut copies = Vec::new(alloc);
    for stmt in stmts {
        copies.push(stmt.copy(alloc)?)?;
    }
    Ok(copies)
}

/// Equal statements of a body, or none.
pub fn copy_body(alloc: Global, body: &Option<Vec<Stmt>>) -> Result<Option<Vec<Stmt>>, AllocError>
    ensures { IfOk result (λ b. body_of b ≡ body_of body.now) }
{
    match body {
        Some(stmts) => Ok(Some(copy_stmts(alloc, stmts)?)),
        None => Ok(None),
    }
}
