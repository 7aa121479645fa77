// Copies of statements and of what stands in them. Each is equal to what it copies.
ghost use Rattle.std.specs.Prelude.{◌≡◌, IfOk};
ghost use Rattle.bpl_ast.specs.StmtView.{each_branch, last_of};

use crate::copy_exprs::{copy_exprs, copy_optional_expr};
use crate::copy_names::{copy_names, copy_optional_name};
use crate::stmt::{Branch, Invariant, Stmt, StmtForm, Target};
use std::alloc::{AllocError, Global};

impl Target {
    /// An equal target.
    pub fn copy(&self, alloc: Global) -> Result<Target, AllocError>
        ensures { IfOk result (λ t. t ≡ self.now) }
    {
        Ok(Target {
            name: self.name.copy(alloc)?,
            indices: copy_exprs(alloc, &self.indices)?,
        })
    }
}

/// Equal targets.
pub fn copy_targets(alloc: Global, targets: &[Target]) -> Result<Vec<Target>, AllocError>
    ensures { IfOk result (λ v. v.items ≡ targets.now) }
{
    let mut copies = Vec::new(alloc);
    for target in targets {
        copies.push(target.copy(alloc)?)?;
    }
    Ok(copies)
}

impl Invariant {
    /// An equal invariant.
    pub fn copy(&self, alloc: Global) -> Result<Invariant, AllocError>
        ensures { IfOk result (λ i. i ≡ self.now) }
    {
        Ok(Invariant {
            at: self.at,
            free: self.free,
            formula: self.formula.copy(alloc)?,
        })
    }
}

/// Equal invariants.
pub fn copy_invariants(
    alloc: Global,
    invariants: &[Invariant],
) -> Result<Vec<Invariant>, AllocError>
    ensures { IfOk result (λ v. v.items ≡ invariants.now) }
{
    let mut copies = Vec::new(alloc);
    for found in invariants {
        copies.push(found.copy(alloc)?)?;
    }
    Ok(copies)
}

impl Stmt {
    /// An equal statement.
    #[cycle(copy_stmt)]
    #[tactic(auto, using(crate::specs::StmtFalls::last_counts))]
    pub fn copy(&self, alloc: Global) -> Result<Stmt, AllocError>
        ensures { IfOk result (λ s. s ≡ self.now) }
    {
        let labels = copy_names(alloc, &self.labels)?;
        let at = self.at;
        match &self.form {
            StmtForm::Assert(x) => Ok(Stmt::new(labels, at, StmtForm::Assert(x.copy(alloc)?))),
            StmtForm::Assume(x) => Ok(Stmt::new(labels, at, StmtForm::Assume(x.copy(alloc)?))),
            StmtForm::Havoc(names) => {
                let names = copy_names(alloc, names)?;
                Ok(Stmt::new(labels, at, StmtForm::Havoc(names)))
            }
            StmtForm::Assign(targets, values) => {
                let targets = copy_targets(alloc, targets)?;
                let values = copy_exprs(alloc, values)?;
                Ok(Stmt::new(labels, at, StmtForm::Assign(targets, values)))
            }
            StmtForm::Call(targets, name, arguments) => {
                let targets = copy_names(alloc, targets)?;
                let name = name.copy(alloc)?;
                let arguments = copy_exprs(alloc, arguments)?;
                Ok(Stmt::new(labels, at, StmtForm::Call(targets, name, arguments)))
            }
            StmtForm::If(branches, last) => {
                let branches = copy_branches(alloc, branches)?;
                let last = copy_last(alloc, last)?;
                Ok(Stmt::new(labels, at, StmtForm::If(branches, last)))
            }
            StmtForm::While(guard, invariants, body) => {
                let guard = copy_optional_expr(alloc, guard)?;
                let invariants = copy_invariants(alloc, invariants)?;
                let body = copy_stmts(alloc, body)?;
                Ok(Stmt::new(labels, at, StmtForm::While(guard, invariants, body)))
            }
            StmtForm::Break(label) => {
                let label = copy_optional_name(alloc, label)?;
                Ok(Stmt::new(labels, at, StmtForm::Break(label)))
            }
            StmtForm::Return => Ok(Stmt::new(labels, at, StmtForm::Return)),
            StmtForm::Goto(names) => {
                let names = copy_names(alloc, names)?;
                Ok(Stmt::new(labels, at, StmtForm::Goto(names)))
            }
        }
    }
}

/// Equal statements.
#[cycle(copy_stmt)]
pub fn copy_stmts(alloc: Global, stmts: &[Stmt]) -> Result<Vec<Stmt>, AllocError>
    ensures { IfOk result (λ v. v.items ≡ stmts.now) }
{
    let mut copies = Vec::new(alloc);
    for stmt in stmts {
        copies.push(stmt.copy(alloc)?)?;
    }
    Ok(copies)
}

/// Equal branches.
#[cycle(copy_stmt)]
pub fn copy_branches(alloc: Global, branches: &[Branch]) -> Result<Vec<Branch>, AllocError>
    ensures { IfOk result (λ v. each_branch v.items ≡ each_branch branches.now) }
{
    let mut copies = Vec::new(alloc);
    for branch in branches {
        let guard = copy_optional_expr(alloc, &branch.guard)?;
        let body = copy_stmts(alloc, &branch.body)?;
        copies.push(Branch {
            at: branch.at,
            guard,
            body,
        })?;
    }
    Ok(copies)
}

/// An equal block of a last `else`, or none.
#[cycle(copy_stmt)]
pub fn copy_last(alloc: Global, last: &Option<Vec<Stmt>>) -> Result<Option<Vec<Stmt>>, AllocError>
    ensures { IfOk result (λ l. last_of l ≡ last_of last.now) }
{
    match last {
        Some(stmts) => Ok(Some(copy_stmts(alloc, stmts)?)),
        None => Ok(None),
    }
}
