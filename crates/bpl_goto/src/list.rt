// Statements and lists without gotos.
ghost use Rattle.std.specs.Prelude.{◌≡◌, IfOk};
ghost use Rattle.bpl_model.specs.Module.{no_stmts};
ghost use Rattle.bpl_model.specs.StmtView.{stmts_of, body_of};
ghost use Rattle.bpl_goto.specs.Removed.{stmt_without, list_without, body_without};

use crate::labels::{longest_within, put_each_named};
use crate::wrapper::Labels;
use bpl_model::copy_decls::copy_optional_formula;
use bpl_model::copy_stmts::copy_invariants;
use bpl_model::name::copy_names;
use bpl_model::name_set::NameSet;
use bpl_model::{Stmt, StmtForm};
use std::alloc::{AllocError, Global};

impl<'a> Labels<'a> {
    #[cycle(without)]
    fn stmt_without(&self, alloc: Global, stmt: &Stmt) -> Result<Stmt, AllocError>
        ensures { IfOk result (λ s. s ≡ stmt_without self.now.named self.now.longest stmt.now) }
    {
        match &stmt.form {
            StmtForm::If(at, has_else, guard, first, second) => {
                let guard = copy_optional_formula(alloc, guard)?;
                let first = self.list_without(alloc, first)?;
                let second = self.list_without(alloc, second)?;
                Ok(Stmt::new(StmtForm::If(*at, *has_else, guard, first, second)))
            }
            StmtForm::While(at, guard, invariants, body) => {
                let guard = copy_optional_formula(alloc, guard)?;
                let invariants = copy_invariants(alloc, invariants)?;
                let body = self.list_without(alloc, body)?;
                Ok(Stmt::new(StmtForm::While(*at, guard, invariants, body)))
            }
            StmtForm::Goto(at, labels) => self.choice(alloc, *at, labels),
            StmtForm::Labelled(labels, behind) => {
                let labels = copy_names(alloc, labels)?;
                let behind = Box::new(alloc, self.stmt_without(alloc, behind)?)?;
                Ok(Stmt::new(StmtForm::Labelled(labels, behind)))
            }
            _ => stmt.copy(alloc),
        }
    }

    /// The list without gotos: what stands before a label that one names is wrapped for it.
    #[cycle(without)]
    #[tactic(auto, using(crate::proofs::Loops::one_more))]
    pub fn list_without(&self, alloc: Global, stmts: &[Stmt]) -> Result<Vec<Stmt>, AllocError>
        ensures { IfOk result (λ v. stmts_of v.items ≡ list_without self.now.named self.now.longest no_stmts (stmts_of stmts.now)) }
    {
        let mut done = Vec::new(alloc);
        for stmt in stmts {
            done = self.wrapped_for(alloc, done, stmt)?;
            done.push(self.stmt_without(alloc, stmt)?)?;
        }
        Ok(done)
    }
}

/// A body without gotos.
#[tactic(auto, using(crate::proofs::Loops::put_same))]
pub fn body_without(alloc: Global, stmts: &[Stmt]) -> Result<Vec<Stmt>, AllocError>
    ensures { IfOk result (λ v. stmts_of v.items ≡ body_without (stmts_of stmts.now)) }
{
    let mut named = NameSet::new(alloc);
    put_each_named(&mut named, stmts)?;
    let labels = Labels {
        named,
        longest: longest_within(stmts),
    };
    labels.list_without(alloc, stmts)
}
