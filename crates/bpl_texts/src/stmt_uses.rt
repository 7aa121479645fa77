// The names in statements that no variable hides.
ghost use Rattle.std.specs.Prelude.{◌≡◌, ◌++◌, flat_map, OnOk};
ghost use Rattle.bpl_ast.specs.ExprView.{exprs_of};
ghost use Rattle.bpl_ast.specs.StmtView.{stmts_of, branches_of, last_of, action_of};
ghost use Rattle.bpl_ast.specs.Statement.{no_branch};
ghost use Rattle.bpl_dependencies.specs.AppliedView.{texts_seen, variables_seen};
ghost use Rattle.bpl_texts.specs.Uses.{guard_uses, target_uses, invariant_uses, stmts_uses, stmt_uses, action_uses, branches_uses};

use crate::expr_uses::Uses;
use bpl_ast::{Branch, Expr, Invariant, Stmt, StmtForm, Target};
use bpl_dependencies::Variables;
use std::alloc::{AllocError, Global};

impl<'a> Uses<'a> {
    /// Finds the names in a guard or another formula that may be missing.
    pub(crate) fn note_guard(
        &mut self,
        alloc: Global,
        variables: &Variables<'_, 'a>,
        guard: &'a Option<Expr>,
    ) -> Result<(), AllocError>
        ensures { OnOk result (texts_seen self.new.names.items ≡ texts_seen self.old.names.items ++ guard_uses (variables_seen variables.now) guard.now) }
    {
        match guard {
            Some(x) => self.note_expr(alloc, variables, x),
            None => Ok(()),
        }
    }

    fn note_target(
        &mut self,
        alloc: Global,
        variables: &Variables<'_, 'a>,
        target: &'a Target,
    ) -> Result<(), AllocError>
        ensures { OnOk result (texts_seen self.new.names.items ≡ texts_seen self.old.names.items ++ target_uses (variables_seen variables.now) target.now) }
    {
        self.note(variables, target.name.text.as_bytes())?;
        self.note_exprs(alloc, variables, &target.indices)
    }

    fn note_targets(
        &mut self,
        alloc: Global,
        variables: &Variables<'_, 'a>,
        targets: &'a [Target],
    ) -> Result<(), AllocError>
        ensures { OnOk result (texts_seen self.new.names.items ≡ texts_seen self.old.names.items ++ flat_map (target_uses (variables_seen variables.now)) targets.now) }
    {
        for target in targets {
            self.note_target(alloc, variables, target)?;
        }
        Ok(())
    }

    fn note_invariants(
        &mut self,
        alloc: Global,
        variables: &Variables<'_, 'a>,
        invariants: &'a [Invariant],
    ) -> Result<(), AllocError>
        ensures { OnOk result (texts_seen self.new.names.items ≡ texts_seen self.old.names.items ++ flat_map (invariant_uses (variables_seen variables.now)) invariants.now) }
    {
        for invariant in invariants {
            self.note_expr(alloc, variables, &invariant.formula)?;
        }
        Ok(())
    }

    /// Finds the names in a statement.
    #[cycle(stmts)]
    pub(crate) fn note_stmt(
        &mut self,
        alloc: Global,
        variables: &Variables<'_, 'a>,
        stmt: &'a Stmt,
    ) -> Result<(), AllocError>
        ensures { OnOk result (texts_seen self.new.names.items ≡ texts_seen self.old.names.items ++ stmt_uses (variables_seen variables.now) stmt.now) }
    {
        match &stmt.form {
            StmtForm::Assert(x) => self.note_expr(alloc, variables, x),
            StmtForm::Assume(x) => self.note_expr(alloc, variables, x),
            StmtForm::Havoc(names) => self.note_names(variables, names),
            StmtForm::Assign(targets, values) => {
                self.note_targets(alloc, variables, targets)?;
                self.note_exprs(alloc, variables, values)
            }
            StmtForm::Call(targets, callee, arguments) => {
                self.note_names(variables, targets)?;
                self.note(variables, callee.text.as_bytes())?;
                self.note_exprs(alloc, variables, arguments)
            }
            StmtForm::If(branches, last) => self.note_if(alloc, variables, branches, last),
            StmtForm::While(guard, invariants, body) => {
                self.note_guard(alloc, variables, guard)?;
                self.note_invariants(alloc, variables, invariants)?;
                self.note_stmts(alloc, variables, body)
            }
            StmtForm::Break(_) => Ok(()),
            StmtForm::Return => Ok(()),
            StmtForm::Goto(_) => Ok(()),
        }
    }

    /// Finds the names in statements.
    #[cycle(stmts)]
    pub(crate) fn note_stmts(
        &mut self,
        alloc: Global,
        variables: &Variables<'_, 'a>,
        stmts: &'a [Stmt],
    ) -> Result<(), AllocError>
        ensures { OnOk result (texts_seen self.new.names.items ≡ texts_seen self.old.names.items ++ stmts_uses (variables_seen variables.now) (stmts_of stmts.now)) }
    {
        for stmt in stmts {
            self.note_stmt(alloc, variables, stmt)?;
        }
        Ok(())
    }

    #[cycle(stmts)]
    #[tactic(auto, using(bpl_ast::specs::StmtFalls::last_counts))]
    fn note_if(
        &mut self,
        alloc: Global,
        variables: &Variables<'_, 'a>,
        branches: &'a [Branch],
        last: &'a Option<Vec<Stmt>>,
    ) -> Result<(), AllocError>
        ensures { OnOk result (texts_seen self.new.names.items ≡ texts_seen self.old.names.items ++ branches_uses (variables_seen variables.now) (branches_of branches.now (last_of last.now))) }
    {
        self.note_branches(alloc, variables, branches)?;
        self.note_last(alloc, variables, last)?;
        Ok(())
    }

    #[cycle(stmts)]
    fn note_branches(
        &mut self,
        alloc: Global,
        variables: &Variables<'_, 'a>,
        branches: &'a [Branch],
    ) -> Result<(), AllocError>
        ensures { OnOk result (texts_seen self.new.names.items ≡ texts_seen self.old.names.items ++ branches_uses (variables_seen variables.now) (branches_of branches.now no_branch)) }
    {
        for branch in branches {
            self.note_guard(alloc, variables, &branch.guard)?;
            self.note_stmts(alloc, variables, &branch.body)?;
        }
        Ok(())
    }

    #[cycle(stmts)]
    fn note_last(
        &mut self,
        alloc: Global,
        variables: &Variables<'_, 'a>,
        last: &'a Option<Vec<Stmt>>,
    ) -> Result<(), AllocError>
        ensures { OnOk result (texts_seen self.new.names.items ≡ texts_seen self.old.names.items ++ branches_uses (variables_seen variables.now) (last_of last.now)) }
    {
        match last {
            Some(stmts) => self.note_stmts(alloc, variables, stmts),
            None => Ok(()),
        }
    }
}
