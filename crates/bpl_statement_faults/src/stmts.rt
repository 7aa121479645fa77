// The faults of statements, in one walk over a body.
ghost use Rattle.std.specs.Prelude.{◌≡◌, ◌++◌, true, OnOk, flat_map, option_map};
ghost use Rattle.bpl_ast.specs.ExprView.{exprs_of};
ghost use Rattle.bpl_ast.specs.Statement.{no_branch};
ghost use Rattle.bpl_ast.specs.StmtView.{stmts_of, branches_of, last_of};
ghost use Rattle.bpl_scopes.specs.Fault.{earlier, first_fault};
ghost use Rattle.bpl_scopes.specs.Scopes.{texts_of};
ghost use Rattle.bpl_faults.specs.ExprFaults.{formula_faults};
ghost use Rattle.bpl_faults.specs.ScopeView.{scope_seen};
ghost use Rattle.bpl_statement_faults.specs.BodyView.{body_seen, position_seen};
ghost use Rattle.bpl_statement_faults.specs.StmtFaults.{stmts_faults, stmt_faults, branches_faults, assignment_faults, guard_faults, label_faults, may_break, body_stmts_faults};

use crate::body::{BodyScope, Labels};
use crate::label_stack::LabelStack;
use crate::labels::{note_many, push_labels};
use crate::names::positions_of;
use crate::targets::{borrowed, note_count, sides, target_names};
use bpl_ast::{Branch, Expr, Invariant, Name, Stmt, StmtForm, Target};
use bpl_faults::Scope;
use bpl_faults::listed::note_again;
use bpl_scopes::{Faults, Positions, Shape, TypeKind};
use std::alloc::{AllocError, Global};

// Whether `break` may stand there.
fn may_break(in_loop: bool, labels: &Labels, label: &Option<Name>) -> bool
    ensures { result ≡ may_break (position_seen in_loop labels.now) label.now }
{
    match label {
        Some(label) => labels.around.contains(label.text.as_bytes()),
        None => in_loop,
    }
}

impl<'b, 's, 'a> BodyScope<'b, 's, 'a> {
    fn note_formula(
        &self,
        alloc: Global,
        x: &'a Expr,
        faults: &mut Faults,
    ) -> Result<(), AllocError>
        ensures { OnOk result (faults.new.first ≡ earlier faults.old.first (first_fault (formula_faults (scope_seen self.now.scope.now) x.now))) }
    {
        self.scope
            .expr_as(alloc, true, Shape::boolean(), x, faults)?;
        Ok(())
    }

    fn note_guard(
        &self,
        alloc: Global,
        guard: &'a Option<Expr>,
        faults: &mut Faults,
    ) -> Result<(), AllocError>
        ensures { OnOk result (faults.new.first ≡ earlier faults.old.first (first_fault (guard_faults (scope_seen self.now.scope.now) guard.now))) }
    {
        match guard {
            Some(x) => {
                self.scope
                    .expr_as(alloc, false, Shape::boolean(), x, faults)?;
                Ok(())
            }
            None => Ok(()),
        }
    }

    fn note_invariants(
        &self,
        alloc: Global,
        invariants: &'a [Invariant],
        faults: &mut Faults,
    ) -> Result<(), AllocError>
        ensures { OnOk result (faults.new.first ≡ earlier faults.old.first (first_fault (flat_map (λ i. formula_faults (scope_seen self.now.scope.now) i.formula) invariants.now))) }
    {
        for found in invariants {
            self.note_formula(alloc, &found.formula, faults)?;
        }
        Ok(())
    }

    #[tactic(auto, using(bpl_scopes::proofs::FirstFault::joins))]
    fn note_assignment(
        &self,
        alloc: Global,
        targets: &'a [Target],
        values: &'a [Expr],
        faults: &mut Faults,
    ) -> Result<(), AllocError>
        ensures { OnOk result (faults.new.first ≡ earlier faults.old.first (first_fault (assignment_faults (body_seen self.now) targets.now (exprs_of values.now)))) }
    {
        note_count(faults, targets, values);
        self.note_targets(alloc, &target_names(alloc, targets)?, faults)?;
        let sorts = sides(self.scope, alloc, targets, faults)?;
        self.scope.arguments(alloc, &sorts, values, faults)?;
        Ok(())
    }

    fn note_label(&self, in_loop: bool, labels: &Labels<'a>, label: &Name, faults: &mut Faults)
        ensures { faults.new.first ≡ earlier faults.old.first (first_fault (label_faults (body_seen self.now) (position_seen in_loop labels.now) label.now)) }
    {
        let text = label.text.as_bytes();
        if self.labels.contains(text) {
            faults.note_unless(labels.ahead.contains(text), TypeKind::GotoHere, label.at);
        } else {
            faults.note(TypeKind::Unknown, label.at);
        }
    }

    fn note_goto(&self, in_loop: bool, labels: &Labels<'a>, named: &[Name], faults: &mut Faults)
        ensures { faults.new.first ≡ earlier faults.old.first (first_fault (flat_map (label_faults (body_seen self.now) (position_seen in_loop labels.now)) named.now)) }
    {
        for label in named {
            self.note_label(in_loop, labels, label, faults);
        }
    }

    // Finds the faults of the statements of a list, around which and behind which these labels
    // stand.
    #[cycle(stmts)]
    #[tactic(auto, using(bpl_scopes::proofs::FirstFault::joins))]
    fn note_stmts(
        &self,
        alloc: Global,
        in_loop: bool,
        labels: &mut Labels<'a>,
        stmts: &'a [Stmt],
        faults: &mut Faults,
    ) -> Result<(), AllocError>
        ensures faults { OnOk result (faults.new.first ≡ earlier faults.old.first (first_fault (stmts_faults (body_seen self.now) (position_seen in_loop labels.old) (stmts_of stmts.now)))) }
        ensures around { OnOk result (labels.new.around ≡ labels.old.around) }
        ensures ahead { OnOk result (labels.new.ahead ≡ labels.old.ahead) }
    {
        labels.ahead.push_list(stmts)?;
        for stmt in stmts {
            labels.ahead.pass(stmt)?;
            self.note_stmt(alloc, in_loop, labels, stmt, faults)?;
        }
        Ok(())
    }

    #[cycle(stmts)]
    #[tactic(auto, using(bpl_scopes::proofs::FirstFault::joins))]
    fn note_stmt(
        &self,
        alloc: Global,
        in_loop: bool,
        labels: &mut Labels<'a>,
        stmt: &'a Stmt,
        faults: &mut Faults,
    ) -> Result<(), AllocError>
        ensures faults { OnOk result (faults.new.first ≡ earlier faults.old.first (first_fault (stmt_faults (body_seen self.now) (position_seen in_loop labels.old) stmt.now))) }
        ensures around { OnOk result (labels.new.around ≡ labels.old.around) }
        ensures ahead { OnOk result (labels.new.ahead ≡ labels.old.ahead) }
    {
        match &stmt.form {
            StmtForm::Assert(x) => self.note_formula(alloc, x, faults),
            StmtForm::Assume(x) => self.note_formula(alloc, x, faults),
            StmtForm::Havoc(names) => self.note_targets(alloc, &borrowed(alloc, names)?, faults),
            StmtForm::Assign(targets, values) => self.note_assignment(
                alloc, targets, values, faults,
            ),
            StmtForm::Call(outs, name, arguments) => {
                self.note_call(alloc, outs, name, arguments, faults)
            }
            StmtForm::If(branches, last) => {
                self.note_if(alloc, in_loop, labels, &stmt.labels, branches, last, faults)
            }
            StmtForm::While(guard, invariants, body) => {
                self.note_while(alloc, labels, &stmt.labels, guard, invariants, body, faults)
            }
            StmtForm::Break(label) => {
                faults.note_unless(
                    may_break(in_loop, labels, label),
                    TypeKind::BreakHere,
                    stmt.at,
                );
                Ok(())
            }
            StmtForm::Return => Ok(()),
            StmtForm::Goto(named) => {
                self.note_goto(in_loop, labels, named, faults);
                Ok(())
            }
        }
    }

    // Finds the faults of a chain of `else if`, whose `if` has these labels of its own.
    #[cycle(stmts)]
    #[tactic(auto, using(crate::proofs::StmtSteps::if_joined, crate::proofs::LabelSteps::texts_dropped, bpl_ast::specs::StmtFalls::last_counts))]
    fn note_if(
        &self,
        alloc: Global,
        in_loop: bool,
        labels: &mut Labels<'a>,
        own: &'a [Name],
        branches: &'a [Branch],
        last: &'a Option<Vec<Stmt>>,
        faults: &mut Faults,
    ) -> Result<(), AllocError>
        ensures faults { OnOk result (faults.new.first ≡ earlier faults.old.first (first_fault (branches_faults (body_seen self.now) (record { in_loop = in_loop; around = texts_of own.now ++ labels.old.around; ahead = labels.old.ahead }) (branches_of branches.now (last_of last.now))))) }
        ensures around { OnOk result (labels.new.around ≡ labels.old.around) }
        ensures ahead { OnOk result (labels.new.ahead ≡ labels.old.ahead) }
    {
        labels.around.push_labels(own)?;
        self.note_branches(alloc, in_loop, labels, branches, faults)?;
        self.note_last(alloc, in_loop, labels, last, faults)?;
        labels.around.pop_many(own.len())
    }

    #[cycle(stmts)]
    #[tactic(auto, using(bpl_scopes::proofs::FirstFault::joins))]
    fn note_branches(
        &self,
        alloc: Global,
        in_loop: bool,
        labels: &mut Labels<'a>,
        branches: &'a [Branch],
        faults: &mut Faults,
    ) -> Result<(), AllocError>
        ensures faults { OnOk result (faults.new.first ≡ earlier faults.old.first (first_fault (branches_faults (body_seen self.now) (position_seen in_loop labels.old) (branches_of branches.now no_branch)))) }
        ensures around { OnOk result (labels.new.around ≡ labels.old.around) }
        ensures ahead { OnOk result (labels.new.ahead ≡ labels.old.ahead) }
    {
        for branch in branches {
            self.note_guard(alloc, &branch.guard, faults)?;
            self.note_stmts(alloc, in_loop, labels, &branch.body, faults)?;
        }
        Ok(())
    }

    #[cycle(stmts)]
    fn note_last(
        &self,
        alloc: Global,
        in_loop: bool,
        labels: &mut Labels<'a>,
        last: &'a Option<Vec<Stmt>>,
        faults: &mut Faults,
    ) -> Result<(), AllocError>
        ensures faults { OnOk result (faults.new.first ≡ earlier faults.old.first (first_fault (branches_faults (body_seen self.now) (position_seen in_loop labels.old) (last_of last.now)))) }
        ensures around { OnOk result (labels.new.around ≡ labels.old.around) }
        ensures ahead { OnOk result (labels.new.ahead ≡ labels.old.ahead) }
    {
        match last {
            Some(stmts) => self.note_stmts(alloc, in_loop, labels, stmts, faults),
            None => Ok(()),
        }
    }

    // Finds the faults of a loop that has these labels of its own.
    #[cycle(stmts)]
    fn note_while(
        &self,
        alloc: Global,
        labels: &mut Labels<'a>,
        own: &'a [Name],
        guard: &'a Option<Expr>,
        invariants: &'a [Invariant],
        body: &'a [Stmt],
        faults: &mut Faults,
    ) -> Result<(), AllocError>
        ensures faults { OnOk result (faults.new.first ≡ earlier faults.old.first (first_fault (guard_faults (scope_seen self.now.scope.now) guard.now ++ (flat_map (λ i. formula_faults (scope_seen self.now.scope.now) i.formula) invariants.now ++ stmts_faults (body_seen self.now) (record { in_loop = true; around = texts_of own.now ++ labels.old.around; ahead = labels.old.ahead }) (stmts_of body.now))))) }
        ensures around { OnOk result (labels.new.around ≡ labels.old.around) }
        ensures ahead { OnOk result (labels.new.ahead ≡ labels.old.ahead) }
    {
        self.note_guard(alloc, guard, faults)?;
        self.note_invariants(alloc, invariants, faults)?;
        self.note_loop_body(alloc, labels, own, body, faults)
    }

    // Finds the faults of the statements in a loop that has these labels of its own.
    #[cycle(stmts)]
    #[tactic(auto, using(crate::proofs::LabelSteps::texts_dropped))]
    fn note_loop_body(
        &self,
        alloc: Global,
        labels: &mut Labels<'a>,
        own: &'a [Name],
        body: &'a [Stmt],
        faults: &mut Faults,
    ) -> Result<(), AllocError>
        ensures faults { OnOk result (faults.new.first ≡ earlier faults.old.first (first_fault (stmts_faults (body_seen self.now) (record { in_loop = true; around = texts_of own.now ++ labels.old.around; ahead = labels.old.ahead }) (stmts_of body.now)))) }
        ensures around { OnOk result (labels.new.around ≡ labels.old.around) }
        ensures ahead { OnOk result (labels.new.ahead ≡ labels.old.ahead) }
    {
        labels.around.push_labels(own)?;
        self.note_stmts(alloc, true, labels, body, faults)?;
        labels.around.pop_many(own.len())
    }
}

/// Finds the faults of the statements of a body in this scope, of a procedure that modifies these
/// global variables, where it is one's: those of the statements themselves, labels that stand a
/// second time, and the 501st label that gotos name.
#[tactic(auto, using(bpl_scopes::proofs::FirstFault::joins))]
pub fn note_body_stmts<'a>(
    alloc: Global,
    scope: &Scope<'_, 'a>,
    modified: Option<&Positions<'a>>,
    stmts: &'a [Stmt],
    faults: &mut Faults,
) -> Result<(), AllocError>
    ensures { OnOk result (faults.new.first ≡ earlier faults.old.first (first_fault (body_stmts_faults (scope_seen scope.now) (option_map (λ m. m.now) modified.entry) (stmts_of stmts.now)))) }
{
    let mut names = Vec::new(alloc);
    push_labels(&mut names, stmts)?;
    note_again(alloc, TypeKind::Twice, &names, faults)?;
    note_many(alloc, &names, stmts, faults)?;
    let all = positions_of(alloc, &names)?;
    let body = BodyScope {
        scope,
        modified,
        labels: &all,
    };
    let mut labels = Labels {
        around: LabelStack::new(alloc),
        ahead: LabelStack::new(alloc),
    };
    body.note_stmts(alloc, false, &mut labels, stmts, faults)
}
