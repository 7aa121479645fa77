// Whether statements are typed.
ghost use Rattle.std.specs.Prelude.{◌≡◌, ◌&&◌, true, IfOk, bytes_eq, map, slice_get};
ghost use Rattle.std.specs.List.{list_all, list_any};
ghost use Rattle.bpl_model.specs.Module.{is_scope};
ghost use Rattle.bpl_model.specs.StmtView.{stmts_of, body_of};
ghost use Rattle.bpl_model.specs.TypedTest.{labels_within, are_targets, is_formula, is_formula_or_none, fits, is_call_of, is_typed, are_typed, is_body};

use crate::terms::{all_fit, are_targets, is_call_of, is_formula, is_formula_or_none, targets_of};
use bpl_model::name::copy_names;
use bpl_model::{Invariant, Name, Proc, Stmt, StmtForm, Variables};
use logic_core::{Def, Formula, Sort, Term};
use std::alloc::{AllocError, Global};

// Whether a break may leave the statement by a label: it is an if or a while, behind whatever labels.
fn is_scope(stmt: &Stmt) -> bool
    ensures { result ≡ is_scope stmt.now }
{
    match &stmt.form {
        StmtForm::If(..) | StmtForm::While(..) => true,
        StmtForm::Labelled(_, behind) => is_scope(behind),
        _ => false,
    }
}

// The labels by which a break in the statement may leave one: its own where it is an if or a while,
// and those around it.
fn labels_within(
    alloc: Global,
    own: &[Name],
    around: &[Name],
    stmt: &Stmt,
) -> Result<Vec<Name>, AllocError>
    ensures { IfOk result (λ v. v.items ≡ labels_within own.now around.now stmt.now) }
{
    if !is_scope(stmt) {
        return copy_names(alloc, around);
    }
    let mut labels = copy_names(alloc, own)?;
    for label in around {
        labels.push(label.copy(alloc)?)?;
    }
    Ok(labels)
}

fn are_invariants(
    alloc: Global,
    defs: &[Def],
    vars: &[Sort],
    invariants: &[Invariant],
) -> Result<bool, AllocError>
    ensures { IfOk result (λ h. h ≡ list_all (λ i. is_formula defs.now vars.now i.formula) invariants.now) }
{
    for found in invariants {
        if !is_formula(alloc, defs, vars, &found.formula)? {
            return Ok(false);
        }
    }
    Ok(true)
}

fn has_name(names: &[Name], name: &Name) -> bool
    ensures { result ≡ list_any (bytes_eq name.now) names.now }
{
    names.iter().any(|found| name.equals(found))
}

/// What statements are typed over: the module's definitions and procedures, and the variables of
/// the procedure that they stand in.
#[derive(Drop)]
pub struct Scope<'a> {
    pub defs: &'a [Def],
    pub procs: &'a [Proc],
    pub vars: &'a Variables,
}

impl<'a> Scope<'a> {
    /// Whether the statement is typed. `inside` says whether a loop stands around it, and `labels`
    /// are those of the ifs and whiles around it.
    #[cycle(typed)]
    fn is_typed(
        &self,
        alloc: Global,
        inside: bool,
        labels: &[Name],
        stmt: &Stmt,
    ) -> Result<bool, AllocError>
        ensures { IfOk result (λ h. h ≡ is_typed self.now.defs.now self.now.procs.now self.now.vars.now inside labels.now stmt.now) }
    {
        match &stmt.form {
            StmtForm::Assert(_, formula) | StmtForm::Assume(_, formula) => {
                is_formula(alloc, self.defs, self.vars.sorts.as_slice(), formula)
            }
            StmtForm::Havoc(_, targets) => Ok(are_targets(self.vars, targets)),
            StmtForm::Assign(_, pairs) => self.is_typed_assignment(alloc, pairs),
            StmtForm::Call(_, callee, arguments, targets) => {
                self.is_typed_call(alloc, *callee, arguments, targets)
            }
            StmtForm::If(_, _, guard, first, second) => {
                self.is_typed_if(alloc, inside, labels, guard, first, second)
            }
            StmtForm::While(_, guard, invariants, body) => {
                self.is_typed_while(alloc, labels, guard, invariants, body)
            }
            StmtForm::Break(_, None) => Ok(inside),
            StmtForm::Break(_, Some(label)) => Ok(has_name(labels, label)),
            StmtForm::Return(_) | StmtForm::Goto(..) => Ok(true),
            StmtForm::Labelled(own, behind) => {
                let within = labels_within(alloc, own, labels, behind)?;
                self.is_typed(alloc, inside, &within, behind)
            }
        }
    }

    // Whether the variables may be set all at once, and each term has the sort of its variable.
    fn is_typed_assignment(&self, alloc: Global, pairs: &[(u64, Term)]) -> Result<bool, AllocError>
        ensures { IfOk result (λ h. h ≡ (are_targets self.now.vars.now (map (λ a. a.0) pairs.now) && list_all (fits self.now.defs.now self.now.vars.now.sorts) pairs.now)) }
    {
        let sorts = self.vars.sorts.as_slice();
        Ok(
            are_targets(self.vars, &targets_of(alloc, pairs)?)
                && all_fit(alloc, self.defs, sorts, pairs)?,
        )
    }

    // Whether there is a procedure of that number, and it may be called so.
    fn is_typed_call(
        &self,
        alloc: Global,
        callee: u64,
        arguments: &[Term],
        targets: &[u64],
    ) -> Result<bool, AllocError>
        ensures { IfOk result (λ h. h ≡ (are_targets self.now.vars.now targets.now && is_call_of self.now.defs.now self.now.vars.now.sorts (slice_get self.now.procs.now callee) arguments.now targets.now)) }
    {
        let Some(callee) = self.procs.get(callee as usize) else {
            return Ok(false);
        };
        let sorts = self.vars.sorts.as_slice();
        Ok(
            are_targets(self.vars, targets)
                && is_call_of(alloc, self.defs, sorts, callee, arguments, targets)?,
        )
    }

    // Whether an if of these branches is typed.
    #[cycle(typed)]
    fn is_typed_if(
        &self,
        alloc: Global,
        inside: bool,
        labels: &[Name],
        guard: &Option<Formula>,
        first: &[Stmt],
        second: &[Stmt],
    ) -> Result<bool, AllocError>
        ensures { IfOk result (λ h. h ≡ (is_formula_or_none self.now.defs.now self.now.vars.now.sorts guard.now && (are_typed self.now.defs.now self.now.procs.now self.now.vars.now inside labels.now (stmts_of first.now) && are_typed self.now.defs.now self.now.procs.now self.now.vars.now inside labels.now (stmts_of second.now)))) }
    {
        let sorts = self.vars.sorts.as_slice();
        Ok(
            is_formula_or_none(alloc, self.defs, sorts, guard)?
                && self.are_typed(alloc, inside, labels, first)?
                && self.are_typed(alloc, inside, labels, second)?,
        )
    }

    // Whether a loop of this body is typed.
    #[cycle(typed)]
    fn is_typed_while(
        &self,
        alloc: Global,
        labels: &[Name],
        guard: &Option<Formula>,
        invariants: &[Invariant],
        body: &[Stmt],
    ) -> Result<bool, AllocError>
        ensures { IfOk result (λ h. h ≡ (is_formula_or_none self.now.defs.now self.now.vars.now.sorts guard.now && (list_all (λ i. is_formula self.now.defs.now self.now.vars.now.sorts i.formula) invariants.now && are_typed self.now.defs.now self.now.procs.now self.now.vars.now true labels.now (stmts_of body.now)))) }
    {
        let sorts = self.vars.sorts.as_slice();
        Ok(
            is_formula_or_none(alloc, self.defs, sorts, guard)?
                && are_invariants(alloc, self.defs, sorts, invariants)?
                && self.are_typed(alloc, true, labels, body)?,
        )
    }

    #[cycle(typed)]
    fn are_typed(
        &self,
        alloc: Global,
        inside: bool,
        labels: &[Name],
        stmts: &[Stmt],
    ) -> Result<bool, AllocError>
        ensures { IfOk result (λ h. h ≡ are_typed self.now.defs.now self.now.procs.now self.now.vars.now inside labels.now (stmts_of stmts.now)) }
    {
        for stmt in stmts {
            if !self.is_typed(alloc, inside, labels, stmt)? {
                return Ok(false);
            }
        }
        Ok(true)
    }

    /// Whether the statements of the body, where there is one, are typed.
    pub fn is_body(&self, alloc: Global, body: &Option<Vec<Stmt>>) -> Result<bool, AllocError>
        ensures { IfOk result (λ h. h ≡ is_body self.now.defs.now self.now.procs.now self.now.vars.now (body_of body.now)) }
    {
        match body {
            Some(stmts) => self.are_typed(alloc, false, &[], stmts),
            None => Ok(true),
        }
    }
}
