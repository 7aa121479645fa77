// Whether procedures are typed.
ghost use Rattle.std.specs.Prelude.{◌≡◌, take, IfOk};
ghost use Rattle.std.specs.List.{list_all, list_any};
ghost use Rattle.logic_core.specs.Variables.{variables};
ghost use Rattle.bpl_model.specs.TypedTest.{between, is_old, is_only_later, is_spec, is_clause, are_declared, is_typed_proc};

use crate::statements::Scope;
use crate::terms::{all_between, between, is_formula};
use bpl_model::{Local, Proc, Spec, SpecForm, Variables};
use logic_core::mention::Mentioned;
use logic_core::{Formula, Sort, Term};
use std::alloc::{AllocError, Global};

// The variables that the term names.
fn variables(alloc: Global, term: &Term) -> Result<Vec<u64>, AllocError>
    ensures { IfOk result (λ v. v.items ≡ variables term.now) }
{
    let mut mentioned = Mentioned::nothing(alloc);
    mentioned.add_term(term)?;
    Ok(mentioned.variables)
}

// As many of the sorts, from the first on, or all of them.
fn first_of(sorts: &[Sort], count: u64) -> &[Sort]
    ensures { result.now ≡ take count sorts.now }
{
    &sorts[..sorts.len().min(count as usize)]
}

// Whether one of them is an entry value.
fn has_old(vars: &Variables, numbers: &[u64]) -> bool
    ensures { result ≡ list_any (is_old vars.now) numbers.now }
{
    numbers
        .iter()
        .any(|number| between(vars.first_entry, vars.first_in, *number))
}

// Whether one of them is an entry value or an out.
fn has_later(vars: &Variables, numbers: &[u64]) -> bool
    ensures { result ≡ list_any (is_only_later vars.now) numbers.now }
{
    numbers.iter().any(|number| {
        between(vars.first_entry, vars.first_in, *number) || vars.first_out <= *number
    })
}

impl<'a> Scope<'a> {
    /// Whether the procedure is typed.
    pub fn is_typed_proc(&self, alloc: Global, proc: &Proc) -> Result<bool, AllocError>
        ensures { IfOk result (λ h. h ≡ is_typed_proc self.now.defs.now self.now.procs.now self.now.vars.now proc.now) }
    {
        let vars = self.vars;
        Ok(
            self.are_declared(alloc, vars.first_out, &proc.ins)?
                && self.are_declared(alloc, vars.first_local, &proc.outs)?
                && self.are_declared(alloc, vars.sorts.len() as u64, &proc.locals)?
                && self.are_specs(alloc, &proc.specs)?
                && self.is_body(alloc, &proc.body)?,
        )
    }

    // Whether none stands for a replaced call, and the clause of each reads only the first of the
    // variables, and no entry value.
    fn are_declared(&self, alloc: Global, first: u64, locals: &[Local]) -> Result<bool, AllocError>
        ensures { IfOk result (λ h. h ≡ are_declared self.now.defs.now self.now.vars.now first locals.now) }
    {
        for local in locals {
            if local.own || !self.is_clause(alloc, first, &local.clause)? {
                return Ok(false);
            }
        }
        Ok(true)
    }

    fn is_clause(
        &self,
        alloc: Global,
        first: u64,
        clause: &Option<Formula>,
    ) -> Result<bool, AllocError>
        ensures { IfOk result (λ h. h ≡ is_clause self.now.defs.now self.now.vars.now first clause.now) }
    {
        let Some(formula) = clause else {
            return Ok(true);
        };
        let sorts = first_of(self.vars.sorts.as_slice(), first);
        Ok(
            is_formula(alloc, self.defs, sorts, formula)?
                && !has_old(self.vars, &variables(alloc, formula)?),
        )
    }

    fn are_specs(&self, alloc: Global, specs: &[Spec]) -> Result<bool, AllocError>
        ensures { IfOk result (λ h. h ≡ list_all (is_spec self.now.defs.now self.now.vars.now) specs.now) }
    {
        for spec in specs {
            if !self.is_spec(alloc, spec)? {
                return Ok(false);
            }
        }
        Ok(true)
    }

    fn is_spec(&self, alloc: Global, spec: &Spec) -> Result<bool, AllocError>
        ensures { IfOk result (λ h. h ≡ is_spec self.now.defs.now self.now.vars.now spec.now) }
    {
        let vars = self.vars;
        let sorts = first_of(vars.sorts.as_slice(), vars.first_local);
        match &spec.form {
            SpecForm::Requires(_, _, formula) => Ok(
                is_formula(alloc, self.defs, sorts, formula)?
                    && !has_later(vars, &variables(alloc, formula)?),
            ),
            SpecForm::Ensures(_, _, formula) => is_formula(alloc, self.defs, sorts, formula),
            SpecForm::Modifies(globals) => {
                Ok(all_between(vars.first_global, vars.first_entry, globals))
            }
        }
    }
}
