// Copies of declarations and of clauses. Each is equal to what it copies.
ghost use Rattle.std.specs.Prelude.{◌≡◌, IfOk};

use crate::decl::{Const, Function, Global, Local};
use crate::spec::{Spec, SpecForm};
use logic_core::Formula;
use std::alloc;

/// An equal formula, or none.
pub fn copy_optional_formula(
    alloc: alloc::Global,
    formula: &Option<Formula>,
) -> Result<Option<Formula>, alloc::AllocError>
    ensures { IfOk result (λ f. f ≡ formula.now) }
{
    match formula {
        Some(formula) => Ok(Some(formula.copy(alloc)?)),
        None => Ok(None),
    }
}

impl Const {
    /// An equal constant.
    pub fn copy(&self, alloc: alloc::Global) -> Result<Const, alloc::AllocError>
        ensures { IfOk result (λ c. c ≡ self.now) }
    {
        Ok(Const {
            name: self.name.copy(alloc)?,
            sort: self.sort.copy(alloc)?,
        })
    }
}

impl Function {
    /// An equal function.
    pub fn copy(&self, alloc: alloc::Global) -> Result<Function, alloc::AllocError>
        ensures { IfOk result (λ f. f ≡ self.now) }
    {
        Ok(Function {
            name: self.name.copy(alloc)?,
            def: self.def.copy(alloc)?,
        })
    }
}

impl Global {
    /// An equal global.
    pub fn copy(&self, alloc: alloc::Global) -> Result<Global, alloc::AllocError>
        ensures { IfOk result (λ g. g ≡ self.now) }
    {
        Ok(Global {
            name: self.name.copy(alloc)?,
            sort: self.sort.copy(alloc)?,
            clause: copy_optional_formula(alloc, &self.clause)?,
        })
    }
}

impl Local {
    /// An equal variable.
    pub fn copy(&self, alloc: alloc::Global) -> Result<Local, alloc::AllocError>
        ensures { IfOk result (λ l. l ≡ self.now) }
    {
        Ok(Local {
            name: self.name.copy(alloc)?,
            sort: self.sort.copy(alloc)?,
            own: self.own,
            clause: copy_optional_formula(alloc, &self.clause)?,
        })
    }
}

/// Equal variables.
pub fn copy_locals(alloc: alloc::Global, locals: &[Local]) -> Result<Vec<Local>, alloc::AllocError>
    ensures { IfOk result (λ v. v.items ≡ locals.now) }
{
    let mut copies = Vec::new(alloc);
    for local in locals {
        copies.push(local.copy(alloc)?)?;
    }
    Ok(copies)
}

impl Spec {
    /// An equal clause.
    pub fn copy(&self, alloc: alloc::Global) -> Result<Spec, alloc::AllocError>
        ensures { IfOk result (λ s. s ≡ self.now) }
    {
        match &self.form {
            SpecForm::Requires(free, place, formula) => Ok(Spec::new(SpecForm::Requires(
                *free,
                *place,
                formula.copy(alloc)?,
            ))),
            SpecForm::Ensures(free, place, formula) => Ok(Spec::new(SpecForm::Ensures(
                *free,
                *place,
                formula.copy(alloc)?,
            ))),
            SpecForm::Modifies(globals) => Ok(Spec::new(SpecForm::Modifies(Vec::from_slice(
                alloc, globals,
            )?))),
        }
    }
}

/// Equal clauses.
pub fn copy_specs(alloc: alloc::Global, specs: &[Spec]) -> Result<Vec<Spec>, alloc::AllocError>
    ensures { IfOk result (λ v. v.items ≡ specs.now) }
{
    let mut copies = Vec::new(alloc);
    for spec in specs {
        copies.push(spec.copy(alloc)?)?;
    }
    Ok(copies)
}
