// The parameters and locals of a procedure.
ghost use Rattle.std.specs.Prelude.{◌≡◌, ◌++◌, [], ◌∷◌, map, OnOk, option_map};
ghost use Rattle.bpl_scopes.specs.Scopes.{var_of};
ghost use Rattle.bpl_faults.specs.VarsView.{var_seen, looked_var};

use bpl_scopes::{Positions, Role, Shape};
use std::alloc::{AllocError, Global};
use std::marker::Model;

/// A parameter or local. It has no sort where its type has a fault.
#[derive(Clone, Copy)]
pub struct Var<'a> {
    pub name: &'a [u8],
    pub role: Role,
    pub number: u64,
    pub sort: Option<Shape>,
}

/// Parameters and locals in order. Of several with one name the first counts.
pub struct Vars<'a> {
    names: Positions<'a>,
    vars: Vec<Var<'a>>,
}

// Written out: a derived drop is proved again wherever a value is dropped.
impl<'a> Drop for Vars<'a> {
    fn drop(self) {
        let Vars { names, vars } = self;
        drop(names);
        drop(vars);
    }
}

impl<'a> Model for Vars<'a> {
    ghost use Rattle.std.specs.Prelude.{List};
    ghost use Rattle.bpl_scopes.specs.Scopes.{Var as variable};
    ghost use Rattle.bpl_faults.specs.VarCodes.{coded_vars};

    ghost Value = { List variable };

    ghost coded = { coded_vars };

    ghost use Rattle.bpl_faults.specs.VarsView.{vars_seen, AreNamed};

    ghost view = { λ a. vars_seen a.vars.items };

    ghost invariant = { λ a. AreNamed a.names (vars_seen a.vars.items) };
}

// The variable at a position.
fn var_at<'a>(vars: &[Var<'a>], at: Option<usize>) -> Option<Var<'a>>
    ensures { option_map var_seen result ≡ looked_var vars.now at }
{
    match at {
        Some(at) => match vars.get(at) {
            Some(var) => Some(*var),
            None => None,
        },
        None => None,
    }
}

impl<'a> Vars<'a> {
    /// No variables.
    pub fn new(alloc: Global) -> Vars<'a>
        ensures { result ≡ [] }
    {
        Vars {
            names: Positions::new(alloc),
            vars: Vec::new(alloc),
        }
    }

    /// Their names.
    pub fn names(&self) -> &Positions<'a>
        ensures { result.now ≡ map (λ v. v.name) self.now }
    {
        &self.names
    }

    /// The first variable of that name.
    pub fn find(&self, name: &[u8]) -> Option<Var<'a>>
        ensures { option_map var_seen result ≡ var_of self.now name.now }
    {
        var_at(&self.vars, self.names.find(name))
    }

    /// Puts a variable behind the others.
    pub fn push(&mut self, var: Var<'a>) -> Result<(), AllocError>
        ensures { OnOk result (self.new ≡ self.old ++ var_seen var.entry ∷ []) }
    {
        self.vars.reserve(1)?;
        self.names.push(var.name)?;
        self.vars.push(var).unwrap();
        Ok(())
    }
}
