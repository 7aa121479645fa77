// Definitions, and signatures, over which terms stand.
ghost use Rattle.std.specs.Prelude.{◌≡◌, [], ◌∷◌, ◌++◌, IsTrue, IfOk, OnOk, OnErr};
ghost use Rattle.logic_terms.specs.Sorts.{bodies_sorted};

use crate::copy::copy_sorts;
use crate::sequence::Sequence;
use crate::sort::Sort;
use crate::term::Term;
use std::alloc::{AllocError, Global};
use std::marker::Model;

/// A definition, whose applications stand for its body.
pub struct Def {
    /// The sorts of the parameters.
    pub params: Sequence<Sort>,
    /// The sort of its applications.
    pub sort: Sort,
    /// Whether the body has a quantifier or applies a logical definition.
    pub logical: bool,
    /// The body, in which `Bound(0)` is the last parameter.
    pub body: Term,
}

// Written out, as a term's.
impl Drop for Def {
    fn drop(self) {
        let Def {
            params,
            sort,
            logical: _,
            body,
        } = self;
        drop(params);
        drop(sort);
        drop(body);
    }
}

impl Model for Def {
    ghost use Rattle.logic_terms.specs.Def.{Def as definition};
    ghost use Rattle.logic_core.specs.DefCodes.{coded_def};

    ghost Value = { definition };

    ghost coded = { coded_def };

    ghost view = { λ a. record { params = a.params; sort = a.sort; logical = a.logical; body = a.body } };
}

impl Def {
    /// An equal definition.
    pub fn copy(&self, alloc: Global) -> Result<Def, AllocError>
        ensures { IfOk result (λ d. d ≡ self.now) }
    {
        Ok(Def {
            params: Sequence::of(copy_sorts(alloc, self.params.as_slice())?),
            sort: self.sort.copy(alloc)?,
            logical: self.logical,
            body: self.body.copy(alloc)?,
        })
    }
}

/// The sorts of the variables, by number, and the definitions, by number. Each body is well
/// sorted under its parameters, has its definition's sort, and applies definitions of lower
/// numbers alone.
pub struct Signature {
    vars: Sequence<Sort>,
    defs: Sequence<Def>,
}

// Written out, as a term's.
impl Drop for Signature {
    fn drop(self) {
        let Signature { vars, defs } = self;
        drop(vars);
        drop(defs);
    }
}

impl Model for Signature {
    ghost use Rattle.std.specs.Prelude.{[], IsTrue};
    ghost use Rattle.logic_terms.specs.Def.{Signature as signature};
    ghost use Rattle.logic_core.specs.DefCodes.{coded_signature};

    ghost Value = { signature };

    ghost coded = { coded_signature };

    ghost use Rattle.logic_terms.specs.Sorts.{bodies_sorted};

    ghost view = { λ a. record { vars = a.vars; defs = a.defs } };

    ghost invariant = { λ a. IsTrue (bodies_sorted a.vars [] a.defs) };
}

impl Signature {
    /// The signature of these variables and definitions.
    pub fn new(vars: Sequence<Sort>, defs: Sequence<Def>) -> Signature
        requires { IsTrue (bodies_sorted vars [] defs) }
        ensures { result ≡ record { vars = vars; defs = defs } }
    {
        Signature { vars, defs }
    }

    /// The sorts of the variables.
    pub fn vars(&self) -> &[Sort]
        ensures { result.now ≡ self.now.vars }
    {
        self.vars.as_slice()
    }

    /// The definitions.
    pub fn defs(&self) -> &[Def]
        ensures { result.now ≡ self.now.defs }
    {
        self.defs.as_slice()
    }

    /// An equal signature.
    pub fn copy(&self, alloc: Global) -> Result<Signature, AllocError>
        ensures { IfOk result (λ s. s ≡ self.now) }
    {
        let vars = copy_sorts(alloc, self.vars.as_slice())?;
        let defs = copy_defs(alloc, self.defs.as_slice())?;
        Ok(Signature {
            vars: Sequence::of(vars),
            defs: Sequence::of(defs),
        })
    }
}

/// Equal definitions.
pub fn copy_defs(alloc: Global, defs: &[Def]) -> Result<Vec<Def>, AllocError>
    ensures { IfOk result (λ v. v.items ≡ defs.now) }
{
    let mut copies = Vec::new(alloc);
    for def in defs {
        copies.push(def.copy(alloc)?)?;
    }
    Ok(copies)
}
