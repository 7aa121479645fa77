// Facts: formulas in which the parts of each sum fall strictly, as they do in normal forms.
ghost use Rattle.std.specs.Prelude.{◌≡◌, [], IfOk};
ghost use Rattle.logic_core.specs.Gives.{Gives};
ghost use Rattle.logic_core.specs.Normal.{normal};
ghost use Rattle.linear_certs.specs.FallingLaws.{EachSumFalls};

use logic_core::def::Def;
use logic_core::fault::NormalFault;
use logic_core::normal::normal_over;
use logic_core::sort::Sort;
use logic_core::term::Term;
use std::alloc::{AllocError, Global};
use std::marker::Model;

/// A formula, as facts stand in a context: in each of its sums no coefficient is zero, and each atom is
/// greater than the next.
pub struct Fact {
    term: Term,
}

// Written out: a derived drop is proved again wherever a fact is dropped.
impl Drop for Fact {
    fn drop(self) {
        let Fact { term } = self;
        drop(term);
    }
}

impl Model for Fact {
    ghost use Rattle.logic_core.specs.Tree.{Tree};
    ghost use Rattle.logic_core.specs.Codes.{coded_tree};

    ghost Value = { Tree };

    ghost coded = { coded_tree };

    ghost use Rattle.linear_certs.specs.FallingLaws.{EachSumFalls};

    ghost view = { λ a. a.term };

    ghost invariant = { λ a. EachSumFalls a.term };
}

impl Fact {
    /// This formula, in which the parts of each sum fall.
    pub fn new(term: Term) -> Fact
        requires { EachSumFalls term }
        ensures { result ≡ term }
    {
        Fact { term }
    }

    /// The normal form of a formula over these variables and definitions. Wide exactly where making
    /// it leaves 128 bits.
    pub fn normal(alloc: Global, t: &Term, vars: &[Sort], defs: &[Def]) -> Result<Fact, NormalFault>
        ensures { Gives result (normal vars.now defs.now [] t.now) }
    {
        let term = normal_over(alloc, t, vars, defs)?;
        Ok(Fact { term })
    }

    /// The formula.
    pub fn term(&self) -> &Term
        ensures value { result.now ≡ self.now }
        ensures falls { EachSumFalls self.now }
    {
        &self.term
    }

    /// An equal fact.
    pub fn copy(&self, alloc: Global) -> Result<Fact, AllocError>
        ensures { IfOk result (λ f. f ≡ self.now) }
    {
        let term = self.term.copy(alloc)?;
        Ok(Fact { term })
    }
}
