// Obligations.
ghost use Rattle.std.specs.Prelude.{◌≡◌, [], IsTrue, All};
ghost use Rattle.logic_core.specs.Sorts.{bodies_sorted};
ghost use Rattle.logic_core.specs.WellSorted.{IsFormula, IsWellSorted};
ghost use Rattle.obligation_text.specs.Numbering.{IsCanonical};

use logic_core::def::Signature;
use logic_core::sequence::Sequence;
use logic_core::term::Term;
use std::marker::Model;

/// What is to be proved: the goal, in every assignment of the signature's variables in which all
/// axioms hold. The axioms and the goal are closed, well-sorted formulas over the signature, and the
/// numbers are canonical: each definition is reached, each variable occurs, and both are numbered in
/// the order in which they are met.
pub struct Obligation {
    signature: Signature,
    axioms: Sequence<Term>,
    goal: Term,
}

// Written out: a derived drop is proved again wherever a value is dropped.
impl Drop for Obligation {
    fn drop(self) {
        let Obligation {
            signature,
            axioms,
            goal,
        } = self;
        drop(signature);
        drop(axioms);
        drop(goal);
    }
}

impl Model for Obligation {
    ghost use Rattle.logic_core.specs.Def.{Obligation as obligation};
    ghost use Rattle.obligation_text.specs.ObligationCodes.{coded_obligation};

    ghost Value = { obligation };

    ghost coded = { coded_obligation };

    ghost use Rattle.logic_core.specs.WellSorted.{IsWellSorted};
    ghost use Rattle.obligation_text.specs.Numbering.{IsCanonical};

    ghost view = { λ a. record { vars = a.signature.vars; defs = a.signature.defs; axioms = a.axioms; goal = a.goal } };

    ghost invariant = { λ a. IsWellSorted (record { vars = a.signature.vars; defs = a.signature.defs; axioms = a.axioms; goal = a.goal }) × IsCanonical (record { vars = a.signature.vars; defs = a.signature.defs; axioms = a.axioms; goal = a.goal }) };
}

impl Obligation {
    // The obligation to show the goal from the axioms, where its numbers are canonical already.
    pub(crate) fn new(signature: Signature, axioms: Sequence<Term>, goal: Term) -> Obligation
        requires bodies { IsTrue (bodies_sorted signature.vars [] signature.defs) }
        requires assumed { All (IsFormula signature.vars signature.defs) axioms }
        requires shown { IsFormula signature.vars signature.defs goal }
        requires numbered { IsCanonical (record { vars = signature.vars; defs = signature.defs; axioms = axioms; goal = goal }) }
        ensures { result ≡ record { vars = signature.vars; defs = signature.defs; axioms = axioms; goal = goal } }
    {
        Obligation {
            signature,
            axioms,
            goal,
        }
    }

    /// The sorts of the variables, and the definitions. The obligation is well sorted over them.
    pub fn signature(&self) -> &Signature
        ensures value { result.now ≡ record { vars = self.now.vars; defs = self.now.defs } }
        ensures sorted { IsWellSorted self.now }
    {
        &self.signature
    }

    /// The axioms, in order.
    pub fn axioms(&self) -> &[Term]
        ensures { result.now ≡ self.now.axioms }
    {
        self.axioms.as_slice()
    }

    /// The numbers of each obligation are canonical.
    pub fn numbers_are_canonical(&self)
        ensures { IsCanonical self.now }
    {
        let _ = &self.signature;
    }

    /// The goal.
    pub fn goal(&self) -> &Term
        ensures { result.now ≡ self.now.goal }
    {
        &self.goal
    }
}
