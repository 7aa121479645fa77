// The clauses of contracts.
ghost use Rattle.std.specs.Prelude.{◌≡◌};
ghost use Rattle.bpl_model.specs.SpecView.{spec_of};

use bv_base::place::Place;
use logic_core::Formula;
use std::marker::Model;

/// A clause of a contract.
pub struct Spec {
    pub form: SpecForm,
}

// Written out: a derived drop is proved again wherever a value is dropped.
impl Drop for Spec {
    fn drop(self) {
        let Spec { form } = self;
        drop(form);
    }
}

/// The forms of clauses. The truth value says whether the clause is free: only assumed, and never
/// checked.
#[derive(Drop)]
pub enum SpecForm {
    /// What holds where the procedure is called.
    Requires(bool, Place, Formula),
    /// What holds where it ends.
    Ensures(bool, Place, Formula),
    /// The numbers of globals that it may change.
    Modifies(Vec<u64>),
}

impl Model for Spec {
    ghost use Rattle.bpl_model.specs.Module.{Spec as clause};
    ghost use Rattle.bpl_model.specs.Codes.{coded_spec};

    ghost Value = { clause };

    ghost coded = { coded_spec };

    ghost use Rattle.bpl_model.specs.SpecView.{spec_of};

    ghost view = { λ a. spec_of a.form };
}

impl Spec {
    /// The clause of this form.
    pub fn new(form: SpecForm) -> Spec
        ensures { result ≡ spec_of form }
    {
        Spec { form }
    }
}
