// What is kept of a program.
ghost use Rattle.std.specs.Prelude.{◌≡◌, []};
ghost use Rattle.vc_rebuild.specs.Inside.{AreBuilt};

use crate::kept::BuiltProc;
use logic_core::Sequence;
use std::alloc::Global;
use std::marker::Model;

/// The goals and dependency texts of a program without faults, of each procedure with a body in order;
/// of no program at first.
#[derive(Drop)]
pub struct Built {
    procs: Sequence<BuiltProc>,
    rebuilt: u64,
    // in which goals that are built are asked for
    turns: u64,
}

/// What is built of a program after an edit, and the place of the one procedure that is another one than
/// before, where no other one is and this is known.
#[derive(Drop)]
pub struct Rebuilt {
    pub built: Built,
    pub place: Option<usize>,
}

impl Model for Built {
    ghost use Rattle.vc_rebuild.specs.Kept.{Program};
    ghost use Rattle.vc_rebuild.specs.Inside.{AreBuilt};
    ghost use Rattle.vc_rebuild.specs.Codes.{coded_program};

    ghost Value = { Program };

    ghost coded = { coded_program };

    ghost view = { λ a. record { procs = a.procs; rebuilt = a.rebuilt } };

    ghost invariant = { λ a. AreBuilt a.procs };
}

impl Built {
    /// Of no program.
    pub fn empty(alloc: Global) -> Built
        ensures { result ≡ record { procs = []; rebuilt = 0 } }
    {
        Built::asking(alloc, 0)
    }

    /// Of no program. The questions that are made with goals from now on ask for proofs in so many
    /// turns.
    #[tactic(auto, using(crate::proofs::Programs::none_built))]
    pub fn asking(alloc: Global, turns: u64) -> Built
        ensures { result ≡ record { procs = []; rebuilt = 0 } }
    {
        Built {
            procs: Sequence::new(alloc),
            rebuilt: 0,
            turns,
        }
    }

    /// These procedures, of which so many were built, and go on with as many turns.
    pub(crate) fn with_procs(&self, procs: Sequence<BuiltProc>, rebuilt: u64) -> Built
        requires { AreBuilt procs }
        ensures { result ≡ record { procs = procs; rebuilt = rebuilt } }
    {
        Built {
            procs,
            rebuilt,
            turns: self.turns,
        }
    }

    /// In how many turns goals are asked for that are built.
    pub(crate) fn turns(&self) -> u64 {
        self.turns
    }

    /// The procedures with a body, in order.
    pub fn procs(&self) -> &[BuiltProc]
        ensures { result.now ≡ self.now.procs }
    {
        self.procs.as_slice()
    }

    /// What is known of all that is kept: it is of some program without faults.
    pub(crate) fn is_built(&self)
        ensures { AreBuilt self.now.procs }
    {
        let _procs = &self.procs;
    }

    /// How many procedures have a dependency text that stood in no procedure before.
    pub fn rebuilt(&self) -> u64
        ensures { result ≡ self.now.rebuilt }
    {
        self.rebuilt
    }
}
