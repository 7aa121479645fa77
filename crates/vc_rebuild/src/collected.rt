// Procedures, as long as their goals exceed no limit.
ghost use Rattle.std.specs.Prelude.{◌≡◌, ◌∷◌, [], ◌++◌, true, None, OnOk, length, sum};
ghost use Rattle.logic_core.specs.Size.{capped};
ghost use Rattle.vc_build.specs.Large.{large, sizes_of};
ghost use Rattle.vc_rebuild.specs.Kept.{all_goals};
ghost use Rattle.vc_rebuild.specs.Within.{are_within};

use crate::kept::BuiltProc;
use crate::shared::KeptGoal;
use std::alloc::{AllocError, Global};
use std::marker::Model;
use vc_build::fault::{BYTE_LIMIT, COUNT_LIMIT};

// The bytes of the texts of the goals' obligations, or 2^64 - 1 where these are more.
#[tactic(auto, using(crate::proofs::WithinLimits::size_first))]
fn bytes_of(goals: &[KeptGoal]) -> u64
    ensures { result ≡ capped (sum (sizes_of goals.now)) }
{
    let mut bytes: u64 = 0;
    for goal in goals {
        bytes = bytes.saturating_add(goal.text_len() as u64);
    }
    bytes
}

// How many goals it has.
fn count_in(proc: &BuiltProc) -> u64
    ensures { result ≡ length proc.now.goals }
{
    proc.shared().len() as u64
}

// The bytes of the texts of its goals' obligations, or 2^64 - 1 where these are more.
fn bytes_in(proc: &BuiltProc) -> u64
    ensures { result ≡ capped (sum (sizes_of proc.now.goals)) }
{
    bytes_of(proc.shared())
}

/// Procedures whose goals together exceed no limit.
#[derive(Drop)]
pub struct Collected {
    procs: Vec<BuiltProc>,
    // how many goals they have
    count: u64,
    // of the texts of the goals' obligations
    bytes: u64,
}

impl Model for Collected {
    ghost use Rattle.std.specs.Prelude.{◌≡◌, ◌≤◌, List, length, sum};
    ghost use Rattle.std.specs.Coded.{coded_list};
    ghost use Rattle.vc_build.specs.Large.{count_limit, byte_limit, sizes_of};
    ghost use Rattle.vc_build.specs.Rebuild.{BuiltProc as built_proc};
    ghost use Rattle.vc_rebuild.specs.Codes.{coded_proc};
    ghost use Rattle.vc_rebuild.specs.Kept.{all_goals};

    ghost Value = { List built_proc };

    ghost coded = { coded_list coded_proc };

    ghost view = { λ a. a.procs.items };

    ghost invariant = { λ a. (a.count ≡ length (all_goals a.procs.items)) × (a.bytes ≡ sum (sizes_of (all_goals a.procs.items))) × (a.count ≤ count_limit) × (a.bytes ≤ byte_limit) };
}

impl Collected {
    /// No procedures.
    pub fn new(alloc: Global) -> Collected
        ensures { result ≡ [] }
    {
        Collected {
            procs: Vec::new(alloc),
            count: 0,
            bytes: 0,
        }
    }

    /// How many procedures there are.
    pub fn len(&self) -> usize
        ensures { result ≡ length self.now }
    {
        self.procs.len()
    }

    /// Whether no limit is exceeded with this procedure's goals behind.
    #[tactic(auto, using(crate::proofs::WithinLimits::room_for))]
    pub fn has_room(&self, proc: &BuiltProc) -> bool
        ensures { result ≡ are_within (all_goals self.now ++ proc.now.goals) }
    {
        count_in(proc) <= COUNT_LIMIT - self.count && bytes_in(proc) <= BYTE_LIMIT - self.bytes
    }

    /// One procedure more, for whose goals there is room.
    pub fn push(&mut self, proc: BuiltProc) -> Result<(), AllocError>
        requires { are_within (all_goals self.old ++ proc.goals) ≡ true }
        ensures { OnOk result (self.new ≡ self.old ++ proc ∷ []) }
    {
        let count = self.count.saturating_add(count_in(&proc));
        let bytes = self.bytes.saturating_add(bytes_in(&proc));
        self.procs.push(proc)?;
        self.count = count;
        self.bytes = bytes;
        Ok(())
    }

    /// The procedures, whose goals exceed no limit.
    pub fn into_procs(self) -> Vec<BuiltProc>
        ensures same { result.items ≡ self }
        ensures within { large (all_goals result.items) ≡ None }
    {
        self.procs
    }
}
