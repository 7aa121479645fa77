// Goals, within the limits on their number and on the bytes of their texts.
ghost use Rattle.std.specs.Prelude.{◌≡◌, ◌+◌, ◌^◌, ◌<◌, ◌≤◌, [], ◌∷◌, ◌++◌, None, IfErr, IfOk, IsErrOf, OnErr, OnOk, length};
ghost use Rattle.vc_build.specs.Large.{count_limit, byte_limit, large_after, large};
ghost use Rattle.vc_build.specs.Exceeds.{IsFaultBy, IsFaultOf};

use crate::fault::{BYTE_LIMIT, BuildFault, COUNT_LIMIT, Measure};
use crate::goal::Goal;
use logic_core::Sequence;
use obligation_text::printing::text;
use std::alloc::Global;
use std::marker::Model;

// The bytes with those of one goal more, where neither limit is exceeded at it.
fn bytes_within(count: u64, bytes: u64, size: u64) -> Result<u64, BuildFault>
    requires counted { count ≤ count_limit }
    requires summed { bytes ≤ byte_limit }
    requires small { size < 2 ^ 63 }
    ensures sum { IfOk result (λ b. b ≡ bytes + size) }
    ensures within { IfOk result (λ b. large_after count bytes (size ∷ []) ≡ None) }
    ensures room { IfOk result (λ b. (count < count_limit) × (b ≤ byte_limit)) }
    ensures fault { IfErr result (IsFaultBy (large_after count bytes (size ∷ []))) }
    ensures memory { ¬ IsErrOf result BuildFault.Memory }
{
    if count >= COUNT_LIMIT {
        return Err(BuildFault::Large {
            what: Measure::Count,
            number: count + 1,
        });
    }
    let bytes = bytes + size;
    if bytes > BYTE_LIMIT {
        return Err(BuildFault::Large {
            what: Measure::Bytes,
            number: bytes,
        });
    }
    Ok(bytes)
}

/// Goals that exceed no limit.
#[derive(Drop)]
pub struct Tally {
    goals: Vec<Goal>,
    // of the texts of the goals' obligations
    bytes: u64,
}

impl Model for Tally {
    ghost use Rattle.std.specs.Prelude.{◌≡◌, ◌≤◌, List, None, length, sum};
    ghost use Rattle.vc_build.specs.declared.goal.Goal.{Goal as goal_of};
    ghost use Rattle.vc_build.specs.Large.{count_limit, byte_limit, large, sizes_of};
    ghost use Rattle.vc_build.specs.contracts.goal.Goal as goal_row;
    ghost use Rattle.std.specs.Coded.{codes};

    ghost Value = { List goal_of };

    ghost coded = { Prim.hlevel (codes, goal_row.the_row.coded) };

    ghost view = { λ a. a.goals.items };

    ghost invariant = { λ a. (a.bytes ≡ sum (sizes_of a.goals.items)) × (large a.goals.items ≡ None) × (length a.goals.items ≤ count_limit) × (a.bytes ≤ byte_limit) };
}

impl Tally {
    /// No goals.
    pub fn new(alloc: Global) -> Tally
        ensures { result ≡ [] }
    {
        Tally {
            goals: Vec::new(alloc),
            bytes: 0,
        }
    }

    /// How many goals there are.
    pub fn len(&self) -> usize
        ensures { result ≡ length self.now }
    {
        self.goals.len()
    }

    /// One more goal, where it exceeds no limit; else the goals stay as they are.
    pub fn add(&mut self, alloc: Global, goal: Goal) -> Result<(), BuildFault>
        ensures added { OnOk result (self.new ≡ self.old ++ goal ∷ []) }
        ensures unchanged { OnErr result (self.new ≡ self.old) }
        ensures fault { IfErr result (IsFaultOf (self.old ++ goal ∷ [])) }
    {
        let text = text(alloc, &goal.obligation)?;
        let size = text.len() as u64;
        let bytes = bytes_within(self.goals.len() as u64, self.bytes, size)?;
        self.goals.push(goal)?;
        self.bytes = bytes;
        Ok(())
    }

    /// The goals, which exceed no limit.
    pub fn into_goals(self) -> Sequence<Goal>
        ensures same { result ≡ self }
        ensures within { large result ≡ None }
    {
        Sequence::of(self.goals)
    }
}
