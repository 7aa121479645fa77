// Positions that get marks.
ghost use Rattle.std.specs.Prelude.{◌≡◌, [], OnOk, IfOk, false, filter, length};
ghost use Rattle.std.specs.List.{range_with_len};
ghost use Rattle.bpl_model.specs.Marking.{is_marked, mark, mark_all, settled, unmarked};

use crate::number::rising;
use indexmap::IndexSet;
use std::alloc::{AllocError, Global};
use std::marker::Model;
use std::mem;

/// Whether each of so many positions has a mark, and which marks are new. The memory is that of the
/// marks alone.
pub struct Marking {
    count: u64,
    marked: IndexSet<u64>,
    fresh: Vec<u64>,
}

// Written out: a derived drop is proved again wherever a value is dropped.
impl Drop for Marking {
    fn drop(self) {
        let Marking {
            count: _,
            marked: _marked,
            fresh: _fresh,
        } = self;
    }
}

impl Model for Marking {
    ghost use Rattle.bpl_model.specs.Marking.{Marking as marking, marks_of};
    ghost use Rattle.std.specs.Coded.{codes};

    ghost Value = { marking };

    ghost coded = { Prim.hlevel codes };

    ghost view = { λ a. record { marks = marks_of a.count a.marked.keys; fresh = a.fresh.items } };
}

impl Marking {
    /// No marks at so many positions.
    #[tactic(auto, using(crate::proofs::MarksOf::none_are))]
    pub fn new(alloc: Global, count: usize) -> Marking
        ensures { result ≡ unmarked count }
    {
        Marking {
            count: count as u64,
            marked: IndexSet::new(alloc),
            fresh: Vec::new(alloc),
        }
    }

    /// Marks a position, if it is there and has no mark.
    pub fn mark(&mut self, position: u64) -> Result<(), AllocError>
        ensures { OnOk result (self.new ≡ mark self.old position) }
    {
        if position < self.count {
            if self.marked.insert(position)? {
                self.fresh.push(position)?;
            }
        }
        Ok(())
    }

    /// Marks positions, each as `mark` does.
    pub fn mark_all(&mut self, positions: &[u64]) -> Result<(), AllocError>
        ensures { OnOk result (self.new ≡ mark_all self.old positions.now) }
    {
        for position in positions {
            self.mark(*position)?;
        }
        Ok(())
    }

    /// Takes the new marks, which are new no more.
    pub fn take_fresh(&mut self, alloc: Global) -> Vec<u64>
        ensures taken { result.items ≡ self.old.fresh }
        ensures rest { self.new ≡ settled self.old }
    {
        mem::replace(&mut self.fresh, Vec::new(alloc))
    }

    /// The positions with marks, in rising order.
    pub fn positions(&self, alloc: Global) -> Result<Vec<u64>, AllocError>
        ensures { IfOk result (λ v. v.items ≡ filter (is_marked self.now.marks) (range_with_len 0 (length self.now.marks))) }
    {
        rising(alloc, self.marked.as_slice(), 0, self.count)
    }
}
