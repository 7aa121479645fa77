// Labels in a stack, and whether one stands there.
ghost use Rattle.std.specs.Prelude.{◌≡◌, ◌<◌, [], ◌∷◌, ◌++◌, ◌+◌, drop, length, IfOk, OnOk, bytes_eq};
ghost use Rattle.indexmap.specs.IndexMap.{spare, get_by, insert_entry};
ghost use Rattle.std.specs.Map.{lookup};
ghost use Rattle.bpl_ast.specs.StmtView.{stmts_of};
ghost use Rattle.bv_base.specs.Text.{is_among};
ghost use Rattle.bpl_scopes.specs.Positions.{or_other};
ghost use Rattle.bpl_scopes.specs.Scopes.{texts_of};
ghost use Rattle.bpl_statement_faults.specs.StackView.{own_labels};
ghost use Rattle.bpl_statement_faults.specs.StmtFaults.{labels_of_list};

use bpl_ast::{Name, Stmt};
use indexmap::IndexMap;
use std::alloc::{AllocError, Global};
use std::marker::Model;

/// Labels, of which the one that was put in last goes first, a label perhaps several times.
#[derive(Drop)]
pub struct LabelStack<'a> {
    labels: Vec<&'a [u8]>,
    counts: IndexMap<&'a [u8], usize>,
}

impl<'a> Model for LabelStack<'a> {
    ghost use Rattle.std.specs.Prelude.{ℕ, List};

    ghost Value = { List (List ℕ) };

    ghost use Rattle.bpl_statement_faults.specs.StackView.{stack_seen, AreCounted};

    ghost view = { λ a. stack_seen a.labels.items };

    ghost invariant = { λ a. AreCounted a.counts.entries (stack_seen a.labels.items) };
}

fn count_of(counts: &IndexMap<&[u8], usize>, label: &[u8]) -> usize
    ensures { result ≡ or_other (lookup (λ k. bytes_eq label.now k.now) counts.now.entries) 0 }
{
    match counts.get(label) {
        Some(count) => *count,
        None => 0,
    }
}

// Keeps the count of a label, for which there is room.
fn put_count<'a>(counts: &mut IndexMap<&'a [u8], usize>, label: &'a [u8], count: usize)
    requires { 0 < spare counts.old }
    ensures { counts.new.entries ≡ insert_entry (λ j k. bytes_eq j.now k.now) counts.old.entries label.entry count }
{
    counts.insert(label, count).unwrap();
}

// The next count. No memory holds as many labels as a count of a word doesn't hold.
fn next(count: usize) -> Result<usize, AllocError>
    ensures { IfOk result (λ n. n ≡ count + 1) }
{
    match count.checked_add(1) {
        Some(next) => Ok(next),
        None => Err(AllocError),
    }
}

impl<'a> LabelStack<'a> {
    /// No labels.
    pub fn new(alloc: Global) -> LabelStack<'a>
        ensures { result ≡ [] }
    {
        LabelStack {
            labels: Vec::new(alloc),
            counts: IndexMap::new(alloc),
        }
    }

    /// Whether the label is there.
    #[tactic(auto, using(crate::proofs::Counted::counted_among))]
    pub fn contains(&self, label: &[u8]) -> bool
        ensures { result ≡ is_among self.now label.now }
    {
        count_of(&self.counts, label) > 0
    }

    /// Puts a label on top.
    pub fn push(&mut self, label: &'a [u8]) -> Result<(), AllocError>
        ensures { OnOk result (self.new ≡ label.now ∷ self.old) }
    {
        let count = next(count_of(&self.counts, label))?;
        self.counts.reserve(1)?;
        self.labels.push(label)?;
        put_count(&mut self.counts, label, count);
        Ok(())
    }

    /// Takes the top off.
    pub fn pop(&mut self) -> Result<(), AllocError>
        ensures { OnOk result (self.new ≡ drop 1 self.old) }
    {
        self.counts.reserve(1)?;
        if let Some(label) = self.labels.pop() {
            let count = count_of(&self.counts, label).saturating_sub(1);
            put_count(&mut self.counts, label, count);
        }
        Ok(())
    }

    /// Puts the labels of a statement on top, the first of them last.
    pub fn push_labels(&mut self, labels: &'a [Name]) -> Result<(), AllocError>
        ensures { OnOk result (self.new ≡ texts_of labels.now ++ self.old) }
    {
        let mut left = labels.len();
        while left > 0 {
            left -= 1;
            let label = &labels[left];
            self.push(label.text.as_bytes())?;
        }
        Ok(())
    }

    /// Puts the labels of the statements of a list on top, the first of them last.
    pub fn push_list(&mut self, stmts: &'a [Stmt]) -> Result<(), AllocError>
        ensures { OnOk result (self.new ≡ labels_of_list (stmts_of stmts.now) ++ self.old) }
    {
        let mut left = stmts.len();
        while left > 0 {
            left -= 1;
            let stmt = &stmts[left];
            self.push_labels(&stmt.labels)?;
        }
        Ok(())
    }

    /// Takes the labels of a statement off.
    pub fn pass(&mut self, stmt: &Stmt) -> Result<(), AllocError>
        ensures { OnOk result (self.new ≡ drop (length (own_labels stmt.now)) self.old) }
    {
        self.pop_many(stmt.labels.len())
    }

    /// Takes so many off.
    pub fn pop_many(&mut self, count: usize) -> Result<(), AllocError>
        ensures { OnOk result (self.new ≡ drop count self.old) }
    {
        for _i in 0..count {
            self.pop()?;
        }
        Ok(())
    }
}
