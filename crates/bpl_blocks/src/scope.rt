// The statements that a break may leave.
ghost use Rattle.std.specs.Prelude.{◌≡◌, [], ◌∷◌, OnOk, drop, bytes_eq};
ghost use Rattle.std.specs.List.{list_any};
ghost use Rattle.bpl_blocks.specs.Blocks.{leaves, behind_break};

use bpl_model::Name;
use std::alloc::{AllocError, Global};
use std::marker::Model;

/// An if or a loop: the labels before it, and the block behind it.
#[derive(Drop)]
pub struct Scope {
    pub labels: Vec<Name>,
    pub is_loop: bool,
    pub behind: u64,
}

impl Model for Scope {
    ghost use Rattle.bpl_blocks.specs.Blocks.{Scope as scope};
    ghost use Rattle.std.specs.Coded.{codes};

    ghost Value = { scope };

    ghost coded = { Prim.hlevel codes };

    ghost view = { λ a. record { labels = a.labels.items; is_loop = a.is_loop; behind = a.behind } };
}

impl Scope {
    // Whether a break out of a loop, or to this label, may leave it.
    fn leaves(&self, label: &Option<Name>) -> bool
        ensures { result ≡ leaves label.now self.now }
    {
        match label {
            None => self.is_loop,
            Some(label) => is_among(label, self.labels.as_slice()),
        }
    }
}

fn is_among(name: &Name, names: &[Name]) -> bool
    ensures { result ≡ list_any (bytes_eq name.now) names.now }
{
    names.iter().any(|other| name.equals(other))
}

/// The scopes around a statement; contracts see the innermost first.
#[derive(Drop)]
pub struct Scopes {
    outermost_first: Vec<Scope>,
}

impl Model for Scopes {
    ghost use Rattle.std.specs.Prelude.{List, reverse};
    ghost use Rattle.bpl_blocks.specs.Blocks.{Scope as scope};
    ghost use Rattle.std.specs.Coded.{coded_list};
    ghost use Rattle.bpl_blocks.specs.contracts.scope.Scope as scope_row;

    ghost Value = { List scope };

    ghost coded = { coded_list scope_row.the_row.coded };

    ghost view = { λ a. reverse a.outermost_first.items };
}

impl Scopes {
    /// No scope.
    pub fn new(alloc: Global) -> Scopes
        ensures { result ≡ [] }
    {
        Scopes {
            outermost_first: Vec::new(alloc),
        }
    }

    /// One more scope inside.
    pub fn enter(&mut self, scope: Scope) -> Result<(), AllocError>
        ensures { OnOk result (self.new ≡ scope ∷ self.old) }
    {
        self.outermost_first.push(scope)?;
        Ok(())
    }

    /// Without the innermost.
    pub fn leave(&mut self)
        ensures { self.new ≡ drop 1 self.old }
    {
        self.outermost_first.pop();
    }

    /// The block to which a break goes.
    pub fn behind_break(&self, label: &Option<Name>) -> u64
        ensures { result ≡ behind_break self.now label.now }
    {
        let count = self.outermost_first.len();
        for i in 0..count {
            let scope = &self.outermost_first[count - 1 - i];
            if scope.leaves(label) {
                return scope.behind;
            }
        }
        0
    }
}
