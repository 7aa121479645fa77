//! The search as a prover: the workers', and the session's own.
use clause_search::search::{Searcher as Search, search};
use obligation_board::Prover;
use obligation_text::Asked;
use std::alloc::{AllocError, Global};
use std::sync::Arc;
use tableau::settled::Settled;

/// Answers a question as the search does. Workers share it.
#[derive(Clone, Copy)]
pub struct Searcher {
    pub alloc: Global,
}

impl Prover for Searcher {
    ghost use Rattle.std.specs.Prelude.{◌≡◌};
    ghost use Rattle.tableau.specs.Settled.{settled_by};

    type A = Settled;

    ghost gives = { λ _ q a. a ≡ settled_by q };

    fn answer(&self, asked: &Arc<Asked, Global>) -> Result<Settled, AllocError> {
        search(self.alloc, asked)
    }
}

/// Answers a question as the search does, which begins with what the last questions left.
#[derive(Drop)]
pub struct OwnSearcher {
    search: Search,
}

impl OwnSearcher {
    /// Nothing is left yet.
    pub fn new(alloc: Global) -> OwnSearcher {
        OwnSearcher {
            search: Search::new(alloc),
        }
    }
}

impl Prover for OwnSearcher {
    ghost use Rattle.std.specs.Prelude.{◌≡◌};
    ghost use Rattle.tableau.specs.Settled.{settled_by};

    type A = Settled;

    ghost gives = { λ _ q a. a ≡ settled_by q };

    fn answer(&self, asked: &Arc<Asked, Global>) -> Result<Settled, AllocError> {
        self.search.search(asked)
    }
}
