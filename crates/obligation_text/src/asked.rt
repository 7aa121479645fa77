// Questions to the search.
ghost use Rattle.std.specs.Prelude.{◌≡◌, IfOk};
ghost use Rattle.std.specs.Arc.{arc_value};
ghost use Rattle.obligation_text.specs.Asked.{Asked as asked_of};
ghost use Rattle.obligation_text.specs.Text.{obligation_text};

use crate::obligation::Obligation;
use crate::printing::{key, key_of_text};
use bv_base::Question;
use std::alloc::{AllocError, Global};
use std::marker::Model;
use std::sync::Arc;

/// An obligation, and in how many turns it is to be proved. Questions with one key are one question.
#[derive(Drop)]
pub struct Asked {
    obligation: Arc<Obligation, Global>,
    turns: u64,
    key: Vec<u8>,
}

impl Model for Asked {
    ghost use Rattle.std.specs.Arc.{arc_value};
    ghost use Rattle.obligation_text.specs.Asked.{Asked as question, coded_asked};

    ghost Value = { question };

    ghost coded = { coded_asked };

    ghost view = { λ a. record { obligation = arc_value a.obligation; turns = a.turns } };

    ghost use Rattle.std.specs.Prelude.{◌≡◌};
    ghost use Rattle.obligation_text.specs.Text.{key as key_of_parts};

    ghost invariant = { λ a. a.key.items ≡ key_of_parts (arc_value a.obligation) a.turns };
}

impl Asked {
    /// The question whether the obligation is proved in so many turns; its key is made once.
    pub fn new(alloc: Global, obligation: Obligation, turns: u64) -> Result<Asked, AllocError>
        ensures { IfOk result (λ q. q ≡ record { obligation = obligation; turns = turns }) }
    {
        let obligation = Arc::new(alloc, obligation)?;
        Asked::shared(alloc, obligation, turns)
    }

    /// The same question about an obligation that others hold too.
    pub fn shared(
        alloc: Global,
        obligation: Arc<Obligation, Global>,
        turns: u64,
    ) -> Result<Asked, AllocError>
        ensures { IfOk result (λ q. q ≡ record { obligation = arc_value obligation; turns = turns }) }
    {
        let key = key(alloc, &obligation, turns)?;
        Ok(Asked {
            obligation,
            turns,
            key,
        })
    }

    /// The same question about an obligation whose text is there already: its key is made by copying
    /// bytes, and nothing is printed but the turns.
    pub fn printed(
        alloc: Global,
        obligation: Arc<Obligation, Global>,
        text: &[u8],
        turns: u64,
    ) -> Result<Asked, AllocError>
        requires { text.now ≡ obligation_text (arc_value obligation) }
        ensures { IfOk result (λ q. q ≡ record { obligation = arc_value obligation; turns = turns }) }
    {
        let key = key_of_text(alloc, text, turns)?;
        Ok(Asked {
            obligation,
            turns,
            key,
        })
    }

    /// The obligation.
    pub fn obligation(&self) -> &Arc<Obligation, Global>
        ensures { arc_value result.now ≡ self.now.obligation }
    {
        &self.obligation
    }

    /// The number of turns.
    pub fn turns(&self) -> u64
        ensures { result ≡ self.now.turns }
    {
        self.turns
    }
}

impl Question for Asked {
    ghost use Rattle.obligation_text.specs.Asked.{key_of};

    ghost key = { key_of };

    fn key(&self) -> &[u8] {
        &self.key
    }
}
