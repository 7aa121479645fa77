// Texts with their digests.
ghost use Rattle.std.specs.Prelude.{◌≡◌, IfOk};
ghost use Rattle.sha2.specs.Sha256.{sha256};

use sha2::{Digest, Sha256};
use std::alloc::{AllocError, Global};
use std::marker::Model;
use std::sync::Arc;

// The SHA-256 of the text.
fn digest_of(text: &[u8]) -> [u8; 32]
    ensures { result ≡ sha256 text.now }
{
    let mut hasher = Sha256::new();
    hasher.update(text);
    hasher.finalize()
}

// A text and its SHA-256.
#[derive(Drop)]
struct Digested {
    text: Vec<u8>,
    digest: Vec<u8>,
}

impl Digested {
    fn text(&self) -> &[u8]
        ensures { result.now ≡ self.now.text.items }
    {
        self.text.as_slice()
    }

    fn digest(&self) -> &[u8]
        ensures { result.now ≡ self.now.digest.items }
    {
        self.digest.as_slice()
    }
}

/// A text with its SHA-256. Before and after an edit it may be the same one in memory.
#[derive(Drop)]
pub struct DigestedText {
    shared: Arc<Digested, Global>,
}

impl Model for DigestedText {
    ghost use Rattle.std.specs.Prelude.{◌≡◌, ℕ, List};
    ghost use Rattle.std.specs.Arc.{arc_value};
    ghost use Rattle.sha2.specs.Sha256.{sha256};

    ghost Value = { List ℕ };

    ghost view = { λ a. (arc_value a.shared).text.items };

    ghost invariant = { λ a. (arc_value a.shared).digest.items ≡ sha256 (arc_value a.shared).text.items };
}

impl DigestedText {
    /// The text.
    pub fn of(alloc: Global, text: Vec<u8>) -> Result<DigestedText, AllocError>
        ensures { IfOk result (λ d. d ≡ text.items) }
    {
        let digest = Vec::from_slice(alloc, &digest_of(&text))?;
        let shared = Arc::new(alloc, Digested { text, digest })?;
        Ok(DigestedText { shared })
    }

    /// It once more, the same one in memory.
    pub fn share(&self) -> Result<DigestedText, AllocError>
        ensures { IfOk result (λ d. d ≡ self.now) }
    {
        let shared = Arc::try_clone(&self.shared)?;
        Ok(DigestedText { shared })
    }

    /// It.
    pub fn text(&self) -> &[u8]
        ensures { result.now ≡ self.now }
    {
        self.shared.text()
    }

    /// Its SHA-256.
    pub fn digest(&self) -> &[u8]
        ensures { result.now ≡ sha256 self.now }
    {
        self.shared.digest()
    }
}
