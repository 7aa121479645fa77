// Questions that are their keys, and answers to them.
ghost use Rattle.std.specs.Prelude.{◌≡◌, IfOk, ⊤};
ghost use Rattle.std.specs.Arc.{arc_value};

use bv_base::{Answered, Question};
use std::alloc::{AllocError, Global};
use std::sync::Arc;

#[derive(Drop)]
pub struct Asked {
    pub key: Vec<u8>,
}

impl Question for Asked {
    ghost key = { λ q. q.key.items };

    fn key(&self) -> &[u8] {
        &self.key
    }
}

/// A question, and whether it was proved.
#[derive(Drop)]
pub struct Settled {
    pub question: Arc<Asked, Global>,
    pub proved: bool,
}

impl Answered for Settled {
    type Q = Asked;

    ghost asked = { λ s. arc_value s.question };

    ghost right = { λ _. ⊤ };

    fn question(&self) -> &Arc<Asked, Global> {
        &self.question
    }
}

/// Questions whose keys have so many bytes, the first of them 0, 1 and so on.
pub fn questions(
    alloc: Global,
    numbers: &[u8],
    length: usize,
) -> Result<Vec<Arc<Asked, Global>>, AllocError> {
    let mut items = Vec::new(alloc);
    for number in numbers {
        let mut key = Vec::from_slice(alloc, &[*number])?;
        key.resize(length, 0)?;
        items.push(Arc::new(alloc, Asked { key })?)?;
    }
    Ok(items)
}

/// An answer of the question.
pub fn answer(
    alloc: Global,
    question: &Arc<Asked, Global>,
    proved: bool,
) -> Result<Arc<Settled, Global>, AllocError>
    ensures { IfOk result (λ a. arc_value (arc_value a).question ≡ arc_value question.now) }
{
    let question = question.clone()?;
    let settled = Arc::new(alloc, Settled { question, proved })?;
    Ok(settled)
}
