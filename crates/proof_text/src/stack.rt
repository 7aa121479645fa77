// A stack, which contracts see as the list of its items, the last one that was pushed first.
ghost use Rattle.std.specs.Prelude.{◌≡◌, [], ◌∷◌, IfOk, MatchOption};
ghost use Rattle.proof_text.specs.TermStates.{is_empty};

use std::alloc::{AllocError, Global};
use std::marker::Model;

/// A stack of items.
pub struct Stack<T> {
    items: Vec<T>,
}

// Written out: a derived drop is proved again wherever a value is dropped.
impl<T: Drop> Drop for Stack<T> {
    fn drop(self) {
        let Stack { items } = self;
        drop(items);
    }
}

impl<T> Model for Stack<T> {
    ghost use Rattle.std.specs.Prelude.{List, reverse};
    ghost use Rattle.std.specs.Coded.{coded_list};

    ghost Value = { List T };

    ghost coded = { coded_list T.code };

    ghost view = { λ a. reverse a.items.items };
}

impl<T: Drop> Stack<T> {
    /// The empty stack.
    pub fn new(alloc: Global) -> Stack<T>
        ensures { result ≡ [] }
    {
        Stack {
            items: Vec::new(alloc),
        }
    }

    /// The stack with one more item.
    pub fn over(self, item: T) -> Result<Stack<T>, AllocError>
        ensures { IfOk result (λ s. s ≡ item ∷ self) }
    {
        let Stack { mut items } = self;
        items.push(item)?;
        Ok(Stack { items })
    }

    /// Whether there is no item.
    pub fn is_empty(&self) -> bool
        ensures { result ≡ is_empty self.now }
    {
        self.items.is_empty()
    }

    /// The last item, and the stack without it.
    pub fn split(self) -> (Option<T>, Stack<T>)
        ensures { MatchOption result.0 ((self ≡ []) × (result.1 ≡ [])) (λ item. self ≡ item ∷ result.1) }
    {
        let Stack { mut items } = self;
        let last = items.pop();
        (last, Stack { items })
    }
}
