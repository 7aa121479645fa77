// Numbers as a program writes them: they have no sign.
ghost use Rattle.std.specs.Prelude.{◌≡◌, ◌<◌, ◌^◌};

use std::marker::Model;

/// A number below 2^127, so that it is an `i128` too.
#[derive(Drop)]
pub struct Numeral {
    value: u128,
}

impl Model for Numeral {
    ghost use Rattle.std.specs.Prelude.{ℕ, ◌<◌, ◌^◌};

    ghost Value = { ℕ };

    ghost view = { λ a. a.value };

    ghost invariant = { λ a. a.value < 2 ^ 127 };
}

impl Numeral {
    /// The numeral of this value.
    pub fn new(value: u128) -> Numeral
        requires { value < 2 ^ 127 }
        ensures { result ≡ value }
    {
        Numeral { value }
    }

    /// Its value, which is below 2^127.
    pub fn value(&self) -> u128
        ensures is { result ≡ self.now }
        ensures fits { result < 2 ^ 127 }
    {
        self.value
    }
}
