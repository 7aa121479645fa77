// The present incarnations of variables.
ghost use Rattle.std.specs.Prelude.{◌≡◌, set};
ghost use Rattle.passive_form.specs.Incarnations.{incarnation};

use std::marker::Model;

/// The number of the present incarnation of each variable, by the variable's number.
#[derive(Drop)]
pub struct Incarnations {
    numbers: Vec<u64>,
}

impl Model for Incarnations {
    ghost use Rattle.std.specs.Prelude.{ℕ, List};
    ghost use Rattle.std.specs.Coded.{coded_list, coded_ℕ};

    ghost Value = { List ℕ };

    ghost coded = { coded_list coded_ℕ };

    ghost view = { λ a. a.numbers.items };
}

impl Incarnations {
    /// The incarnations of these numbers.
    pub fn new(numbers: Vec<u64>) -> Incarnations
        ensures { result ≡ numbers.items }
    {
        Incarnations { numbers }
    }

    /// The numbers.
    pub fn as_slice(&self) -> &[u64]
        ensures { result.now ≡ self.now }
    {
        self.numbers.as_slice()
    }

    /// The incarnation of the variable; one that has none here stands for itself.
    pub fn of(&self, variable: u64) -> u64
        ensures { result ≡ incarnation self.now variable }
    {
        match self.numbers.get(variable as usize) {
            Some(number) => *number,
            None => variable,
        }
    }

    /// The variable, if it has an incarnation here, has this one from now on.
    pub fn renew(&mut self, variable: u64, number: u64)
        ensures { self.new ≡ set self.old variable number }
    {
        let place = variable as usize;
        if place < self.numbers.len() {
            self.numbers[place] = number;
        }
    }
}
