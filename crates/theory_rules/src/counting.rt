// Numbers of a linear fact, as the fact is counted.
ghost use Rattle.std.specs.Prelude.{◌≡◌};
ghost use Rattle.std.specs.Ordering.{int_eq};
ghost use Rattle.theory_rules.specs.Counting.{counted_number};

/// Whether the second number is the first one, or its opposite where that is turned.
pub fn same_number(turned: bool, mine: i128, theirs: i128) -> bool
    ensures { result ≡ int_eq (counted_number turned mine) theirs }
{
    if turned {
        mine.checked_add(theirs) == Some(0)
    } else {
        mine == theirs
    }
}
