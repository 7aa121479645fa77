// Terms have values, of their sorts.
ghost use Rattle.logic_laws.specs.ValueLaws.{ValuesExist, ValuesAreUnique, ValuesHaveSorts, SameIsEquality};

/// No term is without a value.
pub fn values_exist()
    ensures { ValuesExist }
{}

/// A term has no two values.
pub fn values_are_unique()
    ensures { ValuesAreUnique }
{}

/// In an assignment the value of a well-sorted term is of its sort.
pub fn values_have_sorts()
    ensures { ValuesHaveSorts }
{}

/// The test of two values passes exactly where they are equal.
pub fn same_is_equality()
    ensures { SameIsEquality }
{}
