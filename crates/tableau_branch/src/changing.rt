// Why a term is replaced in facts.

/// Why a term may be replaced.
#[derive(Clone, Copy)]
pub enum Ground {
    /// The fact of this number, itself left as it is, says what the term is equal to.
    Fact(u64),
    /// An equation of this number, which isn't kept, says so.
    Equation(u64),
    /// The term is a Read of a Write at constant distance, to be replaced in the facts in which it
    /// stands outside quantifiers.
    Access,
}
