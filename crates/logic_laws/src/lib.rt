//! Laws of terms: the normal form, replacing, substituting, renaming, unfolding and instances keep
//! sorts and values, and the order is total. The functions do nothing; each one's contract is a law
//! over the definitions of sorts, values and normal forms.
#![tactic(auto)]

// Values, and the maps among them.
pub mod values;
pub mod writes;

// The order and the normal form.
pub mod normal;
pub mod order;
pub mod sorts;

// Terms with other parts.
pub mod binders;
pub mod renaming;
pub mod replace;
pub mod variables;
