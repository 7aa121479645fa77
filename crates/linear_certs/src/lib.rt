//! Certificates of linear arithmetic over the integers: sums of multiples of linear facts, as in
//! Fourier and Motzkin's elimination, and their tightening, as in Gomory's cuts. The sums are those of
//! normal forms, and their type keeps that their parts fall strictly.
#![tactic(auto)]

mod divisor;
pub mod linear;
pub mod multiplier;
pub mod tightening;

// What combined facts mean, and that the parts of their sums fall.
pub mod falling;
pub mod laws;

pub use divisor::gcd;
pub use linear::Linear;
pub use logic_core::fault::NormalFault as LinearFault;
pub use multiplier::may_multiply;
pub use tightening::tighten;
