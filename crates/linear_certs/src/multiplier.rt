// The numbers by which a linear fact may be multiplied.
ghost use Rattle.std.specs.Prelude.{◌≡◌};
ghost use Rattle.linear_certs.specs.Multiplier.{may_multiply};

use logic_core::term::{Node, Term};

/// Whether a linear fact may be multiplied by p: an inequality by a positive number, and an equation
/// by every number but zero.
pub fn may_multiply(p: i128, fact: &Term) -> bool
    ensures { result ≡ may_multiply p fact.now }
{
    match &fact.node {
        Node::Le(_, _) => p > 0,
        _ => p != 0,
    }
}
