// The order of terms.
ghost use Rattle.logic_laws.specs.OrderLaws.{OrderIsTotal};

/// The order of terms is total: it is antisymmetric and transitive, and exactly equal terms are equal in it.
pub fn order_is_total()
    ensures { OrderIsTotal }
{}
