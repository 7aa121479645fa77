//! What the lines are worth, over the definitions alone. Each function does nothing; its contract is a
//! law.
ghost use Rattle.smoke_report.specs.Sound.{ValidPointsAreUnreached, UnreachableIsUnreached};

use crate::point_laws::{with_point_goes_forward, with_point_stays_typed};
use proof_core::soundness::acceptance_is_sound;
use tableau::laws::{finds_accepted, finds_where_proved};
use vc_build::laws::failures_have_goals;
use vc_build::proved_goals::goals_are_sorted;

/// In a typed module whose labels are distinct and whose gotos go forward: where each goal with a point's
/// mark, of its procedure with the point put in, is valid, the procedure reaches the point from none of
/// its entry states.
pub fn valid_points_are_unreached()
    ensures { ValidPointsAreUnreached }
{
    with_point_stays_typed();
    with_point_goes_forward();
    failures_have_goals();
}

/// There, what is written of the module's points is the lines of some of them, each of which its
/// procedure reaches from none of its entry states, and a last line. Nothing is presumed of the turns,
/// the search or the obligations.
pub fn unreachable_is_unreached()
    ensures { UnreachableIsUnreached }
{
    valid_points_are_unreached();
    with_point_stays_typed();
    with_point_goes_forward();
    goals_are_sorted();
    acceptance_is_sound();
    finds_accepted();
    finds_where_proved();
}
