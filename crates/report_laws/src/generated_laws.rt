//! What a summary is worth, over the definitions alone.
ghost use Rattle.report_laws.specs.Worth.{ProvedAreSafe};

use program_opening::laws::modules_are_sound;
use tableau::laws::{finds_accepted, finds_where_proved};
use vc_build::laws::valid_goals_are_safe;
use vc_build::proved_goals::{goals_are_sorted, proved_goals_are_valid};

/// Where the search says of each goal of a program that it is proved, no execution of any of the
/// program's procedures from an entry state fails.
pub fn proved_are_safe()
    ensures { ProvedAreSafe }
{
    finds_accepted();
    finds_where_proved();
    goals_are_sorted();
    proved_goals_are_valid();
    modules_are_sound();
    valid_goals_are_safe();
}
