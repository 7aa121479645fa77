//! What a report is worth, over the definitions alone.
ghost use Rattle.report_laws.specs.Sound.{DeclaredCorrectIsSafe, CorrectIsSafe};

use program_opening::laws::declared_modules_are_sound;
use report_text::laws::correct_is_proved;
use tableau::laws::{finds_accepted, finds_where_proved};
use vc_build::laws::valid_goals_are_safe;
use vc_build::proved_goals::{goals_are_sorted, proved_goals_are_valid};

/// Where the line stands in a report's bytes, whole, that a procedure of these declarations is correct, no
/// execution of that procedure from an entry state fails. Nothing is presumed of the turns, the search or
/// the obligations, and of the declarations that texts have them.
pub fn declared_correct_is_safe()
    ensures { DeclaredCorrectIsSafe }
{
    correct_is_proved();
    finds_accepted();
    finds_where_proved();
    goals_are_sorted();
    proved_goals_are_valid();
    declared_modules_are_sound();
    valid_goals_are_safe();
}

/// A procedure that the report's bytes call correct is safe in the program that the text is.
pub fn correct_is_safe()
    ensures { CorrectIsSafe }
{
    declared_correct_is_safe();
}
