// The fault of a program that is too large, written.
ghost use Rattle.std.specs.Prelude.{◌≡◌, IfOk};
ghost use Rattle.program_opening.specs.Opening.{measure_word, size_fault};

use fault_text::{Written, fault_of_size};
use std::alloc::{AllocError, Global};
use vc_build::Measure;

// What there is too much of.
fn measure_word(measure: Measure) -> &'static str
    ensures { result.now ≡ measure_word measure }
{
    match measure {
        Measure::Count => "goals",
        Measure::Bytes => "bytes",
    }
}

/// The fault of a program that is too large, written.
pub fn written_of_size(alloc: Global, what: Measure, number: u64) -> Result<Written, AllocError>
    ensures { IfOk result (λ w. w ≡ size_fault what number) }
{
    fault_of_size(alloc, measure_word(what), number)
}
