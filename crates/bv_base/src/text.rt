// The text of some lines.
ghost use Rattle.std.specs.Prelude.{◌≡◌, ◌++◌, map, OnOk};
ghost use Rattle.bv_base.specs.Text.{text_of};

use std::alloc::AllocError;

/// Appends lines, each ended by a line feed.
pub fn append_lines(out: &mut Vec<u8>, lines: &[Vec<u8>]) -> Result<(), AllocError>
    ensures { OnOk result (out.new.items ≡ out.old.items ++ text_of (map (λ l. l.items) lines.now)) }
{
    for line in lines {
        out.extend_from_slice(line)?;
        out.extend_from_slice(b"\n")?;
    }
    Ok(())
}
