// A goal's head: its procedure, its place, and why it is to be shown.
ghost use Rattle.std.specs.Prelude.{◌≡◌, ◌++◌, codes, decimal, string_bytes, IfOk, OnOk};
ghost use Rattle.report_text.specs.Report.{kind_text, head as head_of};

use flow_core::{GoalKind, Mark};
use itoa::Buffer;
use std::alloc::{AllocError, Global};

// Appends a word with a number in parentheses.
fn write_numbered(out: &mut String, word: &str, number: u64) -> Result<(), AllocError>
    ensures { OnOk result (string_bytes out.new ≡ string_bytes out.old ++ (word.now ++ decimal number ++ codes ")")) }
{
    let mut buffer = Buffer::new();
    out.push_str(word)?;
    out.push_str(buffer.format(number))?;
    out.push_str(")")?;
    Ok(())
}

// Appends the kind's word.
fn write_kind(out: &mut String, kind: GoalKind) -> Result<(), AllocError>
    ensures { OnOk result (string_bytes out.new ≡ string_bytes out.old ++ kind_text kind) }
{
    match kind {
        GoalKind::Assert => out.push_str("assert"),
        GoalKind::InvariantEntry => out.push_str("invariant-entry"),
        GoalKind::InvariantKept => out.push_str("invariant-kept"),
        GoalKind::Requires(number) => write_numbered(out, "requires(", number),
        GoalKind::Ensures => out.push_str("ensures"),
        GoalKind::Point(number) => write_numbered(out, "point(", number),
    }
}

/// Appends a goal's head.
pub(crate) fn write_head(out: &mut String, name: &str, mark: &Mark) -> Result<(), AllocError>
    ensures { OnOk result (string_bytes out.new ≡ string_bytes out.old ++ head_of name.now mark.now) }
{
    let mut buffer = Buffer::new();
    out.push_str(name)?;
    out.push_str(" ")?;
    out.push_str(buffer.format(mark.place.line))?;
    out.push_str(":")?;
    out.push_str(buffer.format(mark.place.col))?;
    out.push_str(" ")?;
    write_kind(out, mark.kind)
}

/// A goal's head, `PROC LINE:COL KIND`: the name of its procedure, the line and column at which the
/// clause stands in its declaration, and why it is to be shown.
pub fn head(alloc: Global, name: &str, mark: &Mark) -> Result<Vec<u8>, AllocError>
    ensures { IfOk result (λ v. v.items ≡ head_of name.now mark.now) }
{
    let mut out = String::new(alloc);
    write_head(&mut out, name, mark)?;
    Ok(out.into_bytes())
}
