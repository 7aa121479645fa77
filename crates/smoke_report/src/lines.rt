// The lines on points.
ghost use Rattle.std.specs.Prelude.{◌≡◌, ◌++◌, IfOk, OnOk};
ghost use Rattle.smoke_report.specs.Unreached.{kind_text, point_line, summary};

use crate::point::PointKind;
use crate::program_point::ProgramPoint;
use itoa::Buffer;
use std::alloc::{AllocError, Global};

// Appends the kind's word.
fn write_kind(out: &mut Vec<u8>, kind: PointKind) -> Result<(), AllocError>
    ensures { OnOk result (out.new.items ≡ out.old.items ++ kind_text kind) }
{
    match kind {
        PointKind::Branch(number) => {
            let mut buffer = Buffer::new();
            out.extend_from_slice(b"branch(")?;
            out.extend_from_slice(buffer.format(number).as_bytes())?;
            out.extend_from_slice(b")")
        }
        PointKind::Else => out.extend_from_slice(b"else"),
        PointKind::Loop => out.extend_from_slice(b"loop"),
        PointKind::End => out.extend_from_slice(b"end"),
    }
}

/// The line that the point is unreachable.
pub fn point_line(alloc: Global, point: &ProgramPoint) -> Result<Vec<u8>, AllocError>
    ensures { IfOk result (λ v. v.items ≡ point_line point.now) }
{
    let mut buffer = Buffer::new();
    let mut out = Vec::from_slice(alloc, point.name.as_bytes())?;
    out.extend_from_slice(b" ")?;
    out.extend_from_slice(buffer.format(point.point.mark.place.line).as_bytes())?;
    out.extend_from_slice(b":")?;
    out.extend_from_slice(buffer.format(point.point.mark.place.col).as_bytes())?;
    out.extend_from_slice(b" ")?;
    write_kind(&mut out, point.point.kind)?;
    out.extend_from_slice(b" unreachable")?;
    Ok(out)
}

/// The last line: how many points there are, and how many are unreachable.
pub fn summary(alloc: Global, points: usize, unreachable: usize) -> Result<Vec<u8>, AllocError>
    ensures { IfOk result (λ v. v.items ≡ summary points unreachable) }
{
    let mut buffer = Buffer::new();
    let mut out = Vec::from_slice(alloc, b"smoke points=")?;
    out.extend_from_slice(buffer.format(points).as_bytes())?;
    out.extend_from_slice(b" unreachable=")?;
    out.extend_from_slice(buffer.format(unreachable).as_bytes())?;
    Ok(out)
}
