// A fault's parts, and its line.
ghost use Rattle.std.specs.Prelude.{◌≡◌, ◌++◌, IfOk, OnOk};
ghost use Rattle.bv_base.specs.Place.{place_text};
ghost use Rattle.fault_text.specs.Written.{fault_line};

use bv_base::place::Place;
use itoa::Buffer;
use std::alloc::{AllocError, Global};
use std::marker::Model;

/// A fault as it is written.
#[derive(Drop)]
pub struct Written {
    /// The name of its kind.
    pub kind: Vec<u8>,
    /// The name of its declaration; `-` where it is a fault of the text, or of the whole program.
    pub decl: Vec<u8>,
    /// Its place in the declaration, or in the text; `0:0` where it has none.
    pub place: Place,
    /// The token that stands there, or what else is said of it; `-` where nothing is.
    pub word: Vec<u8>,
}

impl Model for Written {
    ghost use Rattle.fault_text.specs.Written.{Written as written, coded_written};

    ghost Value = { written };

    ghost coded = { coded_written };

    ghost view = { λ a. record { kind = a.kind.items; decl = a.decl.items; place = a.place; word = a.word.items } };
}

// Appends a place, `LINE:COL`.
fn push_place(out: &mut Vec<u8>, place: Place) -> Result<(), AllocError>
    ensures { OnOk result (out.new.items ≡ out.old.items ++ place_text place) }
{
    let mut buffer = Buffer::new();
    out.extend_from_slice(buffer.format(place.line).as_bytes())?;
    out.extend_from_slice(b":")?;
    out.extend_from_slice(buffer.format(place.col).as_bytes())?;
    Ok(())
}

impl Written {
    /// Its line, `fault KIND DECL LINE:COL WORD`, without a line feed.
    pub fn line(&self, alloc: Global) -> Result<Vec<u8>, AllocError>
        ensures { IfOk result (λ line. line.items ≡ fault_line self.now) }
    {
        let mut line = Vec::from_slice(alloc, b"fault ")?;
        line.extend_from_slice(&self.kind)?;
        line.extend_from_slice(b" ")?;
        line.extend_from_slice(&self.decl)?;
        line.extend_from_slice(b" ")?;
        push_place(&mut line, self.place)?;
        line.extend_from_slice(b" ")?;
        line.extend_from_slice(&self.word)?;
        Ok(line)
    }
}
