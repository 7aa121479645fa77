// A program and the lines behind it.
ghost use Rattle.std.specs.Prelude.{◌≡◌, bytes_eq, codes};
ghost use Rattle.recheck_report.specs.Lines.{lines};
ghost use Rattle.recheck_report.specs.Parts.{program_in, lines_in};

use crate::line::first_length;

/// The parts of a text, as bytes of it.
#[derive(Clone, Copy)]
pub struct Parts<'a> {
    /// What stands before the first line `%%`, or all where there is none.
    pub program: &'a [u8],
    /// What stands behind that line, or nothing.
    pub proofs: &'a [u8],
}

// Whether the line is `%%`.
fn is_mark(line: &[u8]) -> bool
    ensures { result ≡ bytes_eq line.now (codes "%%") }
{
    line == b"%%".as_slice()
}

/// The text before its first line that is `%%`, and the lines behind that line. Without such a line
/// the whole text is the program, and there are no lines.
pub fn cut<'a>(text: &'a [u8]) -> Parts<'a>
    ensures program { result.program.now ≡ program_in text.entry.now }
    ensures lines { lines result.proofs.now ≡ lines_in text.entry.now }
{
    let mut at = 0;
    while at < text.len() {
        let end = at + first_length(&text[at..]);
        let next = (end + 1).min(text.len());
        if is_mark(&text[at..end]) {
            return Parts {
                program: &text[..at],
                proofs: &text[next..],
            };
        }
        at = next;
    }
    Parts {
        program: text,
        proofs: &text[text.len()..],
    }
}
