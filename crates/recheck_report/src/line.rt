// The lines of a text, from its front on.
ghost use Rattle.std.specs.Prelude.{◌≡◌, ◌≤◌, take, length};
ghost use Rattle.recheck_report.specs.Lines.{without_feed, lines, first_line, later_lines};

/// How many bytes the first line has, its line feed not counted.
pub(crate) fn first_length(text: &[u8]) -> usize
    ensures within { result ≤ length text.now }
    ensures line { take result text.now ≡ without_feed text.now }
{
    for i in 0..text.len() {
        if text[i] == b'\n' {
            return i;
        }
    }
    text.len()
}

/// The first line, without its line feed, and what stands behind it. The text's lines are this line
/// and those of what stands behind; a text without lines has an empty one here.
pub fn take_line<'a>(text: &'a [u8]) -> (&'a [u8], &'a [u8])
    ensures line { result.0.now ≡ first_line (lines text.entry.now) }
    ensures rest { lines result.1.now ≡ later_lines (lines text.entry.now) }
{
    let end = first_length(text);
    let next = (end + 1).min(text.len());
    (&text[..end], &text[next..])
}
