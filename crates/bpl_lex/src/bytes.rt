// The bytes that blanks, identifiers and numbers are made of.
ghost use Rattle.std.specs.Prelude.{◌≡◌, ◌||◌, length, not, nat_eq, take_while};
ghost use Rattle.bpl_lex.specs.Shape.{is_blank_byte, is_letter, is_digit};

/// Whether the byte is a space, a tab, a carriage return or a line feed.
pub fn is_blank(byte: u8) -> bool
    ensures { result ≡ is_blank_byte byte }
{
    matches!(byte, b' ' | b'\t' | b'\r' | b'\n')
}

/// Whether an identifier may begin with the byte.
pub fn is_letter(byte: u8) -> bool
    ensures { result ≡ is_letter byte }
{
    matches!(byte, b'A'..=b'Z' | b'a'..=b'z' | b'\'' | b'~' | b'#' | b'$' | b'^' | b'_' | b'.' | b'?' | b'`')
}

/// Whether the byte is a decimal digit.
pub fn is_digit(byte: u8) -> bool
    ensures { result ≡ is_digit byte }
{
    byte.is_ascii_digit()
}

/// How many bytes at the front may go on an identifier.
pub fn name_length(bytes: &[u8]) -> usize
    ensures { result ≡ length (take_while (λ b. is_letter b || is_digit b) bytes.now) }
{
    bytes
        .iter()
        .take_while(|byte| is_letter(**byte) || is_digit(**byte))
        .count()
}

/// How many digits stand at the front.
pub fn digits_length(bytes: &[u8]) -> usize
    ensures { result ≡ length (take_while is_digit bytes.now) }
{
    bytes.iter().take_while(|byte| is_digit(**byte)).count()
}

/// How many bytes stand before the line feed, or the end of the text.
pub fn line_length(bytes: &[u8]) -> usize
    ensures { result ≡ length (take_while (λ b. not (nat_eq b 10)) bytes.now) }
{
    bytes.iter().take_while(|byte| **byte != b'\n').count()
}
