// The signs of the language: brackets, operators and punctuation marks.
ghost use Rattle.std.specs.Prelude.{◌≡◌};
ghost use Rattle.bpl_lex.specs.Shape.{is_sign};

/// How many bytes the longest sign has.
pub const LONGEST_SIGN: usize = 4;

/// Whether the bytes are a sign of the language. Those of the last line stand in no production of
/// the grammar.
pub fn is_sign(bytes: &[u8]) -> bool
    ensures { result ≡ is_sign bytes.now }
{
    match bytes {
        b"(" | b")" | b"[" | b"]" | b"{" | b"}" | b"," | b";" => true,
        b":" | b"::" | b":=" | b"=" | b"==" | b"!=" | b"<" | b"<=" | b">" | b">=" => true,
        b"<==>" | b"==>" | b"&&" | b"||" | b"!" | b"+" | b"-" | b"*" => true,
        b"/" | b"%" | b"<:" | b"<==" | b"++" | b"|" => true,
        _ => false,
    }
}
