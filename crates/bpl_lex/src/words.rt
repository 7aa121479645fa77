// The words of the language.
ghost use Rattle.std.specs.Prelude.{◌≡◌};
ghost use Rattle.bv_base.specs.Text.{is_among};
ghost use Rattle.bpl_lex.specs.Shape.{words};

/// The words of the language. None of them is an identifier. The last four stand in no production
/// of the grammar.
pub const WORDS: [&[u8]; 37] = [
    b"const",
    b"unique",
    b"function",
    b"returns",
    b"axiom",
    b"var",
    b"where",
    b"type",
    b"procedure",
    b"implementation",
    b"requires",
    b"ensures",
    b"modifies",
    b"free",
    b"assert",
    b"assume",
    b"havoc",
    b"call",
    b"if",
    b"then",
    b"else",
    b"while",
    b"invariant",
    b"break",
    b"return",
    b"goto",
    b"old",
    b"forall",
    b"exists",
    b"true",
    b"false",
    b"int",
    b"bool",
    b"lambda",
    b"div",
    b"mod",
    b"real",
];

/// Whether the bytes are a word of the language.
pub fn is_word(name: &[u8]) -> bool
    ensures { result ≡ is_among words name.now }
{
    WORDS.contains(&name)
}
