// The bytes at which tokens begin and end.
ghost use Rattle.std.specs.Prelude.{◌≡◌};
ghost use Rattle.bpl_lex.specs.Lexing.{end_of};
ghost use Rattle.bpl_grammar.specs.ReadPrograms.{start_of, byte_at};

use bpl_lex::Token;

/// The byte at which the first of the tokens begins.
pub(crate) fn start_of(tokens: &[Token]) -> u32
    ensures { result ≡ start_of tokens.now }
{
    match tokens.first() {
        Some(token) => token.span.start,
        None => 0,
    }
}

/// The byte just after the last of the tokens.
pub(crate) fn end_of(tokens: &[Token]) -> u32
    ensures { result ≡ end_of tokens.now }
{
    match tokens.last() {
        Some(token) => token.span.end,
        None => 0,
    }
}

/// The byte at which these last tokens of all begin, or just after the last token.
pub(crate) fn byte_at(all: &[Token], rest: &[Token]) -> u32
    ensures { result ≡ byte_at all.now rest.now }
{
    match rest.first() {
        Some(token) => token.span.start,
        None => end_of(all),
    }
}
