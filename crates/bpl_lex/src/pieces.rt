// What begins at a place of a text: a blank, a comment or a token.
ghost use Rattle.std.specs.Prelude.{◌≡◌, true, nat_eq, codes, option_map, slice_get, slice_index, IfSome, IfNone};
ghost use Rattle.std.specs.List.{starts_with};
ghost use Rattle.bpl_lex.specs.Shape.{is_letter, is_digit, is_sign, opens_comment};
ghost use Rattle.bpl_lex.specs.Lexing.{front as front_of};
ghost use Rattle.bpl_lex.specs.Front.{found_seen, comment_end, string_end, IsLongestPassing, NonePasses, BeginsNoOther};

use crate::bytes::{digits_length, is_blank, is_digit, is_letter, line_length, name_length};
use crate::kinds::TokenKind;
use crate::signs::{LONGEST_SIGN, is_sign};
use crate::words::is_word;

/// What a text is made of.
#[derive(Clone, Copy)]
pub enum Piece {
    Blank,
    Comment,
    Token(TokenKind),
}

/// A piece at the front of a text, and how many bytes it has.
#[derive(Clone, Copy)]
pub struct Found {
    pub piece: Piece,
    pub length: usize,
}

/// The place just after the first `*/`.
fn comment_end(bytes: &[u8]) -> Option<usize>
    ensures { result ≡ comment_end bytes.now }
{
    let mut rest = bytes;
    let mut passed = 0;
    loop {
        match rest {
            [b'*', b'/', ..] => return Some(passed + 2),
            [_, others @ ..] => {
                rest = others;
                passed += 1;
            }
            [] => return None,
        }
    }
}

/// The place just after the first quote, where no line feed stands before it.
fn string_end(bytes: &[u8]) -> Option<usize>
    ensures { result ≡ string_end bytes.now }
{
    let mut rest = bytes;
    let mut inside = 0;
    loop {
        match rest {
            [b'"', ..] => return Some(inside + 1),
            [] | [b'\n', ..] => return None,
            [_, others @ ..] => {
                rest = others;
                inside += 1;
            }
        }
    }
}

/// How long the longest sign at the front is.
fn sign_length(bytes: &[u8]) -> Option<usize>
    ensures some { IfSome result (λ n. IsLongestPassing is_sign bytes.now n) }
    ensures none { IfNone result (NonePasses is_sign bytes.now) }
{
    let mut length = bytes.len().min(LONGEST_SIGN);
    while length > 0 {
        if is_sign(&bytes[..length]) {
            return Some(length);
        }
        length -= 1;
    }
    None
}

/// The longest word or identifier.
fn name(bytes: &[u8]) -> Found
    requires { is_letter (slice_index bytes.now 0) ≡ true }
    ensures { Some (found_seen result) ≡ front_of bytes.now }
{
    let length = name_length(bytes);
    let kind = if is_word(&bytes[..length]) {
        TokenKind::Word
    } else {
        TokenKind::Id
    };
    Found {
        piece: Piece::Token(kind),
        length,
    }
}

/// The longest number.
fn number(bytes: &[u8]) -> Found
    requires { is_digit (slice_index bytes.now 0) ≡ true }
    ensures { Some (found_seen result) ≡ front_of bytes.now }
{
    Found {
        piece: Piece::Token(TokenKind::Number),
        length: digits_length(bytes),
    }
}

/// The string, if it has an end.
fn string(bytes: &[u8]) -> Option<Found>
    requires { slice_get bytes.now 0 ≡ Some 34 }
    ensures { option_map found_seen result ≡ front_of bytes.now }
{
    let end = string_end(&bytes[1..])?;
    Some(Found {
        piece: Piece::Token(TokenKind::Text),
        length: 1 + end,
    })
}

/// The comment up to the line's end.
fn line_comment(bytes: &[u8]) -> Found
    requires { starts_with nat_eq bytes.now (codes "//") ≡ true }
    ensures { Some (found_seen result) ≡ front_of bytes.now }
{
    Found {
        piece: Piece::Comment,
        length: line_length(bytes),
    }
}

/// The comment up to the next `*/`, if there is one.
fn block_comment(bytes: &[u8]) -> Option<Found>
    requires { opens_comment bytes.now ≡ true }
    ensures { option_map found_seen result ≡ front_of bytes.now }
{
    let end = comment_end(&bytes[2..])?;
    Some(Found {
        piece: Piece::Comment,
        length: 2 + end,
    })
}

/// The longest sign, if there is one.
fn sign(bytes: &[u8]) -> Option<Found>
    requires { BeginsNoOther bytes.now }
    ensures { option_map found_seen result ≡ front_of bytes.now }
{
    let length = sign_length(bytes)?;
    Some(Found {
        piece: Piece::Token(TokenKind::Sign),
        length,
    })
}

/// What begins at the front of the text, if anything does.
pub fn front(bytes: &[u8]) -> Option<Found>
    ensures { option_map found_seen result ≡ front_of bytes.now }
{
    let first = *bytes.first()?;
    if is_blank(first) {
        Some(Found {
            piece: Piece::Blank,
            length: 1,
        })
    } else if is_letter(first) {
        Some(name(bytes))
    } else if is_digit(first) {
        Some(number(bytes))
    } else if first == b'"' {
        string(bytes)
    } else if bytes.starts_with(b"//") {
        Some(line_comment(bytes))
    } else if bytes.starts_with(b"/*") {
        block_comment(bytes)
    } else {
        sign(bytes)
    }
}
