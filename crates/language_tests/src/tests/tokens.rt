// Texts with their tokens, and with the first byte at which none begins.
use bpl_lex::TokenKind::{self, Id, Number, Sign, Text, Word};
use bpl_lex::{LexFault, Token, tokens};
use std::alloc::Global;
use std::process::Abort;
use std::test::Fail;

/// For each token its kind, its first byte and the byte after its last.
type Expected<'a> = &'a [(TokenKind, u32, u32)];

fn read(rt: &impl Abort, alloc: Global, text: &[u8]) -> Result<Vec<Token>, LexFault> {
    assert!(rt; text.len() < u32::MAX as usize);
    tokens(alloc, text)
}

const TOKENS: &[(&[u8], Expected)] = &[
    (b"<==>=", &[(Sign, 0, 4), (Sign, 4, 5)]),
    (b"<===", &[(Sign, 0, 3), (Sign, 3, 4)]),
    (b"::=", &[(Sign, 0, 2), (Sign, 2, 3)]),
    (b"azAZ09'~#$^_.?`", &[(Id, 0, 15)]),
    (b"assume", &[(Word, 0, 6)]),
    (b"assumed", &[(Id, 0, 7)]),
    (b"9a8", &[(Number, 0, 1), (Id, 1, 3)]),
    (b"\"a // b\"c", &[(Text, 0, 8), (Id, 8, 9)]),
    (b"\ta\r\nb ", &[(Id, 1, 2), (Id, 4, 5)]),
    (b"a//b\nc", &[(Id, 0, 1), (Id, 5, 6)]),
    (b"/* /* */ */", &[(Sign, 9, 10), (Sign, 10, 11)]),
    (b"/*/*/ a", &[(Id, 6, 7)]),
];

const NO_TOKENS: &[(&[u8], u32)] = &[
    (b"a & b", 2),
    (b"a \"b", 2),
    (b"\"\n\"", 0),
    (b"/*/", 0),
    (b"a /* b", 2),
    (b"caf\xc3\xa9", 3),
];

#[test]
fn texts_have_their_tokens(rt: HostRuntime) -> Result<(), Fail> {
    for (text, expected) in TOKENS {
        let found = read(&rt, rt.alloc(), text)?;
        assert_eq!(rt; found.len(), expected.len(), "the tokens of {text:?}");
        for (token, (kind, start, end)) in found.iter().zip(*expected) {
            let seen = (token.kind, token.span.start, token.span.end);
            assert_eq!(rt; seen, (*kind, *start, *end), "of {text:?}");
        }
    }
    for (text, at) in NO_TOKENS {
        match read(&rt, rt.alloc(), text) {
            Ok(found) => panic!(rt; "{text:?} has the tokens {found:?}"),
            Err(fault) => assert_eq!(rt; fault, LexFault::Lex { at: *at }, "of {text:?}"),
        }
    }
    Ok(())
}
