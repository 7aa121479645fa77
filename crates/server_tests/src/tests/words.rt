// Words that are read where memory is ample, and words that are none.
use super::runs::words_of;
use edit_server::{Command, Mode, Usage, read_words};
use std::test::Fail;

#[test]
fn words_are_read(rt: HostRuntime) -> Result<(), Fail> {
    let words = words_of(rt.alloc(), &["gen", "--size=5", "--seed", "1"])?;
    let read = Command {
        mode: Mode::Gen,
        turns: 20_000,
        workers: 0,
        seed: 1,
        size: 5,
    };
    assert_eq!(rt; read_words(rt.alloc(), words.as_slice()), Ok(read));
    let words = words_of(rt.alloc(), &["check", "--turns", "0"])?;
    assert_eq!(rt;
        read_words(rt.alloc(), words.as_slice()),
        Err(Usage::NoReading)
    );
    Ok(())
}
