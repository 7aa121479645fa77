//! The program: its words, standard input and standard output, handed to `run`, whose status it
//! ends with. This edge is trusted.
#![tactic(auto)]

use bv_base::{StdSink, StdSource};
use edit_server::{Status, run};
use obligation_board::OpenGate;
use std::alloc::Global;
use std::env;
use std::io::{self, ErrorKind};
use std::process::ExitCode;
use std::rt::Env;

/// The words after the program's name.
fn words_of(rt: &(impl Env + AllocGlobal)) -> io::Result<Vec<String>> {
    let words = env::args(rt)?.skip(1).collect(rt.alloc())?;
    Ok(words)
}

fn main(rt: HostRuntime) -> ExitCode {
    let mut source = StdSource::new(rt.reader());
    let mut sink = StdSink::new(io::writer(&rt));
    let status = match words_of(&rt) {
        Ok(words) => run(&rt, words.as_slice(), &mut source, &mut sink, &OpenGate),
        Err(error) if error.kind() == ErrorKind::OutOfMemory => Status::Memory,
        // A word that isn't UTF-8 is no command.
        Err(_) => run(&rt, &[], &mut source, &mut sink, &OpenGate),
    };
    ExitCode::from(status.code())
}
