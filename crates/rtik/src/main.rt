//! The program `rtik`: it runs a federation file from the standard input and writes to the
//! standard output. Its exit status is that of the top call, and 1 where it cannot get its words.
#![tactic(auto)]

use kit_io::{StdSink, StdSource};
use kit_top::{Through, Word, rtik};
use std::process::ExitCode;
use std::{array, env, io};

// The words of the command line, after the program's name.
fn words_of(rt: &HostRuntime) -> io::Result<Vec<Word>> {
    let mut words = Vec::new(rt.alloc());
    for word in env::args(rt)?.skip(1) {
        words.push(Word::of(rt.alloc(), word.as_str())?)?;
    }
    Ok(words)
}

fn main(rt: HostRuntime) -> ExitCode {
    let Ok(words) = words_of(&rt) else {
        return ExitCode::FAILURE;
    };
    let mut source = StdSource::new(rt.stdin());
    let mut sink = StdSink::new(rt.stdout());
    let mut gates: [Through; 16] = array::from_fn(|_| Through);
    let ended = rtik(&rt, rt.alloc(), &words, &mut source, &mut sink, &mut gates);
    ExitCode::from(ended.status.code())
}
