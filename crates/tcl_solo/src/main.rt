//! Reads a program on standard input, proves or refutes its goals, and writes the report to standard output.
//! It ends with the status of the top call.
#![tactic(auto)]

use std::alloc::{AllocError, Global};
use std::process::ExitCode;
use std::{env, io};
use tcl_io::{StdSink, StdSource};
use tcl_top::solo_run;

/// The words behind the program's name. Words that are no text are handed on as one empty word, which is refused.
fn words_of(alloc: Global, rt: &HostRuntime) -> Result<Vec<String>, AllocError> {
    let Ok(words) = env::args(rt) else {
        let mut refused = Vec::new(alloc);
        refused.push(String::new(alloc))?;
        return Ok(refused);
    };
    words.skip(1).collect(alloc)
}

fn main(rt: HostRuntime) -> ExitCode {
    let Ok(words) = words_of(rt.alloc(), &rt) else {
        return ExitCode::from(7);
    };
    let mut source = StdSource::new(rt.stdin());
    let mut sink = StdSink::new(io::writer(&rt));
    let done = solo_run(rt.alloc(), &words, &mut source, &mut sink);
    ExitCode::from(done.status)
}
