// The deepest trees that a line can have, in the main thread and in a spawned one: read, copied, printed and dropped.

use std::alloc::{AllocError, Global};
use std::process::Abort;
use std::thread::join;
use tcl_list::{Copies, Same};
use tcl_parse::parse;
use tcl_report::program_text;

/// Reads a canonical text, copies its program, prints it, and drops all.
fn is_read_copied_and_printed(alloc: Global, text: &[u8]) -> bool {
    match parse(alloc, text) {
        Ok(parsed) => match (parsed.copy_in(alloc), program_text(alloc, parsed.program())) {
            (Ok(copy), Ok(written)) => copy.program().same(parsed.program())
                && written.as_slice() == text,
            _ => false,
        },
        Err(_) => false,
    }
}

/// One line: its beginning, 4,096 times a part with an operator, its end.
fn deep_text(alloc: Global, first: &str, part: &str, last: &str) -> Result<String, AllocError> {
    let mut text = String::new(alloc);
    text.push_str(first)?;
    for _ in 0..4096 {
        text.push_str(part)?;
    }
    text.push_str(last)?;
    Ok(text)
}

#[test]
fn lines_of_4096_operators(rt: HostRuntime) -> Result<(), AllocError> {
    let alloc = rt.alloc();
    let cases = [
        ("pre alg 0 = x", " + x", "\nend\n"),
        ("pre alg 0 = x", " * x", "\nend\n"),
        ("pre rng 0@u8 = x", " | x", "\nend\n"),
        ("pre rng true", " && true", "\nend\n"),
    ];
    for (first, part, last) in cases {
        let text = deep_text(alloc, first, part, last)?;
        let bytes = text.as_str().as_bytes();
        let (spawned, here) = join(
            &rt,
            || is_read_copied_and_printed(alloc, bytes),
            || is_read_copied_and_printed(alloc, bytes),
        );
        assert!(&rt; spawned && here, "a line of {part}");
    }
    Ok(())
}
