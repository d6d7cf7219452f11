//! Which lists of words each tool takes, and what they choose. The expected values were computed by a second reading
//! of the words.

use crate::expected::agree;
use std::alloc::{AllocError, Global};
use std::fmt::Write;
use std::test::Fail;
use tcl_cli::{Options, Tool, UsageFault, read_words};

// A list to a line: the tool, the words with one space between two, and what they choose: the workers, the budget and
// the bits that are cut, or `usage`.
const LISTS: &str = "\
solo::4 131072 0
workers::4 131072 0
replay::4 131072 0
solo:--budget 0:usage
solo:--budget:usage
solo:--proofs --trace:usage
solo:--jobs 2:usage
solo:--help:usage
workers:--jobs 1:1 131072 0
workers:--jobs 64:64 131072 0
workers:--jobs 0:usage
workers:--jobs 65:usage
solo:--budget 1:4 1 0
solo:--budget 1048576:4 1048576 0
solo:--budget 1048577:usage
solo:--split 0:4 131072 0
solo:--split 6:4 131072 6
solo:--split 7:usage
solo:--budget 0000005:4 5 0
solo:--budget 00000005:usage
solo:--budget=0000000:usage
solo:--budget 5x:usage
solo:--budget +5:usage
solo:--budget -5:usage
solo:--budget=-5:usage
solo:--budget 0x10:usage
solo:--budget=4:4 4 0
solo:--budget= 4:usage
solo:--budget=:usage
solo:--budget =4:usage
solo:--budget==4:usage
solo:--budget 4 :usage
solo:--budget --split:usage
solo:--budget --split 3:usage
solo:--budget -:usage
solo:--budget --:usage
workers:--jobs 3 --budget 7 --split 2:3 7 2
workers:--split=2 --jobs=3 --budget=7:3 7 2
workers:--budget 7 --split=2 --jobs 3:3 7 2
solo:--budget 4 --budget 4:usage
workers:--jobs 3 --jobs=3:usage
solo:--:usage
solo:--budget 4 --:usage
solo:-h:usage
solo:help:usage
solo:x:usage
solo:-:usage
solo:--bud 4:usage
solo:--Budget 4:usage
solo:-budget 4:usage
solo:--budget 4 x:usage
workers:--proofs:usage
workers:--trace:usage
solo:--proofs=true:usage
solo:--budget 4 --trace:usage
solo:--jobs=2 --budget 4:usage
replay:--budget 4:usage
replay:--split 0:usage
replay:--proofs:usage
replay:--:usage
";

/// The tool of this name.
fn tool_named(name: &str) -> Option<Tool> {
    match name {
        "solo" => Some(Tool::Solo),
        "workers" => Some(Tool::Workers),
        "replay" => Some(Tool::Replay),
        _ => None,
    }
}

/// The words of a text, which has one space between two.
fn words_of(alloc: Global, text: &str) -> Result<Vec<String>, AllocError> {
    let mut words = Vec::new(alloc);
    if text.is_empty() {
        return Ok(words);
    }
    for word in text.split(' ') {
        words.push(String::from_str(alloc, word)?)?;
    }
    Ok(words)
}

/// What the options choose, as a line of the table has it.
fn text_of(alloc: Global, options: Options) -> Result<String, AllocError> {
    let mut text = String::new(alloc);
    write!(
        text,
        "{} {} {}",
        options.jobs, options.budget, options.split
    )?;
    if options.proofs {
        text.push_str(" proofs")?;
    }
    if options.trace {
        text.push_str(" trace")?;
    }
    Ok(text)
}

/// What the tool makes of the words.
fn answer(alloc: Global, tool: Tool, words: &[String]) -> Result<String, AllocError> {
    match read_words(alloc, tool, words) {
        Ok(options) => text_of(alloc, options),
        Err(UsageFault::Words) => String::from_str(alloc, "usage"),
        Err(UsageFault::Memory) => String::from_str(alloc, "memory"),
    }
}

/// What the tool makes of the words of a text.
fn answer_to_text(alloc: Global, tool: Tool, text: &str) -> Result<String, AllocError> {
    let words = words_of(alloc, text)?;
    answer(alloc, tool, words.as_slice())
}

/// The tool, the words and the answer of a row.
fn row_of(row: &str) -> Option<(Tool, &str, &str)> {
    let (name, rest) = row.split_once(':')?;
    let (text, expected) = rest.split_once(':')?;
    Some((tool_named(name)?, text, expected))
}

#[test]
fn lists_of_words(rt: HostRuntime) -> Result<(), Fail> {
    for row in LISTS.lines() {
        let (tool, text, expected) = row_of(row).ok_or("a row of lists")?;
        let found = answer_to_text(rt.alloc(), tool, text)?;
        agree(&rt, row, found.as_str(), expected);
    }
    Ok(())
}
