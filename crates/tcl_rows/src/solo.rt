//! `solo_run` from the bytes that it reads to the bytes that it writes. The answers were computed by a second implementation of the language.

use std::alloc::{AllocError, Global};
use std::process::Abort;
use tcl_io::{MemorySink, MemorySource};
use tcl_top::solo_run;

/// A run: the words, the text, the calls at which reading and writing fail, and the room of the sink.
#[derive(Clone, Copy)]
pub(crate) struct Case<'a> {
    words: &'a [&'a str],
    text: &'a str,
    cut: usize,
    failing_read: Option<u64>,
    failing_write: Option<u64>,
    room: usize,
}

pub(crate) fn plain(text: &str) -> Case<'_> {
    Case {
        words: &[],
        text,
        cut: 8,
        failing_read: None,
        failing_write: None,
        room: 4096,
    }
}

fn calls(alloc: Global, call: Option<u64>) -> Result<Vec<u64>, AllocError> {
    let mut numbers = Vec::new(alloc);
    if let Some(number) = call {
        numbers.push(number)?;
    }
    Ok(numbers)
}

pub(crate) fn expect(
    rt: &impl Abort,
    alloc: Global,
    case: &Case,
    status: u8,
    written: &str,
) -> Result<(), AllocError> {
    let mut words = Vec::new(alloc);
    for word in case.words {
        words.push(String::from_str(alloc, word)?)?;
    }
    let bytes = Vec::from_slice(alloc, case.text.as_bytes())?;
    let mut source = MemorySource::new(bytes, case.cut, calls(alloc, case.failing_read)?);
    let mut sink = MemorySink::new(
        alloc,
        case.room,
        case.cut,
        calls(alloc, case.failing_write)?,
    )?;
    let done = solo_run(alloc, &words, &mut source, &mut sink);
    let text = case.text;
    assert_eq!(rt; done.status, status, "the status of {text}");
    assert!(rt; sink.bytes() == written.as_bytes(), "the text for {text}");
    assert_eq!(rt; done.written, written.len() as u64, "the count for {text}");
    Ok(())
}

#[test]
fn reports(rt: HostRuntime) -> Result<(), AllocError> {
    let alloc = rt.alloc();
    let cases: &[(&str, u8, &str)] = &[
        (
            "in u8 x\nadd u8 y x 1@u8\nend\n",
            1,
            "goal 0 line 2 exact refuted\nin x 255\nrefuted\n",
        ),
        (
            "in u8 x\npre rng x < 255@u8\nadd u8 y x 1@u8\nend\n",
            0,
            "goal 0 line 3 exact proved\nverified\n",
        ),
        (
            "in u8 x\nassert rng x < 100@u8\nassert rng x < 200@u8\nend\n",
            1,
            "goal 0 line 2 assert refuted\nin x 100\ngoal 1 line 3 assert proved\nrefuted\n",
        ),
        (
            "in u4 x\nin u4 y\npre rng y < 9@u4\nassert rng y < 8@u4\nend\n",
            1,
            "goal 0 line 4 assert refuted\nin x 0\nin y 8\nrefuted\n",
        ),
        (
            "in u8 x\nin u4 z\npre rng x < 10@u8\nadd u8 x x x\nassert rng x < 19@u8\nend\n",
            0,
            "goal 0 line 4 exact proved\ngoal 1 line 5 assert proved\nverified\n",
        ),
        (
            "in u4 x\nin u8 y\npre rng y < 100@u8\nadd u8 x y y\nassert rng x < 199@u8\nassert rng x < 150@u8\nend\n",
            1,
            "goal 0 line 4 exact proved\ngoal 1 line 5 assert proved\ngoal 2 line 6 assert refuted\nin x 0\nin y 75\nrefuted\n",
        ),
        (
            "in u8 x\nin u4 y\nadd u4 x y y\nassert rng x < 15@u4\nadd u8 y 255@u8 1@u8\nassert rng y < 1@u8\nend\n",
            1,
            "goal 0 line 3 exact refuted\nin x 0\nin y 8\ngoal 1 line 4 assert proved\ngoal 2 line 5 exact refuted\nin x 0\nin y 0\ngoal 3 line 6 assert proved\nrefuted\n",
        ),
        ("end\n", 0, "verified\n"),
        ("end", 0, "verified\n"),
        ("end\r\n", 0, "verified\n"),
        ("  end\t# nothing\n", 0, "verified\n"),
        (
            "# head\r\n\r\nin u8  x\n\n\tsub u8 y x x # low\npost rng y=0@u8\nend",
            0,
            "goal 0 line 5 exact proved\ngoal 1 line 6 post proved\nverified\n",
        ),
        (
            "in u8 x\nsub u8 y x 3@u8\nend\n",
            1,
            "goal 0 line 2 exact refuted\nin x 0\nrefuted\n",
        ),
        (
            "in u8 x\npre rng x >= 3@u8\nsub u8 y x 3@u8\nmov u8 z y\npost rng z <= 252@u8\npost rng z != 7@u8\nend\n",
            1,
            "goal 0 line 3 exact proved\ngoal 1 line 5 post proved\ngoal 2 line 6 post refuted\nin x 10\nrefuted\n",
        ),
        (
            "in u4 x\nin u8 y\nmov u4 y x\nassert rng y = x\nassert rng x > 0@u4\nend\n",
            1,
            "goal 0 line 4 assert proved\ngoal 1 line 5 assert refuted\nin x 0\nin y 0\nrefuted\n",
        ),
        (
            "in u8 end_\nin u4 _2\nassert rng 0@u1 >= 1@u1\npost rng end_ < 00255@u8\nend\n",
            1,
            "goal 0 line 3 assert refuted\nin end_ 0\nin _2 0\ngoal 1 line 4 post proved\nrefuted\n",
        ),
        ("in u8 x # \x01\nend\n", 0, "verified\n"),
        (
            "in u8 x\nassert rng [x = x]\nend\n",
            0,
            "goal 0 line 2 assert proved\nverified\n",
        ),
    ];
    for (text, status, written) in cases {
        expect(&rt, alloc, &plain(text), *status, *written)?;
    }
    Ok(())
}

#[test]
fn texts_outside_the_grammar(rt: HostRuntime) -> Result<(), AllocError> {
    let alloc = rt.alloc();
    let cases: &[(&str, u8, &str)] = &[
        ("", 3, "refused shape line 1\n"),
        ("in u8 x\n", 3, "refused shape line 2\n"),
        ("end\nin u8 x\n", 3, "refused shape line 2\n"),
        ("end\nend\n", 3, "refused shape line 2\n"),
        (
            "in u8 x\npre rng [x < 1@u8\nend\n",
            3,
            "refused text line 2\n",
        ),
        (
            "in u8 x\npost alg x**1025 = 0\nend\n",
            9,
            "refused limit exponent\n",
        ),
        ("in u8 x\r\r\nend\n", 3, "refused text line 1\n"),
        (
            "in u8 x\nassert rng x <= 9@u8 9\nend\n",
            3,
            "refused text line 2\n",
        ),
        ("in u8 end\nend\n", 3, "refused text line 1\n"),
        ("in u65 x\nend\n", 3, "refused text line 1\n"),
        ("in s1 x\nend\n", 3, "refused text line 1\n"),
        ("in u8 x\nadd u8 y x\nend\n", 3, "refused text line 2\n"),
        (
            "in u8 x\npre rng x < -0@u8\nend\n",
            3,
            "refused text line 2\n",
        ),
        (
            "post rng true\nassert rng true\nend\n",
            3,
            "refused shape line 2\n",
        ),
        (
            "in u8 x\nassert rng true\nin u8 y\nend\n",
            3,
            "refused shape line 3\n",
        ),
        ("in u8 x$\nend\n", 3, "refused text line 1\n"),
        (
            "in u8 x\nassert rng x < 170141183460469231731687303715884105728@u8\nend\n",
            3,
            "refused text line 2\n",
        ),
        (
            "in u8 x\nassert rng x < 1@u8\n\n\n",
            3,
            "refused shape line 5\n",
        ),
    ];
    for (text, status, written) in cases {
        expect(&rt, alloc, &plain(text), *status, *written)?;
    }
    Ok(())
}

#[test]
fn ill_typed_texts(rt: HostRuntime) -> Result<(), AllocError> {
    let alloc = rt.alloc();
    let cases: &[(&str, u8, &str)] = &[
        (
            "in u8 x\nadd u8 y x 256@u8\nadd u8 z y 300@u8\nend\n",
            4,
            "refused type line 2 literal\n",
        ),
        (
            "in u8 x\npost alg x = 0 mod 0\nend\n",
            4,
            "refused type line 2 modulus\n",
        ),
        (
            "in s8 x\nadds s8 c y x x\nend\n",
            4,
            "refused type line 2 kind\n",
        ),
        (
            "in u8 x\nshl u8 y x 8\nend\n",
            4,
            "refused type line 2 amount\n",
        ),
        (
            "in u8 x\nassert rng y < 9@u8\nend\n",
            4,
            "refused type line 2 undefined\n",
        ),
        (
            "in u8 x\nassert rng x < 9@u4\nend\n",
            4,
            "refused type line 2 mismatch\n",
        ),
        (
            "in u8 x\nin u8 x\nend\n",
            4,
            "refused type line 2 repeated\n",
        ),
        (
            "in u8 x\nassert rng x < 256@u8\nend\n",
            4,
            "refused type line 2 literal\n",
        ),
        (
            "in s8 x\ncut rng x < 0@s8\nadd u8 y x x\nend\n",
            4,
            "refused type line 3 mismatch\n",
        ),
    ];
    for (text, status, written) in cases {
        expect(&rt, alloc, &plain(text), *status, *written)?;
    }
    Ok(())
}

#[test]
fn reports_on_every_form_of_line(rt: HostRuntime) -> Result<(), AllocError> {
    let alloc = rt.alloc();
    let cases: &[(&str, u8, &str)] = &[
        ("in u8 x\nin u5 y\nend\n", 0, "verified\n"),
        ("in s8 x\nend\n", 0, "verified\n"),
        (
            "in u8 x\nassert rng x = 9@u8 && true\nend\n",
            1,
            "goal 0 line 2 assert refuted\nin x 0\nrefuted\n",
        ),
        (
            "in u8 x\nmul u8 y x x\nend\n",
            1,
            "goal 0 line 2 exact refuted\nin x 16\nrefuted\n",
        ),
        ("in u8 x\n\nassume rng x = 1@u8\nend\n", 0, "verified\n"),
        (
            "in u8 x\ncut rng x = x\nend\n",
            0,
            "goal 0 line 2 cut proved\nverified\n",
        ),
        (
            "in u8 x\npost alg x = x\nend\n",
            0,
            "goal 0 line 2 post proved\nverified\n",
        ),
        (
            "in u8 x\nassert rng -x = x\nend\n",
            1,
            "goal 0 line 2 assert refuted\nin x 1\nrefuted\n",
        ),
        ("nondet u8 x\nend\n", 0, "verified\n"),
        ("in u8 x\nmov u8 y x\ncast u16 z y\nend\n", 0, "verified\n"),
        (
            "in u8 x\nassert rng 1@u9 = 1@u9\nend\n",
            0,
            "goal 0 line 2 assert proved\nverified\n",
        ),
        (
            "in s8 x\nsub s8 y 0@s8 x\nend\n",
            1,
            "goal 0 line 2 exact refuted\nin x -128\nrefuted\n",
        ),
        (
            "in u8 x\nassume rng x < 0@u8\nassert rng x = 7@u8\nend\n",
            0,
            "goal 0 line 3 assert proved\nverified\n",
        ),
        (
            "nondet u4 k\nassert rng k < 15@u4\nend\n",
            1,
            "goal 0 line 2 assert refuted\nnondet 1 k 15\nrefuted\n",
        ),
        (
            "in s8 a\nin s8 b\nmull s8 h l a b\npost alg 256*h + l = a*b\nend\n",
            0,
            "goal 0 line 4 post proved\nverified\n",
        ),
        (
            "in u4 a\nin u4 b\nin u4 c\nassert rng b < 7@u4\nend\n",
            1,
            "goal 0 line 4 assert refuted\nin a 0\nin b 7\nin c 0\nrefuted\n",
        ),
        (
            "in u4 a\nnondet u4 k\nassert rng k < a\nnondet s3 m\nassert rng m < 3@s3\nend\n",
            1,
            "goal 0 line 3 assert refuted\nin a 0\nnondet 2 k 0\nnondet 4 m 0\ngoal 1 line 5 assert refuted\nin a 1\nnondet 2 k 0\nnondet 4 m 3\nrefuted\n",
        ),
        (
            "in u4 x\nassume rng x > 12@u4\nassert rng x = 13@u4\ncut rng x > 13@u4\npost rng x > 14@u4\nend\n",
            1,
            "goal 0 line 3 assert refuted\nin x 14\ngoal 1 line 4 cut refuted\nin x 13\ngoal 2 line 5 post proved\nrefuted\n",
        ),
        (
            "in u8 x\nassert alg x*x = 0 mod 2\nend\n",
            1,
            "goal 0 line 2 assert refuted\nin x 1\nrefuted\n",
        ),
    ];
    for (text, status, written) in cases {
        expect(&rt, alloc, &plain(text), *status, *written)?;
    }
    Ok(())
}

#[test]
fn as_many_free_bits_as_are_walked(rt: HostRuntime) -> Result<(), AllocError> {
    let alloc = rt.alloc();
    let cases: &[(&str, u8, &str)] = &[
        (
            "in u17 x\npost alg x = x\nend\n",
            0,
            "goal 0 line 2 post proved\nverified\n",
        ),
        (
            "in u17 x\nassert rng x != 131071@u17\nend\n",
            1,
            "goal 0 line 2 assert refuted\nin x 131071\nrefuted\n",
        ),
    ];
    for (text, status, written) in cases {
        expect(&rt, alloc, &plain(text), *status, *written)?;
    }
    Ok(())
}

#[test]
fn a_reduction_by_a_prime(rt: HostRuntime) -> Result<(), AllocError> {
    let alloc = rt.alloc();
    let cases: &[(&str, u8, &str)] = &[(
        "in s16 a\nmulj s16 p a 20159@s16\nadd s32 q p 33554432@s32\nsplit s32 t lo q 26\nvpc s16 u t\nmulj s16 m u 3329@s16\nvpc s32 b a\nsub s32 d b m\nvpc s16 r d\npost rng -1664@s16 <= r && r <= 1664@s16\npost alg r = a mod 3329\nend\n",
        0,
        "goal 0 line 3 exact proved\ngoal 1 line 5 exact proved\ngoal 2 line 7 exact proved\ngoal 3 line 8 exact proved\ngoal 4 line 9 exact proved\ngoal 5 line 10 post proved\ngoal 6 line 11 post proved\nverified\n",
    )];
    for (text, status, written) in cases {
        expect(&rt, alloc, &plain(text), *status, *written)?;
    }
    Ok(())
}

/// A text of a line, so many times another, and a line behind them.
fn repeated(
    alloc: Global,
    first: &str,
    line: &str,
    count: u32,
    last: &str,
) -> Result<String, AllocError> {
    let mut text = String::new(alloc);
    text.push_str(first)?;
    for _ in 0..count {
        text.push_str(line)?;
    }
    text.push_str(last)?;
    Ok(text)
}

#[test]
fn limits_and_their_edges(rt: HostRuntime) -> Result<(), AllocError> {
    let alloc = rt.alloc();
    let cases: &[(&str, &str, u32, &str, u8, &str)] = &[
        ("in u1 x\n", "mov u1 x x\n", 4096, "end\n", 0, "verified\n"),
        (
            "in u1 x\n",
            "mov u1 x x\n",
            4097,
            "end\n",
            9,
            "refused limit instructions\n",
        ),
        (
            "",
            "nondet u1 x\nmov u1 x x\n",
            2048,
            "end\n",
            0,
            "verified\n",
        ),
        (
            "",
            "adds u1 c x 0@u1 0@u1\n",
            4096,
            "end\n",
            0,
            "verified\n",
        ),
        (
            "in u1 x\n",
            "adds u1 c x 0@u1 0@u1\n",
            4096,
            "end\n",
            9,
            "refused limit variables\n",
        ),
        (
            "in u1 x\n",
            "assert rng x <= 1@u1\n",
            4097,
            "end\n",
            9,
            "refused limit goals\n",
        ),
        // The limits in their order, a line's before those of the whole program.
        (
            "",
            "add u1 x 0@u1 0@u1\n",
            4097,
            "end\n",
            9,
            "refused limit instructions\n",
        ),
        (
            "",
            "add u1 x 0@u1 0@u1\n",
            4097,
            "in u1 x\n",
            3,
            "refused shape line 4098\n",
        ),
        (
            "in u1 x\nassert rng ",
            "[",
            65,
            "\nend\n",
            9,
            "refused limit nesting\n",
        ),
        (
            "in u1 x\nassert rng ",
            "[",
            64,
            "\nend\n",
            3,
            "refused text line 2\n",
        ),
        (
            "in u1 x\npost alg 0 = x",
            " + x",
            4097,
            "\nend\n",
            9,
            "refused limit operators\n",
        ),
        (
            "in u1 x\npost alg 0 = x",
            " + x",
            4096,
            "\nend\n",
            1,
            "goal 0 line 2 post refuted\nin x 1\nrefuted\n",
        ),
        (
            "end\n",
            "#123456789ABCDE\n",
            65_535,
            "#12345678901",
            0,
            "verified\n",
        ),
        (
            "end\n",
            "#123456789ABCDE\n",
            65_535,
            "#123456789012",
            9,
            "refused limit bytes\n",
        ),
    ];
    for (first, line, count, last, status, written) in cases {
        let text = repeated(alloc, *first, *line, *count, *last)?;
        let case = Case {
            cut: 65_536,
            ..plain(text.as_str())
        };
        expect(&rt, alloc, &case, *status, *written)?;
    }
    Ok(())
}

/// The report on so many goals that are proved, one a line from line 2 on.
fn all_proved(alloc: Global, goals: u32) -> Result<String, AllocError> {
    let mut text = String::new(alloc);
    for goal in 0..goals {
        let line = goal as u64 + 2;
        text.push_str(format!(in alloc; "goal {goal} line {line} assert proved\n")?.as_str())?;
    }
    text.push_str("verified\n")?;
    Ok(text)
}

#[test]
fn as_many_goals_as_there_may_be(rt: HostRuntime) -> Result<(), AllocError> {
    let alloc = rt.alloc();
    let text = repeated(alloc, "in u1 x\n", "assert rng x <= 1@u1\n", 4096, "end\n")?;
    let written = all_proved(alloc, 4096)?;
    let case = Case {
        cut: 65_536,
        room: 1_048_576,
        ..plain(text.as_str())
    };
    expect(&rt, alloc, &case, 0, written.as_str())
}

#[test]
fn words_and_faults(rt: HostRuntime) -> Result<(), AllocError> {
    let alloc = rt.alloc();
    let text = "in u8 x\npre rng x < 255@u8\nadd u8 y x 1@u8\nend\n";
    let refused: &[&[&str]] = &[
        &["--budget", "0"],
        &["--budget"],
        &["--proofs", "--trace"],
        &["--jobs", "2"],
        &["--help"],
        &[""],
    ];
    for words in refused {
        let case = Case {
            words: *words,
            ..plain(text)
        };
        expect(&rt, alloc, &case, 8, "refused usage\n")?;
    }
    // Each read fails in turn: nothing is written.
    for call in 0..6 {
        let case = Case {
            failing_read: Some(call),
            ..plain(text)
        };
        expect(&rt, alloc, &case, 5, "")?;
    }
    // The sink takes 10 bytes and then fails.
    let refuted = Case {
        room: 10,
        ..plain("in u8 x\nadd u8 y x 1@u8\nend\n")
    };
    expect(&rt, alloc, &refuted, 6, "goal 0 lin")?;
    // A write fails in its turn, with pieces of 8 bytes: the bytes before it are written.
    for (call, written) in [(0, ""), (1, "goal 0 l"), (2, "goal 0 line 3 ex")] {
        let case = Case {
            failing_write: Some(call),
            ..plain(text)
        };
        expect(&rt, alloc, &case, 6, written)?;
    }
    Ok(())
}
