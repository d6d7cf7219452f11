//! The steps of the board of a call. The expected ones follow from the order of pieces: the cut piece of a goal is claimed before its whole piece.

use std::alloc::{AllocError, Global};
use tcl_board::{Admitted, Event, Word};
use tcl_io::{MemorySink, MemorySource};
use tcl_list::Listing;
use tcl_top::{Done, solo_run};

/// The steps of the call on this text.
fn events_of(alloc: Global, text: &str) -> Result<Listing<Event>, AllocError> {
    let bytes = Vec::from_slice(alloc, text.as_bytes())?;
    let mut source = MemorySource::new(bytes, 64, Vec::new(alloc));
    let mut sink = MemorySink::new(alloc, 4096, 64, Vec::new(alloc))?;
    let Done {
        status: _,
        written: _,
        events,
    } = solo_run(alloc, &[], &mut source, &mut sink);
    Ok(events)
}

#[test]
fn steps_of_the_board(rt: HostRuntime) -> Result<(), AllocError> {
    let cases: &[(&str, &[Event])] = &[
        // The cut piece proves the goal.
        (
            "in u8 x\nassert rng x = x\nend\n",
            &[
                Event::Claim(0, 0),
                Event::Submit(0, 0, Word::Proved),
                Event::Admit(Admitted::Goal(0)),
            ],
        ),
        // The cut piece ends with a model, and the whole one finds an input.
        (
            "in u8 x\nadd u8 y x 1@u8\nend\n",
            &[
                Event::Claim(0, 0),
                Event::Submit(0, 0, Word::Ended),
                Event::Claim(0, 1),
                Event::Submit(0, 1, Word::Broken(0)),
            ],
        ),
        // The cut piece makes the lemma that bit 31 of x is 0, which is admitted, and then proves the goal.
        (
            "in u32 x\npre rng x & 4294967295@u32 <= 3@u32\nassert rng x <= 3@u32\nend\n",
            &[
                Event::Claim(0, 0),
                Event::Submit(0, 0, Word::Lemma),
                Event::Admit(Admitted::Lemma(0)),
                Event::Submit(0, 0, Word::Proved),
                Event::Admit(Admitted::Goal(0)),
            ],
        ),
        // The second goal is given the lemma of the first, and makes no other.
        (
            "in u32 x\npre rng x & 4294967295@u32 <= 3@u32\nassert rng x <= 3@u32\nassert rng x & 3@u32 = x\nend\n",
            &[
                Event::Claim(0, 0),
                Event::Submit(0, 0, Word::Lemma),
                Event::Admit(Admitted::Lemma(0)),
                Event::Submit(0, 0, Word::Proved),
                Event::Admit(Admitted::Goal(0)),
                Event::Claim(0, 2),
                Event::Submit(0, 2, Word::Proved),
                Event::Admit(Admitted::Goal(1)),
            ],
        ),
        // A text without goals, and one outside the grammar.
        ("in u8 x\nend\n", &[]),
        ("in u8\nend\n", &[]),
    ];
    for (text, expected) in cases {
        let events = events_of(rt.alloc(), text)?;
        assert!(&rt; events.as_slice() == *expected, "the steps for {text}");
    }
    Ok(())
}
