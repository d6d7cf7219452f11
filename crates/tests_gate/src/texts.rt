//! What a board shows, as a text.

use std::alloc::{AllocError, Global};
use tcl_board::{Admitted, Board, Event, Evidence, Word};
use tcl_goals::Verdict;

/// An event.
fn write_event(text: &mut String, event: &Event) -> Result<(), AllocError> {
    match event {
        Event::Claim(worker, piece) => write!(text, " {worker} claims {piece},"),
        Event::Submit(worker, piece, Word::Proved) => write!(text, " {worker} proves {piece},"),
        Event::Submit(worker, piece, Word::Broken(goal)) => {
            write!(text, " {worker} breaks goal {goal} by {piece},")
        }
        Event::Submit(worker, piece, Word::Ended) => write!(text, " {worker} ends {piece},"),
        Event::Submit(worker, piece, Word::Lemma) => {
            write!(text, " {worker} has a lemma by {piece},")
        }
        Event::Admit(Admitted::Goal(goal)) => write!(text, " goal {goal},"),
        Event::Admit(Admitted::Lemma(number)) => write!(text, " lemma {number},"),
        Event::Cancel(worker, piece) => write!(text, " {worker} leaves {piece},"),
    }
}

/// Which lemmas the proof of a piece cites.
fn write_cited<E: Evidence>(
    text: &mut String,
    board: &Board<E>,
    piece: u32,
) -> Result<(), AllocError> {
    if let Some(evidence) = board.proof_of(piece) {
        for number in 0..board.lemma_count() {
            if evidence.cites(number).is_some() {
                write!(&mut *text, " {piece} cites {number},")?;
            }
        }
    }
    Ok(())
}

/// The verdict.
fn word_of(verdict: Verdict) -> &'static str {
    match verdict {
        Verdict::Verified => "verified:",
        Verdict::Refuted => "refuted:",
        Verdict::Unproved => "unproved:",
    }
}

/// Whether the board is finished and has this budget, the verdict, the events in order, and the lemmas that the proofs of its
/// pieces cite. The only error is that memory has run out.
pub fn text_of<E: Evidence>(
    alloc: Global,
    board: &Board<E>,
    budget: u32,
) -> Result<String, AllocError> {
    let mut text = String::new(alloc);
    text.push_str(if board.closed(board.ssa(), board.plan(), budget) {
        "closed, "
    } else {
        "open, "
    })?;
    text.push_str(word_of(board.verdict()))?;
    for event in board.events() {
        write_event(&mut text, event)?;
    }
    for piece in board.plan().as_slice() {
        write_cited(&mut text, board, piece.number)?;
    }
    Ok(text)
}
