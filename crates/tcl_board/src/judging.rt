//! What is made of a submission.

ghost use Rattle.std.specs.Prelude.{◌≡◌, ◌<◌, ◌≤◌, ◌^◌, ◌-◌, ◌&&◌, map, length, slice_get, option_copied, Some};
ghost use Rattle.std.specs.List.{list_all};
ghost use Rattle.tcl_lang.specs.Goal.{goal_count};
ghost use Rattle.tcl_board.specs.Own as own;
ghost use Rattle.tcl_board.specs.Judging as judging;
ghost use Rattle.tcl_board.specs.Sight.{seen_of};
ghost use Rattle.tcl_board.specs.Moves as words;
ghost use Rattle.tcl_board.specs.Index as index;

use crate::event::{Judged, LemmaMark, Status, Submitted, Word};
use crate::evidence::{Evidence, Outcome};
use crate::reserve::Reserve;
use crate::scans;
use tcl_goals::{Claim, Cube, Fact, Hyp, Lemma, Piece, Shown, goal_place, has_goal};
use tcl_lang::Line;
use tcl_list::{Listing, Same};

/// Whether these are the same bits in the same order.
#[tactic(auto, using(crate::proofs::OwnLemmas::bits_tell))]
fn same_bits(a: &Cube, b: &Cube) -> bool
    ensures { result ≡ own.same_bits a.now b.now }
{
    a.same(b)
}

/// Whether there are two lemmas, and they are the same.
fn same_lemma(a: Option<&Lemma>, b: Option<&Lemma>) -> bool
    ensures { result ≡ own.same_lemma (option_copied a.entry) (option_copied b.entry) }
{
    match (a, b) {
        (Some(a), Some(b)) => a.level == b.level && same_bits(&a.clause, &b.clause),
        _ => false,
    }
}

/// The lemma that is shown.
fn lemma_shown(shown: &Shown) -> Option<&Lemma>
    ensures { option_copied result ≡ own.lemma_shown shown.now }
{
    match shown {
        Shown::Fact(fact) => match &fact.claim {
            Claim::Lemma(lemma) => Some(lemma),
            Claim::Goal(_) => None,
        },
        Shown::Breaks(_, _) => None,
    }
}

/// The lemma that is kept under a number.
#[tactic(auto, using(crate::proofs::OwnLemmas::get_map))]
pub(crate) fn lemma_kept<E: Evidence>(kept: &[Outcome<E>], k: u32) -> Option<&Lemma>
    ensures { option_copied result ≡ own.lemma_seen (slice_get (map (seen_of E.shows E.cited) kept.now) k) }
{
    match kept.get(k as usize) {
        Some(Outcome::Lemma(evidence)) => lemma_shown(evidence.shown()),
        _ => None,
    }
}

/// The admitted lemma of a number.
pub(crate) fn admitted_lemma<'a, E: Evidence>(
    marks: &[LemmaMark],
    kept: &'a [Outcome<E>],
    number: u32,
) -> Option<&'a Lemma>
    ensures { option_copied result ≡ own.marked_lemma (map (seen_of E.shows E.cited) kept.now) (slice_get marks.now number) }
{
    match marks.get(number as usize) {
        Some(mark) => if mark.admitted {
            lemma_kept(kept, mark.kept)
        } else {
            None
        },
        None => None,
    }
}

/// Whether a hypothesis is a line, or the board's admitted lemma of its number.
fn is_cited_own<E: Evidence>(
    evidence: &E,
    marks: &[LemmaMark],
    kept: &[Outcome<E>],
    hyp: &Hyp,
) -> bool
    ensures { result ≡ own.is_cited_own (E.cited evidence.now) (map (seen_of E.shows E.cited) kept.now) marks.now hyp.now }
{
    match hyp {
        Hyp::Line(_) => true,
        Hyp::Lemma(number) => same_lemma(
            evidence.cites(*number),
            admitted_lemma(marks, kept, *number),
        ),
    }
}

/// Whether each lemma that the hypotheses cite is the board's admitted lemma of its number.
fn cites_own<E: Evidence>(
    evidence: &E,
    marks: &[LemmaMark],
    kept: &[Outcome<E>],
    hyps: &[Hyp],
) -> bool
    ensures { result ≡ own.cites_own (E.cited evidence.now) (map (seen_of E.shows E.cited) kept.now) marks.now hyps.now }
{
    hyps.iter()
        .all(|hyp| is_cited_own(evidence, marks, kept, hyp))
}

/// Whether the fact has the goal of the piece as its claim, and its cube.
fn proves_piece(piece: &Piece, fact: &Fact) -> bool
    ensures { result ≡ judging.proves_piece piece.now fact.now }
{
    match &fact.claim {
        Claim::Goal(goal) => *goal == piece.goal && same_bits(&fact.cube, &piece.cube),
        Claim::Lemma(_) => false,
    }
}

/// The number of goals.
#[tactic(auto, using(std::proofs::lemmas::List::Sums::count_by_more_yes, std::proofs::lemmas::List::Sums::count_by_more_no))]
pub(crate) fn count_goals(lines: &[Line]) -> usize
    ensures { result ≡ goal_count lines.now }
{
    let mut goals = 0;
    for line in lines {
        if line.is_goal() {
            goals += 1;
        }
    }
    goals
}

/// The place of the last goal.
fn last_goal_place(lines: &[Line]) -> usize
    requires { length lines.now < 2 ^ 32 - 1 }
    ensures { result ≡ judging.last_goal_place lines.now }
{
    goal_place(lines, count_goals(lines).saturating_sub(1) as u32)
}

/// Whether a hypothesis is no line above this place.
fn is_hyp_within(last: usize, hyp: &Hyp) -> bool
    ensures { result ≡ judging.is_hyp_upto last hyp.now }
{
    match hyp {
        Hyp::Line(place) => *place as usize <= last,
        Hyp::Lemma(_) => true,
    }
}

/// Whether the claim is a lemma whose level is a goal.
fn is_lemma_claim(lines: &[Line], claim: &Claim) -> bool
    ensures { result ≡ judging.is_lemma_claim lines.now claim.now }
{
    match claim {
        Claim::Goal(_) => false,
        Claim::Lemma(lemma) => has_goal(lines, lemma.level),
    }
}

/// Whether no hypothesis is a line above this place.
fn are_hyps_within(last: usize, hyps: &[Hyp]) -> bool
    ensures { result ≡ list_all (judging.is_hyp_upto last) hyps.now }
{
    hyps.iter().all(|hyp| is_hyp_within(last, hyp))
}

/// Whether the fact is of a lemma.
fn shows_lemma(lines: &[Line], fact: &Fact) -> bool
    requires { length lines.now < 2 ^ 32 - 1 }
    ensures { result ≡ judging.shows_lemma lines.now fact.now }
{
    is_lemma_claim(lines, &fact.claim)
        && (fact.cube.len() == 0 && are_hyps_within(last_goal_place(lines), fact.hyps.as_slice()))
}

/// What is made of a lemma, where it is one or not, and where there are few or not.
fn judge_lemma(shows: bool, few: bool) -> Judged
    ensures { result ≡ judging.judge_lemma shows few }
{
    if !shows {
        return Judged::Refused(Submitted::Foreign);
    }
    if !few {
        return Judged::Refused(Submitted::Full);
    }
    Judged::Gives(Word::Lemma)
}

/// What is made of evidence that is shown for the piece.
fn judge_shown<E: Evidence>(
    marks: &[LemmaMark],
    kept: &[Outcome<E>],
    piece: &Piece,
    evidence: &E,
) -> Judged
    ensures judged { result ≡ judging.judge_for piece.now (map (seen_of E.shows E.cited) kept.now) marks.now (E.shows evidence.now) (E.cited evidence.now) }
    ensures holds { judging.IsShown (E.program evidence.now) (E.cited evidence.now) (E.shows evidence.now) }
{
    match evidence.shown() {
        Shown::Fact(fact) => {
            if proves_piece(piece, fact) && cites_own(evidence, marks, kept, fact.hyps.as_slice()) {
                Judged::Gives(Word::Proved)
            } else {
                Judged::Refused(Submitted::Foreign)
            }
        }
        Shown::Breaks(goal, _) => {
            if *goal <= piece.goal {
                Judged::Gives(Word::Broken(*goal))
            } else {
                Judged::Refused(Submitted::Foreign)
            }
        }
    }
}

/// What is made of evidence that is given as that of a lemma.
fn judge_as_lemma<E: Evidence>(
    lines: &[Line],
    marks: &[LemmaMark],
    kept: &[Outcome<E>],
    evidence: &E,
) -> Judged
    requires { length lines.now < 2 ^ 32 - 1 }
    ensures judged { result ≡ judging.judge_as_lemma lines.now (map (seen_of E.shows E.cited) kept.now) marks.now (E.shows evidence.now) (E.cited evidence.now) }
    ensures holds { judging.IsShown (E.program evidence.now) (E.cited evidence.now) (E.shows evidence.now) }
{
    match evidence.shown() {
        Shown::Fact(fact) => judge_lemma(
            shows_lemma(lines, fact) && cites_own(evidence, marks, kept, fact.hyps.as_slice()),
            marks.len() < 512,
        ),
        Shown::Breaks(_, _) => Judged::Refused(Submitted::Foreign),
    }
}

/// What is made of what a worker gives for this piece.
pub(crate) fn judge<E: Evidence>(
    lines: &[Line],
    marks: &[LemmaMark],
    kept: &[Outcome<E>],
    piece: &Piece,
    outcome: &Outcome<E>,
) -> Judged
    requires { length lines.now < 2 ^ 32 - 1 }
    ensures judged { result ≡ judging.judge_at lines.now (map (seen_of E.shows E.cited) kept.now) marks.now piece.now (seen_of E.shows E.cited outcome.now) }
    ensures holds { judging.OutcomeHolds E.program E.cited E.shows outcome.now }
{
    match outcome {
        Outcome::Shown(evidence) => judge_shown(marks, kept, piece, evidence),
        Outcome::Lemma(evidence) => judge_as_lemma(lines, marks, kept, evidence),
        Outcome::Ended(_) => Judged::Gives(Word::Ended),
    }
}

/// The answer to what was judged.
pub(crate) fn answer(breaks: &[Option<u32>], judged: Judged) -> Submitted
    ensures { result ≡ judging.answer_in breaks.now judged }
{
    match judged {
        Judged::Refused(answer) => answer,
        Judged::Gives(Word::Broken(goal)) => {
            if scans::recorded(breaks, goal) {
                Submitted::Settled
            } else {
                Submitted::Taken
            }
        }
        Judged::Gives(_) => Submitted::Taken,
    }
}

/// Whether the word is a break of the piece's own goal.
pub(crate) fn breaks_own(piece: &Piece, word: Word) -> bool
    ensures { result ≡ words.breaks_own (Some piece.now) word }
{
    match word {
        Word::Broken(goal) => piece.goal == goal,
        _ => false,
    }
}

/// Whether the word is a break of a goal that has one already.
pub(crate) fn breaks_again(breaks: &[Option<u32>], word: Word) -> bool
    ensures { result ≡ words.breaks_again breaks.now word }
{
    match word {
        Word::Broken(goal) => scans::recorded(breaks, goal),
        _ => false,
    }
}

/// Whether the word is a break of the piece's own goal, which has one already.
pub(crate) fn is_dropped(piece: &Piece, breaks: &[Option<u32>], word: Word) -> bool
    ensures { result ≡ (words.breaks_own (Some piece.now) word && words.breaks_again breaks.now word) }
{
    breaks_own(piece, word) && breaks_again(breaks, word)
}

/// Takes the worker from its piece, unless it gave a lemma.
pub(crate) fn leave(holders: &mut Listing<Option<u32>>, worker: u32, word: Word)
    requires { worker < length holders.old }
    ensures { holders.new ≡ index.holders_after holders.old worker word }
{
    match word {
        Word::Lemma => (),
        _ => holders.set(worker as usize, None),
    }
}

/// Records a step for the piece of a number; `own` tells whether it is a break of the piece's own goal.
pub(crate) fn record_step(
    statuses: &mut Listing<Status>,
    breaks: &mut Listing<Option<u32>>,
    lemmas: &mut Reserve<LemmaMark>,
    piece: u32,
    own: bool,
    word: Word,
    kept: u32,
)
    requires piece { piece < length statuses.old }
    requires goal { judging.GoalIn word (length breaks.old) }
    requires room { judging.RoomFor word (length lemmas.old.0) lemmas.old.1 }
    ensures statuses { statuses.new ≡ words.status_after statuses.old piece own word kept }
    ensures breaks { breaks.new ≡ words.breaks_after breaks.old word kept }
    ensures lemmas { lemmas.new ≡ (words.lemmas_after lemmas.old.0 word kept, lemmas.old.1) }
{
    match word {
        Word::Proved => statuses.set(piece as usize, Status::Proved(kept)),
        Word::Broken(goal) => {
            let status = if own {
                Status::Broken
            } else {
                Status::Strayed(goal, kept)
            };
            statuses.set(piece as usize, status);
            if !scans::recorded(breaks.as_slice(), goal) {
                breaks.set(goal as usize, Some(kept));
            }
        }
        Word::Ended => statuses.set(piece as usize, Status::Ended(kept)),
        Word::Lemma => lemmas.push(LemmaMark {
            kept,
            admitted: false,
        }),
    }
}
