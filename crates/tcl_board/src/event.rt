//! Events, answers, and where pieces and lemmas stand.

/// What was submitted. A break names its goal.
#[derive(Clone, Copy, PartialEq, Eq)]
pub enum Word {
    Proved,
    Broken(u32),
    Ended,
    Lemma,
}

/// What was admitted.
#[derive(Clone, Copy, PartialEq, Eq)]
pub enum Admitted {
    Goal(u32),
    Lemma(u32),
}

/// A step of the board, with the numbers of the worker and the piece.
#[derive(Clone, Copy, PartialEq, Eq)]
pub enum Event {
    Claim(u32, u32),
    Submit(u32, u32, Word),
    Admit(Admitted),
    Cancel(u32, u32),
}

/// The answer to what is submitted.
#[derive(Clone, Copy, PartialEq, Eq)]
pub enum Submitted {
    Taken,
    NotHeld,
    Foreign,
    Full,
    Settled,
}

/// Where a piece stands. An end has the number of what was kept with it; a break of the piece's own goal is kept with the goal.
#[derive(Clone, Copy, PartialEq, Eq)]
pub enum Status {
    Unclaimed,
    Held(u32),
    Proved(u32),
    Ended(u32),
    Broken,
    /// A break of a smaller goal, and the number under which it is kept.
    Strayed(u32, u32),
    Cancelled,
}

/// Where a lemma stands: the number of what was kept with it.
#[derive(Clone, Copy, PartialEq, Eq)]
pub struct LemmaMark {
    pub kept: u32,
    pub admitted: bool,
}

/// What is made of a submission: it is refused, or it is a step with this word.
#[derive(Clone, Copy, PartialEq, Eq)]
pub enum Judged {
    Refused(Submitted),
    Gives(Word),
}
