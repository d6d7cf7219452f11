//! What the words of a call choose.

ghost use Rattle.std.specs.Prelude.{◌≡◌};
ghost use Rattle.tcl_cli.specs.Options.{chosen_options};

/// The program that reads the words.
#[derive(Clone, Copy)]
pub enum Tool {
    /// The verifier with one worker.
    Solo,
    /// The verifier with many workers.
    Workers,
    /// The reader of proof files, which takes no words.
    Replay,
}

/// What the words choose.
#[derive(Clone, Copy)]
pub struct Options {
    /// How many workers there are, from 1 to 64; 4 for a tool that does not take the option.
    pub jobs: u32,
    /// How many steps a worker may take for one piece, from 1 to 1,048,576.
    pub budget: u32,
    /// How many bits of the inputs a goal is cut by, from 0 to 6.
    pub split: u32,
    /// Whether the proof file is written in place of the report.
    pub proofs: bool,
    /// Whether each event gets a line before the report.
    pub trace: bool,
}

impl Options {
    /// The options with these values, or none where the proof file and the events are both asked for.
    pub(crate) fn new(
        jobs: u32,
        budget: u32,
        split: u32,
        proofs: bool,
        trace: bool,
    ) -> Option<Options>
        ensures { result ≡ chosen_options jobs budget split proofs trace }
    {
        if proofs && trace {
            return None;
        }
        Some(Options {
            jobs,
            budget,
            split,
            proofs,
            trace,
        })
    }
}
