// The options: a row for each.

ghost use Rattle.std.specs.Prelude.{◌≡◌};
ghost use Rattle.tcl_cli.specs.Table.{is_for};

use crate::options::Tool;

/// Which programs take an option.
#[derive(Clone, Copy)]
pub(crate) enum Users {
    /// The program with workers alone.
    Workers,
    /// The program with one worker, and the one with many.
    SoloAndWorkers,
    /// No program as yet: the option is known, and every use of it is refused.
    Nobody,
}

/// What stands after an option's name.
#[derive(Clone, Copy)]
pub(crate) enum Kind {
    /// A number from `least` to `most`; `initial` where the option is not given.
    Number {
        /// The least number that is taken.
        least: u32,
        /// The greatest number that is taken.
        most: u32,
        /// The number of an option that is not given.
        initial: u32,
    },
    /// Nothing: the option is on where it is given, and else off.
    Flag,
}

/// An option.
#[derive(Clone, Copy)]
pub(crate) struct Entry {
    /// The name, which a word gives after two hyphens.
    pub(crate) name: &'static str,
    /// The programs that take it.
    pub(crate) users: Users,
    /// What stands after the name.
    pub(crate) kind: Kind,
}

/// How many workers there are.
pub(crate) const JOBS: Entry = Entry {
    name: "jobs",
    users: Users::Workers,
    kind: Kind::Number {
        least: 1,
        most: 64,
        initial: 4,
    },
};

/// How many steps a worker may take for one piece.
pub(crate) const BUDGET: Entry = Entry {
    name: "budget",
    users: Users::SoloAndWorkers,
    kind: Kind::Number {
        least: 1,
        most: 1_048_576,
        initial: 131_072,
    },
};

/// How many bits of the inputs a goal is cut by.
pub(crate) const SPLIT: Entry = Entry {
    name: "split",
    users: Users::SoloAndWorkers,
    kind: Kind::Number {
        least: 0,
        most: 6,
        initial: 0,
    },
};

/// The proof file in place of the report.
pub(crate) const PROOFS: Entry = Entry {
    name: "proofs",
    users: Users::Nobody,
    kind: Kind::Flag,
};

/// A line for each event, before the report.
pub(crate) const TRACE: Entry = Entry {
    name: "trace",
    users: Users::Nobody,
    kind: Kind::Flag,
};

/// All options.
pub(crate) const OPTIONS: &[Entry] = &[JOBS, BUDGET, SPLIT, PROOFS, TRACE];

impl Users {
    /// Whether the tool is one of them.
    pub(crate) fn include(self, tool: Tool) -> bool
        ensures { result ≡ is_for self tool }
    {
        match self {
            Users::Workers => matches!(tool, Tool::Workers),
            Users::SoloAndWorkers => !matches!(tool, Tool::Replay),
            Users::Nobody => false,
        }
    }
}
