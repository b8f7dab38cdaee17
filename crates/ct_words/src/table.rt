//! The table of commands: a row for each, with its positional words and its options.

use ct_vectors::limits::{GRADE_LIMIT, MOVE_LIMIT, WORKER_LIMIT};

/// A command of the program.
#[derive(Clone, Copy, Debug)]
pub enum CommandName {
    /// Answers the requests of a session file.
    Answer,
    /// Gives the least solutions of each request of a session file.
    Best,
    /// Answers the requests of a session file by the moves within the greatest right-hand sides.
    Box,
    /// Prints the ledger of a grade.
    Certify,
    /// Checks a ledger.
    Check,
    /// Answers the requests of an input that is made of a number, and prints their summary.
    Make,
    /// Answers the requests of a session file by sessions and workers that share a book.
    Serve,
}

/// The least and the greatest number that a word may spell.
#[derive(Clone, Copy, Debug)]
pub struct Bounds {
    pub low: u64,
    pub high: u64,
}

/// What the value of an option is.
#[derive(Clone, Copy, Debug)]
pub enum Takes {
    /// The option is a flag.
    Nothing,
    /// A number within bounds.
    Number(Bounds),
    /// A text that isn't empty and doesn't begin with a dash.
    Name,
}

/// An option of a command, without the dashes before its name.
#[derive(Clone, Copy, Debug)]
pub struct OptionRow {
    pub name: &'static str,
    pub takes: Takes,
}

/// A command, with what each positional word is in turn, a number within bounds or a text, and its options.
#[derive(Clone, Copy, Debug)]
pub struct CommandRow {
    pub command: CommandName,
    pub name: &'static str,
    pub places: &'static [Option<Bounds>],
    pub options: &'static [OptionRow],
}

const WALKS: OptionRow = OptionRow {
    name: "walks",
    takes: Takes::Nothing,
};

const LEVELS: OptionRow = OptionRow {
    name: "levels",
    takes: Takes::Nothing,
};

const BATCH: OptionRow = OptionRow {
    name: "batch",
    takes: Takes::Nothing,
};

const MOVES: OptionRow = OptionRow {
    name: "moves",
    takes: Takes::Number(Bounds {
        low: 1,
        high: MOVE_LIMIT as u64,
    }),
};

const WORKERS: OptionRow = OptionRow {
    name: "workers",
    takes: Takes::Number(Bounds {
        low: 0,
        high: WORKER_LIMIT,
    }),
};

const RESUME: OptionRow = OptionRow {
    name: "resume",
    takes: Takes::Name,
};

const GRADE: Bounds = Bounds {
    low: 0,
    high: GRADE_LIMIT,
};

const COUNT: Bounds = Bounds { low: 1, high: 100 };

const ANY_NUMBER: Bounds = Bounds {
    low: 0,
    high: u64::MAX,
};

/// Each command, with its positional words and its options.
pub static COMMANDS: [CommandRow; 7] = [
    CommandRow {
        command: CommandName::Answer,
        name: "answer",
        places: &[None, None],
        options: &[WALKS, LEVELS, BATCH, MOVES],
    },
    CommandRow {
        command: CommandName::Best,
        name: "best",
        places: &[None, None, Some(COUNT)],
        options: &[MOVES],
    },
    CommandRow {
        command: CommandName::Box,
        name: "box",
        places: &[None, None],
        options: &[WALKS, MOVES],
    },
    CommandRow {
        command: CommandName::Certify,
        name: "certify",
        places: &[None, Some(GRADE)],
        options: &[MOVES],
    },
    CommandRow {
        command: CommandName::Check,
        name: "check",
        places: &[None, None],
        options: &[BATCH],
    },
    CommandRow {
        command: CommandName::Make,
        name: "make",
        places: &[Some(ANY_NUMBER)],
        options: &[],
    },
    CommandRow {
        command: CommandName::Serve,
        name: "serve",
        places: &[None, None],
        options: &[WORKERS, WALKS, LEVELS, MOVES, RESUME],
    },
];
