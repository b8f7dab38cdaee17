//! The command that the words are.
ghost use Rattle.std.specs.Prelude.{◌≡◌, ◌≤◌, map, option_map, string_bytes, IfOk, IfSome};
ghost use Rattle.ct_words.specs.Role.{given_seen};
ghost use Rattle.ct_words.specs.Said.{place_seen, seen as said_seen};
ghost use Rattle.ct_run.specs.Words.{IsLimit, HasNumbersWithin, IsCommandWithin, limit_in, workers_in, two_texts as two_texts_of, text_and_number as text_and_number_of, texts_and_number as texts_and_number_of, one_number as one_number_of, as_command, command_of};
ghost use Rattle.ct_run.specs.Commands.{work_seen, seen};
ghost use Rattle.ct_run.specs.Plan.{is_batch as is_batch_work};
ghost use Rattle.ct_vectors.specs.declared.limits.TheConstants.{WORKER_LIMIT};

use ct_vectors::limits::MOVE_LIMIT;
use ct_words::{CommandName, Positional, Said, said_in};
use std::alloc::{AllocError, Global};

/// The number of workers where the words don't say it.
pub const WORKER_DEFAULT: u64 = 4;

/// What is done with an instance; `moves` is the limit on the number of moves, and `batch` says that several threads may do it.
#[derive(Clone, Copy, Debug)]
pub enum Work<'a> {
    /// Answers the requests of a session file.
    Answer {
        sessions: &'a str,
        walks: bool,
        levels: bool,
        batch: bool,
        moves: u32,
    },
    /// Gives the least solutions of each request of a session file, at most `count`.
    Best {
        sessions: &'a str,
        count: u64,
        moves: u32,
    },
    /// Answers the requests of a session file by a box.
    Box {
        sessions: &'a str,
        walks: bool,
        moves: u32,
    },
    /// Prints the ledger of a grade.
    Certify {
        grade: u64,
        moves: u32,
    },
    /// Checks a ledger.
    Check {
        ledger: &'a str,
        batch: bool,
    },
}

impl Work<'_> {
    /// Whether several threads may do it.
    pub fn is_batch(&self) -> bool
        ensures { result ≡ is_batch_work (work_seen self.now) }
    {
        match *self {
            Work::Answer { batch, .. } | Work::Check { batch, .. } => batch,
            Work::Best { .. } | Work::Box { .. } | Work::Certify { .. } => false,
        }
    }
}

/// A command, with the names of its files.
#[derive(Clone, Copy, Debug)]
pub enum Command<'a> {
    /// Works on the instance of a file.
    On {
        instance: &'a str,
        work: Work<'a>,
    },
    /// Answers the requests of the input that is made of a number.
    Make {
        number: u64,
    },
    /// Answers the requests of a session file by sessions and workers that share a book. Where `resume` names a ledger,
    /// the book opens at what that ledger shows.
    Serve {
        instance: &'a str,
        sessions: &'a str,
        resume: Option<&'a str>,
        workers: u32,
        walks: bool,
        levels: bool,
        moves: u32,
    },
}

// The two words, where both are texts.
fn two_texts<'a>(places: &[Positional<'a>]) -> Option<(&'a str, &'a str)>
    ensures { option_map (λ words. (words.0.now, words.1.now)) result ≡ two_texts_of (map place_seen places.now) }
{
    match places {
        [Positional::Text(first), Positional::Text(second)] => Some((*first, *second)),
        _ => None,
    }
}

// The two words, where the second is a number.
fn text_and_number<'a>(places: &[Positional<'a>]) -> Option<(&'a str, u64)>
    ensures { option_map (λ words. (words.0.now, words.1)) result ≡ text_and_number_of (map place_seen places.now) }
{
    match places {
        [Positional::Text(first), Positional::Number(second)] => Some((*first, *second)),
        _ => None,
    }
}

// The three words, where the first two are texts and the third is a number.
fn texts_and_number<'a>(places: &[Positional<'a>]) -> Option<(&'a str, &'a str, u64)>
    ensures { option_map (λ words. (words.0.now, words.1.now, words.2)) result ≡ texts_and_number_of (map place_seen places.now) }
{
    match places {
        [
            Positional::Text(first),
            Positional::Text(second),
            Positional::Number(third),
        ] => Some((*first, *second, *third)),
        _ => None,
    }
}

// The one word, where it is a number.
fn one_number(places: &[Positional<'_>]) -> Option<u64>
    ensures { result ≡ one_number_of (map place_seen places.now) }
{
    match places {
        [Positional::Number(only)] => Some(*only),
        _ => None,
    }
}

// The limit on the number of moves.
fn limit_of(said: &Said<'_>) -> u32
    requires { HasNumbersWithin (said_seen said.now) }
    ensures limit { result ≡ limit_in (map given_seen said.now.given.items) }
    ensures within { IsLimit result }
{
    match said.value("moves") {
        Some(moves) => moves as u32,
        None => MOVE_LIMIT as u32,
    }
}

// The number of workers.
fn workers_of(said: &Said<'_>) -> u32
    requires { HasNumbersWithin (said_seen said.now) }
    ensures workers { result ≡ workers_in (map given_seen said.now.given.items) }
    ensures within { result ≤ WORKER_LIMIT }
{
    match said.value("workers") {
        Some(workers) => workers as u32,
        None => WORKER_DEFAULT as u32,
    }
}

// What was said, as a command.
fn command_said<'a>(said: &Said<'a>) -> Option<Command<'a>>
    requires { HasNumbersWithin (said_seen said.now) }
    ensures command { option_map seen result ≡ as_command said.now.command (map place_seen said.now.places.items) (map given_seen said.now.given.items) }
    ensures within { IfSome result (λ command. IsCommandWithin (seen command)) }
{
    let moves = limit_of(said);
    match said.command {
        CommandName::Answer => {
            let (instance, sessions) = two_texts(&said.places)?;
            let work = Work::Answer {
                sessions,
                walks: said.has("walks"),
                levels: said.has("levels"),
                batch: said.has("batch"),
                moves,
            };
            Some(Command::On { instance, work })
        }
        CommandName::Best => {
            let (instance, sessions, count) = texts_and_number(&said.places)?;
            let work = Work::Best {
                sessions,
                count,
                moves,
            };
            Some(Command::On { instance, work })
        }
        CommandName::Box => {
            let (instance, sessions) = two_texts(&said.places)?;
            let work = Work::Box {
                sessions,
                walks: said.has("walks"),
                moves,
            };
            Some(Command::On { instance, work })
        }
        CommandName::Certify => {
            let (instance, grade) = text_and_number(&said.places)?;
            let work = Work::Certify { grade, moves };
            Some(Command::On { instance, work })
        }
        CommandName::Check => {
            let (instance, ledger) = two_texts(&said.places)?;
            let work = Work::Check {
                ledger,
                batch: said.has("batch"),
            };
            Some(Command::On { instance, work })
        }
        CommandName::Make => {
            let number = one_number(&said.places)?;
            Some(Command::Make { number })
        }
        CommandName::Serve => {
            let (instance, sessions) = two_texts(&said.places)?;
            Some(Command::Serve {
                instance,
                sessions,
                resume: said.text("resume"),
                workers: workers_of(said),
                walks: said.has("walks"),
                levels: said.has("levels"),
                moves,
            })
        }
    }
}

/// The command that the words are, if they are one.
pub fn command_in<'a>(alloc: Global, words: &'a [String]) -> Result<Option<Command<'a>>, AllocError>
    ensures command { IfOk result (λ command. option_map seen command ≡ command_of (map string_bytes words.entry.now)) }
    ensures within { IfOk result (λ command. IfSome command (λ known. IsCommandWithin (seen known))) }
{
    match said_in(alloc, words)? {
        Some(said) => Ok(command_said(&said)),
        None => Ok(None),
    }
}
