//! The reader of a ledger text.

ghost use Rattle.std.specs.Prelude.{◌≡◌, ◌≤◌, ◌<◌, ◌+◌, ◌∷◌, [], length, All, IfOk};
ghost use Rattle.ct_vectors.specs.declared.limits.TheConstants.{ROW_LIMIT, COLUMN_LIMIT, GRADE_LIMIT, MOVE_LIMIT};
ghost use Rattle.ct_text.specs.Pieces.{split};
ghost use Rattle.ct_lines.specs.Reading.{Gives, numbers_left};
ghost use Rattle.ct_lines.specs.Wording.{read, read_from};
ghost use Rattle.ct_lines.specs.Stops.{Found};
ghost use Rattle.ct_ledger.specs.declared.stage.Stage.{Stage as Seen};
ghost use Rattle.ct_ledger.specs.declared.stage.Stage.TheVariants.{Title, Size, Grade, Body, Closed};
ghost use Rattle.ct_ledger.specs.Parts.{HasNumbers};
ghost use Rattle.ct_ledger.specs.Grammar.{move_line, walks_line, pair_line, body_line, may_move as may_move_in, next_line, is_closed, HasSize};

use crate::entries::LedgerEntry;
use crate::ledgers::Ledger;
use crate::stage::Stage;
use ct_instance::Job;
use ct_lines::{LineReader, LineStop, TextStop as LedgerStop, Words, read_text};
use ct_point::{Point, Seq};
use ct_vectors::limits::{COLUMN_LIMIT, GRADE_LIMIT, MOVE_LIMIT, ROW_LIMIT};
use std::alloc::Global;

fn after_title(words: &mut Words) -> Result<Stage, LineStop>
    ensures { Gives (λ stage. stage) result (read (next_line Title) words.old) }
{
    words.word(b"ledger")?;
    words.word(b"1")?;
    words.end()?;
    Ok(Stage::Size)
}

fn after_size(words: &mut Words) -> Result<Stage, LineStop>
    ensures gives { Gives (λ stage. stage) result (read (next_line Size) words.old) }
    ensures size { IfOk result HasSize }
{
    words.word(b"size")?;
    let rows = words.number(1, ROW_LIMIT as u64)?;
    let columns = words.number(1, COLUMN_LIMIT as u64)?;
    words.end()?;
    Ok(Stage::Grade {
        rows: rows as u32,
        columns: columns as u32,
    })
}

fn after_grade(alloc: Global, rows: u32, columns: u32, words: &mut Words) -> Result<Stage, LineStop>
    requires { HasSize (Grade rows columns) }
    ensures gives { Gives (λ stage. stage) result (read (next_line (Grade rows columns)) words.old) }
    ensures size { IfOk result HasSize }
{
    words.word(b"grade")?;
    let grade = words.number(0, GRADE_LIMIT)?;
    words.end()?;
    Ok(Stage::Body(Ledger::open(alloc, rows, columns, grade)))
}

// A point of a move.
fn point(alloc: Global, width: usize, words: &mut Words) -> Result<Point, LineStop>
    requires some { 1 ≤ width }
    requires limit { width ≤ ROW_LIMIT + COLUMN_LIMIT }
    ensures gives { Gives (λ p. (p, words.new)) result (numbers_left width GRADE_LIMIT words.old) }
    ensures width { IfOk result (λ p. length p ≡ width) }
    ensures within { IfOk result (λ p. All (λ x. x ≤ GRADE_LIMIT) p) }
{
    let numbers = words.numbers(alloc, width, GRADE_LIMIT)?;
    let point = Point::from_slice(alloc, numbers.as_slice())?;
    Ok(point)
}

// After `move`.
#[tactic(auto, unfolding(crate::specs::Grammar::move_line))]
fn after_move(alloc: Global, mut ledger: Ledger, words: &mut Words) -> Result<Stage, LineStop>
    requires { length ledger.moves < MOVE_LIMIT }
    ensures gives { Gives (λ stage. stage) result (read (move_line ledger) words.old) }
    ensures size { IfOk result HasSize }
{
    let (rows, columns) = ledger.size();
    let width = (columns + rows) as usize;
    let head = point(alloc, width, words)?;
    words.word(b"to")?;
    let tail = point(alloc, width, words)?;
    words.end()?;
    ledger.push_move(head, tail)?;
    Ok(Stage::Body(ledger))
}

// Two walks of a job.
#[tactic(auto, unfolding(crate::specs::Grammar::walks_line))]
fn after_job(
    alloc: Global,
    mut ledger: Ledger,
    job: Job,
    words: &mut Words,
) -> Result<Stage, LineStop>
    requires { HasNumbers job }
    ensures gives { Gives (λ stage. stage) result (read (walks_line ledger job) words.old) }
    ensures size { IfOk result HasSize }
{
    let first = words.walk(alloc)?;
    words.word(b"|")?;
    let second = words.walk(alloc)?;
    words.end()?;
    ledger.push_entry(LedgerEntry::Walks(job, Seq::from_vec(first), Seq::from_vec(second)))?;
    Ok(Stage::Body(ledger))
}

// After `pair`.
#[tactic(auto, unfolding(crate::specs::Grammar::pair_line))]
fn after_pair(alloc: Global, mut ledger: Ledger, words: &mut Words) -> Result<Stage, LineStop>
    ensures gives { Gives (λ stage. stage) result (read (pair_line ledger) words.old) }
    ensures size { IfOk result HasSize }
{
    let first = words.number(1, MOVE_LIMIT as u64)?;
    let second = words.number(1, MOVE_LIMIT as u64)?;
    let job = Job::Pair(first as u32, second as u32);
    if !words.goes(b"coprime") {
        return after_job(alloc, ledger, job, words);
    }
    words.end()?;
    ledger.push_entry(LedgerEntry::Coprime(job))?;
    Ok(Stage::Body(ledger))
}

// Moves stand above all entries, and are limited in number.
fn may_move(ledger: &Ledger) -> bool
    ensures { result ≡ may_move_in ledger.now }
{
    ledger.entries().is_empty() && ledger.moves().len() < MOVE_LIMIT
}

#[tactic(auto, unfolding(crate::specs::Grammar::body_line))]
fn in_body(alloc: Global, ledger: Ledger, words: &mut Words) -> Result<Stage, LineStop>
    ensures gives { Gives (λ stage. stage) result (read (body_line ledger) words.old) }
    ensures size { IfOk result HasSize }
{
    if words.goes(b"move") {
        if !may_move(&ledger) {
            return Err(LineStop::Refused);
        }
        return after_move(alloc, ledger, words);
    }
    if words.goes(b"generator") {
        let column = words.number(1, MOVE_LIMIT as u64)?;
        return after_job(alloc, ledger, Job::Generator(column as u32), words);
    }
    if words.goes(b"pair") {
        return after_pair(alloc, ledger, words);
    }
    words.word(b"end")?;
    words.end()?;
    Ok(Stage::Closed(ledger))
}

// What a ledger text is read by.
#[derive(Drop)]
struct LedgerReader {
    alloc: Global,
}

impl LineReader for LedgerReader {
    type Stage = Stage;

    type Value = Ledger;

    ghost Seen = { Seen };

    ghost seen = { λ stage. stage };

    ghost next_line = { next_line };

    ghost is_closed = { is_closed };

    ghost closed = { Closed };

    ghost IsStage = { HasSize };

    fn stage_after(&self, stage: Stage, line: &[u8]) -> Result<Stage, LineStop> {
        let mut words = Words::new(line);
        match stage {
            Stage::Title => after_title(&mut words),
            Stage::Size => after_size(&mut words),
            Stage::Grade { rows, columns } => after_grade(self.alloc, rows, columns, &mut words),
            Stage::Body(ledger) => in_body(self.alloc, ledger, &mut words),
            Stage::Closed(_) => Err(LineStop::Refused),
        }
    }

    fn value_of(&self, stage: Stage) -> Option<Ledger> {
        match stage {
            Stage::Closed(ledger) => Some(ledger),
            _ => None,
        }
    }
}

// The ledger of the whole text.
pub fn ledger_of(alloc: Global, bytes: &[u8]) -> Result<Ledger, LedgerStop>
    ensures { Found Closed result (read_from next_line is_closed 1 Title (split 10 bytes.now)) }
{
    read_text(&LedgerReader { alloc }, Stage::Title, bytes)
}
