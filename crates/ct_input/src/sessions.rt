//! The session text.

ghost use Rattle.std.specs.Prelude.{◌≡◌, ◌-◌, [], IfOk, IfSome, length, codes};
ghost use Rattle.ct_input.specs.Sheet.{Gives};
ghost use Rattle.ct_input.specs.Grammar.{read};
ghost use Rattle.ct_input.specs.SessionText.{request, no_request, requests, session, sessions, phase, phases, request_count, session_text};
ghost use Rattle.ct_input.specs.Script.{IsScript};
ghost use Rattle.ct_input.specs.Files.{session_file};

use crate::fault::{Fault, InputStop};
use crate::limits::{PHASE_LIMIT, REQUEST_LIMIT, SESSION_FILE_LIMIT};
use crate::lists::numbers;
use crate::reader::Reader;
use crate::script::{Phase, Request, Script};
use ct_point::Seq;
use ct_vectors::limits::{GRADE_LIMIT, RIGHT_LIMIT, SESSION_LIMIT};
use std::alloc::Global;

#[tactic(auto, using(crate::proofs::Parts::read_part), unfolding(crate::specs::SessionText::request))]
fn request_of(alloc: Global, reader: &mut Reader, rows: usize) -> Result<Option<Request>, InputStop>
    ensures { Gives (λ found. (found, reader.new)) result (read (request rows) reader.old) }
{
    if reader.goes(b"ask") {
        let b = numbers(alloc, reader, rows, RIGHT_LIMIT)?;
        return Ok(Some(Request::Ask(Seq::from_vec(b))));
    }
    if reader.goes(b"solve") {
        let b = numbers(alloc, reader, rows, RIGHT_LIMIT)?;
        return Ok(Some(Request::Solve(Seq::from_vec(b))));
    }
    Ok(None)
}

// The file has no request to spare.
fn no_more_requests(reader: &Reader) -> Result<(), InputStop>
    ensures { Gives (λ _. ([], reader.now)) result (read no_request reader.now) }
{
    reader.barred(b"ask")?;
    reader.barred(b"solve")?;
    Ok(())
}

fn requests_of(
    alloc: Global,
    reader: &mut Reader,
    rows: usize,
    spare: usize,
) -> Result<Vec<Request>, InputStop>
    ensures { Gives (λ found. (found.items, reader.new)) result (read (requests rows spare) reader.old) }
{
    let mut found = Vec::new(alloc);
    for _ in 0..spare {
        let next = request_of(alloc, reader, rows)?;
        match next {
            None => return Ok(found),
            Some(request) => found.push(request)?,
        }
    }
    no_more_requests(reader)?;
    Ok(found)
}

#[tactic(auto, using(crate::proofs::Parts::read_part), unfolding(crate::specs::SessionText::session))]
fn session_of(
    alloc: Global,
    reader: &mut Reader,
    rows: usize,
    spare: usize,
) -> Result<Option<Seq<Request>>, InputStop>
    ensures { Gives (λ found. (found, reader.new)) result (read (session rows spare) reader.old) }
{
    if reader.goes(b"session") {
        let found = requests_of(alloc, reader, rows, spare)?;
        return Ok(Some(Seq::from_vec(found)));
    }
    Ok(None)
}

// Takes the requests that it reads from what is spare.
fn sessions_of(
    alloc: Global,
    reader: &mut Reader,
    rows: usize,
    spare: &mut usize,
) -> Result<Vec<Seq<Request>>, InputStop>
    ensures gives { Gives (λ found. (found.items, reader.new)) result (read (sessions rows spare.old) reader.old) }
    ensures spare { IfOk result (λ found. spare.new ≡ spare.old - request_count found.items) }
{
    let mut found = Vec::new(alloc);
    for _ in 0..SESSION_LIMIT {
        let next = session_of(alloc, reader, rows, *spare)?;
        match next {
            None => return Ok(found),
            Some(session) => {
                *spare = spare.saturating_sub(session.as_slice().len());
                found.push(session)?;
            }
        }
    }
    reader.barred(b"session")?;
    Ok(found)
}

#[tactic(auto, using(crate::proofs::Parts::read_part), unfolding(crate::specs::SessionText::phase))]
fn phase_of(
    alloc: Global,
    reader: &mut Reader,
    rows: usize,
    spare: &mut usize,
) -> Result<Option<Phase>, InputStop>
    ensures gives { Gives (λ found. (found, reader.new)) result (read (phase rows spare.old) reader.old) }
    ensures spare { IfOk result (λ found. IfSome found (λ p. spare.new ≡ spare.old - request_count p.sessions)) }
{
    if reader.goes(b"phase") {
        let target = reader.number(0, GRADE_LIMIT)?;
        let sessions = sessions_of(alloc, reader, rows, spare)?;
        return Ok(Some(Phase {
            target,
            sessions: Seq::from_vec(sessions),
        }));
    }
    Ok(None)
}

fn phases_of(
    alloc: Global,
    reader: &mut Reader,
    rows: usize,
    mut spare: usize,
) -> Result<Vec<Phase>, InputStop>
    ensures { Gives (λ found. (found.items, reader.new)) result (read (phases rows spare) reader.old) }
{
    let mut found = Vec::new(alloc);
    for _ in 0..PHASE_LIMIT {
        let next = phase_of(alloc, reader, rows, &mut spare)?;
        match next {
            None => return Ok(found),
            Some(phase) => found.push(phase)?,
        }
    }
    reader.barred(b"phase")?;
    Ok(found)
}

#[tactic(auto, using(crate::proofs::Parts::read_part), unfolding(crate::specs::SessionText::session_text))]
fn script_in(alloc: Global, reader: &mut Reader, rows: usize) -> Result<Script, InputStop>
    ensures { Gives (λ script. (script, reader.new)) result (read (session_text rows) reader.old) }
{
    reader.word(b"sessions")?;
    reader.word(b"1")?;
    let phases = phases_of(alloc, reader, rows, REQUEST_LIMIT)?;
    reader.word(b"end")?;
    reader.nothing()?;
    Ok(Script {
        phases: Seq::from_vec(phases),
    })
}

/// The script of a session file of at most 16,777,216 bytes for an instance with so many rows, in one pass over its
/// bytes. The script takes 8 bytes a number of each request and a few words for each request, session and phase.
#[tactic(auto, unfolding(crate::specs::Files::session_file))]
pub fn read_sessions(alloc: Global, rows: usize, bytes: &[u8]) -> Result<Script, InputStop>
    ensures gives { Gives (λ script. script) result (session_file rows bytes.now) }
    ensures script { IfOk result (IsScript rows) }
{
    if bytes.len() > SESSION_FILE_LIMIT {
        return Err(InputStop::Fault(Fault::TooLong));
    }
    let mut reader = Reader::new(bytes);
    script_in(alloc, &mut reader, rows)
}
