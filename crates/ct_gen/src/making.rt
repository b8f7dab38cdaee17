//! The instance and the script of a number.

ghost use Rattle.std.specs.Prelude.{◌≡◌, ◌+◌, ◌*◌, ◌≤◌, ◌%◌, ◌<◌, ◌^◌, nat_abs, All, length, IfOk, OnOk};
ghost use Rattle.ct_vectors.specs.declared.limits.TheConstants.{ENTRY_LIMIT, COST_LIMIT};
ghost use Rattle.ct_input.specs.Script.{IsScript};
ghost use Rattle.ct_gen.specs.Draws.{draws};
ghost use Rattle.ct_gen.specs.Made.{made_entries, made_costs, made_instance, made_session, made_phase, made_script};

use crate::draws::Source;
use ct_input::{Phase, Request, Script};
use ct_instance::{BadMatrix, Instance};
use ct_point::Seq;
use std::alloc::{AllocError, Global};

/// The columns of a made instance.
pub const MADE_COLUMNS: u64 = 6;

/// The requests of each of the four sessions of a made script.
pub const MADE_REQUESTS: u64 = 250;

fn entries(alloc: Global, source: &mut Source) -> Result<Vec<u64>, AllocError>
    requires { source.old.1 ≡ 0 }
    ensures entries { IfOk result (λ v. v.items ≡ made_entries source.old.0) }
    ensures source { OnOk result (source.new ≡ (source.old.0, MADE_COLUMNS)) }
{
    let drawn = source.draws(alloc, MADE_COLUMNS)?;
    drawn.iter().map(|d| 10 + *d % 50).collect(alloc)
}

fn costs(alloc: Global, source: &mut Source) -> Result<Vec<i64>, AllocError>
    requires { source.old.1 ≡ MADE_COLUMNS }
    ensures costs { IfOk result (λ v. v.items ≡ made_costs source.old.0) }
    ensures source { OnOk result (source.new ≡ (source.old.0, 2 * MADE_COLUMNS)) }
{
    let drawn = source.draws(alloc, MADE_COLUMNS)?;
    drawn.iter().map(|d| (1 + *d % 100) as i64).collect(alloc)
}

fn instance(alloc: Global, source: &mut Source) -> Result<Instance, AllocError>
    requires { source.old.1 ≡ 0 }
    ensures instance { IfOk result (λ i. i ≡ made_instance source.old.0) }
    ensures source { OnOk result (source.new ≡ (source.old.0, 2 * MADE_COLUMNS)) }
{
    let entries = entries(alloc, source)?;
    let costs = costs(alloc, source)?;
    match Instance::from_limited(alloc, 1, MADE_COLUMNS as u32, &entries, &costs) {
        Ok(instance) => Ok(instance),
        Err(BadMatrix::Memory) => Err(AllocError),
        Err(BadMatrix::ZeroColumn { col: _ }) => unreachable!(),
    }
}

fn session(alloc: Global, source: &mut Source, index: u64) -> Result<Seq<Request>, AllocError>
    requires here { source.old.1 ≡ 2 * MADE_COLUMNS + index * MADE_REQUESTS }
    requires few { index < 4 }
    ensures requests { IfOk result (λ s. s ≡ made_session source.old.0 index) }
    ensures source { OnOk result (source.new ≡ (source.old.0, 2 * MADE_COLUMNS + (index + 1) * MADE_REQUESTS)) }
{
    let drawn = source.draws(alloc, MADE_REQUESTS)?;
    let mut requests = Vec::new(alloc);
    for d in &drawn {
        let b = Vec::from_slice(alloc, &[*d % 100_000])?;
        requests.push(Request::Solve(Seq::from_vec(b)))?;
    }
    Ok(Seq::from_vec(requests))
}

fn phase(alloc: Global, source: &mut Source, index: u64) -> Result<Phase, AllocError>
    requires here { source.old.1 ≡ 2 * MADE_COLUMNS + index * MADE_REQUESTS }
    requires few { index < 3 }
    ensures phase { IfOk result (λ p. p ≡ made_phase source.old.0 index) }
    ensures source { OnOk result (source.new ≡ (source.old.0, 2 * MADE_COLUMNS + (index + 2) * MADE_REQUESTS)) }
{
    let mut sessions = Vec::new(alloc);
    sessions.push(session(alloc, source, index)?)?;
    sessions.push(session(alloc, source, index + 1)?)?;
    Ok(Phase {
        target: 0,
        sessions: Seq::from_vec(sessions),
    })
}

/// The instance and the script of a number: one row, six columns, and two phases with the target 0, each with two
/// sessions of 250 requests to solve. It takes 1,012 draws, and some tens of kilobytes.
pub fn made(alloc: Global, number: u64) -> Result<(Instance, Script), AllocError>
    ensures instance { IfOk result (λ made. made.0 ≡ made_instance number) }
    ensures script { IfOk result (λ made. made.1 ≡ made_script number) }
    ensures right { IfOk result (λ made. IsScript 1 made.1) }
{
    let mut source = Source::new(number);
    let instance = instance(alloc, &mut source)?;
    let mut phases = Vec::new(alloc);
    phases.push(phase(alloc, &mut source, 0)?)?;
    phases.push(phase(alloc, &mut source, 2)?)?;
    let script = Script {
        phases: Seq::from_vec(phases),
    };
    Ok((instance, script))
}
