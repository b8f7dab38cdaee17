//! The right-hand sides of a script that a version covers.
ghost use Rattle.std.specs.Prelude.{◌≡◌, ◌≤◌, All, OnOk, IfOk, IsTrue};
ghost use Rattle.ct_vectors.specs.declared.limits.TheConstants.{RIGHT_LIMIT};
ghost use Rattle.ct_vectors.specs.Vectors.{total};
ghost use Rattle.ct_instance.specs.Instance.{IsRight};
ghost use Rattle.ct_instance.specs.Versions.{Covers, level_of};
ghost use Rattle.ct_input.specs.Script.{IsRequest, IsPhase};
ghost use Rattle.ct_batch.specs.Answering.{CanBeAnswered};

use ct_input::{Phase, Request};
use ct_order::sum;
use ct_point::Seq;
use ct_version::{Finished, Version};
use std::alloc::{AllocError, Global};

/// The right-hand sides in order, as copies.
pub fn covered_in(
    alloc: Global,
    version: &Version,
    phases: &[Phase],
) -> Result<Vec<Seq<u64>>, AllocError>
    requires { All (IsPhase version.now.instance.rows) phases.now }
    ensures { IfOk result (λ v. All (CanBeAnswered version.now) v.items) }
{
    let mut rights = Vec::new(alloc);
    for phase in phases {
        add_sessions(alloc, version, phase.sessions.as_slice(), &mut rights)?;
    }
    Ok(rights)
}

// Appends those of the sessions of a phase.
fn add_sessions(
    alloc: Global,
    version: &Version,
    sessions: &[Seq<Request>],
    rights: &mut Vec<Seq<u64>>,
) -> Result<(), AllocError>
    requires sessions { All (λ requests. All (IsRequest version.now.instance.rows) requests) sessions.now }
    requires rights { All (CanBeAnswered version.now) rights.old.items }
    ensures { OnOk result (All (CanBeAnswered version.now) rights.new.items) }
{
    for requests in sessions {
        add_requests(alloc, version, requests.as_slice(), rights)?;
    }
    Ok(())
}

// Appends those of the requests of a session.
fn add_requests(
    alloc: Global,
    version: &Version,
    requests: &[Request],
    rights: &mut Vec<Seq<u64>>,
) -> Result<(), AllocError>
    requires requests { All (IsRequest version.now.instance.rows) requests.now }
    requires rights { All (CanBeAnswered version.now) rights.old.items }
    ensures { OnOk result (All (CanBeAnswered version.now) rights.new.items) }
{
    for request in requests {
        add_request(alloc, version, request.right(), rights)?;
    }
    Ok(())
}

// Appends b, if it is covered.
fn add_request(
    alloc: Global,
    version: &Version,
    b: &[u64],
    rights: &mut Vec<Seq<u64>>,
) -> Result<(), AllocError>
    requires right { IsRight version.now.instance b.now }
    requires limit { All (λ x. x ≤ RIGHT_LIMIT) b.now }
    requires rights { All (CanBeAnswered version.now) rights.old.items }
    ensures { OnOk result (All (CanBeAnswered version.now) rights.new.items) }
{
    if covers(version, b) {
        rights.push(Seq::from_vec(Vec::from_slice(alloc, b)?))?;
    }
    Ok(())
}

// Whether the version covers the sum of b.
fn covers(version: &Version, b: &[u64]) -> bool
    requires right { IsRight version.now.instance b.now }
    requires limit { All (λ x. x ≤ RIGHT_LIMIT) b.now }
    ensures { IsTrue result → Covers (level_of version.now.instance version.now.number) (total b.now) }
{
    // Called for what it ensures: there is such a version.
    let _number = version.number();
    match version.finished() {
        Finished::All => true,
        Finished::Upto(finished) => sum(b) <= finished,
    }
}
