//! The requests of a script in the order of its file.
ghost use Rattle.std.specs.Prelude.{◌≡◌, ◌++◌, map, All, IfOk, OnOk};
ghost use Rattle.std.specs.List.{flat_map};
ghost use Rattle.ct_instance.specs.Instance.{Problem};
ghost use Rattle.ct_input.specs.Script.{right_of, IsScript};
ghost use Rattle.ct_best_report.specs.BestReport.{rights_in, IsAsked};

use ct_input::{Request, Script};
use ct_point::Seq;
use std::alloc::{AllocError, Global};

/// The numbers of each request, in the order of the file. It takes 16 bytes a request.
pub fn rights_of<'a>(alloc: Global, script: &'a Script) -> Result<Vec<&'a [u64]>, AllocError>
    ensures rights { IfOk result (λ rights. map (λ b. b.now) rights.items ≡ rights_in script.now) }
    ensures asked { IfOk result (λ rights. (i : Problem) → IsScript i.rows script.now → All (IsAsked i) (map (λ b. b.now) rights.items)) }
{
    let mut rights = Vec::new(alloc);
    for phase in script.phases.as_slice() {
        push_sessions(&mut rights, phase.sessions.as_slice())?;
    }
    Ok(rights)
}

fn push_sessions<'a>(
    rights: &mut Vec<&'a [u64]>,
    sessions: &'a [Seq<Request>],
) -> Result<(), AllocError>
    ensures { OnOk result (map (λ b. b.now) rights.new.items ≡ map (λ b. b.now) rights.old.items ++ flat_map (λ requests. map right_of requests) sessions.now) }
{
    for requests in sessions {
        push_requests(rights, requests.as_slice())?;
    }
    Ok(())
}

fn push_requests<'a>(rights: &mut Vec<&'a [u64]>, requests: &'a [Request]) -> Result<(), AllocError>
    ensures { OnOk result (map (λ b. b.now) rights.new.items ≡ map (λ b. b.now) rights.old.items ++ map right_of requests.now) }
{
    for request in requests {
        rights.push(request.right())?;
    }
    Ok(())
}
