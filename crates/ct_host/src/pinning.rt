//! Looking into the cell, and putting a version there.
ghost use Rattle.std.specs.Prelude.{◌≡◌, ◌≤◌, ◌++◌, ◌∷◌, [], OnOk};
ghost use Rattle.std.specs.Arc.{arc_value};
ghost use Rattle.ct_version.specs.Desks.{IsOfPlace, IsPin};
ghost use Rattle.ct_vectors.specs.Words.{Extends, latest};
ghost use Rattle.ct_book.specs.Benches.{desk_place};
ghost use Rattle.ct_host.specs.Hosts.{IsOfHost, after_pin};

use crate::host::Host;
use crate::newest::Newest;
use crate::passes::HostPass;
use ct_version::{Pin, Version};
use std::alloc::AllocError;
use std::sync::{Arc, Wait};
use turn_cell::Busy;

// One take of the cell, and what it finds.
pub fn pin(host: &Host, pass: &mut HostPass, held: u64) -> Pin
    requires { IsOfHost host.now pass.old }
    ensures one_take { pass.new ≡ after_pin pass.old (latest pass.new.words) }
    ensures answer { IsPin (desk_place host.now.place) held (latest pass.new.words) result }
    ensures rises { pass.old.seen ≤ pass.new.seen }
{
    match host.cell.take(&mut pass.cell) {
        Err(Busy { word }) => Pin::Busy { word },
        Ok(home) => {
            let answer = home.value().pinned(held);
            host.cell.give(&mut pass.cell, home);
            answer
        }
    }
}

// Puts a version into the cell, if it is newer than the one there. It may wait for others.
pub fn put<R: Wait>(
    host: &Host,
    rt: &R,
    pass: &mut HostPass,
    version: &Arc<Version>,
) -> Result<(), AllocError>
    requires own { IsOfHost host.now pass.old }
    requires place { IsOfPlace (desk_place host.now.place) (arc_value version.now) }
    ensures kept { pass.new ≡ record pass.old { seen = pass.new.seen; words = pass.new.words } }
    ensures words { Extends pass.old.words pass.new.words }
    ensures rises { pass.old.seen ≤ pass.new.seen }
    ensures seen { OnOk result ((arc_value version.now).number ≤ pass.new.seen) }
{
    let version = Arc::try_clone(version)?;
    let newest = Newest::new(version, host.limit);
    host.cell.put(rt, &mut pass.cell, newest);
    Ok(())
}
