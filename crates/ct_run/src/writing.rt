//! The text of an ending is written.
ghost use Rattle.std.specs.Prelude.{◌≤◌};
ghost use Rattle.ct_run.specs.Stopping.{IsWritten, IsFinished};

use crate::ending::Ending;
use crate::status::Status;
use crate::stop::Stop;
use ct_outside::{Sink, write_whole};

// Writes the text of the ending.
fn written<O: Sink>(ending: &Ending, out: &mut O) -> Status
    ensures written { IsWritten O.held O.faults out.old out.new result ending.now }
    ensures later { O.faults out.old ≤ O.faults out.new }
{
    match write_whole(out, ending.text.as_slice()) {
        Ok(()) => ending.status,
        Err(_) => Status::WriteFault,
    }
}

/// The status of a run that came to this ending or stop, with the text of the ending written.
pub fn finished<O: Sink>(ended: Result<Ending, Stop>, out: &mut O) -> Status
    ensures finished { IsFinished O.held O.faults out.old out.new result ended }
    ensures later { O.faults out.old ≤ O.faults out.new }
{
    match ended {
        Ok(ending) => written(&ending, out),
        Err(Stop::Refused(ending)) => written(&ending, out),
        Err(Stop::ReadFault) => Status::ReadFault,
        Err(Stop::Memory) => Status::Memory,
    }
}
