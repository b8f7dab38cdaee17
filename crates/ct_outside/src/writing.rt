//! A whole text into a sink that takes it piece by piece.
ghost use Rattle.std.specs.Prelude.{◌≤◌, OnOk, OnErr};
ghost use Rattle.std.specs.Io.KnownBytes.{Appends};
ghost use Rattle.ct_outside.specs.Faults.{Rose};
ghost use Rattle.ct_outside.specs.Sink.{AppendsFront};

use crate::{Sink, SinkFailed};

/// Appends the text in as many writes as the sink needs, at most one for each byte. The first write
/// that fails ends it, and the sink then holds a front of the text.
pub fn write_whole<O: Sink>(out: &mut O, text: &[u8]) -> Result<(), SinkFailed>
    ensures ok { OnOk result (Appends (O.held out.old) (O.held out.new) text.now) }
    ensures front { OnErr result (AppendsFront (O.held out.old) (O.held out.new) text.now) }
    ensures later { O.faults out.old ≤ O.faults out.new }
    ensures cause { OnErr result (Rose (O.faults out.old) (O.faults out.new)) }
{
    let mut done = 0;
    while done < text.len() {
        done += out.write(&text[done..])?;
    }
    Ok(())
}
