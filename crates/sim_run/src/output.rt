//! Whole writes: the store and the sink may take a piece in parts.

ghost use Rattle.std.specs.Prelude.{◌≡◌, ◌<◌, ◌≤◌, OnOk, OnErr};
ghost use Rattle.outside.specs.Causes.{HasCause};
ghost use Rattle.sim_run.specs.Output.{HasGot, HasGotPrefix};
ghost use Rattle.sim_run.specs.Growth.{HasGrown, HasGrownPartly};

use outside::{Sink, StoreStop, TraceStore};

/// Puts a whole piece to the end of a file.
pub fn append_all<F: TraceStore>(store: &mut F, file: u64, bytes: &[u8]) -> Result<(), StoreStop>
    requires { file < F.made store.old }
    ensures ok { OnOk result (HasGrown (F.files store.old) (F.files store.new) file bytes.now) }
    ensures err { OnErr result (HasGrownPartly (F.files store.old) (F.files store.new) file bytes.now) }
    ensures made { F.made store.new ≡ F.made store.old }
    ensures cause { HasCause StoreStop.Failed (F.faults store.old) (F.faults store.new) result }
{
    let mut at = 0;
    while at < bytes.len() {
        match store.append(file, &bytes[at..]) {
            Ok(count) => at += count,
            Err(stop) => return Err(stop),
        }
    }
    Ok(())
}

/// Writes a whole piece.
pub fn write_all<O: Sink>(out: &mut O, bytes: &[u8]) -> Result<(), StoreStop>
    ensures ok { OnOk result (HasGot (O.got out.old) (O.got out.new) bytes.now) }
    ensures err { OnErr result (HasGotPrefix (O.got out.old) (O.got out.new) bytes.now) }
    ensures cause { HasCause StoreStop.Failed (O.faults out.old) (O.faults out.new) result }
{
    let mut at = 0;
    while at < bytes.len() {
        match out.write(&bytes[at..]) {
            Ok(count) => at += count,
            Err(stop) => return Err(stop),
        }
    }
    Ok(())
}
