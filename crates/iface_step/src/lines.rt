//! Lines about frames.

ghost use Rattle.std.specs.Prelude.{◌≡◌, OnOk};
ghost use Rattle.layer_words.specs.Acts.{Appends};
ghost use Rattle.iface_step.specs.Seen.{plain_act};
ghost use Rattle.iface_step.specs.Transit.{line};

use crate::words::Act;
use pkt_face::{Pkt, Sign};
use sim_base::NoMemory;

/// Writes a line about a frame that goes no further, where one is wanted.
pub(crate) fn write_line<P: Pkt>(
    wanted: bool,
    sign: Sign,
    frame: P,
    out: &mut Vec<Act<P>>,
) -> Result<(), NoMemory>
    ensures { OnOk result (Appends (plain_act P.plain) out.old.items out.new.items (line wanted sign (P.plain frame))) }
{
    if wanted {
        out.push(Act::Write { sign, frame })?;
    }
    Ok(())
}

/// Writes a line with a copy of a frame, where one is wanted.
pub(crate) fn write_copy<P: Pkt>(
    wanted: bool,
    sign: Sign,
    frame: &mut P,
    maker: &mut P::Maker,
    out: &mut Vec<Act<P>>,
) -> Result<(), NoMemory>
    ensures same { P.plain frame.new ≡ P.plain frame.old }
    ensures line { OnOk result (Appends (plain_act P.plain) out.old.items out.new.items (line wanted sign (P.plain frame.old))) }
{
    if wanted {
        let frame = frame.copy(maker)?;
        out.push(Act::Write { sign, frame })?;
    }
    Ok(())
}
