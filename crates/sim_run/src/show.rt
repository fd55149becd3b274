//! The command `show`: reads a capture, and writes its listing.

ghost use Rattle.std.specs.Prelude.{◌≡◌, ◌≢◌, ℕ, ◌≤◌, List, [], Some, IfSome, length};
ghost use Rattle.outside.specs.Causes.{Rose};
ghost use Rattle.pcap_form.specs.CaptureFile.{file_limit};
ghost use Rattle.pcap_form.specs.Reading.{capture_of};
ghost use Rattle.command_words.specs.declared.command.WordFault.{WordFault};
ghost use Rattle.sim_run.specs.Output.{HasGot, HasGotPrefix};
ghost use Rattle.sim_run.specs.Plain.{IsAnswer, BeforeFiles};
ghost use Rattle.sim_run.specs.Show.{shown, shown_of};

use crate::input::{InputStop, read_all};
use crate::output::write_all;
use crate::status::Status;
use capture_text::listing;
use outside::{Sink, Source, StoreStop};
use pcap_form::{CAPTURE_LIMIT, CaptureStop, read_capture};
use sim_base::NoMemory;
use std::alloc::Global;

/// Writes the listing of the capture that the source spells, or answers where it is none.
pub fn show<S: Source, O: Sink>(alloc: Global, source: &mut S, out: &mut O) -> Status
    ensures answer { IfSome (S.left source.old) (λ input. IsAnswer (shown_of input).status result) }
    ensures no_words { (fault : WordFault) → result ≢ Status.Words fault }
    ensures untouched { BeforeFiles result (out.new ≡ out.old) }
    ensures input { result ≡ Status.Done → IfSome (S.left source.old) (λ _. S.left source.new ≡ Some []) }
    ensures text { IfSome (S.left source.old) (λ input. result ≡ (shown_of input).status → HasGot (O.got out.old) (O.got out.new) (shown_of input).text) }
    ensures text_prefix { IfSome (S.left source.old) (λ input. HasGotPrefix (O.got out.old) (O.got out.new) (shown_of input).text) }
    ensures read_fault { result ≡ Status.ReadFault → Rose (S.faults source.old) (S.faults source.new) }
    ensures write_fault { result ≡ Status.WriteFault → Rose (O.faults out.old) (O.faults out.new) }
    ensures later { (S.faults source.old ≤ S.faults source.new) × (O.faults out.old ≤ O.faults out.new) }
{
    let bytes = match read_all(alloc, source, CAPTURE_LIMIT) {
        Ok(bytes) => bytes,
        Err(InputStop::Failed) => return Status::ReadFault,
        Err(InputStop::NoMemory) => return Status::NoMemory,
    };
    show_bytes(alloc, bytes.as_slice(), out)
}

/// Writes the listing of the capture that the bytes spell, or answers where they are none.
fn show_bytes<O: Sink>(alloc: Global, bytes: &[u8], out: &mut O) -> Status
    ensures answer { IsAnswer (shown (capture_of bytes.now)).status result }
    ensures no_words { (fault : WordFault) → result ≢ Status.Words fault }
    ensures no_read_fault { result ≢ Status.ReadFault }
    ensures untouched { BeforeFiles result (out.new ≡ out.old) }
    ensures short { result ≡ Status.Done → length bytes.now ≤ file_limit }
    ensures text { result ≡ (shown (capture_of bytes.now)).status → HasGot (O.got out.old) (O.got out.new) (shown (capture_of bytes.now)).text }
    ensures text_prefix { HasGotPrefix (O.got out.old) (O.got out.new) (shown (capture_of bytes.now)).text }
    ensures write_fault { result ≡ Status.WriteFault → Rose (O.faults out.old) (O.faults out.new) }
    ensures later { O.faults out.old ≤ O.faults out.new }
{
    let capture = match read_capture(alloc, bytes) {
        Ok(capture) => capture,
        Err(CaptureStop::Bad { offset }) => return Status::Capture { offset },
        Err(CaptureStop::NoMemory) => return Status::NoMemory,
    };
    let text = match listing(alloc, &capture) {
        Ok(text) => text,
        Err(NoMemory) => return Status::NoMemory,
    };
    match write_all(out, text.as_slice()) {
        Ok(()) => Status::Done,
        Err(StoreStop::Failed) => Status::WriteFault,
        Err(StoreStop::NoMemory) => Status::NoMemory,
    }
}
