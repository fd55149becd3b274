//! What holds of the files that are written. The function does nothing: its contract is the law.

ghost use Rattle.std.specs.Prelude.{◌≡◌, ℕ, ◌^◌, ◌<◌, ◌≤◌, List, All, Ok, length};
ghost use Rattle.pcap_form.specs.CaptureFile.{file_limit, IsCapture};
ghost use Rattle.pcap_form.specs.Reading.{capture_of};
ghost use Rattle.pcap_form.specs.Written.{Saved, IsWritable, file_bytes, capture_written};

/// A head and packets, as they are written, are a capture file, and are read back: each packet with its time, its lengths
/// and the place of its bytes.
pub fn written_captures_are_files()
    ensures files { (linktype : ℕ) (packets : List Saved) → linktype < 2 ^ 32 → All IsWritable packets → length (file_bytes linktype packets) ≤ file_limit → IsCapture (file_bytes linktype packets) (capture_written linktype packets) }
    ensures read { (linktype : ℕ) (packets : List Saved) → linktype < 2 ^ 32 → All IsWritable packets → length (file_bytes linktype packets) ≤ file_limit → capture_of (file_bytes linktype packets) ≡ Ok (capture_written linktype packets) }
{}
