//! What follows from the definitions alone, for any octets.
ghost use Rattle.std.specs.Prelude.{◌≡◌, ◌≤◌, ◌↔◌, ℕ, List, [], ◌∷◌, ◌++◌, length, Ok, Some};
ghost use Rattle.hex.specs.Hex.{decode_of, encode_lower};
ghost use Rattle.datagram_text.specs.Shown.{stamp_text};
ghost use Rattle.ptp_units.specs.Moment.{moment};
ghost use Rattle.text_lines.specs.Lines.{line_limit, lines_of, without_cr};
ghost use Rattle.capture_file.specs.Packet.{PacketOf};
ghost use Rattle.capture_file.specs.Task.{TakesPackets};
ghost use Rattle.capture_frame.specs.Found.{datagram_limit};
ghost use Rattle.datagram_source.specs.Datagram.{DatagramOf};
ghost use Rattle.datagram_source.specs.Rules.{IsGiven, packet_rules};
ghost use Rattle.recording_lines.specs.Timed.{line_parts, timed_in};
ghost use Rattle.capture_extract.specs.Line.{line_of, line_text};
ghost use Rattle.capture_extract.specs.Extracted.{extract_rules};

use crate::extracting::Extraction;
use crate::line::ExtractForm;
use ptp_units::Timestamp;

/// What is written of a datagram is one line, which is read whole: `show` and `measure` read no line of more octets. One with a time
/// tells exactly this time, and digits that are the datagram's octets.
pub fn lines_are_read_back(form: ExtractForm, time: Timestamp, datagram: &[u8])
    ensures line { lines_of (line_text form (stamp_text time) datagram.now) ≡ line_of form (stamp_text time) datagram.now ∷ [] }
    ensures whole { without_cr (line_of form (stamp_text time) datagram.now) ≡ line_of form (stamp_text time) datagram.now }
    ensures fits { length datagram.now ≤ datagram_limit → length (line_of form (stamp_text time) datagram.now) ≤ line_limit }
    ensures parts { timed_in (line_of ExtractForm.Timed (stamp_text time) datagram.now)
        ≡ Some (line_parts (stamp_text time) (moment time 0) (encode_lower datagram.now)) }
    ensures digits { decode_of (encode_lower datagram.now) ≡ Ok datagram.now }
{
    let _ = (time.seconds(), time.nanos());
}

/// What is written of a packet that carries no datagram, or is of another interface than the one that is asked for, is nothing: without
/// it the same is written.
pub fn what_is_no_ptp_changes_nothing()
    ensures { (packet : PacketOf) (start state : Extraction)
        → ((number : ℕ) (d : DatagramOf) → IsGiven extract_rules start number packet d → ⊥)
        → (later earlier : List PacketOf) (text : List ℕ)
        → TakesPackets (packet_rules extract_rules) start (later ++ packet ∷ earlier) state text
        ↔ TakesPackets (packet_rules extract_rules) start (later ++ earlier) state text }
{}
