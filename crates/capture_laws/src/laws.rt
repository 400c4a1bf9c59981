//! What follows from the definitions alone, for any octets.
ghost use Rattle.std.specs.Prelude.{◌≡◌, ℕ, List, ◌++◌, Bool, Option, Result, IsTrue};
ghost use Rattle.std.specs.Io.KnownBytes.{Appends};
ghost use Rattle.capture_file.specs.declared.fault.CaptureFault.{CaptureFault};
ghost use Rattle.capture_file.specs.declared.fault.CaptureStop.{CaptureStop};
ghost use Rattle.capture_file.specs.Order.{AreOctets};
ghost use Rattle.capture_laws.specs.Called.{InterfacesAreCalledApart};
ghost use Rattle.capture_laws.specs.OneCourse.{HasOneCourse, IsSure};
ghost use Rattle.capture_file.specs.Parts.{Form, Part, IsPart, AreParts, octets_of};
ghost use Rattle.capture_file.specs.Task.{Answers};
ghost use Rattle.capture_laws.specs.Writing.{PcapIsRead, PcapngIsRead};
ghost use Rattle.capture_file.specs.Wrong.{IsFault};

use capture_file::PacketTask;

/// Octets have one reading: one part stands next, or one fault is there at one place, and never both. So octets are the parts of one
/// capture at most.
pub fn octets_have_one_reading()
    ensures part { (form : Form) (octets rest others : List ℕ) (one other : Part) → AreOctets octets
        → octets ≡ one.octets ++ rest → IsPart form one.octets one.packet one.later
        → octets ≡ other.octets ++ others → IsPart form other.octets other.packet other.later → other ≡ one }
    ensures no_fault { (form : Form) (octets rest : List ℕ) (part : Part) (fault : CaptureFault) (place : ℕ) → AreOctets octets
        → octets ≡ part.octets ++ rest → IsPart form part.octets part.packet part.later → IsFault form octets fault place → ⊥ }
    ensures fault { (form : Form) (octets : List ℕ) (one other : CaptureFault) (place elsewhere : ℕ) → AreOctets octets
        → IsFault form octets one place → IsFault form octets other elsewhere → (other ≡ one) × (elsewhere ≡ place) }
    ensures parts { (octets : List ℕ) (ones others : List Part) → AreOctets octets → AreParts ones → octets ≡ octets_of ones
        → AreParts others → octets ≡ octets_of others → others ≡ ones }
{}

/// Octets have one answer by a task of which a packet does one thing to a state: two answers over the same octets, of which neither is a
/// fault of a device or of memory, are the same answer, and have written the same. A fault is the same fault at the same octet then,
/// behind as many packets. Which faults of the task are of a device is any choice.
pub fn octets_have_one_answer<T: PacketTask>()
    ensures { (of_device : T.Fault → Bool) → HasOneCourse T.rules (λ fault. IsTrue (of_device fault))
        → (start : T.State) (octets : List ℕ) (left before after unread earlier later : Option (List ℕ)) (answer other : Result T.Answer (CaptureStop T.Fault))
        → AreOctets octets → Answers T.rules start octets left before after answer → Answers T.rules start octets unread earlier later other
        → IsSure (λ fault. IsTrue (of_device fault)) answer → IsSure (λ fault. IsTrue (of_device fault)) other
        → (other ≡ answer) × ((text : List ℕ) × Appends before after text × Appends earlier later text) }
{}

/// Whatever is written is read: the octets of a pcap, in either order and with either unit of time, and of a pcapng of any sections, each
/// with interfaces, packets at these, other blocks and options, are read as exactly the packets of which they were written, and no fault
/// is found in them.
pub fn whatever_is_written_is_read()
    ensures pcap { PcapIsRead }
    ensures pcapng { PcapngIsRead }
{}

/// No two interfaces of a section are called alike, whatever names it gives them: of those that have a name of their own none has that
/// of another, nor one as that of a place, and all others are called by their places.
pub fn interfaces_are_called_apart()
    ensures { InterfacesAreCalledApart }
{}
