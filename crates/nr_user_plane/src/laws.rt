//! Laws of frames. Each function does nothing: its contract is the law.

ghost use Rattle.std.specs.Prelude.{◌≡◌, ◌%◌, List, ℕ, length};
ghost use Rattle.nr_user_plane.specs.declared.frames.Frame.{Frame};
ghost use Rattle.nr_user_plane.specs.Frames.{Nru, AreOctets, FitsFrame, HasRoom, nru_octets};
ghost use Rattle.gnb_types.specs.Refusals.{NoneHolds};
ghost use Rattle.nr_user_plane.specs.Reasons.{refusals};

/// Octets are one frame at most, and then no reason to refuse them applies; octets that are no frame have a reason, the
/// first that applies. By the places of the fields and by cases on the octets one frame is read.
pub fn frame_or_reason()
    ensures one { (octets : List ℕ) (frame other : Frame) → Nru frame octets → Nru other octets
        → frame ≡ other }
    ensures no_reason { (octets : List ℕ) (frame : Frame) → Nru frame octets
        → NoneHolds (refusals octets) }
    ensures reason { (octets : List ℕ) → NoneHolds (refusals octets) → (frame : Frame)
        × Nru frame octets }
{}

/// Among contents of 4n - 2 octets a frame has one spelling.
pub fn one_spelling()
    ensures { (frame : Frame) (one other : List ℕ) → AreOctets one → AreOctets other
        → length one % 4 ≡ 2 → length other % 4 ≡ 2
        → Nru frame one → Nru frame other → one ≡ other }
{}

/// What is written has 4n - 2 octets and is read again as the same frame.
pub fn written_is_read()
    ensures frame { (frame : Frame) → FitsFrame frame → HasRoom frame
        → Nru frame (nru_octets frame) }
    ensures length { (frame : Frame) → length (nru_octets frame) % 4 ≡ 2 }
{}
