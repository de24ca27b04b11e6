//! Laws of the frames that stand on a DU's downlink tunnel, any of which may be lost, beside the chain of contexts and the radio down. Each
//! function does nothing: its contract is the law.

ghost use Rattle.std.specs.Prelude.{max, ◌≡◌, ◌+◌, ◌≤◌, ℕ, false, List, [], ◌∷◌, ◌++◌, Some, length};
ghost use Rattle.std.specs.List.{AllByRecursion};
ghost use Rattle.intervals.specs.Intervals.{HasNoGap, reach};
ghost use Rattle.bearer_defs.specs.chain_defs.Models.{Model};
ghost use Rattle.unit_defs.specs.CuUpRecords.{DownlinkTunnel, CuUpBearer};
ghost use Rattle.unit_defs.specs.Du.{DuBearer};
ghost use Rattle.law_downlink_order.specs.path.Paths.{carried_by, Frame, gap_after, packets_sent, taken_by};
ghost use Rattle.law_downlink_order.specs.received_packets.Received.{WasPut};
ghost use Rattle.law_downlink_order.specs.waiting_frames.Frames.{Fits, from_here, IsLine, MayPutAll, needed_by};

/// Where the frames on its tunnel are so, what the DU takes from the first one, and puts on the radio, fits there; and those that are
/// left are so after it.
pub fn a_du_puts_what_fits()
    ensures { (d : Model) (b : DuBearer) (f : Frame) (rest : List Frame)
        (waits : List (ℕ × List ℕ)) (next needed : ℕ)
        → IsLine d b (f ∷ rest) waits next needed
        → Fits d waits (carried_by (gap_after b f f.pdu) f.pdu)
        × IsLine d (taken_by b f) rest (waits ++ carried_by (gap_after b f f.pdu) f.pdu) next needed }
{}

/// Where one of them is lost, the others are still so.
pub fn a_lost_frame_leaves_the_others()
    ensures { (d : Model) (b : DuBearer) (before : List Frame) (f : Frame) (rest : List Frame)
        (waits : List (ℕ × List ℕ)) (next needed : ℕ)
        → IsLine d b (before ++ f ∷ rest) waits next needed
        → IsLine d b (before ++ rest) waits next needed }
{}

/// They are so still where the terminal received more, what waits on the radio reaches as far, and what was put for the present radio is
/// so still: as where it takes the first packet that waits.
pub fn they_are_so_later()
    ensures later { (d e : Model) (b : DuBearer) (frames : List Frame)
        (waits left : List (ℕ × List ℕ)) (next needed : ℕ)
        → d.terminal.deliv ≤ e.terminal.deliv
        → reach d.terminal.deliv waits ≤ reach e.terminal.deliv left
        → ((count : ℕ) (packet : List ℕ) → WasPut d count packet → WasPut e count packet)
        → IsLine d b frames waits next needed → IsLine e b frames left next needed }
    ensures taken { (d e : Model) (b : DuBearer) (frames : List Frame) (count : ℕ) (packet : List ℕ)
        (left : List (ℕ × List ℕ)) (next needed : ℕ)
        → e.terminal.deliv ≡ max d.terminal.deliv (count + 1)
        → ((count : ℕ) (packet : List ℕ) → WasPut d count packet → WasPut e count packet)
        → IsLine d b frames ((count, packet) ∷ left) next needed
        → IsLine e b frames left next needed }
{}

/// A fresh tunnel has no frames, and they are so. Frames that a CU-UP puts at its end are, where each is one that may be put there; and
/// packets are such, in the order in which they are sent, the first with the restart mark where one is assumed, where they have no gap from
/// what was received, or from what was sent before them.
pub fn a_cu_up_puts_what_fits()
    ensures fresh { (d : Model) (b : DuBearer) (teid : ℕ) (waits : List (ℕ × List ℕ))
        → IsLine d (record b { downlink = teid; awaited = 0; gap = false }) [] waits 0
        d.terminal.deliv }
    ensures puts { (d : Model) (b : DuBearer) (frames more : List Frame)
        (waits : List (ℕ × List ℕ)) (next needed : ℕ)
        → IsLine d b frames waits next needed → MayPutAll d needed next more
        → IsLine d b (frames ++ more) waits (next + length more) (needed_by needed more) }
    ensures packets { (d : Model) (packets : List (ℕ × List ℕ)) (c : CuUpBearer) (downlink : DownlinkTunnel)
        (needed : ℕ) → c.downlink ≡ Some downlink
        → AllByRecursion (λ (e : ℕ × List ℕ). WasPut d e.0 e.1) packets
        → HasNoGap (from_here c.restart d.terminal.deliv needed) packets
        → MayPutAll d needed downlink.next (packets_sent packets c).frames
        × (from_here (packets_sent packets c).bearer.restart d.terminal.deliv
        (needed_by needed (packets_sent packets c).frames)
        ≡ reach (from_here c.restart d.terminal.deliv needed) packets) }
{}
