//! Laws of the frames that a CU-UP sends to a DU, any of which may be lost, beside the chain of contexts. Each function does nothing: its
//! contract is the law.

ghost use Rattle.std.specs.Prelude.{max, false, ◌≡◌, ◌+◌, ℕ, Bool, List, ◌∷◌, ◌++◌, None, Some};
ghost use Rattle.std.specs.List.{AllByRecursion};
ghost use Rattle.intervals.specs.Intervals.{HasNoGap, reach};
ghost use Rattle.bearer_defs.specs.chain_defs.Models.{Model};
ghost use Rattle.unit_defs.specs.Ways.{report_pdu};
ghost use Rattle.unit_defs.specs.CuUpRecords.{DownlinkTunnel, CuUpBearer};
ghost use Rattle.unit_defs.specs.Du.{DuBearer};
ghost use Rattle.law_downlink_order.specs.path.Paths.{carried_by, Frame, frame_on, gap_after, packets_sent, taken_by};
ghost use Rattle.law_downlink_order.specs.path.Steps.{anew, sent_again, sent_anew};
ghost use Rattle.law_downlink_order.specs.received_packets.Received.{WasPut};
ghost use Rattle.law_downlink_order.specs.sent_frames.Senders.{IsSender};
ghost use Rattle.law_downlink_order.specs.waiting_frames.Frames.{Fits};

/// Where a CU-UP sends to a DU, and the frames between them are so, they are with all that it sends: packets in their order that have no
/// gap from what it sent, a poll, a status report, and after a loss all that nothing confirmed, the first with the restart mark; and with
/// what it sends first on a new tunnel, a report and all that nothing confirmed. What is sent was put for the present radio.
pub fn what_a_cu_up_sends_fits()
    ensures packets { (d : Model) (c : CuUpBearer) (b : DuBearer) (frames : List Frame)
        (waits : List (ℕ × List ℕ)) (cursor : ℕ) (packets : List (ℕ × List ℕ))
        → IsSender d c b frames waits cursor
        → AllByRecursion (λ (e : ℕ × List ℕ). WasPut d e.0 e.1) packets
        → HasNoGap cursor packets
        → IsSender d (packets_sent packets c).bearer b (frames ++ (packets_sent packets c).frames)
        waits (reach cursor packets) }
    ensures poll { (d : Model) (c : CuUpBearer) (b : DuBearer) (frames : List Frame)
        (waits : List (ℕ × List ℕ)) (cursor : ℕ) (poll : Bool)
        → IsSender d c b frames waits cursor
        → let sent = frame_on poll false None c c.downlink in
        IsSender d sent.bearer b (frames ++ sent.frames) waits cursor }
    ensures report { (d : Model) (c : CuUpBearer) (b : DuBearer) (frames : List Frame)
        (waits : List (ℕ × List ℕ)) (cursor : ℕ) (poll : Bool) (fmc : ℕ) (bits : List Bool)
        → IsSender d c b frames waits cursor
        → let sent = frame_on poll false (Some (report_pdu fmc bits)) c c.downlink in
        IsSender d sent.bearer b (frames ++ sent.frames) waits cursor }
    ensures again { (d : Model) (c : CuUpBearer) (b : DuBearer) (frames : List Frame)
        (waits : List (ℕ × List ℕ)) (cursor : ℕ) (range : ℕ × ℕ) (ranges : List (ℕ × ℕ))
        → IsSender d c b frames waits cursor
        → AllByRecursion (λ (e : ℕ × List ℕ). WasPut d e.0 e.1) c.sender.unconfirmed
        → HasNoGap d.terminal.deliv c.sender.unconfirmed
        → let sent = sent_again false (range ∷ ranges) c in
        IsSender d sent.bearer b (frames ++ sent.frames) waits
        (reach d.terminal.deliv c.sender.unconfirmed) }
    ensures anew { (d : Model) (c : CuUpBearer) (b : DuBearer) (waits : List (ℕ × List ℕ))
        (downlink : DownlinkTunnel) (fmc : ℕ) (bits : List Bool)
        → AllByRecursion (λ (e : ℕ × List ℕ). WasPut d e.0 e.1) c.sender.unconfirmed
        → HasNoGap d.terminal.deliv c.sender.unconfirmed
        → let sent = sent_anew fmc bits (anew c downlink) in
        IsSender d sent.bearer (record b { downlink = downlink.teid; awaited = 0; gap = false })
        sent.frames waits (reach d.terminal.deliv c.sender.unconfirmed) }
{}

/// They are so still where the DU takes the first frame, whatever it carries, which then fits on the radio; where any frame is lost; and
/// where the terminal takes the first packet that waits.
pub fn the_way_goes_on()
    ensures takes { (d : Model) (c : CuUpBearer) (b : DuBearer) (f : Frame) (rest : List Frame)
        (waits : List (ℕ × List ℕ)) (cursor : ℕ) → IsSender d c b (f ∷ rest) waits cursor
        → Fits d waits (carried_by (gap_after b f f.pdu) f.pdu)
        × IsSender d c (taken_by b f) rest (waits ++ carried_by (gap_after b f f.pdu) f.pdu) cursor }
    ensures loses { (d : Model) (c : CuUpBearer) (b : DuBearer) (before : List Frame) (f : Frame)
        (rest : List Frame) (waits : List (ℕ × List ℕ)) (cursor : ℕ)
        → IsSender d c b (before ++ f ∷ rest) waits cursor
        → IsSender d c b (before ++ rest) waits cursor }
    ensures receives { (d e : Model) (c : CuUpBearer) (b : DuBearer) (frames : List Frame) (count : ℕ)
        (packet : List ℕ) (left : List (ℕ × List ℕ)) (cursor : ℕ)
        → e.terminal.deliv ≡ max d.terminal.deliv (count + 1)
        → ((other : ℕ) (one : List ℕ) → WasPut d other one → WasPut e other one)
        → IsSender d c b frames ((count, packet) ∷ left) cursor
        → IsSender e c b frames left cursor }
{}
