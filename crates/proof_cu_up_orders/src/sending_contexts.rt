//! A law of a context of the chain that sends to a DU, and of what happens beside it. The function does nothing: its contract is the law.

ghost use Rattle.std.specs.Prelude.{max, ◌≡◌, ◌≢◌, ◌+◌, ◌∷◌, ◌++◌, ℕ, List};
ghost use Rattle.bearer_defs.specs.chain_defs.Orders.{after, offers, switches_path};
ghost use Rattle.bearer_defs.specs.chain_defs.Models.{Item, Member, Model};
ghost use Rattle.proof_cu_up_orders.specs.down_orders.Down.{Froze, Went};
ghost use Rattle.law_downlink_order.specs.path.Paths.{carried_by, Frame, gap_after, taken_by};
ghost use Rattle.law_downlink_order.specs.received_packets.Received.{WasPut};
ghost use Rattle.proof_cu_up_orders.specs.sending_contexts.Sending.{IsSending, Tunnel};
ghost use Rattle.law_downlink_order.specs.waiting_frames.Frames.{Fits};
ghost use Rattle.unit_defs.specs.CuUpRecords.{CuUpBearer};

/// A context that sends to a DU does so still, whatever happens beside it, but that the radio begins anew: after orders of another context
/// (`Went` and `Froze` are what `down_orders` shows of its rows), a packet that is offered and a switch of the core's path; where the DU
/// takes the first frame, which then fits on the radio, where any frame is lost, and where the terminal takes the first packet that waits.
pub fn steps_beside_keep_what_is_sent()
    ensures others { (d t : Model) (x y : ℕ) (c : CuUpBearer) (w : Tunnel) (m : Member)
        (items : List Item) (packets : List (ℕ × List ℕ))
        → x ≢ y → Went d t y m items packets → IsSending d x c w → IsSending t x c w }
    ensures froze { (d t : Model) (x y to : ℕ) (c : CuUpBearer) (w : Tunnel) (m : Member)
        (items : List Item) (promised : ℕ)
        → x ≢ y → Froze d t y to m items promised → IsSending d x c w → IsSending t x c w }
    ensures offers { (d : Model) (x : ℕ) (c : CuUpBearer) (w : Tunnel) (packet : List ℕ)
        → IsSending d x c w → IsSending (after d (offers packet)) x c w }
    ensures path { (d : Model) (x to : ℕ) (c : CuUpBearer) (w : Tunnel)
        → IsSending d x c w → IsSending (after d (switches_path to)) x c w }
    ensures takes { (d : Model) (x : ℕ) (c : CuUpBearer) (w : Tunnel) (f : Frame) (rest : List Frame)
        → w.frames ≡ f ∷ rest → IsSending d x c w
        → let more = carried_by (gap_after w.du f f.pdu) f.pdu in
        Fits d w.waits more
        × IsSending d x c (record { du = taken_by w.du f; frames = rest; waits = w.waits ++ more }) }
    ensures loses { (d : Model) (x : ℕ) (c : CuUpBearer) (w : Tunnel) (before rest : List Frame) (f : Frame)
        → w.frames ≡ before ++ f ∷ rest → IsSending d x c w
        → IsSending d x c (record w { frames = before ++ rest }) }
    ensures receives { (d t : Model) (x : ℕ) (c : CuUpBearer) (w : Tunnel) (count : ℕ) (packet : List ℕ)
        (left : List (ℕ × List ℕ))
        → w.waits ≡ (count, packet) ∷ left → t.members x ≡ d.members x → t.epoch ≡ d.epoch
        → t.terminal.deliv ≡ max d.terminal.deliv (count + 1)
        → ((other : ℕ) (one : List ℕ) → WasPut d other one → WasPut t other one)
        → IsSending d x c w → IsSending t x c (record w { waits = left }) }
{}
