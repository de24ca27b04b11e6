//! Laws of the packets that a terminal takes, in orders of the chain of contexts, where frames of F1-U may have been lost. Each function
//! does nothing: its contract is the law.

ghost use Rattle.std.specs.Prelude.{max, ◌≡◌, ◌+◌, ◌≤◌, ℕ, List, [], ◌∷◌};
ghost use Rattle.gnb_types.specs.declared.names.SnBits.{SnBits};
ghost use Rattle.bearer_defs.specs.chain_defs.Models.{Model, initial};
ghost use Rattle.bearer_defs.specs.chain_defs.Orders.{ModelStep, after, carries, run};
ghost use Rattle.bearer_defs.specs.chain_defs.Assumptions.{AreKept};
ghost use Rattle.law_downlink_order.specs.received_packets.Received.{LeavesRadio, WasPut, receives, taken, a, after_one, b};

/// After any orders that are kept: a packet that was put for the present radio, whatever else was lost there, and whose COUNT is at most
/// the next to be received, is taken by orders that are kept too. They do what taking it does, but for what is left on the chain's
/// radio; all up to its COUNT is received then, and whatever was put stays so. What stands first on the chain's radio is such a packet.
pub fn a_packet_is_received()
    ensures kept { (sn : SnBits) (quota first teid : ℕ) (orders : List ModelStep)
        → AreKept sn quota (initial first teid) orders
        → (count : ℕ) (packet : List ℕ) → let s = run (initial first teid) orders in
        count ≤ s.terminal.deliv → WasPut s count packet
        → AreKept sn quota s (receives s count) × (run s (receives s count) ≡ taken s count packet) }
    ensures received { (sn : SnBits) (quota first teid : ℕ) (orders : List ModelStep)
        → AreKept sn quota (initial first teid) orders
        → (count : ℕ) (packet : List ℕ) → let s = run (initial first teid) orders in
        count ≤ s.terminal.deliv → WasPut s count packet
        → (run s (receives s count)).terminal.deliv ≡ max s.terminal.deliv (count + 1) }
    ensures others { (sn : SnBits) (quota first teid : ℕ) (orders : List ModelStep)
        → AreKept sn quota (initial first teid) orders
        → (count : ℕ) (packet : List ℕ) → let s = run (initial first teid) orders in
        count ≤ s.terminal.deliv → WasPut s count packet
        → (other : ℕ) (one : List ℕ) → WasPut s other one
        → WasPut (run s (receives s count)) other one }
    ensures first { (sn : SnBits) (quota first teid : ℕ) (orders : List ModelStep)
        → AreKept sn quota (initial first teid) orders
        → (count : ℕ) (packet : List ℕ) (rest : List (ℕ × List ℕ))
        → let s = run (initial first teid) orders in
        s.air ≡ (count, packet) ∷ rest → (count ≤ s.terminal.deliv) × WasPut s count packet }
{}

/// What was put for the present radio stays so by every order of the chain that begins no other radio and carries nothing.
pub fn what_was_put_stays()
    ensures { (s : Model) (order : ModelStep) → LeavesRadio order → (count : ℕ) (packet : List ℕ)
        → WasPut s count packet → WasPut (after s order) count packet }
{}

/// After a loss the terminal takes what doesn't stand first on the chain's radio: the copy that was lost stands there before it.
pub fn takes_past_a_lost_one()
    ensures stands { after_one.air ≡ (0, a) ∷ (1, b) ∷ [] }
    ensures orders { receives after_one 1 ≡ carries 0 a ((1, b) ∷ []) ∷ carries 1 b [] ∷ [] }
    ensures delivered { (run after_one (receives after_one 1)).delivered ≡ (0, a) ∷ (1, b) ∷ [] }
{}
