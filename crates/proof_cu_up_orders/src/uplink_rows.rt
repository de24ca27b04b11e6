//! Laws of the rows of a CU-UP on the uplink of one bearer: each does what its orders do. Each function does nothing: its
//! contract is the law.

ghost use Rattle.std.specs.Prelude.{◌≡◌, ℕ, Bool, true, false, not, ◌&&◌, nat_lt, List, [], ◌∷◌, Some, None};
ghost use Rattle.gnb_types.specs.declared.names.NodeId.{NodeId};
ghost use Rattle.message_types.specs.declared.rrc.Token.{Token};
ghost use Rattle.pdcp_defs.specs.Receivers.{is_duplicate, stored, deliver};
ghost use Rattle.unit_defs.specs.Ways.{Message, Pdu, Way};
ghost use Rattle.unit_defs.specs.CuUpRecords.{CuUpBearer, SourceHop, CuUpScope};
ghost use Rattle.unit_defs.specs.CuUpBearers.{frozen_to, deliver_stored, no_uplink};
ghost use Rattle.unit_defs.specs.CuUpItems.{took_uplink, uplink_ended, up_ended};
ghost use Rattle.bearer_defs.specs.chain_defs.Orders.{frozen};
ghost use Rattle.bearer_defs.specs.uplink_defs.Models.{numbered, end_marker};
ghost use Rattle.bearer_defs.specs.uplink_defs.Orders.{late, is_hop_up_done};
ghost use Rattle.proof_cu_up_orders.specs.uplink_rows.Shown.{Gives, closed_at};

/// A new packet is stored, and what the receiver hands up is delivered; at a frozen context it goes on.
pub fn new_packets_are_stored()
    ensures delivered { (way : Way (Message Token) Token Pdu) (at : CuUpScope) (count : ℕ) (p : List ℕ)
        (b : CuUpBearer) → at.flags.released ≡ false → at.flags.frozen ≡ false
        → is_duplicate b.receiver count ≡ false → let d = deliver (stored b.receiver count p) in
        Gives [] d.packets (record b { receiver = d.after }) (took_uplink way at (Some count) p b) }
    ensures forwarded { (way : Way (Message Token) Token Pdu) (at : CuUpScope) (count : ℕ) (p : List ℕ)
        (b : CuUpBearer) (hop : SourceHop) → b.hop ≡ Some hop → at.flags.released ≡ false
        → at.flags.frozen ≡ true → is_duplicate b.receiver count ≡ false
        → Gives (numbered count p ∷ []) [] (record b { receiver = stored b.receiver count p })
        (took_uplink way at (Some count) p b) }
{}

/// A duplicate is dropped; a released context passes on what was not delivered before, and stores nothing.
pub fn other_packets_are_not()
    ensures duplicates { (way : Way (Message Token) Token Pdu) (at : CuUpScope) (count : ℕ) (p : List ℕ)
        (b : CuUpBearer) → at.flags.released ≡ false → is_duplicate b.receiver count ≡ true
        → Gives [] [] b (took_uplink way at (Some count) p b) }
    ensures late_ones { (way : Way (Message Token) Token Pdu) (at : CuUpScope) (count : ℕ) (p : List ℕ)
        (b : CuUpBearer) (hop : SourceHop) → b.hop ≡ Some hop → at.flags.released ≡ true
        → nat_lt count b.receiver.deliv ≡ false
        → Gives (numbered count p ∷ []) [] b (took_uplink way at (Some count) p b) }
    ensures old_ones { (way : Way (Message Token) Token Pdu) (at : CuUpScope) (count : ℕ) (p : List ℕ)
        (b : CuUpBearer) → at.flags.released ≡ true → nat_lt count b.receiver.deliv ≡ true
        → Gives [] [] b (took_uplink way at (Some count) p b) }
{}

/// An End Marker of an uplink tunnel closes it, and one of the hop ends this; where nothing can come any more, an End
/// Marker goes on, once.
pub fn end_markers_end()
    ensures unfrozen { (way : Way (Message Token) Token Pdu) (at : CuUpScope) (teid : ℕ) (b : CuUpBearer)
        → b.hop ≡ None → Gives [] [] (closed_at b teid) (uplink_ended way at teid b) }
    ensures last_uplink { (way : Way (Message Token) Token Pdu) (at : CuUpScope) (teid : ℕ) (b : CuUpBearer)
        (hop : SourceHop) → b.hop ≡ Some hop
        → (not hop.up_ended && no_uplink (closed_at b teid).uplinks && is_hop_up_done at.flags b) ≡ true
        → Gives (end_marker ∷ []) []
        (record (closed_at b teid) { hop = Some (record hop { up_ended = true }) })
        (uplink_ended way at teid b) }
    ensures other_uplinks { (way : Way (Message Token) Token Pdu) (at : CuUpScope) (teid : ℕ)
        (b : CuUpBearer) (hop : SourceHop) → b.hop ≡ Some hop
        → (not hop.up_ended && no_uplink (closed_at b teid).uplinks && is_hop_up_done at.flags b) ≡ false
        → Gives [] [] (closed_at b teid) (uplink_ended way at teid b) }
    ensures unfrozen_hop { (way : Way (Message Token) Token Pdu) (at : CuUpScope) (b : CuUpBearer)
        → b.up_ended ≡ false → b.hop ≡ None
        → Gives [] [] (record b { up_ended = true }) (up_ended way at b) }
    ensures last_hop { (way : Way (Message Token) Token Pdu) (at : CuUpScope) (b : CuUpBearer)
        (hop : SourceHop) → b.up_ended ≡ false → b.hop ≡ Some hop
        → (not hop.up_ended && no_uplink b.uplinks
        && is_hop_up_done at.flags (record b { up_ended = true })) ≡ true
        → Gives (end_marker ∷ []) []
        (record b { up_ended = true; hop = Some (record hop { up_ended = true }) }) (up_ended way at b) }
    ensures other_hop { (way : Way (Message Token) Token Pdu) (at : CuUpScope) (b : CuUpBearer)
        (hop : SourceHop) → b.up_ended ≡ false → b.hop ≡ Some hop
        → (not hop.up_ended && no_uplink b.uplinks
        && is_hop_up_done at.flags (record b { up_ended = true })) ≡ false
        → Gives [] [] (record b { up_ended = true }) (up_ended way at b) }
{}

/// A freeze forwards all that is stored; where a frozen state ends, and where the terminal arrived, what the receiver hands
/// up is delivered first.
pub fn handovers_forward_and_deliver()
    ensures freezes { (way : Way (Message Token) Token Pdu) (at : CuUpScope) (peer : NodeId) (down up : ℕ)
        (b : CuUpBearer) → Gives (late b) []
        (frozen b (record { peer = peer; down = down; up = up; up_ended = false }))
        (frozen_to way at peer down up b) }
    ensures delivers { (way : Way (Message Token) Token Pdu) (at : CuUpScope) (b : CuUpBearer)
        → let d = deliver b.receiver in
        Gives [] d.packets (record b { receiver = d.after }) (deliver_stored way at b) }
{}
