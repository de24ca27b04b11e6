//! Laws of what units do to the downlink of a bearer while no control message comes. Each function does nothing: its contract is
//! the law.

ghost use Rattle.std.specs.Prelude.{◌≡◌, ℕ, false, List, [], ◌∷◌, ◌++◌, Option, Some};
ghost use Rattle.std.specs.Ordering.{nat_cmp};
ghost use Rattle.gnb_types.specs.declared.names.BearerId.{BearerId};
ghost use Rattle.gnb_types.specs.declared.names.Dir.TheVariants.{Dl};
ghost use Rattle.gnb_types.specs.declared.names.UeId.{UeId};
ghost use Rattle.gnb_types.specs.Orders.{bearer_cmp};
ghost use Rattle.tables.specs.Tables.{find};
ghost use Rattle.unit_defs.specs.CuUp.{context_of, cu_up_acts};
ghost use Rattle.unit_defs.specs.Du.{context_of as du_context_of, Du, DuBearer, DuContext, DuTunnel, confirmed, du_acts};
ghost use Rattle.unit_defs.specs.Ue.{UeBearer, UeNode, ue_acts};
ghost use Rattle.unit_defs.specs.CuUpRecords.{CuUp, DownlinkTunnel, CuUpBearer, CuUpContext, CuUpTunnel, f1u_uplink, n3, cu_up_scope};
ghost use Rattle.unit_defs.specs.Ways.{Content, confirm_input, frame_item, fresh_item, packet_content, packet_input, radio_input, status_item, Way};
ghost use Rattle.law_downlink_scripts.specs.downlink_only_rows.DownlinkOnly.{frame_passed, serving, UeTakes, UpTakes};

/// What comes on N3 at a bearer that serves is held, or it waits, and what waits is numbered and sent, in its order; a delivery
/// status that reports no loss makes room for it. Nothing else is put.
pub fn a_cu_up_sends_in_order<M, C, P>()
    ensures fresh_ones { (way : Way M C P) (r : CuUp M C) (teid : ℕ) (t : CuUpTunnel) (c : CuUpContext)
        (b : CuUpBearer) (d : DownlinkTunnel) → c.flags ≡ serving → (p : List ℕ)
        → find nat_cmp r.tunnels teid ≡ Some t → t.kind ≡ n3 → context_of r t.ue ≡ Some c
        → find bearer_cmp c.bearers t.bearer ≡ Some b → b.downlink ≡ Some d → b.restart ≡ false
        → UpTakes way r t.ue c (cu_up_scope t.ue c t.bearer) d (record b { waiting = b.waiting ++ p ∷ [] })
        (cu_up_acts way r (packet_input teid (fresh_item p))) }
    ensures statuses { (way : Way M C P) (r : CuUp M C) (teid : ℕ) (t : CuUpTunnel) (c : CuUpContext)
        (b : CuUpBearer) (d : DownlinkTunnel) → c.flags ≡ serving → (delivered : Option ℕ)
        → find nat_cmp r.tunnels teid ≡ Some t → t.kind ≡ f1u_uplink → context_of r t.ue ≡ Some c
        → find bearer_cmp c.bearers t.bearer ≡ Some b → b.downlink ≡ Some d → b.restart ≡ false
        → UpTakes way r t.ue c (cu_up_scope t.ue c t.bearer) d b
        (cu_up_acts way r (packet_input teid (status_item [] delivered))) }
{}

/// A DU puts the packet of a frame whose number it awaits, without a gap, on the radio, and then awaits the next number; of what
/// was confirmed there it tells the number.
pub fn a_du_passes_in_order<M, C, P>()
    ensures frames { (way : Way M C P) (r : Du M C) (teid : ℕ) (t : DuTunnel) (c : DuContext)
        (b : DuBearer) (number : ℕ) (pdu : P) → find nat_cmp r.tunnels teid ≡ Some t
        → du_context_of r t.ue ≡ Some c → find bearer_cmp c.bearers t.bearer ≡ Some b
        → b.awaited ≡ number → b.gap ≡ false
        → du_acts way r (packet_input teid (frame_item false false number (Some pdu)))
        ≡ frame_passed way t.ue t.bearer c b pdu r }
    ensures confirmations { (way : Way M C P) (r : Du M C) (ue : UeId) (bearer : BearerId)
        (c : DuContext) (b : DuBearer) (pdu : P) (content : Content) → du_context_of r ue ≡ Some c
        → find bearer_cmp c.bearers bearer ≡ Some b
        → du_acts way r (confirm_input ue bearer Dl pdu content)
        ≡ confirmed way ue bearer r b (way.number c.sn pdu) }
{}

/// A terminal holds the packet that it awaits, or delivers it alone and awaits the next one, where it stores nothing.
pub fn a_terminal_delivers_in_order<M, C, P>()
    ensures { (way : Way M C P) (u : UeNode) (bearer : BearerId) (b : UeBearer) (count : ℕ)
        (p : List ℕ) (who : UeId) (pdu : P) → find bearer_cmp u.bearers bearer ≡ Some b
        → b.receiver ≡ record { deliv = count; stored = [] }
        → UeTakes way u bearer b count p
        (ue_acts way u (radio_input who bearer Dl pdu (packet_content (Some count) p))) }
{}
