//! Laws of the rows of a DU: what each does to one bearer is what its steps do on the way down, and what its orders do up.
//! Each function does nothing: its contract is the law.

ghost use Rattle.std.specs.Prelude.{◌≡◌, ℕ, ◌-◌, Bool, true, false, not, ◌||◌, nat_lt, List, [], ◌∷◌, ◌++◌, Some, None};
ghost use Rattle.std.specs.Ordering.{nat_cmp, eq_by_cmp};
ghost use Rattle.gnb_types.specs.declared.names.NodeId.{NodeId};
ghost use Rattle.gnb_types.specs.declared.names.UeId.{UeId};
ghost use Rattle.gnb_types.specs.declared.names.BearerId.{BearerId};
ghost use Rattle.gnb_types.specs.declared.names.SnBits.{SnBits};
ghost use Rattle.gnb_types.specs.declared.names.Dir.TheVariants.{Dl, Ul};
ghost use Rattle.gnb_types.specs.declared.keys.Channel.{Channel};
ghost use Rattle.gnb_types.specs.declared.plans.Peer.{Peer};
ghost use Rattle.gnb_types.specs.declared.plans.Tunnel.{Tunnel};
ghost use Rattle.gnb_types.specs.declared.outputs.Tag.TheVariants.{Absent, Same};
ghost use Rattle.gnb_types.specs.Orders.{ue_cmp, bearer_cmp};
ghost use Rattle.tables.specs.Tables.{find, put};
ghost use Rattle.message_types.specs.declared.f1.F1.TheVariants as f1s;
ghost use Rattle.message_types.specs.declared.rrc.Token.{Token};
ghost use Rattle.unit_defs.specs.Ways.{Message, f1, Pdu, Way, uplink, status, packet, control, gives, nothing, puts};
ghost use Rattle.unit_defs.specs.Messages.{bearers_of, are_first_bearers};
ghost use Rattle.unit_defs.specs.CuUpRecords.{DownlinkTunnel};
ghost use Rattle.unit_defs.specs.Du.{Du, DuBearer, DuContext, DuTunnel, context_of, with_bearer, told, bearers_made, context_anew, context_with, end_markers, closings, take, pass_up, confirm, release, modify, setup, relay_down, relay_up, tick};
ghost use Rattle.law_downlink_order.specs.path.Paths.{Frame, Path, gap_after, carried_by};
ghost use Rattle.law_downlink_order.specs.path.Steps.{takes, begins_anew, run, AreKept};
ghost use Rattle.bearer_defs.specs.uplink_defs.Models.{Model, numbered, end_marker, uplink_tunnel};
ghost use Rattle.bearer_defs.specs.uplink_defs.Orders as up;
ghost use Rattle.bearer_defs.specs.uplink_defs.Assumptions as up_assumptions;
ghost use Rattle.proof_node_orders.specs.du_rows.Shown.{IsHeld, Ends, Has, Keeps, item, frame_outputs, renewed};

/// A frame is taken from its downlink tunnel, which it stands first on: the bearer is that of the way down after the step, and
/// the frame's PDU goes to the radio unless it is in a gap. Nothing else is assumed, and other bearers stay.
pub fn frames_are_taken()
    ensures asked { (s : Path) (f : Frame) (rest : List Frame) → s.tunnel ≡ f ∷ rest
        → AreKept s (takes f rest ∷ []) }
    ensures does { (way : Way (Message Token) Token Pdu) (r : Du (Message Token) Token) (teid : ℕ)
        (t : DuTunnel) (c : DuContext) (s : Path) (f : Frame) (rest : List Frame)
        → find nat_cmp r.tunnels teid ≡ Some t → IsHeld r t.ue t.bearer c s.du
        → take way teid (item way c f) r ≡ gives (frame_outputs way t.ue t.bearer c s.du f)
        (with_bearer way t.ue t.bearer c (run s (takes f rest ∷ [])).du r) }
    ensures air { (s : Path) (f : Frame) (rest : List Frame) → (run s (takes f rest ∷ [])).air
        ≡ s.air ++ carried_by (not s.listens || gap_after s.du f f.pdu) f.pdu }
    ensures held { (way : Way (Message Token) Token Pdu) (ue : UeId) (bearer : BearerId)
        (c : DuContext) (r : Du (Message Token) Token) (b : DuBearer)
        → IsHeld (with_bearer way ue bearer c b r) ue bearer
        (record c { bearers = put bearer_cmp c.bearers bearer b }) b }
    ensures other_bearers { (way : Way (Message Token) Token Pdu) (ue : UeId) (bearer : BearerId)
        (c : DuContext) (r : Du (Message Token) Token) (b d : DuBearer) (q : BearerId)
        → context_of r ue ≡ Some c → eq_by_cmp bearer_cmp q bearer ≡ false → IsHeld r ue q c d
        → IsHeld (with_bearer way ue bearer c b r) ue q
        (record c { bearers = put bearer_cmp c.bearers bearer b }) d }
    ensures other_terminals { (way : Way (Message Token) Token Pdu) (ue x : UeId)
        (bearer q : BearerId) (c e : DuContext) (r : Du (Message Token) Token) (b d : DuBearer)
        → eq_by_cmp ue_cmp x ue ≡ false → IsHeld r x q e d
        → IsHeld (with_bearer way ue bearer c b r) x q e d }
{}

/// Before a frame's PDU, a delivery status says what is missing before it, which a step may say at any time; a poll is
/// answered; else nothing is told.
pub fn losses_are_told()
    ensures missing { (way : Way (Message Token) Token Pdu) (ue : UeId) (bearer : BearerId)
        (b : DuBearer) (poll : Bool) (number : ℕ) → nat_lt b.awaited number ≡ true
        → told way ue bearer b poll number
        ≡ packet b.up b.uplink ue bearer Dl Absent (status ((b.awaited, number - 1) ∷ []) None) ∷ [] }
    ensures polls { (way : Way (Message Token) Token Pdu) (ue : UeId) (bearer : BearerId)
        (b : DuBearer) (number : ℕ) → nat_lt b.awaited number ≡ false
        → told way ue bearer b true number
        ≡ packet b.up b.uplink ue bearer Dl Absent (status [] None) ∷ [] }
    ensures others { (way : Way (Message Token) Token Pdu) (ue : UeId) (bearer : BearerId)
        (b : DuBearer) (number : ℕ) → nat_lt b.awaited number ≡ false
        → told way ue bearer b false number ≡ [] }
{}

/// A PDU from the radio goes up as it came, on the bearer's uplink tunnel, and nothing is kept of it. Owed is that this tunnel
/// is open where the terminal is, and that no End Marker stands on it.
pub fn packets_go_up()
    ensures asked { (s : Model) (count : ℕ) (p : List ℕ) (rest : List (ℕ × List ℕ)) (teid : ℕ)
        → s.air ≡ (count, p) ∷ rest → up_assumptions.IsOpen (s.members s.station) (uplink_tunnel teid)
        → up_assumptions.NoEnd ((s.members s.station).uplink teid)
        → up_assumptions.AreKept s (up.carries teid count p rest ∷ []) }
    ensures became { (s : Model) (count : ℕ) (p : List ℕ) (rest : List (ℕ × List ℕ)) (teid : ℕ)
        → ((up.run s (up.carries teid count p rest ∷ [])).members s.station).uplink teid
        ≡ (s.members s.station).uplink teid ++ numbered count p ∷ [] }
    ensures does { (way : Way (Message Token) Token Pdu) (r : Du (Message Token) Token) (ue : UeId)
        (bearer : BearerId) (c : DuContext) (b : DuBearer) → IsHeld r ue bearer c b → (pdu : Pdu)
        → pass_up way ue bearer pdu r
        ≡ puts (packet b.up b.uplink ue bearer Ul Same (uplink pdu)) r }
{}

/// What was confirmed on the radio is told with its number, on the uplink tunnel, and no model changes. A PDU without a number
/// is not told of.
pub fn confirmations_are_told()
    ensures numbers { (way : Way (Message Token) Token Pdu) (r : Du (Message Token) Token) (ue : UeId)
        (bearer : BearerId) (c : DuContext) (b : DuBearer) → IsHeld r ue bearer c b → (pdu : Pdu)
        (number : ℕ) → way.number c.sn pdu ≡ Some number
        → confirm way ue bearer pdu r
        ≡ puts (packet b.up b.uplink ue bearer Dl Same (status [] (Some number))) r }
    ensures others { (way : Way (Message Token) Token Pdu) (r : Du (Message Token) Token) (ue : UeId)
        (bearer : BearerId) (c : DuContext) (b : DuBearer) → IsHeld r ue bearer c b → (pdu : Pdu)
        → way.number c.sn pdu ≡ None → confirm way ue bearer pdu r ≡ nothing r }
{}

/// A release puts an End Marker on each bearer's uplink tunnel, after all that was put there, and ends the context. Nothing is
/// assumed for this.
pub fn releases_end_uplinks()
    ensures asked { (s : Model) (x teid : ℕ) → up_assumptions.AreKept s (up.marks x teid ∷ []) }
    ensures became { (s : Model) (x teid : ℕ)
        → ((up.run s (up.marks x teid ∷ [])).members x).uplink teid
        ≡ (s.members x).uplink teid ++ end_marker ∷ [] }
    ensures does { (way : Way (Message Token) Token Pdu) (ch : Channel) (ue : UeId) (instance : ℕ)
        (c : DuContext) (r : Du (Message Token) Token) → context_of r ue ≡ Some c
        → Ends ue (control ch.peer ch.ue (way.encode (f1 (f1s.UeContextReleaseComplete ue instance)))
        ∷ end_markers way ue c ++ closings way c)
        (release way ch ue instance r) }
{}

/// On a new radio each bearer of the context has a new downlink tunnel, on which nothing is missing and no gap is open: so it
/// is where a step begins anew. A new context begins so.
pub fn new_radios_have_no_gap()
    ensures modifications { (way : Way (Message Token) Token Pdu) (ch : Channel) (ue : UeId)
        (instance epoch : ℕ) (c : DuContext) (r : Du (Message Token) Token)
        → context_of r ue ≡ Some c
        → Has ue (context_anew way r epoch c) (modify way ch ue instance epoch r) }
    ensures renews { (way : Way (Message Token) Token Pdu) (r : Du (Message Token) Token) (epoch : ℕ)
        (c : DuContext) (k : BearerId) (b : DuBearer) → find bearer_cmp c.bearers k ≡ Some b
        → (teid : ℕ)
        × (find bearer_cmp (context_anew way r epoch c).bearers k ≡ Some (renewed b teid)) }
    ensures begins { (s : Path) (downlink : DownlinkTunnel) (fmc : ℕ) (bits : List Bool)
        → (run s (begins_anew downlink fmc bits ∷ [])).du ≡ renewed s.du downlink.teid }
    ensures setups { (way : Way (Message Token) Token Pdu) (ch : Channel) (ue : UeId)
        (instance epoch : ℕ) (uplinks : List Tunnel) (sn : SnBits) (peer : Peer)
        (r : Du (Message Token) Token) → are_first_bearers (bearers_of uplinks) ≡ true
        → Has ue (context_with way r epoch uplinks sn peer)
        (setup way ch ue instance epoch uplinks sn peer r) }
    ensures starts { (node : NodeId) (ts : List Tunnel) (next : ℕ) (k : BearerId) (b : DuBearer)
        → find bearer_cmp (bearers_made node next ts) k ≡ Some b → (b.awaited ≡ 0) × (b.gap ≡ false) }
{}

/// Tokens that are passed on, and ticks, change no context and no tunnel.
pub fn other_rows_change_no_bearer()
    ensures down { (way : Way (Message Token) Token Pdu) (ue : UeId) (container : Token)
        (r : Du (Message Token) Token) → Keeps r (relay_down way ue container r) }
    ensures up { (way : Way (Message Token) Token Pdu) (ue : UeId) (token : Token)
        (r : Du (Message Token) Token) → Keeps r (relay_up way ue token r) }
    ensures ticks { (way : Way (Message Token) Token Pdu) (r : Du (Message Token) Token)
        → Keeps r (tick way r) }
{}
