//! Laws of what a DU's inputs change and put for one bearer: steps of the way down, and orders of the uplink.
//! Each function does nothing: its contract is the law.

ghost use Rattle.std.specs.Prelude.{◌≡◌, ℕ, Bool, List, [], ◌∷◌, ◌++◌, Some};
ghost use Rattle.gnb_types.specs.declared.names.BearerId.{BearerId};
ghost use Rattle.gnb_types.specs.declared.names.SnBits.{SnBits};
ghost use Rattle.gnb_types.specs.declared.plans.Peer.{Peer};
ghost use Rattle.gnb_types.specs.declared.plans.Tunnel.{Tunnel};
ghost use Rattle.message_types.specs.declared.rrc.Token.{Token};
ghost use Rattle.unit_defs.specs.Ways.{Message, Pdu, packet_pdu, Load, uplink, Way};
ghost use Rattle.unit_defs.specs.CuUpRecords.{DownlinkTunnel};
ghost use Rattle.unit_defs.specs.Du.{Du, context_with};
ghost use Rattle.bearer_defs.specs.uplink_defs.Models as up;
ghost use Rattle.bearer_defs.specs.uplink_defs.Orders as ups;
ghost use Rattle.bearer_defs.specs.uplink_defs.Assumptions as up_assumptions;
ghost use Rattle.law_downlink_order.specs.path.Paths.{Frame, Path};
ghost use Rattle.law_downlink_order.specs.path.Steps.{takes, run, AreKept};
ghost use Rattle.proof_node_orders.specs.du_inputs.Changes.{DuModel, model_in, changed_in, takes as takes_frame};
ghost use Rattle.proof_node_orders.specs.du_inputs.Puts.{carried_of};
ghost use Rattle.proof_node_orders.specs.du_steps.Steps.{IsOn, IsFresh, Receives, rest_of, loses_all, begins_in, was_received, order_of, item_of, place_of};

/// A frame that stands first is taken by a step, and the DU has afterwards what the way has; where the way says rightly whether
/// the terminal hears the epoch of the DU's context, it hears what is carried. A closed tunnel loses all that stands there.
pub fn changes_are_steps()
    ensures taken_asked { (p : Path) (f : Frame) → p.tunnel ≡ f ∷ rest_of p.tunnel
        → AreKept p (takes f (rest_of p.tunnel) ∷ []) }
    ensures taken { (d : DuModel) (p : Path) (f : Frame) → IsOn d p
        → IsOn (changed_in (takes_frame f) d) (run p (takes f (rest_of p.tunnel) ∷ [])) }
    ensures was_received { (d : DuModel) (p : Path) (f : Frame) (receives : Receives) → IsOn d p
        → p.listens ≡ receives d.epoch
        → (run p (takes f (rest_of p.tunnel) ∷ [])).air
        ≡ p.air ++ was_received receives (carried_of (takes_frame f) d) }
    ensures closed_asked { (fs : List Frame) (p : Path) → p.tunnel ≡ fs → AreKept p (loses_all fs) }
    ensures closed { (fs : List Frame) (p : Path) → p.tunnel ≡ fs
        → run p (loses_all fs) ≡ record p { tunnel = [] } }
{}

/// Where a CU-UP switches to a DU's fresh tunnel, the way begins anew, with what the DU has; and it fails at once where the terminal
/// doesn't hear the epoch of the DU's context. So it says rightly whether the terminal hears it. A context that is set up is fresh.
pub fn switches_begin_anew()
    ensures asked { (receives : Receives) (d : DuModel) (p : Path) (downlink : DownlinkTunnel) (fmc : ℕ)
        (bits : List Bool) → AreKept p (begins_in receives d downlink fmc bits) }
    ensures begins { (receives : Receives) (d : DuModel) (p : Path) (downlink : DownlinkTunnel) (fmc : ℕ)
        (bits : List Bool) → IsFresh d → downlink.teid ≡ d.bearer.downlink
        → IsOn d (run p (begins_in receives d downlink fmc bits)) }
    ensures listens { (receives : Receives) (d : DuModel) (p : Path) (downlink : DownlinkTunnel) (fmc : ℕ)
        (bits : List Bool) → IsFresh d → downlink.teid ≡ d.bearer.downlink
        → (run p (begins_in receives d downlink fmc bits)).listens ≡ receives d.epoch }
    ensures set_up { (way : Way (Message Token) Token Pdu) (r : Du (Message Token) Token) (epoch : ℕ)
        (uplinks : List Tunnel) (sn : SnBits) (peer : Peer) (bearer : BearerId) (d : DuModel)
        → model_in bearer (Some (context_with way r epoch uplinks sn peer)) ≡ Some d → IsFresh d }
{}

/// What is put on an uplink tunnel comes there by an order, which asks that the tunnel is open where the terminal is and that no End
/// Marker stands there, where a packet is carried; of reports and delivery statuses nothing comes.
pub fn puts_are_orders()
    ensures asked { (x : ℕ) (s : up.Model) (teid : ℕ) (load : Load Pdu)
        → ((count : ℕ) (packet : List ℕ) → load ≡ uplink (packet_pdu count packet)
        → s.air ≡ (count, packet) ∷ rest_of s.air)
        → up_assumptions.IsOpen (s.members s.station) (up.uplink_tunnel teid)
        → up_assumptions.NoEnd ((s.members s.station).uplink teid)
        → up_assumptions.AreKept s (order_of x s teid load) }
    ensures comes { (x : ℕ) (s : up.Model) (teid : ℕ) (load : Load Pdu)
        → ((ups.run s (order_of x s teid load)).members (place_of x s load)).uplink teid
        ≡ (s.members (place_of x s load)).uplink teid ++ item_of load }
{}
