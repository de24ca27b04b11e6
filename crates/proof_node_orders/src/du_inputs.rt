//! Laws of the inputs of a DU: what each changes of one bearer, and what it puts for it.
//! Each function does nothing: its contract is the law.

ghost use Rattle.std.specs.Prelude.{ℕ, if◌then◌else◌, List, []};
ghost use Rattle.std.specs.Ordering.{nat_cmp};
ghost use Rattle.gnb_types.specs.declared.names.UeId.{UeId};
ghost use Rattle.gnb_types.specs.declared.names.BearerId.{BearerId};
ghost use Rattle.gnb_types.specs.declared.names.SnBits.{SnBits};
ghost use Rattle.gnb_types.specs.declared.keys.Channel.{Channel};
ghost use Rattle.gnb_types.specs.declared.plans.Peer.{Peer};
ghost use Rattle.gnb_types.specs.declared.plans.Tunnel.{Tunnel};
ghost use Rattle.tables.specs.Tables.{find};
ghost use Rattle.message_types.specs.declared.rrc.Token.{Token};
ghost use Rattle.unit_defs.specs.Ways.{Message, Pdu, uplink, Taken, Input, Way};
ghost use Rattle.unit_defs.specs.Du.{Du, start, set_up, take, pass_up, confirm, setup, du_acts};
ghost use Rattle.proof_node_orders.specs.du_rows.Shown.{Keeps};
ghost use Rattle.proof_node_orders.specs.du_inputs.Changes.{model_of, changed, of_tunnel, change_by, Has, stays};
ghost use Rattle.proof_node_orders.specs.du_inputs.Puts.{on_uplink, is_of, of_number, of_change, carried_of, of_model, Puts, IsQuiet};

/// Whatever a DU is given, what it has of a bearer is afterwards what the change that `change_by` computes makes of it: a frame of
/// its tunnel, a new radio, a context that is set up or ends, each of this terminal; all else changes nothing of it.
pub fn inputs_are_changes()
    ensures { (way : Way (Message Token) Token Pdu) (ue : UeId) (bearer : BearerId)
        (r : Du (Message Token) Token) (input : Input Token Pdu)
        → Has ue bearer (changed (change_by way ue bearer r input) (model_of r ue bearer))
        (du_acts way r input) }
{}

/// What is put for a bearer: for a frame of its tunnel a delivery status where something is missing or is asked for, on its uplink
/// tunnel, and on its radio the PDU unless it is in a gap; for a PDU of its radio this on its uplink tunnel; for one that was
/// confirmed there its number. For another bearer's nothing.
pub fn packets_are_put()
    ensures frames { (way : Way (Message Token) Token Pdu) (r : Du (Message Token) Token) (ue : UeId)
        (bearer : BearerId) (teid : ℕ) (item : Taken Pdu)
        → let change = of_tunnel ue bearer item (find nat_cmp r.tunnels teid) in
        Puts ue bearer (of_model (of_change way change) (model_of r ue bearer))
        (of_model (carried_of change) (model_of r ue bearer)) (take way teid item r) }
    ensures up { (way : Way (Message Token) Token Pdu) (r : Du (Message Token) Token) (ue : UeId)
        (bearer : BearerId) (other : UeId) (q : BearerId) (pdu : Pdu)
        → Puts ue bearer
        (of_model (λ d. if is_of ue bearer other q then on_uplink d (uplink pdu) else []) (model_of r ue bearer))
        (of_model (carried_of stays) (model_of r ue bearer)) (pass_up way other q pdu r) }
    ensures confirmed { (way : Way (Message Token) Token Pdu) (r : Du (Message Token) Token) (ue : UeId)
        (bearer : BearerId) (other : UeId) (q : BearerId) (pdu : Pdu)
        → Puts ue bearer
        (of_model (λ d. if is_of ue bearer other q then of_number (way.number d.sn pdu) d else [])
        (model_of r ue bearer))
        (of_model (carried_of stays) (model_of r ue bearer)) (confirm way other q pdu r) }
{}

/// A context that is set up in place of another one puts no End Marker on the uplinks of that: no order of the uplink says that
/// nothing more comes there. F1 Setup changes no context.
pub fn setups_put_no_end_marker()
    ensures setups { (way : Way (Message Token) Token Pdu) (ch : Channel) (other : UeId)
        (instance epoch : ℕ) (uplinks : List Tunnel) (sn : SnBits) (peer : Peer)
        (r : Du (Message Token) Token) → IsQuiet (setup way ch other instance epoch uplinks sn peer r) }
    ensures starts { (way : Way (Message Token) Token Pdu) (r : Du (Message Token) Token)
        → Keeps r (start way r) }
    ensures set_up { (way : Way (Message Token) Token Pdu) (ch : Channel)
        (r : Du (Message Token) Token) → Keeps r (set_up way ch r) }
{}
