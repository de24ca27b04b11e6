//! A law of a DU, whatever it is given: what it puts for one bearer.
//! Each function does nothing: its contract is the law.

ghost use Rattle.gnb_types.specs.declared.names.UeId.{UeId};
ghost use Rattle.gnb_types.specs.declared.names.BearerId.{BearerId};
ghost use Rattle.message_types.specs.declared.rrc.Token.{Token};
ghost use Rattle.unit_defs.specs.Ways.{Message, Pdu, Input, Way};
ghost use Rattle.unit_defs.specs.Du.{Du, du_acts};
ghost use Rattle.proof_node_orders.specs.du_inputs.Changes.{model_of, change_by};
ghost use Rattle.proof_node_orders.specs.du_inputs.Puts.{carried_of, of_model, Puts};
ghost use Rattle.proof_node_orders.specs.du_puts.Inputs.{ups_by, IsInOrder};

/// Whatever a DU is given, what it puts for a bearer on an uplink tunnel is what `ups_by` computes, and what it puts on its radio is
/// what its change carries: of control a release of the terminal alone puts something, an End Marker on the bearer's uplink. The
/// bearers of a context are in ascending order, which a DU keeps.
pub fn inputs_put()
    ensures { (way : Way (Message Token) Token Pdu) (ue : UeId) (bearer : BearerId)
        (r : Du (Message Token) Token) (input : Input Token Pdu) → IsInOrder r ue
        → Puts ue bearer (ups_by way ue bearer r input)
        (of_model (carried_of (change_by way ue bearer r input)) (model_of r ue bearer))
        (du_acts way r input) }
{}
