//! A law of the downlink tunnels that a DU gives. The function does nothing: its contract is the law.

ghost use Rattle.gnb_types.specs.declared.names.BearerId.{BearerId};
ghost use Rattle.gnb_types.specs.declared.names.UeId.{UeId};
ghost use Rattle.proof_node_orders.specs.du_inputs.Changes.{change_by};
ghost use Rattle.law_tunnels_are_owned.specs.new_downlinks.New.{IsNew};
ghost use Rattle.proof_run_steps.specs.teids.Given.{below};
ghost use Rattle.message_types.specs.declared.rrc.Token.{Token};
ghost use Rattle.std.specs.Prelude.{List, ◌≡◌};
ghost use Rattle.unit_defs.specs.Du.{Du, du_acts};
ghost use Rattle.unit_defs.specs.Ways.{gives, Input, Message, Output, Pdu, Way};

/// Whatever a DU is given: where a bearer's context is set up there, or gets a new radio, the TEID of its downlink tunnel was not given
/// before.
pub fn downlinks_of_a_du_are_new()
    ensures { (way : Way (Message Token) Token Pdu) (ue : UeId) (bearer : BearerId)
        (r left : Du (Message Token) Token) (input : Input Token Pdu)
        (outputs : List (Output (Message Token) Pdu))
        → du_acts way r input ≡ gives outputs left
        → IsNew (below r.next_teid) (change_by way ue bearer r input) }
{}
