//! Laws of the inputs of a terminal: what each does to one bearer is a list of orders of its model up and of its model down.
//! Each function does nothing: its contract is the law.

ghost use Rattle.std.specs.Prelude.{◌≡◌, ℕ, Option};
ghost use Rattle.gnb_types.specs.declared.names.BearerId.{BearerId};
ghost use Rattle.gnb_types.specs.declared.names.SnBits.{SnBits};
ghost use Rattle.message_types.specs.declared.rrc.Token.{Token};
ghost use Rattle.unit_defs.specs.Ways.{Message, Pdu, Way, Input};
ghost use Rattle.unit_defs.specs.Ue.{UeNode, is_connected, ue_acts};
ghost use Rattle.proof_node_orders.specs.terminal_inputs.Inputs.{Models, IsShown, orders_by, IsAssumedFor, AllKept, Follows};

/// Whatever a terminal is given, the models of each of its bearers are afterwards what the orders that `orders_by` computes make of
/// them; what it put on the bearer's radio is what came there by them, and what it delivered what was delivered by them. PDUs
/// are what they say. And these orders are as they ask to be, where what is assumed for the input is so.
pub fn inputs_are_orders()
    ensures follows { (way : Way (Message Token) Token Pdu)
        → ((sn : SnBits) (pdu : Pdu) → way.write sn pdu ≡ pdu)
        → (u : UeNode) (bearer : BearerId) (b : Models) → IsShown u bearer b
        → (to : Option ℕ) (input : Input Token Pdu)
        → Follows bearer b (orders_by way u b bearer to input) (ue_acts way u input) }
    ensures kept { (way : Way (Message Token) Token Pdu) (u : UeNode) (b : Models)
        → b.up.connected ≡ is_connected u.state
        → (bearer : BearerId) (to : Option ℕ) (input : Input Token Pdu)
        → IsAssumedFor way u b bearer to input → AllKept b (orders_by way u b bearer to input) }
{}
