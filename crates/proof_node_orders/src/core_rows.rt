//! Laws of the core: what a message does to the downlink path of one bearer is an order of the bearer's model.
//! Each function does nothing: its contract is the law.

ghost use Rattle.std.specs.Prelude.{ℕ, List, [], ◌∷◌};
ghost use Rattle.gnb_types.specs.declared.names.NodeId.{NodeId};
ghost use Rattle.gnb_types.specs.declared.names.UeId.{UeId};
ghost use Rattle.gnb_types.specs.declared.names.BearerId.{BearerId};
ghost use Rattle.gnb_types.specs.declared.names.SnBits.{SnBits};
ghost use Rattle.message_types.specs.declared.rrc.Token.{Token};
ghost use Rattle.unit_defs.specs.Ways.{Message, Pdu, Way};
ghost use Rattle.unit_defs.specs.Core.{CoreRecord, core_acts};
ghost use Rattle.bearer_defs.specs.chain_defs.Models.{Model};
ghost use Rattle.bearer_defs.specs.chain_defs.Orders.{switches_path, run};
ghost use Rattle.bearer_defs.specs.chain_defs.Assumptions.{IsAssumed, AreKept};
ghost use Rattle.proof_node_orders.specs.core_rows.Lists.{CoreReceived, after_all, orders_over, AreOne};
ghost use Rattle.proof_node_orders.specs.core_rows.Shown.{Places, IsPath, goal_by, orders_to, IsOne, Follows};

/// Whatever message the core is given, its path of a bearer is afterwards that of the model after the orders that `orders_to`
/// computes: a new request of this terminal's path is one order, all else none. An End Marker, and nothing else, is put on the
/// tunnel of the path before. Owed is that a request names one tunnel of the bearer.
pub fn messages_are_orders()
    ensures follows { (way : Way (Message Token) Token Pdu) (places : Places) (ue : UeId)
        (bearer : BearerId) (r : CoreRecord (Message Token) Token) (s : Model)
        → IsPath places r ue bearer s → (from : NodeId) (message : Message Token)
        → IsOne (goal_by ue bearer r from message)
        → Follows places ue bearer s (run s (orders_to places (goal_by ue bearer r from message)))
        (core_acts way r from message) }
    ensures kept { (sn : SnBits) (quota : ℕ) (s : Model) (to : ℕ) → IsAssumed s (switches_path to)
        → AreKept sn quota s (switches_path to ∷ []) }
{}

/// So over a list of messages the core's path is that of the model after one list of orders.
pub fn lists_are_orders()
    ensures { (way : Way (Message Token) Token Pdu) (places : Places) (ue : UeId)
        (bearer : BearerId) (r : CoreRecord (Message Token) Token) (s : Model)
        (messages : List (CoreReceived Token)) → IsPath places r ue bearer s
        → AreOne way ue bearer r messages
        → IsPath places (after_all way r messages) ue bearer
        (run s (orders_over way places ue bearer r messages)) }
{}
