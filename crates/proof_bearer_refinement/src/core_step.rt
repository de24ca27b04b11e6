//! Laws of what the core puts on a bearer's tunnels in a run: it is orders of the downlink's model, and the run's tunnels stay the lists of
//! the bearer's models. Each function does nothing: its contract is the law.

ghost use Rattle.bearer_defs.specs.chain_defs.Orders as down;
ghost use Rattle.bearer_defs.specs.chain_defs.Models as down_models;
ghost use Rattle.gnb_types.specs.declared.names.BearerId.{BearerId};
ghost use Rattle.gnb_types.specs.declared.names.SnBits.{SnBits};
ghost use Rattle.gnb_types.specs.declared.names.UeId.{UeId};
ghost use Rattle.proof_node_orders.specs.core_rows.Shown.{goal_by, IsOne};
ghost use Rattle.proof_bearer_refinement.specs.core_step.Core.{IsCoreStep, IsOffer, orders_offered, orders_told, PathLeads};
ghost use Rattle.proof_bearer_refinement.specs.core_step.Worked.{path_in, path_of, switched_orders, switched_run};
ghost use Rattle.proof_bearer_refinement.specs.refinement_facts.Asked.{AreSound, Refines};
ghost use Rattle.proof_bearer_refinement.specs.refinement_facts.Refinements.{RunState};
ghost use Rattle.proof_cu_up_orders.specs.context_orders.Shown.{is_bearer};
ghost use Rattle.proof_bearer_refinement.specs.run_bearers.Bearers.{Numbering};
ghost use Rattle.proof_run_steps.specs.steps.Reached.{reached};
ghost use Rattle.run_defs.specs.Runs.{plain_world, Reading};
ghost use Rattle.run_defs.specs.States.{new_state};
ghost use Rattle.transport_defs.specs.declared.ControlMessage.{ControlMessage};
ghost use Rattle.message_types.specs.declared.rrc.Token.{Token};
ghost use Rattle.std.specs.Prelude.{[], ◌∷◌, List, Some, true, ◌≡◌, ℕ};
ghost use Rattle.unit_defs.specs.Core.{CorePath, CoreRecord};
ghost use Rattle.unit_defs.specs.Ways.{Message, Output, Pdu};
ghost use Rattle.bearer_defs.specs.uplink_defs.Models as up_models;

/// Where a packet is offered in a run, it is an order of the bearer that it is offered to, and of no other one: where the models have the
/// contexts of the CU-UPs, and their lists are the run's tunnels, they do so after it. Owed is that the core's path of the bearer leads
/// to the N3 tunnel of the context that the model sends to.
pub fn an_offered_packet_is_an_order()
    ensures { (reading : Reading) (n : Numbering) (ue : UeId) (bearer : BearerId) (sn : SnBits)
        (quota : ℕ) (s t : RunState) (who : UeId) (which : BearerId) (packet : List ℕ)
        (path : CorePath) (d : down_models.Model) (u : up_models.Model)
        → IsOffer reading s t who which packet path → AreSound s t
        → Refines n ue bearer sn quota s d u
        → (is_bearer ue bearer who which ≡ true → PathLeads n ue bearer s d)
        → Refines n ue bearer sn quota t (down.run d (orders_offered ue bearer who which packet)) u }
{}

/// Where the core takes a message, the same is so: a new path switch of the bearer is an order, by which an End Marker comes to the end of
/// the old path's N3 tunnel; all else puts nothing for the bearer. Owed is the path as before, and that a request names one tunnel of the
/// bearer.
pub fn messages_to_the_core_are_orders()
    ensures { (reading : Reading) (n : Numbering) (ue : UeId) (bearer : BearerId) (sn : SnBits)
        (quota : ℕ) (s t : RunState) (number : ℕ) (control_message : ControlMessage (Message Token))
        (outputs : List (Output (Message Token) Pdu)) (core : CoreRecord (Message Token) Token)
        (d : down_models.Model) (u : up_models.Model)
        → IsCoreStep reading s t number control_message outputs core → AreSound s t
        → Refines n ue bearer sn quota s d u → PathLeads n ue bearer s d
        → IsOne (goal_by ue bearer s.core control_message.from control_message.message)
        → Refines n ue bearer sn quota t (down.run d (orders_told n ue bearer s control_message)) u }
{}

/// There is a run in which a packet is offered, and the terminal then comes to the other gNB: on the N3 tunnel of the old path stands the
/// packet, and after it the End Marker of the path switch; and that is what the model's list has after the bearer's orders.
pub fn a_worked_run_switches_the_path()
    ensures runs { (reading : Reading)
        → path_in (reached (plain_world reading) switched_run new_state) ≡ Some (path_of switched_orders) }
    ensures shown { path_of switched_orders
        ≡ down_models.fresh (7 ∷ []) ∷ down_models.end_marker ∷ [] }
{}
