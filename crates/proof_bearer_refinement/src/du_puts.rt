//! Laws of what a DU puts on a bearer's tunnels in a run: it is orders of the uplink's model, and the run's tunnels stay the lists of the
//! bearer's models. Each function does nothing: its contract is the law.

ghost use Rattle.bearer_defs.specs.chain_defs.Models as down_models;
ghost use Rattle.gnb_types.specs.declared.names.BearerId.{BearerId};
ghost use Rattle.gnb_types.specs.declared.names.Gnb.{Gnb};
ghost use Rattle.gnb_types.specs.declared.names.SnBits.{SnBits};
ghost use Rattle.gnb_types.specs.declared.names.UeId.{UeId};
ghost use Rattle.proof_node_orders.specs.du_inputs.Puts.{OnTunnel};
ghost use Rattle.proof_bearer_refinement.specs.du_puts.Puts.{AllLead, IsDuStep, orders_up, puts_of};
ghost use Rattle.proof_bearer_refinement.specs.du_puts.Worked.{moved_orders, moved_run, uplink_in, uplink_of};
ghost use Rattle.proof_bearer_refinement.specs.refinement_facts.Asked.{AreSound, Refines, RunCause};
ghost use Rattle.proof_bearer_refinement.specs.refinement_facts.Refinements.{RunState};
ghost use Rattle.proof_bearer_refinement.specs.run_bearers.Bearers.{Numbering};
ghost use Rattle.proof_bearer_refinement.specs.run_unit_inputs.Happenings.{DuRecord};
ghost use Rattle.proof_run_steps.specs.steps.Reached.{reached};
ghost use Rattle.run_defs.specs.Runs.{plain_world, Reading};
ghost use Rattle.run_defs.specs.States.{new_state};
ghost use Rattle.message_types.specs.declared.rrc.Token.{Token};
ghost use Rattle.std.specs.Prelude.{[], ◌∷◌, List, Some, ◌≡◌, ℕ};
ghost use Rattle.unit_defs.specs.Ways.{Input, Message, Output, Pdu};
ghost use Rattle.bearer_defs.specs.uplink_defs.Orders as up;
ghost use Rattle.bearer_defs.specs.uplink_defs.Models as up_models;

/// Whatever a DU is given in a run: what it puts for a bearer is orders of the uplink's model, a packet carried to the terminal's context
/// and an End Marker where the tunnel ends, and nothing else of it says anything to a model. Where the models have the contexts of the
/// CU-UPs, and their lists are the run's tunnels, they do so after these orders. Owed is that a tunnel of the bearer that the DU puts on
/// is one of its uplinks, and for a packet one of the context that the terminal is at.
pub fn puts_of_a_du_are_orders()
    ensures { (reading : Reading) (n : Numbering) (ue : UeId) (bearer : BearerId) (sn : SnBits)
        (quota : ℕ) (s t : RunState) (gnb : Gnb) (number : ℕ) (cause : RunCause)
        (input : Input Token Pdu) (outputs : List (Output (Message Token) Pdu)) (v : DuRecord)
        (d : down_models.Model) (u : up_models.Model)
        → IsDuStep reading s t gnb number cause input outputs v → AreSound s t
        → Refines n ue bearer sn quota s d u
        → let puts : List OnTunnel = puts_of ue bearer s.units gnb number input in
        AllLead n ue bearer s.units u.station puts
        → Refines n ue bearer sn quota t d (up.run u (orders_up n ue bearer s.units u puts)) }
{}

/// There is a run in which a packet is carried up, and the terminal then comes to another DU: on its first uplink tunnel stands the
/// packet, and after it the End Marker that the first DU put when it was released; and that is what the model's list has after the
/// bearer's orders.
pub fn a_worked_run_ends_an_uplink()
    ensures runs { (reading : Reading)
        → uplink_in (reached (plain_world reading) moved_run new_state) ≡ Some (uplink_of moved_orders) }
    ensures shown { uplink_of moved_orders
        ≡ up_models.numbered 0 (8 ∷ []) ∷ up_models.end_marker ∷ [] }
{}
