//! Laws of terminals in every run: what happens to one is a list of inputs of its table, and these are a list of orders of each
//! of its bearers. Each function does nothing: its contract is the law.

ghost use Rattle.std.specs.Prelude.{◌≡◌, ℕ, List, Some};
ghost use Rattle.gnb_types.specs.declared.names.UeId.{UeId};
ghost use Rattle.gnb_types.specs.declared.names.BearerId.{BearerId};
ghost use Rattle.gnb_types.specs.declared.plans.Plan.{Plan};
ghost use Rattle.gnb_types.specs.Orders.{bearer_cmp};
ghost use Rattle.tables.specs.Tables.{find};
ghost use Rattle.message_types.specs.declared.rrc.Token.{Token};
ghost use Rattle.scenario_text.specs.declared.event.Event.{Event};
ghost use Rattle.unit_defs.specs.Ways.{Message, Load, Pdu};
ghost use Rattle.unit_defs.specs.Ue.{UeNode, UeBearer, new_ue, placed};
ghost use Rattle.run_defs.specs.Units.{ue_of};
ghost use Rattle.run_defs.specs.Written.{Written};
ghost use Rattle.run_defs.specs.States.{State};
ghost use Rattle.run_defs.specs.Runs.{plain_world, Reading};
ghost use Rattle.proof_run_steps.specs.steps.Reached.{reached};
ghost use Rattle.bearer_defs.specs.chain_defs.Models.{initial as down_start};
ghost use Rattle.bearer_defs.specs.uplink_defs.Models.{initial};
ghost use Rattle.proof_node_orders.specs.terminal_inputs.Inputs.{Models, carried_out, IsShown};
ghost use Rattle.proof_bearer_refinement.specs.run_terminals.Over.{Happening, after_all, Led, after_inputs, orders_over};

/// In every run, from any state, the record of a terminal is what its table makes of the inputs that it was given, one after
/// another, from when it came or was set up: no other step of the run, and no other terminal's, changes it.
pub fn terminals_take_inputs()
    ensures { (reading : Reading) (events : List Event)
        (s t : State (Message Token) Token (Written (Load Pdu)) (Written Pdu))
        → reached (plain_world reading) events s ≡ Some t → (ue : UeId)
        → (hs : List Happening) × (ue_of t.units ue ≡ after_all (ue_of s.units ue) hs) }
{}

/// A list of inputs is, for each bearer of the terminal, one list of orders of its model up and one of its model down.
pub fn inputs_are_lists_of_orders()
    ensures { (u : UeNode) (bearer : BearerId) (b : Models) → IsShown u bearer b → (ls : List Led)
        → IsShown (after_inputs u ls) bearer (carried_out b (orders_over u bearer b ls)) }
{}

/// A terminal that is set up without messages shows, for each bearer that it has, the first model up and the first model down.
pub fn set_up_terminals_show_first_models()
    ensures { (plan : Plan) (bearer : BearerId) (b : UeBearer) (first teid : ℕ)
        → find bearer_cmp (placed (new_ue plan)).bearers bearer ≡ Some b
        → IsShown (placed (new_ue plan)) bearer
        (record { up = initial first teid; down = down_start first teid }) }
{}
