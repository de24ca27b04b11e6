//! Laws of the steps of a run that aren't a CU-UP's, beside what reports to a terminal what was carried up. Each function does nothing: its
//! contract is the law.

ghost use Rattle.gnb_types.specs.declared.names.BearerId.{BearerId};
ghost use Rattle.gnb_types.specs.declared.names.Gnb.{Gnb};
ghost use Rattle.gnb_types.specs.declared.names.NodeId.TheVariants.{Core, Ue};
ghost use Rattle.gnb_types.specs.declared.names.NodeId.{NodeId};
ghost use Rattle.gnb_types.specs.declared.names.UeId.{UeId};
ghost use Rattle.gnb_types.specs.declared.plans.Plan.{Plan};
ghost use Rattle.proof_bearer_refinement.specs.core_step.Core.{IsCoreStep, IsOffer};
ghost use Rattle.law_terminals_are_isolated.specs.own_steps.Own.{IsActed};
ghost use Rattle.proof_bearer_refinement.specs.du_puts.Puts.{IsDuStep};
ghost use Rattle.proof_bearer_refinement.specs.uplink_radio.Radio.{RunCause, RunState};
ghost use Rattle.proof_bearer_refinement.specs.run_unit_inputs.Happenings.{DuRecord};
ghost use Rattle.law_handover_delivers.specs.down_reports_elsewhere.Nodes.{PutsNoReport};
ghost use Rattle.law_handover_delivers.specs.down_reports_elsewhere.Assumed.{AssumedArrivals, AssumedBesides, AssumedReport};
ghost use Rattle.law_handover_delivers.specs.down_reports.Reports.{ReportsDownAreTrue, RunPut};
ghost use Rattle.proof_bearer_refinement.specs.downlink_radio.Received.{AssumedReceived, AssumedRest};
ghost use Rattle.proof_bearer_refinement.specs.runs.Fair.{IsFair};
ghost use Rattle.proof_run_steps.specs.steps.Causes.{count_of, first_of, given_of, node_of, Stands};
ghost use Rattle.proof_node_orders.specs.terminal_inputs.Inputs.{Models};
ghost use Rattle.message_types.specs.declared.rrc.Token.{Token};
ghost use Rattle.run_defs.specs.Conditions.{statically};
ghost use Rattle.run_defs.specs.Lines.{RunLine};
ghost use Rattle.run_defs.specs.Runs.{input_of, plain_world, Reading};
ghost use Rattle.run_defs.specs.States.{core_stepped, goes, octets_from, sn_of, ◌next◌};
ghost use Rattle.run_defs.specs.Steps.{carried_out, check_spans, put_out_all};
ghost use Rattle.run_defs.specs.Units.{Units, with_du};
ghost use Rattle.run_defs.specs.Written.{written_put};
ghost use Rattle.transport_defs.specs.declared.ControlMessage.{ControlMessage};
ghost use Rattle.scenario_text.specs.declared.event.Event.{Event};
ghost use Rattle.std.specs.Prelude.{List, map, None, Option, Some, ◌≡◌, ℕ};
ghost use Rattle.unit_defs.specs.Core.{CorePath, CoreRecord};
ghost use Rattle.unit_defs.specs.Ue.{UeNode};
ghost use Rattle.unit_defs.specs.Ways.{Input, Message, Output, Pdu};

/// In each fair state, such as a run passes: where each status report that stands on the tunnels of a bearer, in a frame, or on its
/// terminal's radio down reports only what was carried up, it does so after each step of a CU-CP or of a terminal, this one or another:
/// these put no report for a terminal.
pub fn units_that_put_no_report_keep_them_true()
    ensures { (reading : Reading) (ue : UeId) (bearer : BearerId) (reached : ℕ) (s t : RunState)
        (event : Event) (cause : RunCause) (outputs : List RunPut) (units : Units (Message Token) Token)
        (lines : List (RunLine (Message Token)))
        → IsFair s → IsActed (plain_world reading) event s cause outputs units
        → PutsNoReport (node_of cause)
        → carried_out (plain_world reading) (node_of cause) (count_of cause)
        (first_of (plain_world reading) cause) outputs units s ≡ goes lines t
        → ReportsDownAreTrue ue bearer reached s → ReportsDownAreTrue ue bearer reached t }
{}

/// And so it is after each step of a DU, whatever this is given: what it puts on a terminal's radio is what the frame carries that it takes,
/// which stood on a tunnel of the bearer, and it puts no frame.
pub fn a_du_keeps_reports_true()
    ensures { (reading : Reading) (event : Event) (s t : RunState) (ue : UeId) (bearer : BearerId)
        (reached : ℕ) (gnb : Gnb) (number : ℕ) (cause : RunCause) (input : Input Token Pdu)
        (outputs : List (Output (Message Token) Pdu)) (left : DuRecord)
        → IsFair s
        → IsActed (plain_world reading) event s cause (map (written_put (sn_of s)) outputs)
        (with_du s.units gnb number left)
        → IsDuStep reading s t gnb number cause input outputs left
        → ReportsDownAreTrue ue bearer reached s → ReportsDownAreTrue ue bearer reached t }
{}

/// And so it is where the core takes a message, and where a packet is offered there.
pub fn the_core_keeps_reports_true()
    ensures messages { (reading : Reading) (s t : RunState) (ue : UeId) (bearer : BearerId) (reached : ℕ)
        (number : ℕ) (l : ControlMessage (Message Token)) (outputs : List (Output (Message Token) Pdu))
        (core : CoreRecord (Message Token) Token) → IsFair s
        → IsCoreStep reading s t number l outputs core
        → ReportsDownAreTrue ue bearer reached s → ReportsDownAreTrue ue bearer reached t }
    ensures offers { (reading : Reading) (s t : RunState) (ue : UeId) (bearer : BearerId) (reached : ℕ)
        (who : UeId) (which : BearerId) (packet : List ℕ) (path : CorePath)
        → IsOffer reading s t who which packet path
        → ReportsDownAreTrue ue bearer reached s → ReportsDownAreTrue ue bearer reached t }
{}

/// And so it is where a terminal is set up without messages, and where the core is given octets from outside.
pub fn all_else_keeps_reports_true()
    ensures set_up { (ue : UeId) (bearer : BearerId) (reached : ℕ) (plan : Plan) (s : RunState)
        → ReportsDownAreTrue ue bearer reached s → ReportsDownAreTrue ue bearer reached (statically plan s) }
    ensures octets { (reading : Reading) (ue : UeId) (bearer : BearerId) (reached : ℕ) (s t : RunState)
        (from : NodeId) (octets : List ℕ) (outputs : List RunPut)
        (core : CoreRecord (Message Token) Token) (lines : List (RunLine (Message Token)))
        → (plain_world reading).core_answer (sn_of s) s.core (octets_from from octets)
        ≡ core_stepped outputs core
        → (put_out_all (plain_world reading) Core None outputs (record s { core = core })
        next check_spans) ≡ goes lines t
        → ReportsDownAreTrue ue bearer reached s → ReportsDownAreTrue ue bearer reached t }
{}

/// So a status report that the terminal takes says only what was carried up, as it stood on its radio down: of what
/// `proof_bearer_refinement::downlink_radio` and `proof_bearer_refinement::ue_receives` ask of the terminal's inputs the model on reports
/// isn't assumed, and what is left is where an arrival leads, and what is asked of packets where that isn't known of the radio.
pub fn a_report_that_is_taken_is_true()
    ensures taken { (reading : Reading) (event : Event) (s : RunState) (ue : UeId) (bearer : BearerId)
        (u : UeNode) (b : Models) (cause : RunCause) (input : Input Token Pdu)
        → IsFair s → node_of cause ≡ Ue ue.0
        → input_of reading (given_of cause) ≡ Some input → Stands event s cause
        → ReportsDownAreTrue ue bearer b.up.reached s → AssumedReport u b bearer input }
    ensures rest { (u : UeNode) (b : Models) (bearer : BearerId) (to : Option ℕ) (input : Input Token Pdu)
        → AssumedReport u b bearer input → AssumedArrivals u b to input → AssumedRest u b bearer to input }
    ensures was_received { (u : UeNode) (b : Models) (bearer : BearerId) (to : Option ℕ) (input : Input Token Pdu)
        → AssumedReport u b bearer input → AssumedBesides u b bearer to input → AssumedReceived u b bearer to input }
{}
