//! Laws of CU-UPs and DUs in every run: what happens to one is a list of inputs of its table, and these are a list of orders of each
//! bearer. Each function does nothing: its contract is the law.

ghost use Rattle.std.specs.Prelude.{◌≡◌, ℕ, List, Some};
ghost use Rattle.gnb_types.specs.declared.names.Gnb.{Gnb};
ghost use Rattle.gnb_types.specs.declared.names.UeId.{UeId};
ghost use Rattle.gnb_types.specs.declared.names.BearerId.{BearerId};
ghost use Rattle.message_types.specs.declared.rrc.Token.{Token};
ghost use Rattle.scenario_text.specs.declared.event.Event.{Event};
ghost use Rattle.unit_defs.specs.Ways.{Message, Load, Pdu};
ghost use Rattle.run_defs.specs.Units.{cu_up_of, du_of};
ghost use Rattle.run_defs.specs.Written.{Written};
ghost use Rattle.run_defs.specs.States.{State};
ghost use Rattle.run_defs.specs.Runs.{plain_world, Reading};
ghost use Rattle.proof_run_steps.specs.steps.Reached.{reached};
ghost use Rattle.proof_unit_steps.specs.tunnel_frames.OneTunnel.{BearersInOrder};
ghost use Rattle.proof_cu_up_orders.specs.context_orders.Orders.{model_of as up_model_of};
ghost use Rattle.proof_node_orders.specs.du_inputs.Changes.{model_of};
ghost use Rattle.proof_bearer_refinement.specs.run_unit_inputs.Happenings.{Happening, CuUpRecord, DuRecord, after_up, after_du, after_each};
ghost use Rattle.proof_bearer_refinement.specs.run_unit_inputs.Core.{CoreHappening, after_messages};
ghost use Rattle.proof_bearer_refinement.specs.run_unit_inputs.Dus.{du_changes, after_changes};
ghost use Rattle.proof_bearer_refinement.specs.run_unit_inputs.Ups.{all_carried, up_changes, IsLeft};

/// In every run, from any state, the record of a CU-UP, and that of a DU, is what its table makes of the inputs that it was given,
/// one after another, of terminals that were set up there without messages, and of being taken for set up: nothing else in the run
/// changes it.
pub fn units_take_inputs()
    ensures ups { (reading : Reading) (events : List Event)
        (s t : State (Message Token) Token (Written (Load Pdu)) (Written Pdu))
        → reached (plain_world reading) events s ≡ Some t → (gnb : Gnb) (number : ℕ)
        → (hs : List Happening) × (cu_up_of t.units gnb number ≡ after_each after_up (cu_up_of s.units gnb number) hs) }
    ensures dus { (reading : Reading) (events : List Event)
        (s t : State (Message Token) Token (Written (Load Pdu)) (Written Pdu))
        → reached (plain_world reading) events s ≡ Some t → (gnb : Gnb) (number : ℕ)
        → (hs : List Happening) × (du_of t.units gnb number ≡ after_each after_du (du_of s.units gnb number) hs) }
{}

/// What happens to a DU is, for each bearer, a list of changes of what it has of the bearer.
pub fn a_du_is_lists_of_changes()
    ensures { (ue : UeId) (bearer : BearerId) (r : DuRecord) (hs : List Happening)
        → model_of (after_each after_du r hs) ue bearer
        ≡ after_changes (model_of r ue bearer) (du_changes ue bearer r hs) }
{}

/// What happens to a CU-UP is, for each bearer, a list of orders of what it has of the bearer, none of which ends for a counter that
/// is spent; a terminal that is set up without messages has the bearer as it is then.
pub fn a_cu_up_is_lists_of_orders()
    ensures { (ue : UeId) (bearer : BearerId) (r : CuUpRecord) (hs : List Happening) → BearersInOrder r
        → BearersInOrder (after_each after_up r hs)
        × IsLeft (up_model_of (after_each after_up r hs) ue bearer)
        (all_carried ue bearer (up_changes ue bearer r hs) (up_model_of r ue bearer)) }
{}

/// So a run is, for each bearer, a list of orders of what each CU-UP has of it, and a list of changes of what each DU has of it: those
/// of the inputs that the unit was given.
pub fn a_run_is_lists_of_orders()
    ensures ups { (reading : Reading) (events : List Event)
        (s t : State (Message Token) Token (Written (Load Pdu)) (Written Pdu))
        → reached (plain_world reading) events s ≡ Some t → (gnb : Gnb) (number : ℕ)
        → let r = cu_up_of s.units gnb number in
        BearersInOrder r → (hs : List Happening) × (cu_up_of t.units gnb number ≡ after_each after_up r hs)
        × BearersInOrder (cu_up_of t.units gnb number)
        × ((ue : UeId) (bearer : BearerId) → IsLeft (up_model_of (cu_up_of t.units gnb number) ue bearer)
        (all_carried ue bearer (up_changes ue bearer r hs) (up_model_of r ue bearer))) }
    ensures dus { (reading : Reading) (events : List Event)
        (s t : State (Message Token) Token (Written (Load Pdu)) (Written Pdu))
        → reached (plain_world reading) events s ≡ Some t → (gnb : Gnb) (number : ℕ)
        → let r = du_of s.units gnb number in
        (hs : List Happening) × (du_of t.units gnb number ≡ after_each after_du r hs)
        × ((ue : UeId) (bearer : BearerId) → model_of (du_of t.units gnb number) ue bearer
        ≡ after_changes (model_of r ue bearer) (du_changes ue bearer r hs)) }
{}

/// In every run, from any state, the record of the core is what its table makes of the messages that it was given, one after another,
/// and of terminals that were set up without messages: nothing else in the run changes it.
pub fn the_core_takes_messages()
    ensures { (reading : Reading) (events : List Event)
        (s t : State (Message Token) Token (Written (Load Pdu)) (Written Pdu))
        → reached (plain_world reading) events s ≡ Some t
        → (hs : List CoreHappening) × (t.core ≡ after_messages s.core hs) }
{}
