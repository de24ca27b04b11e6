//! A law of the answers in any run. Each function does nothing: its contract is the law.

ghost use Rattle.proof_run_steps.specs.answerers.Answerers.{AllAnswerOwn};
ghost use Rattle.proof_run_steps.specs.steps.Reached.{reached};
ghost use Rattle.message_types.specs.declared.rrc.Token.{Token};
ghost use Rattle.run_defs.specs.Runs.{plain_world, Reading};
ghost use Rattle.run_defs.specs.States.{new_state, State};
ghost use Rattle.run_defs.specs.Written.{Written};
ghost use Rattle.scenario_text.specs.declared.event.Event.{Event};
ghost use Rattle.std.specs.Prelude.{List, Some, ◌≡◌};
ghost use Rattle.unit_defs.specs.Ways.{Load, Message, Pdu};

/// In every run of the whole base station: of all control messages that were put, each UE Context Setup Response and UE Context
/// Modification Response was put by a DU, and each Bearer Context Setup Response by a CU-UP.
pub fn only_dus_tell_of_downlinks()
    ensures { (reading : Reading) (events : List Event) (t : State (Message Token) Token (Written (Load Pdu)) (Written Pdu))
        → reached (plain_world reading) events new_state ≡ Some t → AllAnswerOwn t.bag.control_messages }
{}
