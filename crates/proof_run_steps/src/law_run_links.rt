//! Laws of what stands on links. Each function does nothing: its contract is the law.

ghost use Rattle.proof_run_steps.specs.law_run_links.Own.{HoldTheirOwn};
ghost use Rattle.proof_run_steps.specs.steps.Reached.{reached};
ghost use Rattle.message_types.specs.declared.rrc.Token.{Token};
ghost use Rattle.run_defs.specs.Runs.{plain_world, Reading};
ghost use Rattle.run_defs.specs.States.{new_state, State, World};
ghost use Rattle.run_defs.specs.Written.{Written};
ghost use Rattle.scenario_text.specs.declared.event.Event.{Event};
ghost use Rattle.std.specs.Prelude.{length, List, Some, ◌≡◌, ◌≤◌};
ghost use Rattle.transport_defs.specs.Links.{most_control_messages};
ghost use Rattle.unit_defs.specs.Ways.{Load, Message, Pdu};

/// Whatever units and the core answer: in every run each item of a radio is of the radio's terminal, bearer and direction; and
/// so on from any state in which it is so.
pub fn items_of_radios_are_their_own<M, C, L, P>()
    ensures run { (world : World M C L P) (events : List Event) (t : State M C L P)
        → reached world events new_state ≡ Some t → HoldTheirOwn t }
    ensures on { (world : World M C L P) (events : List Event) (s t : State M C L P)
        → HoldTheirOwn s → reached world events s ≡ Some t → HoldTheirOwn t }
{}

/// In every run of the whole base station at most 1,000,000 control messages were put, and so on from any state in which it
/// is so.
pub fn control_messages_are_few()
    ensures run { (reading : Reading) (events : List Event)
        (t : State (Message Token) Token (Written (Load Pdu)) (Written Pdu))
        → reached (plain_world reading) events new_state ≡ Some t
        → length t.bag.control_messages ≤ most_control_messages }
    ensures on { (reading : Reading) (events : List Event)
        (s t : State (Message Token) Token (Written (Load Pdu)) (Written Pdu))
        → length s.bag.control_messages ≤ most_control_messages → reached (plain_world reading) events s ≡ Some t
        → length t.bag.control_messages ≤ most_control_messages }
{}
