//! Laws of control messages in every run of the whole base station: each request is acted on at most once, in the order of issue.
//! Each function does nothing: its contract is the law.

ghost use Rattle.std.specs.Prelude.{◌≡◌, List, Some};
ghost use Rattle.message_types.specs.declared.rrc.Token.{Token};
ghost use Rattle.scenario_text.specs.declared.event.Event.{Event};
ghost use Rattle.unit_defs.specs.Ways.{Load, Message, Pdu};
ghost use Rattle.run_defs.specs.Written.{Written};
ghost use Rattle.run_defs.specs.States.{new_state, State};
ghost use Rattle.run_defs.specs.Runs.{plain_world, Reading};
ghost use Rattle.proof_run_steps.specs.steps.Reached.{reached};
ghost use Rattle.law_requests_act_once.specs.channel.Moves.{Order};
ghost use Rattle.proof_run_steps.specs.control.Control.{control_of};
ghost use Rattle.law_requests_act_once.specs.run_channels.Example.{script, worked, expected};
ghost use Rattle.law_requests_act_once.specs.run_channels.Reached.{PlainControl, run_talk, ComesOf, AreExact, CpsFit, IsPassed};

/// In every run the control messages, and what units and the core keep of requests and replies, are those after a list of orders,
/// each made when it might be, and no request expired without its cancel. Premise: in all
/// that steps lead to, CU-CPs fit what their rows ask.
pub fn control_comes_of_orders()
    ensures { (reading : Reading) → ((k : PlainControl) → IsPassed reading k → CpsFit k)
        → (events : List Event)
        → (t : State (Message Token) Token (Written (Load Pdu)) (Written Pdu))
        → reached (plain_world reading) events new_state ≡ Some t
        → (orders : List (Order run_talk)) × ComesOf (control_of t) orders }
{}

/// So between any two nodes and for any terminal, in each state that a run reaches, the eleven facts of a channel hold; the
/// responder acted on each request at most once, in the order of issue, and passed over one for a cancel alone; and a reply to the
/// open request is that of its act. The same premise.
pub fn requests_act_once()
    ensures { (reading : Reading) → ((k : PlainControl) → IsPassed reading k → CpsFit k)
        → (events : List Event)
        → (t : State (Message Token) Token (Written (Load Pdu)) (Written Pdu))
        → reached (plain_world reading) events new_state ≡ Some t
        → AreExact (control_of t) }
{}

/// Not empty: units start, a terminal is attached and arrives, and a handover to the other gNB is ordered: then the first CU-CP has
/// put two requests to the second one, for the handover and its SN status, and the second one took both.
pub fn a_worked_run()
    ensures { worked script ≡ expected }
{}
