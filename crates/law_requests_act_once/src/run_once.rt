//! Laws of control messages in every run of the whole base station, without a premise: CU-CPs fit what their rows ask, so each request
//! acts at most once, in the order of issue. Each function does nothing: its contract is the law.

ghost use Rattle.std.specs.Prelude.{◌≡◌, List, Some};
ghost use Rattle.message_types.specs.declared.rrc.Token.{Token};
ghost use Rattle.scenario_text.specs.declared.event.Event.{Event};
ghost use Rattle.unit_defs.specs.Ways.{Load, Message, Pdu};
ghost use Rattle.run_defs.specs.Written.{Written};
ghost use Rattle.run_defs.specs.States.{new_state, State};
ghost use Rattle.run_defs.specs.Runs.{plain_world, Reading};
ghost use Rattle.proof_run_steps.specs.steps.Reached.{reached};
ghost use Rattle.law_requests_act_once.specs.channel.Moves.{Order};
ghost use Rattle.proof_run_steps.specs.control.Control.{control_of};
ghost use Rattle.law_requests_act_once.specs.run_channels.Reached.{PlainControl, run_talk, ComesOf, AreExact, CpsFit, IsPassed};

/// In all that steps lead to, and so in each state that a run reaches, the request of each offered target is the newest that its CU-CP
/// took from the other one, unanswered; and what expires at a tick is to the other CU-CP, for a terminal that has a context.
pub fn cu_cps_fit()
    ensures passed { (reading : Reading) (k : PlainControl) → IsPassed reading k → CpsFit k }
    ensures reached { (reading : Reading) (events : List Event)
        → (t : State (Message Token) Token (Written (Load Pdu)) (Written Pdu))
        → reached (plain_world reading) events new_state ≡ Some t → CpsFit (control_of t) }
{}

/// In every run the control messages, and what units and the core keep of requests and replies, are those after a list of orders,
/// each made when it might be, and no request expired without its cancel.
pub fn control_comes_of_orders()
    ensures { (reading : Reading) (events : List Event)
        → (t : State (Message Token) Token (Written (Load Pdu)) (Written Pdu))
        → reached (plain_world reading) events new_state ≡ Some t
        → (orders : List (Order run_talk)) × ComesOf (control_of t) orders }
{}

/// So between any two nodes and for any terminal, in each state that a run reaches, the eleven facts of a channel hold; the
/// responder acted on each request at most once, in the order of issue, and passed over one for a cancel alone; and a reply to the
/// open request is that of its act.
pub fn requests_act_once()
    ensures { (reading : Reading) (events : List Event)
        → (t : State (Message Token) Token (Written (Load Pdu)) (Written Pdu))
        → reached (plain_world reading) events new_state ≡ Some t
        → AreExact (control_of t) }
{}
