//! Laws of the events of a run: what is one terminal's leaves the others, step by step. Each function does nothing: its contract is
//! the law.

ghost use Rattle.gnb_types.specs.declared.names.UeId.{UeId};
ghost use Rattle.law_terminals_are_isolated.specs.frame_of_steps.Others.{IsOutputFor, IsStepFor};
ghost use Rattle.law_terminals_are_isolated.specs.own_events.Events.{AllFor, RunOutcome, RunState};
ghost use Rattle.law_terminals_are_isolated.specs.own_events.Passed.{Passes};
ghost use Rattle.law_terminals_are_isolated.specs.own_steps.Own.{IsActed, LeavesOthers};
ghost use Rattle.law_tunnels_are_owned.specs.open_tunnels.Open.{StandWhereOpen};
ghost use Rattle.law_tunnels_are_owned.specs.owner_facts.Owned.{AreOwned};
ghost use Rattle.proof_run_steps.specs.law_run_links.Own.{HoldTheirOwn};
ghost use Rattle.law_terminals_are_isolated.specs.run_projections.Units.{given_ue, AreThemselves};
ghost use Rattle.law_tunnels_are_owned.specs.run_tunnels.Own.{TunnelsHoldTheirOwn};
ghost use Rattle.proof_run_steps.specs.steps.Causes.{Cause, count_of, first_of, given_of, node_of};
ghost use Rattle.proof_run_steps.specs.steps.IsOutcome.{IsOutcome};
ghost use Rattle.proof_run_steps.specs.steps.Reached.{reached};
ghost use Rattle.message_types.specs.declared.rrc.Token.{Token};
ghost use Rattle.run_defs.specs.Lines.{RunLine};
ghost use Rattle.run_defs.specs.Runs.{plain_world, Reading};
ghost use Rattle.run_defs.specs.States.{goes, new_state, RunStep};
ghost use Rattle.run_defs.specs.Steps.{carried_out};
ghost use Rattle.run_defs.specs.Units.{Units};
ghost use Rattle.run_defs.specs.Written.{Written};
ghost use Rattle.scenario_text.specs.declared.event.Event.{Event};
ghost use Rattle.std.specs.List.{AllByRecursion};
ghost use Rattle.std.specs.Prelude.{List, Some, ◌≡◌};
ghost use Rattle.unit_defs.specs.Ways.{Load, Message, Pdu, Put};

/// In every state that a run passes, within events too: each terminal is kept as itself; the open TEIDs of each CU-UP and DU are
/// those that its contexts name, each for one; tunnels stand where their TEIDs are open; and what stands on a tunnel, and on a
/// radio, is of the terminal and bearer whose it is. So whatever a step puts on a tunnel that stays open is the tunnel's owner's.
pub fn links_hold_their_own_within_events()
    ensures { (reading : Reading) (events : List Event) (event : Event) (s t : RunState)
        → reached (plain_world reading) events new_state ≡ Some s
        → Passes (plain_world reading) event s t
        → AreThemselves t.units × AreOwned t.units × StandWhereOpen t × TunnelsHoldTheirOwn t
        × HoldTheirOwn t }
{}

/// In every state that a run passes, within events too: where a unit acts with what is for a terminal, the step is the terminal's,
/// and so is all that it puts out; on a tunnel that it closes nothing of another terminal stands; and it leaves the whole projections of
/// all others.
pub fn each_step_within_an_event_is_one_terminals()
    ensures is_its_own { (reading : Reading) (events : List Event) (event : Event)
        (s t : RunState) (ue : UeId)
        (cause : Cause (Message Token) (Written (Load Pdu)) (Written Pdu))
        (outputs : List (Put (Message Token) (Written (Load Pdu)) (Written Pdu)))
        (units : Units (Message Token) Token)
        → reached (plain_world reading) events new_state ≡ Some s
        → Passes (plain_world reading) event s t
        → IsActed (plain_world reading) event t cause outputs units
        → given_ue reading t.units (node_of cause) (given_of cause) ≡ Some ue
        → IsStepFor ue t cause × AllByRecursion (IsOutputFor ue t (node_of cause)) outputs }
    ensures leaves { (reading : Reading) (events : List Event) (event : Event)
        (s t u : RunState) (ue : UeId)
        (cause : Cause (Message Token) (Written (Load Pdu)) (Written Pdu))
        (outputs : List (Put (Message Token) (Written (Load Pdu)) (Written Pdu)))
        (units : Units (Message Token) Token)
        (lines : List (RunLine (Message Token)))
        → reached (plain_world reading) events new_state ≡ Some s
        → Passes (plain_world reading) event s t
        → IsActed (plain_world reading) event t cause outputs units
        → given_ue reading t.units (node_of cause) (given_of cause) ≡ Some ue
        → carried_out (plain_world reading) (node_of cause) (count_of cause)
        (first_of (plain_world reading) cause)
        outputs units t ≡ goes lines u → LeavesOthers ue t u }
{}

/// So an event of any run, or a part of one, all of whose steps are a terminal's leaves the whole projections of all others: those of
/// units and of the core, and what is lost between.
pub fn an_event_of_one_terminal_leaves_the_others()
    ensures { (reading : Reading) (events : List Event) (event : Event) (s t u : RunState)
        (ue : UeId) (e : RunOutcome) (told : List (RunStep (Message Token)))
        (made : IsOutcome (plain_world reading) event t e)
        → reached (plain_world reading) events new_state ≡ Some s
        → Passes (plain_world reading) event s t
        → AllFor reading event ue t e made → e ≡ goes told u → LeavesOthers ue t u }
{}
