//! Laws of a terminal's step in two states of runs in which what is kept of it is the same. Each function does nothing: its contract
//! is the law.

ghost use Rattle.gnb_types.specs.declared.keys.TunnelEnd.{TunnelEnd};
ghost use Rattle.gnb_types.specs.declared.names.NodeId.{NodeId};
ghost use Rattle.gnb_types.specs.declared.names.UeId.{UeId};
ghost use Rattle.law_terminals_are_isolated.specs.step_consistency.EqualStates.{Agree, EqualStates, EqualFrom, Together};
ghost use Rattle.law_terminals_are_isolated.specs.step_consistency.Places.{shared_at};
ghost use Rattle.law_terminals_are_isolated.specs.own_events.Events.{RunState};
ghost use Rattle.law_terminals_are_isolated.specs.run_projections.Units.{given_ue};
ghost use Rattle.proof_run_steps.specs.steps.Reached.{reached};
ghost use Rattle.message_types.specs.declared.rrc.Token.{Token};
ghost use Rattle.run_defs.specs.Runs.{plain_world, PlainGiven, Reading};
ghost use Rattle.run_defs.specs.States.{new_state, sn_of, State, stepped, World};
ghost use Rattle.run_defs.specs.Steps.{put_out_all};
ghost use Rattle.run_defs.specs.Units.{Units};
ghost use Rattle.run_defs.specs.Written.{Written};
ghost use Rattle.scenario_text.specs.declared.event.Event.{Event};
ghost use Rattle.law_terminals_are_isolated.specs.projections.Steps.{IsFor};
ghost use Rattle.std.specs.List.{AllByRecursion};
ghost use Rattle.std.specs.Prelude.{Bool, List, Option, Some, ℕ, ◌≡◌};
ghost use Rattle.unit_defs.specs.Ways.{Load, Message, Pdu, Put};

/// Whatever units answer, and from any two states in which what is kept of a terminal beside the units is the same, on the tunnels
/// that are looked at: so it is after outputs that are all the terminal's, where both go on.
pub fn outputs_of_a_terminal_do_the_same<M, C, L, P>()
    ensures { (world : World M C L P) (ue : UeId) (shows : TunnelEnd → Bool) (node : NodeId)
        (taken : Option ℕ)
        (outputs : List (Put M L P)) (s t : State M C L P) → AllByRecursion (IsFor ue.0) outputs
        → EqualStates ue shows s t
        → EqualFrom ue shows (put_out_all world node taken outputs s)
        (put_out_all world node taken outputs t) }
{}

/// In any two states that runs reach, where a terminal's projection is the same at all units, and what couples terminals at one of them:
/// this unit answers what is for the terminal with the same outputs, with their octets, which are all the terminal's; and the projection is
/// the same at all units then.
pub fn units_answer_a_terminal_the_same()
    ensures { (reading : Reading) (first second : List Event) (s t : RunState) (ue : UeId)
        (node : NodeId) (given : PlainGiven)
        (xs ys : List (Put (Message Token) (Written (Load Pdu)) (Written Pdu)))
        (a b : Units (Message Token) Token)
        → reached (plain_world reading) first new_state ≡ Some s
        → reached (plain_world reading) second new_state ≡ Some t
        → Agree ue s.units t.units → sn_of s ue ≡ sn_of t ue
        → given_ue reading s.units node given ≡ Some ue
        → given_ue reading t.units node given ≡ Some ue
        → shared_at s.units node ≡ shared_at t.units node
        → (plain_world reading).answer (sn_of s) s.units node given ≡ stepped xs a
        → (plain_world reading).answer (sn_of t) t.units node given ≡ stepped ys b
        → Together ue xs ys a b }
{}
