//! A law of the requests that switch bearers, in any run. Each function does nothing: its contract is the law.

ghost use Rattle.proof_unit_steps.specs.downlink_names.Places.{DownlinkTeid};
ghost use Rattle.law_frames_are_numbered.specs.run_switches.Switches.{NamedOnce};
ghost use Rattle.proof_run_steps.specs.steps.Reached.{reached};
ghost use Rattle.message_types.specs.declared.rrc.Token.{Token};
ghost use Rattle.run_defs.specs.Runs.{plain_world, Reading};
ghost use Rattle.run_defs.specs.States.{new_state, State};
ghost use Rattle.run_defs.specs.Written.{Written};
ghost use Rattle.scenario_text.specs.declared.event.Event.{Event};
ghost use Rattle.std.specs.Prelude.{List, Some, ◌≡◌};
ghost use Rattle.unit_defs.specs.Ways.{Load, Message, Pdu};

/// In every run of the whole base station no two switches name a tunnel. For each TEID of each DU: of all control messages that were
/// put, the requests of the DU's CU-CP to switch a bearer to it are of one terminal, to one CU-UP, with one instance, and for one bearer
/// (such a request may be put, lost and got many times); and the answers of the DU that name it are to one request, for one bearer.
pub fn no_two_switches_name_a_downlink()
    ensures { (reading : Reading) (events : List Event) (t : DownlinkTeid) (s : State (Message Token) Token (Written (Load Pdu)) (Written Pdu))
        → reached (plain_world reading) events new_state ≡ Some s → NamedOnce t s.bag.control_messages }
{}
