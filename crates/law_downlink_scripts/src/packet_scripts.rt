//! A law of scripts that move packets alone. Each function does nothing: its contract is the law.

ghost use Rattle.law_downlink_scripts.specs.packet_scripts.Packets.{IsOfPackets};
ghost use Rattle.proof_run_steps.specs.steps.Reached.{reached};
ghost use Rattle.message_types.specs.declared.rrc.Token.{Token};
ghost use Rattle.run_defs.specs.Runs.{plain_world, Reading};
ghost use Rattle.run_defs.specs.States.{State};
ghost use Rattle.run_defs.specs.Written.{Written};
ghost use Rattle.scenario_text.specs.declared.event.Event.{Event};
ghost use Rattle.std.specs.List.{AllByRecursion};
ghost use Rattle.std.specs.Prelude.{List, Some, ◌≡◌};
ghost use Rattle.unit_defs.specs.Ways.{Load, Message, Pdu};

/// In every run of terminals that are set up without messages, of packets that are offered, and of items that are got,
/// carried, confirmed and lost, from every state: no control message is put, and none is given or lost.
pub fn packets_need_no_control()
    ensures { (reading : Reading) (events : List Event) → AllByRecursion IsOfPackets events
        → (s t : State (Message Token) Token (Written (Load Pdu)) (Written Pdu))
        → reached (plain_world reading) events s ≡ Some t → t.bag ≡ s.bag }
{}
