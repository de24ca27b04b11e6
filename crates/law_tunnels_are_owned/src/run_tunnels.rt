//! Laws of what stands on tunnels. Each function does nothing: its contract is the law.

ghost use Rattle.law_tunnels_are_owned.specs.run_tunnels.Example.{of_another};
ghost use Rattle.law_tunnels_are_owned.specs.run_tunnels.Own.{OctetsAreOfTheirKind, TunnelsHoldTheirOwn};
ghost use Rattle.proof_run_steps.specs.steps.Reached.{reached};
ghost use Rattle.message_types.specs.declared.rrc.Token.{Token};
ghost use Rattle.run_defs.specs.Runs.{plain_world, Reading};
ghost use Rattle.run_defs.specs.States.{new_state, State};
ghost use Rattle.run_defs.specs.Written.{Written};
ghost use Rattle.scenario_text.specs.declared.event.Event.{Event};
ghost use Rattle.std.specs.Prelude.{List, Some, ◌≡◌};
ghost use Rattle.unit_defs.specs.Ways.{Load, Message, Pdu};

/// In every run each item that stands on a tunnel to a CU-UP or a DU is of the terminal and the bearer of the context that the
/// TEID belongs to there, goes in the direction of the tunnel's kind, and is what such a tunnel carries in this direction: N3
/// packets without a COUNT and End Markers, and so on; and no item stands on a tunnel to another node.
pub fn tunnels_hold_their_own()
    ensures { (reading : Reading) (events : List Event)
        (t : State (Message Token) Token (Written (Load Pdu)) (Written Pdu))
        → reached (plain_world reading) events new_state ≡ Some t → TunnelsHoldTheirOwn t }
{}

/// And its octets have the layout of the tunnel's kind in this direction, for the TEID and the COUNT that is shown, with numbers
/// of 12 or of 18 bits.
pub fn octets_are_of_their_kind()
    ensures { (reading : Reading) (events : List Event)
        (t : State (Message Token) Token (Written (Load Pdu)) (Written Pdu))
        → reached (plain_world reading) events new_state ≡ Some t → OctetsAreOfTheirKind t }
{}

/// A packet of one terminal on a tunnel of another one is against the law.
pub fn the_law_says_something()
    ensures { TunnelsHoldTheirOwn of_another → ⊥ }
{}
