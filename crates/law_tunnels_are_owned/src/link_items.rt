//! Laws of what stands on links. Each function does nothing: its contract is the law.

ghost use Rattle.law_tunnels_are_owned.specs.link_items.Items.{ItemsShow};
ghost use Rattle.law_tunnels_are_owned.specs.link_items.Octets.{ItemsAreLaid};
ghost use Rattle.proof_run_steps.specs.steps.Reached.{reached};
ghost use Rattle.message_types.specs.declared.rrc.Token.{Token};
ghost use Rattle.run_defs.specs.Runs.{plain_world, Reading};
ghost use Rattle.run_defs.specs.States.{new_state, State};
ghost use Rattle.run_defs.specs.Written.{Written};
ghost use Rattle.scenario_text.specs.declared.event.Event.{Event};
ghost use Rattle.std.specs.Prelude.{List, Some, ◌≡◌};
ghost use Rattle.unit_defs.specs.Ways.{Load, Message, Pdu};

/// In every run each item of a tunnel is one that may stand there, by the node at the tunnel's end and by its direction: frames
/// alone go to a DU; packets, End Markers and delivery statuses go down to a CU-UP, PDUs, packets with a COUNT and End Markers
/// go up to one; and to no other node a tunnel leads. Beside each item, and beside each PDU of a radio, stands the COUNT that it
/// says: of its packet, where that has one, or of the packet that it confirms; and none beside any other.
pub fn items_show_what_they_say()
    ensures { (reading : Reading) (events : List Event)
        (t : State (Message Token) Token (Written (Load Pdu)) (Written Pdu))
        → reached (plain_world reading) events new_state ≡ Some t → ItemsShow t }
{}

/// In every run the octets of each item of a tunnel have a layout of the links that lead to the tunnel's end in its direction,
/// for the tunnel's TEID and the COUNT that is shown, with numbers of 12 or of 18 bits; and so have those of each PDU of a
/// radio.
pub fn octets_are_of_their_links()
    ensures { (reading : Reading) (events : List Event)
        (t : State (Message Token) Token (Written (Load Pdu)) (Written Pdu))
        → reached (plain_world reading) events new_state ≡ Some t → ItemsAreLaid t }
{}
