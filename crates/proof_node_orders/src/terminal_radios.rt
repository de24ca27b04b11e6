//! A law of the inputs of a terminal and its radio up. The function does nothing: its contract is the law.

ghost use Rattle.gnb_types.specs.declared.names.BearerId.{BearerId};
ghost use Rattle.proof_node_orders.specs.terminal_inputs.Inputs.{orders_by, Models};
ghost use Rattle.proof_node_orders.specs.terminal_radios.Radios.{Receives, unknown_after};
ghost use Rattle.std.specs.Prelude.{Option, ℕ};
ghost use Rattle.unit_defs.specs.Ue.{ue_acts, UeNode};
ghost use Rattle.unit_defs.specs.Ways.{Input, Way};

/// Whatever a terminal is given: what it puts on a radio is its own, up, in the epoch in which it is connected then. A connected terminal
/// whose orders leave the radio is on none then; else it is connected on the same one. And what was carried there and isn't confirmed is
/// what was so before, less what the orders confirm, or nothing, where they leave the radio.
pub fn inputs_leave_the_radio<M, C, P>()
    ensures { (way : Way M C P) (u : UeNode) (b : Models) (bearer : BearerId) (to : Option ℕ)
        (input : Input C P)
        → Receives (unknown_after bearer input b.up.carried) b (orders_by way u b bearer to input) u
        (ue_acts way u input) }
{}
