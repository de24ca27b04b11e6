//! A law of what comes to a CU-UP in every run. Each function does nothing: its contract is the law.

ghost use Rattle.gnb_types.specs.declared.keys.TunnelEnd.{TunnelEnd};
ghost use Rattle.gnb_types.specs.declared.names.Gnb.{Gnb};
ghost use Rattle.gnb_types.specs.declared.names.NodeId.TheVariants.{CuUp};
ghost use Rattle.gnb_types.specs.Orders.{tunnel_cmp};
ghost use Rattle.proof_cu_up_orders.specs.context_orders.Orders.{CuUpModel};
ghost use Rattle.law_tunnels_are_owned.specs.item_fits.Fits.{ControlAssumes, IsFit};
ghost use Rattle.proof_run_steps.specs.steps.Reached.{reached};
ghost use Rattle.message_types.specs.declared.rrc.Token.{Token};
ghost use Rattle.run_defs.specs.Runs.{plain_world, Reading, taken_of};
ghost use Rattle.run_defs.specs.States.{new_state, State};
ghost use Rattle.run_defs.specs.Units.{cu_up_of};
ghost use Rattle.run_defs.specs.Written.{Written};
ghost use Rattle.scenario_text.specs.declared.event.Event.{Event};
ghost use Rattle.std.specs.List.{AllByRecursion};
ghost use Rattle.std.specs.Ordering.{nat_cmp};
ghost use Rattle.std.specs.Prelude.{List, Some, ℕ, ◌≡◌};
ghost use Rattle.tables.specs.Tables.{find};
ghost use Rattle.transport_defs.specs.declared.Item.{Item};
ghost use Rattle.unit_defs.specs.CuUpRecords.{CuUpTunnel};
ghost use Rattle.unit_defs.specs.Ways.{Load, Message, Pdu};

/// In every run each item on a tunnel of a CU-UP is one that the orders of a bearer take there, down or up, where control keeps what
/// it owes; so nothing stands on a tunnel of a kind that no order takes there, and each COUNT is found.
pub fn items_are_fit_but_for_control()
    ensures { (reading : Reading) (events : List Event)
        (t : State (Message Token) Token (Written (Load Pdu)) (Written Pdu))
        → reached (plain_world reading) events new_state ≡ Some t
        → (gnb : Gnb) (number teid : ℕ) (owner : CuUpTunnel) (items : List (Item (Written (Load Pdu))))
        → find nat_cmp (cu_up_of t.units gnb number).tunnels teid ≡ Some owner
        → find tunnel_cmp t.tunnels (record { node = CuUp gnb number; teid = teid }) ≡ Some items
        → AllByRecursion (λ (item : Item (Written (Load Pdu))). (p : CuUpModel)
        → ControlAssumes p owner.kind (taken_of item.content.says)
        → IsFit p owner.kind (taken_of item.content.says)) items }
{}
