//! Laws of orders that leave what a terminal shows of a bearer. Each function does nothing: its contract is the law.

ghost use Rattle.bearer_defs.specs.chain_defs.Orders as down;
ghost use Rattle.bearer_defs.specs.chain_defs.Models as down_models;
ghost use Rattle.gnb_types.specs.declared.names.BearerId.{BearerId};
ghost use Rattle.gnb_types.specs.declared.names.SnBits.{SnBits};
ghost use Rattle.gnb_types.specs.declared.names.UeId.{UeId};
ghost use Rattle.proof_node_orders.specs.core_rows.Shown.{Goal, orders_to, Places};
ghost use Rattle.proof_bearer_refinement.specs.core_step.Core.{orders_offered};
ghost use Rattle.proof_node_orders.specs.du_inputs.Puts.{OnTunnel};
ghost use Rattle.proof_bearer_refinement.specs.du_puts.Puts.{orders_up};
ghost use Rattle.proof_bearer_refinement.specs.uplink_radio.Radio.{IsAtTerminal, RunState};
ghost use Rattle.proof_bearer_refinement.specs.ue_view.Looks.{DownSame, IsNoPacket, UpSame};
ghost use Rattle.proof_node_orders.specs.terminal_inputs.Inputs.{Models};
ghost use Rattle.proof_bearer_refinement.specs.refinement_facts.Asked.{down_after, up_after};
ghost use Rattle.proof_cu_up_orders.specs.bearer_orders.Happenings.{asks, Beside, Contexts};
ghost use Rattle.proof_cu_up_orders.specs.context_orders.Orders.{ContextStep};
ghost use Rattle.proof_bearer_refinement.specs.run_bearers.Bearers.{Numbering};
ghost use Rattle.proof_bearer_refinement.specs.run_bearers.Things.{PlainUnits};
ghost use Rattle.run_defs.specs.Runs.{Reading};
ghost use Rattle.std.specs.List.{AllByRecursion};
ghost use Rattle.std.specs.Prelude.{List, map, Option, ℕ};
ghost use Rattle.unit_defs.specs.Ways.{Pdu};
ghost use Rattle.bearer_defs.specs.uplink_defs.Orders as up;
ghost use Rattle.bearer_defs.specs.uplink_defs.Models as up_models;

/// Whatever orders a CU-UP is asked for a bearer, the models' orders leave what the terminal shows of both models.
pub fn orders_of_a_cu_up_leave_the_terminal()
    ensures { (n : Numbering) (ue : UeId) (bearer : BearerId) (units : PlainUnits) (sn : SnBits)
        (quota x : ℕ) (b : Beside) (d : down_models.Model) (u : up_models.Model) (cs : Contexts)
        (os : List (ContextStep Pdu))
        → DownSame d (down_after n ue bearer units sn quota d cs (map (λ (order : ContextStep Pdu). asks x order b) os))
        × UpSame u (up_after n ue bearer units sn quota u cs (map (λ (order : ContextStep Pdu). asks x order b) os)) }
{}

/// So do a packet that is offered, and a path switch.
pub fn orders_of_the_core_leave_the_terminal()
    ensures { (ue : UeId) (bearer : BearerId) (who : UeId) (which : BearerId) (packet : List ℕ)
        (places : Places) (goal : Option Goal) (d : down_models.Model)
        → DownSame d (down.run d (orders_offered ue bearer who which packet))
        × DownSame d (down.run d (orders_to places goal)) }
{}

/// And what a DU puts, where no packet is among it.
pub fn end_markers_leave_the_terminal()
    ensures { (n : Numbering) (ue : UeId) (bearer : BearerId) (units : PlainUnits)
        (u : up_models.Model) (ps : List OnTunnel)
        → AllByRecursion (λ (p : OnTunnel). IsNoPacket p.load) ps
        → UpSame u (up.run u (orders_up n ue bearer units u ps)) }
{}

/// And a terminal that shows a bearer's models shows any that look the same.
pub fn a_terminal_shows_what_looks_the_same()
    ensures { (reading : Reading) (ue : UeId) (bearer : BearerId) (s : RunState) (b c : Models)
        → DownSame b.down c.down → UpSame b.up c.up
        → IsAtTerminal reading ue bearer s b → IsAtTerminal reading ue bearer s c }
{}
