//! Laws of a context of the chain that sends to a DU, beside what a CU-UP is asked of another context, and beside the radio. Each function
//! does nothing: its contract is the law.

ghost use Rattle.bearer_defs.specs.chain_defs.Models.{Model};
ghost use Rattle.gnb_types.specs.declared.names.BearerId.{BearerId};
ghost use Rattle.gnb_types.specs.declared.names.SnBits.{SnBits};
ghost use Rattle.gnb_types.specs.declared.names.UeId.{UeId};
ghost use Rattle.law_downlink_order.specs.received_packets.Received.{WasPut};
ghost use Rattle.intervals.specs.Intervals.{reach};
ghost use Rattle.proof_bearer_refinement.specs.other_contexts.Alike.{Alike};
ghost use Rattle.proof_cu_up_orders.specs.sending_contexts.Sending.{IsSending, Tunnel};
ghost use Rattle.proof_bearer_refinement.specs.refinement_facts.Asked.{down_after};
ghost use Rattle.proof_cu_up_orders.specs.bearer_orders.Happenings.{asks, Beside, Contexts};
ghost use Rattle.proof_cu_up_orders.specs.context_orders.Orders.{ContextStep};
ghost use Rattle.proof_bearer_refinement.specs.run_bearers.Bearers.{Numbering};
ghost use Rattle.proof_bearer_refinement.specs.run_bearers.Things.{PlainUnits};
ghost use Rattle.std.specs.Prelude.{[], List, map, ◌≡◌, ◌≢◌, ◌≤◌, ℕ};
ghost use Rattle.unit_defs.specs.CuUpRecords.{CuUpBearer};
ghost use Rattle.unit_defs.specs.Ways.{Pdu};

/// Whatever is asked of one context, another one that sends to its DU does so still.
pub fn orders_elsewhere_keep_what_is_sent()
    ensures { (n : Numbering) (ue : UeId) (bearer : BearerId) (units : PlainUnits) (sn : SnBits)
        (quota : ℕ) (x y : ℕ) → y ≢ x → (b : Beside) (d : Model) (cs : Contexts)
        (orders : List (ContextStep Pdu)) (c : CuUpBearer) (w : Tunnel) → IsSending d y c w
        → IsSending (down_after n ue bearer units sn quota d cs (map (λ order. asks x order b) orders))
        y c w }
{}

/// It does so still where the terminal received more, what waits on the radio after the DU reaches as far, and what was put for the present
/// radio is so still; and where all frames on its tunnel are lost.
pub fn what_is_sent_stays_so_later()
    ensures later { (d t : Model) (x : ℕ) (c : CuUpBearer) (w : Tunnel) (left : List (ℕ × List ℕ))
        → Alike (d.members x) (t.members x) → t.epoch ≡ d.epoch
        → d.terminal.deliv ≤ t.terminal.deliv
        → reach d.terminal.deliv w.waits ≤ reach t.terminal.deliv left
        → ((count : ℕ) (packet : List ℕ) → WasPut d count packet → WasPut t count packet)
        → IsSending d x c w → IsSending t x c (record w { waits = left }) }
    ensures lost { (d : Model) (x : ℕ) (c : CuUpBearer) (w : Tunnel)
        → IsSending d x c w → IsSending d x c (record w { frames = [] }) }
{}
