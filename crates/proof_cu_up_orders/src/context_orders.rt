//! Laws of the rows of a CU-UP's bearers, and of what asks nothing of a bearer. Each function does nothing: its contract is the
//! law.

ghost use Rattle.std.specs.Prelude.{◌≡◌, ℕ, Bool, true, false, List, [], Option, Some, None};
ghost use Rattle.std.specs.Ordering.{nat_cmp, eq_by_cmp};
ghost use Rattle.gnb_types.specs.declared.names.NodeId.{NodeId};
ghost use Rattle.gnb_types.specs.declared.names.BearerId.{BearerId};
ghost use Rattle.gnb_types.specs.declared.names.UeId.{UeId};
ghost use Rattle.gnb_types.specs.declared.plans.SnStatus.{SnStatus};
ghost use Rattle.gnb_types.specs.declared.inputs.Order.TheVariants as inputs;
ghost use Rattle.gnb_types.specs.declared.outputs.Tag.{Tag};
ghost use Rattle.gnb_types.specs.declared.reasons.HeldReason.{HeldReason};
ghost use Rattle.gnb_types.specs.Orders.{ue_cmp, bearer_cmp};
ghost use Rattle.tables.specs.Tables.{find};
ghost use Rattle.transaction_defs.specs.Callees.{again, stale, verdict};
ghost use Rattle.unit_defs.specs.Messages.{channel};
ghost use Rattle.unit_defs.specs.Transactions.{request, kind_of};
ghost use Rattle.unit_defs.specs.CuUp.{context_of};
ghost use Rattle.unit_defs.specs.CuUpBearers.{with_uplink, switched, frozen_to, with_status, resumed, framed};
ghost use Rattle.unit_defs.specs.CuUpItems.{held_reason, took};
ghost use Rattle.unit_defs.specs.CuUpRecords.{CuUp, CuUpScope, CuUpBearer, CuUpContext, CuUpTunnel, TunnelKind, cu_up_scope};
ghost use Rattle.unit_defs.specs.Ways.{Message, Taken, control_input, packet_input, tick_input, order_input, Way};
ghost use Rattle.proof_cu_up_orders.specs.context_orders.Inputs.{closes_after, orders_of};
ghost use Rattle.proof_cu_up_orders.specs.context_orders.Shown.{is_bearer, IsOff};

/// What a row of a bearer puts and hands up is on this bearer alone.
pub fn rows_are_on_their_bearer<M, C, P>()
    ensures uplinks { (way : Way M C P) (ue : UeId) (bearer : BearerId) (teid : ℕ) (b : CuUpBearer)
        → IsOff ue bearer (with_uplink way teid b) }
    ensures switches { (way : Way M C P) (ue : UeId) (bearer : BearerId) (at : CuUpScope)
        → is_bearer ue bearer at.ue at.bearer ≡ false → (du : NodeId) (teid : ℕ) (b : CuUpBearer)
        → IsOff ue bearer (switched way at du teid b) }
    ensures freezes { (way : Way M C P) (ue : UeId) (bearer : BearerId) (at : CuUpScope)
        → is_bearer ue bearer at.ue at.bearer ≡ false → (peer : NodeId) (down up : ℕ) (b : CuUpBearer)
        → IsOff ue bearer (frozen_to way at peer down up b) }
    ensures statuses { (way : Way M C P) (ue : UeId) (bearer : BearerId) (at : CuUpScope)
        → is_bearer ue bearer at.ue at.bearer ≡ false → (s : SnStatus) (b : CuUpBearer)
        → IsOff ue bearer (with_status way at s b) }
    ensures resumes { (way : Way M C P) (ue : UeId) (bearer : BearerId) (at : CuUpScope)
        → is_bearer ue bearer at.ue at.bearer ≡ false → (b : CuUpBearer)
        → IsOff ue bearer (resumed way at b) }
    ensures items { (way : Way M C P) (ue : UeId) (bearer : BearerId) (at : CuUpScope)
        → is_bearer ue bearer at.ue at.bearer ≡ false → (kind : TunnelKind) (teid : ℕ) (item : Taken P)
        (b : CuUpBearer) → IsOff ue bearer (took way at kind teid item b) }
    ensures frames { (way : Way M C P) (ue : UeId) (bearer : BearerId) (at : CuUpScope)
        → is_bearer ue bearer at.ue at.bearer ≡ false → (poll restart : Bool) (pdu : Option P)
        (tag : Tag) (b : CuUpBearer) → IsOff ue bearer (framed way at poll restart pdu tag b) }
{}

/// Nothing is asked of a bearer by ticks and the start of the unit; by items of no tunnel, of another terminal's, and of one
/// that holds them; and by requests that came before. An item of another bearer of the context asks at most for its end.
pub fn other_inputs_ask_nothing<M, C, P>()
    ensures ticks { (way : Way M C P) (r : CuUp M C) (ue : UeId) (bearer : BearerId)
        → orders_of way r ue bearer tick_input ≡ [] }
    ensures starts { (way : Way M C P) (r : CuUp M C) (ue : UeId) (bearer : BearerId)
        → orders_of way r ue bearer (order_input inputs.Start) ≡ [] }
    ensures no_tunnels { (way : Way M C P) (r : CuUp M C) (ue : UeId) (bearer : BearerId) (teid : ℕ)
        (item : Taken P) → find nat_cmp r.tunnels teid ≡ None
        → orders_of way r ue bearer (packet_input teid item) ≡ [] }
    ensures other_terminals { (way : Way M C P) (r : CuUp M C) (ue : UeId) (bearer : BearerId)
        (teid : ℕ) (item : Taken P) (t : CuUpTunnel) → find nat_cmp r.tunnels teid ≡ Some t
        → eq_by_cmp ue_cmp ue t.ue ≡ false → orders_of way r ue bearer (packet_input teid item) ≡ [] }
    ensures held_items { (way : Way M C P) (r : CuUp M C) (ue : UeId) (bearer : BearerId) (teid : ℕ)
        (item : Taken P) (t : CuUpTunnel) → find nat_cmp r.tunnels teid ≡ Some t → (c : CuUpContext)
        → context_of r t.ue ≡ Some c → (b : CuUpBearer) → find bearer_cmp c.bearers t.bearer ≡ Some b
        → (reason : HeldReason) → held_reason (cu_up_scope t.ue c t.bearer) b t.kind item ≡ Some reason
        → orders_of way r ue bearer (packet_input teid item) ≡ [] }
    ensures other_bearers { (way : Way M C P) (r : CuUp M C) (ue : UeId) (bearer : BearerId) (teid : ℕ)
        (item : Taken P) (t : CuUpTunnel) → find nat_cmp r.tunnels teid ≡ Some t
        → eq_by_cmp ue_cmp ue t.ue ≡ true → (c : CuUpContext) → context_of r t.ue ≡ Some c
        → (b : CuUpBearer) → find bearer_cmp c.bearers t.bearer ≡ Some b
        → held_reason (cu_up_scope t.ue c t.bearer) b t.kind item ≡ None
        → eq_by_cmp bearer_cmp bearer t.bearer ≡ false
        → orders_of way r ue bearer (packet_input teid item)
        ≡ closes_after way c t.bearer (took way (cu_up_scope t.ue c t.bearer) t.kind teid item b) }
    ensures repeated { (way : Way M C P) (r : CuUp M C) (ue : UeId) (bearer : BearerId) (from : NodeId)
        (m : Message C) (u instance : ℕ) → kind_of m ≡ request u instance
        → verdict r.transactions.callee (channel u from) instance ≡ again
        → orders_of way r ue bearer (control_input from m) ≡ [] }
    ensures stale_ones { (way : Way M C P) (r : CuUp M C) (ue : UeId) (bearer : BearerId)
        (from : NodeId) (m : Message C) (u instance : ℕ) → kind_of m ≡ request u instance
        → verdict r.transactions.callee (channel u from) instance ≡ stale
        → orders_of way r ue bearer (control_input from m) ≡ [] }
{}
