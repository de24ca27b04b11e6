//! Laws of what the orders to a bearer of a CU-UP ask: what the CU-UP tests of its own is so, and the rest is assumed of control; and of a
//! released one, which delivers nothing more. Each function does nothing: its contract is the law.

ghost use Rattle.std.specs.Prelude.{◌≡◌, ℕ, Bool, true, List, [], ◌∷◌, ◌++◌, None};
ghost use Rattle.gnb_types.specs.declared.names.NodeId.{NodeId};
ghost use Rattle.gnb_types.specs.declared.names.SnBits.{SnBits};
ghost use Rattle.unit_defs.specs.CuUpItems.{held_reason};
ghost use Rattle.unit_defs.specs.CuUpRecords.{TunnelKind, SourceHop};
ghost use Rattle.unit_defs.specs.Ways.{Taken, Way, nothing};
ghost use Rattle.bearer_defs.specs.chain_defs.Assumptions as down_assumptions;
ghost use Rattle.bearer_defs.specs.chain_defs.Orders as down;
ghost use Rattle.bearer_defs.specs.chain_defs.Models as down_models;
ghost use Rattle.bearer_defs.specs.uplink_defs.Assumptions as up_assumptions;
ghost use Rattle.bearer_defs.specs.uplink_defs.Orders as up;
ghost use Rattle.bearer_defs.specs.uplink_defs.Models as up_models;
ghost use Rattle.law_uplink_order.specs.uplink.Words.{DeliversInOrder};
ghost use Rattle.law_uplink_order.specs.after_release.Silent.{AreSilent, TakeNone};
ghost use Rattle.proof_cu_up_orders.specs.context_orders.Orders.{CuUpModel, ContextStep, closes, done, freezes};
ghost use Rattle.proof_cu_up_orders.specs.context_tests.Tests.{IsOver, IsTested};
ghost use Rattle.proof_cu_up_orders.specs.down_orders.Down as down_rows;
ghost use Rattle.proof_cu_up_orders.specs.orders.Up as up_rows;
ghost use Rattle.proof_cu_up_orders.specs.kept.Down as asks_down;
ghost use Rattle.proof_cu_up_orders.specs.kept.Up as asks_up;

/// An item that isn't held, and stands first on its tunnel, is orders that keep what is asked of them: down, where what it confirms
/// was received; up, nothing is assumed.
pub fn items_keep_what_they_ask<P>()
    ensures down { (s : down_models.Model) (x : ℕ) (p : CuUpModel) → down_rows.IsDown (s.members x) p
        → down_rows.Stands p → (kind : TunnelKind) (item : Taken P) (rest : List down_models.Item)
        → down_rows.IsFit p kind item → held_reason p.at p.bearer kind item ≡ None
        → asks_down.StandsFirst (s.members x) rest kind item → asks_down.ItemAssumes s x kind item
        → down_assumptions.AreKept p.at.sn p.at.quota s (down_rows.item_orders x p rest kind item) }
    ensures up { (s : up_models.Model) (x : ℕ) (p : CuUpModel) → up_rows.IsUp (s.members x) p
        → (kind : TunnelKind) (teid : ℕ) (item : Taken P) (rest : List up_models.Item)
        → up_rows.IsFit p kind item → held_reason p.at p.bearer kind item ≡ None
        → asks_up.StandsFirst (s.members x) rest kind teid item
        → up_assumptions.AreKept s (up_rows.item_orders x rest kind teid item) }
{}

/// Control of a bearer that the CU-UP doesn't rule out is orders that keep what is asked, where control keeps what is assumed of it; a
/// frozen context has its SN status.
pub fn control_keeps_what_it_asks<P>()
    ensures down { (s : down_models.Model) (x : ℕ) (p : CuUpModel) → down_rows.IsDown (s.members x) p
        → (p.at.flags.frozen ≡ true → p.at.flags.may_serve ≡ true) → (epoch : ℕ) (final : Bool)
        (order : ContextStep P) → IsTested final p order → down_rows.IsAsked p order
        → asks_down.ControlAssumes s x epoch order
        → down_assumptions.AreKept p.at.sn p.at.quota s (down_rows.control_orders x epoch p order) }
    ensures up { (s : up_models.Model) (x : ℕ) (p : CuUpModel) → up_rows.IsUp (s.members x) p
        → (final : Bool) (order : ContextStep P) → IsTested final p order → asks_up.ControlAssumes s x p order
        → up_assumptions.AreKept s (up_rows.control_orders x p order) }
{}

/// So is a freeze.
pub fn a_freeze_keeps_what_it_asks<P>()
    ensures down { (s : down_models.Model) (x : ℕ) (p : CuUpModel) → down_rows.IsDown (s.members x) p
        → (final : Bool) (peer : NodeId) (teid_down teid_up : ℕ)
        → IsTested {P = P} final p (freezes peer teid_down teid_up) → (to : ℕ) (hop : SourceHop)
        → down_assumptions.IsAssumed s (down.freezes x to hop)
        → down_assumptions.AreKept p.at.sn p.at.quota s (down.freezes x to hop ∷ []) }
    ensures up { (s : up_models.Model) (x : ℕ) (p : CuUpModel) → up_rows.IsUp (s.members x) p
        → (final : Bool) (peer : NodeId) (teid_down teid_up : ℕ)
        → IsTested {P = P} final p (freezes peer teid_down teid_up) → (to : ℕ) (hop : SourceHop)
        → up_assumptions.IsAssumed s (up.freezes x to hop) → up_assumptions.AreKept s (up.freezes x to hop ∷ []) }
{}

/// The end of a context is an order: it is no more, and nothing else changes. Down it asks what is assumed of control alone. Up it asks
/// nothing of control where the context was released and nothing comes any more; to discard it is another order, which is assumed of
/// control.
pub fn an_end_is_an_order<M, C, P>()
    ensures nothing_left { (way : Way M C P) (p : CuUpModel) → done way closes p ≡ nothing None }
    ensures down { (s : down_models.Model) (x : ℕ)
        → asks_down.Ended s (down.run s (down.closes x ∷ [])) x }
    ensures down_asks { (sn : SnBits) (quota : ℕ) (s : down_models.Model) (x : ℕ)
        → down_assumptions.IsAssumed s (down.closes x)
        → down_assumptions.AreKept sn quota s (down.closes x ∷ []) }
    ensures up { (s : up_models.Model) (x : ℕ) → asks_up.Ended s (up.run s (up.closes x ∷ [])) x }
    ensures up_asks { (s : up_models.Model) (x : ℕ) (p : CuUpModel) → up_rows.IsUp (s.members x) p
        → IsOver p → up_assumptions.AreKept s (up.closes x ∷ []) }
    ensures discarded { (s : up_models.Model) (x : ℕ)
        → asks_up.Ended s (up.run s (up.discards x ∷ [])) x }
    ensures discards_ask { (s : up_models.Model) (x : ℕ) → up_assumptions.IsAssumed s (up.discards x)
        → up_assumptions.AreKept s (up.discards x ∷ []) }
{}

/// Whatever a released bearer takes, and whatever is asked of it that the CU-UP doesn't rule out, is orders to its uplink by which
/// nothing is delivered; so are a release, an end, and a freeze; and any such, one after another. Thus what was delivered stays, in
/// order, a prefix of what was offered.
pub fn nothing_is_delivered<P>()
    ensures items { (s : up_models.Model) (x : ℕ) (p : CuUpModel) → up_rows.IsUp (s.members x) p
        → p.at.flags.released ≡ true → (kind : TunnelKind) (teid : ℕ) (item : Taken P)
        (rest : List up_models.Item) → AreSilent s (up_rows.item_orders x rest kind teid item) }
    ensures asked { (s : up_models.Model) (x : ℕ) (p : CuUpModel) → p.at.flags.released ≡ true
        → (final : Bool) (order : ContextStep P) → IsTested final p order → up_rows.IsAsked p order
        → AreSilent s (up_rows.control_orders x p order) }
    ensures ends { (s : up_models.Model) (x to : ℕ) (hop : SourceHop) → AreSilent s (up.releases x ∷ [])
        × AreSilent s (up.closes x ∷ []) × AreSilent s (up.discards x ∷ [])
        × AreSilent s (up.freezes x to hop ∷ []) }
    ensures together { (s : up_models.Model) (orders more : List up.ModelStep) → AreSilent s orders
        → AreSilent (up.run s orders) more → AreSilent s (orders ++ more) }
    ensures in_order { (first teid : ℕ) (orders more : List up.ModelStep)
        → up_assumptions.AreKept (up_models.initial first teid) orders
        → AreSilent (up.run (up_models.initial first teid) orders) more → (x : ℕ) (p : CuUpModel)
        → up_rows.IsUp ((up.run (up.run (up_models.initial first teid) orders) more).members x) p
        → p.at.flags.released ≡ true → (kind : TunnelKind) (from : ℕ) (item : Taken P)
        (rest : List up_models.Item)
        → DeliversInOrder
        (up.offers_in (orders ++ (more ++ up_rows.item_orders x rest kind from item)))
        (up.run (up_models.initial first teid)
        (orders ++ (more ++ up_rows.item_orders x rest kind from item))) }
{}

/// By what a CU-UP does to a bearer's downlink the terminal takes nothing from its radio.
pub fn nothing_is_taken<P>()
    ensures items { (x : ℕ) (p : CuUpModel) (rest : List down_models.Item) (kind : TunnelKind)
        (item : Taken P) → TakeNone (down_rows.item_orders x p rest kind item) }
    ensures asked { (x epoch : ℕ) (p : CuUpModel) (order : ContextStep P)
        → TakeNone (down_rows.control_orders x epoch p order) }
    ensures ends { (x to : ℕ) (hop : SourceHop) → TakeNone (down.closes x ∷ [])
        × TakeNone (down.freezes x to hop ∷ []) }
{}
