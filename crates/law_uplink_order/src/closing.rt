//! Laws of the end of contexts: they end from the oldest on, with nothing left on their tunnels. Each function does nothing: its
//! contract is the law.

ghost use Rattle.std.specs.Prelude.{◌≡◌, ℕ, true, List};
ghost use Rattle.gnb_types.specs.declared.names.SnBits.{SnBits};
ghost use Rattle.bearer_defs.specs.chain_defs.Models as down_models;
ghost use Rattle.bearer_defs.specs.chain_defs.Orders as down;
ghost use Rattle.bearer_defs.specs.chain_defs.Assumptions as down_assumptions;
ghost use Rattle.bearer_defs.specs.uplink_defs.Models.{Model, initial};
ghost use Rattle.bearer_defs.specs.uplink_defs.Orders.{ModelStep, closes, run};
ghost use Rattle.bearer_defs.specs.uplink_defs.Assumptions.{IsReady, AreKept};
ghost use Rattle.law_uplink_order.specs.closing.Ended.{IsDoneDown, EndsDown, EndsUp};

/// Where the two tunnels down of a context have ended, nothing stands there; each context that still sends on to this one has ended
/// so before it; and it is neither the one that the terminal is at nor the one that the core sends to. Nothing is assumed of control where
/// such a context closes.
pub fn contexts_end_from_the_oldest_down()
    ensures ends { (sn : SnBits) (quota first teid : ℕ) (orders : List down.ModelStep)
        → down_assumptions.AreKept sn quota (down_models.initial first teid) orders
        → let s = down.run (down_models.initial first teid) orders in
        (x : ℕ) → IsDoneDown (s.members x) → EndsDown s x }
{}

/// Where a context is released and all that comes up to it has ended, no packet stands on its tunnels; each context that still sends
/// on to this one has ended so before it, and has put its End Marker; and it isn't the one that the terminal is at.
pub fn contexts_end_from_the_oldest_up()
    ensures ends { (first teid : ℕ) (orders : List ModelStep) → AreKept (initial first teid) orders
        → let s = run (initial first teid) orders in
        (x : ℕ) → (s.members x).is_there ≡ true → IsReady s (closes x) → EndsUp s x }
{}
