//! Laws of the downlink of one bearer, over every list of orders that keeps what is asked of them: any handovers between
//! contexts, with packets forwarded through several. Each function does nothing: its contract is the law.

ghost use Rattle.std.specs.Prelude.{◌≡◌, ℕ, List, [], ◌∷◌};
ghost use Rattle.gnb_types.specs.declared.names.SnBits.{SnBits};
ghost use Rattle.gnb_types.specs.declared.names.SnBits.TheVariants.{Len12};
ghost use Rattle.bearer_defs.specs.chain_defs.Models.{Item, initial};
ghost use Rattle.bearer_defs.specs.chain_defs.Orders.{ModelStep, drops, run, offers_in};
ghost use Rattle.bearer_defs.specs.chain_defs.Assumptions.{IsReady, AreKept};
ghost use Rattle.law_downlink_order.specs.chain.Relay.{relay, cancelled, a, b, c, d, e};
ghost use Rattle.law_downlink_order.specs.chain.Words.{DeliversInOrder, CountsArePlaces, KeepsWindow};

/// What is delivered is a prefix of what was offered, each packet once, with COUNTs 0, 1, 2 and so on.
pub fn delivers_a_prefix()
    ensures in_order { (sn : SnBits) (quota first teid : ℕ) (orders : List ModelStep)
        → AreKept sn quota (initial first teid) orders
        → DeliversInOrder (offers_in orders) (run (initial first teid) orders) }
{}

/// Wherever a COUNT stands, its packet is the one that was offered at this place.
pub fn counts_are_places()
    ensures places { (sn : SnBits) (quota first teid : ℕ) (orders : List ModelStep)
        → AreKept sn quota (initial first teid) orders
        → CountsArePlaces (offers_in orders) (run (initial first teid) orders) }
{}

/// A sender never has more COUNTs under way than its window.
pub fn keeps_the_window()
    ensures window { (sn : SnBits) (quota first teid : ℕ) (orders : List ModelStep)
        → AreKept sn quota (initial first teid) orders
        → KeepsWindow sn quota (run (initial first teid) orders) }
{}

/// No forwarded packet is dropped as a duplicate where packets are kept.
pub fn drops_no_forwarded_packet()
    ensures none { (sn : SnBits) (quota first teid : ℕ) (orders : List ModelStep)
        → AreKept sn quota (initial first teid) orders
        → (at count : ℕ) (packet : List ℕ) (rest : List Item)
        → IsReady sn quota (run (initial first teid) orders) (drops at count packet rest) → ⊥ }
{}

/// What is asked of the orders can be met: five packets over three contexts, where the second handover begins before the
/// first hop is done.
pub fn forwards_over_two_hops()
    ensures guards { AreKept Len12 64 (initial 1 10) relay }
    ensures delivered { (run (initial 1 10) relay).delivered
        ≡ (0, a) ∷ (1, b) ∷ (2, c) ∷ (3, d) ∷ (4, e) ∷ [] }
{}

/// And with a radio that fails, and a handover that is cancelled after a packet was forwarded.
pub fn goes_on_after_a_cancel()
    ensures guards { AreKept Len12 64 (initial 1 10) cancelled }
    ensures delivered { (run (initial 1 10) cancelled).delivered
        ≡ (0, a) ∷ (1, b) ∷ (2, c) ∷ [] }
{}
