//! Laws of the uplink of one bearer, over every list of orders that keeps what is asked of them: any handovers between
//! contexts, with packets forwarded through several. Each function does nothing: its contract is the law.

ghost use Rattle.std.specs.Prelude.{◌≡◌, ◌<◌, ℕ, List, [], ◌∷◌};
ghost use Rattle.bearer_defs.specs.uplink_defs.Models.{initial};
ghost use Rattle.bearer_defs.specs.uplink_defs.Orders.{ModelStep, run, offers_in};
ghost use Rattle.bearer_defs.specs.uplink_defs.Assumptions.{AreKept};
ghost use Rattle.law_downlink_order.specs.chain.Relay.{a, b, c, d};
ghost use Rattle.law_uplink_order.specs.uplink.Relay.{relay, cancelled};
ghost use Rattle.law_uplink_order.specs.uplink.Words.{DeliversInOrder, CountsArePlaces, LosesNone, IsQuiet, HasDeliveredAll, Reports};

/// What is delivered is a prefix of what the terminal was offered, each packet once, with COUNTs 0, 1, 2 and so on.
pub fn delivers_a_prefix()
    ensures in_order { (first teid : ℕ) (orders : List ModelStep) → AreKept (initial first teid) orders
        → DeliversInOrder (offers_in orders) (run (initial first teid) orders) }
{}

/// What has a COUNT and is no longer held by the terminal was delivered, or is on its way: it stands on an open tunnel of
/// a context, or is stored at the one where the terminal is.
pub fn loses_none()
    ensures on_its_way { (first teid : ℕ) (orders : List ModelStep) → AreKept (initial first teid) orders
        → LosesNone (run (initial first teid) orders) }
{}

/// With nothing on a tunnel and nothing held by the terminal, all that was offered was delivered.
pub fn delivers_all()
    ensures when_quiet { (first teid : ℕ) (orders : List ModelStep) → AreKept (initial first teid) orders
        → IsQuiet (run (initial first teid) orders)
        → HasDeliveredAll (offers_in orders) (run (initial first teid) orders) }
{}

/// Wherever a COUNT stands, its packet is the one that was offered at this place.
pub fn counts_are_places()
    ensures places { (first teid : ℕ) (orders : List ModelStep) → AreKept (initial first teid) orders
        → CountsArePlaces (offers_in orders) (run (initial first teid) orders) }
{}

/// What a status report of the context where the terminal is says was received, was carried up, also if the report comes
/// after further orders, whatever these are: so it is a report that the terminal may be given.
pub fn reports_say_what_was_carried()
    ensures carried { (first teid : ℕ) (orders more : List ModelStep) (i : ℕ)
        → AreKept (initial first teid) orders → Reports (run (initial first teid) orders) i
        → i < (run (run (initial first teid) orders) more).reached }
{}

/// What is asked of the orders can be met: four packets over three contexts, one of them with two uplink tunnels, where the
/// second handover begins before the first hop is done, packets go on at both, and both contexts close in the end.
pub fn forwards_over_two_hops()
    ensures guards { AreKept (initial 1 10) relay }
    ensures delivered { (run (initial 1 10) relay).delivered
        ≡ (0, a) ∷ (1, b) ∷ (2, c) ∷ (3, d) ∷ [] }
{}

/// And with a handover that is cancelled after a packet was stored and forwarded, and a radio that fails.
pub fn goes_on_after_a_cancel()
    ensures guards { AreKept (initial 1 10) cancelled }
    ensures delivered { (run (initial 1 10) cancelled).delivered ≡ (0, a) ∷ (1, b) ∷ [] }
{}

/// The run over two hops comes to a state where nothing is under way any more, as the law on all that was offered asks.
pub fn comes_to_rest()
    ensures quiet { IsQuiet (run (initial 1 10) relay) }
{}
