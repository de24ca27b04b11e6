//! Laws of a terminal that is released: what was delivered stays, and is a prefix of what was offered. Each function does
//! nothing: its contract is the law.

ghost use Rattle.std.specs.Prelude.{◌≡◌, ℕ, List, ◌++◌};
ghost use Rattle.gnb_types.specs.declared.names.SnBits.{SnBits};
ghost use Rattle.bearer_defs.specs.chain_defs.Models as down_models;
ghost use Rattle.bearer_defs.specs.chain_defs.Orders as down;
ghost use Rattle.bearer_defs.specs.chain_defs.Assumptions as down_assumptions;
ghost use Rattle.law_downlink_order.specs.chain.Words as down_words;
ghost use Rattle.bearer_defs.specs.uplink_defs.Models.{initial};
ghost use Rattle.bearer_defs.specs.uplink_defs.Orders as up;
ghost use Rattle.bearer_defs.specs.uplink_defs.Assumptions.{AreKept};
ghost use Rattle.law_uplink_order.specs.uplink.Words.{DeliversInOrder};
ghost use Rattle.law_uplink_order.specs.after_release.Silent.{TakeNone, AreSilent};

/// After orders that keep what is asked come any others, of which nothing is asked but that the terminal takes none from its
/// radio: what was delivered down stays, and is a prefix of all that was offered.
pub fn nothing_more_is_taken()
    ensures same { (sn : SnBits) (quota first teid : ℕ) (orders more : List down.ModelStep) → TakeNone more
        → (down.run (down_models.initial first teid) (orders ++ more)).delivered
        ≡ (down.run (down_models.initial first teid) orders).delivered }
    ensures in_order { (sn : SnBits) (quota first teid : ℕ) (orders more : List down.ModelStep)
        → down_assumptions.AreKept sn quota (down_models.initial first teid) orders → TakeNone more
        → down_words.DeliversInOrder (down.offers_in (orders ++ more))
        (down.run (down_models.initial first teid) (orders ++ more)) }
{}

/// After orders that keep what is asked come any others, of which nothing is asked but that no context serves: what was
/// delivered up stays, and is a prefix of all that was offered.
pub fn nothing_more_is_delivered()
    ensures same { (first teid : ℕ) (orders more : List up.ModelStep)
        → AreSilent (up.run (initial first teid) orders) more
        → (up.run (initial first teid) (orders ++ more)).delivered
        ≡ (up.run (initial first teid) orders).delivered }
    ensures in_order { (first teid : ℕ) (orders more : List up.ModelStep)
        → AreKept (initial first teid) orders → AreSilent (up.run (initial first teid) orders) more
        → DeliversInOrder (up.offers_in (orders ++ more)) (up.run (initial first teid) (orders ++ more)) }
{}
