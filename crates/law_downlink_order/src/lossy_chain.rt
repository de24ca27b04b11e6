//! Laws of the downlink of one bearer over handovers where frames of F1-U may be lost, over every list of steps that keeps what is
//! asked of them. Each function does nothing: its contract is the law.

ghost use Rattle.std.specs.Prelude.{◌≡◌, ℕ, List, [], ◌∷◌};
ghost use Rattle.gnb_types.specs.declared.names.SnBits.{SnBits};
ghost use Rattle.gnb_types.specs.declared.names.SnBits.TheVariants.{Len12};
ghost use Rattle.unit_defs.specs.CuUpRecords.{DownlinkTunnel};
ghost use Rattle.unit_defs.specs.Du.{DuBearer};
ghost use Rattle.law_downlink_order.specs.chain.Relay.{a, b, c};
ghost use Rattle.law_downlink_order.specs.chain.Words as chain_words;
ghost use Rattle.law_downlink_order.specs.path.Lossy.{downlink_to, du_bearer};
ghost use Rattle.law_downlink_order.specs.path.Words as way_words;
ghost use Rattle.law_downlink_order.specs.lossy_chain.Both.{Step, start, run, offers_in, AreKept};
ghost use Rattle.law_downlink_order.specs.lossy_chain.Lossy.{lossy};

/// What is delivered is a prefix of what was offered, each packet once, with COUNTs 0, 1, 2 and so on, whatever frames are lost, and
/// whatever handovers there are.
pub fn delivers_a_prefix()
    ensures in_order { (sn : SnBits) (quota first teid : ℕ) (downlink : DownlinkTunnel) (du : DuBearer)
        (steps : List Step) → AreKept sn quota (offers_in steps) (start first teid downlink du) steps
        → chain_words.DeliversInOrder (offers_in steps) (run (start first teid downlink du) steps).chain }
{}

/// The terminal stores no packet, and finds none for which it has no room; and the chain and the way have one receiver.
pub fn takes_each_packet_at_once()
    ensures takes { (sn : SnBits) (quota first teid : ℕ) (downlink : DownlinkTunnel) (du : DuBearer)
        (steps : List Step) → AreKept sn quota (offers_in steps) (start first teid downlink du) steps
        → let s = run (start first teid downlink du) steps in
        way_words.TakesAtOnce s.way × (s.way.terminal ≡ s.chain.terminal) }
{}

/// What is asked of the steps can be met: a frame is lost before a handover, another one with its tunnel, and one after the handover,
/// at a context to which packets were forwarded with their COUNTs.
pub fn goes_on_after_losses_and_a_handover()
    ensures guards { AreKept Len12 64 (offers_in lossy) (start 1 10 (downlink_to 1) du_bearer) lossy }
    ensures delivered { (run (start 1 10 (downlink_to 1) du_bearer) lossy).chain.delivered
        ≡ (0, a) ∷ (1, b) ∷ (2, c) ∷ [] }
{}
