//! Laws of the packets that orders of the chain of contexts put for the present radio. Each function does nothing: its contract is the law.

ghost use Rattle.std.specs.Prelude.{true, false, ◌≡◌, ℕ, List};
ghost use Rattle.std.specs.List.{AllByRecursion};
ghost use Rattle.gnb_types.specs.declared.names.SnBits.{SnBits};
ghost use Rattle.intervals.specs.Intervals.{HasNoGap};
ghost use Rattle.unit_defs.specs.CuUpBearers.{owed};
ghost use Rattle.unit_defs.specs.CuUpRecords.{DownlinkTunnel};
ghost use Rattle.bearer_defs.specs.chain_defs.Models.{Item, Model, initial};
ghost use Rattle.bearer_defs.specs.chain_defs.Orders.{after, numbers, ModelStep, resumes, run, sends, sends_again, switches};
ghost use Rattle.bearer_defs.specs.chain_defs.Assumptions.{AreKept};
ghost use Rattle.law_downlink_order.specs.received_packets.Received.{WasPut};

/// What is sent by a context that was switched for the present radio was put for it: a packet that gets its COUNT, one that a source
/// numbered, all that nothing confirmed, and at a switch and a resume what is sent then.
pub fn orders_put_what_they_send()
    ensures numbered { (s : Model) (x : ℕ) (packet : List ℕ) (rest : List (List ℕ))
        → (s.members x).epoch ≡ s.epoch
        → WasPut (after s (numbers x packet rest)) (s.members x).bearer.sender.next packet }
    ensures sent { (s : Model) (x count : ℕ) (packet : List ℕ) (rest : List Item)
        → (s.members x).epoch ≡ s.epoch → WasPut (after s (sends x count packet rest)) count packet }
    ensures again { (s : Model) (x : ℕ) → (s.members x).epoch ≡ s.epoch
        → AllByRecursion (λ (e : ℕ × List ℕ). WasPut (after s (sends_again x)) e.0 e.1)
        (s.members x).bearer.sender.unconfirmed }
    ensures switched { (s : Model) (x : ℕ) (downlink : DownlinkTunnel)
        → (s.members x).flags.may_serve ≡ true
        → AllByRecursion (λ (e : ℕ × List ℕ). WasPut (after s (switches x downlink s.epoch)) e.0 e.1)
        (s.members x).bearer.sender.unconfirmed }
    ensures resumed { (s : Model) (x : ℕ) → (s.members x).epoch ≡ s.epoch
        → AllByRecursion (λ (e : ℕ × List ℕ). WasPut (after s (resumes x)) e.0 e.1)
        (owed (s.members x).bearer) }
{}

/// After any kept orders, what nothing confirmed at a context that isn't released has no gap from the next packet to be received.
pub fn what_is_unconfirmed_has_no_gap()
    ensures { (sn : SnBits) (quota first teid : ℕ) (orders : List ModelStep)
        → AreKept sn quota (initial first teid) orders
        → (x : ℕ) → let s = run (initial first teid) orders in
        (s.members x).is_there ≡ true → (s.members x).flags.released ≡ false
        → HasNoGap s.terminal.deliv (s.members x).bearer.sender.unconfirmed }
{}
