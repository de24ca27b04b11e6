//! Laws of the COUNTs that numbers stand for, and of what PDCP entities confirm and hand up. Each function does nothing: its
//! contract is the law.

ghost use Rattle.std.specs.Prelude.{◌≡◌, ℕ, ◌+◌, ◌*◌, ◌%◌, ◌<◌, ◌≤◌, ◌↔◌, Bool, [], List, Option, Some, None};
ghost use Rattle.gnb_types.specs.declared.names.SnBits.{SnBits};
ghost use Rattle.pdcp.specs.Numbers.{space, half};
ghost use Rattle.pdcp.specs.Near.{IsNear, last_count};
ghost use Rattle.pdcp.specs.Pdus.{bitmap};
ghost use Rattle.pdcp_defs.specs.Counts.{near_count, count_below};
ghost use Rattle.pdcp_defs.specs.Senders.{Sender, confirmed_to, confirmed_by};
ghost use Rattle.pdcp_defs.specs.Receivers.{Receiver, deliver, with_packet};
ghost use Rattle.pdcp_entities.specs.Entities.{confirmed_report, first_at, advanced};
ghost use Rattle.law_entities.specs.law_pdcp.Confirmations.{Confirmation, confirmed, up_to, reported, together};

/// The COUNT that the definition computes of a number is the one near RX_DELIV, and is none where there is none.
pub fn near_is_computed()
    ensures { (sn : SnBits) (deliv number count : ℕ)
        → (near_count sn deliv number ≡ Some count) ↔ IsNear sn deliv number count }
{}

/// The number of a COUNT stands for that COUNT, where both it and RX_DELIV are in one window: the COUNT less than half a
/// space above the window's low end, RX_DELIV at most half a space above it.
pub fn near_inverts()
    ensures { (sn : SnBits) (low deliv count : ℕ) → low ≤ count → count < low + half sn
        → low ≤ deliv → deliv ≤ low + half sn
        → count ≤ last_count → near_count sn deliv (count % space sn) ≡ Some count }
{}

/// The number of a COUNT among the last space of COUNTs below the next one stands for that COUNT, at the sender.
pub fn below_inverts()
    ensures { (sn : SnBits) (next count : ℕ) → count < next → next ≤ count + space sn
        → count ≤ last_count → count_below sn next (count % space sn) ≡ Some count }
{}

/// An acknowledgement, the delivered number of a status and a status report are one operation: all below a COUNT, and a
/// set. Several of them, in whatever order, are one: all below the greatest of their COUNTs, and all of their sets.
pub fn confirmations_are_one_operation()
    ensures up_to { (s : Sender (List ℕ)) (count : ℕ)
        → confirmed_to s count ≡ confirmed s (up_to count) }
    ensures report { (s : Sender (List ℕ)) (fmc : ℕ) (bits : List Bool)
        → confirmed_by s fmc bits ≡ confirmed s (reported fmc bits) }
    ensures together { (s : Sender (List ℕ)) (a b : Confirmation)
        → confirmed (confirmed s a) b ≡ confirmed s (together a b) }
    ensures any_order { (s : Sender (List ℕ)) (a b : Confirmation)
        → confirmed (confirmed s a) b ≡ confirmed (confirmed s b) a }
    ensures again { (s : Sender (List ℕ)) (a : Confirmation)
        → confirmed (confirmed s a) a ≡ confirmed s a }
{}

/// The bitmap of a status report, eight bits to an octet and filled up with zeros, confirms what its bits do.
pub fn bitmap_confirms_its_bits()
    ensures { (s : Sender (List ℕ)) (fmc : ℕ) (bits : List Bool)
        → confirmed_report s fmc (bitmap bits) ≡ confirmed_by s fmc bits }
{}

/// What is handed up one by one is what is delivered at once: the packet at RX_DELIV, and then what is delivered once it is
/// gone; nothing, where that packet isn't stored.
pub fn delivery_is_one_by_one()
    ensures some { (r : Receiver (List ℕ)) (e : ℕ × List ℕ) → first_at r.deliv r.stored ≡ Some e
        → deliver r ≡ with_packet e (deliver (advanced r)) }
    ensures none { (r : Receiver (List ℕ)) → first_at r.deliv r.stored ≡ None
        → deliver r ≡ record { packets = []; after = r } }
{}
