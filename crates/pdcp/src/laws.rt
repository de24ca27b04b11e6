//! Laws of PDUs and of the COUNT of a number. Each function does nothing: its contract is the law.

ghost use Rattle.std.specs.Prelude.{◌≡◌, ℕ, ◌+◌, ◌%◌, ◌^◌, ◌<◌, ◌≤◌, Bool, false, List, length, slice_index_or};
ghost use Rattle.gnb_types.specs.Refusals.{NoneHolds};
ghost use Rattle.gnb_types.specs.declared.names.SnBits.{SnBits};
ghost use Rattle.pdcp.specs.Numbers.{space, half};
ghost use Rattle.pdcp.specs.Near.{IsNear, last_count};
ghost use Rattle.pdcp.specs.Pdus.{Content, data_pdu, status_report, Pdcp, refusals, radio_data, report_octets, bitmap, bitmap_bit};

/// The number of a COUNT stands for that COUNT, where both it and RX_DELIV are in one window: the COUNT less than half a
/// space above the window's low end, RX_DELIV at most half a space above it.
pub fn near_inverts()
    ensures { (sn : SnBits) (low deliv count : ℕ) → low ≤ count → count < low + half sn
        → low ≤ deliv → deliv ≤ low + half sn
        → count ≤ last_count → IsNear sn deliv (count % space sn) count }
{}

/// A number stands for one COUNT.
pub fn near_is_one()
    ensures { (sn : SnBits) (deliv number one other : ℕ) → IsNear sn deliv number one
        → IsNear sn deliv number other → one ≡ other }
{}

/// A PDU says one thing, and no reason to refuse it applies; what is no PDU has a reason, the first that applies.
pub fn pdu_or_reason()
    ensures one { (sn : SnBits) (octets : List ℕ) (content other : Content) → Pdcp sn content octets
        → Pdcp sn other octets → content ≡ other }
    ensures no_reason { (sn : SnBits) (octets : List ℕ) (content : Content) → Pdcp sn content octets
        → NoneHolds (refusals sn octets) }
    ensures reason { (sn : SnBits) (octets : List ℕ) → NoneHolds (refusals sn octets)
        → (content : Content) × Pdcp sn content octets }
{}

/// What is written is read again: a data PDU as the number of its COUNT and its packet, a status report as FMC and the
/// bitmap, and each bit of the bitmap as the truth value that was written there, with zeros after the last.
#[tactic(auto, unfolding(crate::specs::Pdus::radio_data))]
pub fn written_is_read()
    ensures packet { (sn : SnBits) (count : ℕ) (packet : List ℕ) → 0 < length packet
        → Pdcp sn (data_pdu (count % space sn) packet) (radio_data sn count packet) }
    ensures report { (sn : SnBits) (fmc : ℕ) (bits : List Bool) → fmc < 2 ^ 32
        → Pdcp sn (status_report fmc (bitmap bits)) (report_octets fmc bits) }
    ensures bit { (bits : List Bool) (k : ℕ)
        → bitmap_bit (bitmap bits) (k + 1) ≡ slice_index_or bits k false }
{}
