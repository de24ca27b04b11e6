//! Laws of the way down from a CU-UP to the terminal, over every list of steps that keeps what is asked of them: whatever
//! frames of F1-U are lost, and whenever all is sent again. Each function does nothing: its contract is the law.

ghost use Rattle.std.specs.Prelude.{◌≡◌, ℕ, Bool, false, List, [], ◌∷◌, Option, Some};
ghost use Rattle.gnb_types.specs.declared.names.UeId.{UeId};
ghost use Rattle.gnb_types.specs.declared.names.BearerId.{BearerId};
ghost use Rattle.gnb_types.specs.declared.outputs.Tag.{Tag};
ghost use Rattle.gnb_types.specs.declared.outputs.Tag.TheVariants.{Absent};
ghost use Rattle.message_types.specs.declared.rrc.Token.{Token};
ghost use Rattle.unit_defs.specs.Ways.{Message, Pdu, report_pdu, frame_item, Way, ◌then◌};
ghost use Rattle.unit_defs.specs.CuUpRecords.{DownlinkTunnel, CuUpBearer, CuUpScope};
ghost use Rattle.unit_defs.specs.CuUpBearers.{framed, sent_again as row_sends};
ghost use Rattle.unit_defs.specs.CuUpItems.{lost_frames};
ghost use Rattle.unit_defs.specs.Du.{Du, DuBearer, DuContext, frame_received, with_bearer};
ghost use Rattle.law_downlink_order.specs.path.Paths.{Frame, start, frame_on, packets_sent, gap_after, taken_by};
ghost use Rattle.law_downlink_order.specs.path.Shown.{pdu_written, PutsFrames, goes_on, Carries};
ghost use Rattle.law_downlink_order.specs.path.Steps.{Step, sent_again, sent_anew, run, packets_in, AreKept};
ghost use Rattle.law_downlink_order.specs.path.Words.{DeliversInOrder, TakesAtOnce, RunsHaveNoGap, DownlinkPathHasNoGap, RestartsAtReceived};
ghost use Rattle.law_downlink_order.specs.path.Lossy.{lossy, downlink_to, du_bearer, a, b, c, d};

/// The terminal stores no packet, and finds none for which it has no room.
pub fn takes_each_packet_at_once()
    ensures takes { (first : ℕ) (downlink : DownlinkTunnel) (du : DuBearer) (steps : List Step)
        → AreKept (start first downlink du) steps
        → TakesAtOnce (run (start first downlink du) steps) }
{}

/// What is delivered is a prefix of what the CU-UP came to hold, each packet once, with COUNTs 0, 1, 2 and so on.
pub fn delivers_in_order()
    ensures in_order { (first : ℕ) (downlink : DownlinkTunnel) (du : DuBearer) (steps : List Step)
        → AreKept (start first downlink du) steps
        → DeliversInOrder (packets_in steps) (run (start first downlink du) steps) }
{}

/// From a restart on, frames that nothing is missing between have no gap of COUNTs, and fit to what was received.
pub fn runs_have_no_gap()
    ensures no_gap { (first : ℕ) (downlink : DownlinkTunnel) (du : DuBearer) (steps : List Step)
        → AreKept (start first downlink du) steps
        → RunsHaveNoGap (run (start first downlink du) steps) }
{}

/// What stands on the radio, and what the DU takes next if nothing more is lost, has no gap from what was received.
pub fn the_way_has_no_gap()
    ensures no_gap { (first : ℕ) (downlink : DownlinkTunnel) (du : DuBearer) (steps : List Step)
        → AreKept (start first downlink du) steps
        → DownlinkPathHasNoGap (run (start first downlink du) steps) }
{}

/// A restart's COUNT is at most the next one that the terminal is to receive.
pub fn a_restart_begins_at_what_was_received()
    ensures received { (first : ℕ) (downlink : DownlinkTunnel) (du : DuBearer) (steps : List Step)
        → AreKept (start first downlink du) steps
        → RestartsAtReceived (run (start first downlink du) steps) }
{}

/// What is asked can be met, by a run in which frames are lost, also while the bearer is frozen, a poll shows a loss, all is
/// sent again with the restart mark, and the radio fails.
pub fn goes_on_after_losses()
    ensures guards { AreKept (start 1 (downlink_to 1) du_bearer) lossy }
    ensures delivered { (run (start 1 (downlink_to 1) du_bearer) lossy).delivered
        ≡ (0, a) ∷ (1, b) ∷ (2, c) ∷ (3, d) ∷ [] }
{}

/// A CU-UP's rows put the frames that the steps put: a frame of any kind, packets in their order, a report and all that
/// nothing confirmed on a new tunnel, and after a delivery status all that nothing confirmed, or nothing while frozen.
pub fn a_cu_up_puts_these_frames()
    ensures one { (way : Way (Message Token) Token Pdu) (at : CuUpScope) (poll restart : Bool)
        (pdu : Option Pdu) (tag : Tag) (b : CuUpBearer)
        → PutsFrames way at.sn (frame_on poll restart pdu b b.downlink)
        (framed way at poll restart (pdu_written way at.sn pdu) tag b) }
    ensures packets { (way : Way (Message Token) Token Pdu) (at : CuUpScope) (packets : List (ℕ × List ℕ))
        (b : CuUpBearer) → PutsFrames way at.sn (packets_sent packets b) (row_sends way at packets b) }
    ensures anew { (way : Way (Message Token) Token Pdu) (at : CuUpScope) (fmc : ℕ) (bits : List Bool)
        (b : CuUpBearer) → PutsFrames way at.sn (sent_anew fmc bits b)
        (framed way at false false (Some (way.write at.sn (report_pdu fmc bits))) Absent b
        then (λ c. row_sends way at c.sender.unconfirmed c)) }
    ensures after_a_loss { (way : Way (Message Token) Token Pdu) (at : CuUpScope) (lost : List (ℕ × ℕ))
        (b : CuUpBearer)
        → PutsFrames way at.sn (sent_again at.flags.frozen lost b) (lost_frames way at lost b) }
{}

/// A DU's row for a frame keeps what the step keeps, and what the frame carries goes to the radio unless it is in a gap.
pub fn a_du_takes_a_frame()
    ensures takes { (way : Way (Message Token) Token Pdu) (ue : UeId) (bearer : BearerId)
        (c : DuContext) (b : DuBearer) (r : Du (Message Token) Token) (f : Frame)
        → Carries (goes_on (gap_after b f f.pdu) (pdu_written way c.sn f.pdu))
        (with_bearer way ue bearer c (taken_by b f) r)
        (frame_received way ue bearer c b
        (frame_item f.poll f.restart f.number (pdu_written way c.sn f.pdu)) r) }
{}
