//! Up to the command.

ghost use Rattle.std.specs.Prelude.{◌≡◌, ℕ, ◌+◌, nat_lt, nat_le, true, false, List, [], ◌∷◌, None};
ghost use Rattle.gnb_types.specs.declared.plans.Plan.{Plan};
ghost use Rattle.gnb_types.specs.declared.plans.Peer.{Peer};
ghost use Rattle.gnb_types.specs.declared.plans.Tunnel.{Tunnel};
ghost use Rattle.gnb_types.specs.declared.plans.SnStatus.{SnStatus};
ghost use Rattle.gnb_types.specs.declared.reasons.CauseName.{CauseName};
ghost use Rattle.gnb_types.specs.declared.reasons.RefuseReason.TheVariants as refusals;
ghost use Rattle.unit_defs.specs.declared.StateName.TheVariants as states;
ghost use Rattle.unit_defs.specs.declared.AttemptKind.TheVariants as kinds;
ghost use Rattle.unit_defs.specs.Ways.{Way};
ghost use Rattle.unit_defs.specs.Messages.{is_same_gnb};
ghost use Rattle.unit_defs.specs.CuCpRecords.{CuCpContext, CuCpTerminal, has_unit, last_epoch, refuses, stays};
ghost use Rattle.unit_defs.specs.CuCpRows as rows;
ghost use Rattle.unit_defs.specs.CuCpRows.{CuCpScope};
ghost use Rattle.handover.specs.declared.names.Role.TheVariants.{ServingDu, TargetDu};
ghost use Rattle.handover.specs.declared.attempt.Attempt.{Attempt};
ghost use Rattle.handover.specs.Rows as calls;
ghost use Rattle.law_handover.specs.Stands.{IsAttempt, Place, place, Goes, Serves, GivesUp};

/// An attach.
#[tactic(auto, unfolding(unit_defs::specs::CuCpRows::attach, unit_defs::specs::CuCpRows::attach_has_tunnels, unit_defs::specs::CuCpRows::attach_is_placed, unit_defs::specs::CuCpRows::attach_fails))]
pub fn an_attach_goes_by_its_rows<M, C, P>()
    ensures begins { (way : Way M C P) (at : CuCpScope) (plan : Plan) (t : CuCpTerminal) → t.context ≡ None
        → has_unit at.units (rows.own_up at plan.up) ≡ true
        → has_unit at.units (rows.own_du at plan.du) ≡ true
        → Goes (place at (rows.attach_context way plan)
        (rows.new_attempt kinds.Attach 1 plan.up plan.du))
        states.Attaching (calls.attaching at.ue plan) (rows.attach way at plan t) }
    ensures tunnels { (way : Way M C P) (p : Place) (t : CuCpTerminal) (h : Attempt)
        (uplinks n3 : List Tunnel) → IsAttempt h p.attempt
        → Goes p states.Attaching (calls.asks_du ServingDu h)
        (rows.attach_has_tunnels way p.at uplinks n3 t p.context p.attempt) }
    ensures placed { (way : Way M C P) (p : Place) (t : CuCpTerminal) (h : Attempt)
        (downlinks : List Tunnel) → IsAttempt h p.attempt
        → Goes p states.Commanded (calls.first_command h)
        (rows.attach_is_placed way p.at downlinks t p.context p.attempt) }
    ensures declined { (way : Way M C P) (p : Place) (t : CuCpTerminal) (cause : CauseName)
        → GivesUp p [] (rows.attach_fails way cause t) }
{}

/// A handover between DUs of the own gNB, up to the command.
#[tactic(auto, unfolding(unit_defs::specs::CuCpRows::move_begins, unit_defs::specs::CuCpRows::move_has_uplinks, unit_defs::specs::CuCpRows::move_is_placed))]
pub fn a_move_goes_by_its_rows<M, C, P>()
    ensures begins { (way : Way M C P) (at : CuCpScope) (goal : Plan) (epoch : ℕ) (t : CuCpTerminal)
        (c : CuCpContext) → is_same_gnb goal.gnb at.gnb ≡ true
        → Goes (place at c (rows.new_attempt kinds.BetweenDus (epoch + 1) c.up goal.du))
        states.Preparing (calls.preparing at.ue at.gnb epoch goal)
        (rows.move_begins way at goal epoch t c) }
    ensures uplinks { (way : Way M C P) (p : Place) (t : CuCpTerminal) (h : Attempt)
        (uplinks : List Tunnel) → IsAttempt h p.attempt → nat_lt last_epoch p.attempt.epoch ≡ false
        → Goes p states.Preparing (calls.asks_du TargetDu h)
        (rows.move_has_uplinks way p.at uplinks t p.context p.attempt) }
    ensures placed { (way : Way M C P) (p : Place) (t : CuCpTerminal) (h : Attempt)
        (downlinks : List Tunnel) → IsAttempt h p.attempt
        → Goes p states.Frozen (calls.awaits_command h)
        (rows.move_is_placed way downlinks t p.context p.attempt) }
{}

/// A handover to the other gNB, at its source, up to the command.
#[tactic(auto, unfolding(unit_defs::specs::CuCpRows::handover_begins, unit_defs::specs::CuCpRows::handover_is_acknowledged, unit_defs::specs::CuCpRows::handover_is_declined, unit_defs::specs::CuCpRows::handover_expires, unit_defs::specs::CuCpRows::handover_is_frozen, unit_defs::specs::CuCpRows::handover_is_not_frozen))]
pub fn a_handover_goes_by_its_rows<M, C, P>()
    ensures begins { (way : Way M C P) (at : CuCpScope) (goal : Plan) (epoch : ℕ) (t : CuCpTerminal)
        (c : CuCpContext) → is_same_gnb goal.gnb at.gnb ≡ false → nat_le last_epoch epoch ≡ false
        → Goes (place at c (rows.new_attempt kinds.BetweenGnbs (epoch + 1) goal.up goal.du))
        states.Preparing (calls.preparing at.ue at.gnb epoch goal)
        (rows.handover_begins way at goal epoch t c) }
    ensures acknowledged { (way : Way M C P) (p : Place) (t : CuCpTerminal) (h : Attempt) (peer : Peer)
        (down up : List Tunnel) → IsAttempt h p.attempt
        → Goes p states.Prepared (calls.freezes h)
        (rows.handover_is_acknowledged way p.at peer down up t p.context p.attempt) }
    ensures declined { (way : Way M C P) (p : Place) (t : CuCpTerminal) (cause : CauseName)
        → Serves p [] (rows.handover_is_declined way cause t p.context) }
    ensures expires { (way : Way M C P) (p : Place) (t : CuCpTerminal)
        → Serves p calls.cancels (rows.handover_expires way p.at t p.context) }
    ensures frozen { (way : Way M C P) (p : Place) (t : CuCpTerminal) (h : Attempt)
        (statuses : List SnStatus) → IsAttempt h p.attempt → h.awaits.other_cu ≡ None
        → Goes p states.Frozen (calls.sends_status h)
        (rows.handover_is_frozen way p.at statuses t p.context p.attempt) }
    ensures not_frozen { (way : Way M C P) (p : Place) (t : CuCpTerminal) (cause : CauseName)
        → Serves p calls.cancels (rows.handover_is_not_frozen way p.at cause t p.context) }
{}

/// The command, at each tick.
#[tactic(auto, unfolding(unit_defs::specs::CuCpRows::command))]
pub fn a_command_goes_by_its_row<M, C, P>()
    ensures { (way : Way M C P) (p : Place) (t : CuCpTerminal) (h : Attempt) → IsAttempt h p.attempt
        → h.awaits.du ≡ None
        → Goes p states.Commanded (h, calls.tells_terminal ∷ [])
        (rows.command way p.at t p.context p.attempt) }
{}

/// An order that gives an attempt up.
pub fn a_cancel_goes_by_its_row<M, C, P>()
    ensures preparing { (way : Way M C P) (p : Place) (t : CuCpTerminal) → Serves p calls.cancels
        (rows.cancel_attempt way p.at t p.context states.Preparing kinds.BetweenGnbs p.attempt) }
    ensures frozen { (way : Way M C P) (p : Place) (t : CuCpTerminal) (h : Attempt) → IsAttempt h p.attempt
        → Serves p (calls.cancel_while_frozen h)
        (rows.cancel_attempt way p.at t p.context states.Frozen p.attempt.kind p.attempt) }
    ensures busy { (way : Way M C P) (p : Place) (t : CuCpTerminal)
        → rows.cancel_attempt way p.at t p.context states.Preparing kinds.BetweenDus p.attempt
        ≡ stays t (refuses refusals.Busy ∷ []) }
    ensures too_late { (way : Way M C P) (p : Place) (t : CuCpTerminal)
        → rows.cancel_attempt way p.at t p.context states.Commanded kinds.BetweenGnbs p.attempt
        ≡ stays t (refuses refusals.TooLate ∷ []) }
{}
