//! A handover between gNBs at its target.

ghost use Rattle.std.specs.Prelude.{◌≡◌, ℕ, true, is_some, List, [], ◌∷◌, None};
ghost use Rattle.gnb_types.specs.declared.names.NodeId.{NodeId};
ghost use Rattle.gnb_types.specs.declared.plans.Plan.{Plan};
ghost use Rattle.gnb_types.specs.declared.plans.Tunnel.{Tunnel};
ghost use Rattle.unit_defs.specs.declared.StateName.TheVariants as states;
ghost use Rattle.unit_defs.specs.Ways.{Way};
ghost use Rattle.unit_defs.specs.CuCpRecords.{CuCpTerminal, has_unit};
ghost use Rattle.unit_defs.specs.CuCpRows as rows;
ghost use Rattle.unit_defs.specs.CuCpRows.{CuCpScope};
ghost use Rattle.unit_defs.specs.declared.AttemptKind.TheVariants as kinds;
ghost use Rattle.handover.specs.declared.names.MessageName.TheVariants.{HandoverPreparationFailure};
ghost use Rattle.handover.specs.declared.names.Role.TheVariants.{ServingDu, OtherCu};
ghost use Rattle.handover.specs.declared.attempt.Attempt.{Attempt};
ghost use Rattle.handover.specs.Rows as calls;
ghost use Rattle.law_handover.specs.Stands.{IsAttempt, Place, place, Goes, GivesUp};

/// From the offer to the arrival.
#[tactic(auto, unfolding(unit_defs::specs::CuCpRows::offer, unit_defs::specs::CuCpRows::offer_has_tunnels, unit_defs::specs::CuCpRows::offer_is_declined, unit_defs::specs::CuCpRows::offer_is_placed, unit_defs::specs::CuCpRows::arrives, unit_defs::specs::CuCpRows::arrives_again))]
pub fn an_offer_goes_by_its_rows<M, C, P>()
    ensures begins { (way : Way M C P) (at : CuCpScope) (from : NodeId) (instance epoch : ℕ) (plan : Plan)
        (t : CuCpTerminal) → t.context ≡ None
        → has_unit at.units (rows.own_up at plan.up) ≡ true
        → has_unit at.units (rows.own_du at plan.du) ≡ true
        → let new = rows.offer_context way plan.up plan.du instance plan.bearers plan.sn
        plan.quota epoch in
        Goes (place at new (rows.new_attempt kinds.Offer epoch plan.up plan.du)) states.Offered
        (calls.offered at.ue epoch plan) (rows.offer way at from instance new t) }
    ensures tunnels { (way : Way M C P) (p : Place) (t : CuCpTerminal) (h : Attempt)
        (uplinks n3 down up : List Tunnel) → IsAttempt h p.attempt
        → Goes p states.Offered (calls.asks_du ServingDu h)
        (rows.offer_has_tunnels way p.at uplinks n3 down up t p.context p.attempt) }
    ensures declined { (way : Way M C P) (p : Place) (t : CuCpTerminal) (cause : ℕ)
        → GivesUp p (calls.sends HandoverPreparationFailure OtherCu ∷ [])
        (rows.offer_is_declined way p.at cause t p.attempt) }
    ensures placed { (way : Way M C P) (p : Place) (t : CuCpTerminal) (h : Attempt)
        (downlinks : List Tunnel) → IsAttempt h p.attempt → h.awaits.other_cu ≡ None
        → Goes p states.Ready (calls.acknowledges h)
        (rows.offer_is_placed way p.at downlinks t p.context p.attempt) }
    ensures cancelled { (way : Way M C P) (p : Place) (t : CuCpTerminal) (h : Attempt) (instance : ℕ)
        → p.attempt.du_begun ≡ is_some h.awaits.du
        → GivesUp p (calls.cancel_of_offer h)
        (rows.offer_cancelled way p.at (rows.other_cu_cp p.at) instance t p.context p.attempt) }
    ensures cancelled_when_ready { (way : Way M C P) (p : Place) (t : CuCpTerminal) (instance : ℕ)
        → p.attempt.du_begun ≡ true
        → GivesUp p calls.cancel_of_ready
        (rows.offer_cancelled way p.at (rows.other_cu_cp p.at) instance t p.context p.attempt) }
    ensures arrives { (way : Way M C P) (p : Place) (t : CuCpTerminal) (h : Attempt)
        (epoch : ℕ) → IsAttempt h p.attempt
        → Goes p states.Arrived (calls.takes_arrival h)
        (rows.arrives way p.at epoch t p.context p.attempt) }
    ensures arrives_again { (way : Way M C P) (p : Place) (t : CuCpTerminal) (h : Attempt)
        (epoch : ℕ) → IsAttempt h p.attempt
        → Goes p states.Arrived (calls.takes_arrival_and_loss h epoch)
        (rows.arrives_again way p.at epoch t p.context p.attempt) }
{}
