//! From the command on.

ghost use Rattle.std.specs.Prelude.{◌≡◌, ℕ, List, [], ◌∷◌, Some, None};
ghost use Rattle.gnb_types.specs.declared.plans.Tunnel.{Tunnel};
ghost use Rattle.unit_defs.specs.declared.StateName.TheVariants as states;
ghost use Rattle.unit_defs.specs.Ways.{Way};
ghost use Rattle.unit_defs.specs.CuCpRecords.{CuCpTerminal};
ghost use Rattle.unit_defs.specs.CuCpRows as rows;
ghost use Rattle.handover.specs.declared.attempt.Attempt.{Attempt};
ghost use Rattle.handover.specs.Rows as calls;
ghost use Rattle.law_handover.specs.Stands.{IsAttempt, Place, Goes, MayEndBy};

/// A return to the serving DU, from an attempt that is given up, and of a terminal that is served.
#[tactic(auto, unfolding(unit_defs::specs::CuCpRows::returns))]
pub fn a_return_goes_by_its_row<M, C, P>()
    ensures attempt { (way : Way M C P) (p : Place) (t : CuCpTerminal)
        (h : Attempt) → IsAttempt h p.attempt → p.context.attempt ≡ Some p.attempt
        → Goes p states.Returning (calls.returned h)
        (rows.returns way p.at h.epoch t p.context) }
    ensures served { (way : Way M C P) (p : Place) (t : CuCpTerminal) (epoch : ℕ)
        → p.context.attempt ≡ None
        → Goes p states.Returning (calls.return_begins p.at.ue epoch)
        (rows.returns way p.at epoch t p.context) }
{}

/// What follows the command.
#[tactic(auto, unfolding(unit_defs::specs::CuCpRows::completes, unit_defs::specs::CuCpRows::completes_again, unit_defs::specs::CuCpRows::handed_over))]
pub fn an_arrival_goes_by_its_row<M, C, P>()
    ensures completes { (way : Way M C P) (p : Place) (t : CuCpTerminal) (h : Attempt)
        (epoch : ℕ) → IsAttempt h p.attempt → h.awaits.du ≡ None
        → Goes p states.Completing (calls.completing h)
        (rows.completes way p.at epoch t p.context p.attempt) }
    ensures completes_again { (way : Way M C P) (p : Place) (t : CuCpTerminal) (h : Attempt)
        (epoch : ℕ) → IsAttempt h p.attempt
        → Goes p states.Returning (calls.arrived_and_lost h epoch)
        (rows.completes_again way p.at epoch t p.context p.attempt) }
    ensures handed_over { (way : Way M C P) (p : Place) (t : CuCpTerminal) (h : Attempt)
        (instance : ℕ) → IsAttempt h p.attempt → h.awaits.other_cu ≡ None
        → Goes p states.Completing (calls.releases h)
        (rows.handed_over way p.at (rows.other_cu_cp p.at) instance t p.context p.attempt) }
{}

/// The switch, the acceptance and the path switch.
#[tactic(auto, unfolding(unit_defs::specs::CuCpRows::place_is_renewed, unit_defs::specs::CuCpRows::is_switched, unit_defs::specs::CuCpRows::path_is_switched))]
pub fn a_switch_goes_by_its_rows<M, C, P>()
    ensures moved { (way : Way M C P) (p : Place) (t : CuCpTerminal) (h : Attempt)
        (downlinks : List Tunnel) → IsAttempt h p.attempt
        → Goes p p.context.state (calls.switches h)
        (rows.place_is_renewed way p.at downlinks t p.context p.attempt) }
    ensures switched { (way : Way M C P) (p : Place) (t : CuCpTerminal)
        (h : Attempt) → IsAttempt h p.attempt → h.awaits.du ≡ None
        → MayEndBy p p.context.state (calls.unless_finished (calls.after_switch h))
        (calls.tells_terminal ∷ [])
        (rows.is_switched way p.at t p.context p.attempt) }
    ensures path_of_completing { (way : Way M C P) (p : Place) (t : CuCpTerminal)
        (h : Attempt) → IsAttempt h p.attempt → p.context.state ≡ states.Completing
        → MayEndBy p states.Completing (calls.unless_finished (calls.with_no_path h)) []
        (rows.path_is_switched way p.at t p.context p.attempt) }
    ensures path_of_return { (way : Way M C P) (p : Place) (t : CuCpTerminal)
        (h : Attempt) → IsAttempt h p.attempt → p.context.state ≡ states.Returning
        → MayEndBy p states.Returning (calls.unless_finished (calls.with_no_path h)) []
        (rows.path_is_switched way p.at t p.context p.attempt) }
    ensures path_of_arrival { (way : Way M C P) (p : Place) (t : CuCpTerminal)
        (h : Attempt) → IsAttempt h p.attempt → h.awaits.other_cu ≡ None → p.context.state ≡ states.Arrived
        → MayEndBy p states.Arrived (calls.unless_finished (calls.with_no_path h))
        (calls.lets_source_go ∷ [])
        (rows.path_is_switched way p.at t p.context p.attempt) }
{}
