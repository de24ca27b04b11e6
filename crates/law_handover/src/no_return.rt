//! The point of no return.

ghost use Rattle.std.specs.Prelude.{◌≡◌, ℕ, false, List, IfSome};
ghost use Rattle.gnb_types.specs.declared.names.NodeId.{NodeId};
ghost use Rattle.gnb_types.specs.declared.plans.Plan.{Plan};
ghost use Rattle.gnb_types.specs.declared.plans.SnStatus.{SnStatus};
ghost use Rattle.message_types.specs.declared.rrc.Token.{Token};
ghost use Rattle.unit_defs.specs.declared.StateName.TheVariants.{Commanded};
ghost use Rattle.unit_defs.specs.declared.AttemptKind.TheVariants.{BetweenDus, BetweenGnbs};
ghost use Rattle.unit_defs.specs.Ways.{Way, Message};
ghost use Rattle.unit_defs.specs.CuCpRecords.{Attempt, CuCpContext, CuCpTerminal};
ghost use Rattle.unit_defs.specs.CuCpRows as rows;
ghost use Rattle.unit_defs.specs.CuCpRows.{CuCpScope};
ghost use Rattle.unit_defs.specs.CuCp.{token_row, in_state, command_on};
ghost use Rattle.law_handover.specs.NoReturn.{away_attempt, away_context, away, StaysAway, LeavesDu, is_return};

/// A terminal that was told to leave for the other gNB stays away, or is let go, whatever token comes but one: a re-establishment at its
/// serving DU, with the epoch after the one that was accepted last.
pub fn only_a_return_brings_it_back<M, C, P>()
    ensures { (way : Way M C P) (at : CuCpScope) (from : NodeId) (t : CuCpTerminal) (c : CuCpContext)
        (a : Attempt) (token : Token) → is_return way at from c token ≡ false
        → StaysAway (token_row way at from (away BetweenGnbs t c a) token) }
{}

/// No order brings it back, no answer, no tick, and no request of another node. That a deadline doesn't, is not said here: the one
/// request that has one, the Handover Request, was answered before the command.
#[tactic(auto, unfolding(unit_defs::specs::CuCpRows::attach, unit_defs::specs::CuCpRows::handover, unit_defs::specs::CuCpRows::cancel, unit_defs::specs::CuCpRows::release, unit_defs::specs::CuCpRows::command, unit_defs::specs::CuCpRows::offer, unit_defs::specs::CuCpRows::status, unit_defs::specs::CuCpRows::xn_cancelled, unit_defs::specs::CuCpRows::xn_released, unit_defs::specs::CuCpRows::handed_over))]
pub fn nothing_else_brings_it_back<M, C, P>()
    ensures attach { (way : Way M C P) (at : CuCpScope) (plan : Plan) (t : CuCpTerminal) (c : CuCpContext)
        (a : Attempt) → StaysAway (rows.attach way at plan (away BetweenGnbs t c a)) }
    ensures handover { (way : Way M C P) (at : CuCpScope) (plan : Plan) (t : CuCpTerminal) (c : CuCpContext)
        (a : Attempt) → StaysAway (rows.handover way at plan (away BetweenGnbs t c a)) }
    ensures cancel { (way : Way M C P) (at : CuCpScope) (t : CuCpTerminal) (c : CuCpContext)
        (a : Attempt) → StaysAway (rows.cancel way at (away BetweenGnbs t c a)) }
    ensures release { (way : Way M C P) (at : CuCpScope) (t : CuCpTerminal) (c : CuCpContext)
        (a : Attempt) → StaysAway (rows.release way at (away BetweenGnbs t c a)) }
    ensures answer { (way : Way M C P) (at : CuCpScope) (message : Message C) (t : CuCpTerminal)
        (c : CuCpContext) (a : Attempt) → IfSome (in_state way at message t (away_context BetweenGnbs c a)
        Commanded (away_attempt BetweenGnbs a)) (λ r. StaysAway r) }
    ensures tick { (way : Way M C P) (at : CuCpScope) (t : CuCpTerminal) (c : CuCpContext)
        (a : Attempt) → let u = away BetweenGnbs t c a in
        StaysAway (command_on way at u u.context) }
    ensures offer { (way : Way M C P) (at : CuCpScope) (from : NodeId) (instance : ℕ)
        (new : CuCpContext) (t : CuCpTerminal) (c : CuCpContext)
        (a : Attempt) → StaysAway
        (rows.offer way at from instance new (away BetweenGnbs t c a)) }
    ensures status { (way : Way M C P) (at : CuCpScope) (from : NodeId) (instance : ℕ)
        (statuses : List SnStatus) (t : CuCpTerminal) (c : CuCpContext)
        (a : Attempt) → StaysAway
        (rows.status way at from instance statuses (away BetweenGnbs t c a)) }
    ensures xn_cancel { (way : Way M C P) (at : CuCpScope) (from : NodeId) (instance : ℕ)
        (t : CuCpTerminal) (c : CuCpContext)
        (a : Attempt) → StaysAway
        (rows.xn_cancelled way at from instance (away BetweenGnbs t c a)) }
    ensures xn_release { (way : Way M C P) (at : CuCpScope) (from : NodeId) (instance : ℕ)
        (t : CuCpTerminal) (c : CuCpContext)
        (a : Attempt) → StaysAway
        (rows.xn_released way at from instance (away BetweenGnbs t c a)) }
{}

/// A terminal that was told to leave for another DU of its gNB stays away, or is at that DU, whatever token comes but the same one.
#[tactic(auto, unfolding(unit_defs::specs::CuCpRows::completes, unit_defs::specs::CuCpRows::completes_again))]
pub fn only_a_return_brings_it_back_to_its_du<M, C, P>()
    ensures { (way : Way M C P) (at : CuCpScope) (from : NodeId) (t : CuCpTerminal) (c : CuCpContext)
        (a : Attempt) (token : Token) → is_return way at from c token ≡ false
        → LeavesDu a (token_row way at from (away BetweenDus t c a) token) }
{}

/// Nothing else brings it back to its DU either.
#[tactic(auto, unfolding(unit_defs::specs::CuCpRows::attach, unit_defs::specs::CuCpRows::handover, unit_defs::specs::CuCpRows::cancel, unit_defs::specs::CuCpRows::release, unit_defs::specs::CuCpRows::command, unit_defs::specs::CuCpRows::offer, unit_defs::specs::CuCpRows::status, unit_defs::specs::CuCpRows::xn_cancelled, unit_defs::specs::CuCpRows::xn_released))]
pub fn nothing_else_brings_it_back_to_its_du<M, C, P>()
    ensures attach { (way : Way M C P) (at : CuCpScope) (plan : Plan) (t : CuCpTerminal) (c : CuCpContext)
        (a : Attempt) → LeavesDu a (rows.attach way at plan (away BetweenDus t c a)) }
    ensures handover { (way : Way M C P) (at : CuCpScope) (plan : Plan) (t : CuCpTerminal) (c : CuCpContext)
        (a : Attempt) → LeavesDu a (rows.handover way at plan (away BetweenDus t c a)) }
    ensures cancel { (way : Way M C P) (at : CuCpScope) (t : CuCpTerminal) (c : CuCpContext)
        (a : Attempt) → LeavesDu a (rows.cancel way at (away BetweenDus t c a)) }
    ensures release { (way : Way M C P) (at : CuCpScope) (t : CuCpTerminal) (c : CuCpContext)
        (a : Attempt) → LeavesDu a (rows.release way at (away BetweenDus t c a)) }
    ensures answer { (way : Way M C P) (at : CuCpScope) (message : Message C) (t : CuCpTerminal)
        (c : CuCpContext) (a : Attempt) → IfSome (in_state way at message t (away_context BetweenDus c a)
        Commanded (away_attempt BetweenDus a)) (λ r. LeavesDu a r) }
    ensures tick { (way : Way M C P) (at : CuCpScope) (t : CuCpTerminal) (c : CuCpContext)
        (a : Attempt) → let u = away BetweenDus t c a in
        LeavesDu a (command_on way at u u.context) }
    ensures offer { (way : Way M C P) (at : CuCpScope) (from : NodeId) (instance : ℕ)
        (new : CuCpContext) (t : CuCpTerminal) (c : CuCpContext)
        (a : Attempt) → LeavesDu a
        (rows.offer way at from instance new (away BetweenDus t c a)) }
    ensures status { (way : Way M C P) (at : CuCpScope) (from : NodeId) (instance : ℕ)
        (statuses : List SnStatus) (t : CuCpTerminal) (c : CuCpContext)
        (a : Attempt) → LeavesDu a
        (rows.status way at from instance statuses (away BetweenDus t c a)) }
    ensures xn_cancel { (way : Way M C P) (at : CuCpScope) (from : NodeId) (instance : ℕ)
        (t : CuCpTerminal) (c : CuCpContext)
        (a : Attempt) → LeavesDu a
        (rows.xn_cancelled way at from instance (away BetweenDus t c a)) }
    ensures xn_release { (way : Way M C P) (at : CuCpScope) (from : NodeId) (instance : ℕ)
        (t : CuCpTerminal) (c : CuCpContext)
        (a : Attempt) → LeavesDu a
        (rows.xn_released way at from instance (away BetweenDus t c a)) }
{}
