//! Laws of requests and replies, between any two nodes and for any terminal, whatever stands for their messages: each request acts
//! at most once, and each reply is that to the request that it answers. Messages may be lost, repeated and reordered at will.
//! Each function does nothing: its contract is the law.

ghost use Rattle.std.specs.Prelude.{◌≡◌, ℕ, ◌+◌, ◌<◌, ◌≤◌, true, false, List};
ghost use Rattle.gnb_types.specs.declared.names.NodeId.{NodeId};
ghost use Rattle.gnb_types.specs.declared.keys.Channel.{Channel};
ghost use Rattle.gnb_types.specs.declared.reasons.DropReason.TheVariants.{Stale};
ghost use Rattle.transaction_defs.specs.Callers.{Opened, opened_at, is_awaited};
ghost use Rattle.unit_defs.specs.Ways.{Answer, drops};
ghost use Rattle.unit_defs.specs.Transactions.{Waiting, Transactions, on_request, on_reply};
ghost use Rattle.law_requests_act_once.specs.channel.Replies.{Talk};
ghost use Rattle.law_requests_act_once.specs.channel.Ends.{Route, same_channel, Put, asked, told};
ghost use Rattle.law_requests_act_once.specs.channel.Moves.{Net, ends_of, asked_by, answered_by, new_net, Order, after, MayAll, OnceAfter, moved, asks, asks_at_once, advances};
ghost use Rattle.law_requests_act_once.specs.channel.Example.{plain_talk, script, route, expected};
ghost use Rattle.law_requests_act_once.specs.channel.Exactly.{Descends, IsAnswered, InVain, IfGives, WaitsForOpen};

/// After every list of orders, each made when it may be, each channel is exactly once.
pub fn every_channel_is_exact<M, C, P>()
    ensures { (talk : Talk M C P) (orders : List (Order talk)) → MayAll talk new_net orders
        → (r : Route) → OnceAfter talk orders r }
{}

/// A request acts at most once, and those that act do so in the order of issue: the instances of the acts, the newest first,
/// descend. A request that is passed over is passed over by a cancel.
pub fn requests_act_in_the_order_of_issue<M, C, P>()
    ensures order { (talk : Talk M C P) (orders : List (Order talk)) → MayAll talk new_net orders
        → (r : Route) → Descends ((after talk new_net orders).acts r) }
    ensures only_cancels { (talk : Talk M C P) (orders : List (Order talk))
        → MayAll talk new_net orders
        → (r : Route) (i : ℕ) (x : M) → Put talk (after talk new_net orders).bag r (asked i x)
        → (ends_of (after talk new_net orders) r).answering.newest + 1 < i
        → talk.overtakes x ≡ true }
{}

/// A reply that is awaited is that to the open request: the responder acted on this one last, and it keeps this reply. One that is
/// not awaited is dropped.
pub fn a_reply_is_to_the_open_request<M, C, P, R>()
    ensures awaited { (talk : Talk M C P) (orders : List (Order talk)) → MayAll talk new_net orders
        → (n : NodeId) (c : Channel) (i : ℕ) (y : M)
        → Put talk (after talk new_net orders).bag (asked_by n c) (told i y)
        → is_awaited ((after talk new_net orders).nodes n).caller c i ≡ true
        → IsAnswered talk (ends_of (after talk new_net orders) (asked_by n c))
        (Put talk (after talk new_net orders).bag (asked_by n c)) i y }
    ensures other { (talk : Talk M C P) (t : Transactions M C) (c : Channel) (i : ℕ) (same : R) (row : Answer M P R)
        → is_awaited t.caller c i ≡ false → on_reply talk.way same t c i row ≡ drops Stale same }
{}

/// A request that was taken before, or an older one, changes nothing, whatever its row is: it is dropped, or the reply that was put
/// before is put again.
pub fn an_old_request_changes_nothing<M, C, P, R>()
    ensures { (talk : Talk M C P) (orders : List (Order talk)) → MayAll talk new_net orders
        → (n : NodeId) (c : Channel) (i : ℕ) (x : M) (same : R)
        → (row : Transactions M C → Answer M P R)
        → Put talk (after talk new_net orders).bag (answered_by n c) (asked i x)
        → i ≤ (ends_of (after talk new_net orders) (answered_by n c)).answering.newest
        → InVain talk (Put talk (after talk new_net orders).bag (answered_by n c)) same c i
        (on_request talk.way same ((after talk new_net orders).nodes n) c i row) }
{}

/// What waits, waits for an open request: to ask, also at once, keeps that; and where a request was closed, what waits longest is put.
pub fn what_waits_waits_for_an_open_request<M, C, P>()
    ensures asked { (talk : Talk M C P) (t : Transactions M C) (c : Channel) (w : Waiting C) (k : Channel)
        → ((q : Channel) → WaitsForOpen t q)
        → IfGives (λ u. WaitsForOpen u k) (moved talk t (asks c w)) }
    ensures at_once { (talk : Talk M C P) (t : Transactions M C) (c : Channel) (w : Waiting C) (k : Channel)
        → ((q : Channel) → WaitsForOpen t q)
        → IfGives (λ u. WaitsForOpen u k) (moved talk t (asks_at_once c w)) }
    ensures advanced { (talk : Talk M C P) (t : Transactions M C) (c k : Channel)
        → (same_channel k c ≡ false → WaitsForOpen t k)
        → IfGives (λ u. WaitsForOpen u k) (moved talk t (advances c)) }
{}

/// A worked list of orders: each may be made, and the target acts on these requests.
pub fn a_worked_list_of_orders()
    ensures may { MayAll plain_talk new_net script }
    ensures acts { (after plain_talk new_net script).acts route ≡ expected }
{}
