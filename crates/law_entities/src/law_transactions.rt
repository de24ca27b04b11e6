//! Laws of requests and replies. Each function does nothing: its contract is the law.

ghost use Rattle.std.specs.Prelude.{◌≡◌, ◌≤◌, ℕ, List, []};
ghost use Rattle.gnb_types.specs.declared.keys.Channel.{Channel};
ghost use Rattle.transaction_defs.specs.Callers.{no_requests};
ghost use Rattle.transaction_defs.specs.Callees.{newest, kept_reply};
ghost use Rattle.transaction_defs.specs.Applied.{Call, requests, applied, greatest, last_kept, after_calls, new_requests};
ghost use Rattle.transaction_defs.specs.Taken.{Step, taken_replies, times};

/// The requests that a responder finds new are those that are applied: those above all earlier ones of the same initiator and
/// terminal.
pub fn new_requests_are_applied()
    ensures { (calls : List (Call (List ℕ)))
        → new_requests [] calls ≡ applied (requests calls) }
{}

/// The newest instance of a channel is the greatest one that came, and the reply that is kept for it is the last one: nothing
/// while none is kept.
pub fn the_last_reply_is_kept()
    ensures newest { (calls : List (Call (List ℕ))) (c : Channel)
        → newest (after_calls [] calls) c ≡ greatest c (requests calls) }
    ensures reply { (calls : List (Call (List ℕ))) (c : Channel)
        → kept_reply (after_calls [] calls) c ≡ last_kept calls c }
{}

/// Of each instance at most one reply is taken, where each reply that is taken closes its request.
pub fn replies_are_taken_once()
    ensures { (steps : List (Step (List ℕ))) (c : Channel) (instance : ℕ)
        → times (taken_replies no_requests steps) c instance ≤ 1 }
{}
