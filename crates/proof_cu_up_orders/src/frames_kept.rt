//! Laws of a context that sends to a DU, beside the chain of contexts: whatever is asked of it, what it sends may be sent. Each function does
//! nothing: its contract is the law.

ghost use Rattle.std.specs.Prelude.{◌≡◌, ◌++◌, ℕ, false, List, Some};
ghost use Rattle.gnb_types.specs.declared.names.BearerId.{BearerId};
ghost use Rattle.gnb_types.specs.declared.names.NodeId.{NodeId};
ghost use Rattle.gnb_types.specs.declared.names.SnBits.{SnBits};
ghost use Rattle.gnb_types.specs.declared.names.UeId.{UeId};
ghost use Rattle.bearer_defs.specs.chain_defs.Assumptions.{AreKept};
ghost use Rattle.bearer_defs.specs.chain_defs.Orders.{ModelStep, run};
ghost use Rattle.bearer_defs.specs.chain_defs.Models.{Model, initial};
ghost use Rattle.unit_defs.specs.Du.{DuBearer};
ghost use Rattle.unit_defs.specs.Ways.{gives, Output, Way};
ghost use Rattle.proof_cu_up_orders.specs.bearer_orders.Down.{IsIn, orders_of};
ghost use Rattle.proof_cu_up_orders.specs.bearer_orders.Happenings.{Beside};
ghost use Rattle.proof_cu_up_orders.specs.context_orders.Orders.{done, switches, ContextStep, CuUpModel};
ghost use Rattle.proof_cu_up_orders.specs.down_orders.Down.{new_model};
ghost use Rattle.proof_cu_up_orders.specs.frame_rows.Sent.{sent_by};
ghost use Rattle.proof_cu_up_orders.specs.frame_rows.Shown.{end_of, frames_of, put_at};
ghost use Rattle.proof_cu_up_orders.specs.frames_kept.Asked.{alone, GoesOn};
ghost use Rattle.proof_cu_up_orders.specs.sending_contexts.Sending.{IsSending, Tunnel, with_frames};

/// After any kept orders of the chain, and those of an input that are kept too: where a context sends to a DU, on a downlink that was
/// switched for the present radio, it does so after the input, and the frames that its row puts stand after the others on the tunnel of
/// its downlink. A switch for the present radio begins this, on a fresh tunnel, whatever waits on the radio after it. That the orders are
/// kept is shown by `happenings_are_orders` of `bearer_orders`, of what is asked of a bearer from its first context on.
pub fn rows_keep_what_is_sent<M, C, P>()
    ensures goes_on { (way : Way M C P) (sn : SnBits) (quota first teid : ℕ) (orders : List ModelStep)
        (x : ℕ) (p q : CuUpModel) (b : Beside) (order : ContextStep P) (outputs : List (Output M P))
        (w : Tunnel) → let d = run (initial first teid) orders in
        AreKept sn quota (initial first teid) (orders ++ orders_of x b p order)
        → IsIn sn quota (d.members x) (Some p) → GoesOn order
        → done way order p ≡ gives outputs (Some q) → IsSending d x p.bearer w
        → (frames_of outputs ≡ put_at way p.at.sn (end_of q.bearer.downlink) (sent_by p order).frames)
        × IsSending (run d (orders_of x b p order)) x q.bearer
        (with_frames w (sent_by p order).frames) }
    ensures begins { (way : Way M C P) (sn : SnBits) (quota first teid : ℕ) (orders : List ModelStep)
        (x : ℕ) (p q : CuUpModel) (b : Beside) (to : NodeId) (end : ℕ) (outputs : List (Output M P))
        (du : DuBearer) (waits : List (ℕ × List ℕ)) → let d = run (initial first teid) orders in
        let order : ContextStep P = switches to end in
        AreKept sn quota (initial first teid) (orders ++ orders_of x b p order)
        → IsIn sn quota (d.members x) (Some p) → b.epoch ≡ d.epoch
        → done way order p ≡ gives outputs (Some q)
        → (frames_of outputs ≡ put_at way p.at.sn (end_of q.bearer.downlink) (sent_by p order).frames)
        × IsSending (run d (orders_of x b p order)) x q.bearer
        (record {
          du = record du { downlink = end; awaited = 0; gap = false };
          frames = (sent_by p order).frames;
          waits = waits;
        }) }
{}

/// The premises can be met: the first context of a bearer begins to send with its first switch.
pub fn a_first_context_begins<M, C, P>()
    ensures { (way : Way M C P) (ue : UeId) (bearer : BearerId) (sn : SnBits)
        (quota instance teid : ℕ) (to : NodeId) (end : ℕ) (du : DuBearer) (waits : List (ℕ × List ℕ))
        → let p = new_model ue bearer instance sn quota false teid in
        let order : ContextStep P = switches to end in
        (outputs : List (Output M P)) × (q : CuUpModel) × (done way order p ≡ gives outputs (Some q))
        × IsSending (run (initial 1 teid) (orders_of 1 alone p order)) 1 q.bearer
        (record {
          du = record du { downlink = end; awaited = 0; gap = false };
          frames = (sent_by p order).frames;
          waits = waits;
        }) }
{}
