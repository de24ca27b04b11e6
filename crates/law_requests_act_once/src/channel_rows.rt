//! Laws: what units do to requests and replies is what may be done on a channel: each step of the core, of a DU, of a CU-UP and
//! of a CU-CP is a list of orders, each of which may be made. Each function does nothing: its contract is the law.

ghost use Rattle.std.specs.Prelude.{◌≡◌, List};
ghost use Rattle.gnb_types.specs.declared.names.NodeId.{NodeId};
ghost use Rattle.gnb_types.specs.declared.names.NodeId.TheVariants.{Core};
ghost use Rattle.unit_defs.specs.Ways.{Message, Input, Output, gives};
ghost use Rattle.unit_defs.specs.Transactions.{Transactions};
ghost use Rattle.unit_defs.specs.Core.{CoreRecord, core_acts};
ghost use Rattle.unit_defs.specs.Du.{Du, du_acts};
ghost use Rattle.unit_defs.specs.CuUpRecords.{CuUp};
ghost use Rattle.unit_defs.specs.CuUp.{cu_up_acts};
ghost use Rattle.unit_defs.specs.CuCpRecords.{CuCpRecord};
ghost use Rattle.unit_defs.specs.CuCp.{cu_cp_acts};
ghost use Rattle.law_requests_act_once.specs.channel.Replies.{Talk};
ghost use Rattle.law_requests_act_once.specs.channel.Example.{plain_talk};
ghost use Rattle.law_requests_act_once.specs.channel.Exactly.{IfGives};
ghost use Rattle.law_requests_act_once.specs.channel.Moves.{Net, new_net, sent_by, Order, after, MayAll};
ghost use Rattle.law_requests_act_once.specs.channel_rows.Assumed.{Assumes, Cancels};
ghost use Rattle.law_requests_act_once.specs.channel_rows.IsPlayed.{ReadsWell, WasSent, IsPutTo, NoneExpired, AreUndated, IsPlayedWhole, GoesOn};

/// What the core does with a message that was put to it is a list of orders that may be made: none; a request taken, and answered
/// or not; or the kept reply put again. As of each node, no request of it expired without its cancel then, if none had before.
pub fn the_core_makes_moves<M, C, P>()
    ensures { (talk : Talk M C P) → ReadsWell talk → (net : Net M C) → NoneExpired talk net Core
        → (r : CoreRecord M C)
        → net.nodes Core ≡ r.transactions
        → (from : NodeId) (m : Message C) → WasSent talk net from Core m
        → IsPlayedWhole talk net Core (λ s. s.transactions) (core_acts talk.way r from m) }
{}

/// The same of a DU and every input, after any list of orders that were made when they might be, where none of its requests
/// has a deadline; and so it is then.
pub fn a_du_makes_moves<M, C, P>()
    ensures { (talk : Talk M C P) → ReadsWell talk → (orders : List (Order talk))
        → MayAll talk new_net orders
        → (n : NodeId) → NoneExpired talk (after talk new_net orders) n
        → (r : Du M C) → (after talk new_net orders).nodes n ≡ r.transactions → AreUndated r.transactions
        → (input : Input C P) → IsPutTo talk (after talk new_net orders) n input
        → IsPlayedWhole talk (after talk new_net orders) n (λ s. s.transactions) (du_acts talk.way r input)
        × IfGives (λ s. AreUndated s.transactions) (du_acts talk.way r input) }
{}

/// The same of a CU-UP.
pub fn a_cu_up_makes_moves<M, C, P>()
    ensures { (talk : Talk M C P) → ReadsWell talk → (orders : List (Order talk))
        → MayAll talk new_net orders
        → (n : NodeId) → NoneExpired talk (after talk new_net orders) n
        → (r : CuUp M C) → (after talk new_net orders).nodes n ≡ r.transactions → AreUndated r.transactions
        → (input : Input C P) → IsPutTo talk (after talk new_net orders) n input
        → IsPlayedWhole talk (after talk new_net orders) n (λ s. s.transactions) (cu_up_acts talk.way r input)
        × IfGives (λ s. AreUndated s.transactions) (cu_up_acts talk.way r input) }
{}

/// The same of a CU-CP, where the request of each offered target is the newest that it took, unanswered, and what expires at a
/// tick was to the other CU-CP, for a terminal that has a context.
pub fn a_cu_cp_makes_moves<M, C, P>()
    ensures { (talk : Talk M C P) → ReadsWell talk → (orders : List (Order talk))
        → MayAll talk new_net orders
        → (n : NodeId) → NoneExpired talk (after talk new_net orders) n
        → (r : CuCpRecord M C) → (after talk new_net orders).nodes n ≡ r.transactions
        → Assumes talk n (after talk new_net orders) r → Cancels r
        → (input : Input C P) → IsPutTo talk (after talk new_net orders) n input
        → IsPlayedWhole talk (after talk new_net orders) n (λ s. s.transactions) (cu_cp_acts talk.way r input) }
{}

/// After a step that is a list of orders all goes on: the orders before it and its own are a list of orders, each made when it
/// might be, after which the node keeps what the step keeps, what it put was put, and no request of it expired without its
/// cancel; of other nodes those did that did before. So what holds after every list of orders
/// holds after every list of such steps.
pub fn a_step_goes_on<M, C, P, R>()
    ensures { (talk : Talk M C P) (orders : List (Order talk)) → MayAll talk new_net orders
        → (n : NodeId) (kept : R → Transactions M C) (outputs : List (Output M P)) (r : R)
        → IsPlayedWhole talk (after talk new_net orders) n kept (gives outputs r)
        → GoesOn talk orders n (kept r) (sent_by n outputs) }
{}

/// Messages that stand for themselves are read as what they say.
pub fn messages_read_well()
    ensures { ReadsWell plain_talk }
{}
