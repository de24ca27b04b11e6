//! Laws of what a DU, a CU-UP and the core ask: the setup of their interface, or nothing. Each function does nothing: its contract is the law.

ghost use Rattle.std.specs.Prelude.{◌≡◌};
ghost use Rattle.gnb_types.specs.declared.names.NodeId.{NodeId};
ghost use Rattle.gnb_types.specs.Orders.{channel_cmp};
ghost use Rattle.tables.specs.Tables.{IsSorted};
ghost use Rattle.unit_defs.specs.Ways.{Message, Input, Way};
ghost use Rattle.unit_defs.specs.Core.{CoreRecord, core_acts};
ghost use Rattle.unit_defs.specs.Du.{Du, du_acts};
ghost use Rattle.unit_defs.specs.CuUpRecords.{CuUp};
ghost use Rattle.unit_defs.specs.CuUp.{cu_up_acts};
ghost use Rattle.law_requests_act_once.specs.channel.Exactly.{IfGives};
ghost use Rattle.law_requests_act_once.specs.channel.Replies.{Talk};
ghost use Rattle.law_requests_act_once.specs.unit_setups.Setups.{GoesOn};

/// On any input: where all that a DU asks on a channel, open or waiting, is the setup of F1, so it is afterwards; and at most one request
/// more was put there, which is open. Open requests are in order of their channels.
pub fn a_du_asks_for_setup<M, C, P>()
    ensures { (talk : Talk M C P) (r : Du M C) → IsSorted channel_cmp r.transactions.caller.opened → (input : Input C P)
        → IfGives (λ q. GoesOn talk.way r.transactions q.transactions) (du_acts talk.way r input) }
{}

/// The same of a CU-UP and the setup of E1.
pub fn a_cu_up_asks_for_setup<M, C, P>()
    ensures { (talk : Talk M C P) (r : CuUp M C) → IsSorted channel_cmp r.transactions.caller.opened → (input : Input C P)
        → IfGives (λ q. GoesOn talk.way r.transactions q.transactions) (cu_up_acts talk.way r input) }
{}

/// The core asks nothing.
pub fn the_core_asks_nothing<M, C, P>()
    ensures { (way : Way M C P) (r : CoreRecord M C) (from : NodeId) (m : Message C)
        → IfGives (λ q. (q.transactions.caller ≡ r.transactions.caller) × (q.transactions.waiting ≡ r.transactions.waiting))
        (core_acts way r from m) }
{}
