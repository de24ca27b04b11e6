//! Laws of what happens to one bearer in a run: orders of all its contexts, and of the terminal, the core, the radio and the DU, one
//! after another. Each function does nothing: its contract is the law.

ghost use Rattle.std.specs.Prelude.{◌≡◌, ℕ, true, false, List, Some};
ghost use Rattle.gnb_types.specs.declared.names.BearerId.{BearerId};
ghost use Rattle.gnb_types.specs.declared.names.SnBits.{SnBits};
ghost use Rattle.gnb_types.specs.declared.names.UeId.{UeId};
ghost use Rattle.gnb_types.specs.declared.plans.Plan.{Plan};
ghost use Rattle.unit_defs.specs.Static.{cu_up_context};
ghost use Rattle.unit_defs.specs.CuUpRecords.{CuUp, DownlinkTunnel};
ghost use Rattle.unit_defs.specs.Ways.{Way};
ghost use Rattle.bearer_defs.specs.chain_defs.Assumptions as down_assumptions;
ghost use Rattle.bearer_defs.specs.chain_defs.Orders as down;
ghost use Rattle.bearer_defs.specs.chain_defs.Models as down_models;
ghost use Rattle.bearer_defs.specs.uplink_defs.Assumptions as up_assumptions;
ghost use Rattle.bearer_defs.specs.uplink_defs.Orders as up;
ghost use Rattle.bearer_defs.specs.uplink_defs.Models as up_models;
ghost use Rattle.law_downlink_order.specs.chain.Words as down_words;
ghost use Rattle.proof_cu_up_orders.specs.context_orders.Orders.{CuUpModel, model_in, ContextStep};
ghost use Rattle.proof_cu_up_orders.specs.down_orders.Down.{new_model};
ghost use Rattle.law_uplink_order.specs.after_release.Silent.{AreSilent};
ghost use Rattle.law_uplink_order.specs.uplink.Words as up_words;
ghost use Rattle.proof_cu_up_orders.specs.bearer_orders.Happenings.{Beside, Happening, Contexts, contexts_after};
ghost use Rattle.proof_cu_up_orders.specs.bearer_orders.Down as downs;
ghost use Rattle.proof_cu_up_orders.specs.bearer_orders.Up as ups;
ghost use Rattle.proof_cu_up_orders.specs.bearer_orders.Starts.{only, DownStarts, UpStarts};

/// What happens to a bearer is one list of orders of its downlink and one of its uplink, as they ask to be where the units' tests
/// and what is assumed of control are so; and the model has afterwards, of every context, what the CU-UPs have.
pub fn happenings_are_orders<M, C, P>()
    ensures down { (way : Way M C P) (ue : UeId) (bearer : BearerId) (sn : SnBits) (quota : ℕ)
        (s : down_models.Model) (contexts : Contexts) (hs : List (Happening P))
        → downs.Has sn quota s contexts → downs.AllAsk way ue bearer sn quota s contexts hs
        → let orders = downs.all_orders way ue bearer sn quota contexts hs in
        down_assumptions.AreKept sn quota s orders
        × downs.Has sn quota (down.run s orders) (contexts_after way ue bearer contexts hs) }
    ensures up { (way : Way M C P) (ue : UeId) (bearer : BearerId)
        (s : up_models.Model) (contexts : Contexts) (hs : List (Happening P))
        → ups.Has s contexts → ups.AllAsk way ue bearer s contexts hs
        → let orders = ups.all_orders way ue bearer contexts hs in
        up_assumptions.AreKept s orders
        × ups.Has (up.run s orders) (contexts_after way ue bearer contexts hs) }
{}

/// So what is delivered, down and up, is a prefix of what was offered, each packet once, with COUNTs 0, 1, 2 and so on.
pub fn happenings_deliver_in_order<M, C, P>()
    ensures down { (way : Way M C P) (ue : UeId) (bearer : BearerId) (sn : SnBits)
        (quota first teid : ℕ) (contexts : Contexts) (hs : List (Happening P))
        → downs.Has sn quota (down_models.initial first teid) contexts
        → downs.AllAsk way ue bearer sn quota (down_models.initial first teid) contexts hs
        → let orders = downs.all_orders way ue bearer sn quota contexts hs in
        down_words.DeliversInOrder (down.offers_in orders)
        (down.run (down_models.initial first teid) orders) }
    ensures up { (way : Way M C P) (ue : UeId) (bearer : BearerId) (first teid : ℕ)
        (contexts : Contexts) (hs : List (Happening P))
        → ups.Has (up_models.initial first teid) contexts
        → ups.AllAsk way ue bearer (up_models.initial first teid) contexts hs
        → let orders = ups.all_orders way ue bearer contexts hs in
        up_words.DeliversInOrder (up.offers_in orders)
        (up.run (up_models.initial first teid) orders) }
{}

/// By what is asked of released contexts, of frozen ones, and of those to which the terminal never came, nothing is delivered, over
/// any list of such; of a released one nothing else is asked. So what was delivered stays a prefix of what was offered.
pub fn nothing_is_delivered_after_a_release<M, C, P>()
    ensures silent { (way : Way M C P) (ue : UeId) (bearer : BearerId)
        (s : up_models.Model) (contexts : Contexts) (hs : List (Happening P))
        → ups.Has s contexts → ups.AllAsk way ue bearer s contexts hs
        → ups.AllHushed way ue bearer contexts hs
        → AreSilent s (ups.all_orders way ue bearer contexts hs) }
    ensures released { (s : up_models.Model) (x : ℕ) (beside : Beside) (p : CuUpModel)
        → p.at.flags.released ≡ true → (order : ContextStep P)
        → ups.Asks s x beside p order → ups.IsHushed p order }
{}

/// At the start the models have the first context of a bearer: one that is made for an attach; and, down after a switch of it, one of a
/// terminal that is set up without messages, which has its downlink already.
pub fn first_contexts_are_at_the_start<M, C>()
    ensures made_down { (sn : SnBits) (quota first teid : ℕ) (ue : UeId) (bearer : BearerId)
        (instance : ℕ) → downs.Has sn quota (down_models.initial first teid)
        (only first (new_model ue bearer instance sn quota false teid)) }
    ensures made_up { (sn : SnBits) (quota first teid : ℕ) (ue : UeId) (bearer : BearerId)
        (instance : ℕ) → ups.Has (up_models.initial first teid)
        (only first (new_model ue bearer instance sn quota false teid)) }
    ensures set_up { (r : CuUp M C) (plan : Plan) (next : ℕ) (ue : UeId) (bearer : BearerId)
        (first : ℕ) (p : CuUpModel) → model_in ue bearer (Some (cu_up_context r plan next)) ≡ Some p
        → (teid : ℕ) × (d : DownlinkTunnel) × DownStarts plan.sn plan.quota first teid d p
        × UpStarts first teid p }
{}
