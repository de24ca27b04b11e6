//! Laws of a whole run beside the models of one bearer: step by step the tunnels are the models' lists, and the models run one list of
//! orders. Each function does nothing: its contract is the law.

ghost use Rattle.bearer_defs.specs.chain_defs.Orders as down;
ghost use Rattle.bearer_defs.specs.chain_defs.Models as down_models;
ghost use Rattle.law_downlink_order.specs.chain.Words as down_words;
ghost use Rattle.gnb_types.specs.declared.names.BearerId.{BearerId};
ghost use Rattle.gnb_types.specs.declared.names.SnBits.{SnBits};
ghost use Rattle.gnb_types.specs.declared.names.UeId.{UeId};
ghost use Rattle.proof_bearer_refinement.specs.refinement_facts.Asked.{AreSound};
ghost use Rattle.proof_bearer_refinement.specs.refinement_facts.Refinements.{RunState};
ghost use Rattle.proof_bearer_refinement.specs.run_bearers.Bearers.{Numbering};
ghost use Rattle.run_defs.specs.Runs.{Reading};
ghost use Rattle.proof_bearer_refinement.specs.runs.Steps.{AreOrders, IsRefined, Point, Step, Steps};
ghost use Rattle.proof_bearer_refinement.specs.runs.Fair.{Comes, IsFair, IsPassed};
ghost use Rattle.proof_run_steps.specs.teids.Given.{GiveOnce};
ghost use Rattle.law_uplink_order.specs.uplink.Words as up_words;
ghost use Rattle.std.specs.Prelude.{◌≡◌, ℕ};
ghost use Rattle.bearer_defs.specs.uplink_defs.Orders as up;
ghost use Rattle.bearer_defs.specs.uplink_defs.Models as up_models;

/// The laws of a run's steps speak of fair states (`IsFair`): links and units hold their own there, and items and messages name what the
/// units gave. Each state that a run from the first one passes, within events too, is fair; a TEID that its units gave stays given in each
/// state that comes after. And of two fair states all is so that the laws of single steps ask of a run: open TEIDs have owners, tunnels
/// stand where they are open, and hold their owner's items.
pub fn states_of_a_run_are_fair()
    ensures passed { (reading : Reading) (s : RunState) → IsPassed reading s → IsFair s }
    ensures later { (reading : Reading) (s t : RunState) → Comes reading s t → GiveOnce s.units t.units }
    ensures sound { (s t : RunState) → IsFair s → IsFair t → AreSound s t }
{}

/// Over any steps of a run, of CU-UPs, DUs, the core and all else: where the models have the contexts of the CU-UPs, and their lists are
/// the run's tunnels, they do so afterwards; and what the models did meanwhile is one list of orders each, every one of which asks what it
/// does. What is assumed of control is asked of each step by itself.
pub fn steps_of_a_run_are_orders()
    ensures one { (reading : Reading) (n : Numbering) (ue : UeId) (bearer : BearerId) (sn : SnBits)
        (quota : ℕ) (p q : Point) → AreSound p.state q.state
        → IsRefined reading n ue bearer sn quota p → Step reading n ue bearer sn quota p q
        → IsRefined reading n ue bearer sn quota q × AreOrders reading n ue bearer sn quota p q }
    ensures all { (reading : Reading) (n : Numbering) (ue : UeId) (bearer : BearerId) (sn : SnBits)
        (quota : ℕ) (p q : Point)
        → IsRefined reading n ue bearer sn quota p → Steps reading n ue bearer sn quota p q
        → IsRefined reading n ue bearer sn quota q × AreOrders reading n ue bearer sn quota p q }
{}

/// So from the models at their start, what is delivered, down and up, is a prefix of what was offered in the run, each packet once, with
/// COUNTs 0, 1, 2 and so on.
pub fn a_run_delivers_in_order()
    ensures { (reading : Reading) (n : Numbering) (ue : UeId) (bearer : BearerId) (sn : SnBits)
        (quota : ℕ) (p q : Point) (first teid : ℕ)
        → p.down ≡ down_models.initial first teid → p.up ≡ up_models.initial first teid
        → IsRefined reading n ue bearer sn quota p → Steps reading n ue bearer sn quota p q
        → (os : AreOrders reading n ue bearer sn quota p q)
        × down_words.DeliversInOrder (down.offers_in os.downs) q.down
        × up_words.DeliversInOrder (up.offers_in os.ups) q.up }
{}
