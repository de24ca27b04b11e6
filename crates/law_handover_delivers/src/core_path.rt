//! Laws of the core's path of a bearer in a run: it goes on leading to the N3 tunnel of the context that the bearer's model sends to, where
//! a path switch names one. Each function does nothing: its contract is the law.

ghost use Rattle.gnb_types.specs.declared.keys.TunnelEnd.{TunnelEnd};
ghost use Rattle.gnb_types.specs.declared.names.BearerId.{BearerId};
ghost use Rattle.gnb_types.specs.declared.names.NodeId.TheVariants.{Core};
ghost use Rattle.gnb_types.specs.declared.names.NodeId.{NodeId};
ghost use Rattle.gnb_types.specs.declared.names.SnBits.TheVariants.{Len12};
ghost use Rattle.gnb_types.specs.declared.names.SnBits.{SnBits};
ghost use Rattle.gnb_types.specs.declared.names.UeId.{UeId};
ghost use Rattle.gnb_types.specs.declared.plans.Plan.{Plan};
ghost use Rattle.law_handover_delivers.specs.initial_runs.First.{AreInitial, DeliverInOrder};
ghost use Rattle.proof_bearer_refinement.specs.initial.First.{start};
ghost use Rattle.law_handover_delivers.specs.unused_uplinks.Later.{AreFresh};
ghost use Rattle.law_handover_delivers.specs.assumptions.WellLinked.{IsOld};
ghost use Rattle.law_handover_delivers.specs.assumed_runs.Assuming as assumed;
ghost use Rattle.law_handover_delivers.specs.assumed_runs.Assuming.{IsWellLinkedAt, NoneIsZero};
ghost use Rattle.law_handover_delivers.specs.core_path.Paths.{CameAbout, LeadsAt, PathStays, Step, Steps};
ghost use Rattle.law_handover_delivers.specs.core_path.Worked.{LeadsThere};
ghost use Rattle.proof_run_steps.specs.steps.Causes.{count_of, first_of, node_of};
ghost use Rattle.proof_bearer_refinement.specs.refinement_facts.Asked.{RunCause};
ghost use Rattle.proof_bearer_refinement.specs.refinement_facts.Refinements.{RunItem, RunState};
ghost use Rattle.proof_bearer_refinement.specs.run_bearers.Bearers.{Numbering};
ghost use Rattle.proof_bearer_refinement.specs.run_bearers.Things.{PlainUnits};
ghost use Rattle.proof_run_steps.specs.steps.Reached.{reached};
ghost use Rattle.proof_run_steps.specs.teids.Given.{GiveOnce};
ghost use Rattle.proof_bearer_refinement.specs.runs.Steps.{IsRefined, Point};
ghost use Rattle.proof_bearer_refinement.specs.core_step.Worked.{switched_run};
ghost use Rattle.proof_bearer_refinement.specs.du_puts.Worked.{bearer, terminal};
ghost use Rattle.proof_bearer_refinement.specs.runs.Fair.{IsFair};
ghost use Rattle.message_types.specs.declared.rrc.Token.{Token};
ghost use Rattle.run_defs.specs.Conditions.{statically};
ghost use Rattle.run_defs.specs.Lines.{RunLine};
ghost use Rattle.run_defs.specs.Runs.{plain_world, Reading};
ghost use Rattle.run_defs.specs.States.{core_stepped, goes, new_state, octets_from, sn_of, ◌next◌};
ghost use Rattle.run_defs.specs.Steps.{carried_out, check_spans, put_out_all};
ghost use Rattle.run_defs.specs.Written.{Written};
ghost use Rattle.transport_defs.specs.Links.{Bag};
ghost use Rattle.std.specs.Prelude.{Bool, List, None, ◌≡◌, ◌≢◌, ℕ};
ghost use Rattle.unit_defs.specs.Core.{CoreRecord};
ghost use Rattle.unit_defs.specs.CuUpRecords.{DownlinkTunnel};
ghost use Rattle.unit_defs.specs.Ways.{Load, Message, Pdu, Put};

/// A step of a unit leaves the core's path of every terminal, whatever makes it act; the set-up of another terminal leaves that of this
/// one; and so do octets from outside that the core is given, and where a run begins, messages land or are lost, or items are lost.
pub fn all_else_leaves_the_path()
    ensures unit { (reading : Reading) (ue : UeId) (s t : RunState) (cause : RunCause)
        (outputs : List (Put (Message Token) (Written (Load Pdu)) (Written Pdu)))
        (units : PlainUnits) (lines : List (RunLine (Message Token)))
        → carried_out (plain_world reading) (node_of cause) (count_of cause)
        (first_of (plain_world reading) cause) outputs units s ≡ goes lines t
        → PathStays ue s t }
    ensures set_up { (ue : UeId) (s : RunState) (plan : Plan)
        → ue ≢ plan.ue → PathStays ue s (statically plan s) }
    ensures octets { (reading : Reading) (ue : UeId) (s t : RunState) (from : NodeId)
        (octets : List ℕ)
        (outputs : List (Put (Message Token) (Written (Load Pdu)) (Written Pdu)))
        (core : CoreRecord (Message Token) Token) (lines : List (RunLine (Message Token)))
        → (plain_world reading).core_answer (sn_of s) s.core (octets_from from octets)
        ≡ core_stepped outputs core
        → (put_out_all (plain_world reading) Core None outputs (record s { core = core })
        next check_spans) ≡ goes lines t
        → PathStays ue s t }
    ensures lost { (ue : UeId) (s : RunState) (started : Bool) (bag : Bag (Message Token))
        (tunnels : List (TunnelEnd × List RunItem))
        → PathStays ue s (record s { started = started; bag = bag; tunnels = tunnels }) }
{}

/// Where the core's path of the bearer leads to the N3 tunnel of the context that the model sends to, a step is one that `assumed_runs`
/// takes, and the path leads there then: by a path switch, to the N3 tunnel that it names; by all else to that where it led, since N3 of
/// that context stays open, as the downlink's model came about by orders that asked what they do.
pub fn each_step_keeps_the_path()
    ensures { (reading : Reading) (n : Numbering) (ue : UeId) (bearer : BearerId) (sn : SnBits)
        (quota : ℕ) (p q : Point) → NoneIsZero n
        → IsFair p.state → IsFair q.state → GiveOnce p.state.units q.state.units
        → IsRefined reading n ue bearer sn quota p → AreFresh n p.state p.up
        → IsWellLinkedAt reading n ue bearer sn quota p → CameAbout sn quota p.down
        → LeadsAt reading n ue bearer sn quota p → Step reading n ue bearer sn quota p q
        → assumed.Step reading n ue bearer sn quota p q × CameAbout sn quota q.down
        × LeadsAt reading n ue bearer sn quota q }
{}

/// So over any steps of a run, one after another.
pub fn steps_keep_the_path()
    ensures { (reading : Reading) (n : Numbering) (ue : UeId) (bearer : BearerId) (sn : SnBits)
        (quota : ℕ) (p q : Point) → NoneIsZero n
        → IsRefined reading n ue bearer sn quota p → AreFresh n p.state p.up
        → IsWellLinkedAt reading n ue bearer sn quota p → CameAbout sn quota p.down
        → LeadsAt reading n ue bearer sn quota p → Steps reading n ue bearer sn quota p q
        → assumed.Steps reading n ue bearer sn quota p q × LeadsAt reading n ue bearer sn quota q }
{}

/// From a state by which the initial models of a bearer, after the switch by which its context has its downlink, are refined, where the
/// instance of this context was given, and the core's path leads to its N3 tunnel: over any steps of the run what is delivered, down and
/// up, is a prefix of what was offered meanwhile, each packet once, with COUNTs 0, 1, 2 and so on.
pub fn runs_deliver_after_the_first_switch()
    ensures { (reading : Reading) (n : Numbering) (ue : UeId) (bearer : BearerId) (sn : SnBits)
        (quota : ℕ) (p q : Point) (first teid : ℕ) (d : DownlinkTunnel) → NoneIsZero n
        → AreInitial first teid d p → IsRefined reading n ue bearer sn quota p
        → IsOld n ue bearer p.state.units first → LeadsAt reading n ue bearer sn quota p
        → Steps reading n ue bearer sn quota p q
        → DeliverInOrder reading n ue bearer sn quota p q }
{}

/// So from the first state of a run on, in which a terminal is set up without messages: its models are refined by it, the core's path leads
/// to its context, and over any steps from there its bearer delivers in order.
pub fn a_terminal_delivers_in_order()
    ensures { (reading : Reading) (n : Numbering) → NoneIsZero n
        → (teid : ℕ) × (d : DownlinkTunnel)
        × IsRefined reading n terminal bearer Len12 64 (start n teid d)
        × LeadsAt reading n terminal bearer Len12 64 (start n teid d)
        × ((q : Point) → Steps reading n terminal bearer Len12 64 (start n teid d) q
        → DeliverInOrder reading n terminal bearer Len12 64 (start n teid d) q) }
{}

/// There is a run with a path switch by which the path leads so: after a handover to the other gNB the core's path leads to the N3 tunnel
/// of the target's context.
pub fn a_worked_switch_leads_there()
    ensures { (reading : Reading) (n : Numbering)
        → LeadsThere n (reached (plain_world reading) switched_run new_state) }
{}
