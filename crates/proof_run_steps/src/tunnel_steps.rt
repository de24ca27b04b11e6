//! Laws of the steps of any run, on one tunnel. Each function does nothing: its contract is the law.

ghost use Rattle.gnb_types.specs.declared.names.BearerId.{BearerId};
ghost use Rattle.gnb_types.specs.declared.names.Dir.{Dir};
ghost use Rattle.gnb_types.specs.declared.names.NodeId.{NodeId};
ghost use Rattle.gnb_types.specs.declared.names.NodeId.TheVariants.{Core};
ghost use Rattle.gnb_types.specs.declared.names.UeId.{UeId};
ghost use Rattle.gnb_types.specs.declared.keys.TunnelEnd.{TunnelEnd};
ghost use Rattle.proof_run_steps.specs.steps.Causes.{Cause, count_of, first_of, node_of};
ghost use Rattle.proof_run_steps.specs.tunnel_steps.Standing.{after_puts, after_taking, Leaves, put_on, standing};
ghost use Rattle.run_defs.specs.Lines.{RunLine};
ghost use Rattle.run_defs.specs.States.{State, World, goes, ◌next◌};
ghost use Rattle.run_defs.specs.Steps.{carried_out, check_spans, put_out_all, put_on_tunnel};
ghost use Rattle.transport_defs.specs.declared.Item.{Item};
ghost use Rattle.unit_defs.specs.Ways.{Put};
ghost use Rattle.run_defs.specs.Units.{Units};
ghost use Rattle.std.specs.List.{AllByRecursion};
ghost use Rattle.std.specs.Prelude.{List, Option, Some, ◌++◌, ◌≡◌, ℕ};

/// Whatever units answer, what stands on a tunnel after a step is what stood there, less the item that the step takes, and then what
/// each output makes of it, in their order: it opens or closes the tunnel, or puts an item there, which is lost where it isn't open. So
/// it is where a unit acts, where the core puts what it answers, and where it puts an offered packet; nothing else that a step does
/// touches a tunnel.
pub fn what_stands_on_a_tunnel<M, C, L, P>()
    ensures acts { (world : World M C L P) (cause : Cause M L P) (outputs : List (Put M L P))
        (units : Units M C) (s t : State M C L P) (lines : List (RunLine M)) (end : TunnelEnd)
        → carried_out world (node_of cause) (count_of cause) (first_of world cause) outputs units s
        ≡ goes lines t
        → standing t end ≡ after_puts end (node_of cause) (count_of cause) outputs
        (after_taking end cause (standing s end)) }
    ensures puts { (world : World M C L P) (node : NodeId) (taken : Option ℕ)
        (outputs : List (Put M L P)) (s t : State M C L P) (lines : List (RunLine M)) (end : TunnelEnd)
        → (put_out_all world node taken outputs s next check_spans) ≡ goes lines t
        → standing t end ≡ after_puts end node taken outputs (standing s end) }
{}

/// Where no output opens or closes an open tunnel, what is put on it comes after what stands there.
pub fn what_is_put_comes_after<M, L, P>()
    ensures { (end : TunnelEnd) (node : NodeId) (taken : Option ℕ) (outputs : List (Put M L P))
        (items : List (Item L)) → AllByRecursion (Leaves end node) outputs
        → after_puts end node taken outputs (Some items)
        ≡ Some (items ++ put_on end taken outputs) }
{}
