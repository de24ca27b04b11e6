//! A law of the steps of any run, on one radio. The function does nothing: its contract is the law.

ghost use Rattle.gnb_types.specs.declared.keys.EntityKey.{EntityKey};
ghost use Rattle.gnb_types.specs.declared.names.NodeId.{NodeId};
ghost use Rattle.proof_run_steps.specs.radio_steps.Radios.{after_puts, after_step, on_air};
ghost use Rattle.proof_run_steps.specs.steps.Causes.{Cause, count_of, first_of, node_of};
ghost use Rattle.run_defs.specs.Lines.{RunLine};
ghost use Rattle.run_defs.specs.States.{State, World, goes, ◌next◌};
ghost use Rattle.run_defs.specs.Steps.{carried_out, check_spans, put_out_all};
ghost use Rattle.run_defs.specs.Units.{Units};
ghost use Rattle.unit_defs.specs.Ways.{Put};
ghost use Rattle.std.specs.Prelude.{List, Option, ◌≡◌, ℕ};

/// Whatever units answer, what stands on a radio after a step, and the epoch in which it is connected, is what was so before, with what
/// the step carries or confirms there; all of it lost, where the terminal's own step changes its epoch or its connection, or the terminal
/// is released; and then what each output puts there, in their order, in that epoch. Nothing else that a step does touches a radio.
pub fn what_stands_on_a_radio<M, C, L, P>()
    ensures acts { (world : World M C L P) (cause : Cause M L P) (outputs : List (Put M L P))
        (units : Units M C) (s t : State M C L P) (lines : List (RunLine M)) (key : EntityKey)
        → carried_out world (node_of cause) (count_of cause) (first_of world cause) outputs units s
        ≡ goes lines t
        → on_air t key ≡ after_step world key cause outputs units s }
    ensures puts { (world : World M C L P) (node : NodeId) (taken : Option ℕ)
        (outputs : List (Put M L P)) (s t : State M C L P) (lines : List (RunLine M))
        (key : EntityKey)
        → (put_out_all world node taken outputs s next check_spans) ≡ goes lines t
        → on_air t key ≡ after_puts key taken outputs (on_air s key) }
{}
