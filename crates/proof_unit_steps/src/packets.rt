//! Laws of the packets of a CU-UP. Each function does nothing: its contract is the law.

ghost use Rattle.proof_unit_steps.specs.packets.Packets.{AnswerHas, passes, Test, CuUpHas, UpInputHas};
ghost use Rattle.unit_defs.specs.CuUp.{cu_up_acts};
ghost use Rattle.unit_defs.specs.CuUpRecords.{CuUp};
ghost use Rattle.unit_defs.specs.Ways.{Input, Way};

/// Whatever test all packets pass that a CU-UP keeps, each as one of its terminal, bearer and direction, and the one that an
/// item of a tunnel brings, as one of the tunnel's owner: all pass that it puts and delivers then, each as one of the terminal,
/// bearer and direction that it is put and delivered for, and all that it keeps.
pub fn a_cu_up_puts_what_it_got<M, C, P>()
    ensures { (way : Way M C P) (test : Test way) (r : CuUp M C) (input : Input C P)
        → CuUpHas (passes test) r → UpInputHas (passes test) r input
        → AnswerHas (passes test) (CuUpHas (passes test)) (cu_up_acts way r input) }
{}
