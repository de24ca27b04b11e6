//! Laws of the packets of a terminal, and of nodes that keep none. Each function does nothing: its contract is the law.

ghost use Rattle.gnb_types.specs.declared.names.NodeId.{NodeId};
ghost use Rattle.gnb_types.specs.declared.names.UeId.{UeId};
ghost use Rattle.proof_unit_steps.specs.packets.Packets.{AnswerHas, DuInputHas, OutputsHave, passes, Test, UeHas, UeInputHas};
ghost use Rattle.unit_defs.specs.Core.{core_acts, CoreRecord};
ghost use Rattle.unit_defs.specs.CuCpRecords.{CuCpRecord};
ghost use Rattle.unit_defs.specs.CuCp.{cu_cp_acts};
ghost use Rattle.unit_defs.specs.Du.{du_acts, Du};
ghost use Rattle.unit_defs.specs.Ue.{ue_acts, UeNode};
ghost use Rattle.unit_defs.specs.Ways.{Input, Message, Way};

/// Whatever test all packets pass that a terminal keeps, and the one that it gets on a radio or is offered, each as one of the
/// terminal's own bearer and direction: all pass that it puts and delivers then, and all that it keeps.
pub fn a_terminal_puts_what_it_got<M, C, P>()
    ensures { (way : Way M C P) (test : Test way) (ue : UeId) (u : UeNode) (input : Input C P)
        → UeHas (passes test) ue u → UeInputHas (passes test) ue input
        → AnswerHas (passes test) (UeHas (passes test) ue) (ue_acts way u input) }
{}

/// A DU keeps no packets: what test the one passes that an input brings, on a tunnel as one of the tunnel's owner, all pass that
/// it puts then, each as one of the terminal, bearer and direction that it is put for.
pub fn a_du_puts_what_it_got<M, C, P>()
    ensures { (way : Way M C P) (test : Test way) (r : Du M C) (input : Input C P)
        → DuInputHas (passes test) r input → OutputsHave (passes test) (du_acts way r input) }
{}

/// A CU-CP, and the core on control messages, put and deliver no packets: all that they put pass any test.
pub fn control_puts_no_packets<M, C, P>()
    ensures cu_cp { (way : Way M C P) (test : Test way) (r : CuCpRecord M C) (input : Input C P)
        → OutputsHave (passes test) (cu_cp_acts way r input) }
    ensures core { (way : Way M C P) (test : Test way) (r : CoreRecord M C) (from : NodeId)
        (message : Message C) → OutputsHave (passes test) (core_acts way r from message) }
{}
