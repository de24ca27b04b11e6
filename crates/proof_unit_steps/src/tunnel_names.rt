//! Laws of the tunnels that a CU-CP and the core name. Each function does nothing: its contract is the law.

ghost use Rattle.gnb_types.specs.declared.names.Gnb.{Gnb};
ghost use Rattle.gnb_types.specs.declared.names.NodeId.{NodeId};
ghost use Rattle.gnb_types.specs.declared.names.NodeId.TheVariants.{Core, CuCp};
ghost use Rattle.proof_unit_steps.specs.tunnel_names.CuCps.{CoreNames, CuCpNames};
ghost use Rattle.proof_unit_steps.specs.tunnel_names.Names.{AnswerNames, by_test, InputNames, Names, Test};
ghost use Rattle.unit_defs.specs.Core.{core_acts, CoreRecord};
ghost use Rattle.unit_defs.specs.CuCpRecords.{CuCpRecord};
ghost use Rattle.unit_defs.specs.CuCp.{cu_cp_acts};
ghost use Rattle.unit_defs.specs.Ways.{Input, Message, Way};

/// Whatever book says for which terminal, bearer and kind a TEID of a CU-UP or a DU may be named: where a message that comes
/// names tunnels as the book has it, and all that a CU-CP keeps does, so do all messages that it puts then, and all that it
/// keeps. In particular it takes a response's tunnels for those of the unit that it asked. And whatever the book says of how long a
/// terminal's numbers may be: where requests for contexts and handovers, and orders to attach, say so, all that it puts then does,
/// and its contexts do.
pub fn a_cu_cp_names_what_it_was_told<M, C, P>()
    ensures { (way : Way M C P) (test : Test way) (gnb : Gnb) (r : CuCpRecord M C) (input : Input C P)
        → CuCpNames (by_test test) gnb r → InputNames (by_test test) input
        → AnswerNames (by_test test) (CuCpNames (by_test test) gnb) (CuCp gnb) (cu_cp_acts way r input) }
{}

/// The same of the core on control messages: and its End Markers are on tunnels that the book has for the terminal, the bearer
/// and N3.
pub fn the_core_names_what_it_was_told<M, C, P>()
    ensures { (way : Way M C P) (test : Test way) (r : CoreRecord M C) (from : NodeId) (message : Message C)
        → CoreNames (by_test test) r → Names (by_test test).owners from message
        → AnswerNames (by_test test) (CoreNames (by_test test)) Core (core_acts way r from message) }
{}
