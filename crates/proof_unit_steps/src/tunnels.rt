//! Laws of the tunnels that a CU-UP, a DU and a terminal name, and put items on. Each function does nothing: its contract is the law.

ghost use Rattle.gnb_types.specs.declared.names.Gnb.{Gnb};
ghost use Rattle.gnb_types.specs.declared.names.NodeId.TheVariants.{CuUp as up_id, Du as du_id, Ue};
ghost use Rattle.gnb_types.specs.declared.names.UeId.{UeId};
ghost use Rattle.proof_unit_steps.specs.tunnel_names.Names.{AnswerNames, by_test, InputNames, Test};
ghost use Rattle.proof_unit_steps.specs.tunnels.Units.{AnswerIf, DuHolds, DuNames, IsLong, NoneIsFree, CuUpHolds, CuUpNames};
ghost use Rattle.std.specs.Prelude.{ℕ};
ghost use Rattle.unit_defs.specs.CuUp.{cu_up_acts};
ghost use Rattle.unit_defs.specs.Du.{Du, du_acts};
ghost use Rattle.unit_defs.specs.Ue.{ue_acts, UeNode};
ghost use Rattle.unit_defs.specs.CuUpRecords.{CuUp};
ghost use Rattle.unit_defs.specs.Ways.{Input, Way};

/// Whatever book says for which terminal, bearer and kind a TEID may be named: where a message that comes, and all that a DU
/// keeps, name tunnels as the book has it, and the book has the downlinks of its contexts after the step, all that it puts then
/// does so too: its messages, and each item, which is on an uplink of the item's own terminal and bearer. So does what it keeps.
/// And where contexts and requests say of a terminal how long its numbers are as the book has it, they do then; and PDUs are of
/// terminals of which the book has it.
pub fn a_du_puts_on_what_it_was_told<M, C, P>()
    ensures { (way : Way M C P) (test : Test way) (gnb : Gnb) (number : ℕ) (r : Du M C) (input : Input C P)
        → DuNames (by_test test) gnb number r → InputNames (by_test test) input
        → AnswerIf (by_test test) (DuHolds (by_test test).owners gnb number) (DuNames (by_test test) gnb number)
        (du_id gnb number) (du_acts way r input) }
{}

/// The same of a CU-UP, where the book has the tunnels of its contexts after the step: its frames are on a downlink, and what it
/// forwards is on a forwarding tunnel of this direction, of the item's own terminal and bearer. 0 is no TEID, so that the book
/// may let it be named for any. And the numbers of what it forwards are as long as the book has it for the terminal.
pub fn a_cu_up_puts_on_what_it_was_told<M, C, P>()
    ensures { (way : Way M C P) (test : Test way) (gnb : Gnb) (number : ℕ) (r : CuUp M C) (input : Input C P)
        → NoneIsFree (by_test test).owners → CuUpNames (by_test test) gnb number r → InputNames (by_test test) input
        → AnswerIf (by_test test) (CuUpHolds (by_test test).owners gnb number) (CuUpNames (by_test test) gnb number)
        (up_id gnb number) (cu_up_acts way r input) }
{}

/// A terminal names no tunnel, and puts no item on one. Where the book has the length of its plan, it puts PDUs of such
/// terminals alone, and its plan stays so.
pub fn a_terminal_puts_on_no_tunnel<M, C, P>()
    ensures { (way : Way M C P) (test : Test way) (ue : UeId) (u : UeNode) (input : Input C P) → IsLong (by_test test) u
        → AnswerNames (by_test test) (IsLong (by_test test)) (Ue ue.0) (ue_acts way u input) }
{}
