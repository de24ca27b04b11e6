//! A law of the interfaces to which a CU-CP keeps. Each function does nothing: its contract is the law.

ghost use Rattle.gnb_types.specs.declared.names.Gnb.{Gnb};
ghost use Rattle.gnb_types.specs.declared.names.NodeId.TheVariants.{CuCp};
ghost use Rattle.law_units_act_locally.specs.cu_cp_interfaces.Ledgers.{Gives, GivenOf, Keeps, Said};
ghost use Rattle.message_types.specs.declared.rrc.Token.{Token};
ghost use Rattle.run_defs.specs.Runs.{plain_way};
ghost use Rattle.unit_defs.specs.CuCpRecords.{CuCpRecord};
ghost use Rattle.unit_defs.specs.CuCp.{cu_cp_acts};
ghost use Rattle.unit_defs.specs.Ways.{Input, Pdu};
ghost use Rattle.std.specs.Prelude.{◌≡◌};

/// Of a CU-CP, on any input: where a message that comes is of the interface between its sender and the CU-CP, and what the CU-CP
/// keeps of requests and replies is of the interface to the node for which it is kept, each control message that it puts is of
/// the interface to the node to which it goes, and so is all that it keeps then.
pub fn a_cu_cp_keeps_to_its_interfaces()
    ensures { (gnb : Gnb) (r : CuCpRecord Said Token) (input : Input Token Pdu) → r.gnb ≡ gnb
        → Keeps (CuCp gnb) r.transactions → GivenOf (CuCp gnb) input
        → Gives (CuCp gnb) (λ s. (s.gnb ≡ gnb) × Keeps (CuCp gnb) s.transactions)
        (cu_cp_acts plain_way r input) }
{}
