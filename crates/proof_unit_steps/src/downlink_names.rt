//! A law of the downlink TEIDs that a CU-CP names. Each function does nothing: its contract is the law.

ghost use Rattle.proof_unit_steps.specs.downlink_names.Claims.{CuCpGoes, CuCpHas, InputIs};
ghost use Rattle.proof_unit_steps.specs.downlink_names.Places.{DownlinkTeid, Story};
ghost use Rattle.proof_unit_steps.specs.tunnel_names.CuCps.{CuCpNames};
ghost use Rattle.proof_unit_steps.specs.tunnel_names.Names.{by_test, InputNames, Test};
ghost use Rattle.std.specs.Prelude.{◌≡◌};
ghost use Rattle.unit_defs.specs.CuCpRecords.{CuCpRecord};
ghost use Rattle.unit_defs.specs.CuCp.{cu_cp_acts};
ghost use Rattle.unit_defs.specs.Ways.{Input, Message, Way};

/// Of one TEID of a DU of its gNB a CU-CP has at most one that may still switch a bearer to it: the terminal's attempt that took it from
/// the DU's answer, one request that waits, or one that was put. Where that is so, and messages of the DU name the TEID in one
/// answer alone, it is so after any input; and what was put stays the one request that names it. So it never says to two
/// requests, whatever comes and how often, that a bearer goes to the TEID. The CU-CP takes an answer's tunnels from the DU that it
/// asked: that it names tunnels as some book has it is the premise (`tunnel_names`).
pub fn a_cu_cp_names_a_downlink_once<C, P>()
    ensures { (way : Way (Message C) C P) → ((m : Message C) → way.encode m ≡ m) → (test : Test way) (t : DownlinkTeid) (s : Story)
        → (r : CuCpRecord (Message C) C) (input : Input C P)
        → CuCpNames (by_test test) t.gnb r → InputNames (by_test test) input → CuCpHas t s r → InputIs t s input
        → CuCpGoes t s (cu_cp_acts way r input) }
{}
