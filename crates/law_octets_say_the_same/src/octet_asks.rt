//! A law of questions of a run, over octets. Each function does nothing: its contract is the law.

ghost use Rattle.gnb_types.specs.declared.names.BearerId.{BearerId};
ghost use Rattle.gnb_types.specs.declared.names.UeId.{UeId};
ghost use Rattle.law_octets_say_the_same.specs.octet_runs.Again.{PlainState};
ghost use Rattle.law_octets_say_the_same.specs.octet_runs.Faithful.{RestsAlike};
ghost use Rattle.run_defs.specs.Units.{requests_rest};
ghost use Rattle.std.specs.Prelude.{true, ◌≡◌};
ghost use Rattle.unit_defs.specs.octet_defs.Codec.{Codec};

/// A bearer is quiet in a state over octets exactly where it is in the state of what is said, whatever stands there, where no CU-CP
/// has a request of a terminal open or waiting: of the requests a state over octets keeps none.
pub fn a_question_is_answered_alike()
    ensures { (codec : Codec) (s : PlainState) (ue : UeId) (bearer : BearerId)
        → ((who : UeId) → requests_rest s.units who ≡ true) → RestsAlike codec s ue bearer }
{}
