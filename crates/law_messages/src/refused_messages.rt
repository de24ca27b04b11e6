//! Laws: why no message is heard in a value of a PDU. Each function does nothing: its contract is the law.

ghost use Rattle.std.specs.Prelude.{◌≡◌, ℕ, Err, Some};
ghost use Rattle.aper_defs.specs.Values.{Value, message};
ghost use Rattle.message_defs.specs.profile_defs.Forms.{no_form};
ghost use Rattle.message_defs.specs.profile_defs.Tables.{outcome_at};
ghost use Rattle.message_defs.specs.profile_defs.Messages.{f1_messages, e1_messages, xn_messages, core_messages};
ghost use Rattle.message_defs.specs.FromValue.{unknown_procedure, unknown_element, rejected_in};
ghost use Rattle.message_defs.specs.F1.{f1_from_value};
ghost use Rattle.message_defs.specs.E1.{e1_from_value};
ghost use Rattle.message_defs.specs.Xn.{xn_from_value};
ghost use Rattle.message_defs.specs.Core.{core_from_value};

/// Where no message of the set stands at a code and outcome, the procedure is unknown.
pub fn unknown_procedures_are_refused()
    ensures f1 { (index code criticality : ℕ) (body : Value) → outcome_at code index f1_messages ≡ no_form
        → f1_from_value (message index code criticality body) ≡ Err (unknown_procedure code criticality) }
    ensures e1 { (index code criticality : ℕ) (body : Value) → outcome_at code index e1_messages ≡ no_form
        → e1_from_value (message index code criticality body) ≡ Err (unknown_procedure code criticality) }
    ensures xn { (version : ℕ) (index code criticality : ℕ) (body : Value) → outcome_at code index (xn_messages version) ≡ no_form
        → xn_from_value (message index code criticality body) ≡ Err (unknown_procedure code criticality) }
    ensures core { (index code criticality : ℕ) (body : Value) → outcome_at code index core_messages ≡ no_form
        → core_from_value (message index code criticality body) ≡ Err (unknown_procedure code criticality) }
{}

/// Where an information element is to be rejected, it is the cause.
pub fn unknown_elements_are_refused()
    ensures f1 { (id : ℕ) (v : Value) → rejected_in f1_messages v ≡ Some id → f1_from_value v ≡ Err (unknown_element id) }
    ensures e1 { (id : ℕ) (v : Value) → rejected_in e1_messages v ≡ Some id → e1_from_value v ≡ Err (unknown_element id) }
    ensures xn { (version : ℕ) (id : ℕ) (v : Value) → rejected_in (xn_messages version) v ≡ Some id → xn_from_value v ≡ Err (unknown_element id) }
    ensures core { (id : ℕ) (v : Value) → rejected_in core_messages v ≡ Some id → core_from_value v ≡ Err (unknown_element id) }
{}
