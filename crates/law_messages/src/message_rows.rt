//! Worked messages as a theorem: what is written for them is spelled by the octets that were worked out. No code stands on it.

ghost use Rattle.std.specs.Prelude.{map, ◌≡◌, Ok, Err, None};
ghost use Rattle.law_aper.specs.rows.Row.{told_bits, laid_bits, AreValues};
ghost use Rattle.message_defs.specs.F1.{f1_from_value};
ghost use Rattle.message_defs.specs.Xn.{xn_from_value};
ghost use Rattle.message_defs.specs.FromValue.{unknown_element};
ghost use Rattle.law_messages.specs.message_rows.F1Rows.{least_f1_rows, greatest_f1_rows};
ghost use Rattle.law_messages.specs.message_rows.E1Rows.{least_e1_rows, greatest_e1_rows};
ghost use Rattle.law_messages.specs.message_rows.XnRows.{least_xn_rows, greatest_xn_rows};
ghost use Rattle.law_messages.specs.message_rows.CoreRows.{least_core_rows, greatest_core_rows};
ghost use Rattle.law_messages.specs.message_rows.TokenRows.{least_token_rows, greatest_token_rows};
ghost use Rattle.law_messages.specs.message_rows.Rows.{token_rows, transfer_rows, context_rows, release_rows, handover_rows, origin_rows, read_rows, uplink, with_unknown, with_raw_origin, request};

/// The octets are the spelling of what is written for each message.
pub fn worked_messages()
    ensures tokens { map laid_bits token_rows ≡ map told_bits token_rows }
    ensures transfers { map laid_bits transfer_rows ≡ map told_bits transfer_rows }
    ensures contexts { map laid_bits context_rows ≡ map told_bits context_rows }
    ensures releases { map laid_bits release_rows ≡ map told_bits release_rows }
    ensures handover { map laid_bits handover_rows ≡ map told_bits handover_rows }
    ensures origin { map laid_bits origin_rows ≡ map told_bits origin_rows }
    ensures read { map laid_bits read_rows ≡ map told_bits read_rows }
{}

/// Each of these is a value of its type.
pub fn worked_message_values()
    ensures tokens { AreValues token_rows }
    ensures transfers { AreValues transfer_rows }
    ensures contexts { AreValues context_rows }
    ensures releases { AreValues release_rows }
    ensures handover { AreValues handover_rows }
    ensures origin { AreValues origin_rows }
    ensures read { AreValues read_rows }
{}

/// An information element that isn't known is passed over, unless it is to be rejected; and version 1 passes over the origin.
pub fn worked_hearings()
    ensures ignored { f1_from_value (with_unknown 1) ≡ Ok uplink }
    ensures rejected { f1_from_value (with_unknown 0) ≡ Err (unknown_element 99) }
    ensures older { xn_from_value with_raw_origin ≡ Ok (request None) }
{}

/// The octets are the spelling of each message and token with its least fields, and with its greatest numbers and lists.
pub fn least_and_greatest_messages()
    ensures least_f1 { map laid_bits least_f1_rows ≡ map told_bits least_f1_rows }
    ensures greatest_f1 { map laid_bits greatest_f1_rows ≡ map told_bits greatest_f1_rows }
    ensures least_e1 { map laid_bits least_e1_rows ≡ map told_bits least_e1_rows }
    ensures greatest_e1 { map laid_bits greatest_e1_rows ≡ map told_bits greatest_e1_rows }
    ensures least_xn { map laid_bits least_xn_rows ≡ map told_bits least_xn_rows }
    ensures greatest_xn { map laid_bits greatest_xn_rows ≡ map told_bits greatest_xn_rows }
    ensures least_core { map laid_bits least_core_rows ≡ map told_bits least_core_rows }
    ensures greatest_core { map laid_bits greatest_core_rows ≡ map told_bits greatest_core_rows }
    ensures least_token { map laid_bits least_token_rows ≡ map told_bits least_token_rows }
    ensures greatest_token { map laid_bits greatest_token_rows ≡ map told_bits greatest_token_rows }
{}

/// The least ones, and the greatest of the core's messages and of tokens, are values of their types; so are the others, by the
/// law of messages in range.
pub fn least_and_greatest_message_values()
    ensures least_f1 { AreValues least_f1_rows }
    ensures least_e1 { AreValues least_e1_rows }
    ensures least_xn { AreValues least_xn_rows }
    ensures least_core { AreValues least_core_rows }
    ensures greatest_core { AreValues greatest_core_rows }
    ensures least_token { AreValues least_token_rows }
    ensures greatest_token { AreValues greatest_token_rows }
{}
