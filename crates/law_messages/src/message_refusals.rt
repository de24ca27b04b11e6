//! Laws of messages that are refused. Each function does nothing: its contract is the law.

ghost use Rattle.std.specs.Prelude.{◌≡◌, ℕ, List, Err};
ghost use Rattle.aper_defs.specs.Reading.{Fault, decoded};
ghost use Rattle.aper_defs.specs.loose_defs.Wrong.{WrongAt};
ghost use Rattle.message_defs.specs.profile_defs.Profile.{f1_type, e1_type, xn_type, core_type, token_type};

/// Where octets are refused as a PDU of F1AP, E1AP, XnAP in either version or NGAP, or as a token of RRC, they go wrong there by the
/// loose layouts of its type.
pub fn a_refused_message_goes_wrong_there()
    ensures f1 { (octets : List ℕ) (fault : Fault) → decoded f1_type octets ≡ Err fault → WrongAt f1_type octets fault }
    ensures e1 { (octets : List ℕ) (fault : Fault) → decoded e1_type octets ≡ Err fault → WrongAt e1_type octets fault }
    ensures first_xn { (octets : List ℕ) (fault : Fault) → decoded (xn_type 1) octets ≡ Err fault → WrongAt (xn_type 1) octets fault }
    ensures second_xn { (octets : List ℕ) (fault : Fault) → decoded (xn_type 2) octets ≡ Err fault → WrongAt (xn_type 2) octets fault }
    ensures core { (octets : List ℕ) (fault : Fault) → decoded core_type octets ≡ Err fault → WrongAt core_type octets fault }
    ensures token { (octets : List ℕ) (fault : Fault) → decoded token_type octets ≡ Err fault → WrongAt token_type octets fault }
{}
