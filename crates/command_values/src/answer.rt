//! What a line is answered with.

ghost use Rattle.std.specs.Prelude.{◌≡◌, ◌<◌, [], All, length, IfOk};
ghost use Rattle.gnb_types.specs.Hex.{hex_of};
ghost use Rattle.aper_defs.specs.Membership.{Has};
ghost use Rattle.aper_values.specs.types.Types.{tree};
ghost use Rattle.aper_values.specs.Views.{view};
ghost use Rattle.command_values.specs.Answers.{wrong_at, reason_number};
ghost use Rattle.command_values.specs.inside.Answered.{IsWholeWrong, IsWrongJson, SpelledMeets, ShownMeets, AnswerMeets};
ghost use Rattle.command_values.specs.declared.answer.Unanswered.TheVariants.{Wrong as Refused, Memory as OutOfMemory};
ghost use Rattle.command_values.specs.declared.way.Way.TheVariants.{Encode as Encoding, Decode as Decoding};

use crate::way::Way;
use aper::{DecodeError, Reason, Value, decode, encode, spelled_length};
use asn1_module::{Module, TypeId};
use gnb_types::hex::{HexError, hex_bytes, hex_text};
use gnb_types::octets::{Memory, Octets};
use std::alloc::Global;
use values_json::{JsonError, json_of_value, value_from_json};

/// The octets of a spelling at most.
const SPELLING_LIMIT: u64 = 131_072;

const NO_HEX: u16 = 100;

const NO_JSON: u16 = 101;

const SHAPE: u16 = 102;

const RANGE: u16 = 103;

const TOO_LONG: u16 = 104;

/// Why a line is refused: the first bit of the first wrong field, the number of the reason, and the way to the value whose type gives
/// the field.
#[derive(Drop)]
pub struct Wrong {
    pub bit: u64,
    pub reason: u16,
    pub path: Octets,
}

/// Why a line has no answer.
#[derive(Drop)]
pub enum Unanswered {
    Wrong(Wrong),
    Memory,
}

impl From<Memory> for Unanswered {
    ghost from_gives = { λ _ u. u ≡ OutOfMemory };

    fn from(_error: Memory) -> Unanswered {
        Unanswered::Memory
    }
}

/// Why a line is refused, at no bit of it.
fn unread(reason: u16, path: Octets) -> Unanswered
    ensures { result ≡ Refused (wrong_at 0 reason path) }
{
    Unanswered::Wrong(Wrong {
        bit: 0,
        reason,
        path,
    })
}

/// Why a line is refused as a whole.
fn whole(alloc: Global, reason: u16) -> Unanswered
    ensures { IsWholeWrong reason result }
{
    match Octets::from_slice(alloc, b"-") {
        Ok(path) => unread(reason, path),
        Err(_) => Unanswered::Memory,
    }
}

/// The number of a reason.
fn reason_code(reason: Reason) -> u16
    ensures { result ≡ reason_number reason }
{
    match reason {
        Reason::Truncated => 1,
        Reason::Padding => 2,
        Reason::Range => 3,
        Reason::NotMinimal => 4,
        Reason::Index => 5,
        Reason::Length => 6,
        Reason::Character => 7,
        Reason::Overrun => 8,
        Reason::Tail => 9,
        Reason::Required => 10,
        Reason::Order => 11,
        Reason::TooLong => 12,
        Reason::EmptyAdditions => 13,
    }
}

/// Why a line is no JSON of a value.
fn refused_json(alloc: Global, error: JsonError) -> Unanswered
    ensures { IsWrongJson error result }
{
    match error {
        JsonError::NotJson => whole(alloc, NO_JSON),
        JsonError::Shape { path } => unread(SHAPE, path),
        JsonError::Range { path } => unread(RANGE, path),
        JsonError::Memory => Unanswered::Memory,
    }
}

/// The digits of octets.
fn digits(alloc: Global, octets: &[u8]) -> Result<Octets, Memory>
    ensures { IfOk result (λ text. All (λ o. o < 256) octets.now × (text ≡ hex_of octets.now)) }
{
    hex_text(alloc, octets)
}

/// The digits of the octets that spell a value.
fn spelled(alloc: Global, m: &Module, id: TypeId, value: &Value) -> Result<Octets, Unanswered>
    requires inside { id.number < length m.now.nodes }
    requires member { Has [] (tree m.now id.number) (view value.now) }
    ensures { SpelledMeets m.now id.number (view value.now) result }
{
    if spelled_length(m, id, value) > SPELLING_LIMIT {
        return Err(whole(alloc, TOO_LONG));
    }
    let octets = encode(alloc, m, id, value)?;
    Ok(digits(alloc, octets.as_slice())?)
}

/// The digits of the octets that spell the value of a line of JSON.
fn encoded(alloc: Global, m: &Module, id: TypeId, line: &[u8]) -> Result<Octets, Unanswered>
    requires { id.number < length m.now.nodes }
    ensures { AnswerMeets Encoding m.now id.number line.now result }
{
    match value_from_json(alloc, m, id, line) {
        Ok(value) => spelled(alloc, m, id, &value),
        Err(error) => Err(refused_json(alloc, error)),
    }
}

/// The JSON of the value that octets spell.
fn shown(alloc: Global, m: &Module, id: TypeId, octets: &[u8]) -> Result<Octets, Unanswered>
    requires { id.number < length m.now.nodes }
    ensures { ShownMeets m.now id.number octets.now result }
{
    match decode(alloc, m, id, octets) {
        Ok(value) => Ok(json_of_value(alloc, m, id, &value)?),
        Err(DecodeError::Refused { bit, reason, path }) => Err(Unanswered::Wrong(Wrong {
            bit,
            reason: reason_code(reason),
            path,
        })),
        Err(DecodeError::Memory) => Err(Unanswered::Memory),
    }
}

/// The JSON of the value that the octets of a line of digits spell.
fn decoded(alloc: Global, m: &Module, id: TypeId, line: &[u8]) -> Result<Octets, Unanswered>
    requires { id.number < length m.now.nodes }
    ensures { AnswerMeets Decoding m.now id.number line.now result }
{
    match hex_bytes(alloc, line) {
        Ok(octets) => shown(alloc, m, id, octets.as_slice()),
        Err(HexError::NotHex) => Err(whole(alloc, NO_HEX)),
        Err(HexError::Memory) => Err(Unanswered::Memory),
    }
}

/// What a line is answered with, or why it is refused.
pub fn answer(
    alloc: Global,
    way: Way,
    m: &Module,
    id: TypeId,
    line: &[u8],
) -> Result<Octets, Unanswered>
    requires { id.number < length m.now.nodes }
    ensures { AnswerMeets way m.now id.number line.now result }
{
    match way {
        Way::Encode => encoded(alloc, m, id, line),
        Way::Decode => decoded(alloc, m, id, line),
    }
}
