//! What stands before the members of a value: flags and marks.

ghost use Rattle.std.specs.Prelude.{◌≡◌, ℕ, ◌<◌, ◌≤◌, ◌^◌, false, length, OnOk};
ghost use Rattle.bits_core.specs.Bits.{number_of};
ghost use Rattle.aper_defs.specs.Trees.{Tree};
ghost use Rattle.aper_defs.specs.Values.{presence};
ghost use Rattle.aper_defs.specs.Layouts.{flag_fields, mark_fields, message_head};
ghost use Rattle.aper_fields.specs.Following.{Follows};
ghost use Rattle.aper_values.specs.types.Types.{parts_of};
ghost use Rattle.aper_values.specs.Views.{options_view};

use crate::fields::{put_addition_bits, put_constrained, put_flag, put_pad, put_small};
use crate::numbers::put_extension;
use aper_values::value::Value;
use asn1_syntax::types::Component;
use bits_core::writer::BitWriter;
use gnb_types::items::Memory;

/// A bit for each OPTIONAL component: whether it is there.
pub fn put_flags(
    out: &mut BitWriter,
    parts: &[Component],
    values: &[Option<Value>],
) -> Result<(), Memory>
    requires size { length values.now ≤ length parts.now }
    requires going { out.old.failed ≡ false }
    ensures going { OnOk result (out.new.failed ≡ false) }
    ensures follows { OnOk result ((of : ℕ → Tree)
        → Follows out.old out.new (λ p. flag_fields p (parts_of of parts.now) (options_view values.now))) }
{
    for (i, value) in values.iter().enumerate() {
        // As an extension bit, it stands only where it may be 0 or 1.
        put_extension(out, parts[i].optional, value.is_some())?;
    }
    Ok(())
}

/// The bits that tell which additions are there, as a number.
#[tactic(auto, using(crate::proofs::members::HeadLemmas::marks_small))]
fn marks(additions: &[Option<Value>]) -> u64
    requires { length additions.now ≤ 64 }
    ensures value { result ≡ number_of (presence (options_view additions.now)) }
    ensures small { result < 2 ^ length additions.now }
{
    let mut marks = 0;
    for addition in additions {
        marks = 2 * marks + u64::from(addition.is_some());
    }
    marks
}

/// How many additions there may be, and which of them are there.
#[tactic(auto, using(crate::proofs::members::HeadLemmas::presence_count))]
pub fn put_marks(out: &mut BitWriter, additions: &[Option<Value>]) -> Result<(), Memory>
    requires size { length additions.now ≤ 64 }
    requires going { out.old.failed ≡ false }
    ensures going { OnOk result (out.new.failed ≡ false) }
    ensures follows { OnOk result (Follows out.old out.new (λ p. mark_fields p (options_view additions.now))) }
{
    if additions.is_empty() {
        return Ok(());
    }
    put_small(out, additions.len() as u64 - 1)?;
    Ok(put_addition_bits(out, additions.len() as u32, marks(additions))?)
}

/// What stands before the body of a PDU: the outcome, the procedure's code and its criticality.
pub fn put_head(out: &mut BitWriter, outcome: u32, code: u8, criticality: u8) -> Result<(), Memory>
    requires outcome { outcome < 3 }
    requires criticality { criticality ≤ 2 }
    ensures going { OnOk result (out.new.failed ≡ false) }
    ensures follows { OnOk result (Follows out.old out.new (λ p. message_head p outcome code criticality)) }
{
    put_flag(out, false)?;
    put_constrained(out, 2, u64::from(outcome))?;
    put_pad(out)?;
    put_constrained(out, 8, u64::from(code))?;
    put_constrained(out, 2, u64::from(criticality))
}
