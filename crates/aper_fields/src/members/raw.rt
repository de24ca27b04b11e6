//! What isn't known.

ghost use Rattle.std.specs.Prelude.{◌≡◌, ◌<◌, ◌≤◌, false, OnOk};
ghost use Rattle.aper_defs.specs.Membership.{IsRaw};
ghost use Rattle.aper_fields.specs.Following.{Follows};
ghost use Rattle.aper_values.specs.Views.{view};
ghost use Rattle.aper_fields.specs.members.Followed.{RawFollows, past_fields};

use crate::contents::put_contents;
use crate::fields::{put_flag, put_small};
use aper_values::value::Value;
use bits_core::writer::BitWriter;
use gnb_types::items::Memory;

/// Octets of what isn't known, in place of an open type's contents.
pub fn put_raw(out: &mut BitWriter, value: &Value) -> Result<(), Memory>
    requires { IsRaw (view value.now) }
    ensures going { OnOk result (out.new.failed ≡ false) }
    ensures follows { OnOk result (RawFollows out.old out.new (view value.now)) }
{
    match value {
        Value::Raw(octets) => put_contents(out, octets.as_slice()),
        _ => unreachable!(),
    }
}

/// A message past the outcomes that are known.
pub fn put_past(out: &mut BitWriter, outcome: u32, body: &Value) -> Result<(), Memory>
    requires outcome { (3 ≤ outcome) × (outcome < 67) }
    requires body { IsRaw (view body.now) }
    ensures going { OnOk result (out.new.failed ≡ false) }
    ensures follows { OnOk result (Follows out.old out.new (λ p. past_fields p outcome (view body.now))) }
{
    put_flag(out, true)?;
    put_small(out, u64::from(outcome - 3))?;
    Ok(put_raw(out, body)?)
}
