//! Messages as octets: aligned PER (ITU-T X.691).
#![tactic(auto)]

ghost use Rattle.std.specs.Prelude.{◌≤◌, [], IfOk};
ghost use Rattle.aper_defs.specs.Bits.{octet_count};
ghost use Rattle.aper_defs.specs.Membership.{Has};
ghost use Rattle.aper_defs.specs.Spelling.{Spells, spelling_limit, whole_layout};
ghost use Rattle.message_defs.specs.profile_defs.Profile.{f1_type};
ghost use Rattle.message_defs.specs.F1.{written_f1};

use crate::writing::to_value;
use aper::encoding::encode;
use gnb_types::items::Memory;
use gnb_types::octets::Octets;
use message_types::F1Message;
use profile::profile_module::Profile;
use profile::types::f1_pdu;
use std::alloc::Global;

/// The one spelling of a message, of at most 131,072 octets. Out of memory is the one error.
pub fn to_bytes(alloc: Global, profile: &Profile, msg: &F1Message) -> Result<Octets, Memory>
    requires member { Has [] f1_type (written_f1 msg.now) }
    requires short { octet_count (whole_layout f1_type (written_f1 msg.now)) ≤ spelling_limit }
    ensures { IfOk result (λ octets. Spells f1_type (written_f1 msg.now) octets) }
{
    let value = to_value(alloc, msg)?;
    let id = f1_pdu(profile);
    let module = profile.module();
    let octets = encode(alloc, module, id, &value);
    drop(value);
    Ok(octets?)
}
