//! Messages as octets: aligned PER (ITU-T X.691).
#![tactic(auto)]

ghost use Rattle.std.specs.Prelude.{◌≤◌, [], IfOk};
ghost use Rattle.aper_defs.specs.Bits.{octet_count};
ghost use Rattle.aper_defs.specs.Membership.{Has};
ghost use Rattle.aper_defs.specs.Spelling.{Spells, spelling_limit, whole_layout};
ghost use Rattle.message_defs.specs.profile_defs.Profile.{e1_type};
ghost use Rattle.message_defs.specs.E1.{written_e1};

use crate::writing::to_value;
use aper::encoding::encode;
use gnb_types::items::Memory;
use gnb_types::octets::Octets;
use message_types::E1Message;
use profile::profile_module::Profile;
use profile::types::e1_pdu;
use std::alloc::Global;

/// The one spelling of a message, of at most 131,072 octets. Out of memory is the one error.
pub fn to_bytes(alloc: Global, profile: &Profile, msg: &E1Message) -> Result<Octets, Memory>
    requires member { Has [] e1_type (written_e1 msg.now) }
    requires short { octet_count (whole_layout e1_type (written_e1 msg.now)) ≤ spelling_limit }
    ensures { IfOk result (λ octets. Spells e1_type (written_e1 msg.now) octets) }
{
    let value = to_value(alloc, msg)?;
    let id = e1_pdu(profile);
    let module = profile.module();
    let octets = encode(alloc, module, id, &value);
    drop(value);
    Ok(octets?)
}
