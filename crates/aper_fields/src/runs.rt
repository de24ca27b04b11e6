//! Octets, bits and characters as they stand.

ghost use Rattle.std.specs.Prelude.{◌≡◌, ℕ, ◌+◌, ◌%◌, ◌<◌, ◌≤◌, ◌^◌, [], ◌∷◌, ◌++◌, false, length, map, OnOk};
ghost use Rattle.bits_core.specs.Bits.{bit_value, octet_bits};
ghost use Rattle.aper_defs.specs.Fields.{asked, run, octet, bit, character};
ghost use Rattle.aper_fields.specs.Following.{Follows};

use bits_core::writer::BitWriter;
use gnb_types::items::Memory;

/// Octets, or characters, at an octet's beginning.
pub fn put_octets(out: &mut BitWriter, octets: &[u8]) -> Result<(), Memory>
    requires { length out.old.bits % 8 ≡ 0 }
    ensures going { OnOk result (out.new.failed ≡ false) }
    ensures follows { OnOk result (Follows out.old out.new (λ p. run p octet octets.now ∷ [])) }
    ensures characters { OnOk result
        (Follows out.old out.new (λ p. map (λ c. asked p character c) octets.now)) }
{
    out.put_octets(octets)
}

/// A few octets, or characters, wherever.
#[tactic(auto, using(crate::proofs::Followed::octets_more))]
pub fn put_few_octets(out: &mut BitWriter, octets: &[u8]) -> Result<(), Memory>
    requires { out.old.failed ≡ false }
    ensures going { OnOk result (out.new.failed ≡ false) }
    ensures follows { OnOk result (Follows out.old out.new (λ p. run p octet octets.now ∷ [])) }
    ensures characters { OnOk result
        (Follows out.old out.new (λ p. map (λ c. asked p character c) octets.now)) }
{
    for octet in octets {
        out.put_bits(u64::from(*octet), 8)?;
    }
    Ok(())
}

/// Bits.
#[tactic(auto, using(crate::proofs::Followed::bits_more))]
pub fn put_bit_run(out: &mut BitWriter, bits: &[bool]) -> Result<(), Memory>
    requires { out.old.failed ≡ false }
    ensures going { OnOk result (out.new.failed ≡ false) }
    ensures follows { OnOk result (Follows out.old out.new (λ p. run p bit (map bit_value bits.now) ∷ [])) }
{
    for bit in bits {
        out.put_bits(u64::from(*bit), 1)?;
    }
    Ok(())
}
