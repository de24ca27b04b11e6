//! Open types.

ghost use Rattle.std.specs.Prelude.{◌≡◌, ℕ, ◌≤◌, [], ◌∷◌, ◌++◌, false, length, IfOk, OnOk, List, None};
ghost use Rattle.bits_core.specs.Bits.{octet_bits};
ghost use Rattle.aper_defs.specs.Fields.{Path, Field, asked, run, pad, extent, whole, octet};
ghost use Rattle.aper_defs.specs.Bits.{put_all, closed, open_fields};

use crate::fields::put_pad;
use crate::lengths::put_extent;
use crate::runs::put_octets;
use bits_core::writer::BitWriter;
use gnb_types::octets::{Memory, Octets};

/// An open type with these octets in it, whether they are a complete encoding or aren't known.
pub fn put_contents(out: &mut BitWriter, octets: &[u8]) -> Result<(), Memory>
    requires { length octets.now ≤ 16383 }
    ensures going { OnOk result (out.new.failed ≡ false) }
    ensures raw { OnOk result ((p inside : Path) (rest : List Field)
        → put_all out.old.bits (asked p pad 0 ∷ asked p (extent (whole 1 16383 None)) (length octets.now)
        ∷ run inside octet octets.now ∷ rest) ≡ put_all out.new.bits rest) }
    ensures opened { OnOk result ((p inside : Path) (fields rest : List Field)
        → octet_bits octets.now ≡ put_all [] (closed inside fields)
        → put_all out.old.bits (open_fields p inside fields ++ rest) ≡ put_all out.new.bits rest) }
{
    put_pad(out)?;
    put_extent(out, octets.len() as u32)?;
    put_octets(out, octets)
}

/// What was put, as a complete encoding: the last octet is filled up by zeros, and where nothing was put an octet of them stands.
#[tactic(auto, using(crate::proofs::Closed::filled_up, crate::proofs::Closed::filled_with_zeros))]
pub fn completed(out: BitWriter) -> Result<Octets, Memory>
    requires { out.failed ≡ false }
    ensures { IfOk result (λ octets. (p : Path) (fields : List Field)
        → put_all [] fields ≡ out.bits → octet_bits octets ≡ put_all [] (closed p fields)) }
{
    let mut octets = out.finish();
    if !octets.is_empty() {
        return Ok(octets);
    }
    octets.push(0)?;
    Ok(octets)
}
