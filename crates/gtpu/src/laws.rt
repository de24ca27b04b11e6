//! What the definitions of `specs/` say of all octets: a reader of the contracts may rest on these, and nothing calls them.

ghost use Rattle.std.specs.Prelude.{◌≡◌, ◌⊎◌, ℕ, List};
ghost use Rattle.gtpu.specs.declared.GtpuError.{GtpuError};
ghost use Rattle.gtpu.specs.Headers.{ExtensionHeader, AreHeaders};
ghost use Rattle.gtpu.specs.Packets.{GtpuPacket, Gtpu, IsWritable, gtpu_octets};
ghost use Rattle.gtpu.specs.Refusals.{IsRefusal};

/// Octets are those of one packet, or they are refused for one reason.
pub fn octets_have_one_reading()
    ensures some { (bytes : List ℕ) → ((p : GtpuPacket) × Gtpu p bytes)
        ⊎ ((e : GtpuError) × IsRefusal e bytes) }
    ensures not_both { (bytes : List ℕ) (p : GtpuPacket) (e : GtpuError) → Gtpu p bytes
        → IsRefusal e bytes → ⊥ }
    ensures one_packet { (bytes : List ℕ) (p q : GtpuPacket) → Gtpu p bytes → Gtpu q bytes → p ≡ q }
    ensures one_reason { (bytes : List ℕ) (a b : GtpuError) → IsRefusal a bytes → IsRefusal b bytes
        → a ≡ b }
{}

/// What is written is read again as the same packet.
pub fn what_is_written_is_read()
    ensures { (p : GtpuPacket) → IsWritable p → Gtpu p (gtpu_octets p) }
{}

/// The headers of a chain are determined.
pub fn chains_have_one_reading()
    ensures { (first : ℕ) (octets : List ℕ) (hs ks : List ExtensionHeader)
        → AreHeaders hs first octets → AreHeaders ks first octets → hs ≡ ks }
{}
