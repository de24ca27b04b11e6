//! Laws of bits.

ghost use Rattle.std.specs.Prelude.{◌≡◌, ℕ, ◌<◌, ◌^◌, ◌++◌, Bool, List, All, length, map};
ghost use Rattle.bits_core.specs.Bits.{Field, FieldFits, bits_of, bits_of_fields, number_of, numbers_at, octet_bits, zeros};

/// Numbers and bits belong together one to one, at each width; 0 belongs to zeros alone.
pub fn bits_are_exact()
    ensures number { (width n : ℕ) → n < 2 ^ width → number_of (bits_of width n) ≡ n }
    ensures bits { (bits : List Bool) → bits_of (length bits) (number_of bits) ≡ bits }
    ensures zeros { (bits : List Bool) → number_of bits ≡ 0 → bits ≡ zeros (length bits) }
    ensures none { (count : ℕ) → number_of (zeros count) ≡ 0 }
    ensures width { (width n : ℕ) → length (bits_of width n) ≡ width }
    ensures octets { (a b : List ℕ) → All (λ o. o < 256) a → All (λ o. o < 256) b → octet_bits a ≡ octet_bits b → a ≡ b }
{}

/// Fields that were put are taken again at the same widths, whatever follows them.
pub fn fields_put_are_taken()
    ensures { (fields : List Field) (rest : List Bool) → All FieldFits fields →
        numbers_at (map (λ f. f.width) fields) (bits_of_fields fields ++ rest) ≡ map (λ f. f.value) fields }
{}
