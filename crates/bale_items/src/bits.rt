//! Signed numbers as words: two's complement in 64 bits, both ways.
ghost use Rattle.std.specs.Prelude.{◌≡◌};
ghost use Rattle.bale_items.specs.Bits.{twos_complement, from_twos_complement};

/// The two's complement of `v`.
pub fn bits_of(v: i64) -> u64
    ensures value { result ≡ twos_complement v }
    ensures undone { from_twos_complement result ≡ v }
{
    v.cast_unsigned()
}

/// The number whose two's complement is `w`.
pub fn value_of(w: u64) -> i64
    ensures value { result ≡ from_twos_complement w }
    ensures undone { twos_complement result ≡ w }
{
    w.cast_signed()
}
