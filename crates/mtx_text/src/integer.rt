//! Integer words of any length, read without overflow.
ghost use Rattle.std.specs.Prelude.{◌≡◌, min};
ghost use Rattle.std.specs.Option.{option_map};
ghost use Rattle.mtx_text.specs.Integers.{digits_of, integer_of};
ghost use Rattle.mtx_text.specs.code.Capped.{capped};

/// Above every limit of the grammar: a greater size is read as this one.
pub(crate) const CAP: u64 = 1_000_000_000_000_000_000;

/// An integer by its sign and its size.
#[derive(Clone, Copy)]
pub(crate) struct Integer {
    pub(crate) minus: bool,
    pub(crate) size: u64,
}

/// An integer word: a sign or none, and one or more decimal digits.
pub(crate) fn read_integer(word: &[u8]) -> Option<Integer>
    ensures { result ≡ option_map capped (integer_of word.now) }
{
    match word {
        [b'+', digits @ ..] => Some(Integer {
            minus: false,
            size: read_digits(digits)?,
        }),
        [b'-', digits @ ..] => Some(Integer {
            minus: true,
            size: read_digits(digits)?,
        }),
        _ => Some(Integer {
            minus: false,
            size: read_digits(word)?,
        }),
    }
}

/// The number that one or more decimal digits spell, or the cap if that is less.
fn read_digits(digits: &[u8]) -> Option<u64>
    ensures { result ≡ option_map (λ n. min n 1_000_000_000_000_000_000) (digits_of digits.now) }
{
    if digits.is_empty() {
        return None;
    }
    let mut size: u64 = 0;
    for b in digits {
        if !b.is_ascii_digit() {
            return None;
        }
        size = (size * 10 + (*b - b'0') as u64).min(CAP);
    }
    Some(size)
}
