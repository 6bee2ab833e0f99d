//! Numbers below 10,000 and their four digits, so that a writer of many looks them up.
ghost use Rattle.std.specs.Prelude.{◌≡◌, ◌<◌};
ghost use Rattle.bale_types.specs.Digits.{four, AreDigits};

/// How many numbers have at most four digits.
const COUNT: usize = 10_000;

/// The four digits of each number below 10,000, with zeros in front: 40,000 bytes, made once for
/// many lines.
#[derive(Drop)]
pub struct Fours {
    /// Those of number `n` at index `n`.
    digits: [[u8; 4]; COUNT],
    ghost digits_are: { AreDigits 10000 digits },
}

impl Fours {
    /// The digits of all of them.
    pub fn new() -> Fours {
        let mut digits = [[0; 4]; COUNT];
        for n in 0..COUNT {
            digits[n] = four_of(n as u32);
        }
        Fours { digits }
    }

    /// The digits of `n`.
    #[inline(always)]
    pub(crate) fn of(&self, n: u32) -> [u8; 4]
        requires { n < 10_000 }
        ensures { result ≡ four n }
    {
        self.digits[n as usize]
    }
}

/// The four digits of a number, the first of them first.
fn four_of(n: u32) -> [u8; 4]
    requires { n < 10_000 }
    ensures { result ≡ four n }
{
    let (high, low) = (n / 100, n % 100);
    [
        b'0' + (high / 10) as u8,
        b'0' + (high % 10) as u8,
        b'0' + (low / 10) as u8,
        b'0' + (low % 10) as u8,
    ]
}
