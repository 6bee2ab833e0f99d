//! Lines behind numbers that tell their order.

ghost use Rattle.std.specs.Prelude.{◌≡◌, ◌<◌, length};
ghost use Rattle.app_tally.specs.Numbers.{front_number};

/// A line behind the number that its first sixteen bytes are, and how many times it came. If two
/// numbers differ they tell the order of the lines, so that hardly a line is looked at while lines
/// are sorted.
pub(crate) type Numbered<'a> = (u128, &'a [u8], u64);

/// A line behind its number, and how many times it came.
#[inline(always)]
pub(crate) fn numbered(line: &[u8], times: u64) -> Numbered<'_>
    ensures number { result.0 ≡ front_number 16 line.now }
    ensures line { result.1.now ≡ line.now }
    ensures times { result.2 ≡ times }
{
    match line.first_chunk::<16>() {
        Some(front) => (number_of(*front), line, times),
        None => (short_number(line), line, times),
    }
}

/// The number that sixteen bytes are.
#[inline(always)]
fn number_of(bytes: [u8; 16]) -> u128
    ensures { result ≡ front_number 16 bytes }
{
    u128::from_be_bytes(bytes)
}

/// The number of a line of fewer bytes.
fn short_number(line: &[u8]) -> u128
    requires { length line.now < 16 }
    ensures { result ≡ front_number 16 line.now }
{
    let mut front = [0u8; 16];
    front[..line.len()].copy_from_slice(line);
    number_of(front)
}
