//! A line cut into words, one word at a time and without a copy.
ghost use Rattle.std.specs.Prelude.{◌≡◌, ◌<◌, [], ◌∷◌, IfNone, IfSome};
ghost use Rattle.std.specs.Option.{option_map};
ghost use Rattle.mtx_text.specs.Lines.{words_of, is_blank};
ghost use Rattle.mtx_text.specs.Grammar.{three_of};
ghost use Rattle.mtx_text.specs.code.Cuts.{BeginsWord, IsTrimmed, WordTo};

/// Three words.
#[derive(Clone, Copy)]
pub(crate) struct Three<'a> {
    pub(crate) first: &'a [u8],
    pub(crate) second: &'a [u8],
    pub(crate) third: &'a [u8],
}

/// What is between words.
#[inline(always)]
pub(crate) fn is_blank(b: u8) -> bool
    ensures { result ≡ is_blank b }
{
    b == b' ' || b == b'\t'
}

/// The line from its first word on.
#[tactic(auto, using(crate::proofs::Cuts::blank_at))]
#[inline(always)]
pub(crate) fn trimmed(line: &[u8]) -> &[u8]
    ensures { IsTrimmed line.now result.now }
{
    for (i, b) in line.iter().enumerate() {
        if !is_blank(*b) {
            return &line[i..];
        }
    }
    &line[line.len()..]
}

/// How many bytes come before the first blank.
fn word_len(line: &[u8]) -> usize
    ensures { WordTo line.now result }
{
    for (i, b) in line.iter().enumerate() {
        if is_blank(*b) {
            return i;
        }
    }
    line.len()
}

/// The first word of a line, and the line behind it.
pub(crate) fn first_word(line: &[u8]) -> Option<(&[u8], &[u8])>
    ensures none { IfNone result (words_of line.now ≡ []) }
    ensures some { IfSome result (λ cut. words_of line.now ≡ cut.0.now ∷ words_of cut.1.now) }
{
    let line = trimmed(line);
    if line.is_empty() {
        return None;
    }
    Some(cut_word(line))
}

/// The first word of a line that begins with one, and the line behind it.
#[tactic(auto, using(crate::proofs::Cuts::word_cut))]
pub(crate) fn cut_word(line: &[u8]) -> (&[u8], &[u8])
    requires { BeginsWord line.now }
    ensures { words_of line.now ≡ result.0.now ∷ words_of result.1.now }
{
    line.split_at(word_len(line))
}

/// The words of a line that has exactly three.
pub(crate) fn three_words(line: &[u8]) -> Option<Three<'_>>
    ensures { option_map (λ t. (t.first.now, t.second.now, t.third.now)) result ≡ three_of (words_of line.now) }
{
    let (first, rest) = first_word(line)?;
    let (second, rest) = first_word(rest)?;
    let (third, rest) = first_word(rest)?;
    match first_word(rest) {
        None => Some(Three {
            first,
            second,
            third,
        }),
        Some(_) => None,
    }
}
