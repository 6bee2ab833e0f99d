//! The banner: kind and symmetry of a matrix.
ghost use Rattle.std.specs.Prelude.{◌≡◌};
ghost use Rattle.std.specs.Option.{option_map};
ghost use Rattle.mtx_text.specs.Lines.{words_of};
ghost use Rattle.mtx_text.specs.Grammar.{five_of, form_of, kind_of, symmetry_of, profile_form, spells};

use crate::kind::Kind;
use crate::refusal::Reason;
use crate::words::first_word;

/// Which entries have a mirror.
#[derive(Clone, Copy)]
pub enum Symmetry {
    General,
    Symmetric,
    SkewSymmetric,
}

/// What a banner says.
#[derive(Clone, Copy)]
pub struct Form {
    pub(crate) kind: Kind,
    pub(crate) symmetry: Symmetry,
}

/// The words of line 1 that count.
#[derive(Clone, Copy)]
struct Five<'a> {
    first: &'a [u8],
    object: &'a [u8],
    format: &'a [u8],
    field: &'a [u8],
    symmetry: &'a [u8],
}

/// The form that line 1 names.
pub(crate) fn read_form(line: &[u8]) -> Result<Form, Reason>
    ensures { result ≡ form_of (words_of line.now) }
{
    let Some(five) = five_words(line) else {
        return Err(Reason::Banner);
    };
    if five.first != b"%%MatrixMarket".as_slice() {
        return Err(Reason::Banner);
    }
    if !spells(b"matrix", five.object) {
        return Err(Reason::Unsupported);
    }
    if !spells(b"coordinate", five.format) {
        return Err(Reason::Unsupported);
    }
    match accept(read_kind(five.field), read_symmetry(five.symmetry)) {
        Some(form) => Ok(form),
        None => Err(Reason::Unsupported),
    }
}

/// The first five words of a line.
fn five_words(line: &[u8]) -> Option<Five<'_>>
    ensures { option_map (λ f. (f.first.now, f.object.now, f.format.now, f.field.now, f.symmetry.now)) result
        ≡ five_of (words_of line.now) }
{
    let (first, rest) = first_word(line)?;
    let (object, rest) = first_word(rest)?;
    let (format, rest) = first_word(rest)?;
    let (field, rest) = first_word(rest)?;
    let (symmetry, _) = first_word(rest)?;
    Some(Five {
        first,
        object,
        format,
        field,
        symmetry,
    })
}

/// Whether a word is the lowercase one given, without regard to ASCII case.
fn spells(text: &[u8], word: &[u8]) -> bool
    ensures { result ≡ spells text.now word.now }
{
    word.eq_ignore_ascii_case(text)
}

fn read_kind(word: &[u8]) -> Option<Kind>
    ensures { result ≡ kind_of word.now }
{
    if spells(b"integer", word) {
        Some(Kind::Integer)
    } else if spells(b"pattern", word) {
        Some(Kind::Pattern)
    } else {
        None
    }
}

fn read_symmetry(word: &[u8]) -> Option<Symmetry>
    ensures { result ≡ symmetry_of word.now }
{
    if spells(b"general", word) {
        Some(Symmetry::General)
    } else if spells(b"symmetric", word) {
        Some(Symmetry::Symmetric)
    } else if spells(b"skew-symmetric", word) {
        Some(Symmetry::SkewSymmetric)
    } else {
        None
    }
}

/// The profile: each kind with each symmetry, but for pattern with skew-symmetric.
fn accept(kind: Option<Kind>, symmetry: Option<Symmetry>) -> Option<Form>
    ensures { result ≡ profile_form kind symmetry }
{
    let kind = kind?;
    let symmetry = symmetry?;
    match (kind, symmetry) {
        (Kind::Pattern, Symmetry::SkewSymmetric) => None,
        _ => Some(Form { kind, symmetry }),
    }
}
