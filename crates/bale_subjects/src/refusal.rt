//! Why a run ended without an answer.
ghost use Rattle.std.specs.Prelude.{◌≡◌, ◌≤◌, ◌++◌, [], length, codes, decimal};
ghost use Rattle.bale_types.specs.Stream.{taken_with, IsTakenPrefix};
ghost use Rattle.bale_items.specs.Counters.{RoseOrFull};
ghost use Rattle.bale_types.specs.Out.{appended_bytes};
ghost use Rattle.bale_subjects.specs.Refusals.{bad_line_text, bad_text, refusal_text, status_of, unfit_text};

use crate::unfit::Unfit;
use app_tally::LinesFault;
use bale_types::{Line, Out, Sink};
use mtx_text::BadLine;

/// Why a text isn't what a command is asked of. Lines count from 1.
#[derive(Clone, Copy, PartialEq, Eq, Debug)]
pub enum BadText {
    /// It has no matrix.
    NoMatrix(BadLine),
    /// It is too long to be read as lines; the line of the first byte too many.
    TooLong { line: u64 },
    /// This line of it is too long, and none before.
    LineTooLong { line: u64 },
}

/// Why a run ended without an answer; each has a status of its own.
#[derive(Clone, Copy, PartialEq, Eq, Debug)]
pub enum Refusal {
    /// The words are no command.
    Usage,
    /// The source failed.
    ReadFault,
    /// The text isn't what the command is asked of.
    BadText(BadText),
    /// The command doesn't fit the matrix.
    Unfit(Unfit),
    /// The sink for the answer failed.
    WriteFault,
    /// An allocation was refused.
    NoMemory,
}

impl From<mtx_text::ReadFault> for Refusal {
    ghost use Rattle.std.specs.Prelude.{◌≡◌};
    ghost use Rattle.bale_subjects.specs.Subjects.{refusal_of};

    ghost from_gives = { λ fault refusal. refusal ≡ refusal_of fault };

    fn from(fault: mtx_text::ReadFault) -> Refusal {
        match fault {
            mtx_text::ReadFault::Source => Refusal::ReadFault,
            mtx_text::ReadFault::Bad(line) => Refusal::BadText(BadText::NoMatrix(line)),
            mtx_text::ReadFault::NoMemory => Refusal::NoMemory,
        }
    }
}

impl From<LinesFault> for Refusal {
    ghost use Rattle.std.specs.Prelude.{◌≡◌};
    ghost use Rattle.bale_subjects.specs.Subjects.{lines_refusal};

    ghost from_gives = { λ fault refusal. refusal ≡ lines_refusal fault };

    fn from(fault: LinesFault) -> Refusal {
        match fault {
            LinesFault::Source => Refusal::ReadFault,
            LinesFault::TooLong { line } => Refusal::BadText(BadText::TooLong { line }),
            LinesFault::LineTooLong { line } => Refusal::BadText(BadText::LineTooLong { line }),
            LinesFault::NoMemory => Refusal::NoMemory,
        }
    }
}

impl From<bale_items::NoMemory> for Refusal {
    ghost use Rattle.std.specs.Prelude.{◌≡◌};
    ghost use Rattle.bale_subjects.specs.declared.refusal.Refusal.TheVariants.{NoMemory};

    ghost from_gives = { λ _ refusal. refusal ≡ NoMemory };

    fn from(_: bale_items::NoMemory) -> Refusal {
        Refusal::NoMemory
    }
}

impl Refusal {
    /// The exit status.
    #[tactic(auto, unfolding(crate::specs::Refusals::status_of))]
    pub fn status(self) -> u8
        ensures { result ≡ status_of self }
    {
        match self {
            Refusal::Usage => 2,
            Refusal::ReadFault => 3,
            Refusal::WriteFault => 4,
            Refusal::BadText(_) => 5,
            Refusal::Unfit(_) => 6,
            Refusal::NoMemory => 7,
        }
    }
}

/// Says on `err` why there is no answer. A failing write changes nothing but what was said.
pub fn report<E: Sink>(err: &mut E, refusal: Refusal)
    ensures said { ¬ RoseOrFull (E.faults err.old) (E.faults err.new) → E.taken err.new
        ≡ taken_with (E.taken err.old) (refusal_text refusal) }
    ensures front { IsTakenPrefix (E.taken err.new) (taken_with (E.taken err.old) (refusal_text refusal)) }
    ensures held { IsTakenPrefix (E.taken err.old) (E.taken err.new) }
    ensures never_falls { E.faults err.old ≤ E.faults err.new }
{
    let line = line_of(refusal);
    let mut out = Out::new(err);
    say(&mut out, line.bytes())
}

/// Hands the bytes through to the sink.
fn say<E: Sink>(out: &mut Out<'_, E>, bytes: &[u8])
    ensures said { ¬ RoseOrFull (E.faults out.old.sink.now) (E.faults out.new.sink.now)
        → E.taken out.new.sink.now ≡ taken_with (appended_bytes E.taken out.old) bytes.now }
    ensures front { IsTakenPrefix (E.taken out.new.sink.now) (taken_with (appended_bytes E.taken out.old) bytes.now) }
    ensures never_falls { E.faults out.old.sink.now ≤ E.faults out.new.sink.now }
    ensures held { IsTakenPrefix (E.taken out.old.sink.now) (E.taken out.new.sink.now) }
    ensures same_sink { out.new.sink.ghost_name ≡ out.old.sink.ghost_name }
{
    if out.text(bytes).is_ok() {
        let _ = out.flush();
    }
}

#[tactic(auto, unfolding(crate::specs::Refusals::refusal_text))]
fn line_of(refusal: Refusal) -> Line
    ensures { result ≡ refusal_text refusal }
{
    let mut line = Line::new();
    match refusal {
        Refusal::Usage => line.text(b"bale: usage\n"),
        Refusal::ReadFault => line.text(b"bale: read fault\n"),
        Refusal::BadText(bad) => bad_text(&mut line, bad),
        Refusal::Unfit(unfit) => line.text(text_of_unfit(unfit)),
        Refusal::WriteFault => line.text(b"bale: write fault\n"),
        Refusal::NoMemory => line.text(b"bale: no memory\n"),
    }
    line
}

#[tactic(auto, unfolding(crate::specs::Refusals::bad_text))]
fn bad_text(line: &mut Line, bad: BadText)
    requires { line.old ≡ [] }
    ensures { line.new ≡ bad_text bad }
{
    match bad {
        BadText::NoMatrix(bad) => bad_line(line, bad),
        BadText::TooLong { line: n } => numbered(line, n, b": too long\n"),
        BadText::LineTooLong { line: n } => numbered(line, n, b": line too long\n"),
    }
}

/// A line's number, and what is said of it.
fn numbered(line: &mut Line, n: u64, why: &[u8])
    requires empty { line.old ≡ [] }
    requires short { length why.now ≤ 16 }
    ensures { line.new ≡ codes "bale: line " ++ decimal n ++ why.now }
{
    line.text(b"bale: line ");
    line.number(n);
    line.text(why);
}

#[tactic(auto, using(crate::proofs::Reasons::reason_short), unfolding(crate::specs::Refusals::bad_line_text))]
fn bad_line(line: &mut Line, bad: BadLine)
    requires { line.old ≡ [] }
    ensures { line.new ≡ bad_line_text bad }
{
    line.text(b"bale: line ");
    line.number(bad.line);
    line.text(b": ");
    line.text(bad.reason.text().as_bytes());
    line.byte(b'\n');
}

#[tactic(auto, unfolding(crate::specs::Refusals::unfit_text))]
fn text_of_unfit(unfit: Unfit) -> &'static [u8]
    ensures text { result.now ≡ unfit_text unfit }
    ensures short { length result.now ≤ 64 }
{
    match unfit {
        Unfit::ExstackGrid => b"bale: unfit: exstack needs a grid of one number\n",
        Unfit::NotSquare => b"bale: unfit: matrix is not square\n",
        Unfit::NegativeWeight => b"bale: unfit: negative weight\n",
        Unfit::Source => b"bale: unfit: source out of range\n",
        Unfit::RowPermutation => b"bale: unfit: row permutation\n",
        Unfit::ColumnPermutation => b"bale: unfit: column permutation\n",
        Unfit::SerialSize => b"bale: unfit: too large for the serial drive\n",
        Unfit::DeltaRows => b"bale: unfit: too many rows for delta on the serial drive\n",
    }
}
