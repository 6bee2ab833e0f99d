//! A matrix as text.
ghost use Rattle.std.specs.Prelude.{◌≡◌, ◌≤◌, ◌<◌, Ok, length};
ghost use Rattle.std.specs.List.{flat_map};
ghost use Rattle.bale_types.specs.Out.{Writes};
ghost use Rattle.bale_items.specs.declared.triple.Triple.{Triple};
ghost use Rattle.mtx_text.specs.Grammar.{matrix_of};
ghost use Rattle.mtx_text.specs.Written.{banner_text, size_text, entry_text, text_of};

use crate::entry_line::EntryLine;
use crate::kind::Kind;
use crate::matrix::Matrix;
use bale_items::Triple;
use bale_types::{Failed, Line, Out, Sink};

/// Appends the text of a matrix: banner, sizes, and a line for each entry in the order of its list.
/// Takes no memory. What was written is read as the same matrix, if it has no more entries than
/// a text may have.
///
/// # Errors
///
/// `Failed` if the sink's faults rose in this call.
pub fn write_matrix<K: Sink>(m: &Matrix, out: &mut Out<'_, K>) -> Result<(), Failed>
    ensures written { Writes K.taken K.faults (text_of m.now) out.old out.new result }
    ensures read_again { length m.now.entries ≤ 262_144 → matrix_of (text_of m.now) ≡ Ok m.now }
{
    let entries = m.entries();
    write_banner(out, m.kind())?;
    write_sizes(out, m)?;
    write_entries(out, m.kind(), entries)?;
    Ok(())
}

fn write_banner<K: Sink>(out: &mut Out<'_, K>, kind: Kind) -> Result<(), Failed>
    ensures { Writes K.taken K.faults (banner_text kind) out.old out.new result }
{
    match kind {
        Kind::Integer => out.text(b"%%MatrixMarket matrix coordinate integer general\n"),
        Kind::Pattern => out.text(b"%%MatrixMarket matrix coordinate pattern general\n"),
    }
}

fn write_sizes<K: Sink>(out: &mut Out<'_, K>, m: &Matrix) -> Result<(), Failed>
    ensures { Writes K.taken K.faults (size_text m.now) out.old out.new result }
{
    let mut line = Line::new();
    line.number(m.rows() as u64);
    line.byte(b' ');
    line.number(m.cols() as u64);
    line.byte(b' ');
    line.number(m.len() as u64);
    line.byte(b'\n');
    out.line(&line)
}

fn write_entries<K: Sink>(
    out: &mut Out<'_, K>,
    kind: Kind,
    entries: &[Triple],
) -> Result<(), Failed>
    ensures { Writes K.taken K.faults (flat_map (entry_text kind) entries.now) out.old out.new result }
{
    match kind {
        Kind::Integer => write_lines(out, Kind::Integer, entries),
        Kind::Pattern => write_lines(out, Kind::Pattern, entries),
    }
}

/// The lines of entries, compiled for each kind by itself.
#[inline(always)]
fn write_lines<K: Sink>(out: &mut Out<'_, K>, kind: Kind, entries: &[Triple]) -> Result<(), Failed>
    ensures { Writes K.taken K.faults (flat_map (entry_text kind) entries.now) out.old out.new result }
{
    let mut line = EntryLine::new();
    for t in entries {
        line.set(kind, *t);
        out.line(&line)?;
    }
    Ok(())
}
