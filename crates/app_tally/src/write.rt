//! tally's answer as text.

ghost use Rattle.std.specs.Prelude.{◌<◌};
ghost use Rattle.bale_types.specs.Out.{Writes};
ghost use Rattle.app_tally.specs.Counts.{count_text, tally_text};

use crate::counts::Counts;
use bale_types::{Failed, Line, Out, Sink};

/// Writes for each distinct line, in the order of bytes, how many times it was read, one space, the
/// line and LF. No memory is taken.
///
/// # Errors
///
/// `Failed` if the sink's faults rose in this call.
pub fn tally_write<K: Sink>(c: &Counts, out: &mut Out<'_, K>) -> Result<(), Failed>
    ensures { Writes K.taken K.faults (tally_text c.now) out.old out.new result }
{
    for i in 0..c.len() {
        write_entry(out, c.line(i), c.times(i))?;
    }
    Ok(())
}

/// Writes one entry.
fn write_entry<K: Sink>(out: &mut Out<'_, K>, line: &[u8], times: u64) -> Result<(), Failed>
    ensures { Writes K.taken K.faults (count_text (line.now, times)) out.old out.new result }
{
    let mut count = Line::new();
    count.number(times);
    count.byte(b' ');
    out.line(&count)?;
    out.text(line)?;
    out.byte(b'\n')
}
