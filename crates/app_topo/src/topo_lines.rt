//! The order as text.

ghost use Rattle.std.specs.Prelude.{◌<◌, ◌+◌, ◌^◌};
ghost use Rattle.bale_types.specs.Out.{Writes};
ghost use Rattle.app_topo.specs.TopoLines.{topo_line, topo_lines};

use crate::order::TopoOrder;
use bale_types::{Failed, Line, Out, Sink};

/// Writes a line for each position of an order: its number, its row and its column, from 1. No
/// memory is taken.
///
/// # Errors
///
/// `Failed` if the sink's faults rose in this call.
pub fn topo_write<K: Sink>(t: &TopoOrder, out: &mut Out<'_, K>) -> Result<(), Failed>
    ensures { Writes K.taken K.faults (topo_lines t.now) out.old out.new result }
{
    for x in 0..t.len() {
        let Some((row, column)) = t.get(x) else {
            unreachable!()
        };
        write_line(out, x as u64, row, column)?;
    }
    Ok(())
}

/// Writes one line.
fn write_line<K: Sink>(out: &mut Out<'_, K>, x: u64, row: u32, column: u32) -> Result<(), Failed>
    requires { x + 1 < 2 ^ 64 }
    ensures { Writes K.taken K.faults (topo_line x (row, column)) out.old out.new result }
{
    let mut line = Line::new();
    line.number(x + 1);
    line.byte(b' ');
    line.number(row as u64 + 1);
    line.byte(b' ');
    line.number(column as u64 + 1);
    line.byte(b'\n');
    out.line(&line)
}
