//! The line of a vertex in an answer.

ghost use Rattle.std.specs.Prelude.{◌≡◌, ◌<◌, ◌≤◌, ◌+◌, ◌^◌, ◌++◌, length};
ghost use Rattle.bale_types.specs.Out.{Writes};
ghost use Rattle.least_walks.specs.Lines.{weight_text, vertex_line};

use bale_types::{Failed, Line, Out, Sink};

/// Writes the line of vertex `v`: its number from 1, and its weight or `-`. No memory is taken.
///
/// # Errors
///
/// `Failed` if the sink's faults rose in this call.
pub fn write_vertex<K: Sink>(
    out: &mut Out<'_, K>,
    v: u32,
    weight: Option<u64>,
) -> Result<(), Failed>
    requires { v + 1 < 2 ^ 32 }
    ensures { Writes K.taken K.faults (vertex_line v weight) out.old out.new result }
{
    let mut line = Line::new();
    line.number((v + 1) as u64);
    line.byte(b' ');
    put_weight(&mut line, weight);
    line.byte(b'\n');
    out.line(&line)
}

/// Appends a weight, or `-` if there is none.
fn put_weight(line: &mut Line, weight: Option<u64>)
    requires { length line.old + 20 ≤ 64 }
    ensures bytes { line.new ≡ line.old ++ weight_text weight }
    ensures len { length line.new ≤ length line.old + 20 }
{
    match weight {
        None => line.byte(b'-'),
        Some(n) => line.number(n),
    }
}
