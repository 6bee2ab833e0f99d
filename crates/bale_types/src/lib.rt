//! Where bytes come from and where they go, and the fault of a read or a write.
//!
//! | Type or call | What it is |
//! |---|---|
//! | `Source`, `Sink` | gives bytes; takes bytes; both count their failures |
//! | `Failed` | a read or a write failed |
//! | `read_text` | the text of a source, up to so many bytes |
//! | `MemSource`, `MemSink` | a source and a sink in memory, which fail at the calls named |
//! | `StdinSource`, `StdoutSink`, `StderrSink` | the standard streams |
//! | `Line` | a line of an answer before it is written |
//! | `Out` | a buffer of 16,384 bytes in front of a sink |
//! | `LineText` | what has a line's text, and lays it into a buffer: a `Line`, or a writer of many lines |
//! | `lay_byte`, `lay_natural_by`, `lay_integer` | lay a byte or a number into a buffer, for a writer of a line an entry |
//! | `Fours` | the four digits of each number below 10,000, for such a writer |
//!
//! An answer goes out line by line: a `Line` is put together in place, `Out::line` takes it, and
//! the `Out` hands its buffer to the sink each time that it is full, and at `Out::flush`. After a
//! failure a sink holds a prefix of what was appended, the rest still waits in the `Out`, and the
//! sink's count of faults rose.
//!
//! The definitions, in the order in which to read them: `Stream` (sources and sinks), `Out`,
//! `Memory` and `Digits`.
#![tactic(auto)]

mod digits;
mod fault;
mod fours;
mod line;
mod memory;
mod out;
mod standard;
mod stream;
mod text;

pub use bale_items::{Entry, Item, NoMemory, Steps, Tag, Triple, bits_of, value_of};
pub use digits::{lay_byte, lay_integer, lay_natural_by};
pub use fault::Failed;
pub use fours::Fours;
pub use line::{LINE_ROOM, Line, LineText};
pub use memory::{MemSink, MemSource};
pub use out::Out;
pub use standard::{StderrSink, StdinSource, StdoutSink};
pub use stream::{Sink, Source};
pub use text::{Unread, read_text};
