//! An output buffer in front of a sink, so that many small pieces make few writes.
//!
//! All that was appended is what the sink has taken, and then what the buffer holds: the word
//! `appended_bytes` of the clauses. After a call that failed, the sink holds a prefix of what was
//! appended, and the rest still waits in the buffer: no byte is forgotten, so that a flush that
//! answers Ok has handed on all of them, whatever failed before it. What a sink took stays taken.
//! Nothing here takes memory.
ghost use Rattle.std.specs.Prelude.{◌≡◌, ◌+◌, ◌%◌, ◌<◌, ◌≤◌, [], ◌∷◌, length, take, IfOk, OnOk, OnErr, IsOk};
ghost use Rattle.std.specs.Fmt.{signed_decimal};
ghost use Rattle.bale_types.specs.Stream.{taken_with, CountsFaults, IsTakenPrefix, MovesSome};
ghost use Rattle.bale_types.specs.declared.out.TheConstants.{BUFFER};

use super::fault::Failed;
use super::line::{LINE_ROOM, LineText};
use super::stream::Sink;
use itoa::Buffer;

/// How many bytes are gathered before they are handed to the sink.
const BUFFER: usize = 16_384;

/// A buffer of 16,384 bytes in front of a sink. It is not flushed when it is dropped.
#[derive(Drop)]
pub struct Out<'a, K> {
    /// Where the bytes go.
    sink: &'a mut K,
    /// The bytes that the sink doesn't have yet: the first `len`.
    buffer: [u8; BUFFER],
    /// How many those are; a buffer that becomes full is handed over whole and at once, and is
    /// still full only if that failed.
    len: usize,
    ghost within: { len ≤ BUFFER },
}

impl<'a, K: Sink> Out<'a, K> {
    ghost use Rattle.bale_types.specs.Out.{appended_bytes, Appends, HandsOn};

    /// An empty buffer in front of `sink`.
    pub fn new(sink: &'a mut K) -> Out<'a, K>
        ensures appended { appended_bytes K.taken result ≡ K.taken sink.entry.now }
        ensures taken { K.taken result.sink.now ≡ K.taken sink.entry.now }
        ensures faults { K.faults result.sink.now ≡ K.faults sink.entry.now }
        ensures empty { result.len ≡ 0 }
        ensures same_sink { result.sink.ghost_name ≡ sink.entry.ghost_name }
    {
        Out {
            sink,
            buffer: [0; BUFFER],
            len: 0,
        }
    }

    /// Appends one byte; a buffer that became full is handed to the sink.
    ///
    /// # Errors
    ///
    /// `Failed` if the sink's faults rose in this call.
    pub fn byte(&mut self, b: u8) -> Result<(), Failed>
        ensures { Appends K.taken K.faults (b ∷ []) self.old self.new result }
    {
        self.text(&[b])
    }

    /// Appends bytes in their order; a buffer that became full is handed to the sink.
    ///
    /// # Errors
    ///
    /// `Failed` if the sink's faults rose in this call.
    pub fn text(&mut self, t: &[u8]) -> Result<(), Failed>
        ensures { Appends K.taken K.faults t.now self.old self.new result }
    {
        let mut at = 0;
        while at < t.len() {
            at += self.fill(&t[at..])?;
        }
        Ok(())
    }

    /// Appends a line, which is laid straight into the buffer if that has room for the longest.
    ///
    /// # Errors
    ///
    /// `Failed` if the sink's faults rose in this call.
    #[inline(always)]
    pub fn line<L: LineText>(&mut self, line: &L) -> Result<(), Failed>
        ensures { Appends K.taken K.faults (L.text line.now) self.old self.new result }
    {
        if self.len < BUFFER - LINE_ROOM {
            self.lay(line);
            return Ok(());
        }
        let mut room = [0; LINE_ROOM];
        let len = line.lay(&mut room, 0);
        self.text(&room[..len])
    }

    /// Appends the decimal text of `n`.
    ///
    /// # Errors
    ///
    /// `Failed` if the sink's faults rose in this call.
    pub fn number(&mut self, n: i64) -> Result<(), Failed>
        ensures { Appends K.taken K.faults (signed_decimal n) self.old self.new result }
    {
        let mut buffer = Buffer::new();
        self.text(buffer.format(n).as_bytes())
    }

    /// Hands what the buffer holds to the sink, which then has taken all that was appended. With an
    /// empty buffer no write is made. What the sink didn't take still waits in the buffer.
    ///
    /// # Errors
    ///
    /// `Failed` if the sink's faults rose in this call.
    pub fn flush(&mut self) -> Result<(), Failed>
        ensures ok { OnOk result (K.taken self.new.sink.now ≡ appended_bytes K.taken self.old) }
        ensures emptied { OnOk result (self.new.len ≡ 0) }
        ensures err { OnErr result (IsTakenPrefix (K.taken self.new.sink.now) (appended_bytes K.taken self.old)) }
        ensures kept { appended_bytes K.taken self.new ≡ appended_bytes K.taken self.old }
        ensures no_write { self.old.len ≡ 0 → self.new.sink.now ≡ self.old.sink.now }
        ensures no_failure { self.old.len ≡ 0 → IsOk result }
        ensures sink { HandsOn K.taken K.faults self.old self.new result }
    {
        while self.len > 0 {
            self.len = hand_some(self.sink, &mut self.buffer, self.len)?;
        }
        Ok(())
    }

    /// Appends as many bytes from the front of `t` as fit into the buffer, at least one, and says
    /// how many.
    fn fill(&mut self, t: &[u8]) -> Result<usize, Failed>
        requires { 0 < length t.now }
        ensures some { MovesSome (length t.now) result }
        ensures ok { IfOk result (λ count.
            appended_bytes K.taken self.new ≡ taken_with (appended_bytes K.taken self.old) (take count t.now)) }
        ensures kept { OnErr result (IsTakenPrefix (appended_bytes K.taken self.old) (appended_bytes K.taken
            self.new)) }
        ensures part { OnErr result
            (IsTakenPrefix (appended_bytes K.taken self.new) (taken_with (appended_bytes K.taken self.old) t.now)) }
        ensures gathers { IfOk result (λ count.
            self.old.len + count < BUFFER → self.new.sink.now ≡ self.old.sink.now) }
        ensures waits { IfOk result (λ count. self.new.len ≡ (self.old.len + count) % BUFFER) }
        ensures full { OnErr result (BUFFER ≤ self.old.len + length t.now) }
        ensures sink { HandsOn K.taken K.faults self.old self.new result }
    {
        // Full here only if an earlier call failed.
        self.flush_if_full()?;
        let count = self.copy_in(t);
        self.flush_if_full()?;
        Ok(count)
    }

    /// Hands a full buffer to the sink.
    fn flush_if_full(&mut self) -> Result<(), Failed>
        ensures kept { appended_bytes K.taken self.new ≡ appended_bytes K.taken self.old }
        ensures handed { OnOk result (self.new.len ≡ self.old.len % BUFFER) }
        ensures gathers { self.old.len < BUFFER → self.new ≡ self.old }
        ensures full { OnErr result (self.old.len ≡ BUFFER) }
        ensures sink { HandsOn K.taken K.faults self.old self.new result }
    {
        if self.len == BUFFER {
            self.flush()?;
        }
        Ok(())
    }

    /// Lays a line behind the bytes that the buffer holds.
    #[inline(always)]
    fn lay<L: LineText>(&mut self, line: &L)
        requires { self.old.len + LINE_ROOM < BUFFER }
        ensures appended { appended_bytes K.taken self.new ≡ taken_with (appended_bytes K.taken self.old) (L.text
            line.now) }
        ensures len { self.new.len ≡ self.old.len + length (L.text line.now) }
        ensures room { self.new.len < BUFFER }
        ensures sink { self.new.sink ≡ self.old.sink }
    {
        self.len = line.lay(&mut self.buffer, self.len);
    }

    /// Copies as many bytes from the front of `t` as fit behind those that the buffer holds.
    fn copy_in(&mut self, t: &[u8]) -> usize
        requires some { 0 < length t.now }
        requires room { self.old.len < BUFFER }
        ensures some { 0 < result }
        ensures bound { result ≤ length t.now }
        ensures appended { appended_bytes K.taken self.new ≡ taken_with (appended_bytes K.taken self.old) (take
            result t.now) }
        ensures len { self.new.len ≡ self.old.len + result }
        ensures sink { self.new.sink ≡ self.old.sink }
    {
        let len = self.len;
        let count = t.len().min(BUFFER - len);
        let end = len + count;
        self.buffer[len..end].copy_from_slice(&t[..count]);
        self.len = end;
        count
    }
}

/// Hands some of the first `len` bytes to the sink, by one call; the others come to the front, and
/// it says how many they are.
fn hand_some<K: Sink>(sink: &mut K, buffer: &mut [u8; BUFFER], len: usize) -> Result<usize, Failed>
    requires { (0 < len) × (len ≤ BUFFER) }
    ensures fewer { IfOk result (λ left. left < len) }
    ensures ok { IfOk result (λ left.
        taken_with (K.taken sink.new) (take left buffer.new) ≡ taken_with (K.taken sink.old) (take len buffer.old)) }
    ensures err { OnErr result (K.taken sink.new ≡ K.taken sink.old) }
    ensures grows { IsTakenPrefix (K.taken sink.old) (K.taken sink.new) }
    ensures same { OnErr result (buffer.new ≡ buffer.old) }
    ensures counts { CountsFaults (K.faults sink.old) (K.faults sink.new) result }
{
    let count = sink.write(&buffer[..len])?;
    buffer.copy_within(count..len, 0);
    Ok(len - count)
}
