ghost use Rattle.std.specs.Prelude.{◌≡◌, ◌≤◌, ◌<◌, ◌+◌, ◌++◌, true, false, [], List, ℕ, IfOk, IfErr, IfSome, length, take, drop, vec_len};
ghost use Rattle.std.specs.Io.KnownBytes.{Consumes, IsAtEnd};
ghost use Rattle.plinq_rounds.specs.Streams.{fails};
ghost use Rattle.plinq_rounds.specs.Tallying.{ended};
ghost use Rattle.plinq_text.specs.Lines.{is_whole};

use crate::lines_fault::LinesFault;
use memchr::memrchr;
use std::alloc::Global;
use std::io::Read;
use std::marker::Model;

/// A read that gave so many bytes has more behind it, which is read while it is answered. Less may be all that there is for now. A
/// line of which so many have come is read to its end first: it wouldn't fit twice.
pub(crate) const BESIDE_BYTES: usize = 2_097_152;

/// What was read and isn't answered yet, and room for more.
///
/// One buffer serves any number of readers, one after another. It takes memory at its first read; a line that doesn't fit doubles
/// it.
#[derive(Drop)]
pub struct ReadBuffer {
    bytes: Vec<u8>,
    // So many of them were read. The others are room.
    count: usize,
    first_room: usize,
    ghost within: { count ≤ vec_len bytes },
}

impl Model for ReadBuffer {
    ghost Value = { List ℕ };

    ghost view = { λ b. take b.count b.bytes.items };
}

impl ReadBuffer {
    /// A buffer that takes no memory yet. A read gives at most so many bytes, as long as no line has more.
    pub fn new(alloc: Global, first_room: usize) -> ReadBuffer
        ensures { result ≡ [] }
    {
        ReadBuffer {
            bytes: Vec::new(alloc),
            count: 0,
            first_room,
        }
    }

    /// Leaves out all that was read.
    pub(crate) fn clear(&mut self)
        ensures { self.new ≡ [] }
    {
        self.count = 0;
    }

    /// All that was read.
    pub(crate) fn as_slice(&self) -> &[u8]
        ensures { result.now ≡ self.now }
    {
        self.front(self.count)
    }

    /// The first bytes of what was read.
    pub(crate) fn front(&self, count: usize) -> &[u8]
        requires { count ≤ length self.now }
        ensures { result.now ≡ take count self.now }
    {
        let (front, _) = self.bytes.split_at(count);
        front
    }

    /// One read, after what was read before. Returns how many bytes came, which is none at the reader's end alone.
    pub(crate) fn read<I: Read>(&mut self, reader: &mut I) -> Result<usize, LinesFault>
        ensures came { IfOk result (λ n. (piece : List ℕ) × (length piece ≡ n) × (self.new ≡ self.old ++ piece)
            × Consumes (I.remaining reader.old) (I.remaining reader.new) piece) }
        ensures ended { IfOk result (λ n. n ≡ 0 → IsAtEnd (I.remaining reader.new)) }
        ensures failed { IfErr result (λ fault. fails fault ≡ false) }
    {
        make_room(&mut self.bytes, self.count, self.first_room)?;
        let count = read_after(reader, &mut self.bytes, self.count)?;
        self.count += count;
        Ok(count)
    }

    /// One read, unless one has come already. Returns how many bytes it gave, which stand at the end of what was read.
    pub(crate) fn read_unless<I: Read>(
        &mut self,
        came: Option<usize>,
        reader: &mut I,
    ) -> Result<usize, LinesFault>
        requires { IfSome came (λ n. (n ≤ length self.old) × (n ≡ 0 → IsAtEnd (I.remaining reader.old))) }
        ensures came { IfOk result (λ n. (piece : List ℕ) × (n ≤ length self.new) × (self.new ≡ self.old ++ piece)
            × Consumes (I.remaining reader.old) (I.remaining reader.new) piece) }
        ensures ended { IfOk result (λ n. n ≡ 0 → IsAtEnd (I.remaining reader.new)) }
        ensures failed { IfErr result (λ fault. fails fault ≡ false) }
    {
        match came {
            Some(count) => Ok(count),
            None => self.read(reader),
        }
    }

    /// How many bytes the whole lines have that end in the last bytes of what was read; none if no line ends there.
    pub(crate) fn whole_lines(&self, last: usize) -> usize
        requires { last ≤ length self.now }
        ensures within { result ≤ length self.now }
        ensures whole { is_whole (take result self.now) ≡ true }
    {
        let before = self.count - last;
        let (_, piece) = self.as_slice().split_at(before);
        match memrchr(b'\n', piece) {
            Some(end) => before + end + 1,
            None => 0,
        }
    }

    /// What was read behind the first bytes.
    pub(crate) fn back(&self, count: usize) -> &[u8]
        requires { count ≤ length self.now }
        ensures { result.now ≡ drop count self.now }
    {
        let (_, back) = self.as_slice().split_at(count);
        back
    }

    /// How many bytes whole lines of so many leave.
    pub(crate) fn leaves(&self, whole: usize) -> usize {
        self.count.saturating_sub(whole)
    }

    /// A buffer of the same room that takes no memory yet.
    pub(crate) fn another(&self, alloc: Global) -> ReadBuffer
        ensures { result ≡ [] }
    {
        ReadBuffer::new(alloc, self.first_room)
    }

    /// Holds these bytes alone.
    pub(crate) fn hold(&mut self, text: &[u8]) -> Result<(), LinesFault>
        ensures held { IfOk result (λ _. self.new ≡ text.now) }
        ensures failed { IfErr result (λ fault. fails fault ≡ false) }
    {
        self.count = 0;
        fill(&mut self.bytes, text, self.first_room)?;
        self.count = text.len();
        Ok(())
    }

    /// Gives a last line its line feed if it has none.
    pub(crate) fn end_line(&mut self) -> Result<(), LinesFault>
        ensures ended { IfOk result (λ _. self.new ≡ ended self.old) }
        ensures failed { IfErr result (λ fault. fails fault ≡ false) }
    {
        if ends_whole(self.as_slice()) {
            return Ok(());
        }
        make_room(&mut self.bytes, self.count, self.first_room)?;
        self.bytes[self.count] = b'\n';
        self.count += 1;
        Ok(())
    }

    /// Leaves out so many first bytes.
    pub(crate) fn drop_front(&mut self, count: usize)
        requires { count ≤ length self.old }
        ensures { self.new ≡ drop count self.old }
    {
        if count > 0 {
            self.bytes.copy_within(count..self.count, 0);
            self.count -= count;
        }
    }
}

/// Whether a text's lines are whole.
fn ends_whole(text: &[u8]) -> bool
    ensures { result ≡ is_whole text.now }
{
    match text.split_last() {
        Some((last, _)) => *last == b'\n',
        None => true,
    }
}

/// Doubles a list of which all bytes were read, or gives it its first room.
fn make_room(bytes: &mut Vec<u8>, count: usize, first_room: usize) -> Result<(), LinesFault>
    requires { count ≤ vec_len bytes.old }
    ensures kept { take count bytes.new.items ≡ take count bytes.old.items }
    ensures longer { vec_len bytes.old ≤ vec_len bytes.new }
    ensures room { IfOk result (λ _. count < vec_len bytes.new) }
    ensures failed { IfErr result (λ fault. fails fault ≡ false) }
{
    let len = bytes.len();
    if count < len {
        return Ok(());
    }
    let wanted = if len == 0 { first_room.max(1) } else { 2 * len };
    match bytes.resize(wanted, 0) {
        Ok(()) => Ok(()),
        Err(_) => Err(LinesFault::Memory),
    }
}

/// Writes a text to the front of a list, which is given room for as much again if it has too little.
fn fill(bytes: &mut Vec<u8>, text: &[u8], first_room: usize) -> Result<(), LinesFault>
    ensures filled { IfOk result (λ _. take (length text.now) bytes.new.items ≡ text.now) }
    ensures room { IfOk result (λ _. length text.now ≤ vec_len bytes.new) }
    ensures failed { IfErr result (λ fault. fails fault ≡ false) }
{
    let wanted = text.len().saturating_mul(2).max(first_room);
    if bytes.len() < wanted && bytes.resize(wanted, 0).is_err() {
        return Err(LinesFault::Memory);
    }
    if bytes.len() < text.len() {
        return Err(LinesFault::Memory);
    }
    let (front, _) = bytes.split_at_mut(text.len());
    front.copy_from_slice(text);
    Ok(())
}

/// One read into what comes after so many bytes.
fn read_after<I: Read>(
    reader: &mut I,
    bytes: &mut Vec<u8>,
    before: usize,
) -> Result<usize, LinesFault>
    requires { before < vec_len bytes.old }
    ensures kept { take before bytes.new.items ≡ take before bytes.old.items }
    ensures len { vec_len bytes.new ≡ vec_len bytes.old }
    ensures within { IfOk result (λ n. before + n ≤ vec_len bytes.new) }
    ensures came { IfOk result (λ n. Consumes (I.remaining reader.old) (I.remaining reader.new) (take n (drop before bytes.new.items))) }
    ensures ended { IfOk result (λ n. n ≡ 0 → IsAtEnd (I.remaining reader.new)) }
    ensures failed { IfErr result (λ fault. fails fault ≡ false) }
{
    let (_, room) = bytes.split_at_mut(before);
    match reader.read(room) {
        Ok(count) => Ok(count),
        Err(_) => Err(LinesFault::Read),
    }
}
