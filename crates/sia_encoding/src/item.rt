//! What a value owes that has a spelling of its own, so that lists and records are made of it.
ghost use Rattle.std.specs.Prelude.{◌≡◌, ℕ, List as Sequence, ◌++◌, length, take, Result, IfOk, OnOk, OnErr};
ghost use Rattle.sia_encoding.specs.Answer.{Answers};
ghost use Rattle.sia_encoding.specs.Codec.{Codec, Lawful};
ghost use Rattle.sia_encoding.specs.Decoding.{IsDecoded, front_at};
ghost use Rattle.sia_encoding.specs.Reading.{fault_told};

use crate::blob::Blob;
use crate::cursor::Cursor;
use crate::fault::DecodeFault;
use std::alloc::{AllocError, Global};

/// A value that has one spelling, and is read back from it whatever follows.
///
/// A type gives [`Item::read`], [`Item::write`] and [`Item::copy`], each over its fields; the other calls stand on them.
pub trait Item: Drop {
    /// How it is spelled and read, and which values fit a limit of lengths and counts.
    ghost codec: { Codec Self };

    /// Reads one value and goes on behind it, or answers the first fault: then nothing is said of where the cursor stands,
    /// and [`Item::take`] stays.
    fn read(alloc: Global, cursor: &mut Cursor<'_>) -> Result<Self, DecodeFault>
        ensures { Answers (λ value. (value, cursor.new)) fault_told result (codec.reading cursor.old) };

    /// Appends the value's spelling. Its error is want of memory: some of it may then stand behind what was there.
    fn write(&self, out: &mut Blob) -> Result<(), AllocError>
        ensures ok { OnOk result (out.new ≡ out.old ++ codec.spelled self.now) }
        ensures err { OnErr result (take (length out.old) out.new ≡ out.old) };

    /// An equal value. Its error is want of memory.
    fn copy(&self, alloc: Global) -> Result<Self, AllocError>
        ensures { IfOk result (λ value. value ≡ self.now) };

    /// Each value has one spelling, what is read is spelled so, what is spelled so within the limit is read whatever
    /// follows, and no spelling is a proper prefix of another.
    ghost law: { Lawful codec };

    /// Reads one value and goes on behind it, or answers the first fault and stays.
    final fn take(alloc: Global, cursor: &mut Cursor<'_>) -> Result<Self, DecodeFault>
        ensures reading { Answers (λ value. (value, cursor.new)) fault_told result (codec.reading cursor.old) }
        ensures kept { OnErr result (cursor.new ≡ cursor.old) }
    {
        let mut ahead = cursor.copy();
        let value = Self::read(alloc, &mut ahead)?;
        *cursor = ahead;
        Ok(value)
    }

    /// Appends the value's spelling to the bytes that are there. Its error is want of memory: `out` stays.
    final fn encode(&self, out: &mut Blob) -> Result<(), AllocError>
        ensures ok { OnOk result (out.new ≡ out.old ++ codec.spelled self.now) }
        ensures err { OnErr result (out.new ≡ out.old) }
    {
        let before = out.len();
        if self.write(out).is_err() {
            out.truncate(before);
            return Err(AllocError);
        }
        Ok(())
    }

    /// Reads one value off the front of the bytes, and tells how many bytes it took. A fault is the first from the
    /// left: no length and no count may pass the limit. `Memory` is want of memory and says nothing of the bytes.
    final fn decode(alloc: Global, bytes: &[u8], limit: u64) -> Result<(Self, u64), DecodeFault>
        ensures { IsDecoded codec bytes.now limit result }
    {
        read_front::<Self>(alloc, bytes, limit)
    }
}

// One value off the front of the bytes, and how many bytes it took.
fn read_front<T: Item>(alloc: Global, bytes: &[u8], limit: u64) -> Result<(T, u64), DecodeFault>
    ensures { Answers (λ taken. taken) fault_told result (front_at T.codec bytes.now limit) }
{
    let mut cursor = Cursor::new(bytes, limit);
    let value = T::read(alloc, &mut cursor)?;
    Ok((value, cursor.at()))
}
