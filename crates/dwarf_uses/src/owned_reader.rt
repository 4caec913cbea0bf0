//! A reader that owns its bytes: the example of a reader of one's own.
//!
//! An implementation of [`Reader`] consists of
//!
//! - the two types, the constant and the calls that have no body in the trait, each call under the
//!   trait's contract;
//! - `view`, which says what contracts see of a reader: the bytes that remain, the position of the
//!   first of them, and whether the highest byte of a number comes first;
//! - `order`, which is the byte order itself;
//! - `clone_is_free`, which says whether a clone can't fail; here it can, so it is `false`;
//! - ghost fields for what holds of every reader of the type, and `within`, which shows from them
//!   that positions stay below 2^64 and lengths are offsets;
//! - a lemma if a contract doesn't follow by itself. Here `truncate` needs one, which
//!   `proofs/CutBytes.antt` says in words.

ghost use Rattle.std.specs.Prelude.{◌≡◌, ◌+◌, ◌-◌, ◌≤◌, ◌<◌, ◌^◌, length, take, drop, All, false, IfOk, IfErr};
ghost use Rattle.std.proofs.Common.{arith, length-drop};
ghost use Rattle.std.proofs.lemmas.List.Elements.{All-drop};
ghost use Rattle.dwarf_read_core.specs.Endian.{is_big_at_run_time};
ghost use Rattle.dwarf_read_core.specs.Input.{Takes};
ghost use Rattle.dwarf_read_core.specs.declared.Error.TheVariants.{OutOfMemory, UnsupportedOffset};

use dwarf_read_core::{EndianSlice, Error, Reader, ReaderOffsetId, Result, RunTimeEndian};
use std::alloc::Global;
use std::borrow::{CowSlice, CowStr};

/// A [`Reader`] that owns its bytes and the allocator for copies of them. Its offsets have 32 bits.
///
/// A clone copies the bytes that remain, so memory for it can run out. The reader also limits its
/// clones: it counts how deep they may go. If that number is 0, `try_clone` and `split` return
/// [`Error::OutOfMemory`]. The reader that they return has one fewer, and the number of the reader
/// itself doesn't change. So a test can make each clone of a call fail in turn.
#[derive(Debug, Drop)]
pub struct OwnedReader {
    alloc: Global,
    bytes: Vec<u8>,
    endian: RunTimeEndian,
    // The bytes before this index were consumed.
    start: usize,
    position: u64,
    // How deep clones may go.
    depth: u8,
    ghost starts: { start ≤ length bytes.items },
    ghost positions: { position + (length bytes.items - start) < 2 ^ 64 },
    ghost lengths: { length bytes.items < 2 ^ 32 },
    ghost are_bytes: { All (λ b. b < 256) bytes.items },
}

impl OwnedReader {
    /// Returns a reader of these bytes at position 0, whose clones may go `depth` deep.
    ///
    /// # Errors
    ///
    /// [`Error::UnsupportedOffset`] exactly if the number of bytes doesn't fit 32 bits.
    pub fn new(
        alloc: Global,
        bytes: Vec<u8>,
        endian: RunTimeEndian,
        depth: u8,
    ) -> Result<OwnedReader>
        ensures ok { IfOk result (λ reader. ⟦<OwnedReader as Reader>⟧.view reader
            ≡ record { bytes = bytes.items; position = 0; is_big = is_big_at_run_time endian }) }
        ensures err { IfErr result (λ e. (e ≡ UnsupportedOffset) × (2 ^ 32 ≤ length bytes.items)) }
    {
        if u32::try_from(bytes.len()).is_err() {
            return Err(Error::UnsupportedOffset);
        }
        Ok(OwnedReader {
            alloc,
            bytes,
            endian,
            start: 0,
            position: 0,
            depth,
        })
    }

    // The bytes that remain.
    fn rest(&self) -> &[u8]
        ensures { result.now ≡ drop self.now.start self.now.bytes.items }
    {
        &self.bytes[self.start..]
    }

    // Consumes bytes that remain.
    fn advance(&mut self, len: usize)
        requires { len ≤ length (drop self.old.start self.old.bytes.items) }
        ensures taken { Takes len (⟦<OwnedReader as Reader>⟧.view self.old)
            (⟦<OwnedReader as Reader>⟧.view self.new) }
        ensures endian { self.new.endian ≡ self.old.endian }
    {
        self.start += len;
        self.position += len as u64;
    }

    // A reader of the first bytes that remain.
    fn part(&self, len: usize) -> Result<OwnedReader>
        requires { len ≤ length (drop self.now.start self.now.bytes.items) }
        ensures bytes { IfOk result (λ part. drop part.start part.bytes.items
            ≡ take len (drop self.now.start self.now.bytes.items)) }
        ensures position { IfOk result (λ part. part.position ≡ self.now.position) }
        ensures endian { IfOk result (λ part. part.endian ≡ self.now.endian) }
        ensures err { IfErr result (λ e. e ≡ OutOfMemory) }
    {
        if self.depth == 0 {
            return Err(Error::OutOfMemory);
        }
        let bytes = Vec::from_slice(self.alloc, &self.rest()[..len])?;
        Ok(OwnedReader {
            alloc: self.alloc,
            bytes,
            endian: self.endian,
            start: 0,
            position: self.position,
            depth: self.depth - 1,
        })
    }
}

impl Reader for OwnedReader {
    type Endian = RunTimeEndian;

    type Offset = u32;

    const CLONE_IS_FREE: bool = false;

    ghost clone_is_free = { false };

    ghost view = { λ r. record {
      bytes = drop r.start r.bytes.items;
      position = r.position;
      is_big = is_big_at_run_time r.endian;
    } };

    ghost order = { λ r. r.endian };

    ghost within = { λ r. record {
      positions = Prim.omega (arith, length-drop r.start r.bytes.items, r.positions, r.starts);
      lengths = Prim.omega (arith, length-drop r.start r.bytes.items, r.lengths);
      bytes = All-drop (λ b. b < 256) r.start r.bytes.items r.are_bytes;
    } };

    fn is_clone_free(&self) -> bool {
        false
    }

    fn try_clone(&self) -> Result<Self> {
        self.part(self.rest().len())
    }

    fn endian(&self) -> RunTimeEndian {
        self.endian
    }

    fn len(&self) -> u32 {
        self.rest().len() as u32
    }

    fn empty(&mut self) {
        self.bytes.truncate(self.start);
    }

    #[tactic(auto, using(crate::proofs::CutBytes::cut_steps))]
    fn truncate(&mut self, len: u32) -> Result<()> {
        if self.rest().len() < len as usize {
            return Err(Error::UnexpectedEof(self.offset_id()));
        }
        self.bytes.truncate(self.start + len as usize);
        Ok(())
    }

    fn offset_from(&self, base: &Self) -> u32 {
        (self.position - base.position) as u32
    }

    fn offset_id(&self) -> ReaderOffsetId {
        ReaderOffsetId(self.position)
    }

    fn lookup_offset_id(&self, id: ReaderOffsetId) -> Option<u32> {
        if id.0 >= self.position && id.0 - self.position <= self.rest().len() as u64 {
            Some((id.0 - self.position) as u32)
        } else {
            None
        }
    }

    fn find(&self, byte: u8) -> Result<u32> {
        match EndianSlice::new(self.rest(), self.endian).find(byte) {
            Some(index) => Ok(index as u32),
            None => Err(Error::UnexpectedEof(self.offset_id())),
        }
    }

    fn skip(&mut self, len: u32) -> Result<()> {
        if self.rest().len() < len as usize {
            return Err(Error::UnexpectedEof(self.offset_id()));
        }
        self.advance(len as usize);
        Ok(())
    }

    fn split(&mut self, len: u32) -> Result<Self> {
        if self.rest().len() < len as usize {
            return Err(Error::UnexpectedEof(self.offset_id()));
        }
        let part = self.part(len as usize)?;
        self.advance(len as usize);
        Ok(part)
    }

    fn to_slice(&self) -> Result<CowSlice<'_, u8>> {
        Ok(CowSlice::Borrowed(self.rest()))
    }

    fn to_string(&self) -> Result<CowStr<'_>> {
        match str::from_utf8(self.rest()) {
            Ok(text) => Ok(CowStr::Borrowed(text)),
            Err(_) => Err(Error::BadUtf8),
        }
    }

    fn to_string_lossy(&self, mem: Global) -> Result<CowStr<'_>> {
        Ok(CowStr::Owned(String::from_utf8_lossy(mem, self.rest())?))
    }

    fn read_slice(&mut self, buf: &mut [u8]) -> Result<()> {
        let len = buf.len();
        if self.rest().len() < len {
            return Err(Error::UnexpectedEof(self.offset_id()));
        }
        buf.copy_from_slice(&self.rest()[..len]);
        self.advance(len);
        Ok(())
    }
}
