//! A range of a buffer that has several owners.
ghost use Rattle.std.specs.Prelude.{◌≡◌, ◌≤◌, ◌%◌, ℕ, List, IfOk, IfErr, IfSome, length, slice_range};
ghost use Rattle.foyer_device_page.specs.declared.error.Error.TheVariants as error;

use super::raw::Raw;
use super::slices_mut::IoSliceMut;
use super::views::{IoB, IoBuf};
use crate::error::Result;
use std::alloc::{AllocFailed, Allocator};
use std::convert::AsSlice;
use std::marker::Model;
use std::ops::Range;
use std::sync::Arc;

/// A range of whole pages of a buffer that may have other owners.
#[derive(Debug)]
pub struct IoSlice<A: Allocator> {
    raw: Arc<Raw<A>, A>,
    start: usize,
    end: usize,
}

// Written out, so that it is proved once.
impl<A: Allocator> Drop for IoSlice<A> {
    fn drop(self) {
        let IoSlice {
            raw: _,
            start: _,
            end: _,
        } = self;
    }
}

impl<A: Allocator> Model for IoSlice<A> {
    ghost use Rattle.std.specs.Prelude.{◌≡◌, ◌≤◌, ◌%◌, length};
    ghost use Rattle.std.specs.Arc.{arc_value};
    ghost use Rattle.foyer_device_page.specs.Section.{Section};

    ghost Value = { Section };

    ghost view = { λ s. record { whole = arc_value s.raw; start = s.start; end = s.end } };

    ghost invariant = { λ s. (s.start ≤ s.end) × (s.end ≤ length (arc_value s.raw))
        × (s.start % 4096 ≡ 0) × (s.end % 4096 ≡ 0) };
}

impl<A: Allocator> IoSlice<A> {
    ghost use Rattle.foyer_device_page.specs.Section.{all_of, bytes_of, part_of};

    /// Makes a slice of a whole buffer. If memory was refused, the error has the buffer.
    pub fn from_raw(alloc: A, raw: Raw<A>) -> std::result::Result<IoSlice<A>, AllocFailed<Raw<A>>>
        ensures all { IfOk result (λ s. s ≡ all_of raw) }
        ensures handed_back { IfErr result (λ e. e.value ≡ raw) }
    {
        let end = raw.len();
        let raw = Arc::new(alloc, raw)?;
        Ok(IoSlice { raw, start: 0, end })
    }

    /// Its bytes.
    pub fn as_slice(&self) -> &[u8]
        ensures value { result.now ≡ bytes_of self.now }
        ensures pages { length result.now % 4096 ≡ 0 }
    {
        &self.raw.as_slice()[self.start..self.end]
    }

    /// How many bytes it has.
    pub fn len(&self) -> usize
        ensures value { result ≡ length (bytes_of self.now) }
        ensures pages { result % 4096 ≡ 0 }
    {
        self.end - self.start
    }

    /// Gives a range of these bytes, counted from their start, as one more owner of the buffer. The
    /// range begins and ends at a page. Nothing is copied. Error: Memory if the owners can't be
    /// counted any more.
    #[tactic(auto, using(crate::proofs::Parts::parts))]
    pub fn slice(&self, range: Range<usize>) -> Result<IoSlice<A>>
        requires start { range.start % 4096 ≡ 0 }
        requires end { range.end % 4096 ≡ 0 }
        requires order { range.start ≤ range.end }
        requires within { range.end ≤ length (bytes_of self.now) }
        ensures part { IfOk result (λ s. s ≡ part_of self.now range.start range.end) }
        ensures bytes { IfOk result (λ s. bytes_of s
            ≡ slice_range (bytes_of self.now) range.start range.end) }
        ensures memory { IfErr result (λ e. e ≡ error.Memory) }
    {
        prove!(range.end <= self.end - self.start);
        let raw = Arc::try_clone(&self.raw)?;
        Ok(IoSlice {
            raw,
            start: self.start + range.start,
            end: self.start + range.end,
        })
    }

    /// Gives the whole buffer, to be written over. If the buffer has another owner, gives this slice
    /// as `Err`.
    pub fn try_into_unique(self) -> std::result::Result<IoSliceMut<A>, IoSlice<A>>
        ensures whole { IfOk result (λ m. m ≡ self.whole) }
        ensures handed_back { IfErr result (λ s. s ≡ self) }
    {
        let IoSlice { raw, start, end } = self;
        match Arc::try_unwrap(raw) {
            Ok(raw) => Ok(IoSliceMut::from_raw(raw)),
            Err(raw) => Err(IoSlice { raw, start, end }),
        }
    }

    /// Gives the whole buffer, to be written over, and `None` if the buffer has another owner.
    pub fn try_into_io_slice_mut(self) -> Option<IoSliceMut<A>>
        ensures { IfSome result (λ m. m ≡ self.whole) }
    {
        let IoSlice {
            raw,
            start: _,
            end: _,
        } = self;
        match Arc::into_inner(raw) {
            Some(raw) => Some(IoSliceMut::from_raw(raw)),
            None => None,
        }
    }
}

impl<A: Allocator> PartialEq for IoSlice<A> {
    ghost use Rattle.foyer_device_page.specs.Section.{section_eq, section_per};

    ghost eq = { section_eq };

    ghost laws = { section_per };

    fn eq(&self, other: &IoSlice<A>) -> bool {
        self.raw.as_slice() == other.raw.as_slice()
            && self.start == other.start
            && self.end == other.end
    }
}

impl<A: Allocator> Eq for IoSlice<A> {
    ghost use Rattle.foyer_device_page.specs.Section.{section_equiv};

    ghost laws = { section_equiv };
}

impl<A: Allocator> AsSlice<u8> for IoSlice<A> {
    ghost use Rattle.foyer_device_page.specs.Section.{bytes_of};

    ghost items = { bytes_of };

    fn as_slice(&self) -> &[u8] {
        self.as_slice()
    }
}

impl<A: Allocator> IoB for IoSlice<A> {
    ghost use Rattle.foyer_device_page.specs.Section.{bytes_of};

    ghost bytes = { bytes_of };

    fn as_slice(&self) -> &[u8] {
        self.as_slice()
    }
}

impl<A: Allocator> IoBuf for IoSlice<A> {
    fn into_iob(self) -> IoSlice<A> {
        self
    }
}
