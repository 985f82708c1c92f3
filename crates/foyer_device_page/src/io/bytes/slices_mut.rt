//! A buffer of whole pages with one owner, which can become one with several.
ghost use Rattle.std.specs.Prelude.{◌≡◌, ◌⊎◌, ◌^◌, ◌≤◌, ◌%◌, ◌↔◌, ℕ, List, IfOk, IfErr, length, replicate, nat_eq};
ghost use Rattle.std.specs.Borrow.{sem, Lends, Array, u8};
ghost use Rattle.std.specs.Cmp.Lexicographic.{pointwise, nat_list_eq_equiv};
ghost use Rattle.std.specs.Cmp.{partial_equiv_from_equiv};
ghost use Rattle.foyer_format_layout.specs.Page.{page_up};
ghost use Rattle.foyer_device_page.specs.Refilled.{refilled, refilled-same};
ghost use Rattle.foyer_device_page.specs.Section.{all_of};
ghost use Rattle.foyer_device_page.specs.contracts.io.bytes.slices_mut.IoSliceMut.{the_row};
ghost use Rattle.foyer_device_page.specs.declared.error.Error.TheVariants as error;

use super::raw::Raw;
use super::slices::IoSlice;
use super::views::{IoB, IoBuf, IoBufMut};
use crate::error::Result;
use std::alloc::{AllocFailed, Allocator};
use std::convert::AsSlice;
use std::marker::Model;

/// Bytes of whole pages that no one else reads or writes.
#[derive(Debug)]
pub struct IoSliceMut<A: Allocator> {
    raw: Raw<A>,
}

// Written out, so that it is proved once.
impl<A: Allocator> Drop for IoSliceMut<A> {
    fn drop(self) {
        let IoSliceMut { raw: _ } = self;
    }
}

impl<A: Allocator> Model for IoSliceMut<A> {
    ghost use Rattle.std.specs.Prelude.{ℕ, List};

    ghost Value = { List ℕ };

    ghost view = { λ m. m.raw };
}

impl<A: Allocator> IoSliceMut<A> {
    /// Gives `capacity` bytes of zeros, rounded up to whole pages. Errors: OutOfRange if the
    /// rounded length passes `usize::MAX`, Memory if memory was refused.
    pub fn new(alloc: A, capacity: usize) -> Result<IoSliceMut<A>>
        ensures zeros { IfOk result (λ m. m ≡ replicate (page_up capacity) 0) }
        ensures beyond { (result ≡ Err error.OutOfRange) ↔ (2 ^ 64 ≤ page_up capacity) }
        ensures refused { IfErr result (λ e. (e ≡ error.OutOfRange) ⊎ (e ≡ error.Memory)) }
    {
        match Raw::new(alloc, capacity) {
            Ok(raw) => Ok(IoSliceMut { raw }),
            Err(e) => Err(e),
        }
    }

    // A buffer that has one owner again.
    pub(super) fn from_raw(raw: Raw<A>) -> IoSliceMut<A>
        ensures { result ≡ raw }
    {
        IoSliceMut { raw }
    }

    /// How many bytes it has.
    pub fn len(&self) -> usize
        ensures value { result ≡ length self.now }
        ensures pages { result % 4096 ≡ 0 }
    {
        self.raw.len()
    }

    /// Its bytes.
    pub fn as_slice(&self) -> &[u8]
        ensures value { result.now ≡ self.now }
        ensures pages { length result.now % 4096 ≡ 0 }
    {
        self.raw.as_slice()
    }

    /// Its bytes, to be written over.
    pub fn as_mut_slice(&mut self) -> &mut [u8]
        ensures* writes_back { sem 𝓛
            (Lends (the_row A.row A.Allocator) (Array u8 0) self.entry result
            (refilled self.old)) }
        ensures value { result.now ≡ self.old }
    {
        self.raw.as_mut_slice()
    }

    /// Gives the same bytes as a buffer that may have several owners. If memory was refused, the
    /// error has the bytes.
    pub fn into_io_slice(
        self,
        alloc: A,
    ) -> std::result::Result<IoSlice<A>, AllocFailed<IoSliceMut<A>>>
        ensures all { IfOk result (λ s. s ≡ all_of self) }
        ensures handed_back { IfErr result (λ e. e.value ≡ self) }
    {
        let IoSliceMut { raw } = self;
        match IoSlice::from_raw(alloc, raw) {
            Ok(slice) => Ok(slice),
            Err(e) => Err(AllocFailed {
                value: IoSliceMut { raw: e.value },
            }),
        }
    }
}

impl<A: Allocator> PartialEq for IoSliceMut<A> {
    ghost eq = { λ m n. pointwise nat_eq m n };

    ghost laws = { partial_equiv_from_equiv nat_list_eq_equiv };

    fn eq(&self, other: &IoSliceMut<A>) -> bool {
        self.raw == other.raw
    }
}

impl<A: Allocator> Eq for IoSliceMut<A> {
    ghost laws = { nat_list_eq_equiv };
}

impl<A: Allocator> AsSlice<u8> for IoSliceMut<A> {
    ghost items = { λ m. m };

    fn as_slice(&self) -> &[u8] {
        self.as_slice()
    }
}

impl<A: Allocator> IoB for IoSliceMut<A> {
    ghost bytes = { λ m. m };

    fn as_slice(&self) -> &[u8] {
        self.as_slice()
    }
}

impl<A: Allocator> IoBuf for IoSliceMut<A> {
    fn into_iob(self) -> IoSliceMut<A> {
        self
    }
}

impl<A: Allocator> IoBufMut for IoSliceMut<A> {
    ghost filled = { refilled };

    ghost fills = { refilled-same };

    fn as_mut_slice(&mut self) -> &mut [u8] {
        self.as_mut_slice()
    }

    fn into_iob(self) -> IoSliceMut<A> {
        self
    }
}
