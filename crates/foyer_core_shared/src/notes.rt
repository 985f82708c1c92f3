//! The notes of all steps, if notes are kept.
ghost use Rattle.std.specs.Prelude.{◌≡◌, ◌<◌, Bool, true, false, [], ◌∷◌, ◌++◌, IfOk, OnOk, IsOkUnless, slice_get, vec_len, vec_capacity};
ghost use Rattle.foyer_device_page.specs.declared.error.Error.TheVariants.{Memory};
ghost use Rattle.foyer_core_shared.specs.Chunks.{all_of};

use crate::brief::Brief;
use foyer_device_page::error::Result;
use std::alloc::Allocator;
use std::mem;

// How many notes a chunk has room for.
const CHUNK: usize = 1024;

// The note at a place of a chunk, if there are as many.
fn note_at(chunk: &[Brief], place: usize) -> Option<Brief>
    ensures { result ≡ slice_get chunk.now place }
{
    chunk.get(place).copied()
}

/// Whether the notes of all steps are kept.
pub trait Noting {
    ghost keeps: { Bool };

    /// Whether they are.
    fn keeps() -> bool
        ensures { result ≡ keeps };
}

/// All notes are kept, as long as the core is there.
pub struct KeepsNotes;

impl Noting for KeepsNotes {
    ghost keeps = { true };

    fn keeps() -> bool {
        true
    }
}

/// No note is kept.
pub struct NoNotes;

impl Noting for NoNotes {
    ghost keeps = { false };

    fn keeps() -> bool {
        false
    }
}

/// Notes, in the order of their steps. They lie in chunks, so that making room copies none of them.
pub struct Notes<A: Allocator> {
    pub(crate) full: Vec<Vec<Brief, A>, A>,
    pub(crate) last: Vec<Brief, A>,
    alloc: A,
}

// Written out, so that it is proved once.
impl<A: Allocator> Drop for Notes<A> {
    fn drop(self) {
        let Notes {
            full: _,
            last: _,
            alloc: _,
        } = self;
    }
}

impl<A: Allocator + Clone> Notes<A> {
    /// Begins without a note. Error: `Memory` if the allocator's clone is refused.
    pub fn new(alloc: A) -> Result<Notes<A>>
        ensures none { IfOk result (λ notes. all_of notes.full.items notes.last.items ≡ []) }
        ensures refused { IsOkUnless result Memory }
    {
        let full = Vec::new(alloc.clone()?);
        let last = Vec::new(alloc.clone()?);
        Ok(Notes { full, last, alloc })
    }

    // Makes room for one more.
    pub(crate) fn reserve(&mut self) -> Result<()>
        ensures room { OnOk result (vec_len self.new.last < vec_capacity self.new.last) }
        ensures same { all_of self.new.full.items self.new.last.items ≡ all_of self.old.full.items self.old.last.items }
        ensures refused { IsOkUnless result Memory }
    {
        if self.last.len() < self.last.capacity() {
            return Ok(());
        }
        self.full.reserve(1)?;
        let next = Vec::with_capacity(self.alloc.clone()?, CHUNK)?;
        let last = mem::replace(&mut self.last, next);
        self.full.push_reserved(last);
        Ok(())
    }

    // One more, in room that was made.
    pub(crate) fn push(&mut self, note: Brief)
        requires { vec_len self.old.last < vec_capacity self.old.last }
        ensures { all_of self.new.full.items self.new.last.items ≡ all_of self.old.full.items self.old.last.items ++ note ∷ [] }
    {
        self.last.push_reserved(note);
    }

    /// The note at a place, counted from 0, if there are as many. It walks over the chunks.
    pub fn get(&self, place: usize) -> Option<Brief>
        ensures { result ≡ slice_get (all_of self.now.full.items self.now.last.items) place }
    {
        let mut left = place;
        for chunk in &self.full {
            if left < chunk.len() {
                return note_at(chunk, left);
            }
            left -= chunk.len();
        }
        note_at(&self.last, left)
    }
}
