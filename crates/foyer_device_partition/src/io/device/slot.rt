//! A range of the bytes of one file.
ghost use Rattle.std.specs.Prelude.{◌≡◌, ◌+◌, ◌<◌, ◌^◌, min};

/// A range of the bytes of one file.
#[derive(Clone, Copy, Debug)]
pub(super) struct Slot {
    pub(super) start: u64,
    pub(super) size: usize,
    ghost ends: { start + size < 2 ^ 64 },
}

impl Slot {
    // Gives where an offset of the slot lies in the file.
    pub(super) fn translate(&self, offset: u64) -> u64
        ensures { result ≡ self.now.start + min offset self.now.size }
    {
        self.start + offset.min(self.size as u64)
    }
}
