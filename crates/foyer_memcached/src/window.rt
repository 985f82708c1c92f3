//! The bytes of a connection that were read and not taken yet.
ghost use Rattle.std.specs.Prelude.{◌≡◌, ◌+◌, ◌-◌, ◌≤◌, ℕ, List, [], ◌++◌, drop, length, vec_len, IfOk, OnErr, OnOk};
ghost use Rattle.foyer_memcached.specs.Input.{left, pushed};

use crate::command::Limits;
use crate::input::Input;
use std::alloc::{AllocError, Allocator};

/// The bytes of a connection that were read and not taken yet, over all of its reads.
pub struct Window<A: Allocator> {
    bytes: Vec<u8, A>,
    over: usize,
    limits: Limits,
}

// Written out, so that it is proved once.
impl<A: Allocator> Drop for Window<A> {
    fn drop(self) {
        let Window {
            bytes: _,
            over: _,
            limits: _,
        } = self;
    }
}

impl<A: Allocator> Window<A> {
    ghost use Rattle.foyer_memcached.specs.Window.{held};

    /// Gives the window of a connection that nothing was read of.
    pub fn new(alloc: A, limits: Limits) -> Window<A>
        ensures held { held result ≡ ([], 0) }
        ensures limits { result.limits ≡ limits }
    {
        Window {
            bytes: Vec::new(alloc),
            over: 0,
            limits,
        }
    }

    /// Adds bytes that were read, without those that are passed over. Errors: `AllocError` if there is no memory for them. Then the window stays as
    /// it is.
    pub fn push(&mut self, more: &[u8]) -> Result<(), AllocError>
        ensures ok { OnOk result (held self.new ≡ pushed (held self.old) more.now) }
        ensures err { OnErr result (held self.new ≡ held self.old) }
        ensures limits { self.new.limits ≡ self.old.limits }
    {
        let len = more.len();
        if self.over >= len {
            self.over -= len;
            return Ok(());
        }
        self.bytes.extend_from_slice(&more[self.over..])?;
        self.over = 0;
        Ok(())
    }

    /// Gives the commands of the bytes. Once they are taken, `keep` leaves what the input has left.
    pub fn input(&self) -> Input<'_>
        ensures left { left result ≡ held self.now }
        ensures limits { result.limits ≡ self.now.limits }
    {
        Input::behind(self.bytes.as_slice(), self.over, self.limits)
    }

    /// Leaves the last `rest` bytes. As many bytes as `over` are passed over before more are read.
    pub fn keep(&mut self, rest: usize, over: usize)
        requires { rest ≤ length (held self.old).0 }
        ensures held { held self.new ≡ (drop (length (held self.old).0 - rest) (held self.old).0, over) }
        ensures limits { self.new.limits ≡ self.old.limits }
    {
        let start = self.bytes.len() - rest;
        if start > 0 {
            self.bytes.as_mut_slice().copy_within(start.., 0);
            self.bytes.truncate(rest);
        }
        self.over = over;
    }
}

/// Does nothing; its contract is a law of windows. How the bytes of a connection were cut into reads changes nothing of what is held.
pub fn one_stream()
    ensures { (old : List ℕ × ℕ) (a b : List ℕ) → pushed (pushed old a) b ≡ pushed old (a ++ b) }
{}
