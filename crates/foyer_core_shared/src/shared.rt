//! A core behind one lock.
ghost use Rattle.std.specs.Prelude.{◌≡◌, ◌⊎◌, ◌<◌, true};
ghost use Rattle.foyer_core_steps.specs.Answered.{spare_of};
ghost use Rattle.foyer_core_steps.specs.declared.reply.Reply.TheVariants as reply;
ghost use Rattle.foyer_core_steps.specs.declared.step.Step.TheVariants as steps;
ghost use Rattle.foyer_device_page.specs.declared.error.ErrorKind.TheVariants as kind;
ghost use Rattle.foyer_core_shared.specs.Answers.{IsAnswer};
ghost use Rattle.foyer_core_shared.specs.Briefed.{IsNotedIn};
ghost use Rattle.foyer_core_shared.specs.Kinds.{tallied};
ghost use Rattle.foyer_core_shared.specs.Replies.{may_reply};
ghost use Rattle.std.specs.Option.{ForSome};

use crate::locked::Locked;
use crate::notes::Noting;
use crate::session::Session;
use foyer_block_manager::block::eviction::EvictionPicker;
use foyer_core_steps::load::Judged;
use foyer_core_steps::open::RecoverMode;
use foyer_core_steps::reply::Reply;
use foyer_core_steps::step::{Step, Ticket};
use foyer_core_tally::book::Kinds;
use foyer_device_page::error::{ErrorKind, Result};
use foyer_device_statistics::IoState;
use foyer_format_record::serde::{Code, Properties};
use foyer_lock::lock_spinning;
use foyer_policy_filter::{StorageFilter, StorageFilterCondition};
use std::alloc::{Allocator, Global};
use std::sync::{Mutex, Wait};

/// A core behind one lock. Threads share it by reference, and each asks it with a session of its own.
pub struct Shared<L, K, V, P, A, E, C, N>
where
    L: Kinds,
    K: Code<A>,
    V: Code<A>,
    P: Properties + Drop,
    A: Allocator,
    E: EvictionPicker,
    C: StorageFilterCondition,
    N: Noting,
{
    mode: RecoverMode,
    inside: Mutex<Locked<L, K, V, P, A, E, C, N>>,
}

// Written out, so that it is proved once.
impl<L, K, V, P, A, E, C, N> Drop for Shared<L, K, V, P, A, E, C, N>
where
    L: Kinds,
    K: Code<A> + Drop,
    V: Code<A> + Drop,
    P: Properties + Drop,
    A: Allocator,
    E: EvictionPicker,
    C: StorageFilterCondition,
    N: Noting,
{
    fn drop(self) {
        let Shared { mode: _, inside: _ } = self;
    }
}

impl<L, K, V, P, A, E, C, N> Shared<L, K, V, P, A, E, C, N>
where
    L: Kinds,
    K: Code<A> + Drop,
    V: Code<A> + Drop,
    P: Properties + Drop,
    A: Allocator + Clone,
    E: EvictionPicker,
    C: StorageFilterCondition,
    N: Noting,
{
    /// Puts a core (`Locked::open`) behind a lock.
    pub fn new(locked: Locked<L, K, V, P, A, E, C, N>) -> Shared<L, K, V, P, A, E, C, N>
        ensures { result.mode ≡ locked.mode }
    {
        Shared {
            mode: locked.recover_mode(),
            inside: Mutex::new(locked),
        }
    }

    /// The mode in which the core was opened.
    pub fn recover_mode(&self) -> RecoverMode
        ensures { result ≡ self.now.mode }
    {
        self.mode
    }

    /// Makes one step, under the lock. The session must have a part. A filter that is asked is passed `io`. The session's newest brief is
    /// then that of this step and of this very reply. There is one exception: if notes are kept and memory for this note is refused, the
    /// reply is `Refused(Memory, step)`, and nothing is noted.
    pub fn step(
        &self,
        rt: &impl Wait,
        session: &mut Session<L>,
        io: IoState,
        step: Step<K, V, P, A>,
    ) -> Reply<K, V, P, A>
        requires { 0 < session.old.shares.parts }
        ensures answer { IsAnswer K.is_decodable V.is_decodable K.encoding V.encoding step result }
        ensures noted { IsNotedIn session.old session.new step result ⊎ ((N.keeps ≡ true) × (result ≡ reply.Refused kind.Memory step) × (session.new ≡ session.old)) }
        ensures replied { (may_reply step result ≡ true) ⊎ ((N.keeps ≡ true) × (result ≡ reply.Refused kind.Memory step)) }
        ensures parts { session.new.shares.parts ≡ session.old.shares.parts }
    {
        match lock_spinning(&self.inside, rt).step(session, io, step) {
            Ok(reply) => reply,
            Err(step) => Reply::Refused(ErrorKind::Memory, step),
        }
    }

    /// Reports what was read for a ticket, as `step` does with a `LoadEnd`. Gives the buffer of the read back beside the reply, for the
    /// next read, unless the read failed or the reply returns the step. What was read is judged before the lock is taken: a pair takes its
    /// memory from this allocator.
    pub fn end_load(
        &self,
        rt: &impl Wait,
        session: &mut Session<L>,
        alloc: &A,
        ticket: Ticket,
        outcome: Result<Vec<u8, A>>,
    ) -> (Reply<K, V, P, A>, Option<Vec<u8, A>>)
        requires { 0 < session.old.shares.parts }
        ensures answer { IsAnswer K.is_decodable V.is_decodable K.encoding V.encoding (steps.LoadEnd ticket outcome) result.0 }
        ensures noted { IsNotedIn session.old session.new (steps.LoadEnd ticket outcome) result.0
            ⊎ ((N.keeps ≡ true) × (result.0 ≡ reply.Refused kind.Memory (steps.LoadEnd ticket outcome)) × (session.new ≡ session.old)) }
        ensures replied { (may_reply (steps.LoadEnd ticket outcome) result.0 ≡ true)
            ⊎ ((N.keeps ≡ true) × (result.0 ≡ reply.Refused kind.Memory (steps.LoadEnd ticket outcome))) }
        ensures spare { result.1 ≡ spare_of outcome result.0 }
        ensures parts { session.new.shares.parts ≡ session.old.shares.parts }
    {
        let judged = Judged::of(alloc, ticket, outcome);
        match lock_spinning(&self.inside, rt).end_judged(session, judged) {
            Ok((reply, spare)) => (reply, spare),
            Err(step) => (Reply::Refused(ErrorKind::Memory, step), None),
        }
    }

    /// Gives the lock of the core itself, for a caller that makes a step under another lock too. A step calls no device.
    pub fn locked(&self) -> &Mutex<Locked<L, K, V, P, A, E, C, N>> {
        &self.inside
    }

    /// Sets the filter of reinsertions, or none, from now on, and gives the one before.
    pub fn replace_reinsertion(
        &self,
        rt: &impl Wait,
        filter: Option<StorageFilter<C, Global>>,
    ) -> Option<StorageFilter<C, Global>> {
        self.inside.lock(rt).replace_reinsertion(filter)
    }

    /// Gives the core as the last step left it. Requires the session with all parts, which knows how many steps of each kind were made.
    pub fn close(self, all: &mut Session<L>) -> Locked<L, K, V, P, A, E, C, N>
        requires { all.old.shares.parts ≡ L.all }
        ensures count { result.noted.calls ≡ all.new.shares.amounts }
        ensures notes { ForSome result.noted.notes (λ notes. tallied notes ≡ all.new.shares.amounts) }
        ensures session { all.new ≡ all.old }
    {
        let Shared { mode: _, inside } = self;
        let mut locked = inside.into_inner();
        locked.audit(all);
        locked
    }
}
