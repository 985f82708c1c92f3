//! What is noted of a step and of its reply: all but contents.
ghost use Rattle.std.specs.Prelude.{◌≡◌};
ghost use Rattle.foyer_core_shared.specs.Briefs.{len_of, listed_in, outcome_of, reply_brief, step_brief};
ghost use Rattle.foyer_core_shared.specs.Kinds.{kind_of};
ghost use Rattle.foyer_core_shared.specs.Sessions.{is_close, is_destroy};
ghost use Rattle.foyer_core_shared.specs.declared.brief.StepBrief.TheVariants as asked;

use foyer_block_index::manager::BlockId;
use foyer_core_steps::reply::Reply;
use foyer_core_steps::step::{Step, Ticket};
use foyer_core_tally::kinds::StepKind;
use foyer_device_page::error::{Error, ErrorKind};
use foyer_format_record::block::serde::Sequence;
use std::alloc::Allocator;

// How many bytes a read gave, or the kind of its fault.
fn len_of<A: Allocator>(outcome: &Result<Vec<u8, A>, Error>) -> Result<usize, ErrorKind>
    ensures { result ≡ len_of outcome.now }
{
    match outcome {
        Ok(bytes) => Ok(bytes.len()),
        Err(e) => Err(e.kind()),
    }
}

// Gives the kind of a write's fault, if the write failed.
fn outcome_of(outcome: &Result<(), Error>) -> Result<(), ErrorKind>
    ensures { result ≡ outcome_of outcome.now }
{
    match outcome {
        Ok(()) => Ok(()),
        Err(e) => Err(e.kind()),
    }
}

// Gives how many entries were listed, each with a verdict, and none if what was read is no index.
fn listed_in<A: Allocator>(verdicts: &Option<Vec<bool, A>>) -> Option<usize>
    ensures { result ≡ listed_in verdicts.now }
{
    match verdicts {
        Some(verdicts) => Some(verdicts.len()),
        None => None,
    }
}

/// A step, without its piece or the bytes that were read. Each variant is the step of its name. Sizes are in bytes. The outcome of a read
/// is how many bytes it gave. The outcome of a failed access is the kind of the fault.
#[derive(Clone, Copy, Debug, PartialEq, Eq)]
pub enum StepBrief {
    Enqueue {
        hash: u64,
        size: usize,
    },
    Delete {
        hash: u64,
    },
    Wait {
        flusher: u32,
        id: u64,
    },
    MayContains {
        hash: u64,
    },
    LoadBegin {
        hash: u64,
        throttled: bool,
    },
    LoadEnd {
        ticket: Ticket,
        outcome: Result<usize, ErrorKind>,
    },
    Receive {
        flusher: u32,
    },
    FlushBegin {
        flusher: u32,
    },
    FlushBlock {
        flusher: u32,
    },
    FlushWrote {
        flusher: u32,
        outcome: Result<(), ErrorKind>,
    },
    LogWrote {
        flusher: u32,
        outcome: Result<(), ErrorKind>,
    },
    FlushEnd {
        flusher: u32,
    },
    ReclaimBegin,
    ReclaimRead {
        block: BlockId,
        outcome: Result<usize, ErrorKind>,
    },
    ReclaimForget {
        block: BlockId,
    },
    ReclaimCleaned {
        block: BlockId,
        outcome: Result<(), ErrorKind>,
    },
    ReclaimIdle,
    DestroyBegin,
    DestroyClear,
    DestroyCleaned {
        block: BlockId,
        outcome: Result<(), ErrorKind>,
    },
    Close,
}

/// A reply, without its steps, pieces and pairs, and with the length of each list in place of the list. Each variant is the reply of its
/// name. `HandedBack` is a `Received` with a piece. `asked` is how many pickers answered, and `listed` is how many entries of an index were
/// judged.
#[derive(Clone, Copy, Debug, PartialEq, Eq)]
pub enum ReplyBrief {
    NotNow,
    Refused(ErrorKind),
    Ignored,
    Queued(Sequence),
    Dropped(Sequence),
    Deleted(Sequence),
    Done,
    Answer(bool),
    Miss,
    Throttled,
    Read(Ticket),
    Entry,
    Empty,
    Received,
    HandedBack,
    Began {
        blocks: usize,
        marks: usize,
    },
    Write {
        block: BlockId,
        writes: usize,
    },
    NoBlock,
    Next,
    Committed(usize),
    Failed,
    Ended {
        pieces: usize,
        waits: usize,
    },
    Picked {
        block: BlockId,
        asked: usize,
        probation: usize,
    },
    Scan {
        block: BlockId,
        offset: usize,
        len: usize,
        listed: Option<usize>,
    },
    Listed {
        listed: Option<usize>,
    },
    Clean(BlockId),
    Destroying(Sequence),
    Cleared,
    Destroyed(Option<ErrorKind>),
}

/// A step and the reply that it got.
#[derive(Clone, Copy, Debug, PartialEq, Eq)]
pub struct Brief {
    pub step: StepBrief,
    pub reply: ReplyBrief,
}

impl StepBrief {
    /// Gives the brief of this step.
    pub fn of<K, V, P, A: Allocator>(step: &Step<K, V, P, A>) -> StepBrief
        ensures { result ≡ step_brief step.now }
    {
        match step {
            Step::Enqueue { piece, size } => StepBrief::Enqueue {
                hash: piece.hash(),
                size: *size,
            },
            Step::Delete { hash } => StepBrief::Delete { hash: *hash },
            Step::Wait { flusher, id } => StepBrief::Wait {
                flusher: *flusher,
                id: *id,
            },
            Step::MayContains { hash } => StepBrief::MayContains { hash: *hash },
            Step::LoadBegin { hash, throttled } => StepBrief::LoadBegin {
                hash: *hash,
                throttled: *throttled,
            },
            Step::LoadEnd {
                ticket,
                result: outcome,
            } => StepBrief::LoadEnd {
                ticket: *ticket,
                outcome: len_of(outcome),
            },
            Step::Receive { flusher } => StepBrief::Receive { flusher: *flusher },
            Step::FlushBegin { flusher } => StepBrief::FlushBegin { flusher: *flusher },
            Step::FlushBlock { flusher } => StepBrief::FlushBlock { flusher: *flusher },
            Step::FlushWrote {
                flusher,
                result: outcome,
            } => StepBrief::FlushWrote {
                flusher: *flusher,
                outcome: outcome_of(outcome),
            },
            Step::LogWrote {
                flusher,
                result: outcome,
            } => StepBrief::LogWrote {
                flusher: *flusher,
                outcome: outcome_of(outcome),
            },
            Step::FlushEnd { flusher } => StepBrief::FlushEnd { flusher: *flusher },
            Step::ReclaimBegin => StepBrief::ReclaimBegin,
            Step::ReclaimRead {
                block,
                result: outcome,
            } => StepBrief::ReclaimRead {
                block: *block,
                outcome: len_of(outcome),
            },
            Step::ReclaimForget { block } => StepBrief::ReclaimForget { block: *block },
            Step::ReclaimCleaned {
                block,
                result: outcome,
            } => StepBrief::ReclaimCleaned {
                block: *block,
                outcome: outcome_of(outcome),
            },
            Step::ReclaimIdle => StepBrief::ReclaimIdle,
            Step::DestroyBegin => StepBrief::DestroyBegin,
            Step::DestroyClear => StepBrief::DestroyClear,
            Step::DestroyCleaned {
                block,
                result: outcome,
            } => StepBrief::DestroyCleaned {
                block: *block,
                outcome: outcome_of(outcome),
            },
            Step::Close => StepBrief::Close,
        }
    }

    // Gives the brief of the `LoadEnd` with this ticket and outcome.
    pub(crate) fn of_load<A: Allocator>(
        ticket: Ticket,
        outcome: &Result<Vec<u8, A>, Error>,
    ) -> StepBrief
        ensures { result ≡ asked.LoadEnd ticket (len_of outcome.now) }
    {
        StepBrief::LoadEnd {
            ticket,
            outcome: len_of(outcome),
        }
    }
}

impl ReplyBrief {
    /// Gives the brief of this reply.
    pub fn of<K, V, P, A: Allocator>(reply: &Reply<K, V, P, A>) -> ReplyBrief
        ensures { result ≡ reply_brief reply.now }
    {
        match reply {
            Reply::NotNow(_) => ReplyBrief::NotNow,
            Reply::Refused(kind, _) => ReplyBrief::Refused(*kind),
            Reply::Ignored(_) => ReplyBrief::Ignored,
            Reply::Queued(sequence) => ReplyBrief::Queued(*sequence),
            Reply::Dropped(_, sequence) => ReplyBrief::Dropped(*sequence),
            Reply::Deleted(sequence) => ReplyBrief::Deleted(*sequence),
            Reply::Done => ReplyBrief::Done,
            Reply::Answer(answer) => ReplyBrief::Answer(*answer),
            Reply::Miss => ReplyBrief::Miss,
            Reply::Throttled => ReplyBrief::Throttled,
            Reply::Read(ticket) => ReplyBrief::Read(*ticket),
            Reply::Entry { .. } => ReplyBrief::Entry,
            Reply::Empty => ReplyBrief::Empty,
            Reply::Received(None) => ReplyBrief::Received,
            Reply::Received(Some(_)) => ReplyBrief::HandedBack,
            Reply::Began { blocks, marks } => ReplyBrief::Began {
                blocks: *blocks,
                marks: marks.len(),
            },
            Reply::Write { block, writes } => ReplyBrief::Write {
                block: *block,
                writes: writes.len(),
            },
            Reply::NoBlock => ReplyBrief::NoBlock,
            Reply::Next => ReplyBrief::Next,
            Reply::Committed(puts) => ReplyBrief::Committed(*puts),
            Reply::Failed => ReplyBrief::Failed,
            Reply::Ended { pieces, waits } => ReplyBrief::Ended {
                pieces: pieces.len(),
                waits: waits.len(),
            },
            Reply::Picked {
                block,
                answers,
                probation,
            } => ReplyBrief::Picked {
                block: *block,
                asked: answers.len(),
                probation: probation.len(),
            },
            Reply::Scan {
                block,
                offset,
                len,
                verdicts,
            } => ReplyBrief::Scan {
                block: *block,
                offset: *offset,
                len: *len,
                listed: listed_in(verdicts),
            },
            Reply::Listed { verdicts } => ReplyBrief::Listed {
                listed: listed_in(verdicts),
            },
            Reply::Clean(block) => ReplyBrief::Clean(*block),
            Reply::Destroying(sequence) => ReplyBrief::Destroying(*sequence),
            Reply::Cleared => ReplyBrief::Cleared,
            Reply::Destroyed(first) => ReplyBrief::Destroyed(*first),
        }
    }
}

impl StepBrief {
    // Whether it is a close.
    pub(crate) fn is_close(&self) -> bool
        ensures { result ≡ is_close self.now }
    {
        matches!(self, StepBrief::Close)
    }

    // Whether it is a destroy's beginning, its clear, or the outcome of one of its cleans.
    pub(crate) fn is_destroy(&self) -> bool
        ensures { result ≡ is_destroy self.now }
    {
        matches!(
            self,
            StepBrief::DestroyBegin | StepBrief::DestroyClear | StepBrief::DestroyCleaned { .. }
        )
    }
}

impl Brief {
    /// The kind that it is counted as.
    pub fn kind(&self) -> StepKind
        ensures { result ≡ kind_of self.now }
    {
        match (&self.step, &self.reply) {
            (StepBrief::Enqueue { .. }, ReplyBrief::Queued(_)) => StepKind::Queued,
            (StepBrief::Enqueue { .. }, ReplyBrief::Dropped(_)) => StepKind::Dropped,
            (StepBrief::Delete { .. }, ReplyBrief::Deleted(_)) => StepKind::Deleted,
            (StepBrief::LoadBegin { .. }, ReplyBrief::Read(_)) => StepKind::Read,
            (StepBrief::LoadBegin { .. }, ReplyBrief::Miss) => StepKind::LookUpMiss,
            (StepBrief::LoadEnd { .. }, ReplyBrief::Entry) => StepKind::Entry,
            (StepBrief::LoadEnd { .. }, ReplyBrief::Miss) => StepKind::EndMiss,
            _ => StepKind::Other,
        }
    }
}
