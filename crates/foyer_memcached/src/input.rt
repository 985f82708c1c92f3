//! The commands of a connection's bytes, one after another.
ghost use Rattle.std.specs.Prelude.{◌≡◌};
ghost use Rattle.foyer_memcached.specs.Asked.{asked};
ghost use Rattle.foyer_memcached.specs.Input.{Takes, left, passed, passing};

use crate::command::{Command, Fault, Limits};

/// What `take` found at the front of the bytes.
#[derive(Clone, Copy, Debug, PartialEq, Eq)]
pub enum Taken<'a> {
    /// A command.
    Command(Command<'a>),
    /// The beginning of a command. Nothing was taken.
    Partial,
    /// A line that is too long. Nothing was taken, and no other command can be found.
    Refused,
}

/// Bytes, and how many of them were taken.
#[derive(Clone, Copy, Debug, PartialEq, Eq)]
pub struct Input<'a> {
    rest: &'a [u8],
    over: usize,
    limits: Limits,
}

// How many bytes behind a command are passed over.
fn passed_over(command: Command<'_>) -> usize
    ensures { result ≡ passed (asked command.entry) }
{
    match command {
        Command::TooLarge { how } => how.len as usize + 2,
        Command::Skip { len, .. } => len as usize + 2,
        Command::Get { .. }
        | Command::GetTouch { .. }
        | Command::Store { .. }
        | Command::Delete { .. }
        | Command::Count { .. }
        | Command::Touch { .. }
        | Command::Flush { .. }
        | Command::Stats { .. }
        | Command::Version
        | Command::Verbosity { .. }
        | Command::Quit
        | Command::NoOperation
        | Command::MetaGet { .. }
        | Command::MetaStore { .. }
        | Command::MetaDelete { .. }
        | Command::MetaCount { .. }
        | Command::MetaShow { .. }
        | Command::Bad { .. } => 0,
    }
}

// What stands behind bytes that are passed over, and how many of them are still to come.
fn pass(rest: &[u8], count: usize) -> (&[u8], usize)
    ensures { (result.0.now, result.1) ≡ passing count rest.now }
{
    if count <= rest.len() {
        (&rest[count..], 0)
    } else {
        (&[], count - rest.len())
    }
}

impl<'a> Input<'a> {
    /// Gives the commands of these bytes. Nothing is taken yet.
    pub fn new(bytes: &'a [u8], limits: Limits) -> Input<'a>
        ensures left { left result ≡ (bytes.now, 0) }
        ensures limits { result.limits ≡ limits }
    {
        Input {
            rest: bytes,
            over: 0,
            limits,
        }
    }

    // The same, where as many bytes as `over` are passed over before more are read.
    pub(crate) fn behind(bytes: &'a [u8], over: usize, limits: Limits) -> Input<'a>
        ensures left { left result ≡ (bytes.now, over) }
        ensures limits { result.limits ≡ limits }
    {
        Input {
            rest: bytes,
            over,
            limits,
        }
    }

    /// Gives the bytes that weren't taken yet.
    pub fn rest(&self) -> &'a [u8]
        ensures { result.now ≡ (left self.now).0 }
    {
        self.rest
    }

    /// Gives how many of the next bytes of the connection belong to a value that was too large, and are passed over.
    pub fn over(&self) -> usize
        ensures { result ≡ (left self.now).1 }
    {
        self.over
    }

    /// Takes the command at the front of the bytes. A value that is too large is passed over.
    pub fn take(&mut self) -> Taken<'a>
        ensures taken { Takes self.old.limits (left self.old) result (left self.new) }
        ensures limits { self.new.limits ≡ self.old.limits }
    {
        match Command::decode(self.rest, self.limits) {
            Ok((command, rest)) => {
                let (rest, over) = pass(rest, passed_over(command));
                self.rest = rest;
                self.over = over;
                Taken::Command(command)
            }
            Err(Fault::Short) => Taken::Partial,
            Err(Fault::TooLong) => Taken::Refused,
        }
    }
}
