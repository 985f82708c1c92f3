//! What a line's first word asks for.
ghost use Rattle.std.specs.Prelude.{◌≡◌};
ghost use Rattle.foyer_memcached.specs.Lines.{verb_of};

/// How a value is stored.
#[derive(Clone, Copy, Debug, PartialEq, Eq)]
pub enum Mode {
    /// `set`: whatever is there.
    Set,
    /// `add`: only if nothing is there.
    Add,
    /// `replace`: only if something is there.
    Replace,
    /// `append`: behind the value that is there.
    Append,
    /// `prepend`: before the value that is there.
    Prepend,
    /// `cas`: only if the version that is there is the one that is named.
    Cas,
}

// A line's first word.
#[derive(Clone, Copy, Debug, PartialEq, Eq)]
pub(crate) enum Verb {
    // `get`, and with versions `gets`.
    Get(bool),
    // `gat`, and with versions `gats`.
    GetTouch(bool),
    Store(Mode),
    Delete,
    // `incr` if up, else `decr`.
    Count(bool),
    Touch,
    Flush,
    Stats,
    Version,
    Verbosity,
    Quit,
    // `mg`, `ms`, `md`, `ma`, `me`.
    MetaGet,
    MetaStore,
    MetaDelete,
    MetaCount,
    MetaShow,
    // `mn`.
    NoOperation,
}

// The verb that a word is.
#[tactic(auto, unfolding(crate::specs::Lines::verb_of))]
pub(crate) fn verb_at(word: &[u8]) -> Option<Verb>
    ensures { result ≡ verb_of word.now }
{
    if word == b"get".as_slice() {
        Some(Verb::Get(false))
    } else if word == b"set".as_slice() {
        Some(Verb::Store(Mode::Set))
    } else if word == b"gets".as_slice() {
        Some(Verb::Get(true))
    } else if word == b"delete".as_slice() {
        Some(Verb::Delete)
    } else if word == b"incr".as_slice() {
        Some(Verb::Count(true))
    } else if word == b"decr".as_slice() {
        Some(Verb::Count(false))
    } else if word == b"add".as_slice() {
        Some(Verb::Store(Mode::Add))
    } else if word == b"replace".as_slice() {
        Some(Verb::Store(Mode::Replace))
    } else if word == b"append".as_slice() {
        Some(Verb::Store(Mode::Append))
    } else if word == b"prepend".as_slice() {
        Some(Verb::Store(Mode::Prepend))
    } else if word == b"cas".as_slice() {
        Some(Verb::Store(Mode::Cas))
    } else if word == b"touch".as_slice() {
        Some(Verb::Touch)
    } else if word == b"gat".as_slice() {
        Some(Verb::GetTouch(false))
    } else if word == b"gats".as_slice() {
        Some(Verb::GetTouch(true))
    } else if word == b"flush_all".as_slice() {
        Some(Verb::Flush)
    } else if word == b"stats".as_slice() {
        Some(Verb::Stats)
    } else if word == b"version".as_slice() {
        Some(Verb::Version)
    } else if word == b"verbosity".as_slice() {
        Some(Verb::Verbosity)
    } else if word == b"quit".as_slice() {
        Some(Verb::Quit)
    } else if word == b"mg".as_slice() {
        Some(Verb::MetaGet)
    } else if word == b"ms".as_slice() {
        Some(Verb::MetaStore)
    } else if word == b"md".as_slice() {
        Some(Verb::MetaDelete)
    } else if word == b"ma".as_slice() {
        Some(Verb::MetaCount)
    } else if word == b"me".as_slice() {
        Some(Verb::MetaShow)
    } else if word == b"mn".as_slice() {
        Some(Verb::NoOperation)
    } else {
        None
    }
}
