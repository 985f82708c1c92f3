//! The text protocol of memcached: its commands, classic and meta, read from the bytes of a connection; the items that a store keeps for it; and its
//! replies. Nothing here reads, waits or knows a clock: bytes, the second of Unix time and the next version are inputs.
//!
//! **Proved.** Any bytes have one reading, `command_at`, and how a stream was cut changes nothing of it. What a connection holds between two commands is
//! bounded. A classic command's canonical bytes are read as that command, and an item's bytes as that item. `answer` does one command on one key: it
//! writes exactly the reply that `answer_of` names for them, and gives the bytes of exactly the item that is kept there.
//!
//! **Not proved.** No function here runs a whole connection. The caller takes the commands one after another and calls `answer`, for a `get` or a `gat`
//! once for each key and with `Notice::End` written behind the last; it carries out a flush and closes after `quit`. `answers` defines the replies of a
//! connection, and `in_order` states laws of this definition; that a caller writes these replies is for the caller to prove.
//!
//! **What memcached 1.6.18 does otherwise.**
//!
//! - *Lines*: it looks at a line's length only while the line's end wasn't read, so the cuts of the stream decide there; here the limit holds for every
//!   line. It allows blanks before a long `get`; here the line must begin with the word for the longer limit to hold. It knows `bget` and the commands
//!   of its own memory, threads and logs, such as `slabs`, `lru` and `watch`; here they are unknown.
//! - *Numbers*: it reads a number with a `+` or white space before it, or white space behind it, also as the value that `incr` counts, and cuts flags to
//!   32 bits; here these are refused. It cuts an expiry to 32 bits and takes 2^31 and more for a moment that has passed; here it is a moment of Unix time,
//!   at most 2^32 - 1.
//! - *Errors*: a `noreply` in the place of a line's last number hides the error there, and here only behind it. `gat` without a key is an error here. If
//!   several flags are wrong, it tells the first that is unknown or repeated, or else the last; here the first wrong one is told. Its `ma` counts even
//!   if it then refuses a long `O`. More than 17 flags are too many for it.
//! - *Values*: if a value is too large, it drops the item for each mode of `ms`; here only for a set without a version. If `append` or `prepend` make a
//!   value too large, it stores nothing; here they store, and the caller decides what is too large.
//! - *Meta flags*: it applies `N` and `T` to a new item of `ma` in their order, and a `t` before them tells the expiry before; here the item has the
//!   expiry of `N`. It knows `h`, `l`, `R` and `I`, and `N` of `mg`, which speak of its memory or mark an item as stale; here they aren't known. `q` hides
//!   a new number of `ma` here, too. `me` tells no time, class or fetch here, and for the size that of the value.
//! - *Binary keys*: it reads base64 whose last bits aren't zero, as in `ab==`, or that ends early, as in `ab=c`, and tells the key as it was first
//!   stored; here such a key isn't base64, and a key is told as the command wrote it. For a key that isn't base64 its `md` and `ma` tell `BadFlags`
//!   and its `me` tells `BadFormat`; `Refusal::BadKey` has the text of `mg` and `ms`.
//! - *Deletes*: a deleted key keeps a mark here, since a store may return a queued item after its deletion.
#![tactic(auto)]

pub mod answer;
pub mod command;
pub mod expiry;
pub mod input;
pub mod item;
pub mod key;
mod line;
pub mod meta;
mod meta_answer;
mod meta_line;
pub mod meta_reply;
mod number;
pub mod reply;
#[cfg(test)]
mod rows;
#[cfg(test)]
mod tests;
pub mod turn;
pub mod verb;
pub mod window;
pub mod words;
