//! What a command says of one key, and what it keeps there.
ghost use Rattle.std.specs.Prelude.{◌≡◌, ◌++◌, [], ℕ, Bool, List, IfOk, MatchOption, None, OnOk, Option, Some, false, true};
ghost use Rattle.foyer_memcached.specs.Answers.{Step, answer_of, answers, closes, put_bytes, told};
ghost use Rattle.foyer_memcached.specs.Asked.{Get, Store, Storing, asked};
ghost use Rattle.foyer_memcached.specs.Item.{Kept, visible};
ghost use Rattle.foyer_memcached.specs.Reply as Replies;
ghost use Rattle.foyer_memcached.specs.Reply.{notice_text, unless};
ghost use Rattle.foyer_memcached.specs.declared.reply.Notice.TheVariants.{Done};
ghost use Rattle.foyer_memcached.specs.Turn as Turns;
ghost use Rattle.foyer_memcached.specs.Turn.{count_turn, delete_turn, kept_of, turned};

use crate::command::Command;
use crate::item::Item;
use crate::meta_answer::{meta_count, meta_delete, meta_get, meta_store};
use crate::meta_reply::write_show;
use crate::reply::{Notice, write_value};
use crate::turn::{
    Outcome, Put, Turn, count, counted_item, delete, number_text, store, too_large, touch,
};
use std::alloc::{AllocError, Allocator};

// The bytes of an item that is kept, if one is.
pub(crate) fn encode_put<A: Allocator>(
    alloc: A,
    put: Option<Put<'_>>,
) -> Result<Option<Vec<u8, A>>, AllocError>
    ensures { IfOk result (λ v. MatchOption v (put_bytes (Turns.put_of put.entry) ≡ None) (λ b. put_bytes (Turns.put_of put.entry) ≡ Some b.items)) }
{
    match put {
        None => Ok(None),
        Some(put) => Ok(Some(put.encode(alloc)?)),
    }
}

// Says what became of a command. Gives the bytes of the item that is kept.
fn tell<A: Allocator>(
    alloc: A,
    is_quiet: bool,
    turn: Turn<'_>,
    out: &mut Vec<u8, A>,
) -> Result<Option<Vec<u8, A>>, AllocError>
    ensures said { OnOk result (out.new.items ≡ out.old.items ++ (told is_quiet (turned turn.entry)).0) }
    ensures kept { IfOk result (λ v. MatchOption v (put_bytes (turned turn.entry).1 ≡ None) (λ b. put_bytes (turned turn.entry).1 ≡ Some b.items)) }
{
    turn.outcome.write(is_quiet, out)?;
    encode_put(alloc, turn.put)
}

// Counts.
fn tell_count<A: Allocator + Copy>(
    alloc: A,
    cas: u64,
    is_up: bool,
    by: u64,
    is_quiet: bool,
    found: Option<Item<'_>>,
    out: &mut Vec<u8, A>,
) -> Result<Option<Vec<u8, A>>, AllocError>
    ensures said { OnOk result (out.new.items ≡ out.old.items ++ (told is_quiet (count_turn cas is_up by (kept_of found.entry))).0) }
    ensures kept { IfOk result (λ v. MatchOption v (put_bytes (count_turn cas is_up by (kept_of found.entry)).1 ≡ None) (λ b. put_bytes (count_turn cas is_up by (kept_of found.entry)).1 ≡ Some b.items)) }
{
    let outcome = count(is_up, by, found);
    outcome.write(is_quiet, out)?;
    match (outcome, found) {
        (Outcome::Counted(number), Some(item)) => {
            let text = number_text(alloc, number, item.value.len())?;
            let put = counted_item(cas, item, text.as_slice());
            Ok(Some(put.encode(alloc)?))
        }
        _ => Ok(None),
    }
}

// Says what is found under a key.
fn tell_value<A: Allocator>(
    has_cas: bool,
    key: &[u8],
    found: Option<Item<'_>>,
    out: &mut Vec<u8, A>,
) -> Result<(), AllocError>
    ensures { OnOk result (out.new.items ≡ out.old.items ++ Replies.value_if has_cas key.now (kept_of found.entry)) }
{
    match found {
        None => Ok(()),
        Some(item) => write_value(has_cas, key, item, out),
    }
}

fn tell_done<A: Allocator>(is_quiet: bool, out: &mut Vec<u8, A>) -> Result<(), AllocError>
    ensures { OnOk result (out.new.items ≡ out.old.items ++ unless is_quiet (notice_text Done)) }
{
    if is_quiet {
        Ok(())
    } else {
        Notice::Done.write(out)
    }
}

fn tell_about<A: Allocator>(about: &[u8], out: &mut Vec<u8, A>) -> Result<(), AllocError>
    ensures { OnOk result (out.new.items ≡ out.old.items ++ about.now) }
{
    out.extend_from_slice(about)
}

/// Answers a command on one key, at a second of Unix time and with a new version. `key` is one of the keys of a `get` or a `gat`, which the caller
/// takes one after another and ends by `Notice::End`; `found` is what a client sees under the key. `about` is what the server says of itself, for
/// `version` and `stats`. Writes the reply, and gives the bytes of the item that is kept under the key from then on, if it is another one. Errors:
/// `AllocError` if there is no memory. Then a part of the reply may be written, and nothing is to be kept.
pub fn answer<A: Allocator + Copy>(
    alloc: A,
    now: u32,
    cas: u64,
    about: &[u8],
    command: Command<'_>,
    key: &[u8],
    found: Option<Item<'_>>,
    out: &mut Vec<u8, A>,
) -> Result<Option<Vec<u8, A>>, AllocError>
    ensures said { OnOk result (out.new.items ≡ out.old.items ++ (answer_of now cas about.now (asked command.entry) key.now (kept_of found.entry)).0) }
    ensures kept { IfOk result (λ v. MatchOption v (put_bytes (answer_of now cas about.now (asked command.entry) key.now (kept_of found.entry)).1 ≡ None)
        (λ b. put_bytes (answer_of now cas about.now (asked command.entry) key.now (kept_of found.entry)).1 ≡ Some b.items)) }
{
    match command {
        Command::Get { has_cas, .. } => {
            tell_value(has_cas, key, found, out)?;
            Ok(None)
        }
        Command::GetTouch {
            has_cas,
            expiry,
            ..
        } => {
            tell_value(has_cas, key, found, out)?;
            encode_put(alloc, touch(now, expiry, found).put)
        }
        Command::Store { how, value } => {
            tell(alloc, how.is_quiet, store(now, cas, how, value, found), out)
        }
        Command::TooLarge { how } => tell(alloc, how.is_quiet, too_large(how, found), out),
        Command::Delete { is_quiet, .. } => tell(alloc, is_quiet, delete(found), out),
        Command::Count {
            is_up,
            by,
            is_quiet,
            ..
        } => tell_count(alloc, cas, is_up, by, is_quiet, found, out),
        Command::Touch {
            expiry,
            is_quiet,
            ..
        } => tell(alloc, is_quiet, touch(now, expiry, found), out),
        Command::Flush { is_quiet, .. } | Command::Verbosity { is_quiet } => {
            tell_done(is_quiet, out)?;
            Ok(None)
        }
        Command::Stats { .. } | Command::Version => {
            tell_about(about, out)?;
            Ok(None)
        }
        Command::Quit => Ok(None),
        Command::NoOperation => {
            Notice::NoOperation.write(out)?;
            Ok(None)
        }
        Command::MetaGet { key, meta } => meta_get(alloc, now, key, meta, found, out),
        Command::MetaShow { key, .. } => {
            write_show(now, key, found, out)?;
            Ok(None)
        }
        Command::MetaStore { how, meta, value } => {
            meta_store(alloc, now, cas, how, meta, value, found, out)
        }
        Command::MetaDelete { key, meta } => meta_delete(alloc, now, key, meta, found, out),
        Command::MetaCount { is_up, key, meta } => {
            meta_count(alloc, now, cas, is_up, key, meta, found, out)
        }
        Command::Bad { refusal } | Command::Skip { refusal, .. } => {
            refusal.write(out)?;
            Ok(None)
        }
    }
}

/// Does nothing; its contract is a law of replies. They come in the order of their commands. A get keeps nothing new, after a deletion nothing is
/// seen, and a set that asks for no reply gets none.
pub fn in_order()
    ensures order { (xs ys : List Step) → closes xs ≡ false → answers (xs ++ ys) ≡ answers xs ++ answers ys }
    ensures gets { (now cas : ℕ) (about key : List ℕ) (has_cas : Bool) (keys : List (List ℕ)) (found : Option Kept)
        → (answer_of now cas about (Get has_cas keys) key found).1 ≡ None }
    ensures deleted { (now : ℕ) (i : Kept) → visible now (delete_turn (Some i)).1 ≡ None }
    ensures quiet { (now cas : ℕ) (about key value : List ℕ) (s : Storing) (found : Option Kept) → s.is_quiet ≡ true
        → (answer_of now cas about (Store s value) key found).0 ≡ [] }
{}
