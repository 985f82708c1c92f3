// What a meta command does to one key, and what is replied.
ghost use Rattle.std.specs.Prelude.{◌≡◌, ◌++◌, IfOk, MatchOption, None, OnOk, Some};
ghost use Rattle.foyer_memcached.specs.Answers.{put_bytes};
ghost use Rattle.foyer_memcached.specs.Asked.{flagged, storing};
ghost use Rattle.foyer_memcached.specs.Item.{kept};
ghost use Rattle.foyer_memcached.specs.MetaReply as Metas;
ghost use Rattle.foyer_memcached.specs.MetaReply.{count_text, ma_answer, made_turn, md_answer, meta_delete_turn, meta_store_turn, mg_answer, ms_answer, retimed_item, retimed_put, touch_if};
ghost use Rattle.foyer_memcached.specs.Turn as Turns;
ghost use Rattle.foyer_memcached.specs.Turn.{counted_put, kept_of, put_of, turned};

use crate::answer::encode_put;
use crate::command::Head;
use crate::expiry::Expiry;
use crate::item::Item;
use crate::meta::{Meta, Options};
use crate::meta_reply::{write_count, write_delete, write_get, write_store};
use crate::turn::{
    Outcome, Put, Turn, count, counted_item, delete, number_text, only, store, touch,
};
use crate::verb::Mode;
use itoa::Buffer;
use std::alloc::{AllocError, Allocator};

// The item with the expiry of a `T`.
fn touched<'a>(now: u32, expiry: Option<Expiry>, found: Option<Item<'a>>) -> Option<Put<'a>>
    ensures { put_of result ≡ touch_if now expiry (kept_of found.entry) }
{
    match expiry {
        None => None,
        Some(expiry) => touch(now, expiry, found).put,
    }
}

// Whether another version is there than the one that was named.
fn is_other(wanted: Option<u64>, cas: u64) -> bool
    ensures { result ≡ Metas.is_other wanted cas }
{
    match wanted {
        None => false,
        Some(wanted) => wanted != cas,
    }
}

fn joins(mode: Mode) -> bool
    ensures { result ≡ Metas.joins mode }
{
    match mode {
        Mode::Append | Mode::Prepend => true,
        Mode::Set | Mode::Add | Mode::Replace | Mode::Cas => false,
    }
}

fn is_kept_from(mode: Mode, wanted: Option<u64>, found: Option<Item<'_>>) -> bool
    ensures { result ≡ Metas.is_kept_from mode wanted (kept_of found.entry) }
{
    match found {
        None => false,
        Some(item) => joins(mode) && is_other(wanted, item.cas),
    }
}

fn store_turn<'a>(
    now: u32,
    cas: u64,
    how: Head<'a>,
    options: Options,
    value: &'a [u8],
    found: Option<Item<'a>>,
) -> Turn<'a>
    ensures { turned result ≡ meta_store_turn now cas (storing how.entry) options value.now (kept_of found.entry) }
{
    if is_kept_from(how.mode, options.cas, found) {
        return only(Outcome::Exists);
    }
    store(now, cas, how, value, found)
}

fn delete_turn<'a>(options: Options, found: Option<Item<'_>>) -> Turn<'a>
    ensures { turned result ≡ meta_delete_turn options (kept_of found.entry) }
{
    match found {
        None => only(Outcome::NotFound),
        Some(item) => {
            if is_other(options.cas, item.cas) {
                return only(Outcome::Exists);
            }
            delete(Some(item))
        }
    }
}

// Answers `mg`.
pub(crate) fn meta_get<A: Allocator>(
    alloc: A,
    now: u32,
    key: &[u8],
    meta: Meta<'_>,
    found: Option<Item<'_>>,
    out: &mut Vec<u8, A>,
) -> Result<Option<Vec<u8, A>>, AllocError>
    ensures said { OnOk result (out.new.items ≡ out.old.items ++ (mg_answer now key.now (flagged meta.entry) (kept_of found.entry)).0) }
    ensures kept { IfOk result (λ v. MatchOption v (put_bytes (mg_answer now key.now (flagged meta.entry) (kept_of found.entry)).1 ≡ None)
        (λ b. put_bytes (mg_answer now key.now (flagged meta.entry) (kept_of found.entry)).1 ≡ Some b.items)) }
{
    write_get(now, key, meta, found, out)?;
    encode_put(alloc, touched(now, meta.options.expiry, found))
}

// Answers `ms`.
pub(crate) fn meta_store<A: Allocator>(
    alloc: A,
    now: u32,
    cas: u64,
    how: Head<'_>,
    meta: Meta<'_>,
    value: &[u8],
    found: Option<Item<'_>>,
    out: &mut Vec<u8, A>,
) -> Result<Option<Vec<u8, A>>, AllocError>
    ensures said { OnOk result (out.new.items ≡ out.old.items ++ (ms_answer now cas (storing how.entry) (flagged meta.entry) value.now (kept_of found.entry)).0) }
    ensures kept { IfOk result (λ v. MatchOption v (put_bytes (ms_answer now cas (storing how.entry) (flagged meta.entry) value.now (kept_of found.entry)).1 ≡ None)
        (λ b. put_bytes (ms_answer now cas (storing how.entry) (flagged meta.entry) value.now (kept_of found.entry)).1 ≡ Some b.items)) }
{
    let turn = store_turn(now, cas, how, meta.options, value, found);
    write_store(now, cas, how.key, meta, turn.outcome, out)?;
    encode_put(alloc, turn.put)
}

// Answers `md`.
pub(crate) fn meta_delete<A: Allocator>(
    alloc: A,
    now: u32,
    key: &[u8],
    meta: Meta<'_>,
    found: Option<Item<'_>>,
    out: &mut Vec<u8, A>,
) -> Result<Option<Vec<u8, A>>, AllocError>
    ensures said { OnOk result (out.new.items ≡ out.old.items ++ (md_answer now key.now (flagged meta.entry) (kept_of found.entry)).0) }
    ensures kept { IfOk result (λ v. MatchOption v (put_bytes (md_answer now key.now (flagged meta.entry) (kept_of found.entry)).1 ≡ None)
        (λ b. put_bytes (md_answer now key.now (flagged meta.entry) (kept_of found.entry)).1 ≡ Some b.items)) }
{
    let turn = delete_turn(meta.options, found);
    write_delete(now, key, meta, turn.outcome, out)?;
    encode_put(alloc, turn.put)
}

// An item that is made where there is none.
fn made<'a>(now: u32, cas: u64, expiry: Expiry, text: &'a [u8]) -> Put<'a>
    ensures { Turns.put result ≡ Metas.made now cas expiry text.now }
{
    Put {
        is_deleted: false,
        flags: 0,
        expiry: expiry.moment(now),
        cas,
        front: text,
        back: &[],
    }
}

// Counts where nothing is found.
fn count_none<A: Allocator>(
    alloc: A,
    now: u32,
    cas: u64,
    key: &[u8],
    meta: Meta<'_>,
    out: &mut Vec<u8, A>,
) -> Result<Option<Vec<u8, A>>, AllocError>
    ensures said { OnOk result (out.new.items ≡ out.old.items ++ count_text now cas key.now (flagged meta.entry) None (made_turn now cas (flagged meta.entry).options.initial (flagged meta.entry).options.creates).0) }
    ensures kept { IfOk result (λ v. MatchOption v (put_bytes (made_turn now cas (flagged meta.entry).options.initial (flagged meta.entry).options.creates).1 ≡ None)
        (λ b. put_bytes (made_turn now cas (flagged meta.entry).options.initial (flagged meta.entry).options.creates).1 ≡ Some b.items)) }
{
    match meta.options.creates {
        None => {
            write_count(now, cas, key, meta, None, Outcome::NotFound, out)?;
            Ok(None)
        }
        Some(expiry) => {
            let number = meta.options.initial;
            write_count(now, cas, key, meta, None, Outcome::Counted(number), out)?;
            let mut buffer = Buffer::new();
            let put = made(now, cas, expiry, buffer.format(number).as_bytes());
            Ok(Some(put.encode(alloc)?))
        }
    }
}

// The item with the expiry of a `T`.
fn retime<'a>(now: u32, expiry: Option<Expiry>, put: Put<'a>) -> Put<'a>
    ensures { Turns.put result ≡ retimed_item now expiry (Turns.put put.entry) }
{
    match expiry {
        None => put,
        Some(expiry) => Put {
            expiry: expiry.moment(now),
            ..put
        },
    }
}

// The bytes of an item that was counted.
fn counted_bytes<A: Allocator + Copy>(
    alloc: A,
    now: u32,
    cas: u64,
    expiry: Option<Expiry>,
    outcome: Outcome,
    item: Item<'_>,
) -> Result<Option<Vec<u8, A>>, AllocError>
    ensures { IfOk result (λ v. MatchOption v (put_bytes (retimed_put now expiry (counted_put cas outcome (Some (kept item.entry)))) ≡ None)
        (λ b. put_bytes (retimed_put now expiry (counted_put cas outcome (Some (kept item.entry)))) ≡ Some b.items)) }
{
    match outcome {
        Outcome::Counted(number) => {
            let text = number_text(alloc, number, item.value.len())?;
            let put = retime(now, expiry, counted_item(cas, item, text.as_slice()));
            Ok(Some(put.encode(alloc)?))
        }
        _ => Ok(None),
    }
}

// Counts what is found.
fn count_some<A: Allocator + Copy>(
    alloc: A,
    now: u32,
    cas: u64,
    is_up: bool,
    key: &[u8],
    meta: Meta<'_>,
    item: Item<'_>,
    out: &mut Vec<u8, A>,
) -> Result<Option<Vec<u8, A>>, AllocError>
    ensures said { OnOk result (out.new.items ≡ out.old.items ++ (ma_answer now cas is_up key.now (flagged meta.entry) (Some (kept item.entry))).0) }
    ensures kept { IfOk result (λ v. MatchOption v (put_bytes (ma_answer now cas is_up key.now (flagged meta.entry) (Some (kept item.entry))).1 ≡ None)
        (λ b. put_bytes (ma_answer now cas is_up key.now (flagged meta.entry) (Some (kept item.entry))).1 ≡ Some b.items)) }
{
    if is_other(meta.options.cas, item.cas) {
        write_count(now, cas, key, meta, Some(item), Outcome::Exists, out)?;
        return Ok(None);
    }
    let outcome = count(is_up, meta.options.step, Some(item));
    write_count(now, cas, key, meta, Some(item), outcome, out)?;
    counted_bytes(alloc, now, cas, meta.options.expiry, outcome, item)
}

// Answers `ma`.
pub(crate) fn meta_count<A: Allocator + Copy>(
    alloc: A,
    now: u32,
    cas: u64,
    is_up: bool,
    key: &[u8],
    meta: Meta<'_>,
    found: Option<Item<'_>>,
    out: &mut Vec<u8, A>,
) -> Result<Option<Vec<u8, A>>, AllocError>
    ensures said { OnOk result (out.new.items ≡ out.old.items ++ (ma_answer now cas is_up key.now (flagged meta.entry) (kept_of found.entry)).0) }
    ensures kept { IfOk result (λ v. MatchOption v (put_bytes (ma_answer now cas is_up key.now (flagged meta.entry) (kept_of found.entry)).1 ≡ None)
        (λ b. put_bytes (ma_answer now cas is_up key.now (flagged meta.entry) (kept_of found.entry)).1 ≡ Some b.items)) }
{
    match found {
        None => count_none(alloc, now, cas, key, meta, out),
        Some(item) => count_some(alloc, now, cas, is_up, key, meta, item, out),
    }
}
