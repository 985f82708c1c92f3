//! A keeper of bytes, driven by a text of words. A digit names a hash, a key, a value or a reference.
use foyer_device_page::error::{Error, Result};
use foyer_policy_keeper::keeper::Keeper;
use foyer_policy_piece::keeper::{Piece, PieceRef};
use std::alloc::{Allocator, Global};
use std::sync::Wait;

mod calls;
mod refusals;
mod threads;

type Byte<A> = Piece<u8, u8, (), A>;

type Bytes<A> = Keeper<u8, u8, (), A>;

type Refs = Vec<PieceRef<u8, u8, (), Global>>;

fn put(
    rt: &impl Wait,
    keeper: &Bytes<Global>,
    refs: &mut Refs,
    alloc: Global,
    word: [u8; 3],
) -> Result<u8> {
    let [hash, key, value] = word;
    let piece = Piece::new(alloc, key, value, u64::from(hash), ())?;
    let kept = keeper.insert(rt, &piece)?;
    refs.push(kept)?;
    Ok(b'+')
}

// The value, or a dash.
fn value_of<A: Allocator + Clone>(
    rt: &impl Wait,
    keeper: &Bytes<A>,
    hash: u64,
    key: u8,
) -> Result<u8> {
    match keeper.get(rt, hash, &key)? {
        Ok(piece) => Ok(*piece.value()),
        Err(_) => Ok(b'-'),
    }
}

fn has(rt: &impl Wait, keeper: &Bytes<Global>, hash: u8, key: u8) -> u8 {
    if keeper.lacks(rt, u64::from(hash), &key).is_none() {
        b'y'
    } else {
        b'n'
    }
}

fn taken(refs: &mut Refs, place: u8) -> Result<PieceRef<u8, u8, (), Global>> {
    let place = usize::from(place.saturating_sub(b'0'));
    if place >= refs.len() {
        return Err(Error::OutOfRange);
    }
    Ok(refs.remove(place))
}

// Releases one that is made of the same piece.
fn release_other(rt: &impl Wait, keeper: &Bytes<Global>, refs: &mut Refs, place: u8) -> Result<u8> {
    let kept = taken(refs, place)?;
    let piece = (*kept).clone()?;
    refs.push(kept)?;
    keeper.release(rt, PieceRef::from(piece));
    Ok(b'f')
}

// `pHKV` puts, `gHK` gets, and `hHK` asks whether there is one; `rN` releases the n-th reference that is there, and `dN`
// drops it; `fN` releases another of its piece, and it goes behind the others.
fn answer(
    rt: &impl Wait,
    keeper: &Bytes<Global>,
    refs: &mut Refs,
    alloc: Global,
    word: &[u8],
) -> Result<u8> {
    match word {
        [b'p', hash, key, value] => put(rt, keeper, refs, alloc, [*hash, *key, *value]),
        [b'g', hash, key] => value_of(rt, keeper, u64::from(*hash), *key),
        [b'h', hash, key] => Ok(has(rt, keeper, *hash, *key)),
        [b'r', place] => {
            keeper.release(rt, taken(refs, *place)?);
            Ok(b'r')
        }
        [b'd', place] => {
            let _ = taken(refs, *place)?;
            Ok(b'd')
        }
        [b'f', place] => release_other(rt, keeper, refs, *place),
        _ => Err(Error::Parse),
    }
}

// The answers to the words of a script, by a keeper of three shards.
fn answers(rt: &impl Wait, alloc: Global, script: &str) -> Result<Vec<u8>> {
    let keeper: Bytes<Global> = Keeper::new(alloc, 3)?;
    let mut refs = Vec::new(alloc);
    let mut answers = Vec::new(alloc);
    for word in script.split(' ') {
        let said = answer(rt, &keeper, &mut refs, alloc, word.as_bytes())?;
        answers.push(said)?;
    }
    Ok(answers)
}
