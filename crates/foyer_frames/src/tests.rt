//! Tests of streams that are read in pieces and with errors, and of frames whose bytes were worked out by hand.
use crate::frames::{Filled, Frames, Next, Taken};
use crate::greeting::greeting_bytes;
use crate::kind::Kind;
use crate::reply::{self, Reply};
use crate::request::{self, Fault, Head, Limits, Request};
use std::alloc::Global;
use std::fmt::Write as _;
use std::io;
use std::io::Read;
use std::test::*;

const LIMITS: Limits = Limits { key: 4, value: 8 };

const PUT: &[u8] = b"p\x02\x01\0\0\x02\0\0\0\x03\0\0\0abxyz";

const GET: &[u8] = b"g\xff\xff\xff\xff\x02\0\0\0\0\0\0\0ab";

const CLOSE: &[u8] = b"q\0\0\0\x01\0\0\0\0\0\0\0\0";

const REPLY: &[u8] = b"\x02\x01\0\0\x07\x03\0\0\0xyz";

// What was answered, as one text. If memory is refused, a part is left out, so the text differs.
#[derive(Drop)]
struct Said {
    text: String,
}

impl Said {
    fn new(alloc: Global) -> Said {
        Said {
            text: String::new(alloc),
        }
    }

    fn word(&mut self, word: &str) {
        let _ = self.text.push_str(word);
    }

    fn bytes(&mut self, word: &str, bytes: &[u8]) {
        self.word(word);
        self.word(str::from_utf8(bytes).unwrap_or("no text"));
    }

    fn head(&mut self, head: Head) {
        let Head { kind, number, .. } = head;
        let _ = write!(self.text, "{kind:?} {number}");
    }

    fn fault(&mut self, fault: Fault) {
        let _ = write!(self.text, "{fault:?}");
    }
}

// Gives at most `most` bytes in one read. Each read whose turn is a multiple of `trouble` fails.
#[derive(Drop)]
struct Pieces<'a> {
    rest: &'a [u8],
    most: usize,
    turn: u32,
    trouble: u32,
    kind: io::ErrorKind,
}

impl<'a> Read for Pieces<'a> {
    fn read(&mut self, buf: &mut [u8]) -> io::Result<usize> {
        self.turn = self.turn.wrapping_add(1);
        if self.trouble > 0 && self.turn % self.trouble == 0 {
            return Err(self.kind.into());
        }
        let count = self.most.min(self.rest.len()).min(buf.len());
        buf[..count].copy_from_slice(&self.rest[..count]);
        self.rest = &self.rest[count..];
        Ok(count)
    }
}

fn say_request<R: Read + Drop>(said: &mut Said, frames: &Frames<R, Global>, head: Head) {
    said.head(head);
    said.bytes(" ", frames.key());
    said.bytes("=", frames.value());
    said.word(", ");
}

// Notes what was found, and whether it was the last.
fn say_next<R: Read + Drop>(
    said: &mut Said,
    frames: &Frames<R, Global>,
    next: io::Result<Next>,
) -> bool {
    match next {
        Ok(Next::Request(head)) => {
            say_request(said, frames, head);
            return false;
        }
        Ok(Next::Refused(fault)) => said.fault(fault),
        Ok(Next::End) => said.word("end"),
        Ok(Next::Cut) => said.word("cut"),
        Err(_) => {
            said.word("error, ");
            return false;
        }
    }
    true
}

// Notes all requests of the stream, and how it ends.
fn say_all<R: Read + Drop>(said: &mut Said, alloc: Global, input: R) {
    let Ok(mut frames) = Frames::new(alloc, input, LIMITS) else {
        return;
    };
    for _ in 0..100 {
        let next = frames.next();
        if say_next(said, &frames, next) {
            break;
        }
    }
}

// The same by `take` and `fill`.
fn say_taken<R: Read + Drop>(said: &mut Said, alloc: Global, input: R) {
    let Ok(mut frames) = Frames::new(alloc, input, LIMITS) else {
        return;
    };
    for _ in 0..100 {
        match frames.take() {
            Taken::Request(head) => say_request(said, &frames, head),
            Taken::Refused(fault) => said.fault(fault),
            Taken::Partial => said.word("partial, "),
        }
        match frames.fill() {
            Ok(Filled::More) => said.word("more, "),
            Ok(Filled::Ready) => said.word("ready, "),
            Ok(Filled::End) => return said.word("end"),
            Ok(Filled::Cut) => return said.word("cut"),
            Err(_) => said.word("error, "),
        }
    }
}

fn cut_up<'a>(rest: &'a [u8], most: usize, trouble: u32, kind: io::ErrorKind) -> Pieces<'a> {
    Pieces {
        rest,
        most,
        turn: 0,
        trouble,
        kind,
    }
}

#[test]
fn streams_in_pieces(rt: HostRuntime) {
    for (bytes, want) in [
        (b"".as_slice(), "end"),
        (PUT, "Put 258 ab=xyz, end"),
        (GET, "Get 4294967295 ab=, end"),
        (CLOSE, "Close 16777216 =, end"),
        (
            b"d\x01\0\0\0\0\0\0\0\0\0\0\0h\x02\0\0\0\x04\0\0\0\0\0\0\0abcd",
            "Delete 1 =, Contains 2 abcd=, end",
        ),
        (
            b"w\x01\0\0\0\0\0\0\0\0\0\0\0c\x02\0\0\0\0\0\0\0\0\0\0\0x\x03\0\0\0\0\0\0\0\0\0\0\0",
            "Wait 1 =, Counters 2 =, Destroy 3 =, end",
        ),
        (b"v\x01\0\0\0\0\0\0\0\0\0\0\0", "Version 1 =, end"),
        (b"v\0\0\0\0\0\0\0\0\x01\0\0\0a", "UnwantedValue"),
        (b"p", "cut"),
        (
            b"w\0\0\0\0\0\0\0\0\0\0\0\0p\x02\x01\0\0\x02\0\0\0\x03\0\0\0abxy",
            "Wait 0 =, cut",
        ),
        (b"P\x02\x01\0\0\x02\0\0\0\x03\0\0\0abxyz", "UnknownKind"),
        (b"p\0\0\0\0\x05\0\0\0\0\0\0\0", "KeyTooLong"),
        (b"p\0\0\0\0\0\0\0\0\x09\0\0\0", "ValueTooLong"),
        (b"p\0\0\0\0\x02\0\0\x01\0\0\0\0", "KeyTooLong"),
        (b"g\0\0\0\0\x01\0\0\0\x01\0\0\0ab", "UnwantedValue"),
        (b"w\0\0\0\0\x01\0\0\0\0\0\0\0a", "UnwantedKey"),
    ] {
        for most in [1, 7, 1000] {
            let mut said = Said::new(rt.alloc());
            say_all(
                &mut said,
                rt.alloc(),
                cut_up(bytes, most, 2, io::ErrorKind::Interrupted),
            );
            assert_eq!(rt; said.text.as_str(), want, "in pieces of {most}");
        }
    }
}

#[test]
fn errors_lose_nothing(rt: HostRuntime) {
    let mut said = Said::new(rt.alloc());
    say_all(
        &mut said,
        rt.alloc(),
        cut_up(PUT, 9, 2, io::ErrorKind::TimedOut),
    );
    assert_eq!(rt; said.text.as_str(), "error, Put 258 ab=xyz, error, end");
}

#[test]
fn takes_and_fills(rt: HostRuntime) {
    let input = b"g\x01\0\0\0\x01\0\0\0\0\0\0\0ag\x02\0\0\0\x01\0\0\0\0\0\0\0bp\x03".as_slice();
    let mut said = Said::new(rt.alloc());
    say_taken(
        &mut said,
        rt.alloc(),
        cut_up(input, 29, 0, io::ErrorKind::TimedOut),
    );
    let want = "partial, more, Get 1 a=, ready, Get 2 b=, more, partial, cut";
    assert_eq!(rt; said.text.as_str(), want);
}

// Reads one request, and gives the buffer's length then. None if no request is read, or its value hasn't the length that its head says.
fn grown(alloc: Global, input: &[u8], limits: Limits) -> Option<usize> {
    let mut frames = Frames::new(alloc, input, limits).ok()?;
    let Ok(Next::Request(head)) = frames.next() else {
        return None;
    };
    if frames.value().len() != head.value_len as usize {
        return None;
    }
    Some(frames.buffer_len())
}

#[test]
fn a_long_frame_grows_the_buffer(rt: HostRuntime) -> Result<(), Fail> {
    let limits = Limits {
        key: 2,
        value: 200_000,
    };
    let mut input = Vec::from_slice(rt.alloc(), b"p\0\0\0\0\x02\0\0\0\x40\x0d\x03\0ab")
        .ok()
        .ok_or("memory")?;
    input.resize(200_015, 7).ok().ok_or("memory")?;
    assert_eq!(rt; grown(rt.alloc(), input.as_slice(), limits), Some(200_015));
    Ok(())
}

fn sent(alloc: Global, request: &Request<'_>) -> Option<Vec<u8>> {
    let mut output = Vec::new(alloc);
    request.write_to(&mut output).ok()?;
    Some(output)
}

#[test]
fn requests_as_bytes(rt: HostRuntime) {
    let put = Request {
        kind: Kind::Put,
        number: 258,
        key: b"ab",
        value: b"xyz",
    };
    assert!(rt; sent(rt.alloc(), &put).is_some_and(|bytes| bytes.as_slice() == PUT));
    assert!(rt; Request::decode(PUT, LIMITS) == Ok((put, b"".as_slice())));
    let wait = Request {
        kind: Kind::Wait,
        number: 0,
        key: b"a",
        value: b"",
    };
    assert!(rt; sent(rt.alloc(), &wait).is_none());
    // A request without a value is sent, too.
    let get = Request {
        kind: Kind::Get,
        number: u32::MAX,
        key: b"ab",
        value: b"",
    };
    assert!(rt; sent(rt.alloc(), &get).is_some_and(|bytes| bytes.as_slice() == GET));
    request::one_reading();
}

#[test]
fn replies_as_bytes(rt: HostRuntime) -> Result<(), Fail> {
    let reply = Reply {
        number: 258,
        code: 7,
        bytes: b"xyz",
    };
    let mut output = Vec::new(rt.alloc());
    reply.write_to(&mut output).ok().ok_or("memory")?;
    assert!(rt; output.as_slice() == REPLY);
    assert!(rt; Reply::decode(REPLY, 3) == Ok((reply, b"".as_slice())));
    assert!(rt; Reply::decode(REPLY, 2) == Err(Fault::ValueTooLong));
    assert!(rt; Reply::decode(&REPLY[..11], 3) == Err(Fault::Short));
    reply::one_reading();
    Ok(())
}

#[test]
fn a_reply_of_more_than_two_bytes_of_length_is_sent(rt: HostRuntime) -> Result<(), Fail> {
    let bytes = Vec::from_elem(rt.alloc(), 7u8, 65_536)
        .ok()
        .ok_or("memory")?;
    let reply = Reply {
        number: 258,
        code: 1,
        bytes: bytes.as_slice(),
    };
    let mut output = Vec::new(rt.alloc());
    reply.write_to(&mut output).ok().ok_or("memory")?;
    assert_eq!(rt; output.len(), 65_545);
    Ok(())
}

#[test]
fn a_greeting_as_bytes(rt: HostRuntime) -> Result<(), Fail> {
    let limits = Limits {
        key: 65_536,
        value: 258,
    };
    let bytes = greeting_bytes(rt.alloc(), &limits, "0.1.0, kit")
        .ok()
        .ok_or("memory")?;
    let want = b"foyerpipe\n\x01\0\0\0\0\0\x01\0\x02\x01\0\x000.1.0, kit".as_slice();
    assert!(rt; bytes.as_slice() == want);
    Ok(())
}
