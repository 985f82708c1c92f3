//! Tests of commands and items whose bytes were worked out by hand, by the protocol's own description.
use crate::command::{self, Command, Fault, Head, Limits, Refusal};
use crate::expiry::Expiry;
use crate::item::{self, Item};
use crate::turn::{self, Outcome};
use crate::verb::Mode;
use crate::words::{Words, number};
use std::alloc::Global;
use std::test::*;

const LIMITS: Limits = Limits {
    line: 64,
    get_line: 128,
    item: 100,
};

fn read(bytes: &[u8]) -> Result<(Command<'_>, &[u8]), Fault> {
    Command::decode(bytes, LIMITS)
}

fn bad(bytes: &[u8], why: Refusal) -> bool {
    read(bytes) == Ok((Command::Bad { refusal: why }, b"".as_slice()))
}

#[test]
fn a_value_is_stored(rt: HostRuntime) -> Result<(), Fail> {
    let how = Head {
        mode: Mode::Set,
        key: b"abc",
        flags: 7,
        expiry: Expiry::After(60),
        len: 5,
        cas: 0,
        is_quiet: false,
    };
    let rest = b"get abc\r\n".as_slice();
    assert!(rt;
        read(b"set abc 7 60 5\r\nx\r\nyzget abc\r\n")
            == Ok((
                Command::Bad {
                    refusal: Refusal::BadChunk
                },
                b"t abc\r\n".as_slice()
            ))
    );
    assert!(rt;
        read(b"set abc 7 60 5\r\nx\r\nyz\r\nget abc\r\n")
            == Ok((
                Command::Store {
                    how,
                    value: b"x\r\nyz"
                },
                rest
            ))
    );
    assert!(rt;
        read(b"  set  abc 7 60 5 \nx\r\nyz\r\nget abc\r\n")
            == Ok((
                Command::Store {
                    how,
                    value: b"x\r\nyz"
                },
                rest
            ))
    );
    assert!(rt; read(b"set abc 7 60 5\r\nx\r\nyz\r") == Err(Fault::Short));
    let how = Head {
        mode: Mode::Cas,
        cas: 18_446_744_073_709_551_615,
        is_quiet: true,
        ..how
    };
    assert!(rt;
        read(b"cas abc 7 60 5 18446744073709551615 noreply\r\nvalue\r\n")
            == Ok((
                Command::Store {
                    how,
                    value: b"value"
                },
                b"".as_slice()
            ))
    );
    let how = Head {
        mode: Mode::Add,
        expiry: Expiry::Past,
        len: 50,
        cas: 0,
        is_quiet: false,
        ..how
    };
    assert!(rt;
        read(b"add abc 7 -1 50\r\nrest") == Ok((Command::TooLarge { how }, b"rest".as_slice()))
    );
    Ok(())
}

#[test]
fn keys_are_listed(rt: HostRuntime) -> Result<(), Fail> {
    match read(b"gets a bc  d\r\nquit\r\n") {
        Ok((Command::Get { has_cas, keys }, rest)) => {
            let mut keys: Words<'_> = keys;
            assert!(rt; has_cas);
            assert!(rt; keys.next() == Some(b"a".as_slice()));
            assert!(rt; keys.next() == Some(b"bc".as_slice()));
            assert!(rt; keys.next() == Some(b"d".as_slice()));
            assert!(rt; keys.next() == None);
            assert!(rt; read(rest) == Ok((Command::Quit, b"".as_slice())));
        }
        _ => assert!(rt; false),
    }
    Ok(())
}

#[test]
fn other_commands(rt: HostRuntime) -> Result<(), Fail> {
    let none = b"".as_slice();
    assert!(rt;
        read(b"delete k 0 noreply\r\n")
            == Ok((
                Command::Delete {
                    key: b"k",
                    is_quiet: true
                },
                none
            ))
    );
    assert!(rt;
        read(b"decr k 5\r\n")
            == Ok((
                Command::Count {
                    is_up: false,
                    key: b"k",
                    by: 5,
                    is_quiet: false
                },
                none
            ))
    );
    assert!(rt;
        read(b"touch k 10\r\n")
            == Ok((
                Command::Touch {
                    key: b"k",
                    expiry: Expiry::After(10),
                    is_quiet: false
                },
                none
            ))
    );
    assert!(rt;
        read(b"flush_all noreply\r\n")
            == Ok((
                Command::Flush {
                    delay: Expiry::After(0),
                    is_quiet: true
                },
                none
            ))
    );
    assert!(rt; read(b"verbosity 1\r\n") == Ok((Command::Verbosity { is_quiet: false }, none)));
    assert!(rt; read(b"version\r\n") == Ok((Command::Version, none)));
    Ok(())
}

#[test]
fn what_is_no_command(rt: HostRuntime) -> Result<(), Fail> {
    assert!(rt; bad(b"\r\n", Refusal::Unknown));
    assert!(rt; bad(b"get\r\n", Refusal::Unknown));
    assert!(rt; bad(b"set a 0 0\r\n", Refusal::Unknown));
    assert!(rt; bad(b"set a 0 0 x\r\n", Refusal::BadFormat));
    assert!(rt; bad(b"set a 4294967296 0 1\r\n", Refusal::BadFormat));
    assert!(rt; bad(b"incr a x\r\n", Refusal::BadDelta));
    assert!(rt; bad(b"touch a x\r\n", Refusal::BadExpiry));
    assert!(rt; bad(b"delete a 5\r\n", Refusal::BadDelete));
    assert!(rt; read(b"get a") == Err(Fault::Short));
    assert!(rt; read(b"") == Err(Fault::Short));
    let long = [b'x'; 65];
    assert!(rt; read(&long) == Err(Fault::TooLong));
    assert!(rt; read(&long[1..]) == Err(Fault::Short));
    assert!(rt; number(b"18446744073709551616") == None);
    command::one_reading();
    Ok(())
}

#[test]
fn items_as_bytes(rt: HostRuntime) -> Result<(), Fail> {
    let item = Item {
        is_deleted: false,
        flags: 258,
        expiry: 5,
        cas: 3,
        value: b"xy",
    };
    let bytes = item.encode(rt.alloc()).ok().ok_or("memory")?;
    let wanted = b"m\0\x02\x01\0\0\x05\0\0\0\x03\0\0\0\0\0\0\0xy".as_slice();
    assert!(rt; bytes.as_slice() == wanted);
    assert!(rt; Item::decode(wanted) == Some(item));
    assert!(rt; Item::decode(&wanted[..17]) == None);
    assert!(rt; item.is_visible(4) && !item.is_visible(5));
    assert!(rt; turn::seen(5, Some(item)) == None);
    assert!(rt; turn::count(true, 1, Some(item)) == Outcome::NotNumber);
    let item = Item {
        value: b"18446744073709551615 ",
        ..item
    };
    assert!(rt; turn::count(true, 2, Some(item)) == Outcome::Counted(1));
    assert!(rt; turn::delete(None).outcome == Outcome::NotFound);
    assert!(rt;
        turn::touch(9, Expiry::After(60), Some(item))
            .put
            .is_some_and(|put| put.expiry == 69)
    );
    let text = turn::number_text(rt.alloc(), 99, 3).ok().ok_or("memory")?;
    assert!(rt; text.as_slice() == b"99 ".as_slice());
    item::one_reading();
    turn::one_version();
    Ok(())
}
