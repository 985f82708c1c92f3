//! Bytes that the formats fix.
use foyer_device_page::error::Error;
use foyer_device_page::io::bytes::{IoB, IoSliceMut};
use foyer_format_buffer::block::buffer::Buffer;
use foyer_format_buffer::block::serde::{EntryHeader, read_record};
use foyer_format_checksum::Checksummer;
use foyer_format_record::compress::Compression;
use foyer_format_record::serde::{Code, EntryDeserializer, EntrySerializer, KvInfo, TrackedWriter};
use foyer_testing::said::Said;
use std::alloc::Global;
use std::test::Fail;

const HEADER: [u8; 36] = [
    0, 0, 0, 8, 0, 0, 0, 3, 0, 0, 0, 0, 0, 0, 0, 1, 0, 0, 0, 0, 0, 0, 0, 2, 0, 0, 0, 0, 0, 0, 0, 0,
    0x97, 0x03, 0x27, 0x00,
];

#[test]
fn a_header_has_its_bytes(rt: HostRuntime) -> Result<(), Fail> {
    let header = EntryHeader {
        key_len: 8,
        value_len: 3,
        hash: 1,
        sequence: 2,
        checksum: 0,
        compression: Compression::None,
    };
    let mut bytes = [0u8; 36];
    header.write(&mut bytes);
    let is_written = bytes.as_slice() == HEADER.as_slice();
    assert!(rt; is_written && EntryHeader::read(&bytes) == Ok(header));
    Ok(())
}

#[test]
fn checksums_are_the_published_ones(rt: HostRuntime) {
    for (text, long, short) in [
        ("", 0xEF46_DB37_51D8_E999, 0x02CC_5D05),
        ("a", 0xD24E_C4F1_A98C_6E5B, 0x550D_7456),
        ("abc", 0x44BC_2CF5_AD77_0999, 0x32D1_53FF),
    ] {
        let bytes = text.as_bytes();
        let is_long = Checksummer::checksum64(bytes) == long;
        assert!(rt;
            is_long && Checksummer::checksum32(bytes) == short,
            "{text}"
        );
    }
}

#[test]
fn a_text_has_its_bytes(rt: HostRuntime) -> Result<(), Fail> {
    let alloc = rt.alloc();
    let text = String::from_str(alloc, "abc")?;
    let mut bytes = Vec::new(alloc);
    text.encode(&mut bytes)?;
    assert!(rt; bytes.as_slice() == [3, 0, 0, 0, 0, 0, 0, 0, 97, 98, 99].as_slice());
    Ok(())
}

// A buffer of two pages, none of whose records takes more bytes with its padding.
fn two_pages(alloc: Global, greatest: usize) -> Result<Buffer<Global>, Error> {
    if greatest > 65536 {
        return Err(Error::OutOfRange);
    }
    Ok(Buffer::new(alloc, IoSliceMut::new(alloc, 8192)?, greatest))
}

// Puts the record of key 1, value `a`, hash 1 and sequence 1.
fn push(
    alloc: Global,
    buffer: &mut Buffer<Global>,
    compression: Compression,
) -> Result<bool, Error> {
    let value = String::from_str(alloc, "a")?;
    buffer.push(&1u64, &value, 1, compression, 1)
}

fn compression_of(word: &str) -> Compression {
    match word {
        "zstd" => Compression::Zstd,
        _ => Compression::None,
    }
}

// Puts that record once for each word: whether the buffer was empty, whether it was put, and how many bytes are written.
fn push_each(
    said: &mut Said,
    alloc: Global,
    buffer: &mut Buffer<Global>,
    words: &str,
) -> Result<(), Error> {
    for word in words.split(' ') {
        said.flag("", buffer.is_empty());
        said.flag(" ", push(alloc, buffer, compression_of(word))?);
        said.number(" ", buffer.written() as u64);
        said.word(", ");
    }
    Ok(())
}

// Notes the place and the length of each record.
fn say_infos(said: &mut Said, buffer: Buffer<Global>) {
    let (_, infos) = buffer.finish();
    for info in infos.as_slice() {
        said.number("", info.offset as u64);
        said.number(":", info.len as u64);
        said.word(" ");
    }
}

fn pushed(alloc: Global, greatest: usize, words: &str) -> Result<String, Error> {
    let mut said = Said::new(alloc);
    let mut buffer = two_pages(alloc, greatest)?;
    push_each(&mut said, alloc, &mut buffer, words)?;
    say_infos(&mut said, buffer);
    said.text()
}

// The record has 53 bytes, on one page; two of them fill both pages.
#[test]
fn records_take_whole_pages_while_there_is_room(rt: HostRuntime) -> Result<(), Fail> {
    for (greatest, words, wanted) in [
        (8192, "none zstd", "yes yes 4096, no no 4096, 0:53 "),
        (4095, "none", "yes no 0, "),
        (
            4096,
            "none none none",
            "yes yes 4096, no yes 8192, no no 8192, 0:53 4096:53 ",
        ),
    ] {
        let said = pushed(rt.alloc(), greatest, words)?;
        assert!(rt; said.as_str() == wanted, "{words}: {said}");
    }
    Ok(())
}

// So many bytes of that record's page.
fn record(alloc: Global, len: usize) -> Result<Vec<u8>, Error> {
    let mut buffer = two_pages(alloc, 8192)?;
    push(alloc, &mut buffer, Compression::None)?;
    let (pages, _) = buffer.finish();
    let mut bytes = Vec::new(alloc);
    bytes.extend_from_slice(pages.as_slice())?;
    bytes.truncate(len);
    Ok(bytes)
}

const RECORD: [u8; 53] = [
    0, 0, 0, 8, 0, 0, 0, 9, 0, 0, 0, 0, 0, 0, 0, 1, 0, 0, 0, 0, 0, 0, 0, 1, 0x97, 0xCF, 0xC8, 0x7E,
    0x4A, 0xC2, 0x0E, 0xA7, 0x97, 0x03, 0x27, 0x00, 1, 0, 0, 0, 0, 0, 0, 0, 97, 1, 0, 0, 0, 0, 0,
    0, 0,
];

#[test]
fn a_record_has_its_bytes(rt: HostRuntime) -> Result<(), Fail> {
    assert!(rt; record(rt.alloc(), 53)?.as_slice() == RECORD.as_slice());
    Ok(())
}

// The pair of hash and sequence in so many of these bytes.
fn read(
    alloc: Global,
    hash: u64,
    sequence: u64,
    len: usize,
) -> Result<Option<(u64, String)>, Error> {
    read_record(&alloc, record(alloc, len)?.as_slice(), hash, sequence)
}

#[test]
fn a_record_is_read_back(rt: HostRuntime) -> Result<(), Fail> {
    let (found, text) = read(rt.alloc(), 1, 1, 53)?.ok_or("no record")?;
    assert!(rt; found == 1 && text.as_str() == "a");
    Ok(())
}

#[test]
fn no_other_record_is_read(rt: HostRuntime) -> Result<(), Fail> {
    for (hash, sequence, len) in [
        (2, 1, 53),
        (1, 2, 53),
        (1, 1, 52),
        (1, 1, 54),
        (1, 1, 35),
        (1, 1, 0),
    ] {
        let other = read(rt.alloc(), hash, sequence, len)?;
        assert!(rt;
            other.is_none(),
            "hash {hash}, sequence {sequence}, {len} bytes"
        );
    }
    Ok(())
}

// The bytes of key 1 and value `a`.
fn entry(alloc: Global) -> Result<(Vec<u8>, KvInfo), Error> {
    let value = String::from_str(alloc, "a")?;
    let mut bytes = Vec::new(alloc);
    let mut writer = TrackedWriter::new(&mut bytes);
    let info = EntrySerializer::serialize(&1u64, &value, Compression::None, &mut writer)?;
    if writer.written() != EntrySerializer::estimated_size(&1u64, &value) {
        return Err(Error::Parse);
    }
    Ok((bytes, info))
}

#[test]
fn an_entry_is_written(rt: HostRuntime) -> Result<(), Fail> {
    let (bytes, info) = entry(rt.alloc())?;
    assert!(rt; bytes.len() == 17 && info.value_len == 9 && info.key_len == 8);
    Ok(())
}

// Reads the pair of an entry's bytes, if this checksum is noted.
fn pair(alloc: Global, bytes: &[u8], sum: u64) -> Result<(u64, String), Error> {
    EntryDeserializer::deserialize(&alloc, bytes, 8, 9, Compression::None, Some(sum))
}

#[test]
fn an_entry_is_read(rt: HostRuntime) -> Result<(), Fail> {
    let alloc = rt.alloc();
    let (bytes, _) = entry(alloc)?;
    let sum = Checksummer::checksum64(bytes.as_slice());
    let (found, text) = pair(alloc, bytes.as_slice(), sum)?;
    assert!(rt; found == 1 && text.as_str() == "a");
    let other = pair(alloc, bytes.as_slice(), 7);
    assert!(rt; matches!(other, Err(Error::ChecksumMismatch)));
    Ok(())
}
