//! Values of each type with their bytes, and bytes that decode to none.
use foyer_device_page::error::{Error, Result};
use foyer_format_record::serde::Code;
use foyer_testing::said::Said;
use std::alloc::Global;
use std::test::Fail;

// Whether the bytes decode to no value.
fn is_refused<C: Code<Global> + Drop>(alloc: Global, bytes: &[u8]) -> bool {
    matches!(C::decode(alloc, bytes), Err(Error::Parse))
}

// Whether the value is encoded so and read back, and with a byte more, a byte less or none is_encodable
// nothing.
fn is_encoded<C: Code<Global> + PartialEq + Drop>(
    alloc: Global,
    value: &C,
    bytes: &[u8],
) -> Result<bool> {
    let mut written = Vec::new(alloc);
    value.encode(&mut written)?;
    if written.as_slice() != bytes || value.estimated_size() != bytes.len() {
        return Ok(false);
    }
    if C::decode(alloc, bytes)? != *value {
        return Ok(false);
    }
    written.push(0)?;
    let Some((_, shorter)) = bytes.split_last() else {
        return Ok(false);
    };
    Ok(
        is_refused::<C>(alloc, written.as_slice())
            && is_refused::<C>(alloc, shorter)
            && is_refused::<C>(alloc, b""),
    )
}

// Says the same, if memory is ample.
fn is_encodable<C: Code<Global> + PartialEq + Drop>(
    alloc: Global,
    value: &C,
    bytes: &[u8],
) -> bool {
    matches!(is_encoded(alloc, value, bytes), Ok(true))
}

// Notes a word, and whether the value is encodable so.
fn say<C: Code<Global> + PartialEq + Drop>(
    said: &mut Said,
    alloc: Global,
    word: &str,
    value: &C,
    bytes: &[u8],
) {
    said.flag(word, is_encodable(alloc, value, bytes));
}

fn unsigned(alloc: Global) -> Result<String> {
    let mut said = Said::new(alloc);
    let wide = [8, 7, 6, 5, 4, 3, 2, 1];
    let wider = [0, 0, 0, 0, 0, 0, 0, 0, 0, 0, 0, 0, 0, 0, 2, 1];
    say(&mut said, alloc, "u8 ", &0u8, &[0]);
    say(&mut said, alloc, ", its last ", &u8::MAX, &[255]);
    say(&mut said, alloc, ", u16 ", &0x0102u16, &[2, 1]);
    say(&mut said, alloc, ", u32 ", &0x0102_0304u32, &[4, 3, 2, 1]);
    say(&mut said, alloc, ", u64 ", &0x0102_0304_0506_0708u64, &wide);
    say(
        &mut said,
        alloc,
        ", usize ",
        &0x0102_0304_0506_0708usize,
        &wide,
    );
    say(&mut said, alloc, ", the last u64 ", &u64::MAX, &[255; 8]);
    say(&mut said, alloc, ", u128 ", &(0x0102u128 << 112), &wider);
    said.text()
}

#[test]
fn numbers_have_their_lowest_byte_first(rt: HostRuntime) -> std::result::Result<(), Fail> {
    let said = unsigned(rt.alloc())?;
    let wanted =
        "u8 yes, its last yes, u16 yes, u32 yes, u64 yes, usize yes, the last u64 yes, u128 yes";
    assert!(rt; said.as_str() == wanted, "{said}");
    Ok(())
}

fn signed(alloc: Global) -> Result<String> {
    let mut said = Said::new(alloc);
    let least = [0, 0, 0, 0, 0, 0, 0, 128];
    let one = [1, 0, 0, 0, 0, 0, 0, 0, 0, 0, 0, 0, 0, 0, 0, 0];
    say(&mut said, alloc, "i8 ", &-1i8, &[255]);
    say(&mut said, alloc, ", its least ", &i8::MIN, &[128]);
    say(&mut said, alloc, ", i16 ", &-2i16, &[254, 255]);
    say(&mut said, alloc, ", above 0 ", &0x0102i16, &[2, 1]);
    say(&mut said, alloc, ", i32 ", &-2i32, &[254, 255, 255, 255]);
    say(&mut said, alloc, ", the least i64 ", &i64::MIN, &least);
    say(&mut said, alloc, ", isize ", &-1isize, &[255; 8]);
    say(&mut said, alloc, ", i128 ", &-1i128, &[255; 16]);
    say(&mut said, alloc, ", above 0 ", &1i128, &one);
    said.text()
}

#[test]
fn signed_numbers_keep_their_sign(rt: HostRuntime) -> std::result::Result<(), Fail> {
    let said = signed(rt.alloc())?;
    let wanted =
        "i8 yes, its least yes, i16 yes, above 0 yes, i32 yes, the least i64 yes, isize yes, i128 yes, above 0 yes";
    assert!(rt; said.as_str() == wanted, "{said}");
    Ok(())
}

#[test]
fn a_flag_is_one_byte_of_two(rt: HostRuntime) -> std::result::Result<(), Fail> {
    let alloc = rt.alloc();
    assert!(rt; is_encodable(alloc, &false, &[0]) && is_encodable(alloc, &true, &[1]));
    for byte in 2..=255u8 {
        assert!(rt; is_refused::<bool>(alloc, &[byte]), "byte {byte}");
    }
    Ok(())
}

#[test]
fn bytes_follow_their_length(rt: HostRuntime) -> std::result::Result<(), Fail> {
    let alloc = rt.alloc();
    let none: Vec<u8> = Vec::new(alloc);
    assert!(rt; is_encodable(alloc, &none, &[0, 0, 0, 0, 0, 0, 0, 0]));
    let three = Vec::from_slice(alloc, &[0, 255, 7])?;
    assert!(rt; is_encodable(alloc, &three, &[3, 0, 0, 0, 0, 0, 0, 0, 0, 255, 7]));
    // A length that no memory has, one of another byte order, and one that counts itself.
    for hostile in [
        [255, 255, 255, 255, 255, 255, 255, 255, 1],
        [0, 0, 0, 0, 0, 0, 0, 1, 1],
        [9, 0, 0, 0, 0, 0, 0, 0, 1],
    ] {
        assert!(rt;
            is_refused::<Vec<u8>>(alloc, &hostile) && is_refused::<String>(alloc, &hostile)
        );
    }
    Ok(())
}

#[test]
fn a_text_is_utf8(rt: HostRuntime) -> std::result::Result<(), Fail> {
    let alloc = rt.alloc();
    let text = String::from_str(alloc, "é")?;
    assert!(rt; is_encodable(alloc, &text, &[2, 0, 0, 0, 0, 0, 0, 0, 0xC3, 0xA9]));
    // Half of a sign, a sign encoded too long, and half of a pair.
    for hostile in [[0xC3, 0x28, 0x28], [0xE0, 0x80, 0xAF], [0xED, 0xA0, 0x80]] {
        let mut bytes = Vec::from_slice(alloc, &[3, 0, 0, 0, 0, 0, 0, 0])?;
        bytes.extend_from_slice(&hostile)?;
        assert!(rt; is_refused::<String>(alloc, bytes.as_slice()));
        let kept: Vec<u8> = Code::decode(alloc, bytes.as_slice())?;
        assert!(rt; kept.as_slice() == hostile.as_slice());
    }
    Ok(())
}
