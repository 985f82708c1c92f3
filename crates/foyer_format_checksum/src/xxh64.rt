//! XXH64: stripes of 32 bytes into four words, then the rest by lanes of 8, of 4, and by bytes.

ghost use Rattle.std.specs.Prelude.{◌≡◌, ◌+◌, ◌-◌, ◌*◌, ◌/◌, ◌≤◌, ◌<◌, ◌^◌, length};
ghost use Rattle.foyer_format_checksum.specs.Xxh64.{xxh64, round, lane, half_lane, column, merge, merge_columns, stripes, mix_lane, mix_half_lane, mix_byte, mix_lanes, mix_bytes, mix_last, mix_tail, avalanche};

const PRIME64_1: u64 = 0x9E37_79B1_85EB_CA87;

const PRIME64_2: u64 = 0xC2B2_AE3D_27D4_EB4F;

const PRIME64_3: u64 = 0x1656_67B1_9E37_79F9;

const PRIME64_4: u64 = 0x85EB_CA77_C2B2_AE63;

const PRIME64_5: u64 = 0x27D4_EB2F_1656_67C5;

#[tactic(auto, unfolding(crate::specs::Xxh64::lane))]
fn lane(bytes: &[u8], at: usize) -> u64
    requires { at + 8 ≤ length bytes.now }
    ensures { result ≡ lane bytes.now at }
{
    u64::from_le_bytes([
        bytes[at],
        bytes[at + 1],
        bytes[at + 2],
        bytes[at + 3],
        bytes[at + 4],
        bytes[at + 5],
        bytes[at + 6],
        bytes[at + 7],
    ])
}

#[tactic(auto, unfolding(crate::specs::Xxh64::half_lane))]
fn half_lane(bytes: &[u8], at: usize) -> u64
    requires { at + 4 ≤ length bytes.now }
    ensures { result ≡ half_lane bytes.now at }
{
    u64::from(u32::from_le_bytes([bytes[at], bytes[at + 1], bytes[at + 2], bytes[at + 3]]))
}

#[inline(always)]
#[tactic(auto, unfolding(crate::specs::Xxh64::round))]
fn round(word: u64, lane: u64) -> u64
    ensures { result ≡ round word lane }
{
    word.wrapping_add(lane.wrapping_mul(PRIME64_2))
        .rotate_left(31)
        .wrapping_mul(PRIME64_1)
}

#[tactic(auto, unfolding(crate::specs::Xxh64::merge))]
fn merge(h: u64, column: u64) -> u64
    ensures { result ≡ merge h column }
{
    (h ^ round(0, column))
        .wrapping_mul(PRIME64_1)
        .wrapping_add(PRIME64_4)
}

#[tactic(auto, unfolding(crate::specs::Xxh64::merge_columns))]
fn merge_columns(a1: u64, a2: u64, a3: u64, a4: u64) -> u64
    ensures { result ≡ merge_columns a1 a2 a3 a4 }
{
    let h = a1
        .rotate_left(1)
        .wrapping_add(a2.rotate_left(7))
        .wrapping_add(a3.rotate_left(12))
        .wrapping_add(a4.rotate_left(18));
    merge(merge(merge(merge(h, a1), a2), a3), a4)
}

#[tactic(auto, unfolding(crate::specs::Xxh64::mix_lane))]
fn mix_lane(h: u64, lane: u64) -> u64
    ensures { result ≡ mix_lane h lane }
{
    (h ^ round(0, lane))
        .rotate_left(27)
        .wrapping_mul(PRIME64_1)
        .wrapping_add(PRIME64_4)
}

#[tactic(auto, unfolding(crate::specs::Xxh64::mix_half_lane))]
fn mix_half_lane(h: u64, lane: u64) -> u64
    ensures { result ≡ mix_half_lane h lane }
{
    (h ^ lane.wrapping_mul(PRIME64_1))
        .rotate_left(23)
        .wrapping_mul(PRIME64_2)
        .wrapping_add(PRIME64_3)
}

#[tactic(auto, unfolding(crate::specs::Xxh64::mix_byte))]
fn mix_byte(h: u64, byte: u8) -> u64
    ensures { result ≡ mix_byte h byte }
{
    (h ^ u64::from(byte).wrapping_mul(PRIME64_5))
        .rotate_left(11)
        .wrapping_mul(PRIME64_1)
}

#[tactic(auto, unfolding(crate::specs::Xxh64::avalanche))]
fn avalanche(h: u64) -> u64
    ensures { result ≡ avalanche h }
{
    let once = (h ^ (h >> 33)).wrapping_mul(PRIME64_2);
    let twice = (once ^ (once >> 29)).wrapping_mul(PRIME64_3);
    twice ^ (twice >> 32)
}

// The whole stripes.
#[tactic(auto, unfolding(crate::specs::Xxh64::stripes, crate::specs::Xxh64::column))]
fn stripes(bytes: &[u8]) -> u64
    ensures { result ≡ stripes bytes.now }
{
    if bytes.len() < 32 {
        return PRIME64_5;
    }
    let mut a1 = PRIME64_1.wrapping_add(PRIME64_2);
    let mut a2 = PRIME64_2;
    let mut a3 = 0u64;
    let mut a4 = 0u64.wrapping_sub(PRIME64_1);
    'stripes: for i in 0..bytes.len() / 32 {
        a1 = round(a1, lane(bytes, 32 * i));
        a2 = round(a2, lane(bytes, 32 * i + 8));
        a3 = round(a3, lane(bytes, 32 * i + 16));
        a4 = round(a4, lane(bytes, 32 * i + 24));
    }
    merge_columns(a1, a2, a3, a4)
}

#[tactic(auto, unfolding(crate::specs::Xxh64::mix_bytes))]
fn mix_bytes(mut h: u64, bytes: &[u8]) -> u64
    ensures { result ≡ mix_bytes h bytes.now }
{
    for byte in bytes {
        h = mix_byte(h, *byte);
    }
    h
}

#[tactic(auto, unfolding(crate::specs::Xxh64::mix_lanes))]
fn mix_lanes(mut h: u64, bytes: &[u8]) -> u64
    ensures { result ≡ mix_lanes h bytes.now (length bytes.now / 8) }
{
    'lanes: for i in 0..bytes.len() / 8 {
        h = mix_lane(h, lane(bytes, 8 * i));
    }
    h
}

#[tactic(auto, unfolding(crate::specs::Xxh64::mix_last))]
fn mix_last(h: u64, bytes: &[u8]) -> u64
    ensures { result ≡ mix_last h bytes.now }
{
    if bytes.len() < 4 {
        mix_bytes(h, bytes)
    } else {
        mix_bytes(mix_half_lane(h, half_lane(bytes, 0)), &bytes[4..])
    }
}

#[tactic(auto, unfolding(crate::specs::Xxh64::mix_tail))]
fn mix_tail(h: u64, bytes: &[u8]) -> u64
    ensures { result ≡ mix_tail h bytes.now }
{
    let lanes = bytes.len() / 8;
    mix_last(mix_lanes(h, bytes), &bytes[8 * lanes..])
}

/// XXH64 of the whole slice, with start value 0 (xxHash specification, XXH64, steps 1 to 7).
#[tactic(auto, unfolding(crate::specs::Xxh64::xxh64))]
pub(crate) fn checksum64(buf: &[u8]) -> u64
    ensures { result ≡ xxh64 buf.now }
{
    let whole = 32 * (buf.len() / 32);
    avalanche(mix_tail(stripes(buf).wrapping_add(buf.len() as u64), &buf[whole..]))
}
