//! XXH32: stripes of 16 bytes into four words, then the rest by lanes of 4 and by bytes.

ghost use Rattle.std.specs.Prelude.{◌≡◌, ◌+◌, ◌-◌, ◌*◌, ◌/◌, ◌≤◌, ◌<◌, ◌^◌, length};
ghost use Rattle.foyer_format_checksum.specs.Xxh32.{xxh32, round, lane, column, merge_columns, stripes, mix_lane, mix_byte, mix_lanes, mix_bytes, mix_tail, avalanche};

const PRIME32_1: u32 = 0x9E37_79B1;

const PRIME32_2: u32 = 0x85EB_CA77;

const PRIME32_3: u32 = 0xC2B2_AE3D;

const PRIME32_4: u32 = 0x27D4_EB2F;

const PRIME32_5: u32 = 0x1656_67B1;

#[tactic(auto, unfolding(crate::specs::Xxh32::lane))]
fn lane(bytes: &[u8], at: usize) -> u32
    requires { at + 4 ≤ length bytes.now }
    ensures { result ≡ lane bytes.now at }
{
    u32::from_le_bytes([bytes[at], bytes[at + 1], bytes[at + 2], bytes[at + 3]])
}

#[inline(always)]
#[tactic(auto, unfolding(crate::specs::Xxh32::round))]
fn round(word: u32, lane: u32) -> u32
    ensures { result ≡ round word lane }
{
    word.wrapping_add(lane.wrapping_mul(PRIME32_2))
        .rotate_left(13)
        .wrapping_mul(PRIME32_1)
}

#[tactic(auto, unfolding(crate::specs::Xxh32::mix_lane))]
fn mix_lane(h: u32, lane: u32) -> u32
    ensures { result ≡ mix_lane h lane }
{
    h.wrapping_add(lane.wrapping_mul(PRIME32_3))
        .rotate_left(17)
        .wrapping_mul(PRIME32_4)
}

#[tactic(auto, unfolding(crate::specs::Xxh32::mix_byte))]
fn mix_byte(h: u32, byte: u8) -> u32
    ensures { result ≡ mix_byte h byte }
{
    h.wrapping_add(u32::from(byte).wrapping_mul(PRIME32_5))
        .rotate_left(11)
        .wrapping_mul(PRIME32_1)
}

#[tactic(auto, unfolding(crate::specs::Xxh32::avalanche))]
fn avalanche(h: u32) -> u32
    ensures { result ≡ avalanche h }
{
    let once = (h ^ (h >> 15)).wrapping_mul(PRIME32_2);
    let twice = (once ^ (once >> 13)).wrapping_mul(PRIME32_3);
    twice ^ (twice >> 16)
}

// The whole stripes.
#[tactic(auto, unfolding(crate::specs::Xxh32::stripes, crate::specs::Xxh32::column, crate::specs::Xxh32::merge_columns))]
fn stripes(bytes: &[u8]) -> u32
    ensures { result ≡ stripes bytes.now }
{
    if bytes.len() < 16 {
        return PRIME32_5;
    }
    let mut a1 = PRIME32_1.wrapping_add(PRIME32_2);
    let mut a2 = PRIME32_2;
    let mut a3 = 0u32;
    let mut a4 = 0u32.wrapping_sub(PRIME32_1);
    'stripes: for i in 0..bytes.len() / 16 {
        a1 = round(a1, lane(bytes, 16 * i));
        a2 = round(a2, lane(bytes, 16 * i + 4));
        a3 = round(a3, lane(bytes, 16 * i + 8));
        a4 = round(a4, lane(bytes, 16 * i + 12));
    }
    a1.rotate_left(1)
        .wrapping_add(a2.rotate_left(7))
        .wrapping_add(a3.rotate_left(12))
        .wrapping_add(a4.rotate_left(18))
}

#[tactic(auto, unfolding(crate::specs::Xxh32::mix_bytes))]
fn mix_bytes(mut h: u32, bytes: &[u8]) -> u32
    ensures { result ≡ mix_bytes h bytes.now }
{
    for byte in bytes {
        h = mix_byte(h, *byte);
    }
    h
}

#[tactic(auto, unfolding(crate::specs::Xxh32::mix_lanes))]
fn mix_lanes(mut h: u32, bytes: &[u8]) -> u32
    ensures { result ≡ mix_lanes h bytes.now (length bytes.now / 4) }
{
    'lanes: for i in 0..bytes.len() / 4 {
        h = mix_lane(h, lane(bytes, 4 * i));
    }
    h
}

#[tactic(auto, unfolding(crate::specs::Xxh32::mix_tail))]
fn mix_tail(h: u32, bytes: &[u8]) -> u32
    ensures { result ≡ mix_tail h bytes.now }
{
    let lanes = bytes.len() / 4;
    mix_bytes(mix_lanes(h, bytes), &bytes[4 * lanes..])
}

/// XXH32 of the whole slice, with start value 0 (xxHash specification, XXH32, steps 1 to 7).
#[tactic(auto, unfolding(crate::specs::Xxh32::xxh32))]
pub(crate) fn checksum32(buf: &[u8]) -> u32
    ensures { result ≡ xxh32 buf.now }
{
    let whole = 16 * (buf.len() / 16);
    let len = (buf.len() % 0x1_0000_0000) as u32;
    avalanche(mix_tail(stripes(buf).wrapping_add(len), &buf[whole..]))
}
