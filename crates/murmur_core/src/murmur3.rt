//! The hash: its blocks, its tail and its finish.
ghost use Rattle.std.specs.Prelude.{◌≡◌, ◌+◌, ◌*◌, ◌<◌, ◌^◌, ◌∷◌, [], length};
ghost use Rattle.murmur_core.specs.Murmur.{little_endian, scrambled, with_block, with_tail, finished, hash};

#[tactic(auto, unfolding(crate::specs::Murmur::scrambled))]
fn scrambled(k: u32) -> u32
    ensures { result ≡ scrambled k }
{
    k.wrapping_mul(0xcc9e_2d51)
        .rotate_left(15)
        .wrapping_mul(0x1b87_3593)
}

#[tactic(auto, unfolding(crate::specs::Murmur::with_block))]
fn with_block(h: u32, block: [u8; 4]) -> u32
    ensures { result ≡ with_block h block }
{
    (h ^ scrambled(u32::from_le_bytes(block)))
        .rotate_left(13)
        .wrapping_mul(5)
        .wrapping_add(0xe654_6b64)
}

#[tactic(auto, unfolding(crate::specs::Murmur::with_tail))]
fn with_tail(h: u32, tail: &[u8]) -> u32
    requires { length tail.now < 4 }
    ensures { result ≡ with_tail h tail.now }
{
    match tail {
        [a] => h ^ scrambled(u32::from(*a)),
        [a, b] => h ^ scrambled(u32::from_le_bytes([*a, *b, 0, 0])),
        [a, b, c] => h ^ scrambled(u32::from_le_bytes([*a, *b, *c, 0])),
        _ => h,
    }
}

#[tactic(auto, unfolding(crate::specs::Murmur::finished))]
fn finished(len: usize, mut h: u32) -> u32
    ensures { result ≡ finished len h }
{
    h ^= (len % (1 << 32)) as u32;
    h ^= h >> 16;
    h = h.wrapping_mul(0x85eb_ca6b);
    h ^= h >> 13;
    h = h.wrapping_mul(0xc2b2_ae35);
    h ^ (h >> 16)
}

/// The hash of the bytes under the seed, an unsigned number of 32 bits. Of the number of bytes the
/// lowest 32 bits count. It takes one multiplication chain a block of four bytes, and no memory.
pub fn hash(bytes: &[u8], seed: u32) -> u32
    ensures { result ≡ hash bytes.now seed }
{
    let mut h = seed;
    let mut rest = bytes;
    while rest.len() >= 4 {
        h = with_block(h, [rest[0], rest[1], rest[2], rest[3]]);
        rest = &rest[4..];
    }
    finished(bytes.len(), with_tail(h, rest))
}
