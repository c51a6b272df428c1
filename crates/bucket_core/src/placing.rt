//! From a hash input to its point.
ghost use Rattle.std.specs.Prelude.{◌≡◌, ◌<◌};
ghost use Rattle.bucket_core.specs.Point.{scale, point_of};
ghost use Rattle.bucket_core.specs.Rule.{IsRuleTotal};

use murmur_core::hash;

/// A hash, as a part of 2^32, scaled to the total: `floor(hash * total / 2^32)`.
pub fn scale(total: u32, hash: u32) -> u32
    requires { IsRuleTotal total }
    ensures value { result ≡ scale total hash }
    ensures below { result < total }
{
    ((u64::from(hash) * u64::from(total)) >> 32) as u32
}

/// The point of a hash input among so many: its MurmurHash3 with seed 0, scaled.
#[tactic(auto, unfolding(crate::specs::Point::point_of))]
pub fn point(total: u32, key: &str) -> u32
    requires { IsRuleTotal total }
    ensures value { result ≡ point_of total key.now }
    ensures below { result < total }
{
    scale(total, hash(key.as_bytes(), 0))
}
