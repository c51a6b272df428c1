//! Numbers, as words of the command line.
ghost use Rattle.std.specs.Prelude.{◌≡◌, ◌≤◌, ◌<◌, ◌^◌, ◌&&◌, nat_le, if◌then◌else◌, IfSome, Some, None, option_map, unwrap_or};
ghost use Rattle.flagops_words.specs.Numbers.{factor_in, max_16, max_32, moment_in, number_in};

/// The latest moment, 2^53-1.
pub const LATEST_MOMENT: u64 = limits::LATEST_MOMENT;

/// The largest number of 16 bits.
pub const LARGEST_16: u64 = 65_535;

/// The largest number of 32 bits.
pub const LARGEST_32: u64 = 4_294_967_295;

/// The largest port.
pub const LARGEST_PORT: u64 = LARGEST_16;

/// The moment of an evaluation: a Unix timestamp in seconds, at most 2^53-1.
#[derive(Clone, Copy, Debug, PartialEq, Eq)]
pub struct Moment {
    pub number: u64,
    ghost small: { number < 2 ^ 53 },
}

impl Moment {
    /// The moment that a word spells.
    pub fn spelled(word: &str) -> Option<Moment>
        ensures { option_map (λ m. m.number) result ≡ moment_in word.now }
    {
        let number = spelled(word, 0, LATEST_MOMENT)?;
        Some(Moment { number })
    }
}

/// What the weights of a site's rule are multiplied by: a number of 32 bits from 1.
#[derive(Clone, Copy, Debug, PartialEq, Eq)]
pub struct Factor {
    pub number: u32,
    ghost positive: { 0 < number },
}

impl Factor {
    /// The factor that a word spells.
    pub fn spelled(word: &str) -> Option<Factor>
        ensures { option_map (λ m. m.number) result ≡ factor_in word.now }
    {
        let number = spelled(word, 1, LARGEST_32)?;
        Some(Factor {
            number: number as u32,
        })
    }
}

/// What the weights of a site's rule are multiplied by: 1 where no factor is given.
pub fn factor_of(refine: Option<Factor>) -> u32
    ensures some { 0 < result }
    ensures value { result ≡ unwrap_or (option_map (λ m. m.number) refine) 1 }
{
    match refine {
        Some(m) => m.number,
        None => 1,
    }
}

/// The same, where a factor is given.
pub fn factor_number(refine: Option<Factor>) -> Option<u32>
    ensures value { result ≡ option_map (λ m. m.number) refine }
    ensures some { IfSome result (λ m. 0 < m) }
{
    match refine {
        Some(m) => Some(m.number),
        None => None,
    }
}

/// The number of 16 bits that a word spells.
pub fn spelled_16(word: &str) -> Option<u16>
    ensures { result ≡ number_in 0 max_16 word.now }
{
    let number = spelled(word, 0, LARGEST_16)?;
    Some(number as u16)
}

/// The number of 32 bits that a word spells.
pub fn spelled_32(word: &str) -> Option<u32>
    ensures { result ≡ number_in 0 max_32 word.now }
{
    let number = spelled(word, 0, LARGEST_32)?;
    Some(number as u32)
}

/// The number within the bounds that a word spells in decimal digits, perhaps after a plus.
pub fn spelled(word: &str, least: u64, most: u64) -> Option<u64>
    ensures number { result ≡ number_in least most word.now }
    ensures bounds { IfSome result (λ n. (least ≤ n) × (n ≤ most)) }
{
    match word.parse::<u64>() {
        Ok(number) => within(number, least, most),
        Err(_) => None,
    }
}

fn within(number: u64, least: u64, most: u64) -> Option<u64>
    ensures number { result ≡ (if nat_le least number && nat_le number most then Some number else None) }
    ensures bounds { IfSome result (λ n. (least ≤ n) × (n ≤ most)) }
{
    if least <= number && number <= most {
        Some(number)
    } else {
        None
    }
}
