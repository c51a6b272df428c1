//! What is known of a tree by each way in which it can be read, without reading it.
ghost use Rattle.std.specs.Prelude.{◌≡◌, true};
ghost use Rattle.flag_text.specs.Shape.{Shape, is_tidy};
ghost use Rattle.flag_references.specs.Measure.{capped, plus, beside, around, when, item_in_front, in_place_of_bucket, scalar_of, list_measure, object_measure, literal_measure, member_in_front, measure};
ghost use Rattle.flag_references.specs.Readable.{is_within, is_readable, reads};

use limits::{EXPRESSION_LEVELS, EXPRESSION_NODES};

/// Numbers of nodes, levels and bytes count up to this one, which is above every limit.
const MOST: u32 = limits::TEXT_BYTES as u32 + 1;

/// How large a tree is in one way of reading it, and whether nothing is wrong with it.
#[derive(Clone, Copy)]
pub struct Reading {
    pub nodes: u32,
    pub levels: u32,
    pub is_sound: bool,
}

/// A tree by each way of reading it.
#[derive(Clone, Copy)]
pub struct Measure {
    /// As a part of a literal: each scalar, list and object counts. It is sound where each number is whole and no
    /// reference is left.
    pub full: Reading,
    pub expression: Reading,
    /// As the arguments of an operator, without their list.
    pub arguments: Reading,
    pub argument_count: usize,
    /// As the arguments of `fractional`, without their list.
    pub site: Reading,
    /// In the place of a bucket.
    pub bucket: Reading,
    pub is_list: bool,
    pub is_text: bool,
    /// A whole number from 0 to 2^31-1.
    pub is_weight: bool,
    /// It is printed in no fewer bytes.
    pub bytes: u32,
}

/// The items of a list, together.
#[derive(Clone, Copy)]
pub(crate) struct Parts {
    pub(crate) full: Reading,
    pub(crate) expressions: Reading,
    pub(crate) site: Reading,
    pub(crate) buckets: Reading,
    pub(crate) first_is_text: bool,
    pub(crate) first_is_weight: bool,
    pub(crate) second_is_weight: bool,
    pub(crate) bytes: u32,
}

impl Reading {
    /// Of nothing.
    pub(crate) const NOTHING: Reading = Reading {
        nodes: 0,
        levels: 0,
        is_sound: true,
    };

    /// Of a scalar.
    pub(crate) const SCALAR: Reading = Reading {
        nodes: 1,
        levels: 0,
        is_sound: true,
    };

    /// Of two parts of one list or object.
    pub(crate) fn beside(self, other: Reading) -> Reading
        ensures { result ≡ beside self other }
    {
        Reading {
            nodes: plus(self.nodes, other.nodes),
            levels: self.levels.max(other.levels),
            is_sound: self.is_sound && other.is_sound,
        }
    }

    /// Of a list or an object round its parts.
    pub(crate) fn around(self) -> Reading
        ensures { result ≡ around self }
    {
        Reading {
            nodes: plus(self.nodes, 1),
            levels: plus(self.levels, 1),
            is_sound: self.is_sound,
        }
    }

    /// The same, sound only where this holds too.
    pub(crate) fn when(self, holds: bool) -> Reading
        ensures { result ≡ when holds self }
    {
        Reading {
            is_sound: holds && self.is_sound,
            ..self
        }
    }

    /// Whether an expression may have so many nodes and levels.
    pub fn is_within(self) -> bool
        ensures { result ≡ is_within self }
    {
        self.nodes <= EXPRESSION_NODES && self.levels <= EXPRESSION_LEVELS
    }
}

/// A count, up to the most that is counted.
pub fn capped(n: usize) -> u32
    ensures { result ≡ capped n }
{
    n.min(MOST as usize) as u32
}

/// The sum of two counts, up to the most that is counted.
pub fn plus(a: u32, b: u32) -> u32
    ensures { result ≡ plus a b }
{
    (u64::from(a) + u64::from(b)).min(u64::from(MOST)) as u32
}

impl Parts {
    /// Of no items.
    pub(crate) const NONE: Parts = Parts {
        full: Reading::NOTHING,
        expressions: Reading::NOTHING,
        site: Reading::NOTHING,
        buckets: Reading::NOTHING,
        first_is_text: false,
        first_is_weight: false,
        second_is_weight: false,
        bytes: 0,
    };

    /// With one more item in front.
    pub(crate) fn with_front(self, m: Measure) -> Parts
        ensures { result ≡ item_in_front m self }
    {
        let first_of_site = if m.is_list { m.bucket } else { m.expression };
        Parts {
            full: m.full.beside(self.full),
            expressions: m.expression.beside(self.expressions),
            site: first_of_site.beside(self.buckets),
            buckets: m.bucket.beside(self.buckets),
            first_is_text: m.is_text,
            first_is_weight: m.is_weight,
            second_is_weight: self.first_is_weight,
            bytes: plus(m.bytes, self.bytes),
        }
    }

    /// As a list in the place of a bucket: a name, or a name and a weight. A literal bucket counts nothing, and an
    /// absent weight is written as 1.
    fn bucket(self, count: usize) -> Reading
        ensures { result ≡ in_place_of_bucket count self }
    {
        match count {
            1 if self.first_is_text => Reading::NOTHING,
            1 => self.expressions.beside(Reading::SCALAR).around(),
            2 if self.first_is_text && self.second_is_weight => Reading::NOTHING,
            2 => self.expressions.around(),
            _ => self.expressions.around().when(false),
        }
    }
}

impl Measure {
    /// Of a scalar.
    pub(crate) fn scalar(is_whole: bool, is_text: bool, is_weight: bool, bytes: u32) -> Measure
        ensures { result ≡ scalar_of is_whole is_text is_weight bytes }
    {
        Measure {
            full: Reading::SCALAR.when(is_whole),
            expression: Reading::SCALAR,
            arguments: Reading::SCALAR,
            argument_count: 1,
            site: Reading::SCALAR,
            bucket: Reading::SCALAR.when(false),
            is_list: false,
            is_text,
            is_weight,
            bytes: plus(bytes, 1),
        }
    }

    /// Of a list of so many items.
    pub(crate) fn list(count: usize, parts: Parts) -> Measure
        ensures { result ≡ list_measure count parts }
    {
        Measure {
            full: parts.full.around(),
            expression: parts.expressions.around(),
            arguments: parts.expressions,
            argument_count: count,
            site: parts.site,
            bucket: parts.bucket(count),
            is_list: true,
            is_text: false,
            is_weight: false,
            bytes: plus(parts.bytes, 2),
        }
    }

    /// Whether a tree of this measure is read as an expression, with whole numbers alone and no reference left.
    pub fn is_readable(&self) -> bool
        ensures exact { result ≡ reads self.now }
        ensures readable { (t : Shape) → is_tidy t ≡ true → measure t ≡ self.now → result ≡ is_readable t }
    {
        self.reads()
    }

    fn reads(&self) -> bool
        ensures { result ≡ reads self.now }
    {
        self.full.is_sound && self.expression.is_within() && self.expression.is_sound
    }

    pub(crate) fn object(full: Reading, expression: Reading, bytes: u32) -> Measure
        ensures { result ≡ object_measure full expression bytes }
    {
        Measure {
            full,
            expression,
            arguments: expression,
            argument_count: 1,
            site: expression,
            bucket: expression.when(false),
            is_list: false,
            is_text: false,
            is_weight: false,
            bytes: plus(bytes, 2),
        }
    }

    /// Of an object that is a literal: nothing in it is read.
    pub(crate) fn literal(all: (Reading, u32)) -> Measure
        ensures { result ≡ literal_measure all }
    {
        let sound = Reading {
            is_sound: true,
            ..all.0
        };
        Measure::object(all.0.around(), sound.around(), all.1)
    }
}

/// The members of an object with one more in front.
pub(crate) fn member_in_front(name: &str, m: Measure, rest: (Reading, u32)) -> (Reading, u32)
    ensures { result ≡ member_in_front name.now m rest }
{
    (
        m.full.beside(rest.0),
        plus(plus(capped(name.len()), m.bytes), rest.1),
    )
}
