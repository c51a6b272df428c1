//! The operators of an expression: their names and how many arguments they take.
ghost use Rattle.std.specs.Prelude.{◌≡◌};
ghost use Rattle.std.specs.List.{filter, find};
ghost use Rattle.std.specs.Str.{bytes_eq};
ghost use Rattle.logic_ast.specs.Operator.{operator_name, takes, operators, operator_of, is_fractional, begins_with};

/// An operator. The name of each, as JsonLogic or flagd has it, stands beside it; `fractional` is a node of its own.
#[derive(Clone, Copy, Debug, PartialEq, Eq)]
pub enum Operator {
    /// `var`
    Var,
    /// `missing`
    Missing,
    /// `missing_some`
    MissingSome,
    /// `if`
    If,
    /// `and`
    And,
    /// `or`
    Or,
    /// `!`
    Not,
    /// `!!`
    Truth,
    /// `==`
    Equal,
    /// `===`
    StrictEqual,
    /// `!=`
    NotEqual,
    /// `!==`
    StrictNotEqual,
    /// `<`
    Less,
    /// `<=`
    LessOrEqual,
    /// `>`
    Greater,
    /// `>=`
    GreaterOrEqual,
    /// `+`
    Add,
    /// `-`
    Subtract,
    /// `*`
    Multiply,
    /// `%`
    Remainder,
    /// `max`
    Max,
    /// `min`
    Min,
    /// `map`
    Map,
    /// `filter`
    Filter,
    /// `reduce`
    Reduce,
    /// `all`
    AllOf,
    /// `none`
    NoneOf,
    /// `some`
    SomeOf,
    /// `merge`
    Merge,
    /// `in`
    In,
    /// `cat`
    Cat,
    /// `substr`
    Substr,
    /// `starts_with`
    StartsWith,
    /// `ends_with`
    EndsWith,
    /// `sem_ver`
    SemVer,
}

impl Operator {
    /// The operator of this name. It compares the name with those alone that begin with the same byte.
    pub fn named(name: &str) -> Option<Operator>
        ensures { result ≡ operator_of name.now }
    {
        let first = *name.as_bytes().first()?;
        named_among(beginning_with(first), name)
    }

    /// The name of the operator in an expression.
    pub fn name(self) -> &'static str
        ensures { result.now ≡ operator_name self }
    {
        match self {
            Operator::Var => "var",
            Operator::Missing => "missing",
            Operator::MissingSome => "missing_some",
            Operator::If => "if",
            Operator::And => "and",
            Operator::Or => "or",
            Operator::Not => "!",
            Operator::Truth => "!!",
            Operator::Equal => "==",
            Operator::StrictEqual => "===",
            Operator::NotEqual => "!=",
            Operator::StrictNotEqual => "!==",
            Operator::Less => "<",
            Operator::LessOrEqual => "<=",
            Operator::Greater => ">",
            Operator::GreaterOrEqual => ">=",
            Operator::Add => "+",
            Operator::Subtract => "-",
            Operator::Multiply => "*",
            Operator::Remainder => "%",
            Operator::Max => "max",
            Operator::Min => "min",
            Operator::Map => "map",
            Operator::Filter => "filter",
            Operator::Reduce => "reduce",
            Operator::AllOf => "all",
            Operator::NoneOf => "none",
            Operator::SomeOf => "some",
            Operator::Merge => "merge",
            Operator::In => "in",
            Operator::Cat => "cat",
            Operator::Substr => "substr",
            Operator::StartsWith => "starts_with",
            Operator::EndsWith => "ends_with",
            Operator::SemVer => "sem_ver",
        }
    }

    /// Whether the operator may have so many arguments.
    pub fn takes(self, count: usize) -> bool
        ensures { result ≡ takes self count }
    {
        match self {
            Operator::Missing
            | Operator::If
            | Operator::And
            | Operator::Or
            | Operator::Add
            | Operator::Merge
            | Operator::Cat => true,
            Operator::Var => count <= 2,
            Operator::Multiply | Operator::Max | Operator::Min => count >= 1,
            Operator::Not | Operator::Truth => count == 1,
            Operator::Subtract => 1 <= count && count <= 2,
            Operator::MissingSome
            | Operator::Equal
            | Operator::StrictEqual
            | Operator::NotEqual
            | Operator::StrictNotEqual
            | Operator::Greater
            | Operator::GreaterOrEqual
            | Operator::Remainder
            | Operator::Map
            | Operator::Filter
            | Operator::AllOf
            | Operator::NoneOf
            | Operator::SomeOf
            | Operator::In
            | Operator::StartsWith
            | Operator::EndsWith => count == 2,
            Operator::Less | Operator::LessOrEqual | Operator::Reduce | Operator::Substr => 2
                <= count
                && count <= 3,
            Operator::SemVer => count == 3,
        }
    }
}

/// The operator of this name among some.
fn named_among(operators: &[Operator], name: &str) -> Option<Operator>
    ensures { result ≡ find (λ o. bytes_eq (operator_name o) name.now) operators.now }
{
    operators
        .iter()
        .copied()
        .find(|operator| operator.name() == name)
}

/// The operators whose names begin with this byte, in the order in which they are declared.
fn beginning_with(byte: u8) -> &'static [Operator]
    ensures { result.now ≡ filter (begins_with byte) operators }
{
    match byte {
        b'v' => &[Operator::Var],
        b'm' => &[
            Operator::Missing,
            Operator::MissingSome,
            Operator::Max,
            Operator::Min,
            Operator::Map,
            Operator::Merge,
        ],
        b'i' => &[Operator::If, Operator::In],
        b'a' => &[Operator::And, Operator::AllOf],
        b'o' => &[Operator::Or],
        b'!' => &[
            Operator::Not,
            Operator::Truth,
            Operator::NotEqual,
            Operator::StrictNotEqual,
        ],
        b'=' => &[Operator::Equal, Operator::StrictEqual],
        b'<' => &[Operator::Less, Operator::LessOrEqual],
        b'>' => &[Operator::Greater, Operator::GreaterOrEqual],
        b'+' => &[Operator::Add],
        b'-' => &[Operator::Subtract],
        b'*' => &[Operator::Multiply],
        b'%' => &[Operator::Remainder],
        b'f' => &[Operator::Filter],
        b'r' => &[Operator::Reduce],
        b'n' => &[Operator::NoneOf],
        b's' => &[
            Operator::SomeOf,
            Operator::Substr,
            Operator::StartsWith,
            Operator::SemVer,
        ],
        b'c' => &[Operator::Cat],
        b'e' => &[Operator::EndsWith],
        _ => &[],
    }
}

/// The name of the operation that is a site.
pub(crate) const FRACTIONAL: &str = "fractional";

/// Whether an operation of this name is a site.
#[tactic(auto, unfolding(crate::specs::Operator::is_fractional))]
pub fn is_fractional(name: &str) -> bool
    ensures { result ≡ is_fractional name.now }
{
    FRACTIONAL == name
}
