//! What an operation gives, whatever its arguments are.
ghost use Rattle.std.specs.Prelude.{◌≡◌};
ghost use Rattle.flag_doubts.specs.Outcomes.{given_by};

use logic_ast::Operator;

/// What an operation of a targeting gives, as far as its operator tells.
#[derive(Clone, Copy, Debug, PartialEq, Eq)]
pub enum Given {
    /// `true` or `false`, which name the variants of these names.
    Truth,
    /// A number or a list, which name no variant.
    NoName,
    /// What only an evaluation tells.
    Computed,
}

/// What an operation of this operator gives, where it gives a value that is not null.
pub fn given_by(operator: Operator) -> Given
    ensures { result ≡ given_by operator }
{
    match operator {
        Operator::Not
        | Operator::Truth
        | Operator::Equal
        | Operator::StrictEqual
        | Operator::NotEqual
        | Operator::StrictNotEqual
        | Operator::Less
        | Operator::LessOrEqual
        | Operator::Greater
        | Operator::GreaterOrEqual
        | Operator::AllOf
        | Operator::NoneOf
        | Operator::SomeOf
        | Operator::In
        | Operator::StartsWith
        | Operator::EndsWith
        | Operator::SemVer => Given::Truth,
        Operator::Add
        | Operator::Subtract
        | Operator::Multiply
        | Operator::Remainder
        | Operator::Max
        | Operator::Min
        | Operator::Missing
        | Operator::MissingSome
        | Operator::Map
        | Operator::Filter
        | Operator::Merge => Given::NoName,
        Operator::Var
        | Operator::If
        | Operator::And
        | Operator::Or
        | Operator::Reduce
        | Operator::Cat
        | Operator::Substr => Given::Computed,
    }
}
