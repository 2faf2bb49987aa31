//! Values of expressions, and what they are values of.

ghost use Rattle.std.specs.Prelude.{◌≡◌};
ghost use Rattle.term_model.specs.Kinds.{scale_of_kind};
ghost use Rattle.term_model.specs.Branches.{either};
ghost use Rattle.term_model.specs.Values.{num, truth};

/// The value of an expression: the mantissa of a number, at the scale that its kind says, or a
/// truth value.
#[derive(Clone, Copy, Debug, PartialEq, Eq)]
pub enum Value {
    Num { mant: i128 },
    Truth { value: bool },
}

/// What an expression is: a truth value, or a number with a count of decimals.
#[derive(Clone, Copy, Debug, PartialEq, Eq)]
pub enum Kind {
    Truth,
    Number { scale: u8 },
}

/// A place that was read and is not fixed: a label, and a day of the portfolio.
#[derive(Clone, Copy, Debug, PartialEq, Eq)]
pub struct Missing {
    pub label: u32,
    pub day: i64,
}

impl Value {
    /// The mantissa of a number. A truth value has none, and counts as 0.
    pub fn number(self) -> i128
        ensures { result ≡ num self }
    {
        match self {
            Value::Num { mant } => mant,
            Value::Truth { .. } => 0,
        }
    }

    /// Whether it is the truth value true.
    pub fn is_true(self) -> bool
        ensures { result ≡ truth self }
    {
        match self {
            Value::Num { .. } => false,
            Value::Truth { value } => value,
        }
    }
}

impl Kind {
    /// The decimals of a number. A truth value has none.
    pub fn scale(self) -> u8
        ensures { result ≡ scale_of_kind self }
    {
        match self {
            Kind::Truth => 0,
            Kind::Number { scale } => scale,
        }
    }

    /// The kind of what is either of two branches, one of this kind and one of the other: of two
    /// numbers a number with the decimals of both.
    pub fn either(self, other: Kind) -> Kind
        ensures { result ≡ either self other }
    {
        match (self, other) {
            (Kind::Truth, Kind::Truth) => Kind::Truth,
            _ => Kind::Number {
                scale: self.scale().max(other.scale()),
            },
        }
    }
}
