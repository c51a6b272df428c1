//! The kinds of doubts, and those of one flag.
ghost use Rattle.std.specs.Prelude.{◌≡◌, ◌||◌};
ghost use Rattle.flag_doubts.specs.Doubts.{name_of};

/// What may be doubted of a flag.
#[derive(Clone, Copy, Debug, PartialEq, Eq)]
pub enum Doubt {
    /// Its definition has a member that nobody reads.
    Unread,
    /// A bucket's weight is a literal, and no whole number from 0 to 2^31-1, or the literal weights of buckets sum to more, or
    /// each is 0.
    Weight,
    /// Its targeting can result in what names none of its variants.
    Variant,
    /// Its targeting can never give a variant.
    Never,
    /// Its key stands more than once in the document.
    Doubled,
    /// A member stands more than once in its definition.
    Repeated,
}

impl Doubt {
    /// The name that it is told by: the variant's.
    pub fn name(self) -> &'static str
        ensures { result.now ≡ name_of self }
    {
        match self {
            Doubt::Unread => "Unread",
            Doubt::Weight => "Weight",
            Doubt::Variant => "Variant",
            Doubt::Never => "Never",
            Doubt::Doubled => "Doubled",
            Doubt::Repeated => "Repeated",
        }
    }
}

/// What is doubted of one flag, by its definition alone.
#[derive(Clone, Copy, Debug, Drop, PartialEq, Eq)]
pub struct FlagDoubts {
    pub unread: bool,
    pub weight: bool,
    pub variant: bool,
    pub never: bool,
}

impl FlagDoubts {
    /// Whether anything is doubted.
    pub fn is_any(&self) -> bool
        ensures { result ≡ (self.now.unread || self.now.weight || self.now.variant || self.now.never) }
    {
        self.unread || self.weight || self.variant || self.never
    }
}
