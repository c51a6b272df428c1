//! The words of a picture.
ghost use Rattle.std.specs.Prelude.{◌≡◌};
ghost use Rattle.picture.specs.Words.{class_of, text_of, title_of};

/// What a picture says in words of its own.
#[derive(Clone, Copy, Debug)]
pub enum Word {
    Step,
    Cost,
    Least,
    Points,
    Before,
    After,
    Variant,
    AtLeast,
    AtMost,
    DualPrice,
    From,
    To,
    Users,
    Price,
    NotAllowed,
    NoRule,
    Over,
    Under,
    Site,
    Inputs,
    Switched,
    NoPage,
}

impl Word {
    /// Its text, in which nothing needs an entity.
    pub(crate) fn text(self) -> &'static str
        ensures { result.now ≡ text_of self }
    {
        match self {
            Word::Step => "Step",
            Word::Cost => "Cost",
            Word::Least => "No rule that keeps the limits costs less.",
            Word::Points => "Points",
            Word::Before => "Before",
            Word::After => "After",
            Word::Variant => "Variant",
            Word::AtLeast => "At least",
            Word::AtMost => "At most",
            Word::DualPrice => "Dual price",
            Word::From => "From",
            Word::To => "To",
            Word::Users => "Users",
            Word::Price => "Price",
            Word::NotAllowed => "not allowed",
            Word::NoRule => "No rule keeps the limits.",
            Word::Over => "Their points are more than all that they may become can take:",
            Word::Under => "They need more points than have or may take one of them:",
            Word::Site => "Site",
            Word::Inputs => "Inputs",
            Word::Switched => "Switch",
            Word::NoPage => "No page was compared.",
        }
    }
}

/// What the pictures of a page are of.
#[derive(Clone, Copy, Debug)]
pub enum Title {
    /// A rollout: its plan, or that of each of its steps.
    Rollout,
    /// An edit of a document.
    Edit,
}

impl Title {
    /// Its text, in which nothing needs an entity.
    pub(crate) fn text(self) -> &'static str
        ensures { result.now ≡ title_of self }
    {
        match self {
            Title::Rollout => "Rollout",
            Title::Edit => "What an edit changes",
        }
    }
}

/// How a text looks: its class in the style sheet.
#[derive(Clone, Copy, Debug)]
pub enum Style {
    Title,
    Heading,
    Row,
    Value,
}

impl Style {
    pub(crate) fn class(self) -> &'static str
        ensures { result.now ≡ class_of self }
    {
        match self {
            Style::Title => "t",
            Style::Heading => "h",
            Style::Row => "r",
            Style::Value => "v",
        }
    }
}
