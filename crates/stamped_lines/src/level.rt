//! The level of a line.
ghost use Rattle.std.specs.Prelude.{◌≡◌};
ghost use Rattle.stamped_lines.specs.Level.{level_name, level_of};

/// How grave it is what a line says.
#[derive(Clone, Copy, Debug, PartialEq, Eq)]
pub(crate) enum Level {
    Info,
    Warn,
    Error,
}

impl Level {
    pub(crate) fn name(self) -> &'static str
        ensures { result.now ≡ level_name self }
    {
        match self {
            Level::Info => "INFO",
            Level::Warn => "WARN",
            Level::Error => "ERROR",
        }
    }
}

/// The level of a line, by the word with which it begins. A line that begins with none of these words goes on with the report of
/// the line before it, and has its level.
pub(crate) fn level_of(line: &[u8], before: Level) -> Level
    ensures { result ≡ level_of line.now before }
{
    if line.starts_with(b"error: ") {
        return Level::Error;
    }
    if line.starts_with(b"note: ") {
        return Level::Warn;
    }
    if line.starts_with(b"ofrep: ") {
        return Level::Info;
    }
    before
}
