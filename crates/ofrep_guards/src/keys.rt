//! Keys that are held.
ghost use Rattle.std.specs.Prelude.{◌≡◌, string_bytes, true};
ghost use Rattle.std.specs.List.{list_all};
ghost use Rattle.std.specs.Str.Lines.{lines};
ghost use Rattle.ofrep_guards.specs.KeyLine.{is_key};

/// Keys of clients.
#[derive(Drop)]
pub struct Keys {
    /// A line for each.
    pub(crate) text: String,
    ghost all: { list_all is_key (lines (string_bytes text)) ≡ true },
}
