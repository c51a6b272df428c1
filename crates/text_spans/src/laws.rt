//! What holds of the definitions alone.
ghost use Rattle.text_spans.specs.Path.{StandsOnce};

/// The value at a path stands at one place of its text.
pub fn a_value_stands_once()
    ensures { StandsOnce }
{}
