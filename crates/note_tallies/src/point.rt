//! From a point to its line.
ghost use Rattle.std.specs.Prelude.{◌≡◌, ◌++◌, string_bytes, OnErr, OnOk};
ghost use Rattle.note_tallies.specs.Point.{point_line};

use itoa::Buffer;
use std::alloc::AllocError;

/// How many inputs fall on a point.
#[derive(Clone, Copy, Debug, PartialEq, Eq)]
pub struct PointCount {
    /// The point.
    pub point: u32,
    /// The number of inputs.
    pub inputs: u32,
}

/// Adds the line of a point. Where memory runs out the text is as it was.
pub fn push_point(text: &mut String, count: PointCount) -> Result<(), AllocError>
    ensures text { OnOk result (string_bytes text.new ≡ string_bytes text.old ++ point_line count) }
    ensures err { OnErr result (string_bytes text.new ≡ string_bytes text.old) }
{
    let mut room = Buffer::new();
    let mut more_room = Buffer::new();
    let point = room.format(count.point);
    let inputs = more_room.format(count.inputs);
    text.reserve(point.len() + inputs.len() + 4)?;
    text.push_str("[")?;
    text.push_str(point)?;
    text.push_str(",")?;
    text.push_str(inputs)?;
    text.push_str("]\n")?;
    Ok(())
}
