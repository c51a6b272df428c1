//! What holds of the definitions of places and of trees.
ghost use Rattle.product_laws.specs.Part.{BytesReadAsPart};

/// The bytes of the value at a path read as the part of the text's tree at that path. A law: it computes nothing.
pub fn the_bytes_of_a_part_read_as_it()
    ensures { BytesReadAsPart }
{}
