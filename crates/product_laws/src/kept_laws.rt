//! What holds of the definitions of a kept document and of trees.
ghost use Rattle.product_laws.specs.Replaced.{ReplacedIsRead, ReplacedWithFloatsIsRead};

use crate::the_bytes_of_a_part_read_as_it;

/// What is replaced in a document begins and ends with items of one list of its tree, which its bytes read as. A law: it computes
/// nothing.
pub fn what_is_replaced_is_read()
    ensures { ReplacedIsRead }
{
    the_bytes_of_a_part_read_as_it();
}

/// The same of a document that may have floats: its tree has the values of the variants with floats as texts, and the bytes of
/// items read as these items, since no targeting is changed by that. A law: it computes nothing.
pub fn what_is_replaced_with_floats_is_read()
    ensures { ReplacedWithFloatsIsRead }
{}
