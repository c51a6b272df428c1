//! The number of a step above its picture.
ghost use Rattle.std.specs.Prelude.{◌≡◌, ◌++◌, ◌∷◌, [], IfOk, OnErr, OnOk, string_bytes};
ghost use Rattle.picture.specs.Spelling.{Adds};
ghost use Rattle.picture.specs.Told.{down, step_height, step_told, told};

use crate::bars::LEFT;
use crate::element::{Content, Element, Extent, Place, add};
use crate::print::place;
use crate::words::{Style, Word};
use std::alloc::{AllocError, Global};

/// The height of a step's number with the line above it.
const STEP: u64 = 100;

/// Adds the number of a step to the pictures of a page, so far below its top, and gives how far below it that ends. Where memory
/// runs out the pictures are as they were.
#[tactic(auto, unfolding(crate::specs::Spelling::Adds))]
pub fn draw_step(alloc: Global, pictures: &mut String, y: u64, step: u64) -> Result<u64, AllocError>
    ensures adds { OnOk result (Adds y (step_told step ∷ []) (string_bytes pictures.old) (string_bytes pictures.new)) }
    ensures below { IfOk result (λ end. end ≡ down y step_height) }
    ensures kept { OnErr result (string_bytes pictures.new ≡ string_bytes pictures.old) }
{
    let mut elements = Vec::new(alloc);
    add_number(&mut elements, step)?;
    place(alloc, pictures, y, elements.as_slice())?;
    Ok(y.saturating_add(STEP))
}

fn add_number(elements: &mut Vec<Element<'_>>, step: u64) -> Result<(), AllocError>
    ensures { OnOk result (told elements.new.items ≡ told elements.old.items ++ (step_told step ∷ [])) }
{
    let line = Extent {
        width: 1120,
        height: 4,
    };
    add(
        elements,
        &[
            Element::Line(Place { x: LEFT, y: 30 }, line),
            Element::Text(
                Style::Title,
                Place { x: LEFT, y: 96 },
                Content::Counted(Word::Step, step),
            ),
        ],
    )
}
