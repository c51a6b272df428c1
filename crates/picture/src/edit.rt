//! The picture of an edit: what it does to recorded inputs.
ghost use Rattle.std.specs.Prelude.{◌≡◌, ◌++◌, ◌∷◌, [], IfOk, OnErr, OnOk, map, string_bytes};
ghost use Rattle.bucket_core.specs.Rule.{total_weight};
ghost use Rattle.price_core.specs.Limits.{limit_view, limits_view};
ghost use Rattle.rule_switches.specs.Switches.{row_view, rows_view};
ghost use Rattle.picture.specs.Edits.{all_inputs_end, all_inputs_told, all_points_end, all_points_told, both_told, caption_told, edit_head_told, edit_height, edit_told, inputs_end, inputs_told, names_of, no_page_height, no_page_told, points_end, points_told};
ghost use Rattle.picture.specs.Spelling.{Adds};
ghost use Rattle.picture.specs.Told.{down, foot, rows_told, told};

use crate::bars::{LEFT, add_bar};
use crate::element::{Content, Element, Place, add};
use crate::none::add_named;
use crate::print::place;
use crate::rows::{NAMES, ROW, add_headings, number_at, size_for};
use crate::switches::add_names;
use crate::words::{Style, Word};
use bucket_core::Rule;
use price_core::Limit;
use rule_switches::{Switch, obvious_edit};
use std::alloc::{AllocError, Global};

/// What is drawn of the edit of a rule.
#[derive(Clone, Copy)]
pub struct EditedRule<'a> {
    /// The key of the flag, and the number of the rule's site in its targeting.
    pub flag: &'a str,
    pub site: u32,
    /// How many inputs were recorded there, and how many of them the edit gives another name.
    pub inputs: u64,
    pub switched: u64,
    /// The rule before the edit and after it. Their totals may differ.
    pub old: &'a Rule,
    pub new: &'a Rule,
    /// How many inputs go from each name to each other one.
    pub switches: &'a [Switch],
}

/// Adds the picture of an edit to those of a page, so far below its top, and gives how far below it the picture ends. Where memory
/// runs out the pictures are as they were.
#[tactic(auto, unfolding(crate::specs::Spelling::Adds, crate::specs::Edits::edit_told, crate::specs::Edits::edit_height))]
pub fn draw_edit(
    alloc: Global,
    pictures: &mut String,
    y: u64,
    edited: &EditedRule<'_>,
) -> Result<u64, AllocError>
    ensures adds { OnOk result (Adds y (edit_told edited.now.flag.now edited.now.site edited.now.inputs edited.now.switched edited.now.old.now edited.now.new.now (rows_view edited.now.switches.now)) (string_bytes pictures.old) (string_bytes pictures.new)) }
    ensures below { IfOk result (λ end. end ≡ down y (edit_height edited.now.old.now edited.now.new.now (rows_view edited.now.switches.now))) }
    ensures kept { OnErr result (string_bytes pictures.new ≡ string_bytes pictures.old) }
{
    let names = names_of(alloc, edited.old, edited.new)?;
    let mut elements = Vec::new(alloc);
    add_head(&mut elements, edited)?;
    add_both(&mut elements, edited, names.as_slice())?;
    let below = add_points(&mut elements, edited, names.as_slice(), 466)?;
    let height = add_inputs(&mut elements, edited.switches, below)?;
    place(alloc, pictures, y, elements.as_slice())?;
    Ok(y.saturating_add(height))
}

/// The height of the words that no page was compared.
const NO_PAGE: u64 = 100;

/// Adds to the pictures of a page, so far below its top, that no page of a book was compared, and gives how far below the top
/// that ends. Where memory runs out the pictures are as they were.
#[tactic(auto, unfolding(crate::specs::Spelling::Adds))]
pub fn draw_no_page(alloc: Global, pictures: &mut String, y: u64) -> Result<u64, AllocError>
    ensures adds { OnOk result (Adds y (no_page_told ∷ []) (string_bytes pictures.old) (string_bytes pictures.new)) }
    ensures below { IfOk result (λ end. end ≡ down y no_page_height) }
    ensures kept { OnErr result (string_bytes pictures.new ≡ string_bytes pictures.old) }
{
    let mut elements = Vec::new(alloc);
    add_no_page(&mut elements)?;
    place(alloc, pictures, y, elements.as_slice())?;
    Ok(y.saturating_add(NO_PAGE))
}

fn add_no_page(elements: &mut Vec<Element<'_>>) -> Result<(), AllocError>
    ensures { OnOk result (told elements.new.items ≡ told elements.old.items ++ (no_page_told ∷ [])) }
{
    add(
        elements,
        &[Element::Text(
            Style::Title,
            Place { x: LEFT, y: 66 },
            Content::Word(Word::NoPage),
        )],
    )
}

/// The names of both rules, each once, by whose places they have their looks.
fn names_of(alloc: Global, old: &Rule, new: &Rule) -> Result<Vec<Limit>, AllocError>
    ensures { IfOk result (λ ls. limits_view ls.items ≡ names_of old.now new.now) }
{
    let rule = obvious_edit(alloc, old, new)?;
    let mut names = Vec::new(alloc);
    for (name, _) in rule.entries() {
        names.push(Limit {
            name: String::from_str(alloc, name)?,
            low: 0,
            high: 0,
        })?;
    }
    Ok(names)
}

/// Where the rule is, and what its edit comes to.
fn add_head<'a>(elements: &mut Vec<Element<'a>>, edited: &EditedRule<'a>) -> Result<(), AllocError>
    ensures { OnOk result (told elements.new.items ≡ told elements.old.items ++ edit_head_told edited.now.flag.now edited.now.site edited.now.inputs edited.now.switched) }
{
    let site = Content::Counted(Word::Site, u64::from(edited.site));
    let inputs = Content::Counted(Word::Inputs, edited.inputs);
    let switched = Content::Counted(Word::Switched, edited.switched);
    let flag = edited.flag;
    add(
        elements,
        &[
            Element::Name(Place { x: LEFT, y: 66 }, size_for(flag, 1120), flag),
            Element::Text(Style::Row, Place { x: LEFT, y: 114 }, site),
            Element::Text(Style::Value, Place { x: 600, y: 114 }, inputs),
            Element::Text(Style::Value, Place { x: 1160, y: 114 }, switched),
        ],
    )
}

/// The heights of both captions and of the bars below them.
const BEFORE: u64 = 170;

const OLD: u64 = 184;

const AFTER: u64 = 306;

const NEW: u64 = 320;

/// Both rules, each below its caption.
fn add_both<'a>(
    elements: &mut Vec<Element<'a>>,
    edited: &EditedRule<'a>,
    names: &[Limit],
) -> Result<(), AllocError>
    ensures { OnOk result (told elements.new.items ≡ told elements.old.items ++ both_told (limits_view names.entry.now) edited.now.old.now edited.now.new.now) }
{
    add_caption(elements, Word::Before, BEFORE, edited.old)?;
    add_bar(elements, edited.old, names, OLD)?;
    add_caption(elements, Word::After, AFTER, edited.new)?;
    add_bar(elements, edited.new, names, NEW)
}

/// A caption at a height, with the number of a rule's points.
fn add_caption(
    elements: &mut Vec<Element<'_>>,
    word: Word,
    y: u64,
    rule: &Rule,
) -> Result<(), AllocError>
    ensures { OnOk result (told elements.new.items ≡ told elements.old.items ++ caption_told word y (total_weight rule.now)) }
{
    let points = Content::Counted(Word::Points, u64::from(rule.total()));
    add(
        elements,
        &[
            Element::Text(Style::Heading, Place { x: LEFT, y }, Content::Word(word)),
            Element::Text(Style::Value, Place { x: 1160, y }, points),
        ],
    )
}

const POINTS: &[(Style, u64, Word)] = &[
    (Style::Heading, NAMES, Word::Variant),
    (Style::Value, 990, Word::Before),
    (Style::Value, 1160, Word::After),
];

/// Adds a row for each variant with its points before and after, from a height on, and gives the height below.
fn add_points<'a>(
    elements: &mut Vec<Element<'a>>,
    edited: &EditedRule<'_>,
    names: &'a [Limit],
    y: u64,
) -> Result<u64, AllocError>
    ensures told { OnOk result (told elements.new.items ≡ told elements.old.items ++ all_points_told (limits_view names.entry.now) edited.now.old.now edited.now.new.now y) }
    ensures below { IfOk result (λ end. end ≡ all_points_end (limits_view names.entry.now) y) }
{
    add_headings(elements, POINTS, y)?;
    let below = add_variants(elements, edited, names, y.saturating_add(ROW))?;
    Ok(below.saturating_add(ROW))
}

fn add_variants<'a>(
    elements: &mut Vec<Element<'a>>,
    edited: &EditedRule<'_>,
    names: &'a [Limit],
    y: u64,
) -> Result<u64, AllocError>
    ensures told { OnOk result (told elements.new.items ≡ told elements.old.items ++ rows_told (points_told (limits_view names.entry.now) edited.now.old.now edited.now.new.now) points_end y (limits_view names.entry.now)) }
    ensures below { IfOk result (λ end. end ≡ foot points_end y (limits_view names.entry.now)) }
{
    let mut row = y;
    for limit in names {
        row = add_variant(elements, edited, names, limit, row)?;
    }
    Ok(row)
}

/// Adds the row of a variant at a height, and gives the height below. A long name has a line of its own.
fn add_variant<'a>(
    elements: &mut Vec<Element<'a>>,
    edited: &EditedRule<'_>,
    names: &[Limit],
    limit: &'a Limit,
    y: u64,
) -> Result<u64, AllocError>
    ensures told { OnOk result (told elements.new.items ≡ told elements.old.items ++ points_told (limits_view names.entry.now) edited.now.old.now edited.now.new.now y (limit_view limit.entry.now)) }
    ensures below { IfOk result (λ end. end ≡ points_end y (limit_view limit.entry.now)) }
{
    let name = limit.name.as_str();
    let below = if name.len() > 34 {
        y.saturating_add(ROW)
    } else {
        y
    };
    add_named(elements, name, names, y)?;
    add(
        elements,
        &[
            number_at(990, below, edited.old.total_of(name)),
            number_at(1160, below, edited.new.total_of(name)),
        ],
    )?;
    Ok(below.saturating_add(ROW))
}

const INPUTS: &[(Style, u64, Word)] = &[
    (Style::Heading, NAMES, Word::From),
    (Style::Heading, 410, Word::To),
    (Style::Value, 1160, Word::Inputs),
];

/// Adds a row for each change of name with the number of its inputs, from a height on, and gives the height below.
fn add_inputs<'a>(
    elements: &mut Vec<Element<'a>>,
    switches: &'a [Switch],
    y: u64,
) -> Result<u64, AllocError>
    ensures told { OnOk result (told elements.new.items ≡ told elements.old.items ++ all_inputs_told (rows_view switches.entry.now) y) }
    ensures below { IfOk result (λ end. end ≡ all_inputs_end (rows_view switches.entry.now) y) }
{
    add_headings(elements, INPUTS, y)?;
    add_switches(elements, switches, y.saturating_add(ROW))
}

fn add_switches<'a>(
    elements: &mut Vec<Element<'a>>,
    switches: &'a [Switch],
    y: u64,
) -> Result<u64, AllocError>
    ensures told { OnOk result (told elements.new.items ≡ told elements.old.items ++ rows_told inputs_told inputs_end y (rows_view switches.entry.now)) }
    ensures below { IfOk result (λ end. end ≡ foot inputs_end y (rows_view switches.entry.now)) }
{
    let mut row = y;
    for switch in switches {
        row = add_switch(elements, switch, row)?;
    }
    Ok(row)
}

/// Adds the row of a change of name at a height, and gives the height below.
fn add_switch<'a>(
    elements: &mut Vec<Element<'a>>,
    switch: &'a Switch,
    y: u64,
) -> Result<u64, AllocError>
    ensures told { OnOk result (told elements.new.items ≡ told elements.old.items ++ inputs_told y (row_view switch.entry.now)) }
    ensures below { IfOk result (λ end. end ≡ inputs_end y (row_view switch.entry.now)) }
{
    let below = add_names(elements, switch.from.as_str(), switch.to.as_str(), y)?;
    add(elements, &[number_at(1160, below, switch.users)])?;
    Ok(below.saturating_add(ROW))
}
