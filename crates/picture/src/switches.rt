//! The table of the switches.
ghost use Rattle.std.specs.Prelude.{◌≡◌, ◌++◌, ◌<◌, [], IfOk, OnOk, length};
ghost use Rattle.std.specs.List.{range_with_len};
ghost use Rattle.std.specs.Map.{keys_of};
ghost use Rattle.price_core.specs.Limits.{limits_view};
ghost use Rattle.picture.specs.Changes.{names_told, pair_end, price_told, row_end, row_told, switch_end, switch_told, table_end, table_told};
ghost use Rattle.picture.specs.Told.{foot, next_row, rows_told, told};

use crate::change::Change;
use crate::element::{Content, Element, Place, add};
use crate::rows::{NAMES, ROW, add_headings, number_at, size_for};
use crate::words::{Style, Word};
use price_core::{Limit, Prices};
use rule_switches::PairSwitches;
use std::alloc::AllocError;

const HEADINGS: &[(Style, u64, Word)] = &[
    (Style::Heading, NAMES, Word::From),
    (Style::Heading, 410, Word::To),
    (Style::Value, 820, Word::Points),
    (Style::Value, 970, Word::Users),
    (Style::Value, 1160, Word::Price),
];

/// Adds the head of the table and its rows, from a height on, and gives the height below.
pub(crate) fn add_table<'a>(
    elements: &mut Vec<Element<'a>>,
    change: &Change<'a>,
    limits: &'a [Limit],
    y: u64,
) -> Result<u64, AllocError>
    requires { change.now.table.now.0 ≡ length limits.now }
    ensures told { OnOk result (told elements.new.items ≡ told elements.old.items ++ table_told change.now.prices.now (keys_of (limits_view limits.entry.now)) change.now.table.now y) }
    ensures below { IfOk result (λ end. end ≡ table_end change.now.prices.now (keys_of (limits_view limits.entry.now)) change.now.table.now y) }
{
    add_headings(elements, HEADINGS, y)?;
    add_rows(elements, change, limits, y.saturating_add(ROW))
}

/// Adds the switches from each variant, from a height on, and gives the height below.
fn add_rows<'a>(
    elements: &mut Vec<Element<'a>>,
    change: &Change<'a>,
    limits: &'a [Limit],
    y: u64,
) -> Result<u64, AllocError>
    requires { change.now.table.now.0 ≡ length limits.now }
    ensures told { OnOk result (told elements.new.items ≡ told elements.old.items ++ rows_told (row_told change.now.prices.now (keys_of (limits_view limits.entry.now)) change.now.table.now) (row_end change.now.prices.now (keys_of (limits_view limits.entry.now)) change.now.table.now) y (range_with_len 0 change.now.table.now.0)) }
    ensures below { IfOk result (λ end. end ≡ foot (row_end change.now.prices.now (keys_of (limits_view limits.entry.now)) change.now.table.now) y (range_with_len 0 change.now.table.now.0)) }
{
    let mut row = y;
    for from in 0..limits.len() {
        row = add_row(elements, change, limits, from, row)?;
    }
    Ok(row)
}

/// Adds the switches from one variant to each, from a height on, and gives the height below.
fn add_row<'a>(
    elements: &mut Vec<Element<'a>>,
    change: &Change<'a>,
    limits: &'a [Limit],
    from: usize,
    y: u64,
) -> Result<u64, AllocError>
    requires width { change.now.table.now.0 ≡ length limits.now }
    requires inside { from < length limits.now }
    ensures told { OnOk result (told elements.new.items ≡ told elements.old.items ++ row_told change.now.prices.now (keys_of (limits_view limits.entry.now)) change.now.table.now y from) }
    ensures below { IfOk result (λ end. end ≡ row_end change.now.prices.now (keys_of (limits_view limits.entry.now)) change.now.table.now y from) }
{
    let mut row = y;
    for to in 0..limits.len() {
        let switch = change.table.get(from, to);
        let (a, b) = (limits[from].name.as_str(), limits[to].name.as_str());
        row = add_switch(elements, change.prices, a, b, switch, row)?;
    }
    Ok(row)
}

/// Adds a switch that has points or is not allowed, at a height, and gives the height below.
fn add_switch<'a>(
    elements: &mut Vec<Element<'a>>,
    prices: &Prices,
    from: &'a str,
    to: &'a str,
    switch: PairSwitches,
    y: u64,
) -> Result<u64, AllocError>
    ensures told { OnOk result (told elements.new.items ≡ told elements.old.items ++ switch_told prices.now y from.now to.now switch) }
    ensures below { IfOk result (λ end. end ≡ switch_end prices.now y from.now to.now switch) }
{
    let price = price_of(prices, from, to);
    if switch.points == 0 && price.is_some() {
        return Ok(y);
    }
    let below = add_names(elements, from, to, y)?;
    add(
        elements,
        &[
            number_at(820, below, switch.points),
            number_at(970, below, switch.users),
            Element::Text(
                Style::Value,
                Place { x: 1160, y: below },
                Content::Price(price),
            ),
        ],
    )?;
    Ok(below.saturating_add(ROW))
}

/// The price of a change, where it is allowed.
fn price_of(prices: &Prices, from: &str, to: &str) -> Option<u64>
    ensures { result ≡ price_told prices.now from.now to.now }
{
    if prices.forbidden(from, to) {
        None
    } else {
        Some(prices.price(from, to))
    }
}

/// Adds the names of a switch at a height, and gives that of its numbers. Long names have lines of their own.
pub(crate) fn add_names<'a>(
    elements: &mut Vec<Element<'a>>,
    from: &'a str,
    to: &'a str,
    y: u64,
) -> Result<u64, AllocError>
    ensures told { OnOk result (told elements.new.items ≡ told elements.old.items ++ names_told y from.now to.now) }
    ensures below { IfOk result (λ end. end ≡ pair_end y from.now to.now) }
{
    let is_long = from.len().max(to.len()) > 17;
    let width = if is_long { 1060 } else { 300 };
    let second = if is_long {
        Place {
            x: NAMES,
            y: y.saturating_add(ROW),
        }
    } else {
        Place { x: 410, y }
    };
    add(
        elements,
        &[
            Element::Name(Place { x: NAMES, y }, size_for(from, width), from),
            Element::Name(second, size_for(to, width), to),
        ],
    )?;
    Ok(if is_long {
        second.y.saturating_add(ROW)
    } else {
        y
    })
}
