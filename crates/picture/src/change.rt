//! The picture of a rule that replaces another.
ghost use Rattle.std.specs.Prelude.{◌≡◌, ◌≤◌, ◌++◌, min, IfOk, OnErr, OnOk, length, string_bytes};
ghost use Rattle.std.specs.Map.{keys_of};
ghost use Rattle.bucket_core.specs.Rule.{IsRuleTotal, total_weight};
ghost use Rattle.price_core.specs.Limits.{limits_view};
ghost use Rattle.rule_switches.specs.Runs.{run_view, runs_view};
ghost use Rattle.transport_core.specs.Certificate.{certificate_view};
ghost use Rattle.picture.specs.Changes.{bars_told, change_height, change_told, head_told};
ghost use Rattle.picture.specs.Spelling.{Adds};
ghost use Rattle.picture.specs.Told.{behind, down, extent_of, look_of, place_of, runs_told, told};

use crate::bars::{BAR, LEFT, add_bar, edge, extent, look_of};
use crate::element::{Band, Content, Element, Extent, Place, add};
use crate::print::place;
use crate::switches::add_table;
use crate::variants::add_variants;
use crate::words::{Style, Word};
use bucket_core::Rule;
use price_core::{Limit, Prices, Totals};
use rule_switches::{Run, SwitchTable};
use std::alloc::{AllocError, Global};
use transport_core::Certificate;

/// What is drawn of a rule that replaces another.
#[derive(Clone, Copy)]
pub struct Change<'a> {
    /// The rule that is replaced, and the one that replaces it.
    pub old: &'a Rule,
    pub new: &'a Rule,
    /// The limits on the totals of the variants, and the prices of changes.
    pub totals: &'a Totals,
    pub prices: &'a Prices,
    /// The runs of the change, and the switches between the variants.
    pub runs: &'a [Run<'a>],
    pub table: &'a SwitchTable,
    /// What shows that no rule costs less.
    pub certificate: &'a Certificate,
}

/// Adds the picture of a change to those of a page, so far below its top, and gives how far below it the picture ends. Where
/// memory runs out the pictures are as they were. The condition is that the table has a place for each variant that has limits.
#[tactic(auto, unfolding(crate::specs::Spelling::Adds, crate::specs::Changes::change_told, crate::specs::Changes::change_height))]
pub fn draw_change(
    alloc: Global,
    pictures: &mut String,
    y: u64,
    change: &Change<'_>,
) -> Result<u64, AllocError>
    requires { change.now.table.now.0 ≡ length (keys_of change.now.totals.now) }
    ensures adds { OnOk result (Adds y
        (change_told change.now.old.now change.now.new.now change.now.totals.now change.now.prices.now (runs_view change.now.runs.now) change.now.table.now (certificate_view change.now.certificate.now))
        (string_bytes pictures.old) (string_bytes pictures.new)) }
    ensures below { IfOk result (λ end. end ≡ down y (change_height change.now.totals.now change.now.prices.now change.now.table.now)) }
    ensures kept { OnErr result (string_bytes pictures.new ≡ string_bytes pictures.old) }
{
    let limits = change.totals.entries();
    let mut elements = Vec::new(alloc);
    add_head(&mut elements, change)?;
    add_bars(&mut elements, change, limits)?;
    let below = add_variants(&mut elements, change, limits, 540)?;
    let height = add_table(&mut elements, change, limits, below)?;
    place(alloc, pictures, y, elements.as_slice())?;
    Ok(y.saturating_add(height))
}

/// The heights of the bar of the old rule, of the bands, and of the bar of the new rule.
const BEFORE: u64 = 184;

const BANDS: u64 = BEFORE + BAR;

const AFTER: u64 = BANDS + BAR;

/// What a change costs, and how many points there are.
fn add_head<'a>(elements: &mut Vec<Element<'a>>, change: &Change<'a>) -> Result<(), AllocError>
    ensures { OnOk result (told elements.new.items ≡ told elements.old.items ++ head_told change.now.certificate.now.cost (total_weight change.now.old.now)) }
{
    let cost = Content::Counted(Word::Cost, change.certificate.cost);
    let points = Content::Counted(Word::Points, u64::from(change.old.total()));
    add(
        elements,
        &[
            Element::Text(Style::Title, Place { x: LEFT, y: 66 }, cost),
            Element::Text(
                Style::Row,
                Place { x: LEFT, y: 110 },
                Content::Word(Word::Least),
            ),
            Element::Text(
                Style::Heading,
                Place { x: LEFT, y: 170 },
                Content::Word(Word::Before),
            ),
            Element::Text(Style::Value, Place { x: 1160, y: 170 }, points),
            Element::Text(
                Style::Heading,
                Place { x: LEFT, y: 466 },
                Content::Word(Word::After),
            ),
        ],
    )
}

/// Both rules, and between them the runs that move.
fn add_bars<'a>(
    elements: &mut Vec<Element<'a>>,
    change: &Change<'a>,
    limits: &[Limit],
) -> Result<(), AllocError>
    ensures { OnOk result (told elements.new.items ≡ told elements.old.items ++ bars_told (limits_view limits.entry.now) change.now.old.now change.now.new.now (runs_view change.now.runs.now)) }
{
    add_bar(elements, change.old, limits, BEFORE)?;
    add_bands(elements, change.runs, limits, u64::from(change.old.total()))?;
    add_bar(elements, change.new, limits, AFTER)
}

/// The runs that move, among so many points.
fn add_bands<'a>(
    elements: &mut Vec<Element<'a>>,
    runs: &[Run<'a>],
    limits: &[Limit],
    total: u64,
) -> Result<(), AllocError>
    requires { IsRuleTotal total }
    ensures { OnOk result (told elements.new.items ≡ told elements.old.items ++ runs_told (limits_view limits.entry.now) total 0 (runs_view runs.now)) }
{
    let mut begin = 0u64;
    for (i, run) in runs.iter().enumerate() {
        let end = behind(begin, run, total);
        if run.from != run.to {
            let next = next_move(&runs[i + 1..], end, total);
            elements.push(Element::Band(band(run, limits, begin, end, next, total)))?;
        }
        begin = end;
    }
    Ok(())
}

/// The point behind a run that begins at a point.
fn behind(begin: u64, run: &Run<'_>, total: u64) -> u64
    ensures value { result ≡ behind total begin (run_view run.now) }
    ensures inside { result ≤ total }
{
    begin.saturating_add(u64::from(run.points)).min(total)
}

/// Where the first of these runs that changes its variant begins, if the runs begin at `point`; `total` if none changes.
fn next_move(runs: &[Run<'_>], point: u64, total: u64) -> u64
    requires { point ≤ total }
    ensures { result ≤ total }
{
    let mut begin = point;
    for run in runs {
        if run.from != run.to {
            return begin;
        }
        begin = behind(begin, run, total);
    }
    total
}

/// Where a band begins and ends, and where the next one begins.
#[derive(Clone, Copy)]
struct Edges {
    left: u64,
    right: u64,
    next: u64,
}

/// Where the number of a band's users stands: on it or beside it, where there is room.
fn label_for(users: u64, edges: Edges) -> Option<Place> {
    let room = digits_of(users).saturating_mul(DIGIT).saturating_add(16);
    let x = if edges.right.saturating_sub(edges.left) >= room {
        edges.left
    } else {
        edges.right
    };
    if x == edges.left || edges.next.saturating_sub(x) >= room {
        Some(Place { x, y: BANDS })
    } else {
        None
    }
}

/// About how wide a digit on a band is.
const DIGIT: u64 = 18;

/// How many digits a number has.
fn digits_of(number: u64) -> u64 {
    let mut digits = 1u64;
    let mut rest = number / 10;
    for _ in 0..20 {
        if rest == 0 {
            return digits;
        }
        rest /= 10;
        digits = digits.saturating_add(1);
    }
    digits
}

/// The band of a run from one point to another, where the next one begins at `next`.
fn band<'a>(
    run: &Run<'a>,
    limits: &[Limit],
    begin: u64,
    end: u64,
    next: u64,
    total: u64,
) -> Band<'a>
    requires total { IsRuleTotal total }
    requires begin { begin ≤ total }
    requires end { end ≤ total }
    requires next { next ≤ total }
    ensures from { result.from.now ≡ run.now.from.now }
    ensures to { result.to.now ≡ run.now.to.now }
    ensures points { result.points ≡ run.now.points }
    ensures users { result.users ≡ run.now.users }
    ensures look { result.look ≡ look_of (limits_view limits.now) run.now.to.now }
    ensures place { result.place ≡ place_of 264 total begin }
    ensures extent { result.extent ≡ extent_of total begin end }
{
    let edges = Edges {
        left: edge(begin, total),
        right: edge(end, total),
        next: edge(next, total),
    };
    Band {
        from: run.from,
        to: run.to,
        points: u64::from(run.points),
        users: run.users,
        look: look_of(limits, run.to),
        place: Place {
            x: edges.left,
            y: BANDS,
        },
        extent: extent(begin, end, total),
        label: label_for(run.users, edges),
    }
}
