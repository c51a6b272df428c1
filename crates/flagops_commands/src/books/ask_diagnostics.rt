//! Diagnostics of an asks file, and what became of the asks in words.
ghost use Rattle.std.specs.Prelude.{◌≡◌, ◌<◌, ◌==◌, ℕ, IfOk, List, Some, codes, if◌then◌else◌, map, option_map, string_bytes};
ghost use Rattle.file_diagnostics.specs.Lines.{Grows, text_so_far};
ghost use Rattle.file_diagnostics.specs.Named.{Names, NamesWord};
ghost use Rattle.flag_text.specs.View.{items_view};
ghost use Rattle.flagops_commands.specs.DriveSummary.{IsUnreadMember, IsUnreadText, asks_text, book_text, ending_text, ending_texts, endings_told, first_unread, nothing_text, plural, sharing_text, summary_text, unread_count, unread_count_text, unrecorded_text};

use file_diagnostics::{Lines, Opening, put_meant, quoted_name};
use flag_text::Tree;
use flagops_drive::{DriveRefusal, Endings, Misfit, Tally};
use limits::SEATS;
use member_names::Reader;
use std::alloc::{AllocError, Global};

/// The asks for each input from which on a line says how many there are.
const MANY: u128 = 20;

/// Why asks reached nothing.
const NOTHING: &str =
    "  nothing was recorded: no ask reached a \"fractional\" with an input of at most 1,024 bytes\n  check the keys and the contexts\n";

/// Explains why `tree`, read from the file at `path`, is not a list of asks.
pub fn of_asks(alloc: Global, path: &str, tree: &Tree) -> Result<String, AllocError>
    ensures names { IfOk result (λ s. Names path.now (string_bytes s)) }
{
    let mut lines = Lines::new(alloc);
    write!(lines, " is not a list of asks: ");
    match Misfit::of(tree) {
        Some(misfit) => put_misfit(&mut lines, tree, misfit),
        None => write!(lines, "{}", DriveRefusal::BadAsks),
    }
    write!(
        lines,
        "\n  an ask has a key, want (bool, text, whole, object or float, or flagd's boolean, string or integer), default, context (an object) and moment\n",
    );
    lines.headed(Opening::Error, path)
}

fn put_misfit(lines: &mut Lines, tree: &Tree, misfit: Misfit) {
    match misfit {
        Misfit::NoList => write!(lines, "it is {}", lines.value(tree)),
        Misfit::Lacks(place, member) => {
            write!(lines, "its item [{place}] has no {}", member.name())
        }
        Misfit::Misshapen(place, member) => put_misshapen(lines, tree, place, member.name()),
        Misfit::TooMany => write!(lines, "it has too many"),
    }
}

/// A member that is there and not of its form.
fn put_misshapen(lines: &mut Lines, tree: &Tree, place: usize, name: &str) {
    if let Some(value) = member_at(tree, place, name) {
        write!(lines, "[{place}].{name} is {}", lines.value(value));
    }
}

fn member_at<'a>(tree: &'a Tree, place: usize, name: &str) -> Option<&'a Tree> {
    tree.as_list()?.get(place)?.member(name)
}

/// Says how many asks have a member that is not read, and names the first such member.
pub fn of_unread_asks(alloc: Global, path: &str, asks: &[Tree]) -> Result<String, AllocError>
    ensures names { IfOk result (λ s. Names path.now (string_bytes s)) }
    ensures text { IfOk result (λ s. IsUnreadText path.now (items_view asks.now) (string_bytes s)) }
{
    let mut lines = Lines::new(alloc);
    put_unread_count(&mut lines, unread_count(asks));
    put_first_unread(&mut lines, asks);
    lines.headed(Opening::Note, path)
}

/// How many asks have a member that is not read.
fn unread_count(asks: &[Tree]) -> usize
    ensures { result ≡ unread_count (items_view asks.now) }
{
    asks.iter()
        .filter(|ask| Reader::Ask.unread(ask).is_some())
        .count()
}

#[tactic(auto, unfolding(crate::specs::DriveSummary::unread_count_text))]
fn put_unread_count(lines: &mut Lines, count: usize)
    ensures { Grows (text_so_far lines.old) (Some (unread_count_text count)) (text_so_far lines.new) }
{
    let ending = plural(count as u128);
    write!(
        lines,
        ": {count} ask{ending} with a member that is not read\n"
    );
}

/// The first member of an ask that is not read, with the one that may be meant.
fn put_first_unread(lines: &mut Lines, asks: &[Tree])
    ensures { (line : List ℕ) × IsUnreadMember (first_unread 1 (items_view asks.now)) line × Grows (text_so_far lines.old) (Some line) (text_so_far lines.new) }
{
    if let Some((number, name)) = first_unread(asks) {
        write!(lines, "  {} in ask {number}", lines.name(name));
        put_meant(lines, name, Reader::Ask);
    }
}

/// The number of the first ask that has a member that is not read, counted from 1, and its first such member.
fn first_unread(asks: &[Tree]) -> Option<(usize, &str)>
    ensures { option_map (λ u. (u.0, u.1.now)) result ≡ first_unread 1 (items_view asks.now) }
{
    for (place, ask) in asks.iter().enumerate() {
        if let Some(name) = Reader::Ask.unread(ask) {
            return Some((place + 1, name));
        }
    }
    None
}

/// Explains why asks that were read were not answered: `fault` is the name of the refusal, `workers` the number asked for.
pub fn of_workers(alloc: Global, workers: usize, fault: &str) -> Result<String, AllocError>
    ensures names { IfOk result (λ s. NamesWord (codes "WORKERS") (string_bytes s)) }
{
    let mut lines = Lines::new(alloc);
    if workers == 0 || workers > SEATS {
        write!(
            lines,
            " is {workers}, and has to be from 1 to 64\n  the number of processors is a good choice\n",
        );
    } else {
        write!(
            lines,
            " drove no asks: {fault}\n  docs/REFUSALS.md, part Asks, says what to do\n",
        );
    }
    lines.after_word("WORKERS")
}

/// Says what the asks of the file at `path` came to.
#[tactic(auto, unfolding(crate::specs::DriveSummary::summary_text), using(crate::proofs::Summary::note_names))]
pub fn of_driven(alloc: Global, path: &str, tally: &Tally) -> Result<String, AllocError>
    ensures names { IfOk result (λ s. Names path.now (string_bytes s)) }
    ensures text { IfOk result (λ s. string_bytes s ≡ summary_text path.now tally.now) }
{
    let name = quoted_name(alloc, path)?;
    let asks = asks_text(alloc, tally)?;
    let book = book_text(alloc, tally)?;
    let advice = advice(alloc, tally)?;
    format!(in alloc; "note: {name}{asks}{book}{advice}")
}

/// Explains why a book is left as it was: the asks reached no input.
#[tactic(auto, unfolding(crate::specs::DriveSummary::unrecorded_text, crate::specs::DriveSummary::nothing_text), using(crate::proofs::Summary::note_names))]
pub fn of_unrecorded_asks(alloc: Global, path: &str, tally: &Tally) -> Result<String, AllocError>
    ensures names { IfOk result (λ s. Names path.now (string_bytes s)) }
    ensures text { IfOk result (λ s. string_bytes s ≡ unrecorded_text path.now tally.now) }
{
    let name = quoted_name(alloc, path)?;
    let asks = asks_text(alloc, tally)?;
    format!(in alloc; "note: {name}{asks}\n{NOTHING}")
}

/// How many asks there are, and how many of them ended in what.
#[tactic(auto, unfolding(crate::specs::DriveSummary::asks_text))]
fn asks_text(alloc: Global, tally: &Tally) -> Result<String, AllocError>
    ensures { IfOk result (λ s. string_bytes s ≡ asks_text tally.now) }
{
    let endings = endings_told(&tally.endings);
    let endings = ending_texts(alloc, &endings)?;
    let (asks, ending) = (tally.asks, plural(tally.asks as u128));
    format!(in alloc; ": {asks} ask{ending}{endings}")
}

/// How many asks ended in what, by OpenFeature's words.
#[tactic(auto, unfolding(crate::specs::DriveSummary::endings_told))]
fn endings_told(endings: &Endings) -> [(&'static str, usize); 10]
    ensures { map (λ e. (e.0.now, e.1)) result ≡ endings_told endings.now }
{
    [
        ("TARGETING_MATCH", endings.targeting_match),
        ("DEFAULT", endings.defaults),
        ("STATIC", endings.fixed),
        ("DISABLED", endings.disabled),
        ("PROVIDER_NOT_READY", endings.not_ready),
        ("INVALID_CONTEXT", endings.invalid_context),
        ("FLAG_NOT_FOUND", endings.not_found),
        ("PARSE_ERROR", endings.parse_error),
        ("GENERAL", endings.general),
        ("TYPE_MISMATCH", endings.type_mismatch),
    ]
}

/// The words with their numbers, but those of which there is none.
fn ending_texts(alloc: Global, endings: &[(&str, usize)]) -> Result<String, AllocError>
    ensures { IfOk result (λ s. string_bytes s ≡ ending_texts (map (λ e. (e.0.now, e.1)) endings.now)) }
{
    let mut text = String::new(alloc);
    for (word, count) in endings {
        let ending = ending_text(alloc, word, *count)?;
        text.push_str(ending.as_str())?;
    }
    Ok(text)
}

fn ending_text(alloc: Global, word: &str, count: usize) -> Result<String, AllocError>
    ensures { IfOk result (λ s. string_bytes s ≡ ending_text (word.now, count)) }
{
    if count == 0 {
        return Ok(String::new(alloc));
    }
    format!(in alloc; ", {word} {count}")
}

/// How many inputs the asks reached, and what became of the book.
#[tactic(auto, unfolding(crate::specs::DriveSummary::book_text))]
fn book_text(alloc: Global, tally: &Tally) -> Result<String, AllocError>
    ensures { IfOk result (λ s. string_bytes s ≡ book_text tally.now) }
{
    let (reached, ending) = (tally.reached, plural(tally.reached));
    let (new, has) = (tally.inputs.saturating_sub(tally.had), tally.inputs);
    format!(in alloc;
        "\n  they reached {reached} input{ending}, {new} of them new; the book has {has}\n"
    )
}

/// What to look at where the asks reached nothing, or few inputs.
#[tactic(auto, unfolding(crate::specs::DriveSummary::nothing_text))]
fn advice(alloc: Global, tally: &Tally) -> Result<String, AllocError>
    ensures { IfOk result (λ s. string_bytes s ≡ (if tally.now.reached == 0 then nothing_text else sharing_text tally.now.endings.targeting_match tally.now.reached)) }
{
    if tally.reached == 0 {
        String::from_str(alloc, NOTHING)
    } else {
        sharing_text(alloc, tally.endings.targeting_match as u128, tally.reached)
    }
}

/// That many asks matched a targeting for each input that they reached, where they did: so it is where the contexts lack what
/// the bucketing expression reads.
#[tactic(auto, unfolding(crate::specs::DriveSummary::sharing_text))]
fn sharing_text(alloc: Global, matched: u128, reached: u128) -> Result<String, AllocError>
    requires { 0 < reached }
    ensures { IfOk result (λ s. string_bytes s ≡ sharing_text matched reached) }
{
    if reached > matched / MANY {
        return Ok(String::new(alloc));
    }
    let asks = matched / reached;
    format!(in alloc;
        "  that is {asks} asks for each input: the same users were asked again, or every context lacks what the bucketing expression reads\n"
    )
}

/// What makes a name that of one thing, or of another number of them.
fn plural(count: u128) -> &'static str
    ensures { result.now ≡ plural count }
{
    if count == 1 { "" } else { "s" }
}
