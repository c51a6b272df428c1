//! Diagnostics of bytes that are not a request.
ghost use Rattle.std.specs.Prelude.{IfOk, string_bytes};
ghost use Rattle.file_diagnostics.specs.Named.{Names};

use file_diagnostics::{
    Lines, Opening, look_of_tree, put_text_fault, put_weight_fault, tree_or_none,
};
use flag_text::{TextFault, Tree, read_doc, read_tree};
use limits::TEXT_BYTES;
use price_core::{Misfit, PriceFault, RequestError, change_in, limit_of};
use rollout::RequestFile;
use std::alloc::{AllocError, Global};

/// What a request looks like.
const LOOK: &str = "{\"plan\":1,\"flag\":\"KEY\",\"site\":0,\"totals\":{\"NAME\":n,..}}";

/// Explains why `bytes`, read from the file at `path`, are not a request, or are refused as one.
pub fn of_request(
    alloc: Global,
    path: &str,
    bytes: &[u8],
    fault: PriceFault,
) -> Result<String, AllocError>
    ensures names { IfOk result (λ s. Names path.now (string_bytes s)) }
{
    match read_tree(alloc, bytes, TEXT_BYTES) {
        Ok(tree) => of_tree(alloc, path, &tree, fault),
        Err(fault) => of_unread(alloc, path, bytes, fault),
    }
}

/// As [`of_request`], of a file that was read.
pub(crate) fn of_request_file(
    alloc: Global,
    path: &str,
    request: &RequestFile,
    fault: PriceFault,
) -> Result<String, AllocError>
    ensures names { IfOk result (λ s. Names path.now (string_bytes s)) }
{
    match request.tree() {
        Ok(tree) => of_tree(alloc, path, tree, fault),
        Err(fault) => of_unread(alloc, path, request.bytes(), fault),
    }
}

/// Of a file that is not read as JSON; of totals with a fraction, that a finer rule takes them.
fn of_unread(
    alloc: Global,
    path: &str,
    bytes: &[u8],
    fault: TextFault,
) -> Result<String, AllocError>
    ensures names { IfOk result (λ s. Names path.now (string_bytes s)) }
{
    let mut lines = Lines::new(alloc);
    put_text_fault(&mut lines, bytes, TEXT_BYTES, fault)?;
    if fault == TextFault::NotWhole && has_other_total(alloc, bytes)? {
        write!(
            lines,
            "  for tenths of a point give --refine 10, and ten times each total\n",
        );
    }
    lines.headed(Opening::Error, path)
}

/// Whether a total, or a limit of one, is a number that is not taken.
fn has_other_total(alloc: Global, bytes: &[u8]) -> Result<bool, AllocError> {
    match tree_or_none(read_doc(alloc, bytes, TEXT_BYTES))? {
        Some(tree) => Ok(totals(&tree).iter().any(|(_, total)| is_other(total))),
        None => Ok(false),
    }
}

/// Whether this is a number that is not taken, or a range with one.
fn is_other(total: &Tree) -> bool {
    match total {
        Tree::Other => true,
        Tree::List(limits) => limits.iter().any(|limit| matches!(limit, Tree::Other)),
        _ => false,
    }
}

/// The same of the tree of a file.
fn of_tree(alloc: Global, path: &str, tree: &Tree, fault: PriceFault) -> Result<String, AllocError>
    ensures names { IfOk result (λ s. Names path.now (string_bytes s)) }
{
    let mut lines = Lines::new(alloc);
    write!(lines, ": ");
    match fault {
        PriceFault::BadRequest => put_misshaped(&mut lines, tree)?,
        PriceFault::SelfPair | PriceFault::PriceRange | PriceFault::EmptyRange => {
            put_refused(&mut lines, tree, fault)
        }
        PriceFault::UnknownVariant | PriceFault::WantOfMemory => write!(lines, "{fault}"),
    }
    write!(lines, "\n");
    lines.headed(Opening::Request, path)
}

/// What keeps a tree from being a request, and what a request looks like.
fn put_misshaped(lines: &mut Lines, tree: &Tree) -> Result<(), AllocError> {
    match Misfit::of(lines.alloc, tree)? {
        Some(misfit) => put_misfit(lines, tree, misfit),
        None => write!(lines, "{}", PriceFault::BadRequest),
    }
    if tree.member("totals").is_none() && tree.member("steps").is_none() {
        if let Some(look) = look_of_tree(tree) {
            write!(lines, "\n  the file looks like {look}");
        }
    }
    write!(
        lines,
        "\n  a request looks like {LOOK}; docs/FORMATS.md has all of it",
    );
    Ok(())
}

fn put_misfit(lines: &mut Lines, tree: &Tree, misfit: Misfit) {
    match misfit {
        Misfit::NoObject => write!(lines, "it is {}", lines.value(tree)),
        Misfit::Plan => put_member(lines, tree, "plan", "1 or 2"),
        Misfit::Flag => put_member(lines, tree, "flag", "the flag's key"),
        Misfit::Site => put_member(
            lines,
            tree,
            "site",
            "a number from 0 to 4294967295, or left out for 0",
        ),
        Misfit::Totals => put_member(lines, tree, "totals", "an object of points by variant"),
        Misfit::Price => put_member(lines, tree, "price", "a number, or left out for 1"),
        Misfit::Prices => put_member(lines, tree, "prices", "a list, or left out"),
        Misfit::Forbid => put_member(lines, tree, "forbid", "a list, or left out"),
        Misfit::Total(place) => put_total(lines, tree, place),
        Misfit::PricesItem(place) => write!(lines, "prices[{place}] is not [FROM,TO,n]"),
        Misfit::ForbidItem(place) => write!(lines, "forbid[{place}] is not [FROM,TO]"),
        Misfit::PricesTwice(place) => put_doubled(lines, tree, "prices", place),
        Misfit::ForbidTwice(place) => put_doubled(lines, tree, "forbid", place),
    }
}

/// A member that is missing, or of another kind.
fn put_member(lines: &mut Lines, tree: &Tree, name: &str, what: &str) {
    match tree.member(name) {
        Some(value) => {
            let value = lines.value(value);
            write!(lines, "\"{name}\" is {value}, and has to be {what}");
        }
        None => write!(lines, "\"{name}\" is missing, which is {what}"),
    }
}

/// A total that is not a number of points, nor a range where these are taken.
fn put_total(lines: &mut Lines, tree: &Tree, place: usize) {
    if let Some((name, total)) = totals(tree).get(place) {
        write!(lines, "totals{} is ", lines.step(name.as_str()));
        put_weight_fault(lines, total);
        if matches!(tree.member("plan"), Some(Tree::Whole(2))) {
            write!(
                lines,
                "; a total is a number from 0 to 2147483647 or a range [LOW,HIGH]"
            );
        } else {
            write!(
                lines,
                "; a total is a number from 0 to 2147483647 (or with \"plan\":2 a range [LOW,HIGH])"
            );
        }
    }
}

/// A pair of variants that stands in a list before.
fn put_doubled(lines: &mut Lines, tree: &Tree, list: &str, place: usize) {
    if let Some((from, to)) = change_at(tree, list, place) {
        write!(
            lines,
            "{list}[{place}] is the change from {} to {} once more",
            lines.name(from),
            lines.name(to),
        );
    }
}

/// What refuses a request.
fn put_refused(lines: &mut Lines, tree: &Tree, fault: PriceFault) {
    match RequestError::of(tree) {
        Some(RequestError::PricesSelf(place)) => put_self_pair(lines, tree, "prices", place),
        Some(RequestError::ForbidSelf(place)) => put_self_pair(lines, tree, "forbid", place),
        Some(RequestError::UsualPrice) => put_usual_price(lines, tree),
        Some(RequestError::Price(place)) => put_price(lines, tree, place),
        Some(RequestError::EmptyRange(place)) => put_empty_range(lines, tree, place),
        None => write!(lines, "{fault}"),
    }
}

fn put_self_pair(lines: &mut Lines, tree: &Tree, list: &str, place: usize) {
    if let Some((from, _)) = change_at(tree, list, place) {
        write!(
            lines,
            "{list}[{place}] is a change from {} to itself; leave it out: who stays costs nothing",
            lines.name(from),
        );
    }
}

fn put_usual_price(lines: &mut Lines, tree: &Tree) {
    if let Some(price) = tree.member("price") {
        let price = lines.value(price);
        write!(lines, "\"price\" is {price}; prices are from 0 to 1000000");
    }
}

fn put_price(lines: &mut Lines, tree: &Tree, place: usize) {
    if let Some([_, _, price]) = parts_at(tree, "prices", place) {
        let price = lines.value(price);
        write!(
            lines,
            "prices[{place}] has the price {price}; prices are from 0 to 1000000",
        );
    }
}

/// A range whose low limit is above its high one.
fn put_empty_range(lines: &mut Lines, tree: &Tree, place: usize) {
    if let Some((name, total)) = totals(tree).get(place) {
        if let Some((low, high)) = limit_of(total, true) {
            let name = lines.step(name.as_str());
            write!(
                lines,
                "totals{name} is [{low},{high}]; the low limit stands first",
            );
        }
    }
}

/// The totals of a request, by variant.
pub(crate) fn totals(tree: &Tree) -> &[(String, Tree)] {
    match tree.member("totals") {
        Some(Tree::Object(totals)) => totals.as_slice(),
        _ => &[],
    }
}

/// The items of a list of pairs.
pub(crate) fn pairs<'a>(tree: &'a Tree, name: &str) -> &'a [Tree] {
    match tree.member(name) {
        Some(Tree::List(items)) => items.as_slice(),
        _ => &[],
    }
}

/// The old and the new variant of an item of a list of pairs.
fn change_at<'a>(tree: &'a Tree, list: &str, place: usize) -> Option<(&'a str, &'a str)> {
    change_in(pairs(tree, list).get(place)?)
}

/// The parts of an item of a list of pairs.
fn parts_at<'a>(tree: &'a Tree, list: &str, place: usize) -> Option<&'a [Tree]> {
    pairs(tree, list).get(place)?.as_list()
}
