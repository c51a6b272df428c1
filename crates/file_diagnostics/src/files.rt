//! Diagnostics of a file that the system does not give or take, and of a rule.
ghost use Rattle.std.specs.Prelude.{IfOk, string_bytes};
ghost use Rattle.file_diagnostics.specs.Named.{Names};

use crate::lines::{Lines, Opening};
use bucket_core::{RuleFault, literal_bucket};
use flag_text::Tree;
use std::alloc::{AllocError, Global};
use std::io;

/// Says that the file at `path` can't be read, and why, as far as the system tells.
pub fn of_unreadable(
    alloc: Global,
    path: &str,
    trouble: Option<io::Error>,
) -> Result<String, AllocError>
    ensures names { IfOk result (λ s. Names path.now (string_bytes s)) }
{
    let causes =
        "it is missing, is a folder, or may not be read; paths are relative to where the program runs";
    of_trouble(alloc, path, "cannot be read", trouble, causes)
}

/// Says that no file can be written at `path`, and why, as far as the system tells.
pub fn of_unwritable(
    alloc: Global,
    path: &str,
    trouble: Option<io::Error>,
) -> Result<String, AllocError>
    ensures names { IfOk result (λ s. Names path.now (string_bytes s)) }
{
    let causes = "its folder is missing, or the path is a folder, or it may not be written";
    of_trouble(alloc, path, "cannot be written", trouble, causes)
}

/// Of what cannot be done to a file: the system's own words for what went wrong, or else what it may be.
fn of_trouble(
    alloc: Global,
    path: &str,
    what: &str,
    trouble: Option<io::Error>,
    causes: &str,
) -> Result<String, AllocError>
    ensures names { IfOk result (λ s. Names path.now (string_bytes s)) }
{
    let mut lines = Lines::new(alloc);
    match trouble {
        Some(error) => write!(lines, " {what}: {error}\n"),
        None => write!(lines, " {what}\n  {causes}\n"),
    }
    lines.headed(Opening::File, path)
}

/// Says that the book at `path` has more bytes than are read.
pub fn of_long_book(alloc: Global, path: &str) -> Result<String, AllocError>
    ensures names { IfOk result (λ s. Names path.now (string_bytes s)) }
{
    let mut lines = Lines::new(alloc);
    write!(lines, " has more than 2^40 bytes, so it is not read\n",);
    lines.headed(Opening::File, path)
}

/// Explains why a text is not a rule; `tree` is what it was read as, unless it is too large to be looked into.
pub fn of_rule(
    alloc: Global,
    path: &str,
    tree: Option<&Tree>,
    fault: RuleFault,
) -> Result<String, AllocError>
    ensures names { IfOk result (λ s. Names path.now (string_bytes s)) }
{
    let mut lines = Lines::new(alloc);
    match fault {
        RuleFault::BadRule => {
            write!(lines, " is not a rule: ");
            match tree {
                Some(tree) => put_wrong_bucket(&mut lines, tree),
                None => {
                    write!(
                        lines,
                        "an item is not a bucket (the file is too large to say which)"
                    );
                }
            }
            write!(
                lines,
                "\n  a rule is a list of buckets [name, weight] with weights from 0 to 2147483647\n",
            );
        }
        RuleFault::NoWeight => {
            write!(lines, ": {fault}\n  give one bucket a weight above 0\n");
        }
        RuleFault::TooHeavy => {
            write!(
                lines,
                ": {fault}\n  divide the weights by a common factor\n"
            );
        }
        RuleFault::WantOfMemory => return Err(AllocError),
    }
    lines.headed(Opening::Error, path)
}

/// The first item that is not a bucket, and why.
fn put_wrong_bucket(lines: &mut Lines, tree: &Tree) {
    let Tree::List(items) = tree else {
        return write!(lines, "it is {}", lines.value(tree));
    };
    for (place, item) in items.iter().enumerate() {
        if !is_bucket(item) {
            return put_bucket_fault(lines, place, item);
        }
    }
    write!(lines, "its buckets have the wrong form");
}

/// Why the item at a place is not a bucket.
fn put_bucket_fault(lines: &mut Lines, place: usize, item: &Tree) {
    let Tree::List(parts) = item else {
        return write!(
            lines,
            "its item [{place}] is {}, not a bucket",
            lines.value(item)
        );
    };
    match parts.as_slice() {
        [Tree::Text(_), weight] => {
            write!(lines, "the weight at [{place}][1] is ");
            put_weight_fault(lines, weight);
        }
        [name] => put_name_fault(lines, place, name),
        [name, _] => put_name_fault(lines, place, name),
        _ => write!(
            lines,
            "its item [{place}] has {} parts, not a name and a weight",
            parts.len(),
        ),
    }
}

/// What stands in the place of the name of a bucket.
fn put_name_fault(lines: &mut Lines, place: usize, name: &Tree) {
    let name = lines.value(name);
    write!(lines, "the name at [{place}][0] is {name}, not a text");
}

/// What stands in the place of a weight, and what to write.
pub fn put_weight_fault(lines: &mut Lines, weight: &Tree) {
    write!(lines, "{}", lines.value(weight));
    match weight {
        Tree::Text(_) => write!(
            lines,
            ", a text: write the number alone, without quotes or sign"
        ),
        Tree::Whole(weight) if *weight < 0 => write!(lines, ", below 0"),
        Tree::Whole(_) => write!(lines, ", above 2147483647"),
        _ => {}
    }
}

fn is_bucket(tree: &Tree) -> bool {
    match tree {
        Tree::List(parts) => literal_bucket(parts.as_slice()).is_some(),
        _ => false,
    }
}
