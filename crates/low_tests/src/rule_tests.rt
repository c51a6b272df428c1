//! Rules: their entries at points, refinement, and rules of points.
ghost use Rattle.std.specs.Prelude.{◌<◌, ◌^◌, IsTrue, length};
ghost use Rattle.std.specs.List.{All};

use bucket_core::{Rule, RuleFault, read_rule};
use flag_text::read_tree;
use std::alloc::{AllocError, Global};

/// The rule of a text, none where it is refused.
fn rule_of(alloc: Global, text: &str) -> Option<Rule> {
    match read_tree(alloc, text.as_bytes(), 1000) {
        Ok(tree) => read_rule(alloc, &tree).ok(),
        Err(_) => None,
    }
}

type RuleHolds = fn(Global, &Rule) -> bool;

/// Whether a text is read as a rule of which this holds.
fn is_rule(alloc: Global, text: &str, holds: RuleHolds) -> bool
    requires { RuleHolds.IsAlwaysCallable holds }
{
    match rule_of(alloc, text) {
        Some(rule) => holds(alloc, &rule),
        None => false,
    }
}

/// Whether the rule has exactly these entries.
fn has_entries(rule: &Rule, entries: &[(&str, u64)]) -> bool {
    for (have, want) in rule.entries().zip(entries) {
        if have != *want {
            return false;
        }
    }
    rule.entries().len() == entries.len()
}

/// Whether a text is read as the rule of these entries, with their total.
fn is_read(alloc: Global, text: &str, entries: &[(&str, u64)], total: u32) -> bool {
    match rule_of(alloc, text) {
        Some(rule) => has_entries(&rule, entries) && rule.total() == total,
        None => false,
    }
}

/// A text, its entries and their total.
const READ: &[(&str, &[(&str, u64)], u32)] = &[
    (
        r#"[["red",50],["blue",50]]"#,
        &[("red", 50), ("blue", 50)],
        100,
    ),
    (r#"[["on"]]"#, &[("on", 1)], 1),
    (
        r#"[["a",0],["a",2147483647]]"#,
        &[("a", 0), ("a", 2147483647)],
        2147483647,
    ),
];

#[test]
fn reads_rules(rt: HostRuntime) {
    for (text, entries, total) in READ {
        assert!(rt; is_read(rt.alloc(), text, entries, *total), "{text}");
    }
}

/// The rule of points that are red at 0 and blue at 1.
fn red_and_blue(alloc: Global, items: &[u32]) -> Result<Rule, AllocError>
    requires some { 0 < length items.now }
    requires few { length items.now < 2 ^ 31 }
    requires named { All (λ i. i < 2) items.now }
{
    let names = [
        String::from_str(alloc, "red")?,
        String::from_str(alloc, "blue")?,
    ];
    Rule::from_points(alloc, items, &names)
}

/// Whether each item is 0 or 1.
fn are_red_or_blue(items: &[u32]) -> bool
    ensures { IsTrue result → All (λ i. i < 2) items.now }
{
    items.iter().all(|i| *i < 2)
}

/// Whether the entry at a point, its end and its name are these.
fn finds(rule: &Rule, p: u32, entry: usize, end: u32, name: &str) -> bool {
    if p >= rule.total() {
        return false;
    }
    let found = rule.entry_at(p);
    found == entry
        && rule.end_of(found) == end
        && rule.entry_name(found) == name
        && rule.variant_at(p) == name
}

/// Points, the entry of each, its end and its name.
const FOUND: &[(u32, usize, u32, &str)] = &[
    (0, 1, 3, "b"),
    (2, 1, 3, "b"),
    (3, 3, 5, "d"),
    (4, 3, 5, "d"),
];

/// Whether each of the points has its entry, and a name without an entry no weight.
fn finds_each(_: Global, rule: &Rule) -> bool {
    for (p, entry, end, name) in FOUND {
        if !finds(rule, *p, *entry, *end, name) {
            return false;
        }
    }
    rule.total_of("e") == 0
}

#[test]
fn finds_entries(rt: HostRuntime) {
    assert!(rt;
        is_rule(
            rt.alloc(),
            r#"[["a",0],["b",3],["c",0],["d",2]]"#,
            finds_each
        )
    );
}

const KEYS: &[&str] = &["", "!", "!C", "test", "Hello, world!"];

/// Whether both rules choose the same for each key.
fn choose_alike(rule: &Rule, other: &Rule) -> bool {
    for key in KEYS {
        if rule.choose(key) != other.choose(key) {
            return false;
        }
    }
    true
}

/// Whether the rule with five points for each has these entries, and chooses the same.
fn is_refined(alloc: Global, rule: &Rule) -> bool {
    match rule.refine(alloc, 5) {
        Ok(fine) => {
            has_entries(&fine, &[("red", 25), ("blue", 25)]) && choose_alike(&fine, rule)
        }
        Err(_) => false,
    }
}

/// Whether the rule is too heavy with two points for each, and not with one.
fn is_heavy(alloc: Global, rule: &Rule) -> bool {
    rule.refine(alloc, 2).err() == Some(RuleFault::TooHeavy) && rule.refine(alloc, 1).is_ok()
}

#[test]
fn refines(rt: HostRuntime) {
    let alloc = rt.alloc();
    assert!(rt; is_rule(alloc, r#"[["red",5],["blue",5]]"#, is_refined));
    assert!(rt; is_rule(alloc, r#"[["a",2147483647]]"#, is_heavy));
}

/// Whether points that are red at 0 and blue at 1 make a rule of which this holds.
fn make_rule(alloc: Global, items: &[u32], holds: RuleHolds) -> bool
    requires { RuleHolds.IsAlwaysCallable holds }
{
    if items.is_empty() || items.len() > 1_000_000 || !are_red_or_blue(items) {
        return false;
    }
    match red_and_blue(alloc, items) {
        Ok(rule) => holds(alloc, &rule),
        Err(_) => false,
    }
}

/// Whether the points of red and blue are merged into runs.
fn is_merged(_: Global, rule: &Rule) -> bool {
    has_entries(rule, &[("red", 2), ("blue", 2), ("red", 1), ("blue", 5)]) && rule.is_canonical()
}

#[test]
fn merges_points(rt: HostRuntime) {
    let items = [0, 0, 1, 1, 0, 1, 1, 1, 1, 1];
    assert!(rt; make_rule(rt.alloc(), &items, is_merged));
}

/// A million points that are red and blue by turns.
fn by_turns(alloc: Global) -> Result<Vec<u32>, AllocError> {
    let mut items = Vec::with_capacity(alloc, 1_000_000)?;
    for i in 0..1_000_000u32 {
        items.push(i % 2)?;
    }
    Ok(items)
}

/// Whether each of a million points has an entry of its own.
fn finds_a_million(_: Global, rule: &Rule) -> bool {
    for p in 0..1_000_000u32 {
        if rule.total() <= p || rule.entry_at(p) != p as usize {
            return false;
        }
    }
    rule.total() == 1_000_000
}

// A walk over the entries would take minutes here.
#[test]
fn finds_points_among_a_million_entries(rt: HostRuntime) {
    assert!(rt;
        match by_turns(rt.alloc()) {
            Ok(items) => make_rule(rt.alloc(), items.as_slice(), finds_a_million),
            Err(_) => false,
        }
    );
}
