//! The command `price`: what a new rule costs the keys of a file.
ghost use Rattle.std.specs.Prelude.{◌≡◌, ℕ, Bool, List, ◌<◌, ◌≤◌, ◌^◌, ◌++◌, ◌||◌, [], ◌∷◌, false, true, is_some, length, pos, if◌then◌else◌, IfOk, IfSome, codes, decimal, map, string_bytes};
ghost use Rattle.std.specs.List.Sorted.{IsPermutation, IsSorted};
ghost use Rattle.bucket_core.specs.Rule.{Entries, total_weight};
ghost use Rattle.flag_text.specs.Shape.{members_are_whole, object, whole};
ghost use Rattle.flag_text.specs.View.{view};
ghost use Rattle.flagops_commands.specs.Price.{TellsRequestAt, request_at, are_short, are_taken, exposed, price_report, weighed, weighed_bytes, weighed_keys, with_doubt, price_json, price_lines, price_members, price_text, number_or_null, total_lines, total_members, forbidden_line, cost_line};
ghost use Rattle.flagops_commands.specs.Loaded.{bytes_at};
ghost use Rattle.flagops_commands.specs.Calls.{loads_keys, loads_request, notes_keys, price_calls, price_itself, weighs_keys};
ghost use Rattle.flagops_files.specs.Loading.{max_text};
ghost use Rattle.flagops_rollouts.specs.Beside.{Tells};
ghost use Rattle.flagops_rollouts.specs.Doubts.{request_parts};
ghost use Rattle.flagops_shell.specs.Outcomes.{refused_by};
ghost use Rattle.flagops_shell.specs.Report.{outcome_view};
ghost use Rattle.flagops_commands.specs.Refusal.{ComesFrom, GivesUnlessWant, is_file_fault, TellsOf, TellsOfOne};
ghost use Rattle.flagops_commands.specs.declared.refusal.PriceMismatch.TheVariants.{BadKeys};
ghost use Rattle.flagops_files.specs.Told.{NamesSubject, file, word};
ghost use Rattle.flagops_shell.specs.Diagnostic.{Says};
ghost use Rattle.flagops_commands.specs.Attempts.{TellsOfFirst, price_attempts};
ghost use Rattle.flagops_commands.specs.Subjects.{is_of_keys, is_of_rules, old_weights};
ghost use Rattle.file_diagnostics.specs.Named.{Names};
ghost use Rattle.book_core.specs.Page.{bytes_cmp};
ghost use Rattle.price_core.specs.Pricing.{Pricing};
ghost use Rattle.price_core.specs.Request.{asked_of};
ghost use Rattle.rule_text.specs.Texts.{AreTexts, texts_view};
ghost use Rattle.flagops_commands.specs.declared.refusal.ListedRefusal.TheVariants.{Price, ReadRequest};

use crate::loading::{load_bytes, load_rule};
use crate::refusal::{ListedCall, ListedRefusal, PriceMismatch, Refused, out_of_memory};
use crate::rules::price_diagnostics::{of_keys, of_noted, of_weights};
use crate::rules::totals::totals_by_name;
use book_core::{Book, Exposure, Page};
use bucket_core::Rule;
use file_diagnostics::of_text;
use flag_text::{Tree, print_tree, read_tree};
use flagops_files::{Refusal, TEXT_LIMIT, quoted};
use flagops_rollouts::unread;
use flagops_shell::{FileSet, Outcome, Remark, Status};
use json::Scratch;
use limits::{INPUT_BYTES, PAGE_INPUTS};
use price_core::{Prices, Request, first_forbidden, switch_cost_of};
use rayon::prelude::par_sort_unstable;
use rollout_diagnostics::of_request;
use rule_text::read_texts;
use std::alloc::{AllocError, AllocFailed, Global};
use std::thread::Threads;

/// A request, with what a person is told of members that are not read.
#[derive(Drop)]
struct NotedRequest {
    request: Request,
    remark: Option<Remark>,
}

/// The totals of the new rule's names, the first forbidden point, and what the change costs the
/// keys, a line each or with `json` as one JSON text. What is doubted of the request is told.
#[tactic(auto, unfolding(crate::specs::Price::price_report))]
pub fn price<R: Threads + Sync, F: FileSet>(
    rt: &R,
    alloc: Global,
    files: &mut F,
    old: &str,
    new: &str,
    request: &str,
    keys: &str,
    json: bool,
) -> Result<Outcome, Refused>
    ensures exact { IfSome (F.holding files.old) (λ at. GivesUnlessWant outcome_view result (price_report at old.now new.now request.now keys.now json)) }
    ensures calls { ComesFrom price_calls result }
    ensures failed { F.has_failed files.new ≡ (F.has_failed files.old || is_file_fault result) }
    ensures kept { F.holding files.new ≡ F.holding files.old }
    ensures names { IfSome (F.holding files.old) (λ at. TellsOfFirst (price_attempts at old.now new.now request.now keys.now) result) }
    ensures notes { IfOk result (λ o. IfSome o.remark (Says (Names request.now))) }
    ensures parts { IfSome (F.holding files.old) (λ at. IfOk result (λ o. TellsRequestAt at request.now o.remark)) }
{
    let old = load_rule(alloc, files, old)?;
    let new = load_rule(alloc, files, new)?;
    let NotedRequest { request, remark } = load_request(alloc, files, request)?;
    let path = keys;
    let keys = load_keys(alloc, files, path)?;
    let prices = request.prices();
    let outcome = weigh_file(rt, alloc, path, keys, &old, &new, prices, json)?;
    Ok(beside(outcome, remark))
}

/// An outcome with what a person is told beside it.
fn beside(outcome: Outcome, remark: Option<Remark>) -> Outcome
    ensures report { outcome_view result ≡ record (outcome_view outcome) { is_told = is_some remark } }
    ensures remark { result.remark ≡ remark }
{
    let Outcome { text, status, .. } = outcome;
    Outcome {
        text,
        status,
        remark,
    }
}

/// The request of the file at a path.
#[tactic(auto, using(flagops_files::proofs::Told::says), unfolding(crate::specs::Price::request_at))]
fn load_request<F: FileSet>(
    alloc: Global,
    files: &mut F,
    path: &str,
) -> Result<NotedRequest, Refused>
    ensures exact { IfSome (F.holding files.old) (λ at. GivesUnlessWant (λ r. (r.request, is_some r.remark)) result (request_at at path.now)) }
    ensures calls { ComesFrom loads_request result }
    ensures failed { F.has_failed files.new ≡ (F.has_failed files.old || is_file_fault result) }
    ensures kept { F.holding files.new ≡ F.holding files.old }
    ensures names { TellsOf (file path.now) result }
    ensures notes { IfOk result (λ r. IfSome r.remark (Says (Names path.now))) }
    ensures parts { IfSome (F.holding files.old) (λ at. IfOk result (λ r. TellsRequestAt at path.now r.remark)) }
{
    let bytes = load_bytes(alloc, files, path)?;
    request_in(alloc, path, bytes.as_slice())
}

/// The request of a file's bytes.
#[tactic(auto, using(flagops_files::proofs::Told::says))]
fn request_in(alloc: Global, path: &str, bytes: &[u8]) -> Result<NotedRequest, Refused>
    ensures exact { GivesUnlessWant (λ r. (r.request, is_some r.remark)) result (with_doubt bytes.now (refused_by ReadRequest (asked_of bytes.now))) }
    ensures calls { ComesFrom loads_request result }
    ensures read { is_file_fault result ≡ false }
    ensures names { TellsOf (file path.now) result }
    ensures notes { IfOk result (λ r. IfSome r.remark (Says (Names path.now))) }
    ensures parts { IfOk result (λ r. Tells (request_parts path.now bytes.now) r.remark) }
{
    match Request::read(alloc, bytes) {
        Ok(request) => match unread(alloc, path, bytes) {
            Ok(remark) => Ok(NotedRequest { request, remark }),
            Err(AllocError) => Err(out_of_memory(ListedCall::ReadRequest)),
        },
        Err(fault) => Err(Refused {
            refusal: ListedRefusal::ReadRequest(fault),
            remark: Remark::of(of_request(alloc, path, bytes, fault)),
        }),
    }
}

/// The bytes of the key file at a path.
fn load_keys<F: FileSet>(alloc: Global, files: &mut F, path: &str) -> Result<Vec<u8>, Refused>
    ensures exact { IfSome (F.holding files.old) (λ at. GivesUnlessWant (λ v. v.items) result (bytes_at at path.now)) }
    ensures calls { ComesFrom loads_keys result }
    ensures failed { F.has_failed files.new ≡ (F.has_failed files.old || is_file_fault result) }
    ensures kept { F.holding files.new ≡ F.holding files.old }
    ensures names { TellsOfOne ((file path.now, is_of_keys) ∷ []) result }
{
    load_bytes(alloc, files, path)
}

/// What the change costs the keys that the bytes of a file stand for. A tree is made of them only where they are no list of
/// texts, to tell what they are.
fn weigh_file<R: Threads + Sync>(
    rt: &R,
    alloc: Global,
    path: &str,
    bytes: Vec<u8>,
    old: &Rule,
    new: &Rule,
    prices: &Prices,
    json: bool,
) -> Result<Outcome, Refused>
    ensures exact { GivesUnlessWant outcome_view result (weighed_bytes json old.now new.now prices.now bytes.items) }
    ensures calls { ComesFrom weighs_keys result }
    ensures read { is_file_fault result ≡ false }
    ensures names { TellsOfOne ((file path.now, is_of_keys) ∷ (word old_weights, is_of_rules) ∷ []) result }
{
    let bytes = bytes.as_slice();
    let mut scratch = Scratch::new(alloc);
    match read_texts(alloc, bytes, TEXT_LIMIT as usize, &mut scratch) {
        Ok(Some(keys)) => weigh_keys(rt, alloc, path, keys, old, new, prices, json),
        Ok(None) => refuse_keys(alloc, path, bytes),
        Err(AllocError) => Err(out_of_memory(ListedCall::Price)),
    }
}

/// The refusal of bytes that are no list of texts.
#[tactic(auto, using(flagops_files::proofs::Told::says), unfolding(crate::specs::Price::weighed_bytes))]
fn refuse_keys(alloc: Global, path: &str, bytes: &[u8]) -> Result<Outcome, Refused>
    requires { (texts : List (List ℕ)) → ¬ (AreTexts bytes.now max_text texts) }
    ensures exact { (json : Bool) (old new : Entries) (pricing : Pricing) → GivesUnlessWant outcome_view result (weighed_bytes json old new pricing bytes.now) }
    ensures calls { ComesFrom weighs_keys result }
    ensures read { is_file_fault result ≡ false }
    ensures names { TellsOfOne ((file path.now, is_of_keys) ∷ (word old_weights, is_of_rules) ∷ []) result }
{
    let limit = TEXT_LIMIT as usize;
    match read_tree(alloc, bytes, limit) {
        Ok(tree) => Err(no_keys(alloc, path, &tree)),
        Err(fault) => Err(Refused {
            refusal: ListedRefusal::Load(Refusal::ReadTree(fault)),
            remark: Remark::of(of_text(alloc, path, bytes, limit, fault)),
        }),
    }
}

/// The refusal of a tree that is no list of texts.
#[tactic(auto, using(flagops_files::proofs::Told::says))]
fn no_keys(alloc: Global, path: &str, tree: &Tree) -> Refused
    ensures refusal { result.refusal ≡ Price BadKeys }
    ensures names { Says (NamesSubject (file path.now)) result.remark }
{
    let (place, value) = other_than_text(tree);
    Refused {
        refusal: ListedRefusal::Price(PriceMismatch::BadKeys),
        remark: Remark::of(of_keys(alloc, path, place, value)),
    }
}

/// The first item that is no text, with its place; the tree itself where it is no list.
fn other_than_text(tree: &Tree) -> (Option<usize>, &Tree) {
    let Some(items) = tree.as_list() else {
        return (None, tree);
    };
    for (place, item) in items.iter().enumerate() {
        if item.as_text().is_none() {
            return (Some(place), item);
        }
    }
    (None, tree)
}

/// The texts, where they lie.
fn lent(alloc: Global, texts: &[String]) -> Result<Vec<&str>, AllocError>
    ensures { IfOk result (λ v. texts_view v.items ≡ map string_bytes texts.now) }
{
    let mut lent = Vec::with_capacity(alloc, texts.len())?;
    for text in texts {
        lent.push(text.as_str())?;
    }
    Ok(lent)
}

/// What the change costs the keys of the file at a path, each of which pays once. Where a page would refuse none of them
/// they are paid for as they lie, sorted, and no page is made.
fn weigh_keys<R: Threads + Sync>(
    rt: &R,
    alloc: Global,
    path: &str,
    mut keys: Vec<&str>,
    old: &Rule,
    new: &Rule,
    prices: &Prices,
    json: bool,
) -> Result<Outcome, Refused>
    ensures exact { GivesUnlessWant outcome_view result (weighed_keys json old.now new.now prices.now (texts_view keys.entry.items)) }
    ensures calls { ComesFrom notes_keys result }
    ensures read { is_file_fault result ≡ false }
    ensures names { TellsOfOne ((file path.now, is_of_keys) ∷ (word old_weights, is_of_rules) ∷ []) result }
{
    if are_taken(keys.as_slice()) {
        sort_keys(rt, &mut keys);
        keys.dedup();
        return priced(rt, alloc, old, new, prices, keys.as_slice(), json);
    }
    let exposure = noted(alloc, path, keys.as_slice())?;
    match lent(alloc, exposure.inputs()) {
        Ok(inputs) => priced(rt, alloc, old, new, prices, inputs.as_slice(), json),
        Err(AllocError) => Err(out_of_memory(ListedCall::Price)),
    }
}

/// Sorts the keys by their bytes, by as many threads as there are processors.
fn sort_keys(rt: &(impl Threads + Sync), keys: &mut Vec<&str>)
    ensures permutation { IsPermutation keys.old.items keys.new.items }
    ensures len { length keys.new.items ≡ length keys.old.items }
    ensures sorted { IsSorted (λ x y. bytes_cmp x.now y.now) keys.new.items }
{
    par_sort_unstable(rt, keys.as_mut_slice());
}

/// Whether a page takes all these keys in whatever order they are noted.
fn are_taken(keys: &[&str]) -> bool
    ensures { result ≡ are_taken keys.now }
{
    keys.len() <= PAGE_INPUTS && are_short(keys)
}

fn are_short(keys: &[&str]) -> bool
    ensures { result ≡ are_short keys.now }
{
    for key in keys {
        if key.len() > INPUT_BYTES {
            return false;
        }
    }
    true
}

/// The keys as the inputs of a page of their own, noted one after the other.
#[tactic(auto, using(flagops_files::proofs::Told::says))]
fn noted(alloc: Global, path: &str, keys: &[&str]) -> Result<Exposure, Refused>
    ensures exact { GivesUnlessWant (λ e. e) result (exposed (texts_view keys.now)) }
    ensures calls { ComesFrom notes_keys result }
    ensures read { is_file_fault result ≡ false }
    ensures names { TellsOfOne ((file path.now, is_of_keys) ∷ []) result }
{
    let page = Page {
        flag: String::new(alloc),
        site: 0,
        by: None,
    };
    let mut book = Book::new(alloc);
    for key in keys {
        if let Err(fault) = book.note(alloc, &page, key) {
            let lines = of_noted(alloc, path, key, fault);
            return Err(Refused {
                refusal: ListedRefusal::Note(fault),
                remark: Remark::of(lines),
            });
        }
    }
    match book.exposure(alloc, &page) {
        Ok(exposure) => Ok(exposure),
        Err(AllocError) => Err(out_of_memory(ListedCall::Price)),
    }
}

#[tactic(auto, using(flagops_files::proofs::Told::says))]
fn priced(
    rt: &(impl Threads + Sync),
    alloc: Global,
    old: &Rule,
    new: &Rule,
    prices: &Prices,
    inputs: &[&str],
    json: bool,
) -> Result<Outcome, Refused>
    requires few { length inputs.now ≤ 1000000 }
    ensures exact { GivesUnlessWant outcome_view result (weighed json old.now new.now prices.now (texts_view inputs.now)) }
    ensures calls { ComesFrom price_itself result }
    ensures read { is_file_fault result ≡ false }
    ensures names { TellsOfOne ((word old_weights, is_of_rules) ∷ []) result }
{
    if old.total() != new.total() {
        let lines = of_weights(alloc, old.total(), new.total());
        return Err(Refused {
            refusal: ListedRefusal::Price(PriceMismatch::Weight),
            remark: Remark::of(lines),
        });
    }
    match answer(rt, alloc, old, new, prices, inputs, json) {
        Ok(text) => Ok(Outcome::plain(text.into_bytes(), Status::Done)),
        Err(AllocError) => Err(out_of_memory(ListedCall::Price)),
    }
}

/// What the change of a rule to one of its total comes to, in lines or as JSON.
#[tactic(auto, unfolding(crate::specs::Price::price_json, crate::specs::Price::price_text))]
fn answer(
    rt: &(impl Threads + Sync),
    alloc: Global,
    old: &Rule,
    new: &Rule,
    prices: &Prices,
    inputs: &[&str],
    json: bool,
) -> Result<String, AllocError>
    requires few { length inputs.now ≤ 1000000 }
    requires same { total_weight old.now ≡ total_weight new.now }
    requires small { total_weight new.now < 2 ^ 31 }
    ensures { IfOk result (λ s. string_bytes s
        ≡ (if json then price_json old.now new.now prices.now (texts_view inputs.now) else price_text old.now new.now prices.now (texts_view inputs.now))) }
{
    let totals = totals_by_name(alloc, new)?;
    let forbidden = first_forbidden(old, new, prices);
    let cost = switch_cost_of(rt, alloc, old, new, inputs, prices)?;
    if json {
        members(alloc, totals.as_slice(), forbidden, cost)
    } else {
        lines(alloc, totals.as_slice(), forbidden, cost)
    }
}

fn lines(
    alloc: Global,
    totals: &[(&str, u64)],
    forbidden: Option<u32>,
    cost: u64,
) -> Result<String, AllocError>
    ensures { IfOk result (λ s. string_bytes s ≡ price_lines (map (λ e. (e.0.now, e.1)) totals.now) forbidden cost) }
{
    let mut lines = total_lines(alloc, totals)?;
    let forbidden = forbidden_line(alloc, forbidden)?;
    lines.push_str(forbidden.as_str())?;
    let cost = cost_line(alloc, cost)?;
    lines.push_str(cost.as_str())?;
    Ok(lines)
}

fn total_lines(alloc: Global, totals: &[(&str, u64)]) -> Result<String, AllocError>
    ensures { IfOk result (λ s. string_bytes s ≡ total_lines (map (λ e. (e.0.now, e.1)) totals.now)) }
{
    let mut lines = String::new(alloc);
    for (name, total) in totals {
        let name = quoted(alloc, name)?;
        let line = total_line(alloc, &name, *total)?;
        lines.push_str(line.as_str())?;
    }
    Ok(lines)
}

fn total_line(alloc: Global, name: &String, total: u64) -> Result<String, AllocError>
    ensures { IfOk result (λ s. string_bytes s ≡ codes "total " ++ (string_bytes name.now ++ (codes " " ++ (decimal total ++ codes "\n")))) }
{
    format!(in alloc; "total {name} {total}\n")
}

fn forbidden_line(alloc: Global, point: Option<u32>) -> Result<String, AllocError>
    ensures { IfOk result (λ s. string_bytes s ≡ forbidden_line point) }
{
    match point {
        Some(point) => format!(in alloc; "forbidden {point}\n"),
        None => String::from_str(alloc, "forbidden none\n"),
    }
}

fn cost_line(alloc: Global, cost: u64) -> Result<String, AllocError>
    ensures { IfOk result (λ s. string_bytes s ≡ cost_line cost) }
{
    format!(in alloc; "cost {cost}\n")
}

fn members(
    alloc: Global,
    totals: &[(&str, u64)],
    forbidden: Option<u32>,
    cost: u64,
) -> Result<String, AllocError>
    requires { members_are_whole (total_members (map (λ e. (e.0.now, e.1)) totals.now)) ≡ true }
    ensures { IfOk result (λ s. string_bytes s ≡ price_members (map (λ e. (e.0.now, e.1)) totals.now) forbidden cost) }
{
    let totals = print_tree(alloc, &total_tree(alloc, totals)?)?;
    let forbidden = number_or_null(alloc, forbidden)?;
    three_members(alloc, cost, &forbidden, &totals)
}

fn three_members(
    alloc: Global,
    cost: u64,
    forbidden: &String,
    totals: &String,
) -> Result<String, AllocError>
    ensures { IfOk result (λ s. string_bytes s ≡ codes "{\"cost\":" ++ (decimal cost ++ (codes ",\"forbidden\":" ++ (string_bytes forbidden.now ++ (codes ",\"totals\":" ++ (string_bytes totals.now ++ codes "}\n")))))) }
{
    format!(in alloc; "{{\"cost\":{cost},\"forbidden\":{forbidden},\"totals\":{totals}}}\n")
}

fn number_or_null(alloc: Global, number: Option<u32>) -> Result<String, AllocError>
    ensures { IfOk result (λ s. string_bytes s ≡ number_or_null number) }
{
    match number {
        Some(number) => format!(in alloc; "{number}"),
        None => String::from_str(alloc, "null"),
    }
}

/// The names and their totals, as the members of an object.
fn total_tree(alloc: Global, totals: &[(&str, u64)]) -> Result<Tree, AllocError>
    requires { members_are_whole (total_members (map (λ e. (e.0.now, e.1)) totals.now)) ≡ true }
    ensures { IfOk result (λ t. view t ≡ object (total_members (map (λ e. (e.0.now, e.1)) totals.now))) }
{
    let mut members = Vec::with_capacity(alloc, totals.len())?;
    for (name, total) in totals {
        members.push((String::from_str(alloc, name)?, whole_tree(*total)))?;
    }
    Ok(Tree::Object(members))
}

fn whole_tree(n: u64) -> Tree
    requires { n < 2 ^ 53 }
    ensures { view result ≡ whole (pos n) }
{
    Tree::Whole(n as i64)
}
