//! The inputs that a page of a book holds.
ghost use Rattle.std.specs.Prelude.{◌≡◌, ◌∷◌, [], length, map, string_bytes, IfOk, IsOk, OnOk, OnErr};
ghost use Rattle.std.specs.BTreeSet.{insert_key};
ghost use Rattle.std.specs.List.Sorted.{IsStrictlySortedBy};
ghost use Rattle.book_core.specs.Book.{IsExposure, inputs_view, is_among};
ghost use Rattle.book_core.specs.Page.{bytes_cmp};
ghost use Rattle.book_core.specs.Reading.{is_above};

use exposures::Exposure;
use std::alloc::{AllocError, Global};
use std::cmp::Ordering;
use std::collections::BTreeSet;

/// The inputs of a page, each once, in strictly rising order of their bytes: a list while each new one comes after all
/// before it, as in a file, and a set from the first that does not.
#[derive(Drop)]
pub(crate) enum PageInputs {
    Listed(Vec<String>),
    Gathered(BTreeSet<String>),
}

impl PageInputs {
    /// One input.
    pub(crate) fn of_one(alloc: Global, input: String) -> Result<PageInputs, AllocError>
        ensures { IfOk result (λ inputs. inputs_view inputs ≡ string_bytes input ∷ []) }
    {
        let mut list = Vec::new(alloc);
        list.push(input)?;
        Ok(PageInputs::Listed(list))
    }

    /// How many they are.
    pub(crate) fn len(&self) -> usize
        ensures { result ≡ length (inputs_view self.now) }
    {
        match self {
            PageInputs::Listed(list) => list.len(),
            PageInputs::Gathered(set) => set.len(),
        }
    }

    /// Whether an input is one of them.
    pub(crate) fn contains(&self, input: &str) -> bool
        requires { IsStrictlySortedBy bytes_cmp (inputs_view self.now) }
        ensures { result ≡ is_among input.now (inputs_view self.now) }
    {
        match self {
            PageInputs::Listed(list) => is_listed(list.as_slice(), input),
            PageInputs::Gathered(set) => set.contains(input),
        }
    }

    /// Adds an input. It costs a pass over a list where the input does not come after it.
    pub(crate) fn insert(&mut self, alloc: Global, input: String) -> Result<(), AllocError>
        requires { IsStrictlySortedBy bytes_cmp (inputs_view self.old) }
        ensures inserted { OnOk result (inputs_view self.new ≡ insert_key bytes_cmp (inputs_view self.old) (string_bytes input)) }
        ensures refused { OnErr result (inputs_view self.new ≡ inputs_view self.old) }
    {
        let mut set = match self {
            PageInputs::Gathered(set) => {
                set.insert(input)?;
                return Ok(());
            }
            PageInputs::Listed(list) => {
                if is_above(list.as_slice(), input.as_str()) {
                    list.push(input)?;
                    return Ok(());
                }
                set_of(alloc, list.as_slice())?
            }
        };
        set.insert(input)?;
        *self = PageInputs::Gathered(set);
        Ok(())
    }

    /// A copy of them.
    pub(crate) fn exposure(&self, alloc: Global) -> Result<Exposure, AllocError>
        requires { IsExposure (inputs_view self.now) }
        ensures copies { IfOk result (λ copies. copies ≡ inputs_view self.now) }
        ensures none { inputs_view self.now ≡ [] → IsOk result }
    {
        if self.len() == 0 {
            return Ok(Exposure::of_rising(Vec::new(alloc)));
        }
        match self {
            PageInputs::Listed(list) => list_copied(alloc, list.as_slice()),
            PageInputs::Gathered(set) => set_copied(alloc, set),
        }
    }
}

/// Whether an input comes after each of a list.
pub(crate) fn is_above(list: &[String], input: &str) -> bool
    requires { IsStrictlySortedBy bytes_cmp (map string_bytes list.now) }
    ensures { result ≡ is_above (map string_bytes list.now) input.now }
{
    match list.last() {
        None => true,
        Some(last) => last.as_str() < input,
    }
}

/// Whether an input is one of a list, which is halved only where the input does not come after it.
fn is_listed(list: &[String], input: &str) -> bool
    requires { IsStrictlySortedBy bytes_cmp (map string_bytes list.now) }
    ensures { result ≡ is_among input.now (map string_bytes list.now) }
{
    if is_above(list, input) {
        return false;
    }
    match list.binary_search_by(|other| compared(other, input)) {
        Ok(_) => true,
        Err(_) => false,
    }
}

fn compared(text: &String, input: &str) -> Ordering
    ensures { result ≡ bytes_cmp (string_bytes text.now) input.now }
{
    text.as_str().cmp(input)
}

/// The set of a list, copied from its end, so that a failure leaves the list as it was.
fn set_of(alloc: Global, list: &[String]) -> Result<BTreeSet<String>, AllocError>
    requires { IsStrictlySortedBy bytes_cmp (map string_bytes list.now) }
    ensures { IfOk result (λ set. map string_bytes set.keys ≡ map string_bytes list.now) }
{
    let mut set = BTreeSet::new(alloc);
    let mut left = list.len();
    while left > 0 {
        left -= 1;
        set.insert(String::from_str(alloc, list[left].as_str())?)?;
    }
    Ok(set)
}

/// The inputs of a list.
fn list_copied(alloc: Global, list: &[String]) -> Result<Exposure, AllocError>
    requires { IsExposure (map string_bytes list.now) }
    ensures { IfOk result (λ copies. copies ≡ map string_bytes list.now) }
{
    let mut copies = Vec::with_capacity(alloc, list.len())?;
    for input in list {
        copies.push(String::from_str(alloc, input.as_str())?)?;
    }
    Ok(Exposure::of_rising(copies))
}

/// The inputs of a set.
fn set_copied(alloc: Global, set: &BTreeSet<String>) -> Result<Exposure, AllocError>
    requires { IsExposure (map string_bytes set.now.keys) }
    ensures { IfOk result (λ copies. copies ≡ map string_bytes set.now.keys) }
{
    let mut copies = Vec::with_capacity(alloc, set.len())?;
    for input in set {
        copies.push(String::from_str(alloc, input.as_str())?)?;
    }
    Ok(Exposure::of_rising(copies))
}
