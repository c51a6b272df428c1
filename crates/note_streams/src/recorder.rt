//! What is recorded of one context.
ghost use Rattle.std.specs.Prelude.{nat_lt, ◌≡◌, ◌≤◌, ◌<◌, ◌^◌, ◌+◌, ◌++◌, ◌||◌, ◌↔◌, true, false, map, flat_map, length, slice_get, string_bytes, IfOk, IfSome, OnOk, IfErr, Some, None, Err, Ok, ◌≢◌};
ghost use Rattle.std.specs.List.{list_any};
ghost use Rattle.std.specs.Map.{lookup};
ghost use Rattle.std.specs.Str.{bytes_eq};
ghost use Rattle.flag_text.specs.Shape.{is_tidy};
ghost use Rattle.flag_text.specs.View.{view};
ghost use Rattle.flag_defs.specs.Flag.{flag_view, is_broken, targeting_in};
ghost use Rattle.flag_defs.specs.Flags.{flags_view};
ghost use Rattle.logic_eval.specs.Views.{reach_view};
ghost use Rattle.note_streams.specs.Scene.{scene_of};
ghost use Rattle.note_streams.specs.Outcomes.{both, contexts};
ghost use Rattle.note_streams.specs.Record.{IsSceneOf, PagesIn, is_long, note_of, notes_of, outcomes_of, resolved_in};
ghost use Rattle.note_streams.specs.View.{outcomes_view};
ghost use Rattle.note_streams.specs.Refusal.{refusal_for};
ghost use Rattle.note_streams.specs.declared.recorder.RecordFault.TheVariants.{WantOfMemory};

use crate::outcomes::{Outcome, Outcomes, counted_both, unnoted};
use crate::recorded::Recorded;
use crate::scene::Recorder;
use book_core::Page;
use flag_defs::{Flag, Flags};
use flag_resolve::{Kind, resolve};
use flag_text::Tree;
use limits::INPUT_BYTES;
use logic_eval::Reached;
use note_lines::note_line;
use site_pages::pages_of;
use std::alloc::{AllocError, Global};
use thiserror::Error;

/// Why nothing is recorded of a flag.
#[derive(Clone, Copy, Debug, PartialEq, Eq, Error)]
pub enum RecordFault {
    /// Memory ran out.
    #[error("out of memory")]
    WantOfMemory,
    /// No flag has the key.
    #[error("no flag has the key")]
    UnknownFlag,
    /// The flag is broken.
    #[error("the flag is broken")]
    Broken,
}

impl From<AllocError> for RecordFault {
    ghost from_gives = { λ _ e. e ≡ WantOfMemory };

    fn from(_e: AllocError) -> RecordFault {
        RecordFault::WantOfMemory
    }
}

/// The good flag of a key.
fn good_flag<'a>(flags: &'a Flags, key: &str) -> Result<&'a Flag, RecordFault>
    ensures flag { IfOk result (λ f. lookup (bytes_eq key.now) (flags_view flags.entry.now) ≡ Some (flag_view f.now)) }
    ensures good { IfOk result (λ f. is_broken (flag_view f.now) ≡ false) }
    ensures refused { IfErr result (λ e. refusal_for (lookup (bytes_eq key.now) (flags_view flags.entry.now)) ≡ Some e) }
    ensures refuses { IfSome (refusal_for (lookup (bytes_eq key.now) (flags_view flags.entry.now))) (λ e. result ≡ Err e) }
{
    match flags.get(key) {
        None => Err(RecordFault::UnknownFlag),
        Some(flag) => if_good(flag),
    }
}

/// The same of a flag.
fn if_good(flag: &Flag) -> Result<&Flag, RecordFault>
    ensures flag { IfOk result (λ f. flag_view f.now ≡ flag_view flag.entry.now) }
    ensures good { IfOk result (λ f. is_broken (flag_view f.now) ≡ false) }
    ensures refused { IfErr result (λ e. refusal_for (Some (flag_view flag.entry.now)) ≡ Some e) }
    ensures refuses { IfSome (refusal_for (Some (flag_view flag.entry.now))) (λ e. result ≡ Err e) }
{
    if flag.is_broken() {
        Err(RecordFault::Broken)
    } else {
        Ok(flag)
    }
}

/// The pages of the sites of a flag.
fn site_pages(alloc: Global, key: &str, flag: &Flag) -> Result<Vec<Page>, AllocError>
    ensures { IfOk result (λ pages. PagesIn key.now pages.items (targeting_in (flag_view flag.now))) }
{
    match flag.targeting() {
        None => Ok(Vec::new(alloc)),
        Some(targeting) => pages_of(alloc, key, targeting),
    }
}

impl<'a> Recorder<'a> {
    /// Records the flag of a key. The condition is a moment of at most 2^53-1.
    ///
    /// Refusals, in this order: `UnknownFlag`, `Broken`. They take no memory.
    pub fn new(
        alloc: Global,
        flags: &'a Flags,
        key: &'a str,
        moment: u64,
    ) -> Result<Recorder<'a>, RecordFault>
        requires { moment < 2 ^ 53 }
        ensures scene { IfOk result (λ r. IsSceneOf (flags_view flags.entry.now) key.entry.now moment (scene_of r)) }
        ensures refused { IfErr result (λ e. e ≢ RecordFault.WantOfMemory → refusal_for (lookup (bytes_eq key.entry.now) (flags_view flags.entry.now)) ≡ Some e) }
        ensures refuses { IfSome (refusal_for (lookup (bytes_eq key.entry.now) (flags_view flags.entry.now))) (λ e. result ≡ Err e) }
    {
        let flag = good_flag(flags, key)?;
        let pages = site_pages(alloc, key, flag)?;
        Ok(Recorder {
            flags,
            key,
            moment,
            pages,
        })
    }

    /// Adds the lines of what is reached in a context, and what came of it.
    pub(crate) fn record(
        &self,
        alloc: Global,
        context: &Tree,
        out: &mut Recorded,
    ) -> Result<(), AllocError>
        requires tidy { is_tidy (view context.now) ≡ true }
        requires room { contexts (outcomes_view out.old.outcomes) + 1 < 2 ^ 64 }
        ensures text { OnOk result (out.new.text.items ≡ out.old.text.items ++ notes_of (scene_of self.now) (resolved_in (scene_of self.now) (view context.now))) }
        ensures outcomes { OnOk result (outcomes_view out.new.outcomes ≡ both (outcomes_view out.old.outcomes) (outcomes_of (scene_of self.now) (view context.now) (resolved_in (scene_of self.now) (view context.now)))) }
        ensures lines { out.new.lines ≡ out.old.lines }
        ensures refused { out.new.refused ≡ out.old.refused }
    {
        let resolution = resolve(
            alloc,
            Some(self.flags),
            self.key,
            Kind::Text,
            &Tree::Null,
            context,
            self.moment,
        )?;
        let had = out.text.len();
        let long = self.note_all(alloc, resolution.reached.as_slice(), &mut out.text)?;
        let outcome = if out.text.len() > had {
            Outcome::Noted
        } else {
            unnoted(context, &resolution, long > 0)
        };
        out.outcomes = out.outcomes.both(Outcomes::of(long, outcome));
        Ok(())
    }

    /// Adds the lines of the inputs that were reached, and gives the number of those that have too many bytes.
    fn note_all(
        &self,
        alloc: Global,
        reached: &[Reached],
        text: &mut Vec<u8>,
    ) -> Result<u64, AllocError>
        ensures text { OnOk result (text.new.items ≡ text.old.items ++ flat_map (note_of (scene_of self.now)) (map reach_view reached.now)) }
        ensures long { IfOk result (λ long. nat_lt 0 long ≡ list_any is_long (map reach_view reached.now)) }
    {
        let mut long = 0u64;
        for reach in reached {
            if self.note(alloc, reach, text)? {
                long = counted_both(long, 1);
            }
        }
        Ok(long)
    }

    /// Adds the line of an input, unless it has too many bytes, and gives whether it has.
    fn note(&self, alloc: Global, reach: &Reached, text: &mut Vec<u8>) -> Result<bool, AllocError>
        ensures text { OnOk result (text.new.items ≡ text.old.items ++ note_of (scene_of self.now) (reach_view reach.now)) }
        ensures long { IfOk result (λ b. b ≡ is_long (reach_view reach.now)) }
    {
        let input = reach.input.as_str();
        if input.len() > INPUT_BYTES {
            return Ok(true);
        }
        let Some(page) = self.pages.get(reach.site as usize) else {
            return Ok(false);
        };
        let line = note_line(alloc, page, input)?;
        text.extend_from_slice(line.as_slice())?;
        Ok(false)
    }
}
