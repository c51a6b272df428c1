//! What holds of the definitions alone.
ghost use Rattle.source_merge.specs.Merge.{HasLatestEntries};

/// A merge has, at each key, the whole entry of the latest added source that has it, and no other entries.
pub fn a_merge_has_the_latest_entries()
    ensures { HasLatestEntries }
{}
