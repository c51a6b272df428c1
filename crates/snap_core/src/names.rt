//! The names of the sources of a new service.
ghost use Rattle.std.specs.Prelude.{◌≡◌, ◌≤◌, false, length, map, string_bytes, IfOk, IfErr};
ghost use Rattle.std.specs.List.{list_any};
ghost use Rattle.std.specs.Str.{bytes_eq};
ghost use Rattle.source_merge.specs.Sources.{most_sources};
ghost use Rattle.source_merge.specs.View.{sources_view};
ghost use Rattle.snap_core.specs.Opening.{has_double, sources_named};

use crate::fault::WorldFault;
use source_merge::{SourceFault, Sources};
use std::alloc::Global;

/// Whether a name stands twice. It takes no memory.
pub(crate) fn has_double(names: &[String]) -> bool
    ensures { result ≡ has_double (map string_bytes names.now) }
{
    for i in 0..names.len() {
        if is_among(names[i].as_str(), &names[i + 1..]) {
            return true;
        }
    }
    false
}

fn is_among(name: &str, names: &[String]) -> bool
    ensures { result ≡ list_any (bytes_eq name.now) (map string_bytes names.now) }
{
    for other in names {
        if name == other.as_str() {
            return true;
        }
    }
    false
}

/// Sources of these names, without documents.
pub(crate) fn sources_of(alloc: Global, names: &[String]) -> Result<Sources, WorldFault>
    requires distinct { has_double (map string_bytes names.now) ≡ false }
    requires few { length names.now ≤ most_sources }
    ensures value { IfOk result (λ s. sources_view s ≡ sources_named (map string_bytes names.now)) }
    ensures want { IfErr result (λ fault. fault ≡ WorldFault.WantOfMemory) }
{
    let mut sources = Sources::new(alloc);
    for name in names {
        match sources.add(alloc, name.as_str()) {
            Ok(()) => {}
            Err(SourceFault::Known) => return Err(WorldFault::Known),
            Err(SourceFault::TooMany) => return Err(WorldFault::TooMany),
            Err(_) => return Err(WorldFault::WantOfMemory),
        }
    }
    Ok(sources)
}
