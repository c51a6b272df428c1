//! The name of a fault of the file of a tally.
ghost use Rattle.std.specs.Prelude.{◌≡◌};
ghost use Rattle.flagops_files.specs.Tallies.{name_of};

use note_tallies::TallyFileFault;

/// The name that a refusal is written with: the variant's.
pub(crate) fn name_of_tally_fault(fault: TallyFileFault) -> &'static str
    ensures { result.now ≡ name_of fault }
{
    match fault {
        TallyFileFault::WantOfMemory => "WantOfMemory",
        TallyFileFault::Header => "Header",
        TallyFileFault::Page => "Page",
        TallyFileFault::Line(_) => "Line",
        TallyFileFault::Order(_) => "Order",
        TallyFileFault::Inputs => "Inputs",
    }
}
