//! What holds of the machine alone.
ghost use Rattle.snap_core.specs.History.{GivesHistories, GivesNothingTwice};

/// Whatever the events, the snapshots that a subscriber took have strictly rising numbers, and each is that item of the
/// published flags; a Take answers nothing exactly where the subscriber has taken the last of them.
pub fn a_subscriber_takes_a_history()
    ensures histories { GivesHistories }
    ensures nothing_twice { GivesNothingTwice }
{}
