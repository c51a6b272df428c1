//! What a worker's answers rest on.
ghost use Rattle.std.specs.Prelude.{◌≡◌};
ghost use Rattle.ofrep_worker.specs.Answers.{LooksIn, Rises, Stands, files, kept_in, looks_in};
ghost use Rattle.ofrep_worker.specs.Standing.{responded, still_stands, still_stands_looked};

use crate::worker::OfrepWorker;
use log_file::{LogFile, LogPaths};
use service_layers::Recording;
use snap_share::ShareName;
use std::sync::Wait;
use std::time::Clock;

impl<J: ShareName, R: Clock + LogPaths + Wait, F: LogFile> Recording for OfrepWorker<'_, J, R, F> {
    ghost stands = { λ worker request response. Stands worker.without_record worker.seat.known (files (kept_in worker.log)) request response };

    ghost looked = { λ old new. (new.without_record ≡ old.without_record) × (new.seat ≡ old.seat) × LooksIn (kept_in old.log) (kept_in new.log) × Rises (looks_in old.log) (looks_in new.log) };

    fn look(&mut self) {
        self.look_for_log();
        self.count_log();
    }

    ghost given = { λ old request response new. responded old.without_record new.without_record old.seat new.seat request response (kept_in old.log) (kept_in new.log) };

    ghost stays = { λ old request response new. still_stands old.without_record new.without_record old.seat new.seat request response (kept_in old.log) (kept_in new.log) };

    ghost looked_stays = { λ old new is. still_stands_looked old.without_record new.without_record old.seat new.seat (kept_in old.log) (kept_in new.log) is.0 is.1 is.2 };
}
