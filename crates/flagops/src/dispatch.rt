//! The commands by their families: what the words ask for is done by the library of the family.
ghost use Rattle.std.specs.Prelude.{◌≡◌, ◌⊎◌, false, map, IfErr, IfOk};
ghost use Rattle.std.specs.Process.{exit_status};
ghost use Rattle.flagops.specs.Comes.{Comes};
ghost use Rattle.flagops.specs.First.{family_of};
ghost use Rattle.flagops_shell.specs.Console.{IsOpen};
ghost use Rattle.flagops_shell.specs.Usage.{ShowsMistake, ShowsWordsWant};

use crate::family::{Family, family_of};
use byte_streams::Inlet;
use flag_text::Outlet;
use flagops_books::Uniting;
use flagops_checks::Checking;
use flagops_commands::Listed;
use flagops_compare::Comparing;
use flagops_filters::{Joining, Opening, record, tally};
use flagops_pictures::{Picturing, PicturingRamp, Planning};
use flagops_ramps::{Applying, Keeping, Ramping, Verifying};
use flagops_service::{Host, ofrep};
use flagops_shell::{Console, FileSet, complain, run, want};
use flagops_streams::{follow, serve};
use std::convert::AsStr;
use std::io;
use std::process::ExitCode;

/// Does what the words after the program's name ask for, over whatever files and outlets it is given, and gives the status
/// that the process ends with.
pub fn flagops<R, S, I, F, O, E>(
    rt: &R,
    words: io::Result<Vec<S>>,
    input: &mut I,
    files: &mut F,
    console: &mut Console<O, E>,
) -> ExitCode
where
    R: Host,
    S: AsStr + Drop,
    I: Inlet + Opening,
    F: FileSet,
    O: Outlet,
    E: Outlet + Drop,
    requires in_whole { I.is_broken input.old ≡ false }
    requires open { IsOpen console.old }
    ensures comes { IfOk words (λ w.
        Comes console.old console.new (F.holding files.old) (F.holding files.new) (F.has_failed files.old) (F.has_failed files.new)
        (exit_status result) (I.bytes input.old) (I.is_broken input.new) (family_of (map S.text w.items)) (map S.text w.items)) }
    ensures no_words { IfErr words (λ _. ShowsMistake console.old console.new (exit_status result) ⊎ ShowsWordsWant console.old console.new (exit_status result)) }
    ensures no_words_kept { IfErr words (λ _. files.new ≡ files.old) }
{
    match words {
        Ok(words) => ExitCode::from(status_of(rt, words.as_slice(), input, files, console)),
        Err(e) if e.kind() == io::ErrorKind::OutOfMemory => {
            ExitCode::from(want(console, "flagops"))
        }
        Err(_) => ExitCode::from(complain(&mut console.err, "error: the words are not UTF-8\n")),
    }
}

/// The status to end with, after what the words after the program's name ask for was done.
fn status_of<R, S, I, F, O, E>(
    rt: &R,
    words: &[S],
    input: &mut I,
    files: &mut F,
    console: &mut Console<O, E>,
) -> u8
where
    R: Host,
    S: AsStr,
    I: Inlet + Opening,
    F: FileSet,
    O: Outlet,
    E: Outlet + Drop,
    requires in_whole { I.is_broken input.old ≡ false }
    requires open { IsOpen console.old }
    ensures { Comes console.old console.new (F.holding files.old) (F.holding files.new) (F.has_failed files.old) (F.has_failed files.new)
        result (I.bytes input.old) (I.is_broken input.new) (family_of (map S.text words.now)) (map S.text words.now) }
{
    match family_of(words) {
        Family::Files => run::<R, S, F, Listed<'_>, O, E>(rt, words, files, console),
        Family::Serve => serve(rt, words, files, console),
        Family::Follow => follow(rt, words, console),
        Family::Ramp => run::<R, S, F, Ramping<'_>, O, E>(rt, words, files, console),
        Family::VerifyRamp => run::<R, S, F, Verifying<'_>, O, E>(rt, words, files, console),
        Family::Picture => run::<R, S, F, Picturing<'_>, O, E>(rt, words, files, console),
        Family::PictureRamp => run::<R, S, F, PicturingRamp<'_>, O, E>(rt, words, files, console),
        Family::PlanPicture => run::<R, S, F, Planning<'_>, O, E>(rt, words, files, console),
        Family::ApplyStep => run::<R, S, F, Applying<'_>, O, E>(rt, words, files, console),
        Family::KeepStep => run::<R, S, F, Keeping<'_>, O, E>(rt, words, files, console),
        Family::Ofrep => ofrep(rt, words, files, console),
        Family::Record => record(rt, words, input, files, console),
        Family::Tally => tally(rt, words, input, files, console),
        Family::Join => run::<R, S, F, Joining<'_>, O, E>(rt, words, files, console),
        Family::Book => run::<R, S, F, Uniting<'_>, O, E>(rt, words, files, console),
        Family::Check => run::<R, S, F, Checking<'_>, O, E>(rt, words, files, console),
        Family::Compare => run::<R, S, F, Comparing<'_>, O, E>(rt, words, files, console),
    }
}
