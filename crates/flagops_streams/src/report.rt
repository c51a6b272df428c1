//! Writing what a command of streams reports.
ghost use Rattle.std.specs.Prelude.{◌≡◌, false, map, IfOk, string_bytes};
ghost use Rattle.flagops_streams.specs.Refusal.{want_line};
ghost use Rattle.flagops_streams.specs.Report.{Reports, RefusesBy, Writes, published_line};

use crate::refusal::Refusal;
use crate::remark::{say_refused, say_why};
use flag_text::{Outlet, write_whole};
use flagops_shell::write_three;
use std::alloc::{AllocError, Global};

/// Writes the line of a refusal, or without taking memory that of its call which ran out of it, and gives the status 1. The
/// condition is an output that is not broken.
pub fn refuse<O: Outlet>(alloc: Global, out: &mut O, refusal: Refusal) -> u8
    requires { O.is_broken out.old ≡ false }
    ensures { RefusesBy refusal (O.bytes out.old) (O.bytes out.new) (O.is_broken out.new) result }
{
    match refusal.line(alloc) {
        Ok(line) => write_line(out, line.as_str(), 1),
        Err(AllocError) => want(out, refusal.call()),
    }
}

/// Writes a line, and gives the status, or 1 where the output failed.
#[tactic(auto, using(crate::proofs::Writes::good, crate::proofs::Writes::bad))]
pub fn write_line<O: Outlet>(out: &mut O, line: &str, status: u8) -> u8
    requires { O.is_broken out.old ≡ false }
    ensures { Writes (O.bytes out.old) (O.bytes out.new) (O.is_broken out.new) result line.now status }
{
    if write_whole(out, line.as_bytes()) {
        status
    } else {
        1
    }
}

/// Writes the line of a call that ran out of memory, takes none for it, and gives the status 1.
fn want<O: Outlet>(out: &mut O, call: &str) -> u8
    requires { O.is_broken out.old ≡ false }
    ensures { Writes (O.bytes out.old) (O.bytes out.new) (O.is_broken out.new) result (want_line call.now) 1 }
{
    write_three(out, b"refused ", call.as_bytes(), b" 0 WantOfMemory\n");
    1
}

/// Writes what `serve` answered: how many documents were published, with status 0, or the line of a refusal with status 1,
/// and then a person is told why, of documents with these paths and bytes.
#[tactic(auto, using(crate::proofs::Reasons::reason_at))]
pub(crate) fn report_answer<O: Outlet, E: Outlet>(
    alloc: Global,
    out: &mut O,
    err: &mut E,
    paths: &[&str],
    texts: &[Vec<u8>],
    answer: Result<u64, Refusal>,
) -> u8
    requires { O.is_broken out.old ≡ false }
    ensures reports { Reports (map (λ path. path.now) paths.now) (λ _ told now _. now ≡ told) answer (O.bytes out.old) (O.bytes out.new) (O.is_broken out.new) (E.bytes err.old) (E.bytes err.new) (E.is_broken err.new) result }
    ensures stays { E.is_broken err.new ≡ false → E.is_broken err.old ≡ false }
{
    match answer {
        Ok(count) => match line_of(alloc, count) {
            Ok(line) => write_line(out, line.as_str(), 0),
            Err(AllocError) => {
                say_refused(alloc, err, Refusal::WantOfMemory);
                refuse(alloc, out, Refusal::WantOfMemory)
            }
        },
        Err(refusal) => {
            say_why(alloc, err, paths, texts, refusal);
            refuse(alloc, out, refusal)
        }
    }
}

/// The line that says how many documents were published.
#[tactic(auto, unfolding(crate::specs::Report::published_line))]
fn line_of(alloc: Global, count: u64) -> Result<String, AllocError>
    ensures { IfOk result (λ s. string_bytes s ≡ published_line count) }
{
    format!(in alloc; "published {count}\n")
}
