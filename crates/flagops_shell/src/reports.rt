//! Writing what a command reports.
ghost use Rattle.std.specs.Prelude.{◌≡◌, ◌<◌, ◌++◌, length, false, not};
ghost use Rattle.std.specs.Bool.{OnTrue};
ghost use Rattle.std.specs.Io.KnownBytes.{Appends};
ghost use Rattle.flag_text.specs.Outlet.{AppendsPart};
ghost use Rattle.flagops_shell.specs.Console.{IsOpen};
ghost use Rattle.flagops_shell.specs.Diagnostic.{PutsRemark, spoken};
ghost use Rattle.flagops_shell.specs.Report.{Puts, PutsText, Reports, ShowsReport, outcome_view, refusal_report, want_line_of};

use crate::console::Console;
use crate::outcome::{Outcome, Status};
use crate::refused::Remark;
use flag_text::{Outlet, write_whole};

/// Writes the text of an outcome to the output and what a person is told of it to the error output, and gives its status, or
/// that of a refusal where the output failed. What becomes of the error output changes neither.
pub fn report<O: Outlet, E: Outlet>(console: &mut Console<O, E>, outcome: &Outcome) -> u8
    requires { IsOpen console.old }
    ensures report { ShowsReport console.old console.new result (outcome_view outcome.now) }
    ensures remark { PutsRemark console.old.reported console.new.reported console.new.is_mute outcome.now.remark }
{
    let status = print(&mut console.out, outcome);
    if let Some(remark) = &outcome.remark {
        tell(&mut console.err, remark.text());
    }
    status
}

/// Writes the text of an outcome, and gives its status, or that of a refusal where the output failed.
fn print<O: Outlet>(out: &mut O, outcome: &Outcome) -> u8
    requires { O.is_broken out.old ≡ false }
    ensures { Reports (O.bytes out.old) (O.bytes out.new) (O.is_broken out.new) result (outcome_view outcome.now) }
{
    if write_whole(out, outcome.text.as_slice()) {
        outcome.status.number()
    } else {
        Status::Refused.number()
    }
}

/// Writes the line of a call that ran out of memory, and takes none for it; a person is told the same.
pub fn want<O: Outlet, E: Outlet>(console: &mut Console<O, E>, call: &str) -> u8
    requires { IsOpen console.old }
    ensures { ShowsReport console.old console.new result (refusal_report (want_line_of call.now)) }
{
    let status = print_want(&mut console.out, call);
    tell(&mut console.err, Remark::Short.text());
    status
}

fn print_want<O: Outlet>(out: &mut O, call: &str) -> u8
    requires { O.is_broken out.old ≡ false }
    ensures { Reports (O.bytes out.old) (O.bytes out.new) (O.is_broken out.new) result (refusal_report (want_line_of call.now)) }
{
    write_three(out, b"refused ", call.as_bytes(), b" 0 WantOfMemory\n");
    Status::Refused.number()
}

/// Writes what a person is told.
pub fn tell<E: Outlet>(err: &mut E, text: &str)
    requires { E.is_broken err.old ≡ false }
    ensures told { PutsText (E.bytes err.old) (E.bytes err.new) (E.is_broken err.new) }
    ensures spoken { Puts (E.bytes err.old) (E.bytes err.new) (E.is_broken err.new) (spoken text.now) }
{
    write_whole(err, spoken(text).as_bytes());
}

/// A text as it is told. One that says nothing is not: no clause says that those of `clap`, or of a remark, are not empty.
fn spoken(text: &str) -> &str
    ensures text { result.now ≡ spoken text.now }
    ensures some { 0 < length result.now }
{
    if text.is_empty() {
        "error: docs/REFUSALS.md explains the answer\n"
    } else {
        text
    }
}

/// Writes all three, and says whether that went well.
pub fn write_three<O: Outlet>(out: &mut O, first: &[u8], second: &[u8], third: &[u8]) -> bool
    requires { O.is_broken out.old ≡ false }
    ensures whole { OnTrue result (Appends (O.bytes out.old) (O.bytes out.new)
        (first.now ++ (second.now ++ third.now))) }
    ensures part { AppendsPart (O.bytes out.old) (O.bytes out.new)
        (first.now ++ (second.now ++ third.now)) }
    ensures broken { result ≡ not (O.is_broken out.new) }
{
    if !write_whole(out, first) {
        return false;
    }
    if !write_whole(out, second) {
        return false;
    }
    write_whole(out, third)
}
