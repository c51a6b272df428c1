//! The command `follow`.
ghost use Rattle.std.specs.Prelude.{◌≡◌, false, map};
ghost use Rattle.flagops_shell.specs.Console.{IsOpen};
ghost use Rattle.flagops_streams.specs.Ended.{FollowsAsked, TellsFollow};

use crate::asked::Following;
use crate::following::follow_port;
use crate::words::read_follow;
use flag_text::Outlet;
use flagops_shell::{Console, report_usage};
use std::convert::AsStr;
use std::net::Net;
use std::time::Clock;

/// Does what the words after the program's name ask of `follow`, which is the first of them, and gives the status to end
/// with. It prints a line for each snapshot of the stream when it has come, and a last one that says how the stream ended:
/// 0 where it ended or all turns were taken, else 1, also where nothing came for as long as the words allow.
pub fn follow<R: AllocGlobal + Net + Clock, S: AsStr, O: Outlet, E: Outlet>(
    rt: &R,
    words: &[S],
    console: &mut Console<O, E>,
) -> u8
    requires { IsOpen console.old }
    ensures follows { FollowsAsked console.old console.new result (map S.text words.now) }
    ensures tells { TellsFollow console.old console.new result (map S.text words.now) }
{
    let alloc = rt.alloc();
    match read_follow(alloc, words) {
        Ok(following) => {
            let Following { port, turns, wait } = following;
            follow_port(rt, port, turns, wait, &mut console.out, &mut console.err)
        }
        Err(error) => report_usage(alloc, &error, console),
    }
}
