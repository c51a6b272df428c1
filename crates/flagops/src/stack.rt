//! The stack of its own on which the commands run.
ghost use Rattle.std.specs.Prelude.{◌≡◌, false};

use crate::dispatch::flagops;
use crate::watching::Watcher;
use byte_streams::Inlet;
use control_desk::DeskPaths;
use flag_text::Outlet;
use flagops_filters::Opening;
use flagops_shell::{Console, FileSet};
use limits::STACK_BYTES;
use log_file::LogPaths;
use std::convert::AsStr;
use std::io;
use std::net::{Net, TcpListener, TcpStream};
use std::process::ExitCode;
use std::random::RandomSource;
use std::sync::Wait;
use std::thread::{self, Builder, Threads};
use std::time::Clock;

/// Does what the words ask for on a stack of its own, where there is memory for one.
pub fn on_stack<R, S, I, F, O, E, W>(
    rt: &R,
    words: io::Result<Vec<S>>,
    input: I,
    files: F,
    out: O,
    err: E,
    watcher: &W,
) -> Option<ExitCode>
where
    R: AllocGlobal
        + LogPaths
        + DeskPaths
        + Net<Listener = TcpListener, Stream = TcpStream>
        + Clock
        + RandomSource
        + Threads
        + Wait
        + Sync,
    S: AsStr + Send + Drop,
    I: Inlet + Opening + Send + Drop,
    F: FileSet + Send + Drop,
    O: Outlet + Send + Drop,
    E: Outlet + Send + Drop,
    W: Watcher,
    requires in_whole { I.is_broken input ≡ false }
    requires out_whole { O.is_broken out ≡ false }
    requires err_whole { E.is_broken err ≡ false }
{
    let commands = move || -> ExitCode
        requires { (I.is_broken input ≡ false) × (O.is_broken out ≡ false) × (E.is_broken err ≡ false) }
    {
        let (mut input, mut files) = (input, files);
        let mut console = Console::new(out, err);
        let code = flagops(rt, words, &mut input, &mut files, &mut console);
        watcher.end();
        code
    };
    spawned(rt, commands, watcher)
}

/// What a call gives on a stack of its own, where there is memory for one. The watcher follows it from this thread.
fn spawned<R, C, W>(rt: &R, commands: C, watcher: &W) -> Option<ExitCode>
where
    R: Threads + Wait,
    C: FnOnce() -> ExitCode + Send + Drop,
    W: Watcher,
    requires { C.pre commands }
{
    thread::scope(
        thread::scope_env(),
        rt,
        move |scope| -> Option<ExitCode>
            requires { C.pre commands }
        {
            match Builder::new()
                .stack_size(STACK_BYTES)
                .spawn_scoped(scope, commands)
            {
                Ok(thread) => {
                    watcher.follow();
                    Some(thread.join(rt))
                }
                Err(_) => None,
            }
        },
    )
}
