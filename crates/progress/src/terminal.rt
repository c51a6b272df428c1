//! The line of a terminal on which progress stands until the program writes there.
use crate::progress::Progress;
use std::alloc::{AllocError, Global};
use std::io::Write;
use std::sync::{Condvar, Mutex, Wait};
use std::time::{Clock, Duration};

/// The milliseconds that pass before the first line stands.
const PATIENCE: u64 = 1_000;

/// The milliseconds that a line stands before the next.
const TURN: u64 = 200;

/// To the front of the line; what is too long is cut at the end of it.
const BEFORE: &str = "\r\x1b[?7l";

/// The rest of the line is erased, and long texts go on in the next line again.
const BEHIND: &str = "\x1b[K\x1b[?7h";

/// To the front of the line, which is erased.
const ERASED: &str = "\r\x1b[K";

/// The line, and who may write it.
#[derive(Drop)]
struct State<W> {
    writer: W,
    stands: bool,
    is_over: bool,
}

/// The last line of a terminal.
#[derive(Drop)]
pub struct TerminalLine<W> {
    state: Mutex<State<W>>,
    over: Condvar,
}

impl<W: Write> State<W> {
    /// The text stands in the line, as far as the terminal takes it.
    fn show(&mut self, text: &str) {
        self.stands = true;
        let _ = self.writer.write_all(text.as_bytes());
    }

    fn erase(&mut self) {
        if self.stands {
            self.stands = false;
            let _ = self.writer.write_all(ERASED.as_bytes());
        }
    }
}

impl<W: Write> TerminalLine<W> {
    /// The line of the terminal that the writer writes to. Nothing ever stands there if nobody watches it.
    pub fn new(writer: W, is_watched: bool) -> TerminalLine<W> {
        TerminalLine {
            state: Mutex::new(State {
                writer,
                stands: false,
                is_over: !is_watched,
            }),
            over: Condvar::new(),
        }
    }

    /// Nothing stands there just now.
    pub fn erase<R: Wait>(&self, rt: &R) {
        self.state.lock(rt).erase();
    }

    /// Nothing stands there from now on.
    pub fn end<R: Wait>(&self, rt: &R) {
        let mut state = self.state.lock(rt);
        state.erase();
        state.is_over = true;
        drop(state);
        self.over.notify_all();
    }

    /// Tells there how far a command is, from a second on, and ends as soon as nothing is to stand there any more. `work` names
    /// what the command does beside reading and answering.
    pub fn follow<R: AllocGlobal + Wait + Clock>(&self, rt: &R, progress: &Progress, work: &str) {
        let mut left = PATIENCE;
        for _ in rt.forever() {
            let state = self.state.lock(rt);
            let time = Duration::from_millis(left);
            let (mut state, _) = self
                .over
                .wait_timeout_while(rt, state, time, |state| !state.is_over);
            if state.is_over {
                return;
            }
            if let Ok(text) = line_of(rt.alloc(), progress, work) {
                state.show(text.as_str());
            }
            left = TURN;
        }
    }
}

/// What is written where a line stands.
fn line_of(alloc: Global, progress: &Progress, work: &str) -> Result<String, AllocError> {
    let text = progress.line(alloc, work)?;
    format!(in alloc; "{BEFORE}{text}{BEHIND}")
}
