//! Two calls side by side.
ghost use Rattle.std.specs.Prelude.{◌≡◌};

use core::thread::Stack;
use limits::STACK_BYTES;
use std::marker::Send;
use std::snapshot::Snapshot;
use std::sync::Wait;
use std::thread;
use std::thread::{Promise, Threads};

/// What a thread does.
trait Task<T> {
    /// That it may be done.
    ghost ready: { Self → Type 0 };

    /// That it gives a result.
    ghost gives: { Self → T → Type 0 };

    fn done(self) -> T
        requires { ready self }
        ensures { gives self result };
}

/// A call of a closure.
#[derive(Drop)]
struct Call<F>(F);

impl<T, F: FnOnce() -> T> Task<T> for Call<F> {
    ghost ready = { λ c. F.pre c.0 };

    ghost gives = { λ c r. F.post c.0 r };

    fn done(self) -> T {
        let Call(f) = self;
        f()
    }
}

/// That a result is one of the task.
#[derive(Drop)]
struct GivenBy<W>(Snapshot<W>);

impl<T, W: Task<T>> Promise<T> for GivenBy<W> {
    ghost kept_by = { λ p r. W.gives p.0.value r };
}

/// Calls f in a new thread, or last where none can be made, and g in this one.
pub fn join<R, F, G, A, B>(rt: &R, f: F, g: G) -> (A, B)
where
    R: Threads + Wait,
    F: FnOnce() -> A + Send + Drop,
    G: FnOnce() -> B + Drop,
    A: Send + Drop,
    requires { F.pre f × G.pre g }
    ensures first { F.post f result.0 }
    ensures second { G.post g result.1 }
{
    both(rt, Call(f), g)
}

fn both<R, W, G, A, B>(rt: &R, task: W, g: G) -> (A, B)
where
    R: Threads + Wait,
    W: Task<A> + Send + Drop,
    G: FnOnce() -> B + Drop,
    A: Send + Drop,
    requires { W.ready task × G.pre g }
    ensures first { W.gives task result.0 }
    ensures second { G.post g result.1 }
{
    thread::scope(
        thread::scope_env(),
        rt,
        move |scope| -> (A, B)
            requires { W.ready task × G.pre g }
            ensures { W.gives task result.0 × G.post g result.1 }
        {
            let promise = GivenBy(Snapshot::of(&task));
            let started = Stack::new().stack_size(STACK_BYTES).spawn_scoped_with(
                scope,
                promise,
                move || -> A
                    requires { W.ready task }
                    ensures { W.gives task result }
                { task.done() },
            );
            match started {
                Ok(thread) => {
                    let second = g();
                    (thread.join(rt), second)
                }
                Err(refused) => {
                    let second = g();
                    ((refused.value)(), second)
                }
            }
        },
    )
}
