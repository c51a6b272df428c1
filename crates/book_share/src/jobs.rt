//! Many calls side by side.
ghost use Rattle.std.specs.Prelude.{◌≡◌, ◌<◌, IfOk, vec_len};
ghost use denote.Param.Send.{IsSync, IsSend, Frees};
ghost use Rattle.std.specs.Fork.{AcceptsJobs, GivesJobs};
ghost use Rattle.std.specs.Fork.Halves.{GivesFor};

use crate::fork::join;
use std::alloc::{AllocError, Allocator};
use std::marker::{Send, Sync};
use std::sync::Wait;
use std::thread::Threads;

/// Calls f(job) at each job, each in a thread of its own where one can be made, and gives the results in order. On `Err`, which
/// means that memory ran out, the results are dropped, and some jobs may have been dropped with no call.
pub fn map_vec<
    R: Threads + Wait + Sync,
    J: Send + Drop,
    X: Send + Drop,
    A: Allocator + Clone + Send + Drop,
    F: Fn(J) -> X + Sync,
>(rt: &R, jobs: Vec<J, A>, f: &F) -> Result<Vec<X, A>, AllocError>
    requires { AcceptsJobs F.Fn f.now jobs.items }
    ensures len { IfOk result (λ v. vec_len v ≡ vec_len jobs) }
    ensures each { IfOk result (λ v. GivesJobs F.Fn f.now jobs.items v.items) }
{
    run_jobs(rt, f, jobs)
}

/// The list is split in halves at each step and one half goes to a new thread, so the stack grows as the logarithm of its length.
#[cycle(jobs)]
fn run_jobs<
    R: Threads + Wait + Sync,
    J: Send + Drop,
    X: Send + Drop,
    A: Allocator + Clone + Send + Drop,
    F: Fn(J) -> X + Sync,
>(rt: &R, f: &F, mut low: Vec<J, A>) -> Result<Vec<X, A>, AllocError>
    requires { AcceptsJobs F.Fn f.now low.items }
    ensures { IfOk result (λ v. GivesFor F.Fn f.now low.items v.items) }
{
    if low.len() < 2 {
        return at_most_one(f, low);
    }
    let high = low.split_off(low.len() / 2)?;
    let front = move || -> Result<Vec<X, A>, AllocError>
        requires { IsSync R.row × IsSync F.row × IsSend J.row × IsSend X.row × IsSend A.row × Frees A.Allocator A.dealloc_token × AcceptsJobs F.Fn f.now low.items }
        ensures { IfOk result (λ v. GivesFor F.Fn f.entry.now low.items v.items) }
    { run_jobs(rt, f, low) };
    let back = move || -> Result<Vec<X, A>, AllocError>
        requires { IsSync R.row × IsSync F.row × IsSend J.row × IsSend X.row × IsSend A.row × Frees A.Allocator A.dealloc_token × AcceptsJobs F.Fn f.now high.items }
        ensures { IfOk result (λ v. GivesFor F.Fn f.entry.now high.items v.items) }
    { run_jobs(rt, f, high) };
    let (a, b) = join(rt, front, back);
    let mut all = a?;
    let mut rest = b?;
    all.append(&mut rest)?;
    Ok(all)
}

fn at_most_one<J: Drop, X: Drop, A: Allocator + Clone, F: Fn(J) -> X>(
    f: &F,
    mut jobs: Vec<J, A>,
) -> Result<Vec<X, A>, AllocError>
    requires short { vec_len jobs < 2 }
    requires accepts { AcceptsJobs F.Fn f.now jobs.items }
    ensures { IfOk result (λ v. GivesFor F.Fn f.now jobs.items v.items) }
{
    let mut done = Vec::new(jobs.allocator().clone()?);
    let Some(job) = jobs.pop() else {
        return Ok(done);
    };
    done.push(f(job))?;
    Ok(done)
}
