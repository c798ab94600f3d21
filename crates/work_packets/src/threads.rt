//! Jobs that run at the same time, each in a thread of its own.
//!
//! `run_plain_split` and `steal_pool` call `map_in_threads`, which promises what `thread::map_vec`
//! does. There the caller runs a job itself, and a thread that the system puts on its processor
//! begins when that job ends, though other processors are idle.

ghost use Rattle.std.specs.Prelude.{◌≡◌, IfOk, vec_len};
ghost use Rattle.std.specs.Fork.{AcceptsJobs, GivesJobs};
ghost use Rattle.std.specs.Thread.{IsSync, IsSend};

use std::alloc::AllocError;
use std::thread::{Threads, join, map_vec};

/// Calls `f` at each job, and gives the results in order. Several jobs run in threads of their own,
/// where one can be started, while the caller waits. One job alone is the caller's.
///
/// Fails if memory runs out; some jobs may not have run then.
pub fn map_in_threads<R: Threads + Sync, J: Send + Drop, X: Send + Drop, F: Fn(J) -> X + Sync>(
    rt: &R,
    jobs: Vec<J>,
    f: &F,
) -> Result<Vec<X>, AllocError>
    requires { AcceptsJobs F.Fn f.now jobs.items }
    ensures len { IfOk result (λ v. vec_len v ≡ vec_len jobs) }
    ensures each { IfOk result (λ v. GivesJobs F.Fn f.now jobs.items v.items) }
{
    if jobs.len() < 2 {
        return map_vec(rt, jobs, f);
    }
    start_each(rt, f, jobs)
}

/// Starts a thread for the last job, and goes on with those before it.
#[cycle(starts)]
fn start_each<R: Threads + Sync, J: Send + Drop, X: Send + Drop, F: Fn(J) -> X + Sync>(
    rt: &R,
    f: &F,
    mut jobs: Vec<J>,
) -> Result<Vec<X>, AllocError>
    requires { AcceptsJobs F.Fn f.now jobs.items }
    ensures len { IfOk result (λ v. vec_len v ≡ vec_len jobs) }
    ensures each { IfOk result (λ v. GivesJobs F.Fn f.now jobs.items v.items) }
{
    let count = jobs.len();
    if count == 0 {
        return Ok(Vec::new(*jobs.allocator()));
    }
    let last = jobs.split_off(count - 1)?;
    let job = move || -> Result<Vec<X>, AllocError>
        requires { IsSync R.row × IsSync F.row × IsSend J.row × IsSend X.row
            × AcceptsJobs F.Fn f.now last.items }
        ensures { IfOk result (λ v. (vec_len v ≡ vec_len last)
            × GivesJobs F.Fn f.entry.now last.items v.items) }
    { map_vec(rt, last, f) };
    let before = move || -> Result<Vec<X>, AllocError>
        requires { IsSync R.row × IsSync F.row × IsSend J.row × IsSend X.row
            × AcceptsJobs F.Fn f.now jobs.items }
        ensures { IfOk result (λ v. (vec_len v ≡ vec_len jobs)
            × GivesJobs F.Fn f.entry.now jobs.items v.items) }
    { start_each(rt, f, jobs) };
    let (b, a) = join(rt, job, before);
    let mut all = a?;
    let mut rest = b?;
    all.append(&mut rest)?;
    Ok(all)
}
