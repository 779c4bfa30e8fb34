//! Runs the workers of all jobs: a single worker on the calling thread, each of several workers in its own thread.

ghost use Rattle.std.specs.Prelude.{◌≡◌, Err, IfOk, IsTrue, false, map, Contains};
ghost use Rattle.std.specs.List.{AllByRecursion};
ghost use Rattle.covworkers.specs.Late.{chances_of};
ghost use Rattle.covworkers.specs.Shares.{share_of};
ghost use Rattle.covworkers.specs.Stops.{no_memory};
ghost use Rattle.covworkers.specs.Work.{HasEnded, HaveEnded, HaveEndedIfStarted, work_of};
ghost use Rattle.covlock.specs.Seat.{fresh_seat, first_seats};

use crate::gate::Gate;
use crate::late::LateInput;
use crate::readers::Readers;
use crate::shares::Placed;
use crate::stop::Stop;
use crate::worker::{Worker, work};
use covbook::{Entry, Keep, Receipt};
use covdata::Memory;
use covlock::{Name, Seats, Shared};
use covreport::Table;
use std::alloc::Global;
use std::marker::Model;
use std::snapshot::Snapshot;
use std::sync::Wait;
use std::thread;
use std::thread::{Promise, PromisedHandle, Threads};

/// A thread's promise about how its worker ends.
#[derive(Drop)]
struct WorkPromise<T: LateInput<Global>> {
    job: u32,
    jobs: u32,
    readers: Readers,
    inputs: Snapshot<Snapshot<Vec<T>>>,
}

impl<T: LateInput<Global>> Model for WorkPromise<T> {
    ghost use Rattle.covworkers.specs.Work.{WorkData};

    ghost Value = { WorkData T };

    ghost view = { λ a. record { inputs = a.inputs.value.value.items; jobs = a.jobs; job = a.job; readers = a.readers } };
}

impl<L: Name, T: LateInput<Global>, P: Keep<Of = Receipt>> Promise<
    Result<Worker<L, Global, P, T::Fault>, Stop>,
> for WorkPromise<T> {
    ghost kept_by = { λ p r. HasEnded (chances_of T.may_give T.may_fail) p r };
}

/// Runs a worker for each seat, with the seat's share of the inputs. Returns how each worker ended, in the seats' order. A single
/// worker runs on the calling thread; several run at the same time, each in its own thread.
pub(crate) fn do_all_work<
    R: Threads + Wait + Sync,
    G: Gate + Sync,
    L: Name + Send + Sync,
    T: LateInput<Global, Fault: Send> + Send,
    K: Keep<Of = Entry> + Send,
    P: Keep<Of = Receipt> + Send,
    S: Table<Global, Plan: Send, Renaming: Send> + Send,
>(
    rt: &R,
    alloc: Global,
    book: &Shared<L, Global, S, K>,
    gate: &G,
    seats: Seats<L>,
    jobs: u32,
    readers: Readers,
    inputs: &Snapshot<Vec<T>>,
    shares: Vec<Vec<Placed<T>>>,
) -> Result<Vec<Result<Worker<L, Global, P, T::Fault>, Stop>>, Memory>
    requires shares { map (λ share. share.items) shares.items ≡ map (λ seat. share_of inputs.now.value.items jobs seat.job) seats }
    requires fresh { AllByRecursion (λ seat. seat ≡ fresh_seat seat.job) seats }
    ensures { IfOk result (λ ended. HaveEndedIfStarted (chances_of T.may_give T.may_fail) (map (work_of inputs.now.value.items jobs readers) seats) ended.items) }
{
    if jobs == 1 {
        return work_in_turn(rt, alloc, book, gate, seats, jobs, readers, inputs, shares);
    }
    work_at_once(rt, alloc, book, gate, seats, jobs, readers, inputs, shares)
}

/// Runs a worker for each seat, one after another on the calling thread, with the seat's share of the inputs. Returns how each
/// worker ended, in the seats' order. A single job gets no thread of its own, because a thread's memory comes from an arena that
/// grows by many small system calls.
fn work_in_turn<
    R: Wait,
    G: Gate,
    L: Name,
    T: LateInput<Global>,
    K: Keep<Of = Entry>,
    P: Keep<Of = Receipt>,
    S: Table<Global>,
>(
    rt: &R,
    alloc: Global,
    book: &Shared<L, Global, S, K>,
    gate: &G,
    seats: Seats<L>,
    jobs: u32,
    readers: Readers,
    inputs: &Snapshot<Vec<T>>,
    shares: Vec<Vec<Placed<T>>>,
) -> Result<Vec<Result<Worker<L, Global, P, T::Fault>, Stop>>, Memory>
    requires shares { map (λ share. share.items) shares.items ≡ map (λ seat. share_of inputs.now.value.items jobs seat.job) seats }
    requires fresh { AllByRecursion (λ seat. seat ≡ fresh_seat seat.job) seats }
    ensures { IfOk result (λ ended. HaveEndedIfStarted (chances_of T.may_give T.may_fail) (map (work_of inputs.now.value.items jobs readers) seats) ended.items) }
{
    let seats = seats.into_vec();
    let mut shares = shares.into_iter();
    let mut ended = Vec::with_capacity(alloc, seats.len())?;
    for seat in seats {
        let share = match shares.next() {
            Some(share) => share,
            // Each seat has a share.
            None => unreachable!(),
        };
        ended.push(work(rt, alloc, book, gate, seat, jobs, readers, inputs, share))?;
    }
    Ok(ended)
}

/// Starts a thread with a worker for each seat, with the seat's share of the inputs. Waits until all workers have ended, and
/// returns how each worker ended, in the seats' order. After a worker that can't be started, starts no further one, and appends a
/// failed allocation to the result.
fn work_at_once<
    R: Threads + Wait + Sync,
    G: Gate + Sync,
    L: Name + Send + Sync,
    T: LateInput<Global, Fault: Send> + Send,
    K: Keep<Of = Entry> + Send,
    P: Keep<Of = Receipt> + Send,
    S: Table<Global, Plan: Send, Renaming: Send> + Send,
>(
    rt: &R,
    alloc: Global,
    book: &Shared<L, Global, S, K>,
    gate: &G,
    seats: Seats<L>,
    jobs: u32,
    readers: Readers,
    inputs: &Snapshot<Vec<T>>,
    shares: Vec<Vec<Placed<T>>>,
) -> Result<Vec<Result<Worker<L, Global, P, T::Fault>, Stop>>, Memory>
    requires shares { map (λ share. share.items) shares.items ≡ map (λ seat. share_of inputs.now.value.items jobs seat.job) seats }
    requires fresh { AllByRecursion (λ seat. seat ≡ fresh_seat seat.job) seats }
    ensures { IfOk result (λ ended. HaveEndedIfStarted (chances_of T.may_give T.may_fail) (map (work_of inputs.now.value.items jobs readers) seats) ended.items) }
{
    thread::scope(
        thread::scope_env(),
        rt,
        |scope| -> Result<Vec<Result<Worker<L, Global, P, T::Fault>, Stop>>, Memory>
            requires shares { map (λ share. share.items) shares.items ≡ map (λ seat. share_of inputs.now.value.items jobs seat.job) seats }
            requires fresh { AllByRecursion (λ seat. seat ≡ fresh_seat seat.job) seats }
            ensures { IfOk result (λ ended. HaveEndedIfStarted (chances_of T.may_give T.may_fail) (map (work_of inputs.entry.now.value.items jobs readers) seats) ended.items) }
        {
            let seats = seats.into_vec();
            let mut shares = shares.into_iter();
            let mut handles = Vec::with_capacity(alloc, seats.len())?;
            let mut all_started = true;
            for seat in seats {
                let share = match shares.next() {
                    Some(share) => share,
                    // Each seat has a share.
                    None => unreachable!(),
                };
                let promise = WorkPromise {
                    job: seat.job(),
                    jobs,
                    readers,
                    inputs: Snapshot::of(inputs),
                };
                if all_started {
                    match scope
                        .spawn_with(
                            promise,
                            move || -> Result<Worker<L, Global, P, T::Fault>, Stop>
                                requires share { share.items ≡ share_of inputs.now.value.items jobs seat.job }
                                requires fresh { seat ≡ fresh_seat seat.job }
                                ensures { HasEnded (chances_of T.may_give T.may_fail) (work_of inputs.entry.now.value.items jobs readers seat) result }
                            { work(rt, alloc, book, gate, seat, jobs, readers, inputs, share) },
                        )
                        .ok()
                    {
                        Some(handle) => handles.push(handle)?,
                        None => all_started = false,
                    }
                }
            }
            end_all(rt, alloc, handles, all_started)
        },
    )
}

/// Waits until all workers have ended, and returns how each worker ended. Appends a failed allocation unless `all_started`.
fn end_all<R: Threads, L: Name, T: LateInput<Global>, P: Keep<Of = Receipt>>(
    rt: &R,
    alloc: Global,
    handles: Vec<PromisedHandle<Result<Worker<L, Global, P, T::Fault>, Stop>, WorkPromise<T>>>,
    all_started: bool,
) -> Result<Vec<Result<Worker<L, Global, P, T::Fault>, Stop>>, Memory>
    ensures ended { IfOk result (λ ended. IsTrue all_started → HaveEnded (chances_of T.may_give T.may_fail) (map (λ h. h.promise) handles.items) ended.items) }
    ensures short { IfOk result (λ ended. all_started ≡ false → Contains ended.items (Err no_memory)) }
{
    let mut ended = join_all(rt, alloc, handles)?;
    if !all_started {
        ended.push(Err(Stop::from(Memory)))?;
    }
    Ok(ended)
}

/// Waits until all workers have ended, and returns how each worker ended.
fn join_all<R: Threads, L: Name, T: LateInput<Global>, P: Keep<Of = Receipt>>(
    rt: &R,
    alloc: Global,
    handles: Vec<PromisedHandle<Result<Worker<L, Global, P, T::Fault>, Stop>, WorkPromise<T>>>,
) -> Result<Vec<Result<Worker<L, Global, P, T::Fault>, Stop>>, Memory>
    ensures { IfOk result (λ ended. HaveEnded (chances_of T.may_give T.may_fail) (map (λ h. h.promise) handles.items) ended.items) }
{
    let mut ended = Vec::with_capacity(alloc, handles.len())?;
    for handle in handles {
        ended.push(handle.join(rt))?;
    }
    Ok(ended)
}
