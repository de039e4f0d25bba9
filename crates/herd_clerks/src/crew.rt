//! Clerks who file side by side, each in a thread of its own.
ghost use Rattle.std.specs.Prelude.{◌≡◌, All, IfOk, map, vec_items};
ghost use Rattle.herd_clerks.specs.Deal.{HasBegun, HasDone, numbers_of};
ghost use Rattle.herd_clerks.specs.declared.deal.Deal.{Deal};

use crate::clerk::file_turn;
use crate::deal::Deal;
use crate::office_fault::OfficeFault;
use herd_office::{Desk, Office, OfficeName};
use std::alloc::Global;
use std::sync::Wait;
use std::thread;
use std::thread::{Promise, PromisedHandle, Scope, Threads};

/// What a clerk's thread is started for: at its end the desk of this number has filed all that falls to it. At desk 1
/// that includes the first commands, which are filed before the thread is started.
#[derive(Clone, Copy)]
pub struct DeskTask<'a> {
    pub number: u16,
    pub deal: Deal<'a>,
}

impl<'a, N: OfficeName> Promise<Result<Desk<N>, OfficeFault>> for DeskTask<'a> {
    ghost use Rattle.std.specs.Prelude.{◌≡◌, IfOk};
    ghost use Rattle.herd_clerks.specs.Deal.{HasDone};

    ghost kept_by = { λ task result. IfOk result
        (λ desk. (desk.number ≡ task.number) × HasDone task.deal desk) };
}

type Started<'a, N> = PromisedHandle<Result<Desk<N>, OfficeFault>, DeskTask<'a>>;

/// Files the rest of the commands at the desks, once the first ones are filed. When it returns, all threads have
/// ended.
pub fn file_in_turn<
    N: OfficeName + Send + Sync,
    H: Threads + Wait + Sync,
    R: Wait + Drop + Send + Sync,
>(
    rt: &H,
    alloc: Global,
    office: &Office<N, R>,
    desks: Vec<Desk<N>>,
    deal: Deal<'_>,
) -> Result<Vec<Desk<N>>, OfficeFault>
    requires first { All (HasBegun deal) desks.items }
    ensures numbers { IfOk result (λ done. numbers_of done.items ≡ numbers_of desks.items) }
    ensures filed { IfOk result (λ done. All (HasDone deal.entry) done.items) }
{
    thread::scope(
        thread::scope_env(),
        rt,
        |scope| -> Result<Vec<Desk<N>>, OfficeFault>
            requires { All (HasBegun deal) desks.items }
            ensures numbers { IfOk result (λ done. numbers_of done.items ≡ numbers_of desks.items) }
            ensures filed { IfOk result (λ done. All (HasDone deal.entry) done.items) }
        {
            let started = start_all(scope, rt, alloc, office, desks, deal)?;
            join_all(rt, alloc, started)
        },
    )
}

// Starts the thread of each desk's clerk, in their order.
fn start_all<'s, N: OfficeName + Send + Sync, E, H: Wait + Sync, R: Wait + Drop + Send + Sync>(
    scope: &'s Scope<'s, E>,
    rt: &'s H,
    alloc: Global,
    office: &'s Office<N, R>,
    desks: Vec<Desk<N>>,
    deal: Deal<'s>,
) -> Result<Vec<Started<'s, N>>, OfficeFault>
    requires { All (HasBegun deal) desks.items }
    ensures numbers { IfOk result
        (λ started. map (λ s. s.promise.number) (vec_items started) ≡ numbers_of desks.items) }
    ensures deals { IfOk result (λ started. All (λ s. s.promise.deal ≡ deal.entry) (vec_items started)) }
{
    let mut started = Vec::new(alloc);
    for desk in desks {
        let clerk = start(scope, rt, office, desk, deal)?;
        started.push(clerk)?;
    }
    Ok(started)
}

// Starts the thread of a desk's clerk.
fn start<'s, N: OfficeName + Send + Sync, E, H: Wait + Sync, R: Wait + Drop + Send + Sync>(
    scope: &'s Scope<'s, E>,
    rt: &'s H,
    office: &'s Office<N, R>,
    desk: Desk<N>,
    deal: Deal<'s>,
) -> Result<Started<'s, N>, OfficeFault>
    requires { HasBegun deal desk }
    ensures number { IfOk result (λ started. started.promise.number ≡ desk.number) }
    ensures deal { IfOk result (λ started. started.promise.deal ≡ deal.entry) }
{
    let task = DeskTask {
        number: desk.number(),
        deal,
    };
    let started = scope.spawn_with(
        task,
        move || -> Result<Desk<N>, OfficeFault>
            requires { HasBegun deal desk }
            ensures number { IfOk result (λ done. done.number ≡ desk.number) }
            ensures filed { IfOk result (λ done. HasDone deal.entry done) }
        { filed(rt, office, desk, deal) },
    );
    started.or(Err(OfficeFault::NoThread))
}

// A clerk's desk, once its turn is filed.
fn filed<N: OfficeName, H: Wait, R: Wait + Drop>(
    rt: &H,
    office: &Office<N, R>,
    mut desk: Desk<N>,
    deal: Deal<'_>,
) -> Result<Desk<N>, OfficeFault>
    requires { HasBegun deal desk }
    ensures number { IfOk result (λ done. done.number ≡ desk.number) }
    ensures filed { IfOk result (λ done. HasDone deal.entry done) }
{
    let turn = deal.turn(desk.number() - 1);
    file_turn(rt, office, &mut desk, turn)?;
    Ok(desk)
}

// Waits for the clerks one after the other, and gives their desks back in that order, or the first fault in it.
fn join_all<N: OfficeName, H: Threads>(
    rt: &H,
    alloc: Global,
    started: Vec<Started<'_, N>>,
) -> Result<Vec<Desk<N>>, OfficeFault>
    ensures numbers { IfOk result
        (λ done. numbers_of done.items ≡ map (λ s. s.promise.number) (vec_items started.entry)) }
    ensures filed { (deal : Deal) → All (λ s. s.promise.deal ≡ deal) (vec_items started.entry)
        → IfOk result (λ done. All (HasDone deal) done.items) }
{
    let mut done = Vec::new(alloc);
    for handle in started {
        done.push(handle.join(rt)?)?;
    }
    Ok(done)
}
