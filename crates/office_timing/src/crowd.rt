//! Births at many desks beside inspectors, each on a thread of its own.

ghost use Rattle.std.specs.Prelude.{◌≡◌, IfOk};
ghost use Rattle.herd_office.specs.Parts.{AreNamed};

use crate::work::{Founders, Told, file_births, freeze_until, told_at_close};
use anyhow::Result;
use herd_office::{Desk, FreezeFault, Inspector, Office, OfficeName, OfficeParts};
use herd_register::FileFault;
use std::alloc::Global;
use std::sync::Wait;
use std::sync::atomic::{AtomicBool, Ordering};
use std::thread::{Threads, join, map_vec};

// A desk, and how many of its births were accepted.
type Filed<N> = Result<(Desk<N>, u64), FileFault>;

// An inspector, and how many books it froze.
type Froze<N> = Result<(Inspector<N>, u64), FreezeFault>;

/// Births in as many parts as there are desks, while all inspectors freeze, or none where `freezing` is false. Each was
/// answered.
pub fn file_crowded<N: OfficeName + Send + Sync, R: Threads + Wait + Sync>(
    rt: &R,
    alloc: Global,
    parts: OfficeParts<&R>,
    births: u32,
    freezing: bool,
) -> Result<Told>
    requires { AreNamed N.OfficeName parts }
    ensures { IfOk result (λ told. told.steps ≡ births) }
{
    let founders = Founders::new()?;
    let (office, desks, inspectors) = Office::<N, &R>::open(alloc, parts)?;
    let count = desks.len() as u64;
    let (shared, done) = (&office, &AtomicBool::new(!freezing));
    // Where no thread can be made, the second closure runs before the first.
    let (frozen, filed) = join(
        rt,
        move || map_vec(
            rt,
            inspectors,
            &|inspector| freeze_until(alloc, inspector, done),
        ),
        move || {
            let filed = map_vec(
                rt,
                desks,
                &|desk| file_part(rt, shared, desk, founders, (births, count)),
            );
            done.store(true, Ordering::SeqCst);
            filed
        },
    );
    let inspectors = all_froze(alloc, frozen?)?;
    let (desks, accepted) = all_filed(alloc, filed?)?;
    told_at_close(rt, office, desks, inspectors, u64::from(births), accepted)
}

// Files one of as many parts of the births as there are desks.
fn file_part<N: OfficeName, R: Wait>(
    rt: &R,
    office: &Office<N, &R>,
    desk: Desk<N>,
    founders: Founders,
    (births, desks): (u32, u64),
) -> Filed<N> {
    let (births, number, desks) = (u64::from(births), u64::from(desk.number()), desks.max(1));
    let places = (
        births * number.saturating_sub(1) / desks,
        births * number / desks,
    );
    file_births(rt, office, desk, founders, places)
}

// The desks, and how many of their births were accepted.
fn all_filed<N: OfficeName>(alloc: Global, filed: Vec<Filed<N>>) -> Result<(Vec<Desk<N>>, u64)> {
    let mut desks = Vec::new(alloc);
    let mut accepted = 0_u64;
    for one in filed {
        let (desk, more) = one?;
        desks.push(desk)?;
        accepted = accepted.saturating_add(more);
    }
    Ok((desks, accepted))
}

fn all_froze<N: OfficeName>(alloc: Global, frozen: Vec<Froze<N>>) -> Result<Vec<Inspector<N>>> {
    let mut inspectors = Vec::new(alloc);
    for one in frozen {
        let (inspector, _books) = one?;
        inspectors.push(inspector)?;
    }
    Ok(inspectors)
}
