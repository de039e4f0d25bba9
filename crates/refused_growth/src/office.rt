//! An office in which births are filed.
ghost use Rattle.herd_office.specs.Parts.{AreNamed};

use crate::TIMES;
use crate::founder::founder;
use herd_office::{Desk, Inspector, Office, OfficeName, OfficeParts};
use herd_register::{Command, FileFault, Limits};
use std::alloc::Global;
use std::io;
use std::marker::Brand;
use std::sync::Wait;

/// Opens an office, files births in it, and tells each answer and what an inspector then sees, and whether it was
/// opened.
pub fn tell<R: Wait + Print>(rt: &R, alloc: Global) -> io::Result<bool> {
    let limits = Limits {
        animals: 10,
        steps: 10,
    };
    match OfficeParts::new(rt, alloc, limits, 1, 1) {
        Ok(parts) => tell_opened::<Brand, R>(rt, alloc, parts),
        Err(fault) => {
            println!(rt; "office: no parts: {fault}")?;
            Ok(false)
        }
    }
}

fn tell_opened<N: OfficeName, R: Wait + Print>(
    rt: &R,
    alloc: Global,
    parts: OfficeParts<&R>,
) -> io::Result<bool>
    requires { AreNamed N.OfficeName parts }
{
    let (office, mut desks, mut inspectors) = match Office::<N, &R>::open(alloc, parts) {
        Ok(opened) => opened,
        Err(fault) => {
            println!(rt; "office: not opened: {fault}")?;
            return Ok(false);
        }
    };
    let Some(mut desk) = desks.pop() else {
        return Ok(false);
    };
    let Some(mut inspector) = inspectors.pop() else {
        return Ok(false);
    };
    for serial in 1..=5_u32 {
        tell_filed(rt, alloc, &office, &mut desk, &mut inspector, serial)?;
    }
    Ok(true)
}

// Files a birth, and tells what an inspector sees after each call.
fn tell_filed<N: OfficeName, R: Wait + Print>(
    rt: &R,
    alloc: Global,
    office: &Office<N, &R>,
    desk: &mut Desk<N>,
    inspector: &mut Inspector<N>,
    serial: u32,
) -> io::Result<()> {
    for _ in 0..TIMES {
        let is_filed = tell_step(rt, office, desk, serial)?;
        tell_seen(rt, alloc, inspector)?;
        if is_filed {
            break;
        }
    }
    Ok(())
}

fn tell_step<N: OfficeName, R: Wait + Print>(
    rt: &R,
    office: &Office<N, &R>,
    desk: &mut Desk<N>,
    serial: u32,
) -> io::Result<bool> {
    let Ok(birth) = founder(serial) else {
        return Ok(false);
    };
    match filed_serial(rt, office, desk, birth) {
        Ok(filed) => {
            let answered = desk.answered();
            println!(rt; "office: step {filed} filed, {answered} by the desk")?;
            Ok(true)
        }
        Err(fault) => {
            println!(rt; "office: not filed: {fault}")?;
            Ok(false)
        }
    }
}

// The number of the step that the desk files.
fn filed_serial<N: OfficeName, R: Wait>(
    rt: &R,
    office: &Office<N, &R>,
    desk: &mut Desk<N>,
    birth: Command,
) -> Result<u32, FileFault> {
    desk.file(rt, office, birth).map(|filed| filed.serial)
}

fn tell_seen<N: OfficeName, R: Print>(
    rt: &R,
    alloc: Global,
    inspector: &mut Inspector<N>,
) -> io::Result<()> {
    for _ in 0..TIMES {
        match inspector.freeze(alloc).map(|frozen| frozen.len()) {
            Ok(animals) => {
                let steps = inspector.steps_seen();
                return println!(rt; "office: {animals} animals and {steps} steps seen");
            }
            Err(fault) => println!(rt; "office: not frozen: {fault}")?,
        }
    }
    Ok(())
}
