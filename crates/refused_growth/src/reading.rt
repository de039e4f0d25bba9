//! A command file that is read.

use crate::founder::founder;
use herd_command_file::{Commands, read_commands};
use herd_fixtures::Name::Bull;
use herd_register::Command;
use std::alloc::{AllocError, Global};
use std::io;

// So many that their list grows several times.
const BIRTHS: u32 = 40;

/// Tells how many births a file has before its fault, and whether it has none.
pub fn tell(rt: &impl Print, alloc: Global) -> io::Result<bool> {
    let Ok(text) = file_of(alloc) else {
        println!(rt; "reading: no file")?;
        return Ok(false);
    };
    let Commands { list, fault } = read_commands(alloc, text.as_slice(), BIRTHS);
    let right = if are_founders(list.as_slice()) {
        "right"
    } else {
        "wrong"
    };
    let read = list.len();
    match fault {
        None => println!(rt; "reading: {read} births, {right}")?,
        Some(fault) => {
            let (record, cause) = (fault.record_number, fault.cause.number());
            println!(rt; "reading: {read} births, {right}, record {record}: fault {cause}")?;
        }
    }
    Ok(fault.is_none())
}

fn file_of(alloc: Global) -> Result<Vec<u8>, AllocError> {
    let mut text = Vec::new(alloc);
    text.extend_from_slice(b"kind,animal,day,sire,dam,from,to\n")?;
    for serial in 1..=BIRTHS {
        text.extend_from_slice(b"birth,")?;
        text.extend_from_slice(&Bull(serial).number().bytes())?;
        text.extend_from_slice(b",2000-01-01,0,0,,1\n")?;
    }
    Ok(text)
}

// Whether each command is the birth of the bull of its place.
fn are_founders(commands: &[Command]) -> bool {
    for (serial, command) in (1..=BIRTHS).zip(commands) {
        if founder(serial) != Ok(*command) {
            return false;
        }
    }
    true
}
