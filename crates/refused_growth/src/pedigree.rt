//! A pedigree file that is read.

use herd_pedigree_file::read_lineage;
use std::alloc::{AllocError, Global};
use std::io;

// So many that their list grows several times.
const FOUNDERS: u32 = 40;

/// Tells how many animals a file of founders has, or its fault, and whether it was read.
pub fn tell(rt: &impl Print, alloc: Global) -> io::Result<bool> {
    let Ok(text) = file_of(alloc) else {
        println!(rt; "pedigree: no file")?;
        return Ok(false);
    };
    match read_lineage(alloc, text.as_slice(), FOUNDERS) {
        Ok(lineage) => {
            let animals = lineage.len();
            println!(rt; "pedigree: {animals} animals")?;
            Ok(true)
        }
        Err(fault) => {
            let (record, cause) = (fault.record_number, fault.cause.number());
            println!(rt; "pedigree: record {record}: fault {cause}")?;
            Ok(false)
        }
    }
}

fn file_of(alloc: Global) -> Result<Vec<u8>, AllocError> {
    let mut text = Vec::new(alloc);
    text.extend_from_slice(b"sire,dam\n")?;
    for _ in 0..FOUNDERS {
        text.extend_from_slice(b"0,0\n")?;
    }
    Ok(text)
}
