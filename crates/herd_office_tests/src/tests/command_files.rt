//! Command files: how far they are read.

use super::commands::founder;
use herd_command_file::{Commands, read_commands};
use herd_fixtures::ByteReader;
use herd_fixtures::Name::Bull;
use herd_register::Command;
use std::process::Abort;

const THREE_BIRTHS: &[u8] = b"kind,animal,day,sire,dam,from,to
birth,HOLGBRM000000000001,2000-01-01,0,0,,1
birth,HOLGBRM000000000001,2000-01-01,0,0,,1
birth,HOLGBRM000000000001,2000-01-01,0,0,,1
";

const FAULT_AND_BIRTH: &[u8] = b"kind,animal,day,sire,dam,from,to
sale,HOLGBRM000000000001,2001-01-01,,,,
birth,HOLGBRM000000000001,2000-01-01,0,0,,1
";

fn expect(rt: &impl Abort, answer: &Commands, births: &[Command], fault: Option<(u32, u8)>) {
    let told = answer
        .fault
        .map(|fault| (fault.record_number, fault.cause.number()));
    assert_eq!(rt; answer.list.as_slice(), births);
    assert_eq!(rt; told, fault);
}

// The reader gives a byte at a time, so the records that it still has weren't read: none after the first fault, and so
// at most the header, as many records as are wanted, and one more.
#[test]
fn no_record_is_read_after_a_fault(rt: HostRuntime) {
    let births = [founder(&rt, Bull(1)); 3];
    // a file, how many records are wanted, how many births there are, the fault, and how many records aren't read
    let files: [(&[u8], u32, usize, Option<(u32, u8)>, usize); 6] = [
        (THREE_BIRTHS, 0, 0, Some((1, 12)), 2),
        (THREE_BIRTHS, 1, 1, Some((2, 12)), 1),
        (THREE_BIRTHS, 2, 2, Some((3, 12)), 0),
        (THREE_BIRTHS, 3, 3, None, 0),
        (&THREE_BIRTHS[33..], 3, 0, Some((0, 1)), 2),
        (FAULT_AND_BIRTH, 3, 0, Some((1, 3)), 1),
    ];
    for (file, most, count, fault, unread) in files {
        let mut reader = ByteReader::new(file);
        let answer = read_commands(rt.alloc(), &mut reader, most);
        expect(&rt, &answer, &births[..count], fault);
        assert_eq!(rt; reader.records_left(), unread);
    }
}
