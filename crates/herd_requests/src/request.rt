//! What a record asks for, and of whom.
ghost use Rattle.std.specs.Prelude.{◌≡◌, IfNone, IfSome};
ghost use Rattle.csv.specs.Records.{fields_of};
ghost use Rattle.herd_requests.specs.Addressees.{IsRequestIn};
ghost use Rattle.herd_requests.specs.Requests.{IsNoNumber, IsNumberOf, command_in};

use crate::fault::Fault;
use crate::question::{Question, question_in};
use crate::tag::Tag;
use csv::ByteRecord;
use csv_records::field;
use herd_command_file::command_behind;
use herd_register::Command;
use itoa::Buffer;
use std::alloc::Global;

/// What a desk or an inspector is asked, or why it can't be read.
#[derive(Drop)]
pub struct Asked<T> {
    pub tag: Tag,
    pub wanted: Result<T, Fault>,
}

/// A request.
#[derive(Drop)]
pub enum Request {
    /// For the desk at a place, from 0.
    Desk(usize, Asked<Command>),
    /// For the inspector at a place, from 0.
    Inspector(usize, Asked<Question>),
    /// For nobody, and why; without a tag where that can't be read.
    Nobody(Option<Tag>, Fault),
}

/// The request in a record, with so many desks and inspectors.
pub fn request_in(alloc: Global, desks: usize, inspectors: usize, row: &ByteRecord) -> Request
    ensures { IsRequestIn desks inspectors (fields_of row.now) result }
{
    let Some(tag) = Tag::parse(field(row, 0)) else {
        return Request::Nobody(None, Fault::Tag);
    };
    let addressee = field(row, 1);
    if addressee == b"desk".as_slice() {
        let Some(place) = place_in(field(row, 2), desks) else {
            return Request::Nobody(Some(tag), Fault::NoDesk);
        };
        let wanted = command_in(row);
        Request::Desk(place, Asked { tag, wanted })
    } else if addressee == b"inspector".as_slice() {
        let Some(place) = place_in(field(row, 2), inspectors) else {
            return Request::Nobody(Some(tag), Fault::NoInspector);
        };
        let wanted = question_in(alloc, row);
        Request::Inspector(place, Asked { tag, wanted })
    } else {
        Request::Nobody(Some(tag), Fault::Addressee)
    }
}

// The command for a desk in a record.
fn command_in(row: &ByteRecord) -> Result<Command, Fault>
    ensures { result ≡ command_in (fields_of row.now) }
{
    match command_behind(3, row) {
        Ok(command) => Ok(command),
        Err(cause) => Err(Fault::Fields(cause)),
    }
}

// The place that a text numbers from 1 on, of so many.
fn place_in(text: &[u8], count: usize) -> Option<usize>
    ensures some { IfSome result (IsNumberOf text.now count) }
    ensures none { IfNone result (IsNoNumber text.now count) }
{
    for place in 0..count {
        if Buffer::new().format(place + 1).as_bytes() == text {
            return Some(place);
        }
    }
    None
}
