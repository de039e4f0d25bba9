//! The columns of a record, and the command that they give.
ghost use Rattle.std.specs.Prelude.{◌≡◌, IfErr, drop, false};
ghost use Rattle.csv.specs.Records.{fields_of};
ghost use Rattle.csv_records.specs.Fields.{field};
ghost use Rattle.herd_command_file.specs.Grammar.{texts_in, command_behind, command_of};
ghost use Rattle.herd_command_file.specs.LineCause.{is_interruption};

use crate::field::{animal, day, embryo, herd, parent, unused};
use crate::line_fault::LineCause;
use crate::version::Version;
use csv::ByteRecord;
use herd_register::Command;

#[derive(Clone, Copy)]
enum Kind {
    Birth,
    Parents,
    Transfer,
    Exit,
}

impl Kind {
    ghost use Rattle.herd_command_file.specs.Grammar.{kind_of};

    #[inline(always)]
    fn parse(text: &[u8]) -> Option<Kind>
        ensures { result ≡ kind_of text.now }
    {
        if text == b"birth".as_slice() {
            Some(Kind::Birth)
        } else if text == b"parents".as_slice() {
            Some(Kind::Parents)
        } else if text == b"transfer".as_slice() {
            Some(Kind::Transfer)
        } else if text == b"exit".as_slice() {
            Some(Kind::Exit)
        } else {
            None
        }
    }
}

/// The fields of a record. In version 1 the embryo column is empty.
#[derive(Clone, Copy)]
pub(crate) struct Columns<'a> {
    pub(crate) kind: &'a [u8],
    pub(crate) animal: &'a [u8],
    pub(crate) day: &'a [u8],
    pub(crate) sire: &'a [u8],
    pub(crate) dam: &'a [u8],
    pub(crate) from: &'a [u8],
    pub(crate) to: &'a [u8],
    pub(crate) embryo: &'a [u8],
}

impl<'a> Columns<'a> {
    ghost use Rattle.herd_command_file.specs.Columns.{are_names, texts_of};
    ghost use Rattle.herd_command_file.specs.Grammar.{command_in_columns, command_or_fault};
    ghost use Rattle.herd_command_file.specs.declared.columns.Kind.TheVariants as kind;

    /// The fields by their places, each empty where the record has fewer.
    pub(crate) fn of(row: &'a ByteRecord) -> Columns<'a>
        ensures { texts_of result ≡ texts_in (fields_of row.now) }
    {
        Columns::behind(row, 0)
    }

    // The same behind so many other fields.
    pub(crate) fn behind(row: &'a ByteRecord, others: u8) -> Columns<'a>
        ensures { texts_of result ≡ texts_in (drop others (fields_of row.now)) }
    {
        Columns {
            kind: column_behind(row, others, 0),
            animal: column_behind(row, others, 1),
            day: column_behind(row, others, 2),
            sire: column_behind(row, others, 3),
            dam: column_behind(row, others, 4),
            from: column_behind(row, others, 5),
            to: column_behind(row, others, 6),
            embryo: column_behind(row, others, 7),
        }
    }

    // None of the four is inlined: a command is written at once where it is wanted, and not moved in pieces.
    #[inline(never)]
    fn birth(&self) -> Result<Command, LineCause>
        ensures { result ≡ command_or_fault kind.Birth (texts_of self.now) }
    {
        let animal = animal(self.animal, LineCause::Animal)?;
        let day = day(self.day, LineCause::Day)?;
        let sire = parent(self.sire, LineCause::Sire)?;
        let dam = parent(self.dam, LineCause::Dam)?;
        unused(self.from)?;
        let herd = herd(self.to, LineCause::ToHerd)?;
        let embryo = embryo(self.embryo, LineCause::Embryo)?;
        Ok(Command::Birth {
            animal,
            day,
            sire,
            dam,
            herd,
            embryo,
        })
    }

    #[inline(never)]
    fn parents(&self) -> Result<Command, LineCause>
        ensures { result ≡ command_or_fault kind.Parents (texts_of self.now) }
    {
        let animal = animal(self.animal, LineCause::Animal)?;
        unused(self.day)?;
        let sire = parent(self.sire, LineCause::Sire)?;
        let dam = parent(self.dam, LineCause::Dam)?;
        unused(self.from)?;
        unused(self.to)?;
        unused(self.embryo)?;
        Ok(Command::Parents { animal, sire, dam })
    }

    #[inline(never)]
    fn transfer(&self) -> Result<Command, LineCause>
        ensures { result ≡ command_or_fault kind.Transfer (texts_of self.now) }
    {
        let animal = animal(self.animal, LineCause::Animal)?;
        let day = day(self.day, LineCause::Day)?;
        unused(self.sire)?;
        unused(self.dam)?;
        let giver = herd(self.from, LineCause::FromHerd)?;
        let taker = herd(self.to, LineCause::ToHerd)?;
        unused(self.embryo)?;
        Ok(Command::Transfer {
            animal,
            day,
            giver,
            taker,
        })
    }

    #[inline(never)]
    fn exit(&self) -> Result<Command, LineCause>
        ensures { result ≡ command_or_fault kind.Exit (texts_of self.now) }
    {
        let animal = animal(self.animal, LineCause::Animal)?;
        let day = day(self.day, LineCause::Day)?;
        unused(self.sire)?;
        unused(self.dam)?;
        unused(self.from)?;
        unused(self.to)?;
        unused(self.embryo)?;
        Ok(Command::Exit { animal, day })
    }

    /// The command, or the first fault.
    #[inline(always)]
    pub(crate) fn command(&self) -> Result<Command, LineCause>
        ensures { result ≡ command_in_columns (texts_of self.now) }
    {
        match Kind::parse(self.kind) {
            Some(Kind::Birth) => self.birth(),
            Some(Kind::Parents) => self.parents(),
            Some(Kind::Transfer) => self.transfer(),
            Some(Kind::Exit) => self.exit(),
            None => Err(LineCause::Kind),
        }
    }

    /// Whether these are the names of the columns, that of the embryo column apart.
    pub(crate) fn are_names(&self) -> bool
        ensures { result ≡ are_names (texts_of self.now) }
    {
        self.kind == b"kind".as_slice()
            && self.animal == b"animal".as_slice()
            && self.day == b"day".as_slice()
            && self.sire == b"sire".as_slice()
            && self.dam == b"dam".as_slice()
            && self.from == b"from".as_slice()
            && self.to == b"to".as_slice()
    }
}

/// The command of a record, or its fault. No such fault is an interruption.
#[inline(always)]
#[tactic(auto, unfolding(crate::specs::Grammar::command_of))]
pub(crate) fn parse_command(version: Version, row: &ByteRecord) -> Result<Command, LineCause>
    ensures command { result ≡ command_of version (fields_of row.now) }
    ensures known { IfErr result (λ cause. is_interruption cause ≡ false) }
{
    if row.len() != version.columns() {
        return Err(LineCause::Fields);
    }
    Columns::of(row).command()
}

/// The command in the fields of a record that stand behind so many others, as version 2 has them, or its fault. No such
/// fault is an interruption.
#[tactic(auto, unfolding(crate::specs::Grammar::command_of))]
pub fn command_behind(others: u8, row: &ByteRecord) -> Result<Command, LineCause>
    ensures command { result ≡ command_behind others (fields_of row.now) }
    ensures known { IfErr result (λ cause. is_interruption cause ≡ false) }
{
    if row.len() != usize::from(others) + Version::Two.columns() {
        return Err(LineCause::Fields);
    }
    Columns::behind(row, others).command()
}

// The field at a place behind so many others, and an empty one where the record has fewer.
fn column_behind(row: &ByteRecord, others: u8, place: u8) -> &[u8]
    ensures { result.now ≡ field place (drop others (fields_of row.now)) }
{
    csv_records::field(row, usize::from(others) + usize::from(place))
}
