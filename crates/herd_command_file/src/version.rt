ghost use Rattle.std.specs.Prelude.{◌≡◌, length};
ghost use Rattle.csv.specs.Records.{fields_of};

use crate::columns::Columns;
use csv::ByteRecord;

/// The version of a command file, as its header tells it.
#[derive(Clone, Copy)]
pub(crate) enum Version {
    /// Seven columns, from `kind` to `to`. All births are ordinary.
    One,
    /// The same and `embryo`, which says whether a calf was born from a stored embryo.
    Two,
}

impl Version {
    ghost use Rattle.herd_command_file.specs.Grammar.{header, is_header, version_of};

    // The version of a file that begins with the record, where that is a header.
    #[tactic(auto, unfolding(crate::specs::Grammar::version_of))]
    pub(crate) fn of(row: &ByteRecord) -> Option<Version>
        ensures { result ≡ version_of (fields_of row.now) }
    {
        if Version::One.is_header(row) {
            Some(Version::One)
        } else if Version::Two.is_header(row) {
            Some(Version::Two)
        } else {
            None
        }
    }

    fn is_header(self, row: &ByteRecord) -> bool
        ensures { result ≡ is_header self (fields_of row.now) }
    {
        if row.len() != self.columns() {
            return false;
        }
        let columns = Columns::of(row);
        match self {
            Version::One => columns.are_names(),
            Version::Two => columns.are_names() && columns.embryo == b"embryo".as_slice(),
        }
    }

    // How many columns there are.
    pub(crate) fn columns(self) -> usize
        ensures { result ≡ length (header self) }
    {
        match self {
            Version::One => 7,
            Version::Two => 8,
        }
    }
}
