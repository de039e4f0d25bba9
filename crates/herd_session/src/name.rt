//! The name of a session, which tells what was there before it began.
use herd_office::OfficeName;
use std::marker::Brand;

/// Which session it is: which office, and where they are known the records to be read, and what the writer held before.
pub(crate) trait SessionName: OfficeName {
    ghost use Rattle.std.specs.Prelude.{List, Option, ℕ};
    ghost use Rattle.csv_records.specs.Fields.{Fields};

    ghost records: { Option (List Fields) };

    ghost before: { Option (List ℕ) };
}

impl SessionName for Brand {
    ghost use Rattle.std.specs.Prelude.{None};

    ghost records = { None };

    ghost before = { None };
}
