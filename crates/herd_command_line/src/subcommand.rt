//! The subcommands.

/// A subcommand.
#[derive(Clone, Copy)]
pub enum Subcommand {
    File,
    Inbreeding,
    Certificate,
    Mating,
    Inverse,
    Relationships,
    Records,
    Seal,
    Sealed,
    Check,
    Pedigree,
    Clerks,
    Session,
}

impl Subcommand {
    ghost use Rattle.std.specs.Prelude.{◌≡◌};
    ghost use Rattle.herd_command_line.specs.Subcommand.{subcommand_named};

    /// The subcommand of a name. `clap` takes no other names than theirs; any other is as `file`.
    pub fn named(name: &str) -> Subcommand
        ensures { result ≡ subcommand_named name.now }
    {
        let name = name.as_bytes();
        if name == b"inbreeding".as_slice() {
            Subcommand::Inbreeding
        } else if name == b"certificate".as_slice() {
            Subcommand::Certificate
        } else if name == b"mating".as_slice() {
            Subcommand::Mating
        } else if name == b"inverse".as_slice() {
            Subcommand::Inverse
        } else if name == b"relationships".as_slice() {
            Subcommand::Relationships
        } else if name == b"records".as_slice() {
            Subcommand::Records
        } else if name == b"seal".as_slice() {
            Subcommand::Seal
        } else if name == b"sealed".as_slice() {
            Subcommand::Sealed
        } else if name == b"check".as_slice() {
            Subcommand::Check
        } else if name == b"pedigree".as_slice() {
            Subcommand::Pedigree
        } else if name == b"clerks".as_slice() {
            Subcommand::Clerks
        } else if name == b"session".as_slice() {
            Subcommand::Session
        } else {
            Subcommand::File
        }
    }
}
