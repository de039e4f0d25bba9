//! The texts of help and of the version: what each subcommand reads and writes, an example, and its statuses. No line
//! is longer than 80 columns.

/// The version of the program, the newest of `CHANGELOG.md`.
pub const VERSION: &str = "0.12.1";

/// The end of the help of the program: what all subcommands read, and the statuses.
pub const PROGRAM: &str = "\
All but `check`, `pedigree` and `session` read a command file from standard
input: a CSV file with the header kind,animal,day,sire,dam,from,to or the same
with embryo at its end. Begin with `file`: all others skip refused commands
without a word.

Example:
  herdbook file < book.csv

Status:
  0  done
  1  a record is faulty, an animal isn't in the book, or memory, a thread or a
     write was refused: standard error tells which
  2  the words aren't a command line, or one is no animal number or no seal
  3  a certificate is refused";

/// The end of the help of `file`.
pub const FILE: &str = "\
Reads a command file from standard input. Writes a line for each command, in
their order: SERIAL,accepted or SERIAL,refused,NUMBER with the first rule that
refuses it. A refused command changes nothing.

Example:
  herdbook file < book.csv

Status:
  0  each command has its reply, also where some are refused
  1  a record is faulty (the replies before it are written), or memory or a
     write was refused
  2  the words aren't a command line";

/// The end of the help of `inbreeding`.
pub const INBREEDING: &str = "\
Reads a command file from standard input. Writes a line for each animal, by
birth day and number: NUMBER,COEFFICIENT,PERCENT with a fraction in lowest terms
and a percentage of two digits, the same for all workers and blocks.

Example:
  herdbook inbreeding --workers 4 < book.csv

Status:
  0  the list is written
  1  a record is faulty (nothing is written), or memory, a thread or a write was
     refused
  2  the words aren't a command line";

/// The end of the help of `certificate`.
pub const CERTIFICATE: &str = "\
Reads a command file from standard input. Writes for each NUMBER, as they are
given, the animal's number, sex, birth day, herd, the day since which it is
there, the day on which it left, its coefficient, and fourteen ancestors: SD is
the sire's dam, 0 an unknown one.

Example:
  herdbook certificate HOLGBRM000000000001 < book.csv

Status:
  0  the certificates are written
  1  an animal isn't in the book or a record is faulty (nothing is written), or
     memory or a write was refused
  2  the words aren't a command line, or one is no animal number";

/// The end of the help of `mating`.
pub const MATING: &str = "\
Reads a command file from standard input. Writes a line for each sire, in the
order given: SIRE,COEFFICIENT,PERCENT or SIRE,refused,FAULT, where FAULT is 1 or
2 for a sire or a dam that isn't in the book, 3 or 4 for one of the wrong sex,
and 5 for a line of parents that would be too long.

Example:
  herdbook mating --dam HOLGBRF000000000002 HOLGBRM000000000001 < book.csv

Status:
  0  there is a line for each sire, also where matings are refused
  1  a record is faulty (nothing is written), or memory or a write was refused
  2  the words aren't a command line, or one is no animal number";

/// The end of the help of `inverse`.
pub const INVERSE: &str = "\
Reads a command file from standard input. Writes what each animal adds to the
inverse of the numerator relationship matrix: NUMBER,ROW,COLUMN,VALUE, each pair
once, with the later animal as the row. Add up by row and column, and mirror.

Example:
  herdbook inverse < book.csv

Status:
  0  the entries are written
  1  a record is faulty (nothing is written), or memory or a write was refused
  2  the words aren't a command line";

/// The end of the help of `relationships`.
pub const RELATIONSHIPS: &str = "\
Reads a command file from standard input. Writes a line for each pair of the
animals, one with itself too, or with `--with` for each of the first with each
of the others: NUMBER,NUMBER,VALUE with the entry of the numerator relationship
matrix as a fraction; twice the coefficient of a calf of the two. First comes
NUMBER,refused,1 for each number that isn't in the book.

Example:
  herdbook relationships HOLGBRM000000000001 HOLGBRF000000000002 < book.csv

Status:
  0  there is a line for each pair, also where numbers are refused
  1  a record is faulty (nothing is written), or memory or a write was refused
  2  the words aren't a command line, or one is no animal number";

/// The end of the help of `records`.
pub const RECORDS: &str = "\
Reads a command file from standard input. Writes a line for each NUMBER, as they
are given, or for each animal by birth day and number:
  ANIMAL,BIRTH,SIRE,DAM,HERD,SINCE,LEFT,EMBRYO
with 0 for an unknown parent, - where it hasn't left, and at the end 1 for a
calf from a stored embryo, else nothing.

Example:
  herdbook records HOLGBRM000000000001 < book.csv

Status:
  0  the records are written
  1  an animal isn't in the book or a record is faulty (nothing is written), or
     memory or a write was refused
  2  the words aren't a command line, or one is no animal number";

/// The end of the help of `seal`.
pub const SEAL: &str = "\
Reads a command file from standard input. Writes SEAL,STEPS,ANIMALS: a digest of
every record and of the number of commands, as 64 hexadecimal digits, and these
numbers. Publish the line: who has it can check certificates of `sealed`.

Example:
  herdbook seal < book.csv

Status:
  0  the seal is written
  1  a record is faulty (nothing is written), or memory or a write was refused
  2  the words aren't a command line";

/// The end of the help of `sealed`.
pub const SEALED: &str = "\
Reads a command file from standard input. Writes a certificate of the animal:
  herdbook-certificate-1,SEAL,STEPS,ANIMALS,PLACE,NUMBER,COEFFICIENT,PERCENT
then PLACE,SIREPLACE,DAMPLACE and the record, for it and each known ancestor, by
ascending places, and then the digests that stand for all other animals.

Example:
  herdbook sealed HOLGBRM000000000001 < book.csv

Status:
  0  the certificate is written
  1  the animal isn't in the book or a record is faulty (nothing is written), or
     memory or a write was refused
  2  the words aren't a command line, or NUMBER is no animal number";

/// The end of the help of `check`.
pub const CHECK: &str = "\
Reads a certificate of `sealed` from standard input, and checks it under SEAL.
Writes accepted,NUMBER,COEFFICIENT,PERCENT,STEPS,ANIMALS and then the record of
the animal and of each known ancestor, or refused,FAULT,LINE.

Example:
  herdbook check SEAL < certificate.txt

Status:
  0  the certificate is accepted
  1  memory or a write was refused
  2  the words aren't a command line, or SEAL isn't 64 hexadecimal digits
  3  the certificate is refused";

/// The end of the help of `pedigree`.
pub const PEDIGREE: &str = "\
Reads a pedigree from standard input: CSV with the header sire,dam, in which the
n-th record is animal n, and a parent is the number of an earlier record, or 0
or nothing. REPORT is one of
  inbreeding     [--workers N] [--block N] [--units]: a line for each animal,
                 ANIMAL,COEFFICIENT,PERCENT, or ANIMAL,UNITS
  inverse        what each animal adds to the inverse of the numerator
                 relationship matrix: ANIMAL,ROW,COLUMN,VALUE
  relationships  ANIMAL.. [--with ANIMAL..] [--units]: a line for each pair,
                 ANIMAL,ANIMAL,VALUE, or ANIMAL,ANIMAL,UNITS
One animal may be sire and dam, of others and of one. Units are whole.

Example:
  herdbook pedigree inbreeding < pedigree.csv

Status:
  0  the report is written
  1  a record is faulty or an animal isn't there (nothing is written), or
     memory, a thread or a write was refused
  2  the words aren't a command line, or don't belong to the report";

/// The end of the help of `clerks`. Its K and M stand for the numbers of `--desks` and `--base`.
pub const CLERKS: &str = "\
Reads a command file from standard input. The first M commands are filed at desk
1, the rest at K desks in turn, side by side. Writes how many commands each desk
filed, and then the steps, the animals, and the steps that a reader saw.

Example:
  herdbook clerks --desks 4 --base 1000 < book.csv

Status:
  0  the office is closed and its summary written
  1  a record is faulty, a reader found no place, or memory or a thread was
     refused (nothing is written), or a write was refused
  2  the words aren't a command line";

/// The end of the help of `session`. Its K and I stand for the numbers of `--desks` and `--inspectors`, its N for those
/// of the limits.
pub const SESSION: &str = "\
Reads requests from standard input, one a line, and answers each at once:
  TAG,desk,K,birth,ANIMAL,DAY,SIRE,DAM,,HERD,EMBRYO (and the other commands)
  TAG,inspector,J,inbreeding (or inverse, records, seal, seen, or with numbers
  behind commas certificate, coefficient, mating, record, relationships, sealed)
The answers are TAG,SERIAL,accepted or TAG,SERIAL,refused,NUMBER, a report's
lines behind TAG and then TAG,end,STEPS, or TAG,fault,NAME. A question sees each
command that was answered before it. The last line is closed,STEPS,ANIMALS.

Example:
  herdbook session --desks 2 --inspectors 1 < requests.csv

Status:
  0  all requests are answered and the office is closed
  1  the input, or memory or a thread at the start, or a write was refused, or a
     record had more than 1 MiB
  2  the words aren't a command line";
