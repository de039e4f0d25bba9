//! What no clause says of a book: the numbers of days, texts that are shown, how far files are read, when memory is
//! taken and when it suffices, and what inspectors see.

mod animals;
mod command_files;
mod commands;
mod copies;
mod memory;
mod pedigrees;
mod readings;
mod registers;
