//! A reader that gives one byte a read, so what it still has, nobody has read ahead.
ghost use Rattle.std.specs.Prelude.{Some};

use std::io;
use std::io::Read;

#[derive(Drop)]
pub struct ByteReader<'a> {
    text: &'a [u8],
}

impl<'a> ByteReader<'a> {
    pub fn new(text: &'a [u8]) -> ByteReader<'a> {
        ByteReader { text }
    }

    /// The records that it hasn't given to their end.
    pub fn records_left(&self) -> usize {
        self.text.iter().filter(|byte| **byte == b'\n').count()
    }
}

impl Read for ByteReader<'_> {
    ghost remaining = { λ s. Some s.text.now };

    fn read(&mut self, buf: &mut [u8]) -> io::Result<usize> {
        let Some((first, rest)) = self.text.split_first() else {
            return Ok(0);
        };
        let Some(place) = buf.first_mut() else {
            return Ok(0);
        };
        *place = *first;
        self.text = rest;
        Ok(1)
    }
}
