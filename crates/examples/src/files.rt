// The files of a case, by the letter of its group and its number: v007.sheet, v007.list, and v007.out with the expected text.
ghost use Rattle.buffers.specs.Counts.{IsPrefixLen};

use std::fmt::{self, InlineText};
use std::rt::Files;

#[derive(Clone, Copy)]
pub struct Case {
    pub group: char,
    pub number: usize,
}

impl fmt::Display for Case {
    fn fmt<W: fmt::Write>(&self, f: &mut fmt::Formatter<W>) -> fmt::Result {
        write!(f, "{}{:03}", self.group, self.number)
    }
}

impl Case {
    // The bytes of its file with this ending, as many as fit; none where it cannot be read.
    pub fn read(self, rt: &impl Files, ending: &str, into: &mut [u8]) -> usize
        ensures { IsPrefixLen result into.new }
    {
        let name = InlineText::<16>::of(self).and_str(ending, 6);
        buffers::read_file(rt, name.as_str().as_bytes(), into)
    }
}
