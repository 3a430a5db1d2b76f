// What a program reads into a buffer of its own: from an input, from a file, or a word that it was given. Each call answers how many
// bytes it put at the front of the buffer.
#![tactic(auto)]

ghost use Rattle.std.specs.Prelude.{◌≡◌, ◌<◌, length, take, slice_index, EachIndex, IfOk};
ghost use Rattle.std.specs.Io.{ReadsAtMost};
ghost use Rattle.std.specs.Io.KnownBytes.{Consumes, IsAtEnd};
ghost use Rattle.buffers.specs.Counts.{IsPrefixLen};

use std::env::{Env, FillError};
use std::io::Read;
use std::rt::Files;
use std::{fs, io, str};

// A buffer of N places, each 0. A call, since the proof computes with every place of an array that is written out.
pub fn zeroed<const N: usize>() -> [u8; N]
    ensures places { N ≡ length result }
    ensures zeros { EachIndex result (λ k. slice_index result k ≡ 0) }
{
    [0; N]
}

// Reads until the buffer is full or the input ends. Of an input whose bytes are known: the buffer has those that it had left, and where
// they do not fill the buffer, none is left. The place goes on by what each read gives, which no iterator of the library does.
pub fn read_full<R: Read>(from: &mut R, buffer: &mut [u8]) -> io::Result<usize>
    ensures bound { ReadsAtMost result buffer.new }
    ensures bytes { IfOk result (λ n. Consumes (R.remaining from.old) (R.remaining from.new) (take n buffer.new)) }
    ensures end { IfOk result (λ n. n < length buffer.new → IsAtEnd (R.remaining from.new)) }
{
    let mut done = 0;
    while done < buffer.len() {
        let n = from.read(&mut buffer[done..])?;
        if n == 0 {
            break;
        }
        done += n;
    }
    Ok(done)
}

// The bytes of a file, as many as fit, up to where it cannot be read any more; none where it cannot be read at all. Not
// `read_full`: what came before a failed read counts here.
pub fn read_file(rt: &impl Files, name: &[u8], buffer: &mut [u8]) -> usize
    ensures { IsPrefixLen result buffer.new }
{
    let Ok(path) = str::from_utf8(name) else {
        return 0;
    };
    let Ok(mut file) = fs::open(rt, path) else {
        return 0;
    };
    let mut size = 0;
    while size < buffer.len() {
        match file.read(&mut buffer[size..]) {
            Ok(n) if n > 0 => size += n,
            _ => break,
        }
    }
    size
}

// The word at this place of those that the program was given, its own name at 0; none where it is missing or does not fit.
// No `Result`: a word that is missing is an empty one for every caller.
pub fn word(rt: &impl Env, place: usize, buffer: &mut [u8]) -> usize
    ensures { IsPrefixLen result buffer.new }
{
    rt.arg(place, buffer).unwrap_or(0)
}

// How many words the program was given, with its own name.
pub fn word_count(rt: &impl Env) -> usize {
    (0..usize::MAX)
        .find(|place| matches!(rt.arg(*place, &mut []), Err(FillError::NotPresent)))
        .unwrap_or(usize::MAX)
}
