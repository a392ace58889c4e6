// The lines of a text, the words of a line, and what a line says.
ghost use Rattle.std.specs.Prelude.{◌≡◌, ◌==◌, ◌+◌, ◌≤◌, length, position, IfSome};
ghost use Rattle.std.specs.Iterator.{at_most};
ghost use Rattle.std.specs.Option.{option_map, unwrap_or};
ghost use Rattle.turns.specs.Cuts.{Cut, lines_of, pieces, to_come};

use super::numbers::Number;
use std::alloc::{AllocError, Global};

// What stands between the bytes `cut` of a text, one piece more than there are such bytes. It is not the library's `Split`,
// since `lines` and `words` could not name the type of its closure.
#[derive(Drop)]
pub struct Pieces<'t> {
    rest: Option<&'t [u8]>,
    cut: u8,
}

impl<'t> Pieces<'t> {
    // Each line is ended by a newline, which the last may lack: so an empty text has none.
    pub fn lines(text: &'t [u8]) -> Pieces<'t>
        ensures { to_come result ≡ lines_of text.now }
    {
        let rest = match text {
            [] => None,
            [lines @ .., b'\n'] => Some(lines),
            _ => Some(text),
        };
        Pieces { rest, cut: b'\n' }
    }

    pub fn words(line: &'t [u8]) -> Pieces<'t>
        ensures { to_come result ≡ pieces 32 line.now }
    {
        Pieces {
            rest: Some(line),
            cut: b' ',
        }
    }
}

impl<'t> Iterator for Pieces<'t> {
    type Item = &'t [u8];

    ghost next_gives = { Cut };

    ghost remaining = { λ s. at_most (unwrap_or (option_map (λ t. length t.now + 1) s.rest) 0) };

    fn next(&mut self) -> Option<&'t [u8]> {
        let rest = self.rest.take()?;
        let Some(end) = place_of(self.cut, rest) else {
            return Some(rest);
        };
        self.rest = Some(&rest[end + 1..]);
        Some(&rest[..end])
    }
}

fn place_of(byte: u8, bytes: &[u8]) -> Option<usize>
    ensures { result ≡ position (λ b. b == byte) bytes.now }
{
    bytes.iter().position(|b| *b == byte)
}

// The most slices that a stretch may have.
const MAX_SLICES: u64 = 10_000_000_000;

#[derive(Drop)]
pub enum Line {
    Shares(Vec<u32>),
    Owed(Vec<i64>),
    Wants(Vec<u8>),
    Slices(u64),
}

impl Line {
    // What a line says, if it can be read.
    pub fn read(heap: Global, line: &[u8]) -> Result<Option<Line>, AllocError> {
        let mut words = Pieces::words(line);
        let line = match words.next() {
            Some(b"shares") => read_all(heap, words)?.map(Line::Shares),
            Some(b"owed") => read_all(heap, words)?.map(Line::Owed),
            Some(b"wants") => read_all(heap, words)?.map(Line::Wants),
            Some(b"slices") => count(words).map(Line::Slices),
            _ => None,
        };
        Ok(line)
    }
}

fn read_all<N: Number + Drop>(
    heap: Global,
    words: Pieces<'_>,
) -> Result<Option<Vec<N>>, AllocError> {
    let mut all = Vec::new(heap);
    for word in words {
        let Some(number) = N::read(word) else {
            return Ok(None);
        };
        all.push(number)?;
    }
    Ok(Some(all))
}

// The one number of a slices line.
fn count(mut words: Pieces<'_>) -> Option<u64>
    ensures { IfSome result (λ n. n ≤ 10000000000) }
{
    let number = <u64 as Number>::read(words.next()?)?;
    match words.next() {
        None if number <= MAX_SLICES => Some(number),
        _ => None,
    }
}
