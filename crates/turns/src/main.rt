// The program: reads a text of guests and stretches, and prints whose turn each slice is.
#![tactic(auto)]

mod errors;
mod lines;
mod numbers;
mod runs;
#[cfg(test)]
mod tests;
mod texts;

use errors::Error;
use std::io::{BufWriter, Read};
use std::process::ExitCode;
use std::{env, fs, io};
use texts::Text;

const USAGE: &str = "usage: turns [FILE]

Reads a text from FILE, or from standard input, with a word and numbers on each line:

    shares 1 2 3    first: the share of each guest
    owed 0 0 0      second: what each is owed, which may be left out
    wants 1 1 0     then stretches: who wants to run, 1 for a guest that does, else 0,
    slices 3        and in how many slices

For each stretch it prints whose turn each slice is, and what each guest is owed after it:

    works 1 0 1
    owed 0 0 0

A text that is refused prints only why, with its number and its place, and ends with status 1.";

// What stops the program is said in one line of its own, so main answers a status and not the error.
fn main(rt: HostRuntime) -> Result<ExitCode, Error> {
    if let Err(error) = turns(&rt) {
        eprintln!(rt; "{error}")?;
        return Ok(ExitCode::FAILURE);
    }
    Ok(ExitCode::SUCCESS)
}

fn turns(rt: &HostRuntime) -> Result<(), Error> {
    let file = only_argument(rt)?;
    if file.as_deref() == Some("--help") {
        println!(rt; "{USAGE}")?;
        return Ok(());
    }
    let heap = rt.alloc();
    let text = read_text(rt, file).map_err(Error::Input)?;
    let run = Text::read(heap, &text)?.checked(heap)?;
    let mut out = BufWriter::new(heap, rt.stdout()).map_err(|_| Error::Memory)?;
    run.print(&mut out)
}

// The program takes one argument or none.
fn only_argument(rt: &HostRuntime) -> Result<Option<String>, Error> {
    let mut args = env::args(rt).map_err(Error::Input)?.skip(1);
    match (args.next(), args.next()) {
        (_, Some(_)) => Err(Error::TooManyFiles),
        (file, None) => Ok(file),
    }
}

// The file, or standard input where none is named.
fn read_text(rt: &HostRuntime, file: Option<String>) -> io::Result<Vec<u8>> {
    match file {
        Some(file) => fs::read(rt, file),
        None => {
            let mut text = Vec::new(rt.alloc());
            rt.stdin().read_to_end(&mut text)?;
            Ok(text)
        }
    }
}
