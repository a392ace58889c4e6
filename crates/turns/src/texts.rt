// The text as a value, what it is refused by, and what is left to run of one that stands.
ghost use Rattle.guests.specs.Faults.{Checks};
ghost use Rattle.std.specs.Prelude.{◌≡◌, IfOk, Some, vec_items};
ghost use Rattle.std.specs.Option.{IfNone, OnSome, option_map, unwrap_or};
ghost use Rattle.turns.specs.Order.{Keeps, SameLists, after, at_end, with_line};
ghost use Rattle.turns.specs.Checking.{Checked, lists_fault, owed_given, stretches_fault};

use super::errors::Error;
use super::lines::{Line, Pieces};
use super::runs::{Run, Stretch};
use guests::{Fault, Totals};
use std::alloc::{AllocError, Global};

// The lines that could be read, and the place of the first that couldn't.
#[derive(Drop)]
pub struct Text {
    shares: Option<Vec<u32>>,
    owed: Option<Vec<i64>>,
    stretches: Vec<Stretch>,
    unreadable: Option<usize>,
}

// The line that has its place next.
#[derive(Clone, Copy)]
enum Next {
    Shares,
    OwedOrWants,
    Wants,
    Slices,
}

impl Next {
    // What may come after a line, where the line may come next.
    fn after(self, line: &Line) -> Option<Next>
        ensures { result ≡ after self line.now }
    {
        match (self, line) {
            (Next::Shares, Line::Shares(_)) => Some(Next::OwedOrWants),
            (Next::OwedOrWants, Line::Owed(_)) => Some(Next::Wants),
            (Next::OwedOrWants | Next::Wants, Line::Wants(_)) => Some(Next::Slices),
            (Next::Slices, Line::Slices(_)) => Some(Next::Wants),
            _ => None,
        }
    }
}

// Reads a text line by line.
#[derive(Drop)]
struct Reader {
    heap: Global,
    text: Text,
    next: Next,
}

impl Reader {
    fn new(heap: Global) -> Reader {
        Reader {
            heap,
            text: Text {
                shares: None,
                owed: None,
                stretches: Vec::new(heap),
                unreadable: None,
            },
            next: Next::Shares,
        }
    }

    fn read(&mut self, place: usize, line: &[u8]) -> Result<(), AllocError> {
        match Line::read(self.heap, line)? {
            Some(line) => self.take(place, line)?,
            None => self.text.pass_over(place),
        }
        Ok(())
    }

    // Takes a line that stands in its place, and passes over any other.
    fn take(&mut self, place: usize, line: Line) -> Result<(), AllocError>
        ensures next { IfOk result (λ _. self.new.next ≡ unwrap_or (after self.old.next line) self.old.next) }
        ensures unreadable { IfOk result (λ _. self.new.text.unreadable ≡ with_line (after self.old.next line) place self.old.text.unreadable) }
        ensures taken { IfOk result (λ _. OnSome (after self.old.next line) (Keeps self.old.text line self.new.text)) }
        ensures passed_over { IfNone (after self.old.next line) (SameLists self.old.text self.new.text) }
    {
        match self.next.after(&line) {
            Some(next) => {
                self.text.keep(line)?;
                self.next = next;
            }
            None => self.text.pass_over(place),
        }
        Ok(())
    }

    // After so many lines the text may lack its shares, or the slices of its last stretch.
    fn end(self, lines: usize) -> Text
        ensures unreadable { result.unreadable ≡ at_end self.next lines self.text.unreadable }
        ensures same { SameLists self.text result }
    {
        let Reader { mut text, next, .. } = self;
        if matches!(next, Next::Shares | Next::Slices) {
            text.pass_over(lines);
        }
        text
    }
}

impl Text {
    pub fn read(heap: Global, bytes: &[u8]) -> Result<Text, AllocError> {
        let mut reader = Reader::new(heap);
        for (place, line) in Pieces::lines(bytes).enumerate() {
            reader.read(place, line)?;
        }
        Ok(reader.end(Pieces::lines(bytes).count()))
    }

    fn keep(&mut self, line: Line) -> Result<(), AllocError>
        ensures unreadable { self.new.unreadable ≡ self.old.unreadable }
        ensures keeps { IfOk result (λ _. Keeps self.old line self.new) }
    {
        match line {
            Line::Shares(shares) => self.shares = Some(shares),
            Line::Owed(owed) => self.owed = Some(owed),
            // Its slices are counted by the next line.
            Line::Wants(wants) => self.stretches.push(Stretch { wants, slices: 0 })?,
            Line::Slices(slices) => {
                if let Some(stretch) = self.stretches.last_mut() {
                    stretch.slices = slices;
                }
            }
        }
        Ok(())
    }

    // Of the lines that can't be read the first is kept.
    fn pass_over(&mut self, place: usize)
        ensures first { self.new.unreadable ≡ Some (unwrap_or self.old.unreadable place) }
        ensures same { SameLists self.old self.new }
    {
        if self.unreadable.is_none() {
            self.unreadable = Some(place);
        }
    }

    // What the text asks to run, where nothing in it is refused.
    pub fn checked(self, heap: Global) -> Result<Run, Error>
        ensures { Checked self result }
    {
        let Text {
            shares,
            owed,
            stretches,
            unreadable,
        } = self;
        let Some(shares) = shares else {
            return Err(Error::Line(unreadable.unwrap_or(0)));
        };
        let owed = owed_or_nothing(heap, owed, shares.len())?;
        let run = Run {
            shares,
            owed,
            stretches,
        };
        check_lists(&run)?;
        match unreadable {
            Some(place) => Err(Error::Line(place)),
            None => Ok(run),
        }
    }
}

// What each guest is owed as the text begins: nothing, where there is no owed line.
fn owed_or_nothing(
    heap: Global,
    owed: Option<Vec<i64>>,
    guests: usize,
) -> Result<Vec<i64>, AllocError>
    ensures { IfOk result (λ v. v.items ≡ owed_given guests (option_map vec_items owed)) }
{
    match owed {
        Some(owed) => Ok(owed),
        None => vec![in heap; 0; guests],
    }
}

fn check_lists(run: &Run) -> Result<(), Fault>
    ensures { Checks (lists_fault run.now.shares.items run.now.stretches.items run.now.owed.items) (λ _. Unit {0}) result }
{
    let totals = Totals::of(&run.shares)?;
    check_stretches(totals, &run.stretches)?;
    totals.check_owed(&run.owed)
}

fn check_stretches(totals: Totals, stretches: &[Stretch]) -> Result<(), Fault>
    ensures { Checks (stretches_fault totals.guests stretches.now) (λ _. Unit {0}) result }
{
    for stretch in stretches {
        totals.runnable(&stretch.wants)?;
    }
    Ok(())
}
