// Stretches of slices on a host, run one after the other and printed.
use super::errors::Error;
use guests::{Fault, Plan};
use slices::stretch;
use std::io::Write;

// So many slices in which the same guests want to run.
#[derive(Drop)]
pub struct Stretch {
    pub wants: Vec<u8>,
    pub slices: u64,
}

#[derive(Drop)]
pub struct Run {
    pub shares: Vec<u32>,
    pub owed: Vec<i64>,
    pub stretches: Vec<Stretch>,
}

// So many slices are given before they are printed.
const AT_ONCE: u64 = 1024;

impl Run {
    pub fn print<W: Write>(self, out: &mut W) -> Result<(), Error> {
        self.rehearse()?;
        let Run {
            shares,
            mut owed,
            stretches,
        } = self;
        let mut plan = Plan {
            shares: &shares,
            owed: &mut owed,
        };
        for stretch in stretches.iter() {
            print_works(&mut plan, stretch, out)?;
            print_owed(&plan, out)?;
        }
        out.flush()?;
        Ok(())
    }

    // From amounts that no run from nothing leads to, what is owed can pass its limit on the way. Then the text is refused
    // before anything of it is printed.
    fn rehearse(&self) -> Result<(), Error> {
        let mut owed = self.owed.clone()?;
        if owed.iter().all(|amount| *amount == 0) {
            return Ok(());
        }
        let mut plan = Plan {
            shares: &self.shares,
            owed: &mut owed,
        };
        for stretch in self.stretches.iter() {
            stretch.rehearse(&mut plan)?;
        }
        Ok(())
    }
}

impl Stretch {
    // Slice by slice, since what is owed is checked once in a call.
    fn rehearse(&self, plan: &mut Plan) -> Result<(), Fault> {
        for _ in 0..self.slices {
            stretch(plan.shares, &self.wants, plan.owed, &mut [None])?;
        }
        Ok(())
    }
}

// Runs a stretch, and prints who works in each of its slices.
fn print_works<W: Write>(plan: &mut Plan, stretch: &Stretch, out: &mut W) -> Result<(), Error> {
    write!(out, "works")?;
    // A stretch of no slices needs no room for runners.
    if stretch.slices > 0 {
        print_slices(plan, stretch, out)?;
    }
    writeln!(out, "")?;
    Ok(())
}

fn print_slices<W: Write>(plan: &mut Plan, stretch: &Stretch, out: &mut W) -> Result<(), Error> {
    let mut runners = [None; AT_ONCE as usize];
    for _ in 0..stretch.slices / AT_ONCE {
        print_some(plan, &stretch.wants, &mut runners, out)?;
    }
    // A call for no slices would still check what is owed, and could refuse it.
    let rest = &mut runners[..(stretch.slices % AT_ONCE) as usize];
    if !rest.is_empty() {
        print_some(plan, &stretch.wants, rest, out)?;
    }
    Ok(())
}

// As many slices as there are places in `runners`.
fn print_some<W: Write>(
    plan: &mut Plan,
    wants: &[u8],
    runners: &mut [Option<u64>],
    out: &mut W,
) -> Result<(), Error> {
    stretch(plan.shares, wants, plan.owed, runners)?;
    for runner in runners.iter() {
        match runner {
            Some(guest) => write!(out, " {guest}")?,
            None => write!(out, " nobody")?,
        }
    }
    Ok(())
}

fn print_owed<W: Write>(plan: &Plan, out: &mut W) -> Result<(), Error> {
    write!(out, "owed")?;
    for amount in plan.owed.iter() {
        write!(out, " {amount}")?;
    }
    writeln!(out, "")?;
    Ok(())
}
