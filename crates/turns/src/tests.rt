// Texts that are refused, by which number and at which place.
use super::errors::Error;
use super::texts::Text;
use guests::{Fault, Refusal};
use std::alloc::Global;
use std::process::Abort;
use std::test::Fail;

fn refusal(heap: Global, text: &[u8]) -> Result<Option<Refusal>, Fail> {
    let run = Text::read(heap, text)?.checked(heap);
    Ok(run.err().and_then(|error| error.refusal()))
}

fn check_refused(
    rt: &(impl Abort + AllocGlobal),
    text: &[u8],
    number: u64,
    place: u64,
) -> Result<(), Fail> {
    assert_eq!(rt; refusal(rt.alloc(), text)?, Some(Refusal { number, place }));
    Ok(())
}

#[test]
fn shares_are_refused_first(rt: HostRuntime) -> Result<(), Fail> {
    check_refused(&rt, b"shares", 1, 0)?;
    check_refused(&rt, b"shares 1 1001 0\nwants 2", 1, 1)?;
    check_refused(&rt, b"what\nshares 1 999999999999999999999999999999", 1, 1)
}

#[test]
fn then_wants(rt: HostRuntime) -> Result<(), Fail> {
    check_refused(
        &rt,
        b"shares 1 2\nwants 1\nslices 1\nwants 2 2\nslices 1\n",
        2,
        1,
    )?;
    check_refused(
        &rt,
        b"shares 1 2\nowed 1 1\nwants 1 1\nslices 1\nwants 0 256",
        2,
        1,
    )
}

#[test]
fn then_what_is_owed(rt: HostRuntime) -> Result<(), Fail> {
    check_refused(&rt, b"shares 1 2\nowed 1", 3, 1)?;
    check_refused(&rt, b"shares 1 2\nowed 5 -6\n\n", 3, 1)?;
    check_refused(&rt, b"shares 1 2\nowed 5 -4\n", 3, 64)?;
    check_refused(&rt, b"shares 1\nowed -99999999999999999999", 3, 0)
}

#[test]
fn then_lines_that_cannot_be_read(rt: HostRuntime) -> Result<(), Fail> {
    check_refused(&rt, b"", 4, 0)?;
    check_refused(&rt, b"shares 01\nshares 1\nshares 1\n", 4, 0)?;
    check_refused(&rt, b"shares 1 1\nowed 0 -0\nwants 1  1\n", 4, 1)?;
    check_refused(
        &rt,
        b"shares 1\nwants 1\nslices 10000000001\nslices 1",
        4,
        2,
    )
}

#[test]
fn a_missing_line_is_one_past_the_last(rt: HostRuntime) -> Result<(), Fail> {
    check_refused(&rt, b"shares 1\nwants 1", 4, 2)?;
    check_refused(&rt, b"shares 1\nwants 1\nwants 1\nslices 1\n", 4, 2)
}

#[test]
fn what_stands_is_not_refused(rt: HostRuntime) -> Result<(), Fail> {
    let heap = rt.alloc();
    assert_eq!(rt; refusal(heap, b"shares 1")?, None);
    assert_eq!(rt;
        refusal(
            heap,
            b"shares 1 2\nowed 5 -5\nwants 0 1\nslices 10000000000",
        )?,
        None
    );
    Ok(())
}

// The amounts are within their limit of 16 before the first slice, and not before the second.
#[test]
fn what_passes_its_limit_on_the_way_is_refused(rt: HostRuntime) -> Result<(), Fail> {
    let heap = rt.alloc();
    let text = b"shares 1 1 1 1\nowed 15 15 -15 -15\nwants 1 1 0 0\nslices 2";
    let mut out = Vec::new(heap);
    let refusal = match Text::read(heap, text)?.checked(heap)?.print(&mut out) {
        Ok(()) => None,
        Err(error) => error.refusal(),
    };
    assert_eq!(rt;
        refusal,
        Some(Refusal {
            number: 3,
            place: 1,
        })
    );
    assert!(rt; out.is_empty());
    Ok(())
}

#[test]
fn what_is_said_of_a_refusal(rt: HostRuntime) -> Result<(), Fail> {
    let error = Error::Lists(Fault::OwedSumNotZero);
    let said = format!(in rt.alloc(); "{error}")?;
    assert_eq!(rt;
        said.as_str(),
        "refused 3 at 64: what is owed must add up to 0"
    );
    Ok(())
}
