//! The program: what lines and arguments name, the printed texts, and a stream that fails where it is flushed.

use super::checks::{holds, is, reads};
use key_index::program::fault::ServeError;
use key_index::program::kind::kind_of;
use key_index::program::line::{parse, parse_ordered};
use key_index::program::serve::{serve, write_refusal};
use key_index_flat::index::Fault;
use std::alloc::{AllocError, Global};
use std::io::{self, Error, ErrorKind, Write};
use std::process::Abort;
use std::test::Fail;

/// The two texts of a row, with `=` between them.
fn fields<'a>(rt: &impl Abort, row: &'a str) -> (&'a str, &'a str) {
    let Some(fields) = row.split_once('=') else {
        panic!(rt; "{row:?} has two fields")
    };
    fields
}

/// Lines with the command and the key that they are read as, with `|` between them.
const LINES: &str = "\
    insert 0b02 1=Ok(Insert(1)) [11, 2]|insert - 7=Ok(Insert(7)) []|\
    insert 00 18446744073709551615=Ok(Insert(18446744073709551615)) [0]|\
    insert 0A 000000000000000000000018446744073709551615=Ok(Insert(18446744073709551615)) [10]|\
    insert aAbBcCdDeEfF 0=Ok(Insert(0)) [170, 187, 204, 221, 238, 255]|remove 0b77=Ok(Remove) [11, 119]|\
    get 0123456789=Ok(Get) [1, 35, 69, 103, 137]|get -=Ok(Get) []|\
    get 00112233445566778899AABBCCDDEEFF0f1e2d3c4b5a69788796a5b4c3d2e1f09A=Ok(Get) \
    [0, 17, 34, 51, 68, 85, 102, 119, 136, 153, 170, 187, 204, 221, 238, 255, \
    15, 30, 45, 60, 75, 90, 105, 120, 135, 150, 165, 180, 195, 210, 225, 240, 154]|\
    counts=Ok(Counts) []";

#[test]
fn lines_are_read(rt: HostRuntime) -> Result<(), Fail> {
    let mut key = Vec::new(rt.alloc());
    let mut count = 0u64;
    for row in LINES.split('|') {
        let (line, wanted) = fields(&rt, row);
        let command = parse(line.as_bytes(), &mut key);
        let told = format!(in rt.alloc(); "{command:?} {key:?}")?;
        reads(&rt, told.as_str(), wanted);
        count = count.saturating_add(1);
    }
    is(&rt, count, 10);
    Ok(())
}

/// Lines with the ordered command and the key that they are read as, with `|` between them.
const ORDERED_LINES: &str = "\
    next 0b02=Ok(Next) [11, 2]|prev -=Ok(Prev) []|first=Ok(First) []|last=Ok(Last) []|\
    insert 0b02 1=Ok(Common(Insert(1))) [11, 2]|counts=Ok(Common(Counts)) []";

#[test]
fn ordered_lines_are_read(rt: HostRuntime) -> Result<(), Fail> {
    let mut key = Vec::new(rt.alloc());
    let mut count = 0u64;
    for row in ORDERED_LINES.split('|') {
        let (line, wanted) = fields(&rt, row);
        let command = parse_ordered(line.as_bytes(), &mut key);
        let told = format!(in rt.alloc(); "{command:?} {key:?}")?;
        reads(&rt, told.as_str(), wanted);
        count = count.saturating_add(1);
    }
    is(&rt, count, 6);
    Ok(())
}

/// A fault is printed so, and ends with a status.
fn is_printed(
    rt: &impl Abort,
    alloc: Global,
    fault: ServeError,
    text: &str,
    status: u8,
) -> Result<(), AllocError> {
    reads(rt, fault.to_string(alloc)?.as_str(), text);
    holds(rt, fault.status() == status, text);
    Ok(())
}

#[test]
fn faults_are_printed(rt: HostRuntime) -> Result<(), Fail> {
    let alloc = rt.alloc();
    let usage = "usage: key_index KIND [THRESHOLD]";
    let last = "bad line 18446744073709551615";
    is_printed(&rt, alloc, ServeError::Usage, usage, 2)?;
    is_printed(&rt, alloc, ServeError::BadLine(1), "bad line 1", 1)?;
    is_printed(&rt, alloc, ServeError::BadLine(u64::MAX), last, 1)?;
    is_printed(&rt, alloc, ServeError::Failed, "failed", 1)?;
    Ok(())
}

/// Arguments with the kind that they name, with `|` between them, and `,` between the words of each.
const ARGUMENTS: &str = "\
    unordered=Some(Unordered)|ordered=Some(Ordered)|punordered=Some(PartitionedUnordered)|\
    immutable=Some(Immutable)|pordered=Some(PartitionedOrdered(512))|pordered,1=Some(PartitionedOrdered(1))|\
    pordered,512=Some(PartitionedOrdered(512))|pordered,0010=Some(PartitionedOrdered(10))|\
    pordered,18446744073709551615=Some(PartitionedOrdered(18446744073709551615))|pordered,0=None|\
    pordered,00=None|pordered,18446744073709551616=None|pordered,18446744073709551617=None|pordered,=None|\
    pordered,+2=None|pordered,-2=None|pordered,2 =None|pordered, 2=None|pordered,0x2=None|pordered,2.0=None|\
    pordered,٢=None|pordered,two=None|pordered,pordered=None|pordered,2,2=None|pordered,2,=None|\
    pordered 2=None|2,pordered=None|ordered,2=None|unordered,512=None|punordered,2=None|immutable,2=None|\
    unordered,ordered=None|512=None|Pordered=None";

/// Arguments name the kind that stands behind them.
fn is_read(rt: &impl Abort, alloc: Global, row: &str) -> Result<(), AllocError> {
    let (texts, wanted) = fields(rt, row);
    let mut words = Vec::new(alloc);
    for text in texts.split(',') {
        words.push(String::from_str(alloc, text)?)?;
    }
    let kind = kind_of(&words);
    let told = format!(in alloc; "{kind:?}")?;
    reads(rt, told.as_str(), wanted);
    Ok(())
}

#[test]
fn arguments_are_read(rt: HostRuntime) -> Result<(), Fail> {
    let mut count = 0u64;
    for row in ARGUMENTS.split('|') {
        is_read(&rt, rt.alloc(), row)?;
        count = count.saturating_add(1);
    }
    is(&rt, count, 34);
    holds(&rt, kind_of(&[]).is_none(), "no arguments");
    Ok(())
}

// A writer that takes every byte, and fails where it is flushed.
#[derive(Drop)]
struct UnflushedWriter {}

impl Write for UnflushedWriter {
    fn write(&mut self, buffer: &[u8]) -> io::Result<usize> {
        Ok(buffer.len())
    }

    fn flush(&mut self) -> io::Result<()> {
        Err(Error::from(ErrorKind::BrokenPipe))
    }
}

#[test]
fn failed_last_flush_is_told(rt: HostRuntime) -> Result<(), Fail> {
    let words = vec![in rt.alloc(); String::from_str(rt.alloc(), "unordered")?]?;
    let inputs: [&[u8]; 4] = [b"", b"counts\n", b"x\n", b"counts\nx\n"];
    for input in inputs {
        let mut faults = Vec::new(rt.alloc());
        let status = serve(rt.alloc(), &words, input, UnflushedWriter {}, &mut faults);
        holds(&rt, status == 1, "status 1");
        holds(
            &rt,
            faults.as_slice() == b"failed\n".as_slice(),
            "the fault is told",
        );
    }
    Ok(())
}

#[test]
fn refusals_are_printed(rt: HostRuntime) -> Result<(), Fail> {
    for (fault, line) in [
        (Fault::Memory, b"refused memory\n".as_slice()),
        (Fault::Full, b"refused full\n"),
    ] {
        let mut output = Vec::new(rt.alloc());
        write_refusal(fault, &mut output)?;
        holds(&rt, output.as_slice() == line, "a refusal");
    }
    Ok(())
}
