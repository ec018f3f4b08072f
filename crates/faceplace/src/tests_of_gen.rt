//! Whole runs of `gen` and `demo` over a folder and a sink in memory.

use crate::fixtures::run_in;
use crate::tests_of_check::expect_found;
use fp_base::{MemFolder, MemSink};
use std::alloc::Global;
use std::process::Abort;
use std::test::Fail;

/// The bytes that each file of a folder has room for.
const ROOM: usize = 1 << 22;

/// The end of the text of 42 with one cell.
const LAST_LINES: &str =
    "TerminalSpacing 1\nNumInstances 1\nInst C0 L7\nNumNets 1\nNet N0 2\nPin C0/P3\nPin C0/P1\n";

/// A run over a folder ends with this status and report.
fn expect_run_in(
    rt: &impl Abort,
    alloc: Global,
    line: &str,
    folder: &mut MemFolder,
    status: u8,
    report: &str,
) -> Result<(), Fail> {
    let mut out = MemSink::new(alloc, &[], 256)?;
    let found = run_in(alloc, line, folder, &mut out);
    assert!(rt; found.is_ok_and(|code| code == status), "{line}");
    assert!(rt; out.written() == report.as_bytes(), "{line}");
    drop(out);
    Ok(())
}

/// An input that is written has so many bytes, and ends with these lines.
fn expect_input(
    rt: &impl Abort,
    alloc: Global,
    line: &str,
    report: &str,
    bytes: usize,
) -> Result<(), Fail> {
    let mut folder = MemFolder::new(alloc, &[], 1, 2048)?;
    let done = expect_run_in(rt, alloc, line, &mut folder, 0, report);
    let written = folder.file("a").unwrap_or(b"");
    assert!(rt; written.len() == bytes, "{line}");
    assert!(rt; written.ends_with(LAST_LINES.as_bytes()), "{line}");
    drop(folder);
    done
}

#[test]
fn writes_the_input_of_a_number(rt: HostRuntime) -> Result<(), Fail> {
    for (line, report, bytes) in [
        ("gen 42 1 a", "bytes 1274\n", 1274),
        ("gen 042 1 a 80", "bytes 1274\n", 1274),
        ("gen 42 1 a 2", "bytes 1273\n", 1273),
    ] {
        expect_input(&rt, rt.alloc(), line, report, bytes)?;
    }
    Ok(())
}

/// A placement of an input that is made ends with this report, and its output begins so.
fn expect_demo(
    rt: &impl Abort,
    alloc: Global,
    line: &str,
    report: &str,
    head: &str,
) -> Result<(), Fail> {
    let mut folder = MemFolder::new(alloc, &[], 2, 4096)?;
    let done = expect_run_in(rt, alloc, line, &mut folder, 0, report);
    let written = folder.file("o").unwrap_or(b"");
    assert!(rt; written.starts_with(head.as_bytes()), "{line}");
    drop(folder);
    done
}

#[test]
fn places_an_input_of_one_cell(rt: HostRuntime) -> Result<(), Fail> {
    for (line, report, head) in [
        (
            "demo 42 1 o c",
            "cells 1 nets 1 bytes 1274\nseed 12\ntrial 0 start 12\ntrial 1 kept 12\nscore 12\n",
            "TopDiePlacement 1\n",
        ),
        (
            "demo 42 1 o c 2",
            "cells 1 nets 1 bytes 1273\nseed 12\ntrial 0 start 12\ntrial 1 kept 12\nscore 12\n",
            "TopDiePlacement 0\nBottomDiePlacement 1\n",
        ),
    ] {
        expect_demo(&rt, rt.alloc(), line, report, head)?;
    }
    Ok(())
}

/// Words that ask for nothing.
fn expect_no_request(rt: &impl Abort, alloc: Global, line: &str) -> Result<(), Fail> {
    let mut folder = MemFolder::new(alloc, &[], 2, 64)?;
    let done = expect_run_in(rt, alloc, line, &mut folder, 2, "words\n");
    drop(folder);
    done
}

#[test]
fn other_numbers_are_no_request(rt: HostRuntime) -> Result<(), Fail> {
    for line in [
        "gen 42 1",
        "gen 42 0 a",
        "gen 42 100001 a",
        "gen 1073741825 1 a",
        "gen 42 1 a 81",
        "gen 42 1 a 80 b",
        "demo 42 1 o",
        "demo 42 1 o o",
        "demo 42 1 o c 81",
        "demo 42 1 o c -1",
        "demo 42 1 o c 80 b",
    ] {
        expect_no_request(&rt, rt.alloc(), line)?;
    }
    Ok(())
}

/// Two runs over folders of their own print the same report, which begins so, and write the same files.
fn expect_twice(
    rt: &impl Abort,
    alloc: Global,
    line: &str,
    head: &str,
    first: &mut MemFolder,
    second: &mut MemFolder,
) -> Result<(), Fail> {
    let mut one = MemSink::new(alloc, &[], 512)?;
    let mut other = MemSink::new(alloc, &[], 512)?;
    let status = run_in(alloc, line, first, &mut one);
    assert!(rt; status.is_ok_and(|code| code == 0), "{line}");
    let status = run_in(alloc, line, second, &mut other);
    assert!(rt; status.is_ok_and(|code| code == 0), "{line}");
    assert!(rt; one.written().starts_with(head.as_bytes()), "{line}");
    assert!(rt; one.written() == other.written(), "{line}");
    assert!(rt; first.file("o") == second.file("o"), "{line}");
    assert!(rt; first.file("c") == second.file("c"), "{line}");
    drop(one);
    drop(other);
    Ok(())
}

/// Two runs over new folders do the same.
fn expect_same(rt: &impl Abort, alloc: Global, line: &str, head: &str) -> Result<(), Fail> {
    let mut first = MemFolder::new(alloc, &[], 2, ROOM)?;
    let mut second = MemFolder::new(alloc, &[], 2, ROOM)?;
    let done = expect_twice(rt, alloc, line, head, &mut first, &mut second);
    drop(first);
    drop(second);
    done
}

#[test]
fn the_same_words_do_the_same(rt: HostRuntime) -> Result<(), Fail> {
    for (line, head) in [
        ("demo 7 400 o c", "cells 400 nets 400 bytes "),
        ("demo 7 400 o c 10", "cells 400 nets 400 bytes "),
        ("demo 7 5000 o c 10", "cells 5000 nets 5000 bytes "),
    ] {
        expect_same(&rt, rt.alloc(), line, head)?;
    }
    Ok(())
}

/// Runs a command line over a folder to its end.
fn expect_done(
    rt: &impl Abort,
    alloc: Global,
    line: &str,
    folder: &mut MemFolder,
) -> Result<(), Fail> {
    let mut out = MemSink::new(alloc, &[], 512)?;
    let found = run_in(alloc, line, folder, &mut out);
    assert!(rt; found.is_ok_and(|code| code == 0), "{line}");
    drop(out);
    Ok(())
}

/// The three commands one after the other.
fn expect_checked(rt: &impl Abort, alloc: Global, folder: &mut MemFolder) -> Result<(), Fail> {
    expect_done(rt, alloc, "demo 7 400 o c 10", folder)?;
    expect_done(rt, alloc, "gen 7 400 a 10", folder)?;
    expect_found(rt, alloc, folder, 0, "yes\n")
}

#[test]
fn what_a_demo_places_is_found_to_be_right(rt: HostRuntime) -> Result<(), Fail> {
    let mut folder = MemFolder::new(rt.alloc(), &[], 3, ROOM)?;
    let done = expect_checked(&rt, rt.alloc(), &mut folder);
    drop(folder);
    done
}
