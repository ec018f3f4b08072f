//! Whole runs over devices that fail or give little: each call of the folder and of the sink fails once, alone.

use crate::fixtures::{Ended, PLACED, SMALL, SMALL_CERT, Trial, run_line};
use fp_base::MemFolder;
use std::alloc::Global;
use std::process::Abort;
use std::test::Fail;

/// What a file that is written holds before.
const OLD: &str = "old\n";

/// Whether bytes are there, and are a front of others.
fn is_front(found: Option<&[u8]>, whole: Option<&[u8]>) -> bool {
    match (found, whole) {
        (Some(front), Some(all)) => all.starts_with(front),
        _ => false,
    }
}

/// Whether a file holds what it held before.
fn is_kept(found: &MemFolder, name: &str, before: Option<&str>) -> bool {
    found.file(name) == before.map(str::as_bytes)
}

/// Whether the files are as before.
fn are_kept(found: &MemFolder, trial: &Trial<'_>) -> bool {
    is_kept(found, "a", trial.input)
        && is_kept(found, "o", trial.output)
        && is_kept(found, "c", trial.cert)
}

/// Whether the files are as a run leaves them that ends early: each is as before or a front of what the whole run leaves, and one that is not
/// as before stands behind whole ones alone.
fn are_left_early(found: &MemFolder, trial: &Trial<'_>, whole: &MemFolder) -> bool {
    let mut are_whole = true;
    for (name, before) in [("a", trial.input), ("o", trial.output), ("c", trial.cert)] {
        let is_begun = are_whole && is_front(found.file(name), whole.file(name));
        if !is_begun && !is_kept(found, name, before) {
            return false;
        }
        are_whole = are_whole && found.file(name) == whole.file(name);
    }
    true
}

/// A run in which one call of the folder fails ends with 6 and prints nothing. Its files are as before where the call is none that writes, and
/// else as a run leaves them that ends early.
fn expect_failed_call(
    rt: &impl Abort,
    alloc: Global,
    trial: &Trial<'_>,
    whole: &MemFolder,
    reads: u64,
    call: u64,
) -> Result<(), Fail> {
    let mut failing = *trial;
    failing.failing_call = Some(call);
    let end = run_line(alloc, &failing)?;
    assert!(rt; end.status == 6, "{call}");
    assert!(rt; end.out.calls() == 0, "{call}");
    assert!(rt; call >= reads || are_kept(&end.folder, trial), "{call}");
    assert!(rt; are_left_early(&end.folder, trial, whole), "{call}");
    drop(end);
    Ok(())
}

/// Each call of the folder fails once, alone.
fn expect_failed_calls(
    rt: &impl Abort,
    alloc: Global,
    trial: &Trial<'_>,
    whole: &MemFolder,
    reads: u64,
) -> Result<(), Fail> {
    for call in 0..whole.calls() {
        expect_failed_call(rt, alloc, trial, whole, reads, call)?;
    }
    Ok(())
}

/// A run in which one put fails ends with 6. What it printed is a front of the whole report, and its files are whole.
fn expect_failed_put(
    rt: &impl Abort,
    alloc: Global,
    trial: &Trial<'_>,
    whole: &Ended,
    put: u64,
) -> Result<(), Fail> {
    let mut failing = *trial;
    failing.failing_put = Some(put);
    let end = run_line(alloc, &failing)?;
    assert!(rt; end.status == 6, "{put}");
    assert!(rt; whole.out.written().starts_with(end.out.written()), "{put}");
    for name in ["a", "o", "c"] {
        assert!(rt; end.folder.file(name) == whole.folder.file(name), "{name}");
    }
    drop(end);
    Ok(())
}

/// Each put fails once, alone.
fn expect_failed_puts(
    rt: &impl Abort,
    alloc: Global,
    trial: &Trial<'_>,
    whole: &Ended,
) -> Result<(), Fail> {
    for put in 0..whole.out.calls() {
        expect_failed_put(rt, alloc, trial, whole, put)?;
    }
    Ok(())
}

/// A run with one byte a read ends as the whole run.
fn expect_same_in_pieces(
    rt: &impl Abort,
    alloc: Global,
    trial: &Trial<'_>,
    whole: &Ended,
) -> Result<(), Fail> {
    let mut pieces = *trial;
    pieces.piece = 1;
    let end = run_line(alloc, &pieces)?;
    assert!(rt; end.status == 0, "{}", trial.line);
    assert!(rt; end.out.written() == whole.out.written(), "{}", trial.line);
    for name in ["a", "o", "c"] {
        assert!(rt; end.folder.file(name) == whole.folder.file(name), "{name}");
    }
    drop(end);
    Ok(())
}

/// What a whole run does where a call fails, and where each read gives one byte.
fn expect_failures(
    rt: &impl Abort,
    alloc: Global,
    trial: &Trial<'_>,
    reads: u64,
    whole: &Ended,
) -> Result<(), Fail> {
    assert!(rt; whole.status == 0, "{}", trial.line);
    assert!(rt; whole.out.calls() > 0, "{}", trial.line);
    expect_failed_calls(rt, alloc, trial, &whole.folder, reads)?;
    expect_failed_puts(rt, alloc, trial, whole)?;
    expect_same_in_pieces(rt, alloc, trial, whole)
}

/// A run over these files, whose first calls of the folder, so many, are reads.
fn expect_told(
    rt: &impl Abort,
    alloc: Global,
    line: &str,
    files: [Option<&str>; 3],
    reads: u64,
) -> Result<(), Fail> {
    let mut trial = Trial::new(line, files[0], files[1]);
    trial.cert = files[2];
    let whole = run_line(alloc, &trial)?;
    let done = expect_failures(rt, alloc, &trial, reads, &whole);
    drop(whole);
    done
}

#[test]
fn each_call_that_fails_is_told_and_leaves_what_was_done_before(
    rt: HostRuntime,
) -> Result<(), Fail> {
    let old = Some(OLD);
    let placed = [Some(SMALL), Some(PLACED), Some(SMALL_CERT)];
    for (line, files, reads) in [
        ("seed a o", [Some(SMALL), old, None], 2),
        ("score a o", placed, 4),
        ("place a o c", [Some(SMALL), old, old], 2),
        ("check a o c", placed, 6),
        ("gen 42 1 a", [old, old, old], 0),
        ("demo 42 1 o c", [old, old, old], 0),
    ] {
        expect_told(&rt, rt.alloc(), line, files, reads)?;
    }
    Ok(())
}
