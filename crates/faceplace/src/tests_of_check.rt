//! Whole runs of `check` over a folder and a sink in memory.

use crate::fixtures::{
    APART, BLOCKED, CONTEST, COSTLY, Changes, EMPTY, HIGH, NARROW, NONE, ONE_PLACE, PLACED, SMALL,
    SMALL_CERT, Trial, UNCHANGED, run_in, run_line, with_changes,
};
use fp_base::{MemFolder, MemSink};
use std::alloc::Global;
use std::process::Abort;
use std::test::Fail;

/// A certificate of the small input with a narrow top die, of which the trial behind the seed names no settled dies.
const UNSETTLED_CERT: &str =
    "FaceplaceCert 1\nLimit 3\nTrials 2\nTrial 0 start\nTopSegments 1\nSegment 1 0\nCell 0 0 0 0 0\n\
BottomSegments 2\nSegment 1 0\nCell 1 0 0 0 0\nSegment 0 0\nTerminals 1\nCut 0 0 0\nScore 2\nTrial 1 norow 1\nTopCells 2\nCell 0\nCell 1\n\
Answer 0\n";

/// A certificate of the small input whose second trial has more cells on the top die than its percent allows.
const CROWDED_CERT: &str =
    "FaceplaceCert 1\nLimit 3\nTrials 2\nTrial 0 start\nTopSegments 2\nSegment 1 0\nCell 0 0 0 0 0\nSegment 0 0\n\
BottomSegments 2\nSegment 1 0\nCell 1 0 0 0 0\nSegment 0 0\nTerminals 1\nCut 0 0 0\nScore 2\nTrial 1 kept\nTopSegments 2\nSegment 2 0\n\
Cell 0 0 0 0 0\nCell 1 4 4 0 0\nSegment 0 0\nBottomSegments 2\nSegment 0 0\nSegment 0 0\nTerminals 0\nScore 4\nAnswer 0\n";

/// A certificate whose second trial cuts a net that its first does not.
const CUT_AGAIN_CERT: &str =
    "FaceplaceCert 1\nLimit 3\nTrials 2\nTrial 0 start\nTopSegments 2\nSegment 2 0\nCell 0 0 0 0 0\nCell 1 4 4 0 0\nSegment 0 0\n\
BottomSegments 2\nSegment 0 0\nSegment 0 0\nTerminals 0\nScore 4\nTrial 1 kept\nTopSegments 2\nSegment 1 0\nCell 0 0 0 0 0\n\
Segment 0 0\nBottomSegments 2\nSegment 1 0\nCell 1 0 0 0 0\nSegment 0 0\nTerminals 1\nCut 0 0 0\nScore 4\nAnswer 0\n";

/// A certificate whose second trial is its first again, though a settled move is left.
const REPEATED_CERT: &str =
    "FaceplaceCert 1\nLimit 3\nTrials 2\nTrial 0 start\nTopSegments 2\nSegment 1 0\nCell 0 0 0 0 0\nSegment 0 0\n\
BottomSegments 2\nSegment 1 0\nCell 1 0 0 0 0\nSegment 0 0\nTerminals 1\nCut 0 0 0\nScore 2\nTrial 1 kept\nTopSegments 2\nSegment 1 0\n\
Cell 0 0 0 0 0\nSegment 0 0\nBottomSegments 2\nSegment 1 0\nCell 1 0 0 0 0\nSegment 0 0\nTerminals 1\nCut 0 0 0\nScore 2\nAnswer 0\n";

/// The small input with no room on either die.
const FULL: Changes = [
    ("TopDieMaxUtil 10", "TopDieMaxUtil 0"),
    ("BottomDieMaxUtil 50", "BottomDieMaxUtil 0"),
    NONE,
    NONE,
    NONE,
];

/// The small input with room for both cells on its top die.
const WIDER: Changes = [
    ("TopDieMaxUtil 10", "TopDieMaxUtil 20"),
    NONE,
    NONE,
    NONE,
    NONE,
];

/// A check of what a folder holds ends with this status and report.
pub(crate) fn expect_found(
    rt: &impl Abort,
    alloc: Global,
    folder: &mut MemFolder,
    status: u8,
    report: &str,
) -> Result<(), Fail> {
    let mut out = MemSink::new(alloc, &[], 64)?;
    let found = run_in(alloc, "check a o c", folder, &mut out);
    assert!(rt; found.is_ok_and(|code| code == status), "{report}");
    assert!(rt; out.written() == report.as_bytes(), "{report}");
    drop(out);
    Ok(())
}

/// A check of these three files ends so.
fn expect_check(
    rt: &impl Abort,
    alloc: Global,
    input: &str,
    output: &str,
    cert: &str,
    status: u8,
    report: &str,
) -> Result<(), Fail> {
    let mut folder = MemFolder::new(alloc, &[], 3, 2048)?;
    let _ = folder.put_file("a", input.as_bytes());
    let _ = folder.put_file("o", output.as_bytes());
    let _ = folder.put_file("c", cert.as_bytes());
    let done = expect_found(rt, alloc, &mut folder, status, report);
    drop(folder);
    done
}

/// A check of the small input, with the lines of each file changed, ends so.
fn expect_small_check(
    rt: &impl Abort,
    alloc: Global,
    input: &Changes,
    output: (&str, &str),
    cert: &[(&str, &str)],
    status: u8,
    report: &str,
) -> Result<(), Fail> {
    let input = with_changes(alloc, SMALL, input.as_slice())?;
    let output = with_changes(alloc, PLACED, &[output])?;
    let cert = with_changes(alloc, SMALL_CERT, cert)?;
    let (input, output, cert) = (input.as_str(), output.as_str(), cert.as_str());
    expect_check(rt, alloc, input, output, cert, status, report)
}

#[test]
fn tells_the_first_condition_that_is_false(rt: HostRuntime) -> Result<(), Fail> {
    for (change, status, report) in [
        (NONE, 0, "yes\n"),
        (("Answer 0", "Answer 1"), 5, "no 2\n"),
        (("Trial 1 kept", "Trial 1 better"), 5, "no 2\n"),
        (("Cell 1 0 0 0 0", "Cell 0 0 0 0 0"), 5, "no 3\n"),
        (("Cell 0 0 0 0 0", "Cell 0 1 0 0 0"), 5, "no 4\n"),
        (("Cell 1 0 -1 -1 10", "Cell 1 0 0 -1 10"), 5, "no 8\n"),
        (("Cell 0 5 0 0 0", "Cell 0 4 0 0 0"), 5, "no 10\n"),
        (("Cell 0 5 0 0 0", "Cell 0 5 0 0 1"), 5, "no 11\n"),
        (("Cut 0 0 0", "Cut 0 0 5"), 5, "no 13\n"),
        (("Score 5", "Score 4"), 5, "no 14\n"),
    ] {
        expect_small_check(&rt, rt.alloc(), &UNCHANGED, NONE, &[change], status, report)?;
    }
    Ok(())
}

#[test]
fn tells_conditions_that_several_lines_break(rt: HostRuntime) -> Result<(), Fail> {
    let swapped = [
        ("Cell 1 0 -1 -1 10", "Cell 0 5 0 0 0"),
        ("Cell 0 5 0 0 0", "Cell 1 0 -1 -1 10"),
        NONE,
    ];
    let uncut = [("Terminals 1", "Terminals 0"), ("Cut 0 0 0", ""), NONE];
    let one_trial = [
        ("Limit 3", "Limit 1"),
        ("Trial 1 kept", "Trial 1 better"),
        ("Answer 0", "Answer 1"),
    ];
    for (input, cert, report) in [
        (FULL, [NONE, NONE, NONE], "no 1\n"),
        (UNCHANGED, swapped, "no 9\n"),
        (UNCHANGED, uncut, "no 12\n"),
        (UNCHANGED, one_trial, "no 15\n"),
        (COSTLY, [NONE, NONE, NONE], "no 14\n"),
    ] {
        expect_small_check(&rt, rt.alloc(), &input, NONE, cert.as_slice(), 5, report)?;
    }
    Ok(())
}

#[test]
fn a_drawing_of_other_places_is_not_the_answer(rt: HostRuntime) -> Result<(), Fail> {
    let moved = ("Inst C1 0 0", "Inst C1 1 0");
    expect_small_check(&rt, rt.alloc(), &UNCHANGED, moved, &[], 5, "no 16\n")
}

/// A certificate of the small input with a line changed is not in its grammar.
fn expect_cert_fault(
    rt: &impl Abort,
    alloc: Global,
    change: (&str, &str),
    report: &str,
) -> Result<(), Fail> {
    expect_small_check(rt, alloc, &UNCHANGED, NONE, &[change], 3, report)
}

#[test]
fn tells_the_first_fault_of_a_certificate(rt: HostRuntime) -> Result<(), Fail> {
    for (line, text, report) in [
        ("FaceplaceCert 1", "FaceplaceCert 3", "input c 14 range\n"),
        ("Limit 3", "Limit 0", "input c 22 range\n"),
        ("Trials 2", "Trials 1", "input c 31 range\n"),
        ("Trial 0 start", "Trial 1 start", "input c 39 range\n"),
        ("Trial 0 start", "Trial 0 first", "input c 41 word\n"),
        ("Cut 0 0 0", "Cut 0 36 0", "input c 174 range\n"),
        ("Answer 0", "Answer 9", "input c 339 range\n"),
        ("Answer 0", "", "input c 332 ended\n"),
        ("Answer 0", "Answer 0\nx", "input c 341 trailing\n"),
    ] {
        expect_cert_fault(&rt, rt.alloc(), (line, text), report)?;
    }
    Ok(())
}

#[test]
fn tells_the_first_fault_of_segments_and_cells(rt: HostRuntime) -> Result<(), Fail> {
    for (line, text, report) in [
        ("TopSegments 2", "TopSegments 3", "input c 59 range\n"),
        ("Segment 1 0", "Segment 262145 0", "input c 69 limit\n"),
        ("Segment 1 0", "Segment 3 0", "input c 88 word\n"),
        ("Cell 0 0 0 0 0", "Cell 2 0 0 0 0", "input c 78 range\n"),
        ("Cell 0 0 0 0 0", "Cell 0 -1 0 0 0", "input c 80 number\n"),
        (
            "Cell 0 0 0 0 0",
            "Cell 0 0 4294967297 0 0",
            "input c 82 number\n",
        ),
        (
            "Cell 0 0 0 0 0",
            "Cell 0 0 0 0 1152921504606846977",
            "input c 86 number\n",
        ),
    ] {
        expect_cert_fault(&rt, rt.alloc(), (line, text), report)?;
    }
    Ok(())
}

#[test]
fn an_empty_certificate_is_told(rt: HostRuntime) -> Result<(), Fail> {
    expect_check(&rt, rt.alloc(), SMALL, PLACED, "", 3, "input c 0 ended\n")
}

/// A certificate of an input with its lines changed, of which a condition is false.
fn expect_false(
    rt: &impl Abort,
    alloc: Global,
    changes: &Changes,
    cert: &str,
    report: &str,
) -> Result<(), Fail> {
    let input = with_changes(alloc, SMALL, changes.as_slice())?;
    expect_check(rt, alloc, input.as_str(), PLACED, cert, 5, report)
}

#[test]
fn a_trial_of_other_dies_is_told(rt: HostRuntime) -> Result<(), Fail> {
    for (changes, cert, report) in [
        (UNCHANGED, CROWDED_CERT, "no 5\n"),
        (WIDER, CUT_AGAIN_CERT, "no 6\n"),
        (UNCHANGED, REPEATED_CERT, "no 7\n"),
        (NARROW, UNSETTLED_CERT, "no 7\n"),
    ] {
        expect_false(&rt, rt.alloc(), &changes, cert, report)?;
    }
    Ok(())
}

/// What a placement of a text with its lines changed wrote is found to be right.
fn expect_right(rt: &impl Abort, alloc: Global, text: &str, changes: &Changes) -> Result<(), Fail> {
    let input = with_changes(alloc, text, changes.as_slice())?;
    let trial = Trial::new("place a o c", Some(input.as_str()), None);
    let mut end = run_line(alloc, &trial)?;
    let done = expect_found(rt, alloc, &mut end.folder, 0, "yes\n");
    drop(end);
    done
}

#[test]
fn what_was_placed_is_found_to_be_right(rt: HostRuntime) -> Result<(), Fail> {
    for (text, changes) in [
        (SMALL, UNCHANGED),
        (SMALL, COSTLY),
        (SMALL, BLOCKED),
        (SMALL, NARROW),
        (SMALL, ONE_PLACE),
        (EMPTY, UNCHANGED),
        (APART, UNCHANGED),
        (HIGH, UNCHANGED),
        (CONTEST, UNCHANGED),
    ] {
        expect_right(&rt, rt.alloc(), text, &changes)?;
    }
    Ok(())
}
