//! Whole runs of `place` over a folder and a sink in memory.

use crate::fixtures::{
    APART, BLOCKED, CONTEST, COSTLY, Changes, EMPTY, LOOSE, NARROW, ONE_PLACE, PLACED, SMALL,
    Trial, UNCHANGED, run_line, with_changes,
};
use std::alloc::Global;
use std::process::Abort;
use std::test::Fail;

/// The report of the small input's placement.
const PLACED_REPORT: &str = "seed 2\ntrial 0 start 2\ntrial 1 kept 5\nscore 2\n";

/// A placement is done, with this report and this output, and its certificate begins and ends so.
fn expect_placed(
    rt: &impl Abort,
    alloc: Global,
    trial: &Trial<'_>,
    report: &str,
    output: &str,
    cert: (&str, &str),
) -> Result<(), Fail> {
    let end = run_line(alloc, trial)?;
    assert!(rt; end.status == 0, "{report}");
    assert!(rt; end.out.written() == report.as_bytes(), "{report}");
    assert!(rt; end.folder.file("o") == Some(output.as_bytes()), "{report}");
    let written = end.folder.file("c").unwrap_or(b"");
    assert!(rt; written.starts_with(cert.0.as_bytes()), "{report}");
    assert!(rt; written.ends_with(cert.1.as_bytes()), "{report}");
    drop(end);
    Ok(())
}

/// A placement of a text with its lines changed.
fn expect_place(
    rt: &impl Abort,
    alloc: Global,
    text: &str,
    changes: &Changes,
    report: &str,
    output: &str,
    cert: (&str, &str),
) -> Result<(), Fail> {
    let input = with_changes(alloc, text, changes.as_slice())?;
    let trial = Trial::new("place a o c", Some(input.as_str()), None);
    let done = expect_placed(rt, alloc, &trial, report, output, cert);
    drop(input);
    done
}

#[test]
fn places_the_small_input(rt: HostRuntime) -> Result<(), Fail> {
    let head = "FaceplaceCert 1\nLimit 3\nTrials 2\n";
    for line in ["place a o c", "place a o c 03"] {
        let trial = Trial::new(line, Some(SMALL), None);
        expect_placed(
            &rt,
            rt.alloc(),
            &trial,
            PLACED_REPORT,
            PLACED,
            (head, "Answer 0\n"),
        )?;
    }
    Ok(())
}

#[test]
fn places_no_worse_than_the_seed(rt: HostRuntime) -> Result<(), Fail> {
    let head = "FaceplaceCert 1\nLimit 3\nTrials 2\n";
    for (text, changes, report, output, tail) in [
        (
            EMPTY,
            UNCHANGED,
            "seed 0\ntrial 0 start 0\ntrial 1 kept 0\nscore 0\n",
            "TopDiePlacement 0\nBottomDiePlacement 0\nNumTerminals 0\n",
            "Answer 0\n",
        ),
        (LOOSE, UNCHANGED, PLACED_REPORT, PLACED, "Answer 0\n"),
        (SMALL, NARROW, PLACED_REPORT, PLACED, "Answer 0\n"),
        (
            SMALL,
            ONE_PLACE,
            "seed 2\ntrial 0 start 2\ntrial 1 norow C2\nscore 2\n",
            PLACED,
            "Trial 1 norow 1\nTopCells 0\nAnswer 0\n",
        ),
    ] {
        let cert = (head, tail);
        expect_place(&rt, rt.alloc(), text, &changes, report, output, cert)?;
    }
    Ok(())
}

#[test]
fn places_better_than_the_seed(rt: HostRuntime) -> Result<(), Fail> {
    for (text, changes, report, output, head) in [
        (
            APART,
            UNCHANGED,
            "seed 40\ntrial 0 start 40\ntrial 1 better 20\ntrial 2 kept 20\nscore 20\n",
            "TopDiePlacement 5\nInst X1 20 0\nInst X2 0 0\nInst F 30 0\nInst G 40 0\nInst Y 10 0\nBottomDiePlacement 0\nNumTerminals 0\n",
            "FaceplaceCert 1\nLimit 3\nTrials 3\n",
        ),
        (
            SMALL,
            COSTLY,
            "seed 9\ntrial 0 start 9\ntrial 1 better 5\ntrial 2 kept 5\nscore 5\n",
            "TopDiePlacement 0\nBottomDiePlacement 2\nInst C1 5 0\nInst C2 0 0\nNumTerminals 0\n",
            "FaceplaceCert 2\nCost 7\nLimit 3\n",
        ),
        (
            SMALL,
            BLOCKED,
            "seed 8\ntrial 0 start 8\ntrial 1 better 5\ntrial 2 kept 5\nscore 5\n",
            "TopDiePlacement 0\nBottomDiePlacement 2\nInst C1 11 0\nInst C2 6 0\nNumTerminals 0\n",
            "FaceplaceCert 1\nLimit 3\n",
        ),
    ] {
        let cert = (head, "Answer 1\n");
        expect_place(&rt, rt.alloc(), text, &changes, report, output, cert)?;
    }
    Ok(())
}

/// The score on the last line of a report.
fn last_score(report: &[u8]) -> Option<u64> {
    let text = str::from_utf8(report).ok()?;
    let line = text.lines().last()?;
    line.strip_prefix("score ")?.parse().ok()
}

#[test]
fn places_the_contest_case_no_worse_than_its_first_trial(rt: HostRuntime) -> Result<(), Fail> {
    let trial = Trial::new("place a o c", Some(CONTEST), None);
    let end = run_line(rt.alloc(), &trial)?;
    let report = end.out.written();
    assert!(&rt; end.status == 0);
    assert!(&rt; report.starts_with(b"seed 83\ntrial 0 start 74\ntrial 1 "));
    assert!(&rt; last_score(report).is_some_and(|score| score <= 74));
    drop(end);
    Ok(())
}
