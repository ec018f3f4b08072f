//! Whole runs of `seed` and `score`, and words that are no request, over a folder and a sink in memory.

use crate::fixtures::{
    CONTEST, Changes, HIGH, LOOSE, NONE, PLACED, SMALL, Trial, UNCHANGED, run_line, with_changes,
};
use std::alloc::Global;
use std::process::Abort;
use std::test::Fail;

/// The small input without nets.
const NO_NETS: Changes = [
    ("NumNets 1", "NumNets 0"),
    ("Net N1 2", ""),
    ("Pin C1/P1", ""),
    ("Pin C2/P1", ""),
    NONE,
];

/// The small input with room for one terminal, and with both dies' percents as low as its seed allows.
const ONE_SLOT: Changes = [
    ("BottomDieMaxUtil 50", "BottomDieMaxUtil 13"),
    ("TerminalSize 2 2", "TerminalSize 10 10"),
    ("TerminalSpacing 1", "TerminalSpacing 4"),
    NONE,
    NONE,
];

/// The small input with a pin twice in its net, a net of one pin and one of none.
const THREE_NETS: Changes = [
    ("NumNets 1", "NumNets 3"),
    ("Net N1 2", "Net N1 3\nPin C1/P1"),
    ("Pin C2/P1", "Pin C2/P1\nNet N2 1\nPin C1/P1\nNet N3 0"),
    NONE,
    NONE,
];

/// The last section of the small input, behind which a cost and blockages may stand.
const SPACING: &str = "TerminalSpacing 1";

/// The output of the contest's case.
const CONTEST_PLACED: &str =
    "TopDiePlacement 4\nInst C1 0 0\nInst C2 7 0\nInst C3 16 0\nInst C4 0 10\nBottomDiePlacement 2\nInst C5 0 0\nInst C6 12 0\n\
NumTerminals 2\nTerminal N1 7 7\nTerminal N3 17 7\n";

/// A run over these files ends with this status and report, and leaves this in the file `o`, or no such file, and no file `c`.
fn expect_run(
    rt: &impl Abort,
    alloc: Global,
    trial: &Trial<'_>,
    status: u8,
    report: &str,
    left: Option<&str>,
) -> Result<(), Fail> {
    let end = run_line(alloc, trial)?;
    assert!(rt; end.status == status, "{report}");
    assert!(rt; end.out.written() == report.as_bytes(), "{report}");
    assert!(rt; end.folder.file("o") == left.map(str::as_bytes), "{report}");
    assert!(rt; end.folder.file("c").is_none(), "{report}");
    drop(end);
    Ok(())
}

/// A seed of a text with its lines changed ends with this status and report, and leaves this output, or none.
fn expect_seed(
    rt: &impl Abort,
    alloc: Global,
    text: &str,
    changes: &[(&str, &str)],
    status: u8,
    report: &str,
    left: Option<&str>,
) -> Result<(), Fail> {
    let input = with_changes(alloc, text, changes)?;
    let trial = Trial::new("seed a o", Some(input.as_str()), None);
    let done = expect_run(rt, alloc, &trial, status, report, left);
    drop(input);
    done
}

/// A score of a text with its lines changed ends with this status and report, and leaves the output as it is.
fn expect_score_of(
    rt: &impl Abort,
    alloc: Global,
    input: &str,
    output: &str,
    changes: &[(&str, &str)],
    status: u8,
    report: &str,
) -> Result<(), Fail> {
    let output = with_changes(alloc, output, changes)?;
    let trial = Trial::new("score a o", Some(input), Some(output.as_str()));
    let done = expect_run(rt, alloc, &trial, status, report, Some(output.as_str()));
    drop(output);
    done
}

/// A seed of the small input with its lines changed is done, with this report and this output.
fn expect_small_seed(
    rt: &impl Abort,
    alloc: Global,
    changes: &Changes,
    report: &str,
    output: &str,
) -> Result<(), Fail> {
    expect_seed(
        rt,
        alloc,
        SMALL,
        changes.as_slice(),
        0,
        report,
        Some(output),
    )
}

#[test]
fn seeds_of_the_small_input_are_written_with_their_scores(rt: HostRuntime) -> Result<(), Fail> {
    for (changes, report, output) in [
        (UNCHANGED, "seed 2 first top cut 1 slots 36\n", PLACED),
        (
            NO_NETS,
            "seed 0 first top cut 0 slots 36\n",
            "TopDiePlacement 1\nInst C1 0 0\nBottomDiePlacement 1\nInst C2 0 0\nNumTerminals 0\n",
        ),
        (
            ONE_SLOT,
            "seed 28 first top cut 1 slots 1\n",
            "TopDiePlacement 1\nInst C1 0 0\nBottomDiePlacement 1\nInst C2 0 0\nNumTerminals 1\nTerminal N1 9 9\n",
        ),
        (THREE_NETS, "seed 2 first top cut 1 slots 36\n", PLACED),
    ] {
        expect_small_seed(&rt, rt.alloc(), &changes, report, output)?;
    }
    Ok(())
}

#[test]
fn seeds_of_other_inputs_are_written_with_their_scores(rt: HostRuntime) -> Result<(), Fail> {
    for (text, report, output) in [
        (
            HIGH,
            "seed 8 first bottom cut 1 slots 36\n",
            "TopDiePlacement 1\nInst C2 0 0\nBottomDiePlacement 1\nInst C1 0 0\nNumTerminals 1\nTerminal N1 2 2\n",
        ),
        (CONTEST, "seed 83 first top cut 2 slots 4\n", CONTEST_PLACED),
    ] {
        expect_seed(&rt, rt.alloc(), text, &[], 0, report, Some(output))?;
    }
    Ok(())
}

#[test]
fn seeds_with_a_cost_or_a_blockage_are_written_with_their_scores(
    rt: HostRuntime,
) -> Result<(), Fail> {
    let beside =
        "TopDiePlacement 1\nInst C1 0 0\nBottomDiePlacement 1\nInst C2 6 0\nNumTerminals 1\nTerminal N1 2 2\n";
    for (section, text, report, output) in [
        (
            SPACING,
            "TerminalSpacing 1\nTerminalCost 7",
            "seed 9 first top cut 1 slots 36\n",
            PLACED,
        ),
        (
            "DieSize 0 0 20 20",
            "TerminalCost 7\nDieSize 0 0 20 20",
            "seed 9 first top cut 1 slots 36\n",
            PLACED,
        ),
        (
            SPACING,
            "TerminalSpacing 1\nNumBlockages 0",
            "seed 2 first top cut 1 slots 36\n",
            PLACED,
        ),
        (
            SPACING,
            "TerminalSpacing 1\nNumBlockages 1\nBlockage Bottom 3 0 6 10",
            "seed 8 first top cut 1 slots 36\n",
            beside,
        ),
        (
            SPACING,
            "TerminalSpacing 1\nTerminalCost 7\nNumBlockages 1\nBlockage Bottom 3 0 6 10",
            "seed 15 first top cut 1 slots 36\n",
            beside,
        ),
    ] {
        let changes = [(section, text)];
        expect_seed(&rt, rt.alloc(), SMALL, &changes, 0, report, Some(output))?;
    }
    Ok(())
}

#[test]
fn tells_why_no_seed_stands(rt: HostRuntime) -> Result<(), Fail> {
    let lower = [
        ("TopDieMaxUtil 20", "TopDieMaxUtil 19"),
        NONE,
        NONE,
        NONE,
        NONE,
    ];
    let two_nets = [
        ("BottomDieMaxUtil 50", "BottomDieMaxUtil 13"),
        ("TerminalSize 2 2", "TerminalSize 10 10"),
        ("TerminalSpacing 1", "TerminalSpacing 4"),
        ("NumNets 1", "NumNets 2"),
        ("Net N1 2", "Net N2 2\nPin C1/P1\nPin C2/P1\nNet N1 2"),
    ];
    let blocked = [
        (
            SPACING,
            "TerminalSpacing 1\nNumBlockages 1\nBlockage Bottom 0 0 20 20",
        ),
        NONE,
        NONE,
        NONE,
        NONE,
    ];
    for (text, changes, report) in [
        (HIGH, lower, "unfit top cell C2 bottom cell C2\n"),
        (SMALL, blocked, "unfit top cell C2 bottom cell C2\n"),
        (SMALL, two_nets, "unfit top slots 2 1 bottom slots 2 1\n"),
    ] {
        expect_seed(&rt, rt.alloc(), text, &changes, 4, report, None)?;
    }
    Ok(())
}

#[test]
fn reports_the_first_fault_of_the_dies(rt: HostRuntime) -> Result<(), Fail> {
    for (line, text, report) in [
        (
            "DieSize 0 0 20 20",
            "DieSize 0 0 20 0",
            "input a 113 range\n",
        ),
        (
            "TopDieMaxUtil 10",
            "DieSize 0 0 20 20",
            "input a 116 twice\n",
        ),
        (
            "TopDieMaxUtil 10",
            "TopDieMaxUtil 101",
            "input a 130 range\n",
        ),
        (
            "TopDieRows 0 0 20 10 2",
            "TopDieRows 0 0 21 10 2",
            "input a 153 rows\n",
        ),
    ] {
        expect_seed(&rt, rt.alloc(), SMALL, &[(line, text)], 3, report, None)?;
    }
    Ok(())
}

#[test]
fn reports_the_first_fault_of_costs_and_blockages(rt: HostRuntime) -> Result<(), Fail> {
    for (text, report) in [
        (
            "TerminalSpacing 1\nTerminalCost 7\nTerminalCost 7",
            "input a 283 twice\n",
        ),
        (
            "TerminalCost 7\nTerminalSpacing 1\nTerminalCost 7",
            "input a 283 twice\n",
        ),
        (
            "TerminalSpacing 1\nTerminalCost 1073741825",
            "input a 281 number\n",
        ),
        ("TerminalSpacing 1\nTerminalSpacing 1", "input a 268 word\n"),
        (
            "TerminalSpacing 1\nNumBlockages 1025",
            "input a 281 limit\n",
        ),
        (
            "TerminalSpacing 1\nNumBlockages 0\nTerminalCost 7",
            "input a 283 word\n",
        ),
        (
            "TerminalSpacing 1\nNumBlockages 1\nBlockage Left 0 0 1 1",
            "input a 292 word\n",
        ),
        (
            "TerminalSpacing 1\nNumBlockages 1\nBlockage Top 4 0 4 9",
            "input a 300 range\n",
        ),
    ] {
        expect_seed(&rt, rt.alloc(), SMALL, &[(SPACING, text)], 3, report, None)?;
    }
    Ok(())
}

#[test]
fn rows_are_told_behind_the_ninth_section(rt: HostRuntime) -> Result<(), Fail> {
    let outside = ("TopDieRows 0 0 20 10 2", "TopDieRows 0 0 21 10 2");
    for (line, text, report) in [
        (
            SPACING,
            "TerminalSpacing 1\nTerminalCost x",
            "input a 153 rows\n",
        ),
        (
            SPACING,
            "TerminalCost x\nTerminalSpacing 1",
            "input a 263 number\n",
        ),
    ] {
        let changes = [outside, (line, text)];
        expect_seed(&rt, rt.alloc(), SMALL, &changes, 3, report, None)?;
    }
    Ok(())
}

#[test]
fn reports_the_first_fault_of_words_counts_and_names(rt: HostRuntime) -> Result<(), Fail> {
    for (line, text, report) in [
        ("Pin C2/P1", "", "input a 336 ended\n"),
        ("Pin C2/P1", "Pin C2/P1 x", "input a 346 trailing\n"),
        ("NumTechnologies 2", "NumTech 2", "input a 0 word\n"),
        (
            "NumTechnologies 2",
            "NumTechnologies 17",
            "input a 16 limit\n",
        ),
        (
            "NumTechnologies 2",
            "NumTechnologies 1073741825",
            "input a 16 number\n",
        ),
        ("Inst C1 MC1", "Inst C1 MC2", "input a 291 unknown\n"),
        ("Inst C2 MC1", "Inst C1 MC1", "input a 300 twice\n"),
        ("Pin C1/P1", "Pin C1P1", "input a 330 name\n"),
        ("Pin C1/P1", "Pin C9/P1", "input a 330 unknown\n"),
    ] {
        expect_seed(&rt, rt.alloc(), SMALL, &[(line, text)], 3, report, None)?;
    }
    Ok(())
}

/// A score of the contest's case with a line changed, and its output with two.
fn expect_contest_score(
    rt: &impl Abort,
    alloc: Global,
    input_change: (&str, &str),
    output_changes: &[(&str, &str)],
    status: u8,
    report: &str,
) -> Result<(), Fail> {
    let input = with_changes(alloc, CONTEST, &[input_change])?;
    let text = input.as_str();
    let done = expect_score_of(
        rt,
        alloc,
        text,
        CONTEST_PLACED,
        output_changes,
        status,
        report,
    );
    drop(input);
    done
}

#[test]
fn percents_hold_up_to_the_last_one_or_are_broken(rt: HostRuntime) -> Result<(), Fail> {
    for (limit, text, status, report) in [
        ("", "", 0, "score 83\n"),
        ("TopDieMaxUtil 40", "TopDieMaxUtil 36", 0, "score 83\n"),
        ("TopDieMaxUtil 40", "TopDieMaxUtil 35", 5, "broken 5 top\n"),
        (
            "BottomDieMaxUtil 90",
            "BottomDieMaxUtil 44",
            0,
            "score 83\n",
        ),
        (
            "BottomDieMaxUtil 90",
            "BottomDieMaxUtil 43",
            5,
            "broken 6 bottom\n",
        ),
    ] {
        expect_contest_score(&rt, rt.alloc(), (limit, text), &[], status, report)?;
    }
    Ok(())
}

#[test]
fn tells_the_rule_that_a_cell_breaks(rt: HostRuntime) -> Result<(), Fail> {
    let fewer = ("BottomDiePlacement 2", "BottomDiePlacement 1");
    let higher = ("LibCell MC1 14 15 1", "LibCell MC1 14 16 1");
    for (input, first, second, report) in [
        (NONE, ("Inst C6 12 0", ""), fewer, "broken 1 C6\n"),
        (
            NONE,
            ("Inst C4 0 10", "Inst C4 0 11"),
            NONE,
            "broken 2 C4\n",
        ),
        (higher, NONE, NONE, "broken 3 C6\n"),
        (NONE, ("Inst C2 7 0", "Inst C2 6 0"), NONE, "broken 4 C1\n"),
    ] {
        expect_contest_score(&rt, rt.alloc(), input, &[first, second], 5, report)?;
    }
    Ok(())
}

#[test]
fn tells_the_rule_that_a_terminal_breaks(rt: HostRuntime) -> Result<(), Fail> {
    let more = ("NumTerminals 2", "NumTerminals 3");
    for (first, second, report) in [
        (
            more,
            ("Terminal N3 17 7", "Terminal N3 17 7\nTerminal N2 7 17"),
            "broken 7 N2\n",
        ),
        (
            ("Terminal N1 7 7", "Terminal N1 6 7"),
            NONE,
            "broken 8 N1\n",
        ),
        (
            ("Terminal N3 17 7", "Terminal N3 16 7"),
            NONE,
            "broken 9 N1\n",
        ),
    ] {
        expect_contest_score(&rt, rt.alloc(), NONE, &[first, second], 5, report)?;
    }
    Ok(())
}

#[test]
fn scores_an_output_of_the_small_input(rt: HostRuntime) -> Result<(), Fail> {
    for (line, text, status, report) in [
        ("", "", 0, "score 2\n"),
        ("Inst C2 0 0", "Inst C1 0 0", 5, "broken 1 C1\n"),
    ] {
        let changes = [(line, text)];
        expect_score_of(&rt, rt.alloc(), SMALL, PLACED, &changes, status, report)?;
    }
    Ok(())
}

/// A score of the small input with a section changed, and its output.
fn expect_score_with(
    rt: &impl Abort,
    alloc: Global,
    text: &str,
    status: u8,
    report: &str,
) -> Result<(), Fail> {
    let input = with_changes(alloc, SMALL, &[(SPACING, text)])?;
    let done = expect_score_of(rt, alloc, input.as_str(), PLACED, &[], status, report);
    drop(input);
    done
}

#[test]
fn scores_see_costs_and_blockages(rt: HostRuntime) -> Result<(), Fail> {
    for (text, status, report) in [
        ("TerminalSpacing 1\nTerminalCost 7", 0, "score 9\n"),
        (
            "TerminalSpacing 1\nNumBlockages 1\nBlockage Top 4 0 8 10",
            0,
            "score 2\n",
        ),
        (
            "TerminalSpacing 1\nNumBlockages 1\nBlockage Bottom 3 0 6 10",
            5,
            "broken 2 C2\n",
        ),
    ] {
        expect_score_with(&rt, rt.alloc(), text, status, report)?;
    }
    Ok(())
}

#[test]
fn reports_the_first_fault_of_an_output_file(rt: HostRuntime) -> Result<(), Fail> {
    for (line, text, report) in [
        (
            "TopDiePlacement 1",
            "TopDiePlacement 262145",
            "input o 16 limit\n",
        ),
        (
            "TopDiePlacement 1",
            "TopDiePlacement 2",
            "input o 30 word\n",
        ),
        ("Inst C1 0 0", "Inst C9 0 0", "input o 23 unknown\n"),
        ("Inst C1 0 0", "Inst C1 1073741825 0", "input o 26 number\n"),
        ("Terminal N1 2 2", "", "input o 78 ended\n"),
        ("Terminal N1 2 2", "Terminal N9 2 2", "input o 87 unknown\n"),
        (
            "Terminal N1 2 2",
            "Terminal N1 2 2\ny",
            "input o 94 trailing\n",
        ),
    ] {
        let changes = [(line, text)];
        expect_score_of(&rt, rt.alloc(), SMALL, PLACED, &changes, 3, report)?;
    }
    Ok(())
}

#[test]
fn a_missing_or_empty_file_is_told_and_none_is_made(rt: HostRuntime) -> Result<(), Fail> {
    for (line, input, report) in [
        ("seed a o", None, "input a 0 missing\n"),
        ("seed a o", Some(""), "input a 0 ended\n"),
        ("score a o", Some(SMALL), "input o 0 missing\n"),
        ("place a o c", None, "input a 0 missing\n"),
    ] {
        let trial = Trial::new(line, input, None);
        expect_run(&rt, rt.alloc(), &trial, 3, report, None)?;
    }
    Ok(())
}

/// A command line is no request, and the folder is not called.
fn expect_no_request(rt: &impl Abort, alloc: Global, line: &str) -> Result<(), Fail> {
    let trial = Trial::new(line, None, None);
    let end = run_line(alloc, &trial)?;
    assert!(rt; end.status == 2, "{line}");
    assert!(rt; end.out.written() == b"words\n".as_slice(), "{line}");
    assert!(rt; end.folder.calls() == 0, "{line}");
    drop(end);
    Ok(())
}

#[test]
fn other_words_are_no_request(rt: HostRuntime) -> Result<(), Fail> {
    for line in [
        "",
        "seed a",
        "seed a a",
        "score a a",
        "seed a o c",
        "place a o",
        "place a a c",
        "place a o a",
        "place a o o",
        "place a o c 0",
        "place a o c 9",
        "place a o c x",
        "place a o c 3 3",
        "check a o",
        "check a o o",
        "check a o c 3",
    ] {
        expect_no_request(&rt, rt.alloc(), line)?;
    }
    Ok(())
}

#[test]
fn blanks_and_the_order_of_sections_change_nothing(rt: HostRuntime) -> Result<(), Fail> {
    let report = "seed 2 first top cut 1 slots 36\n";
    expect_seed(&rt, rt.alloc(), LOOSE, &[], 0, report, Some(PLACED))
}

#[test]
fn a_text_that_ends_early_is_told_where_it_ends(rt: HostRuntime) -> Result<(), Fail> {
    for (kept, report) in [
        (344, "input a 340 unknown\n"),
        (343, "input a 340 name\n"),
        (342, "input a 340 name\n"),
        (341, "input a 340 name\n"),
        (340, "input a 340 ended\n"),
        (339, "input a 339 ended\n"),
        (338, "input a 336 word\n"),
        (337, "input a 336 word\n"),
        (268, "input a 268 ended\n"),
    ] {
        let trial = Trial::new("seed a o", SMALL.get(..kept), None);
        expect_run(&rt, rt.alloc(), &trial, 3, report, None)?;
    }
    Ok(())
}

#[test]
fn a_text_needs_no_last_line_end(rt: HostRuntime) -> Result<(), Fail> {
    let trial = Trial::new("seed a o", SMALL.get(..345), None);
    let report = "seed 2 first top cut 1 slots 36\n";
    expect_run(&rt, rt.alloc(), &trial, 0, report, Some(PLACED))
}
