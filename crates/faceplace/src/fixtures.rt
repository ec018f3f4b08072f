//! What whole runs over a folder and a sink in memory share: texts, and how a run is made.

use crate::run;
use fp_base::{MemFolder, MemSink};
use std::alloc::{AllocError, Global};
use std::test::Fail;

/// Two cells of one library cell, which the top die's percent keeps apart.
pub(crate) const SMALL: &str =
    "NumTechnologies 2\nTech TA 1\nLibCell MC1 4 10 1\nPin P1 1 2\nTech TB 1\nLibCell MC1 5 10 1\nPin P1 2 3\n\
DieSize 0 0 20 20\nTopDieMaxUtil 10\nBottomDieMaxUtil 50\nTopDieRows 0 0 20 10 2\nBottomDieRows 0 0 20 10 2\nTopDieTech TA\n\
BottomDieTech TB\nTerminalSize 2 2\nTerminalSpacing 1\nNumInstances 2\nInst C1 MC1\nInst C2 MC1\nNumNets 1\nNet N1 2\nPin C1/P1\n\
Pin C2/P1\n";

/// The small input with other blanks, and its sections in the reverse order.
pub(crate) const LOOSE: &str =
    "NumTechnologies\t2\r\nTech\tTA\t1\r\nLibCell\tMC1\t4\t10\t1\r\nPin\tP1\t1\t2\r\nTech\tTB\t1\r\n\
LibCell\tMC1\t5\t10\t1\r\nPin\tP1\t2\t3\r\nTerminalSpacing\t1\r\nTerminalSize\t2\t2\r\nBottomDieTech\tTB\r\nTopDieTech\tTA\r\n\
BottomDieRows\t0\t0\t20\t10\t2\r\nTopDieRows\t0\t0\t20\t10\t2\r\nBottomDieMaxUtil\t50\r\nTopDieMaxUtil\t10\r\n\
DieSize\t0\t0\t20\t20\r\nNumInstances\t2\r\nInst\tC1\tMC1\r\nInst\tC2\tMC1\r\nNumNets\t1\r\nNet\tN1\t2\r\n\
Pin\tC1/P1\r\nPin\tC2/P1\r\n";

/// The contest's own small case: six cells, three nets, two of them cut.
pub(crate) const CONTEST: &str =
    "NumTechnologies 2\nTech TA 2\nLibCell MC1 7 10 1\nPin P1 1 2\nLibCell MC2 9 10 2\nPin P1 3 4\nPin P2 6 5\n\
Tech TB 2\nLibCell MC1 14 15 1\nPin P1 2 3\nLibCell MC2 12 15 2\nPin P1 4 7\nPin P2 8 9\nDieSize 0 0 30 30\nTopDieMaxUtil 40\n\
BottomDieMaxUtil 90\nTopDieRows 0 0 30 10 3\nBottomDieRows 0 0 30 15 2\nTopDieTech TA\nBottomDieTech TB\nTerminalSize 6 6\n\
TerminalSpacing 4\nNumInstances 6\nInst C1 MC1\nInst C2 MC2\nInst C3 MC1\nInst C4 MC2\nInst C5 MC2\nInst C6 MC1\nNumNets 3\n\
Net N1 3\nPin C1/P1\nPin C2/P1\nPin C6/P1\nNet N2 2\nPin C3/P1\nPin C4/P1\nNet N3 3\nPin C4/P2\nPin C5/P2\nPin C2/P2\n";

/// The small input's dies, without cells and nets.
pub(crate) const EMPTY: &str =
    "NumTechnologies 2\nTech TA 1\nLibCell MC1 4 10 1\nPin P1 1 2\nTech TB 1\nLibCell MC1 5 10 1\nPin P1 2 3\n\
DieSize 0 0 20 20\nTopDieMaxUtil 10\nBottomDieMaxUtil 50\nTopDieRows 0 0 20 10 2\nBottomDieRows 0 0 20 10 2\nTopDieTech TA\n\
BottomDieTech TB\nTerminalSize 2 2\nTerminalSpacing 1\nNumInstances 0\nNumNets 0\n";

/// A net of three cells on the top die's one row, with two cells in between that have no net.
pub(crate) const APART: &str =
    "NumTechnologies 1\nTech T 1\nLibCell W 10 10 1\nPin P 5 5\nDieSize 0 0 50 10\nTopDieMaxUtil 100\nBottomDieMaxUtil 0\n\
TopDieRows 0 0 50 10 1\nBottomDieRows 0 0 50 10 1\nTopDieTech T\nBottomDieTech T\nTerminalSize 2 2\nTerminalSpacing 1\n\
NumInstances 5\nInst X1 W\nInst X2 W\nInst F W\nInst G W\nInst Y W\nNumNets 1\nNet N1 3\nPin X1/P\nPin X2/P\nPin Y/P\n";

/// A high cell that fits the top die alone, behind a cell that fills it.
pub(crate) const HIGH: &str =
    "NumTechnologies 1\nTech T 2\nLibCell S 4 10 1\nPin P 0 0\nLibCell H 4 20 1\nPin P 0 0\nDieSize 0 0 20 20\n\
TopDieMaxUtil 20\nBottomDieMaxUtil 50\nTopDieRows 0 0 20 20 1\nBottomDieRows 0 0 20 10 2\nTopDieTech T\nBottomDieTech T\n\
TerminalSize 2 2\nTerminalSpacing 1\nNumInstances 2\nInst C1 S\nInst C2 H\nNumNets 1\nNet N1 2\nPin C1/P\nPin C2/P\n";

/// Lines of a text, each with the line that takes its place.
pub(crate) type Changes = [(&'static str, &'static str); 5];

pub(crate) const NONE: (&str, &str) = ("", "");

pub(crate) const UNCHANGED: Changes = [NONE, NONE, NONE, NONE, NONE];

/// The small input with room for one cell on its bottom die, so that no trial follows its seed.
pub(crate) const ONE_PLACE: Changes = [
    ("BottomDieRows 0 0 20 10 2", "BottomDieRows 0 0 8 10 1"),
    NONE,
    NONE,
    NONE,
    NONE,
];

/// The small input with its top die full by its rows, and not by its percent.
pub(crate) const NARROW: Changes = [
    ("TopDieMaxUtil 10", "TopDieMaxUtil 100"),
    ("TopDieRows 0 0 20 10 2", "TopDieRows 0 0 7 10 1"),
    NONE,
    NONE,
    NONE,
];

/// The small input with terminals that cost more than the cells' way to each other.
pub(crate) const COSTLY: Changes = [
    ("TerminalSpacing 1", "TerminalSpacing 1\nTerminalCost 7"),
    NONE,
    NONE,
    NONE,
    NONE,
];

/// The small input with a blockage in the corner where its second cell would stand.
pub(crate) const BLOCKED: Changes = [
    (
        "TerminalSpacing 1",
        "TerminalSpacing 1\nNumBlockages 1\nBlockage Bottom 3 0 6 10",
    ),
    NONE,
    NONE,
    NONE,
    NONE,
];

/// The output of the small input.
pub(crate) const PLACED: &str =
    "TopDiePlacement 1\nInst C1 0 0\nBottomDiePlacement 1\nInst C2 0 0\nNumTerminals 1\nTerminal N1 2 2\n";

/// A certificate of the small input: its seed, and a trial with both cells on the bottom die that is no better.
pub(crate) const SMALL_CERT: &str =
    "FaceplaceCert 1\nLimit 3\nTrials 2\nTrial 0 start\nTopSegments 2\nSegment 1 0\nCell 0 0 0 0 0\nSegment 0 0\n\
BottomSegments 2\nSegment 1 0\nCell 1 0 0 0 0\nSegment 0 0\nTerminals 1\nCut 0 0 0\nScore 2\nTrial 1 kept\nTopSegments 2\nSegment 0 0\n\
Segment 0 0\nBottomSegments 2\nSegment 2 12\nCell 1 0 -1 -1 10\nCell 0 5 0 0 0\nSegment 0 0\nTerminals 0\nScore 5\nAnswer 0\n";

/// Adds a text with its lines changed; one that is changed to nothing is left out.
fn push_lines(input: &mut String, text: &str, changes: &[(&str, &str)]) -> Result<(), AllocError> {
    for old in text.lines() {
        let change = changes.iter().find(|change| change.0 == old);
        let line = change.map_or(old, |change| change.1);
        if !line.is_empty() {
            input.push_str(line)?;
            input.push_str("\n")?;
        }
    }
    Ok(())
}

/// A text with its lines changed.
pub(crate) fn with_changes(
    alloc: Global,
    text: &str,
    changes: &[(&str, &str)],
) -> Result<String, AllocError> {
    let mut input = String::new(alloc);
    let pushed = push_lines(&mut input, text, changes);
    match pushed {
        Ok(()) => Ok(input),
        Err(fault) => {
            drop(input);
            Err(fault)
        }
    }
}

/// Adds the words of a command line.
pub(crate) fn push_words(
    alloc: Global,
    words: &mut Vec<String>,
    line: &str,
) -> Result<(), AllocError> {
    for word in line.split_whitespace() {
        words.push(String::from_str(alloc, word)?)?;
    }
    Ok(())
}

/// A run: its command line, what it finds in the files `a`, `o` and `c`, the number of the folder's call and of the sink's put that fails, where
/// one does, and the greatest number of bytes that a read gives.
#[derive(Clone, Copy)]
pub(crate) struct Trial<'t> {
    pub(crate) line: &'t str,
    pub(crate) input: Option<&'t str>,
    pub(crate) output: Option<&'t str>,
    pub(crate) cert: Option<&'t str>,
    pub(crate) failing_call: Option<u64>,
    pub(crate) failing_put: Option<u64>,
    pub(crate) piece: usize,
}

impl<'t> Trial<'t> {
    /// A run over these files, and no certificate, in which no call fails and each read gives all.
    pub(crate) fn new(line: &'t str, input: Option<&'t str>, output: Option<&'t str>) -> Trial<'t> {
        Trial {
            line,
            input,
            output,
            cert: None,
            failing_call: None,
            failing_put: None,
            piece: usize::MAX,
        }
    }
}

/// How a run ended: the status, and the sink and the folder afterwards.
#[derive(Drop)]
pub(crate) struct Ended {
    pub(crate) status: u8,
    pub(crate) out: MemSink,
    pub(crate) folder: MemFolder,
}

/// The folder that a run finds.
fn folder_of(alloc: Global, trial: &Trial<'_>) -> Result<MemFolder, Fail> {
    let mut folder = MemFolder::new(alloc, trial.failing_call.as_slice(), 3, 2048)?;
    if let Some(bytes) = trial.input {
        let _ = folder.put_file("a", bytes.as_bytes());
    }
    if let Some(bytes) = trial.output {
        let _ = folder.put_file("o", bytes.as_bytes());
    }
    if let Some(bytes) = trial.cert {
        let _ = folder.put_file("c", bytes.as_bytes());
    }
    folder.set_piece(trial.piece.max(1));
    Ok(folder)
}

/// A run of these words.
fn run_words(alloc: Global, words: &[String], trial: &Trial<'_>) -> Result<Ended, Fail> {
    let mut out = MemSink::new(alloc, trial.failing_put.as_slice(), 128)?;
    match folder_of(alloc, trial) {
        Ok(mut folder) => {
            let status = run(alloc, words, &mut folder, &mut out);
            Ok(Ended {
                status,
                out,
                folder,
            })
        }
        Err(fault) => {
            drop(out);
            Err(fault)
        }
    }
}

/// Runs a command line over a folder, and answers its status.
pub(crate) fn run_in(
    alloc: Global,
    line: &str,
    folder: &mut MemFolder,
    out: &mut MemSink,
) -> Result<u8, AllocError> {
    let mut words = Vec::new(alloc);
    let status = match push_words(alloc, &mut words, line) {
        Ok(()) => Ok(run(alloc, words.as_slice(), folder, out)),
        Err(fault) => Err(fault),
    };
    drop(words);
    status
}

/// A run of a command line.
pub(crate) fn run_line(alloc: Global, trial: &Trial<'_>) -> Result<Ended, Fail> {
    let mut words = Vec::new(alloc);
    let ended = match push_words(alloc, &mut words, trial.line) {
        Ok(()) => run_words(alloc, words.as_slice(), trial),
        Err(fault) => Err(Fail::new(fault)),
    };
    drop(words);
    ended
}
