//! The lines that the program prints.

ghost use Rattle.std.specs.Prelude.{◌≡◌, IfOk, string_bytes};
ghost use Rattle.fp_score.specs.FirstFit.{IsStopOf};
ghost use Rattle.faceplace.specs.Report.{die_text, kind_text, fault_line, input_report, seed_report, stop_text, unfit_report, score_report, subject_text, broken_report, finding_report, bytes_report, counts_line};
ghost use Rattle.faceplace.specs.Subjects.{IsSubjectOf};
ghost use Rattle.faceplace.specs.Causes.{cause_of};

use fp_base::Die;
use fp_cert::Finding;
use fp_netlist::Problem;
use fp_place::Subject;
use fp_score::Stop;
use fp_text::Kind;
use std::alloc::{AllocError, Global};

/// Why a file is refused.
#[derive(Clone, Copy, Debug, PartialEq, Eq)]
pub enum Cause {
    /// The folder does not hold the name.
    Missing,
    /// The name holds more bytes than the file may have.
    Long,
    /// The bytes are not in the grammar: their first fault.
    Wrong { at: u64, kind: Kind },
}

/// The kind's name in a report.
fn kind_word(kind: Kind) -> &'static str
    ensures { result.now ≡ kind_text kind }
{
    match kind {
        Kind::Ended => "ended",
        Kind::Word => "word",
        Kind::Number => "number",
        Kind::Name => "name",
        Kind::Twice => "twice",
        Kind::Unknown => "unknown",
        Kind::Range => "range",
        Kind::Rows => "rows",
        Kind::Limit => "limit",
        Kind::Trailing => "trailing",
    }
}

/// `input NAME AT WORD`.
fn fault_line(alloc: Global, name: &str, at: u64, word: &str) -> Result<String, AllocError>
    ensures { IfOk result (λ report. string_bytes report ≡ fault_line name.now at word.now) }
{
    let mut report = format!(in alloc; "input {name} ")?;
    write!(report, "{at} ")?;
    report.push_str(word)?;
    report.push_str("\n")?;
    Ok(report)
}

/// Why a file is refused, which may have so many bytes; one that is too long is told at that limit.
pub fn input_report(
    alloc: Global,
    limit: u64,
    name: &str,
    cause: Cause,
) -> Result<String, AllocError>
    ensures { IfOk result (λ report. string_bytes report ≡ input_report limit name.now (cause_of cause)) }
{
    match cause {
        Cause::Missing => fault_line(alloc, name, 0, "missing"),
        Cause::Long => fault_line(alloc, name, limit, "long"),
        Cause::Wrong { at, kind } => fault_line(alloc, name, at, kind_word(kind)),
    }
}

/// A die's name in a report.
fn die_word(die: Die) -> &'static str
    ensures { result.now ≡ die_text die }
{
    match die {
        Die::Top => "top",
        Die::Bottom => "bottom",
    }
}

/// `seed S first D cut K slots M`, for a seed that was written: its score, its first die, the cut nets and the slots.
pub fn seed_report(
    alloc: Global,
    total: u64,
    first: Die,
    cut: u32,
    slots: u32,
) -> Result<String, AllocError>
    ensures { IfOk result (λ report. string_bytes report ≡ seed_report total first cut slots) }
{
    let mut report = format!(in alloc; "seed {total} first ")?;
    report.push_str(die_word(first))?;
    write!(report, " cut {cut}")?;
    write!(report, " slots {slots}")?;
    report.push_str("\n")?;
    Ok(report)
}

/// Why a first fit stops: `cell NAME` or `slots CUT SLOTS`.
fn stop_report(alloc: Global, problem: &Problem, stop: Stop) -> Result<Vec<u8>, AllocError>
    requires { IsStopOf problem.now stop }
    ensures { IfOk result (λ report. report.items ≡ stop_text problem.now stop) }
{
    match stop {
        Stop::NoRoom(cell) => {
            let mut report = Vec::from_slice(alloc, b"cell ")?;
            report.extend_from_slice(problem.cell_name(cell))?;
            Ok(report)
        }
        Stop::NoSlots { cut, slots } => {
            let report = format!(in alloc; "slots {cut} {slots}")?;
            Ok(report.into_bytes())
        }
    }
}

/// `unfit top STOP bottom STOP`, for a problem of which neither first fit stands.
pub fn unfit_report(
    alloc: Global,
    problem: &Problem,
    top_first: Stop,
    bottom_first: Stop,
) -> Result<Vec<u8>, AllocError>
    requires top { IsStopOf problem.now top_first }
    requires bottom { IsStopOf problem.now bottom_first }
    ensures { IfOk result (λ report. report.items ≡ unfit_report problem.now top_first bottom_first) }
{
    let mut report = Vec::from_slice(alloc, b"unfit top ")?;
    report.extend_from_slice(&stop_report(alloc, problem, top_first)?)?;
    report.extend_from_slice(b" bottom ")?;
    report.extend_from_slice(&stop_report(alloc, problem, bottom_first)?)?;
    report.extend_from_slice(b"\n")?;
    Ok(report)
}

/// `score S`, for an output file that is legal.
pub fn score_report(alloc: Global, total: u64) -> Result<String, AllocError>
    ensures { IfOk result (λ report. string_bytes report ≡ score_report total) }
{
    format!(in alloc; "score {total}\n")
}

/// The name of what breaks a rule.
fn subject_word(problem: &Problem, subject: Subject) -> &[u8]
    requires { IsSubjectOf problem.now subject }
    ensures { result.now ≡ subject_text problem.now subject }
{
    match subject {
        Subject::Cell(cell) => problem.cell_name(cell),
        Subject::Net(net) => problem.net_name(net),
        Subject::Side(die) => die_word(die).as_bytes(),
    }
}

/// `broken RULE SUBJECT`, for an output file that breaks a rule.
pub fn broken_report(
    alloc: Global,
    problem: &Problem,
    rule: u8,
    subject: Subject,
) -> Result<Vec<u8>, AllocError>
    requires { IsSubjectOf problem.now subject }
    ensures { IfOk result (λ report. report.items ≡ broken_report problem.now rule subject) }
{
    let head = format!(in alloc; "broken {rule} ")?;
    let mut report = head.into_bytes();
    report.extend_from_slice(subject_word(problem, subject))?;
    report.extend_from_slice(b"\n")?;
    Ok(report)
}

/// `yes`, or `no K`, for an output file that was checked.
pub fn finding_report(alloc: Global, finding: Finding) -> Result<String, AllocError>
    ensures { IfOk result (λ report. string_bytes report ≡ finding_report finding) }
{
    match finding {
        Finding::Yes => format!(in alloc; "yes\n"),
        Finding::No(number) => format!(in alloc; "no {number}\n"),
    }
}

/// `bytes B`, for a text that was made.
pub fn bytes_report(alloc: Global, bytes: usize) -> Result<String, AllocError>
    ensures { IfOk result (λ report. string_bytes report ≡ bytes_report bytes) }
{
    format!(in alloc; "bytes {bytes}\n")
}

/// `cells C nets N bytes B`, for a problem that was made.
pub fn counts_line(alloc: Global, cells: u32, nets: u32, bytes: usize) -> Result<String, AllocError>
    ensures { IfOk result (λ line. string_bytes line ≡ counts_line cells nets bytes) }
{
    let mut line = format!(in alloc; "cells {cells}")?;
    write!(line, " nets {nets}")?;
    write!(line, " bytes {bytes}")?;
    line.push_str("\n")?;
    Ok(line)
}
