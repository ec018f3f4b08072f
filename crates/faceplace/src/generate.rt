//! The command that writes an input that a number makes.

ghost use Rattle.std.specs.Prelude.{◌≡◌, ◌≤◌, List, Some, OnOk, OnErr, length};
ghost use Rattle.fp_base.specs.Faults.{Rose};
ghost use Rattle.fp_base.specs.Files.{sets_file, OthersStay};
ghost use Rattle.faceplace.specs.Asked.{IsMaking};
ghost use Rattle.faceplace.specs.Made.{text_made};
ghost use Rattle.faceplace.specs.Report.{bytes_report};
ghost use Rattle.faceplace.specs.Request.{Gen};
ghost use Rattle.faceplace.specs.Status.{code_of};
ghost use Rattle.faceplace.specs.Run.{outside, EndsAs};

use crate::report::bytes_report;
use crate::request::Making;
use crate::status::{Status, tell};
use fp_base::{Failed, Folder, Sink};
use fp_gen::make;
use fp_text::Writer;
use std::alloc::Global;

/// Writes a whole file. `Failed` comes where the device failed; what the name then holds is not said.
fn write_whole<F: Folder>(folder: &mut F, name: &str, text: &[u8]) -> Result<(), Failed>
    ensures written { OnOk result (F.held folder.new ≡ sets_file name.now (λ _. text.now) (F.held folder.old)) }
    ensures others { OthersStay name.now (F.held folder.old) (F.held folder.new) }
    ensures cause { OnErr result (Rose (F.faults folder.old) (F.faults folder.new)) }
{
    let mut writer = Writer::new(folder, name);
    writer.put(folder, name, text);
    writer.finish(folder, name)
}

/// Writes the text of an input, and then tells the report of its length.
fn write_text<F: Folder, S: Sink>(
    making: Making,
    text: &[u8],
    report: &[u8],
    output: &str,
    folder: &mut F,
    out: &mut S,
) -> Status
    requires text { text.now ≡ text_made making }
    requires report { report.now ≡ bytes_report (length (text_made making)) }
    ensures { EndsAs (Some (Gen making output.now)) (code_of result)
        (outside (F.held folder.old) (S.written out.old) (F.faults folder.old) (S.faults out.old))
        (outside (F.held folder.new) (S.written out.new) (F.faults folder.new) (S.faults out.new)) }
{
    if write_whole(folder, output, text).is_err() {
        return Status::Device;
    }
    tell(out, report, Status::Done)
}

/// Writes the text of an input, and reports its length.
fn write_input<F: Folder, S: Sink>(
    alloc: Global,
    making: Making,
    text: &[u8],
    output: &str,
    folder: &mut F,
    out: &mut S,
) -> Status
    requires { text.now ≡ text_made making }
    ensures { EndsAs (Some (Gen making output.now)) (code_of result)
        (outside (F.held folder.old) (S.written out.old) (F.faults folder.old) (S.faults out.old))
        (outside (F.held folder.new) (S.written out.new) (F.faults folder.new) (S.faults out.new)) }
{
    match bytes_report(alloc, text.len()) {
        Ok(report) => write_text(making, text, report.as_bytes(), output, folder, out),
        Err(_) => Status::NoMemory,
    }
}

/// Makes an input, writes it, and reports its length.
pub fn run_gen<F: Folder, S: Sink>(
    alloc: Global,
    making: Making,
    output: &str,
    folder: &mut F,
    out: &mut S,
) -> Status
    requires { IsMaking making }
    ensures { EndsAs (Some (Gen making output.now)) (code_of result)
        (outside (F.held folder.old) (S.written out.old) (F.faults folder.old) (S.faults out.old))
        (outside (F.held folder.new) (S.written out.new) (F.faults folder.new) (S.faults out.new)) }
{
    match make(
        alloc,
        u64::from(making.number),
        making.cells,
        making.percent,
    ) {
        Ok(text) => write_input(alloc, making, &text, output, folder, out),
        Err(_) => Status::NoMemory,
    }
}
