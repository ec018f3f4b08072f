//! The whole certificate file.

ghost use Rattle.std.specs.Prelude.{◌≡◌, ◌≤◌, OnOk, OnErr, length, flat_map, codes};
ghost use Rattle.fp_base.specs.Faults.{Rose};
ghost use Rattle.fp_base.specs.Files.{sets_file, OthersStay};
ghost use Rattle.fp_text.specs.Writing.{told, GoesOn, Adds};
ghost use Rattle.fp_cert.specs.CertText.{top_line, top_lines, ending_line, shown_lines, trial_text, trials_text, version_lines, cert_text};

use crate::lines::{write_field, write_number_line};
use crate::run::Run;
use crate::shown::Ending;
use crate::trial::Trial;
use crate::trial_lines::write_lines;
use fp_base::{CellId, Failed, Folder};
use fp_text::Writer;

/// Writes the certificate of a run, and takes no memory: version 1 where terminals cost nothing, else version 2 with their cost; how many
/// trials may be made and how many were; each trial; and the number of the answer. `Failed` comes where the device failed; what the name
/// then holds is not said.
pub fn write_cert<F: Folder>(folder: &mut F, name: &str, run: &Run) -> Result<(), Failed>
    ensures written { OnOk result (F.held folder.new ≡ sets_file name.now (λ _. cert_text run.now) (F.held folder.old)) }
    ensures others { OthersStay name.now (F.held folder.old) (F.held folder.new) }
    ensures later { F.faults folder.old ≤ F.faults folder.new }
    ensures cause { OnErr result (Rose (F.faults folder.old) (F.faults folder.new)) }
{
    let mut writer = Writer::new(folder, name);
    let trials = run.trials();
    write_version(&mut writer, folder, name, run.cost());
    write_number_line(&mut writer, folder, name, b"Limit", u64::from(run.limit()));
    write_number_line(&mut writer, folder, name, b"Trials", trials.len() as u64);
    write_trials(&mut writer, folder, name, trials);
    write_number_line(
        &mut writer,
        folder,
        name,
        b"Answer",
        u64::from(run.answer()),
    );
    writer.finish(folder, name)
}

/// Adds the version, and the cost where there is one.
fn write_version<F: Folder>(writer: &mut Writer, folder: &mut F, name: &str, cost: u32)
    requires { GoesOn name.now (told F.held F.made F.faults folder.old) writer.old }
    ensures adds { Adds name.now (version_lines cost) (told F.held F.made F.faults folder.old)
        (told F.held F.made F.faults folder.new) writer.old writer.new }
    ensures goes_on { GoesOn name.now (told F.held F.made F.faults folder.new) writer.new }
{
    if cost == 0 {
        writer.put(folder, name, b"FaceplaceCert 1\n");
    } else {
        writer.put(folder, name, b"FaceplaceCert 2\n");
        write_number_line(writer, folder, name, b"Cost", u64::from(cost));
    }
}

/// Adds trials, which are numbered from 0.
fn write_trials<F: Folder>(writer: &mut Writer, folder: &mut F, name: &str, trials: &[Trial])
    requires { GoesOn name.now (told F.held F.made F.faults folder.old) writer.old }
    ensures adds { Adds name.now (trials_text 0 trials.now) (told F.held F.made F.faults folder.old)
        (told F.held F.made F.faults folder.new) writer.old writer.new }
    ensures goes_on { GoesOn name.now (told F.held F.made F.faults folder.new) writer.new }
{
    for number in 0..trials.len() {
        write_trial(writer, folder, name, number as u64, &trials[number]);
    }
}

/// Adds a trial: how it ended, and what it shows.
fn write_trial<F: Folder>(
    writer: &mut Writer,
    folder: &mut F,
    name: &str,
    number: u64,
    trial: &Trial,
)
    requires { GoesOn name.now (told F.held F.made F.faults folder.old) writer.old }
    ensures adds { Adds name.now (trial_text number trial.now) (told F.held F.made F.faults folder.old)
        (told F.held F.made F.faults folder.new) writer.old writer.new }
    ensures goes_on { GoesOn name.now (told F.held F.made F.faults folder.new) writer.new }
{
    let ending = trial.ending();
    write_ending(writer, folder, name, number, ending);
    match ending {
        Ending::NoRow(_) => write_top_cells(writer, folder, name, trial.top_cells()),
        _ => write_lines(writer, folder, name, trial),
    }
}

/// Adds a trial's first line.
fn write_ending<F: Folder>(
    writer: &mut Writer,
    folder: &mut F,
    name: &str,
    number: u64,
    ending: Ending,
)
    requires { GoesOn name.now (told F.held F.made F.faults folder.old) writer.old }
    ensures adds { Adds name.now (ending_line number ending) (told F.held F.made F.faults folder.old)
        (told F.held F.made F.faults folder.new) writer.old writer.new }
    ensures goes_on { GoesOn name.now (told F.held F.made F.faults folder.new) writer.new }
{
    writer.put(folder, name, b"Trial");
    write_field(writer, folder, name, number);
    match ending {
        Ending::Start => writer.put(folder, name, b" start\n"),
        Ending::Better => writer.put(folder, name, b" better\n"),
        Ending::NotBetter => writer.put(folder, name, b" kept\n"),
        Ending::NoRow(cell) => write_number_line(
            writer,
            folder,
            name,
            b" norow",
            u64::from(cell.0),
        ),
    }
}

/// Adds the number of cells of the top die, and a line for each.
fn write_top_cells<F: Folder>(writer: &mut Writer, folder: &mut F, name: &str, cells: &[CellId])
    requires { GoesOn name.now (told F.held F.made F.faults folder.old) writer.old }
    ensures adds { Adds name.now (top_lines cells.now) (told F.held F.made F.faults folder.old)
        (told F.held F.made F.faults folder.new) writer.old writer.new }
    ensures goes_on { GoesOn name.now (told F.held F.made F.faults folder.new) writer.new }
{
    write_number_line(writer, folder, name, b"TopCells", cells.len() as u64);
    for cell in cells {
        write_number_line(writer, folder, name, b"Cell", u64::from(cell.0));
    }
}
