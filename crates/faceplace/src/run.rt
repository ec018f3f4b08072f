//! The top call of the program.

ghost use Rattle.std.specs.Prelude.{◌≡◌, ◌⊎◌, ◌≤◌, ℕ, List, length, map, string_bytes, Some};
ghost use Rattle.fp_base.specs.Faults.{Rose};
ghost use Rattle.fp_base.specs.Files.{Files};
ghost use Rattle.fp_gen.specs.ReadsAsMade.{ReadsAsMade};
ghost use Rattle.faceplace.specs.declared.request.Making.{Making};
ghost use Rattle.faceplace.specs.Asked.{IsMaking};
ghost use Rattle.faceplace.specs.Request.{asks};
ghost use Rattle.faceplace.specs.Sources.{ReadingsAgree};
ghost use Rattle.faceplace.specs.Owed.{IsOwed};
ghost use Rattle.faceplace.specs.Status.{code_of};
ghost use Rattle.faceplace.specs.Run.{outside, EndsAs};
ghost use Rattle.faceplace.specs.Headline.{Headline};

use crate::check::run_check;
use crate::demo::run_demo;
use crate::generate::run_gen;
use crate::place::run_place;
use crate::request::{Request, request_of};
use crate::score::run_score;
use crate::seed::run_seed;
use crate::status::{Status, tell};
use fp_base::{Folder, Sink};
use std::alloc::Global;

/// Does what the words ask for.
fn serve<F: Folder, S: Sink>(alloc: Global, words: &[String], folder: &mut F, out: &mut S) -> Status
    ensures { EndsAs (asks (map string_bytes words.now)) (code_of result)
        (outside (F.held folder.old) (S.written out.old) (F.faults folder.old) (S.faults out.old))
        (outside (F.held folder.new) (S.written out.new) (F.faults folder.new) (S.faults out.new)) }
{
    match request_of(words) {
        None => tell(out, b"words\n", Status::BadWords),
        Some(Request::Seed { input, output }) => run_seed(alloc, input, output, folder, out),
        Some(Request::Score { input, output }) => run_score(alloc, input, output, folder, out),
        Some(
            Request::Place {
                input,
                output,
                cert,
                trials,
            },
        ) => run_place(alloc, input, output, cert, trials, folder, out),
        Some(
            Request::Check {
                input,
                output,
                cert,
            },
        ) => run_check(alloc, input, output, cert, folder, out),
        Some(Request::Gen { making, output }) => run_gen(alloc, making, output, folder, out),
        Some(
            Request::Demo {
                making,
                output,
                cert,
            },
        ) => run_demo(alloc, making, output, cert, folder, out),
    }
}

/// Does what the words ask for: seeds or places the cells of an input file, or scores an output file, or checks it by a certificate, or makes an
/// input, which it writes or places. What is written, the output file and then a certificate, is whole before the report is put. It answers the
/// exit status:
/// 0 where it is done, 1 for want of memory, 2 where the words are no request, 3 where a file to be read is not held, too long or
/// not in its grammar, 4 where neither first fit of the input stands, 5 where the output file breaks a rule or a condition of a check is
/// false, and 6 where the folder's or the sink's faults rose.
pub fn run<F: Folder, S: Sink>(alloc: Global, words: &[String], folder: &mut F, out: &mut S) -> u8
    ensures ends { EndsAs (asks (map string_bytes words.now)) result
        (outside (F.held folder.old) (S.written out.old) (F.faults folder.old) (S.faults out.old))
        (outside (F.held folder.new) (S.written out.new) (F.faults folder.new) (S.faults out.new)) }
    // A placement that is done, of an input or of one that was made, read back from its files, obeys every rule of the contest; its score, which is printed, is at most the
    // seed's and every trial's; each row and the terminals are the best, as the written duals and prices show, and a check says yes.
    ensures headline { Headline (asks (map string_bytes words.now)) result
        (outside (F.held folder.old) (S.written out.old) (F.faults folder.old) (S.faults out.old))
        (outside (F.held folder.new) (S.written out.new) (F.faults folder.new) (S.faults out.new)) }
    // Where the folder tells its files and no device fails, the status is the one that the words and the files owe, or memory ran out.
    ensures complete { (files : Files) (status : ℕ)
        → F.held folder.old ≡ Some files → IsOwed (asks (map string_bytes words.now)) files status
        → (Rose (F.faults folder.old) (F.faults folder.new) → ⊥) → (Rose (S.faults out.old) (S.faults out.new) → ⊥)
        → (result ≡ status) ⊎ (result ≡ 1) }
    // The text of an input that is made reads as its problem, which has so many cells and as many nets, and is short enough to be read as a
    // file; so no input that is made is refused.
    ensures generated { (making : Making) → IsMaking making → ReadsAsMade making.number making.cells making.percent }
    // What a file says, told by reading it from left to right, is what the grammars say.
    ensures readings { ReadingsAgree }
{
    serve(alloc, words, folder, out).code()
}
