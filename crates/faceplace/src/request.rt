//! What the words of the command line ask for.

ghost use Rattle.std.specs.Prelude.{◌≡◌, ◌≤◌, ◌^◌, ℕ, List, map, string_bytes, option_map, IfSome};
ghost use Rattle.faceplace.specs.Request.{Asked, Check, Gen, two_names, are_apart, number_in, three_names, with_trials, asks_placing, asks_checking, asks_making, asks_generating, with_making, asks_demo, asks_for, asks};
ghost use Rattle.faceplace.specs.Asked.{asked_of, AreFew, IsMaking, AsksFew};

use fp_text::number;

/// How many trials are made beside the first one, where it is not told.
pub const TRIALS: u32 = 3;

/// The most trials that may be asked for beside the first one.
const MOST_TRIALS: u64 = 8;

/// The greatest number of an input that is made.
const MOST_NUMBER: u64 = 1 << 30;

/// The most cells of an input that is made.
const MOST_CELLS: u64 = 100_000;

/// Up to what percentage the top die of an input that is made may be used, where it is not told, and at most.
const MOST_PERCENT: u32 = 80;

/// An input that is made.
#[derive(Clone, Copy, Debug, PartialEq, Eq)]
pub struct Making {
    /// What it is made from, up to 2^30.
    pub number: u32,
    /// How many cells it has, from 1 to 100,000.
    pub cells: u32,
    /// Up to what percentage its top die may be used, at most 80.
    pub percent: u32,
}

/// A request, by the names of its files as they stand in the words.
#[derive(Clone, Copy, Debug)]
pub enum Request<'a> {
    /// `seed IN OUT`: the first-fit placement of an input file is written to an output file.
    Seed {
        input: &'a str,
        output: &'a str,
    },
    /// `score IN OUT`: the verdict on an output file, and its score.
    Score {
        input: &'a str,
        output: &'a str,
    },
    /// `place IN OUT CERT [N]`: the best of at most N trials after the seed of an input file is written to an output file, and what shows
    /// it to a certificate.
    Place {
        input: &'a str,
        output: &'a str,
        cert: &'a str,
        trials: u32,
    },
    /// `check IN OUT CERT`: whether an output file is the answer of the run that a certificate shows, and the run is one that the input
    /// allows.
    Check {
        input: &'a str,
        output: &'a str,
        cert: &'a str,
    },
    /// `gen NUMBER CELLS OUT [PERCENT]`: an input is made and written.
    Gen {
        making: Making,
        output: &'a str,
    },
    /// `demo NUMBER CELLS OUT CERT [PERCENT]`: an input is made and its cells are placed, as by `place` in three trials.
    Demo {
        making: Making,
        output: &'a str,
        cert: &'a str,
    },
}

/// Two words, where there are two and they differ.
fn two_names(words: &[String]) -> Option<(&str, &str)>
    ensures { (make : List ℕ → List ℕ → Asked) → option_map (λ names. make names.0.now names.1.now) result ≡ two_names make (map string_bytes words.now) }
{
    match words {
        [first, second] => {
            let first = first.as_str();
            let second = second.as_str();
            if first == second {
                None
            } else {
                Some((first, second))
            }
        }
        _ => None,
    }
}

/// No two of three names are the same.
fn are_apart(first: &str, second: &str, third: &str) -> bool
    ensures { result ≡ are_apart first.now second.now third.now }
{
    first != second && first != third && second != third
}

/// The number of a word, from a least to a greatest one.
fn number_in(word: &str, least: u64, most: u64) -> Option<u32>
    requires { most ≤ 2 ^ 30 }
    ensures gives { result ≡ number_in least most word.now }
    ensures least { IfSome result (λ number. least ≤ number) }
    ensures most { IfSome result (λ number. number ≤ most) }
{
    let number = number(word.as_bytes(), most).ok()?;
    if least <= number {
        Some(number as u32)
    } else {
        None
    }
}

/// A placement, where the names are apart and a number of trials is told.
fn with_trials<'a>(
    input: &'a str,
    output: &'a str,
    cert: &'a str,
    trials: Option<u32>,
) -> Option<Request<'a>>
    requires { IfSome trials AreFew }
    ensures gives { option_map asked_of result ≡ with_trials input.now output.now cert.now trials }
    ensures few { IfSome result AsksFew }
{
    let trials = trials?;
    if are_apart(input, output, cert) {
        Some(Request::Place {
            input,
            output,
            cert,
            trials,
        })
    } else {
        None
    }
}

/// The placement that words ask for.
fn asks_placing(words: &[String]) -> Option<Request<'_>>
    ensures gives { option_map asked_of result ≡ asks_placing (map string_bytes words.now) }
    ensures few { IfSome result AsksFew }
{
    match words {
        [input, output, cert] => with_trials(
            input.as_str(),
            output.as_str(),
            cert.as_str(),
            Some(TRIALS),
        ),
        [input, output, cert, trials] => with_trials(
            input.as_str(),
            output.as_str(),
            cert.as_str(),
            number_in(trials.as_str(), 1, MOST_TRIALS),
        ),
        _ => None,
    }
}

/// A check, where the names are apart.
fn checking<'a>(input: &'a str, output: &'a str, cert: &'a str) -> Option<Request<'a>>
    ensures gives { option_map asked_of result ≡ three_names Check input.now output.now cert.now }
    ensures few { IfSome result AsksFew }
{
    if are_apart(input, output, cert) {
        Some(Request::Check {
            input,
            output,
            cert,
        })
    } else {
        None
    }
}

/// The check that words ask for.
fn asks_checking(words: &[String]) -> Option<Request<'_>>
    ensures gives { option_map asked_of result ≡ asks_checking (map string_bytes words.now) }
    ensures few { IfSome result AsksFew }
{
    match words {
        [input, output, cert] => checking(input.as_str(), output.as_str(), cert.as_str()),
        _ => None,
    }
}

/// The input that words ask for, with a percentage that is told.
fn making_of(number: &str, cells: &str, percent: Option<u32>) -> Option<Making>
    requires { IfSome percent (λ percent. percent ≤ 80) }
    ensures gives { result ≡ asks_making number.now cells.now percent }
    ensures range { IfSome result IsMaking }
{
    let number = number_in(number, 0, MOST_NUMBER)?;
    let cells = number_in(cells, 1, MOST_CELLS)?;
    let percent = percent?;
    Some(Making {
        number,
        cells,
        percent,
    })
}

/// The percentage of a word.
fn percent_of(word: &str) -> Option<u32>
    ensures gives { result ≡ number_in 0 80 word.now }
    ensures few { IfSome result (λ percent. percent ≤ 80) }
{
    number_in(word, 0, u64::from(MOST_PERCENT))
}

/// An input that is written.
fn generating<'a>(making: Option<Making>, output: &'a str) -> Option<Request<'a>>
    requires { IfSome making IsMaking }
    ensures gives { option_map asked_of result ≡ option_map (λ m. Gen m output.now) making }
    ensures few { IfSome result AsksFew }
{
    let making = making?;
    Some(Request::Gen { making, output })
}

/// The input that words ask for.
fn asks_generating(words: &[String]) -> Option<Request<'_>>
    ensures gives { option_map asked_of result ≡ asks_generating (map string_bytes words.now) }
    ensures few { IfSome result AsksFew }
{
    match words {
        [number, cells, output] => generating(
            making_of(number.as_str(), cells.as_str(), Some(MOST_PERCENT)),
            output.as_str(),
        ),
        [number, cells, output, percent] => generating(
            making_of(
                number.as_str(),
                cells.as_str(),
                percent_of(percent.as_str()),
            ),
            output.as_str(),
        ),
        _ => None,
    }
}

/// An input that is placed, where the names differ.
fn with_making<'a>(making: Option<Making>, output: &'a str, cert: &'a str) -> Option<Request<'a>>
    requires { IfSome making IsMaking }
    ensures gives { option_map asked_of result ≡ with_making making output.now cert.now }
    ensures few { IfSome result AsksFew }
{
    let making = making?;
    if output == cert {
        None
    } else {
        Some(Request::Demo {
            making,
            output,
            cert,
        })
    }
}

/// The placement of an input that words ask for.
fn asks_demo(words: &[String]) -> Option<Request<'_>>
    ensures gives { option_map asked_of result ≡ asks_demo (map string_bytes words.now) }
    ensures few { IfSome result AsksFew }
{
    match words {
        [number, cells, output, cert] => with_making(
            making_of(number.as_str(), cells.as_str(), Some(MOST_PERCENT)),
            output.as_str(),
            cert.as_str(),
        ),
        [number, cells, output, cert, percent] => with_making(
            making_of(
                number.as_str(),
                cells.as_str(),
                percent_of(percent.as_str()),
            ),
            output.as_str(),
            cert.as_str(),
        ),
        _ => None,
    }
}

/// What a command asks for, by the words that follow it.
fn asks_for<'a>(command: &str, words: &'a [String]) -> Option<Request<'a>>
    ensures gives { option_map asked_of result ≡ asks_for command.now (map string_bytes words.now) }
    ensures few { IfSome result AsksFew }
{
    if command == "seed" {
        let (input, output) = two_names(words)?;
        Some(Request::Seed { input, output })
    } else if command == "score" {
        let (input, output) = two_names(words)?;
        Some(Request::Score { input, output })
    } else if command == "place" {
        asks_placing(words)
    } else if command == "check" {
        asks_checking(words)
    } else if command == "gen" {
        asks_generating(words)
    } else if command == "demo" {
        asks_demo(words)
    } else {
        None
    }
}

/// The request that the words ask for; none where they ask for nothing.
pub fn request_of(words: &[String]) -> Option<Request<'_>>
    ensures gives { option_map asked_of result ≡ asks (map string_bytes words.now) }
    ensures few { IfSome result AsksFew }
{
    let (command, others) = words.split_first()?;
    asks_for(command.as_str(), others)
}
