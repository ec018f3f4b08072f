//! The steps that several statements share.

ghost use Rattle.std.specs.Prelude.{◌≡◌, ◌≤◌, ◌^◌, true, false, Ok, Err, IfOk, if◌then◌else◌};
ghost use Rattle.fp_text.specs.Reading.{Gives, number_next};
ghost use Rattle.fp_contest_in.specs.Statements.{sizes_next};

use fp_text::{Kind, TextFault, Tokens, Word};

/// The greatest number that is read.
pub const GREATEST: u32 = 1 << 30;

/// The fault of that kind at that place.
pub fn wrong(at: u64, kind: Kind) -> TextFault
    ensures { result ≡ TextFault.Wrong at kind }
{
    TextFault::Wrong { at, kind }
}

/// The next token as a number from `least` to `most`; above it the fault is of the kind `above`.
pub fn number(tokens: &mut Tokens<'_>, least: u32, most: u32, above: Kind) -> Result<u32, TextFault>
    ensures gives { Gives (λ n. n) result tokens.new (number_next least most above tokens.old) }
    ensures range { IfOk result (λ n. (least ≤ n) × (n ≤ most) × (n ≤ 2 ^ 30)) }
{
    let value = tokens.number(u64::from(least), u64::from(most), above)?;
    Ok(value as u32)
}

/// Two sizes from 1.
#[tactic(auto, unfolding(crate::specs::Statements::sizes_next))]
pub fn sizes(tokens: &mut Tokens<'_>) -> Result<(u32, u32), TextFault>
    ensures gives { Gives (λ s. s) result tokens.new (sizes_next tokens.old) }
    ensures range { IfOk result (λ s. (1 ≤ s.0) × (s.0 ≤ 2 ^ 30) × (1 ≤ s.1) × (s.1 ≤ 2 ^ 30)) }
{
    let width = number(tokens, 1, GREATEST, Kind::Range)?;
    let height = number(tokens, 1, GREATEST, Kind::Range)?;
    Ok((width, height))
}

/// A name that is not there yet, else `Twice` at its token.
pub fn unless_there(name: Word<'_>, there: bool) -> Result<Word<'_>, TextFault>
    ensures new { there ≡ false → result ≡ Ok name.entry }
    ensures twice { there ≡ true → result ≡ Err (TextFault.Wrong name.entry.at Kind.Twice) }
{
    if there {
        Err(wrong(name.at, Kind::Twice))
    } else {
        Ok(name)
    }
}

/// The fault that is met behind a name, unless the name is there: then `Twice` at its token.
pub fn fault_behind(name: Word<'_>, there: bool, behind: TextFault) -> TextFault
    ensures { result ≡ if there then TextFault.Wrong name.entry.at Kind.Twice else behind }
{
    if there {
        wrong(name.at, Kind::Twice)
    } else {
        behind
    }
}
