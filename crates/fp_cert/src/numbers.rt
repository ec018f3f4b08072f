//! The numbers of a certificate file, token by token.

ghost use Rattle.std.specs.Prelude.{◌≡◌, ◌<◌, ◌≤◌, ◌^◌, IfOk};
ghost use Rattle.fp_text.specs.Reading.{Gives};
ghost use Rattle.fp_text.specs.declared.fault.TextFault.TheVariants.{Wrong};
ghost use Rattle.fp_cert.specs.CertReading.{below_next, amount_next, signed_next, target_next, line_next};

use fp_base::Point;
use fp_text::{Kind, TextFault, Tokens, number, signed};

/// The greatest number that is no dual, price or score.
pub const NUMBER: u64 = 1 << 30;

/// The greatest dual, price and score.
const SHOWN: u64 = 1 << 60;

/// The greatest amount of a target's coordinate.
const TARGET: u64 = 1 << 32;

/// A fault at a place.
pub fn wrong(at: u64, kind: Kind) -> TextFault
    ensures { result ≡ Wrong at kind }
{
    TextFault::Wrong { at, kind }
}

/// The next token as a number below a count: `Number` where it is none or above 2^30, else `Range` where it is not below.
#[tactic(auto, unfolding(crate::specs::CertReading::below_next))]
pub fn below(count: u32, tokens: &mut Tokens<'_>) -> Result<u32, TextFault>
    ensures gives { Gives (λ n. n) result tokens.new (below_next count tokens.old) }
{
    let word = tokens.word()?;
    match number(word.text, NUMBER) {
        Ok(value) if value < u64::from(count) => Ok(value as u32),
        Ok(_) => Err(wrong(word.at, Kind::Range)),
        Err(_) => Err(wrong(word.at, Kind::Number)),
    }
}

/// The next token as a dual, a price or a score, else `Number`.
#[tactic(auto, unfolding(crate::specs::CertReading::amount_next))]
pub fn amount(tokens: &mut Tokens<'_>) -> Result<u64, TextFault>
    ensures { Gives (λ n. n) result tokens.new (amount_next tokens.old) }
{
    let word = tokens.word()?;
    number(word.text, SHOWN).or(Err(wrong(word.at, Kind::Number)))
}

/// The next token as a target's coordinate, else `Number`.
#[tactic(auto, unfolding(crate::specs::CertReading::signed_next))]
fn signed_number(tokens: &mut Tokens<'_>) -> Result<i64, TextFault>
    ensures { Gives (λ z. z) result tokens.new (signed_next tokens.old) }
{
    let word = tokens.word()?;
    signed(word.text, TARGET).or(Err(wrong(word.at, Kind::Number)))
}

/// The next two tokens as a target.
#[tactic(auto, unfolding(crate::specs::CertReading::target_next))]
pub fn target(tokens: &mut Tokens<'_>) -> Result<Point, TextFault>
    ensures { Gives (λ at. at) result tokens.new (target_next tokens.old) }
{
    let x = signed_number(tokens)?;
    let y = signed_number(tokens)?;
    Ok(Point { x, y })
}

/// The next two tokens as a keyword and a number from `least` to `most`, as `Tokens::number` reads it.
#[tactic(auto, unfolding(crate::specs::CertReading::line_next))]
pub fn number_line(
    tokens: &mut Tokens<'_>,
    keyword: &[u8],
    least: u64,
    most: u64,
    above: Kind,
) -> Result<u64, TextFault>
    ensures gives { Gives (λ n. n) result tokens.new (line_next keyword.now least most above tokens.old) }
    ensures range { IfOk result (λ n. (least ≤ n) × (n ≤ most) × (n ≤ 2 ^ 30)) }
{
    tokens.keyword(keyword)?;
    tokens.number(least, most, above)
}
