//! The tokens of a text, one after the other, and what a grammar asks of the next one.

ghost use Rattle.std.specs.Prelude.{◌≡◌, ◌≤◌, ◌<◌, ◌≢◌, ℕ, ◌^◌, length, slice_index, slice_range, IfSome, IfOk, IsErrOf};
ghost use Rattle.std.specs.List.{list_all};
ghost use Rattle.fp_text.specs.Words.{is_blank, IsToken, AreTokens};
ghost use Rattle.fp_text.specs.Numbers.{is_name, is_name_byte};
ghost use Rattle.fp_text.specs.Reading.{Ends, whole, Gives, begins, word_next, keyword_next, name_next, number_next, end_next};
ghost use Rattle.fp_text.specs.Cursor.{Advances, word_at, word_of};

use crate::fault::{Kind, TextFault};
use crate::numbers::number;
use std::marker::Model;

/// The greatest number of a text.
const GREATEST: u64 = 1 << 30;

/// The place of a token in its source: from `start` up to but not with `end`, in bytes from 0.
#[derive(Clone, Copy, Debug, PartialEq, Eq)]
pub struct Token {
    pub start: u64,
    pub end: u64,
}

/// A token with its bytes, and where it begins in its source.
#[derive(Clone, Copy, Debug)]
pub struct Word<'a> {
    pub at: u64,
    pub text: &'a [u8],
}

/// A cursor over the tokens of a text: its maximal runs of bytes that are no blanks. A blank is a
/// space, a tab, a carriage return or a line feed. Contracts see the text and the tokens that are
/// left.
#[derive(Drop)]
pub struct Tokens<'a> {
    source: &'a [u8],
    place: usize,
}

impl<'a> Model for Tokens<'a> {
    ghost use Rattle.std.specs.Prelude.{◌≤◌, length, drop};
    ghost use Rattle.fp_text.specs.Words.{words_from, IsEdge};
    ghost use Rattle.fp_text.specs.Numbers.{is_name, is_name_byte};
    ghost use Rattle.fp_text.specs.Reading.{Ends, Left};

    ghost Value = { Left };

    ghost view = { λ t.
        record { bytes = t.source.now; words = words_from t.place (drop t.place t.source.now) } };

    ghost invariant = { λ t. (t.place ≤ length t.source.now) × IsEdge t.source.now t.place };
}

fn is_blank(byte: u8) -> bool
    ensures { result ≡ is_blank byte }
{
    byte == b' ' || byte == b'\t' || byte == b'\r' || byte == b'\n'
}

/// The end of the run of blanks, or of other bytes, from `from` on.
fn run_end(bytes: &[u8], from: usize, blank: bool) -> usize
    requires { from ≤ length bytes.now }
    ensures behind { from ≤ result }
    ensures within { result ≤ length bytes.now }
    ensures run { (k : ℕ) → from ≤ k → k < result → is_blank (slice_index bytes.now k) ≡ blank }
    ensures stops { result < length bytes.now → is_blank (slice_index bytes.now result) ≢ blank }
{
    let mut place = from;
    while place < bytes.len() && is_blank(bytes[place]) == blank {
        place += 1;
    }
    place
}

impl<'a> Tokens<'a> {
    /// The tokens of these bytes, of which none is read yet.
    pub fn new(bytes: &'a [u8]) -> Tokens<'a>
        ensures whole { result ≡ whole bytes.now }
        ensures tokens { AreTokens bytes.now result.words }
    {
        Tokens {
            source: bytes,
            place: 0,
        }
    }

    /// The next token, none exactly at the end of the text.
    pub fn next(&mut self) -> Option<Token>
        ensures advances { Advances self.old result self.new }
        ensures token { IfSome result (λ t. IsToken self.old.bytes (word_at self.old.bytes t)) }
        ensures bytes { self.new.bytes ≡ self.old.bytes }
    {
        let start = run_end(self.source, self.place, true);
        let end = run_end(self.source, start, false);
        self.place = end;
        if start == end {
            return None;
        }
        Some(Token {
            start: start as u64,
            end: end as u64,
        })
    }

    /// The bytes of a token of this text. Any other place of the text serves too.
    pub fn bytes(&self, token: Token) -> &'a [u8]
        requires order { token.start ≤ token.end }
        requires within { token.end ≤ length self.now.bytes }
        ensures { result.now ≡ slice_range self.now.bytes token.start token.end }
    {
        &self.source[token.start as usize..token.end as usize]
    }

    /// The number of bytes of the text.
    pub fn length(&self) -> u64
        ensures { result ≡ length self.now.bytes }
    {
        self.source.len() as u64
    }

    /// The next token with its bytes. `Ended`, at the length of the text, where there is none.
    #[tactic(auto, unfolding(crate::specs::Reading::word_next))]
    pub fn word(&mut self) -> Result<Word<'a>, TextFault>
        ensures gives { Gives word_of result self.new (word_next self.old) }
        ensures memory { IsErrOf result TextFault.Memory → ⊥ }
    {
        match self.next() {
            Some(token) => Ok(Word {
                at: token.start,
                text: self.bytes(token),
            }),
            None => Err(TextFault::Wrong {
                at: self.length(),
                kind: Kind::Ended,
            }),
        }
    }

    /// The place of the next token, which must be this keyword, else `Word` there. `Ended`, at the
    /// length of the text, where there is no token.
    #[tactic(auto, unfolding(crate::specs::Reading::keyword_next))]
    pub fn keyword(&mut self, keyword: &[u8]) -> Result<u64, TextFault>
        ensures gives { Gives (λ at. at) result self.new (keyword_next keyword.now self.old) }
        ensures memory { IsErrOf result TextFault.Memory → ⊥ }
    {
        let word = self.word()?;
        if word.text == keyword {
            Ok(word.at)
        } else {
            Err(TextFault::Wrong {
                at: word.at,
                kind: Kind::Word,
            })
        }
    }

    /// Whether the next token is this keyword; nothing is read.
    pub fn begins(&self, keyword: &[u8]) -> bool
        ensures { result ≡ begins keyword.now self.now }
    {
        let mut ahead = Tokens {
            source: self.source,
            place: self.place,
        };
        match ahead.next() {
            Some(token) => ahead.bytes(token) == keyword,
            None => false,
        }
    }

    /// The next token, which must be a name: 1 to 255 bytes from 33 to 126. Else `Name` there.
    /// `Ended`, at the length of the text, where there is no token.
    #[tactic(auto, unfolding(crate::specs::Reading::name_next))]
    pub fn name(&mut self) -> Result<Word<'a>, TextFault>
        ensures gives { Gives word_of result self.new (name_next self.old) }
        ensures memory { IsErrOf result TextFault.Memory → ⊥ }
    {
        let word = self.word()?;
        if is_name(word.text) {
            Ok(word)
        } else {
            Err(TextFault::Wrong {
                at: word.at,
                kind: Kind::Name,
            })
        }
    }

    /// The next token, which must be a number from `least` to `most`. `Number` there where it is
    /// none or above 2^30, else `Range` where it is below `least`, and the kind `above` where it is
    /// above `most`. `Ended`, at the length of the text, where there is no token.
    #[tactic(auto, unfolding(crate::specs::Reading::number_next))]
    pub fn number(&mut self, least: u64, most: u64, above: Kind) -> Result<u64, TextFault>
        ensures gives { Gives (λ n. n) result self.new (number_next least most above self.old) }
        ensures range { IfOk result (λ n. (least ≤ n) × (n ≤ most) × (n ≤ 2 ^ 30)) }
        ensures memory { IsErrOf result TextFault.Memory → ⊥ }
    {
        let word = self.word()?;
        match number(word.text, GREATEST) {
            Err(_) => Err(TextFault::Wrong {
                at: word.at,
                kind: Kind::Number,
            }),
            Ok(value) if value < least => Err(TextFault::Wrong {
                at: word.at,
                kind: Kind::Range,
            }),
            Ok(value) if most < value => Err(TextFault::Wrong {
                at: word.at,
                kind: above,
            }),
            Ok(value) => Ok(value),
        }
    }

    /// Nothing more: `Trailing` at the next token, where there is one.
    #[tactic(auto, unfolding(crate::specs::Reading::end_next))]
    pub fn end(&mut self) -> Result<(), TextFault>
        ensures ends { Ends result self.new (end_next self.old) }
        ensures memory { IsErrOf result TextFault.Memory → ⊥ }
    {
        match self.next() {
            None => Ok(()),
            Some(token) => Err(TextFault::Wrong {
                at: token.start,
                kind: Kind::Trailing,
            }),
        }
    }
}

/// Whether the token is a name: 1 to 255 bytes from 33 to 126.
pub fn is_name(token: &[u8]) -> bool
    ensures { result ≡ is_name token.now }
{
    !token.is_empty() && token.len() <= 255 && are_name_bytes(token)
}

fn are_name_bytes(token: &[u8]) -> bool
    ensures { result ≡ list_all is_name_byte token.now }
{
    token.iter().all(|byte| 33 <= *byte && *byte <= 126)
}
