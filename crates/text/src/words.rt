// A line's words, apart by spaces, and numbers among them.
ghost use Rattle.std.specs.Prelude.{◌≡◌, ℕ, ◌<◌, List, ◌∷◌, length, vec_items, Result};
ghost use Rattle.text.specs.declared.fault.Problem.{Problem};
ghost use Rattle.text.specs.Gives.{Gives};
ghost use Rattle.text.specs.Lines.{nothing_of};
ghost use Rattle.text.specs.Split.{before, behind, split, words, each};
ghost use Rattle.text.specs.Numbers.{with_digit, number, numbers, ReadBack};

use crate::fault::Problem;
use std::alloc::Global;

pub const SPACE: u8 = b' ';

// The bytes before the first separator, and those behind it.
pub fn cut(bytes: &[u8], separator: u8) -> (&[u8], &[u8])
    ensures front { result.0.now ≡ before separator bytes.now }
    ensures back { result.1.now ≡ behind separator bytes.now }
    ensures shorter { 0 < length bytes.now → length result.1.now < length bytes.now }
    ensures splits { 0 < length bytes.now → split separator bytes.now ≡ result.0.now ∷ split separator result.1.now }
{
    match bytes.iter().position(|byte| *byte == separator) {
        Some(i) => (&bytes[..i], &bytes[i + 1..]),
        None => (bytes, &[]),
    }
}

// Neither `TryFrom<&[u8]>` nor `FromStr`: for `u32` they are std's to write, and neither has a ghost meaning or takes a heap.
/// What a word of a line may stand for.
pub trait FromWord {
    ghost meaning: { List ℕ → Result Self Problem };

    /// Reads the word, or says what is wrong with it.
    fn from_word(word: &[u8]) -> Result<Self, Problem>
    where
        Self: Sized,
        ensures { result ≡ meaning word.now };
}

// The number with one more digit behind it.
fn with_digit(n: u32, byte: u8) -> Result<u32, Problem>
    ensures { result ≡ with_digit n byte }
{
    if !byte.is_ascii_digit() {
        return Err(Problem::NotANumber);
    }
    u32::try_from(u64::from(n) * 10 + u64::from(byte - b'0')).map_err(|_| Problem::TooLarge)
}

// The library's `parse` also takes a sign, and doesn't say which of the two problems a word has.
impl FromWord for u32 {
    ghost meaning = { number };

    fn from_word(word: &[u8]) -> Result<u32, Problem> {
        if word.is_empty() {
            return Err(Problem::NotANumber);
        }
        let mut n = 0;
        for byte in word {
            n = with_digit(n, *byte)?;
        }
        Ok(n)
    }
}

/// What the content of a line, behind its keyword, may stand for.
pub trait FromLine {
    ghost Said: { Type 0 };

    ghost meaning: { List ℕ → Result Said Problem };

    ghost said: { Self → Said };

    /// Reads the content, or says what is wrong with it.
    fn from_line(heap: Global, content: &[u8]) -> Result<Self, Problem>
    where
        Self: Sized,
        ensures { Gives (meaning content.now) said result };
}

// Nothing: no content.
impl FromLine for () {
    ghost Said = { Unit {0} };

    ghost meaning = { nothing_of };

    ghost said = { λ v. v };

    fn from_line(_heap: Global, content: &[u8]) -> Result<(), Problem> {
        if content.is_empty() {
            Ok(())
        } else {
            Err(Problem::WrongCount)
        }
    }
}

// The words one after another.
impl<T: FromWord + Drop> FromLine for Vec<T> {
    ghost Said = { List T };

    ghost meaning = { λ content. each T.meaning (words content) };

    ghost said = { λ v. v.items };

    fn from_line(heap: Global, content: &[u8]) -> Result<Vec<T>, Problem> {
        let mut read = Vec::new(heap);
        let mut rest = content;
        // No `for` over `content.split(..)`: in a generic function an iterator with a closure or a function gets no proof.
        while !rest.is_empty() {
            let (word, after) = cut(rest, SPACE);
            if !word.is_empty() {
                read.push(T::from_word(word)?)?;
            }
            rest = after;
        }
        Ok(read)
    }
}

/// Reads the decimal numbers of a line, apart by spaces.
pub fn read_numbers(heap: Global, line: &[u8]) -> Result<Vec<u32>, Problem>
    ensures gives { Gives (numbers line.now) vec_items result }
    ensures back { ReadBack }
{
    Vec::from_line(heap, line)
}
