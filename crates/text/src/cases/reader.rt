// Reading the next case of a text.
ghost use Rattle.std.specs.Prelude.{◌≡◌, ◌<◌, true, false, length, is_some, IfOk, IfErr, Some, None, Ok, Err, MatchResult};
ghost use Rattle.std.specs.Option.{option_map};
ghost use Rattle.text.specs.Gives.{Finds};
ghost use Rattle.text.specs.Keywords.{known};
ghost use Rattle.text.specs.Place.{said_of};
ghost use Rattle.text.specs.Reader.{left, GoesOn, skipped, pass_over_from, rest_of, numbered, due_line, read_line, said, next_said};

use super::Cases;
use crate::case::Case;
use crate::fault::{Keyword, Problem, TextFault};
use crate::words::{FromLine, SPACE, cut};
use std::alloc::Global;

const LINE_FEED: u8 = b'\n';

const COMMENT: u8 = b'#';

// Whether a line says nothing: a comment, and between cases an empty line.
// `between` is a flag, here and in `pass_over`, as the definitions of both have it.
fn is_skipped(line: &[u8], between: bool) -> bool
    ensures { result ≡ skipped between line.now }
{
    match line {
        [] => between,
        [first, ..] => *first == COMMENT,
    }
}

// Whether the bytes are some keyword's.
fn is_known(word: &[u8]) -> bool
    ensures { result ≡ known word.now }
{
    Keyword::ALL.iter().any(|keyword| keyword.spells(word))
}

// What stands behind the keyword that is due.
fn behind_keyword(due: Keyword, line: &[u8]) -> Result<&[u8], Problem>
    ensures { MatchResult result (λ rest. rest_of due line.now ≡ Ok rest.now) (λ p. rest_of due line.now ≡ Err p) }
{
    let (word, rest) = cut(line, SPACE);
    if due.spells(word) {
        Ok(rest)
    } else if is_known(word) {
        Err(Problem::Expected(due))
    } else {
        Err(Problem::UnknownLine)
    }
}

impl<'a> Cases<'a> {
    /// The cases of the text, from its first line on.
    pub fn new(text: &'a [u8]) -> Cases<'a>
        ensures { result ≡ left text.now 0 }
    {
        Cases {
            rest: text,
            line: 0,
        }
    }

    // Passes over the lines that say nothing. No `for` over an iterator of lines: it would take the line that ends it.
    fn pass_over(&mut self, between: bool)
        ensures { self.new ≡ pass_over_from between self.old }
    {
        while !self.rest.is_empty() {
            let (line, after) = cut(self.rest, LINE_FEED);
            if !is_skipped(line, between) {
                return;
            }
            self.rest = after;
            self.line += 1;
        }
    }

    // What was read of the last line, or the problem with that line.
    fn here<T>(&self, read: Result<T, Problem>) -> Result<T, TextFault>
        ensures { result ≡ numbered self.now.number read }
    {
        let line = self.line;
        read.map_err(|problem| TextFault { line, problem })
    }

    // Steps past the next line that is no comment, and gives what stands behind the keyword that is due.
    fn due(&mut self, keyword: Keyword) -> Result<&'a [u8], TextFault>
        ensures line { MatchResult result (λ rest. due_line keyword self.old ≡ Ok (rest.now, self.new)) (λ e. due_line keyword self.old ≡ Err e) }
        ensures on { GoesOn self.old self.new }
        ensures at { IfErr result (λ e. e.line ≡ self.new.number) }
    {
        self.pass_over(false);
        if self.rest.is_empty() {
            return self.here(Err(Problem::EndMissing));
        }
        let (line, after) = cut(self.rest, LINE_FEED);
        self.rest = after;
        self.line += 1;
        self.here(behind_keyword(keyword, line))
    }

    // What the next line says behind the keyword that is due.
    fn read<T: FromLine>(&mut self, heap: Global, keyword: Keyword) -> Result<T, TextFault>
        ensures finds { Finds (read_line keyword T.meaning self.old) (λ v. (T.said v, self.new)) result }
        ensures on { GoesOn self.old self.new }
        ensures at { IfErr result (λ e. e.line ≡ self.new.number) }
    {
        let content = self.due(keyword)?;
        self.here(T::from_line(heap, content))
    }

    // The case that begins with the next line.
    #[tactic(auto, using(crate::proofs::Going::goes_on_then))]
    fn read_case(&mut self, heap: Global) -> Result<Case, TextFault>
        ensures finds { Finds (said self.old) (λ v. (said_of v, self.new)) result }
        ensures on { GoesOn self.old self.new }
        ensures at { IfErr result (λ e. e.line ≡ self.new.number) }
    {
        let name = self.read(heap, Keyword::Case)?;
        let settings = self.read(heap, Keyword::Set)?;
        let retain = self.read(heap, Keyword::Retain)?;
        let tables = self.read(heap, Keyword::Tables)?;
        let tree = self.read(heap, Keyword::Tree)?;
        let calls = self.read(heap, Keyword::Calls)?;
        self.read::<()>(heap, Keyword::End)?;
        Ok(Case {
            name,
            settings,
            retain,
            tables,
            tree,
            calls,
        })
    }

    /// Reads the next case, if there is one; or says what is wrong with the first line that is not as it should be, and then stands behind it.
    pub fn next_case(&mut self, heap: Global) -> Result<Option<Case>, TextFault>
        ensures finds { Finds (next_said self.old) (option_map (λ v. (said_of v, self.new))) result }
        ensures shorter { IfOk result (λ found. is_some found ≡ true → length self.new.lines < length self.old.lines) }
        ensures on { GoesOn self.old self.new }
        ensures at { IfErr result (λ e. e.line ≡ self.new.number) }
    {
        self.pass_over(true);
        if self.rest.is_empty() {
            return Ok(None);
        }
        Ok(Some(self.read_case(heap)?))
    }
}
