ghost use Rattle.std.specs.Prelude.{◌≡◌, ℕ, ◌≤◌, List, ◌++◌, length, take, not, count_by, IfErr, MatchResult, ◌≢◌};
ghost use Rattle.std.specs.List.{position_or_len, suffix_len};
ghost use Rattle.answers.specs.Differing.{is_line_feed, line_around, shared, Differs};

const LINE_FEED: u8 = b'\n';

/// A line of answers that is not the stored one: how many lines before it agree, and both lines.
#[derive(Drop)]
pub struct Difference<'a> {
    pub before: usize,
    pub stored: &'a [u8],
    pub found: &'a [u8],
}

/// What is left of the stored text behind the text found, or the first line that differs.
pub fn agreed<'a>(stored: &'a [u8], found: &'a [u8]) -> Result<&'a [u8], Difference<'a>>
    ensures rest { MatchResult result (λ rest. stored.now ≡ found.now ++ rest.now) (λ _. ((rest : List ℕ) → stored.now ≢ found.now ++ rest)) }
    ensures first { IfErr result (Differs stored.now found.now) }
{
    let rest = stored.strip_prefix(found);
    rest.ok_or_else(|| first_difference(stored, found))
}

/// The first line that differs.
fn first_difference<'a>(stored: &'a [u8], found: &'a [u8]) -> Difference<'a>
    ensures before { result.before ≡ count_by is_line_feed (take (shared stored.now found.now) found.now) }
    ensures lines { (result.stored.now ≡ line_around stored.now (shared stored.now found.now)) × (result.found.now ≡ line_around found.now (shared stored.now found.now)) }
{
    let place = shared(stored, found);
    Difference {
        before: line_feeds(&found[..place]),
        stored: line_at(stored, place),
        found: line_at(found, place),
    }
}

/// How many bytes two texts begin with alike.
fn shared(a: &[u8], b: &[u8]) -> usize
    ensures value { result ≡ shared a.now b.now }
    ensures within { (result ≤ length a.now) × (result ≤ length b.now) }
{
    a.iter().zip(b).take_while(|(x, y)| x == y).count()
}

/// How many line feeds a text has.
fn line_feeds(text: &[u8]) -> usize
    ensures { result ≡ count_by is_line_feed text.now }
{
    text.iter().filter(|b| **b == LINE_FEED).count()
}

/// The line that this place of a text is in.
#[tactic(auto, using(crate::proofs::Comparing::part_around))]
fn line_at(text: &[u8], place: usize) -> &[u8]
    requires { place ≤ length text.now }
    ensures { result.now ≡ line_around text.now place }
{
    let (before, behind) = text.split_at(place);
    &text[place - last_line(before)..place + first_line(behind)]
}

/// How many bytes stand before the first line feed of a text.
fn first_line(text: &[u8]) -> usize
    ensures value { result ≡ position_or_len is_line_feed text.now }
    ensures within { result ≤ length text.now }
{
    text.iter().take_while(|b| **b != LINE_FEED).count()
}

/// How many stand behind its last.
fn last_line(text: &[u8]) -> usize
    ensures value { result ≡ suffix_len (λ b. not (is_line_feed b)) text.now }
    ensures within { result ≤ length text.now }
{
    text.iter().rev().take_while(|b| **b != LINE_FEED).count()
}
