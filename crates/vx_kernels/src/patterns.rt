// Patterns of LIKE: made once of a text, and matched with many.
ghost use Rattle.std.specs.Prelude.{◌≡◌, ◌≤◌, Bool, true, false, List, [], ◌∷◌, ℕ, length, map, MatchOption, IfOk, IfSome};
ghost use Rattle.std.specs.Str.{chars};
ghost use Rattle.std.specs.String.{string_bytes};
ghost use Rattle.vx_dtype.specs.Like.{Wildcard, plain_wildcard, wildcards, matches, some_suffix, text_matches};
ghost use Rattle.vx_kernels.specs.Patterns.{meaning_view, part_view, letter, letters, is_run, takes, IsNeedle, IsNeedleOf, NeedlesFit, AreNeedles, IsPattern, IsReach};

use std::alloc::Global;
use vx_dtype::Mem;

/// What a character of a pattern means.
#[derive(Clone, Copy)]
enum Meaning {
    /// It matches any run of characters.
    AnyRun,
    /// It matches any one character.
    AnyOne,
    /// It matches this character.
    Just(char),
}

/// The characters that stand behind a `%` of a pattern, up to the next `%` or `_`, and whether they are the pattern's last. A text
/// is searched for them as a whole, so that it isn't begun again at each of its characters.
#[derive(Drop)]
struct Needle {
    text: String,
    last: bool,
}

/// A part of a pattern.
#[derive(Drop)]
enum Part {
    /// Matches any run of characters; these stand behind it.
    AnyRun(Box<Needle>),
    /// Matches any one character.
    AnyOne,
    /// Matches this character.
    Just(char),
}

/// A pattern in its parts, which texts are matched with, with or without regard to the case of ASCII letters.
#[derive(Drop)]
pub(crate) struct Pattern {
    parts: Vec<Part>,
    fold_case: bool,
}

impl Pattern {
    /// The pattern that a text spells.
    pub(crate) fn new(alloc: Global, text: &str, fold_case: bool) -> Mem<Pattern>
        ensures { IfOk result (λ pattern. IsPattern fold_case text.now pattern) }
    {
        let parts = parts_of(alloc, text, fold_case)?;
        Ok(Pattern { parts, fold_case })
    }

    /// Whether a text matches the pattern. Where the pattern has no `%`, it looks at the text's characters in order, up to the
    /// first that doesn't match. Else it goes back to behind the last `%` that it has come to alone, and to none before. What stands
    /// behind a `%` is searched for as a whole, up to the next `%` or `_`: so a pattern without `_` takes time in proportion to the
    /// text and the pattern. Any other takes time in proportion to their product at most. Where case is folded, the text is first
    /// copied with small letters; else no memory is taken.
    pub(crate) fn matches(&self, alloc: Global, text: &str) -> Mem<bool>
        ensures { (fold_case : Bool) (spelled : List ℕ) → IsPattern fold_case spelled self.now → IfOk result (λ found. found ≡ text_matches fold_case text.now spelled) }
    {
        if !self.fold_case {
            return Ok(parts_match(self.parts.as_slice(), text));
        }
        let small = small_letters(alloc, text)?;
        Ok(parts_match(self.parts.as_slice(), small.as_str()))
    }
}

/// A text with its capital ASCII letters as small ones.
fn small_letters(alloc: Global, text: &str) -> Mem<String>
    ensures { IfOk result (λ made. chars (string_bytes made) ≡ letters true text.now) }
{
    let mut made = String::with_capacity(alloc, text.len())?;
    let mut rest = text;
    while let Some((c, behind)) = front(rest, true) {
        made.push(c)?;
        rest = behind;
    }
    Ok(made)
}

/// Whether the parts of a pattern match the characters of a text.
fn parts_match(parts: &[Part], text: &str) -> bool
    ensures { NeedlesFit parts.now [] → result ≡ matches (map part_view parts.now) (chars text.now) }
{
    match reach_of(parts, text) {
        Reach::Matched => true,
        Reach::Run(needle, behind, rest) => some_suffix_matches(needle, behind, rest),
        Reach::TextEnds => false,
        Reach::Differs => false,
    }
}

/// The parts that a text spells.
fn parts_of(alloc: Global, text: &str, fold_case: bool) -> Mem<Vec<Part>>
    ensures parts { IfOk result (λ parts. map part_view parts.items ≡ wildcards (letters fold_case text.now)) }
    ensures needles { IfOk result (λ parts. NeedlesFit parts.items []) }
{
    let mut parts = Vec::with_capacity(alloc, text.len())?;
    let mut rest = text;
    while let Some((c, behind)) = front(rest, fold_case) {
        let (meaning, after) = meaning_at(c, behind, fold_case);
        parts.push(part_of(alloc, meaning, after, fold_case)?)?;
        rest = after;
    }
    Ok(parts)
}

/// The part with a meaning, before the text that stands behind it.
fn part_of(alloc: Global, meaning: Meaning, behind: &str, fold_case: bool) -> Mem<Part>
    ensures part { IfOk result (λ part. part_view part ≡ meaning_view meaning) }
    ensures needle { IfOk result (λ part. IsNeedleOf part (wildcards (letters fold_case behind.now))) }
{
    match meaning {
        Meaning::AnyRun => {
            let needle = needle_of(alloc, behind, fold_case)?;
            Ok(Part::AnyRun(Box::new(alloc, needle)?))
        }
        Meaning::AnyOne => Ok(Part::AnyOne),
        Meaning::Just(c) => Ok(Part::Just(c)),
    }
}

/// The characters that a text spells, up to its first `%` or `_`.
fn needle_of(alloc: Global, text: &str, fold_case: bool) -> Mem<Needle>
    ensures { IfOk result (λ needle. IsNeedle needle (wildcards (letters fold_case text.now))) }
{
    let mut found = String::new(alloc);
    let mut rest = text;
    while let Some((c, behind)) = front(rest, fold_case) {
        let (meaning, after) = meaning_at(c, behind, fold_case);
        match meaning {
            Meaning::Just(d) => found.push(d)?,
            _ => {
                return Ok(Needle {
                    text: found,
                    last: false,
                });
            }
        }
        rest = after;
    }
    Ok(Needle {
        text: found,
        last: true,
    })
}

/// What the character at the beginning means, and the text behind it. A `\` makes the next character stand for itself, and a last one stands for itself.
fn meaning_at(c: char, behind: &str, fold_case: bool) -> (Meaning, &str)
    ensures meaning { wildcards (c ∷ letters fold_case behind.now) ≡ meaning_view result.0 ∷ wildcards (letters fold_case result.1.now) }
    ensures forward { length (letters fold_case result.1.now) ≤ length (letters fold_case behind.now) }
{
    if c != '\\' {
        return (plain_meaning(c), behind);
    }
    match front(behind, fold_case) {
        Some((next, after)) => (Meaning::Just(next), after),
        None => (plain_meaning(c), behind),
    }
}

/// What a character of a pattern means where no `\` stands before it.
fn plain_meaning(c: char) -> Meaning
    ensures { meaning_view result ≡ plain_wildcard c }
{
    match c {
        '%' => Meaning::AnyRun,
        '_' => Meaning::AnyOne,
        _ => Meaning::Just(c),
    }
}

/// The first character of a text, a capital ASCII letter as its small one where case is folded, and the text behind it.
fn front(text: &str, fold_case: bool) -> Option<(char, &str)>
    ensures { MatchOption result (letters fold_case text.now ≡ []) (λ x. letters fold_case text.now ≡ x.0 ∷ letters fold_case x.1.now) }
{
    let mut rest = text.chars();
    match rest.next() {
        Some(c) => Some((letter(c, fold_case), rest.as_str())),
        None => None,
    }
}

/// A character, a capital ASCII letter as its small one where case is folded.
fn letter(c: char, fold_case: bool) -> char
    ensures { result ≡ letter fold_case c }
{
    if fold_case { c.to_ascii_lowercase() } else { c }
}

/// How far the parts of a pattern go, from the first character of a text on.
enum Reach<'p, 't> {
    /// They match the text.
    Matched,
    /// They go as far as a run: the characters and the parts behind it, and the text that is left.
    Run(&'p Needle, &'p [Part], &'t str),
    /// The text ends before them, so they match no suffix of it either.
    TextEnds,
    /// They don't match the text: a character isn't taken, or is left.
    Differs,
}

/// Goes part by part and character by character as far as the first run.
fn reach_of<'p, 't>(parts: &'p [Part], text: &'t str) -> Reach<'p, 't>
    ensures { IsReach parts.now text.now result }
{
    let mut parts = parts;
    let mut rest = text;
    while let [part, behind @ ..] = parts {
        if let Some(needle) = needle_behind(part) {
            if behind.is_empty() {
                return Reach::Matched;
            }
            return Reach::Run(needle, behind, rest);
        }
        match front(rest, false) {
            None => return Reach::TextEnds,
            Some((c, after)) => {
                if !takes(part, c) {
                    return Reach::Differs;
                }
                parts = behind;
                rest = after;
            }
        }
    }
    if rest.is_empty() {
        Reach::Matched
    } else {
        Reach::Differs
    }
}

/// The needle of a part that is a run, and none of another.
fn needle_behind(part: &Part) -> Option<&Needle>
    ensures run { MatchOption result (is_run (part_view part.now) ≡ false) (λ _. is_run (part_view part.now) ≡ true) }
    ensures needle { IfSome result (λ needle. (ws : List Wildcard) → IsNeedleOf part.now ws → IsNeedle needle.now ws) }
{
    match part {
        Part::AnyRun(needle) => Some(needle),
        _ => None,
    }
}

/// Whether a part that isn't a run takes a character.
fn takes(part: &Part, c: char) -> bool
    ensures { result ≡ takes (part_view part.now) c }
{
    match part {
        Part::AnyRun(_) => false,
        Part::AnyOne => true,
        Part::Just(d) => c == *d,
    }
}

/// The text from the first place on where the characters of a needle stand; none where they stand nowhere.
fn from_needle<'t>(needle: &Needle, text: &'t str) -> Option<&'t str>
    ensures same { (ws : List Wildcard) → IsNeedle needle.now ws → MatchOption result (some_suffix (matches ws) (chars text.now) ≡ false)
        (λ from. some_suffix (matches ws) (chars text.now) ≡ some_suffix (matches ws) (chars from.now)) }
    ensures forward { IfSome result (λ from. length (chars from.now) ≤ length (chars text.now)) }
{
    match text.find(needle.text.as_str()) {
        Some(at) => Some(&text[at..]),
        None => None,
    }
}

/// Whether a text ends with the characters of a needle, which are the pattern's last.
fn ends_with_needle(needle: &Needle, text: &str) -> bool
    requires { needle.now.last ≡ true }
    ensures { (ws : List Wildcard) → IsNeedle needle.now ws → result ≡ some_suffix (matches ws) (chars text.now) }
{
    text.ends_with(needle.text.as_str())
}

/// Whether a suffix of a text matches. Where the parts go as far as a run, no later suffix needs a look: the run takes what one would leave out.
fn some_suffix_matches(needle: &Needle, parts: &[Part], text: &str) -> bool
    ensures { AreNeedles needle.now parts.now → result ≡ some_suffix (matches (map part_view parts.now)) (chars text.now) }
{
    let mut needle = needle;
    let mut parts = parts;
    let mut rest = text;
    'suffixes: loop {
        if needle.last {
            return ends_with_needle(needle, rest);
        }
        let Some(from) = from_needle(needle, rest) else {
            return false;
        };
        match reach_of(parts, from) {
            Reach::Matched => return true,
            Reach::TextEnds => return false,
            Reach::Run(next, behind, left) => {
                needle = next;
                parts = behind;
                rest = left;
            }
            Reach::Differs => match front(from, false) {
                Some((_, after)) => rest = after,
                None => return false,
            },
        }
    }
}
