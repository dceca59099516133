//! Edges as lines of text.
//!
//! The fields are taken from the front of the text, and the line ends where no field is left. So no
//! line is cut out first, and the bytes are gone over once (the digits of a cost twice).

ghost use Rattle.std.specs.Prelude.{position, not, ◌≡◌, ℕ, ◌<◌, List, [], ◌∷◌, length, map, MatchOption, IfSome};
ghost use Rattle.pf_routes.specs.EdgeText.{Line, is_gap, is_visible, lines_of, line_of, said_by, Bad};
ghost use Rattle.pf_routes.specs.Internal.Fields.{front, behind, field_of, behind_field, lines_left, BeginsWithLine};
ghost use Rattle.pf_routes.specs.Internal.Parsed.{line_read};

use crate::routes::bytes::{is_gap_byte, is_visible_byte};
use crate::routes::digits::number_of;
use crate::routes::name::Name;

/// An edge whose names lie in the text that it was read from.
#[derive(Drop)]
pub(crate) struct NamedEdge<'a> {
    pub(crate) from: Name<'a>,
    pub(crate) to: Name<'a>,
    pub(crate) cost: u64,
}

/// A line that is an edge or blank, and what follows its line feed, where it has one.
#[derive(Drop)]
pub(crate) struct ReadLine<'a> {
    pub(crate) edge: Option<NamedEdge<'a>>,
    pub(crate) rest: Option<&'a [u8]>,
}

fn gap_end(text: &[u8]) -> Option<usize>
    ensures { result ≡ position (λ b. not (is_gap b)) text.now }
{
    text.iter().position(|byte| !is_gap_byte(*byte))
}

fn visible_end(text: &[u8]) -> Option<usize>
    ensures { result ≡ position (λ b. not (is_visible b)) text.now }
{
    text.iter().position(|byte| !is_visible_byte(*byte))
}

/// The text without the gaps at its front.
fn skip_gap(text: &[u8]) -> &[u8]
    ensures { result.now ≡ behind is_gap text.now }
{
    match gap_end(text) {
        Some(end) => {
            let (_, rest) = text.split_at(end);
            rest
        }
        None => &[],
    }
}

/// The visible bytes at the front, and what follows them.
fn split_visible(text: &[u8]) -> (&[u8], &[u8])
    ensures field { result.0.now ≡ front is_visible text.now }
    ensures rest { result.1.now ≡ behind is_visible text.now }
{
    match visible_end(text) {
        Some(end) => text.split_at(end),
        None => (text, &[]),
    }
}

/// The field behind the gaps at the front, empty where there is none, and what follows it.
fn split_field(text: &[u8]) -> (&[u8], &[u8])
    ensures field { result.0.now ≡ field_of text.now }
    ensures rest { result.1.now ≡ behind_field text.now }
{
    split_visible(skip_gap(text))
}

/// What follows the end of a line, where the text begins with one, or is none.
fn end_line(text: &[u8]) -> Option<Option<&[u8]>>
    ensures lines { MatchOption result (BeginsWithLine text.now) (λ rest. lines_of text.now ≡ [] ∷ lines_left rest) }
    ensures shorter { IfSome result (λ rest. IfSome rest (λ r. length r.now < length text.now)) }
{
    let [first, rest @ ..] = text else {
        return Some(None);
    };
    if *first == b'\n' {
        return Some(Some(rest));
    }
    if *first != b'\r' {
        return None;
    }
    let [second, rest @ ..] = rest else {
        return Some(None);
    };
    if *second == b'\n' {
        Some(Some(rest))
    } else {
        None
    }
}

/// The first line of a text, or `None` where it is bad.
pub(crate) fn read_line(text: &[u8]) -> Option<ReadLine<'_>>
    ensures says { MatchOption result ((others : List Line) × (said_by text.now ≡ Bad ∷ others))
        (λ r. said_by text.now ≡ line_read r ∷ map line_of (lines_left r.rest)) }
    ensures shorter { IfSome result (λ r. IfSome r.rest (λ rest. length rest.now < length text.now)) }
{
    let (from, after) = split_field(text);
    let (to, after) = split_field(after);
    let (field, after) = split_field(after);
    let rest = end_line(skip_gap(after))?;
    if from.is_empty() {
        return Some(ReadLine { edge: None, rest });
    }
    if field.is_empty() {
        return None;
    }
    let cost = number_of(field)?;
    let edge = NamedEdge {
        from: Name::new(from),
        to: Name::new(to),
        cost,
    };
    let edge = Some(edge);
    Some(ReadLine { edge, rest })
}
