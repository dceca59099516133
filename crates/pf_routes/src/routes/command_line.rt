//! Commands from the words of a command line.

ghost use Rattle.std.specs.Prelude.{◌≡◌, ◌↔◌, ◌&&◌, ◌∷◌, [], Bool, map, string_bytes, IsTrue, IsSome, IfSome};
ghost use Rattle.pf_routes.specs.Words.{IsNumber, IsSpelledBy, is_field, is_number, is_command};

use crate::routes::bytes::are_visible;
use crate::routes::commands::Command;
use crate::routes::digits::number_of;

/// Whether the text is one or more of the bytes `!` to `~`.
fn is_name(text: &str) -> bool
    ensures { result ≡ is_field text.now }
{
    !text.is_empty() && are_visible(text.as_bytes())
}

/// The command of this name about no names of nodes.
fn plain_command(name: &str) -> Option<Command>
    ensures spelled { IsSome result ↔ IsTrue (is_command (name.now ∷ [])) }
    ensures words { IfSome result (λ c. IsSpelledBy c (name.now ∷ [])) }
{
    match name {
        "kruskal" => Some(Command::Kruskal),
        _ => None,
    }
}

/// The command of this name about two names of nodes.
fn path_command(name: &str, from: String, to: String) -> Option<Command>
    ensures spelled { IsSome result ↔ IsTrue (is_command (name.now ∷ string_bytes from ∷ string_bytes to ∷ [])) }
    ensures words { IfSome result (λ c. IsSpelledBy c (name.now ∷ string_bytes from ∷ string_bytes to ∷ [])) }
{
    if !is_name(from.as_str()) || !is_name(to.as_str()) {
        return None;
    }
    match name {
        "dijkstra" => Some(Command::Dijkstra { from, to }),
        "bfs" => Some(Command::Bfs { from, to }),
        "flow" => Some(Command::Flow { from, to }),
        _ => None,
    }
}

/// The number that a word spells, where it is one or more digits and fits `usize`.
fn count_of(word: &str) -> Option<usize>
    ensures digits { IsSome result ↔ IsTrue (is_number word.now) }
    ensures value { IfSome result (λ n. IsNumber word.now n) }
{
    if word.is_empty() {
        return None;
    }
    let number = number_of(word.as_bytes())?;
    Some(number as usize)
}

/// The command of this name about two names of nodes and a number of paths.
fn counted_command(name: &str, from: String, to: String, count: &str) -> Option<Command>
    ensures spelled { IsSome result ↔ IsTrue (is_command (name.now ∷ string_bytes from ∷ string_bytes to ∷ count.now ∷ [])) }
    ensures words { IfSome result (λ c. IsSpelledBy c (name.now ∷ string_bytes from ∷ string_bytes to ∷ count.now ∷ [])) }
{
    if name != "yen" || !is_name(from.as_str()) || !is_name(to.as_str()) {
        return None;
    }
    if count == "all" {
        return Some(Command::YenAll { from, to });
    }
    let count = count_of(count)?;
    Some(Command::Yen { from, to, count })
}

/// The command that the words after the program's name spell, as `dijkstra A B`, `bfs A B`,
/// `kruskal`, `yen A B 3`, `yen A B all` or `flow A B`.
///
/// `None` means a usage error: too few or too many words, an unknown command, a name that is not one
/// or more of the bytes `!` to `~`, or a number of paths that is neither `all` nor one or more digits
/// whose value fits `usize` (leading zeros are allowed). No memory is taken.
pub fn command(words: Vec<String>) -> Option<Command>
    ensures spelled { IsSome result ↔ IsTrue (is_command (map string_bytes words.items)) }
    ensures words { IfSome result (λ c. IsSpelledBy c (map string_bytes words.items)) }
{
    let mut words = words.into_iter();
    match (
        words.next(),
        words.next(),
        words.next(),
        words.next(),
        words.next(),
    ) {
        (Some(name), None, _, _, _) => plain_command(name.as_str()),
        (Some(name), Some(from), Some(to), None, _) => path_command(name.as_str(), from, to),
        (Some(name), Some(from), Some(to), Some(count), None) => {
            counted_command(name.as_str(), from, to, count.as_str())
        }
        _ => None,
    }
}
