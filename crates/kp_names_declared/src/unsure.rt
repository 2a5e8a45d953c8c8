ghost use Rattle.std.specs.Prelude.{◌≡◌, ◌≤◌, length, map, option_copied};
ghost use Rattle.kp_base.specs.declared.refused.Part.TheVariants as parts;
ghost use Rattle.kp_base.specs.Files.{most_bytes};
ghost use Rattle.kp_tree_grammar.specs.View.{item_view, problem_view};
ghost use Rattle.kp_lex.specs.Places.{place_of};
ghost use Rattle.kp_names_declared.specs.Unsure.{unsure_item, first_unsure, unsure_place};

use kp_base::{Part, Place};
use kp_lex::place;
use kp_tree_grammar::{ItemTree, Problem, Word};

// The word of the first `oneof`, `or` or `unknown` in an item.
fn unsure_word(item: &ItemTree) -> Option<&Word>
    ensures { option_copied result ≡ unsure_item (item_view item.now) }
{
    match item {
        ItemTree::All(parts) => {
            for part in parts.slice() {
                if let Some(word) = unsure_word(part) {
                    return Some(word);
                }
            }
            None
        }
        ItemTree::Lit(..) => None,
        ItemTree::OneOf(word, _) | ItemTree::AnyOf(word, _) | ItemTree::Unknown(word, _) => {
            Some(word)
        }
    }
}

// The same of the items of `:init`.
fn first_unsure(items: &[ItemTree]) -> Option<&Word>
    ensures { option_copied result ≡ first_unsure (map item_view items.now) }
{
    for item in items {
        if let Some(word) = unsure_word(item) {
            return Some(word);
        }
    }
    None
}

// The place of a byte of the problem; one past the end stands in the last line.
fn place_in(problem: &[u8], byte: u32) -> Place
    requires { length problem.now ≤ most_bytes }
    ensures { result ≡ place_of parts.Problem problem.now byte }
{
    let within = byte.min(problem.len() as u32);
    let line = place(Part::Problem, problem, within).line;
    Place {
        part: Part::Problem,
        line,
        byte,
    }
}

/// The place of the first item of `:init` that leaves the initial state open.
pub fn unsure_place(bytes: &[u8], problem: &Problem) -> Option<Place>
    requires { length bytes.now ≤ most_bytes }
    ensures { result ≡ unsure_place bytes.now (problem_view problem.now) }
{
    match first_unsure(problem.init.slice()) {
        Some(word) => Some(place_in(bytes, word.byte)),
        None => None,
    }
}
