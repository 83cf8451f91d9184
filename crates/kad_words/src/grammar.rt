//! The plain form: the words after a command are pairs of one of its options and a value, none is there twice, and those
//! that are required are there. It takes no memory.
ghost use Rattle.std.specs.Prelude.{◌≡◌, ◌↔◌, ◌==◌, length, map, string_bytes, IsTrue, is_some, option_map};
ghost use Rattle.kad_words.specs.Table.{kind_named, option_word};
ghost use Rattle.kad_words.specs.Listed.{entries_of};
ghost use Rattle.kad_words.specs.Plain.{AreThere, Belongs, InPairs, pairs_of, value_of};

use crate::choice::{Choice, Kind, is_of_kind, is_option, is_there, is_value};

/// Whether words are of the plain form, for a command with these options.
pub(crate) fn is_plain(words: &[String], choices: &[Choice]) -> bool
    ensures { let texts = map (λ w. string_bytes w) words.now in
        IsTrue result ↔ (InPairs (entries_of choices.now) texts (pairs_of texts)
        × AreThere (entries_of choices.now) (pairs_of texts)) }
{
    are_pairs(words, choices) && are_there(words, choices)
}

/// Whether the words are pairs of one of these options and a value of it, and none of them is there twice.
fn are_pairs(words: &[String], choices: &[Choice]) -> bool
    ensures { let texts = map (λ w. string_bytes w) words.now in
        IsTrue result ↔ InPairs (entries_of choices.now) texts (pairs_of texts) }
{
    let mut rest = words;
    while let [option, value, more @ ..] = rest {
        let option = option.as_str();
        if !belongs(option, value.as_str(), choices) || value_of(more, option).is_some() {
            return false;
        }
        rest = more;
    }
    are_none(rest)
}

/// Whether no word is left.
fn are_none(words: &[String]) -> bool
    ensures { result ≡ (length words.now == 0) }
{
    words.is_empty()
}

/// Whether a word is one of these options, and the next a value of it.
fn belongs(option: &str, value: &str, choices: &[Choice]) -> bool
    ensures { IsTrue result ↔ Belongs (entries_of choices.now) (option.now, value.now) }
{
    match kind_named(choices, option) {
        Some(kind) => is_value(value) && is_of_kind(kind, value),
        None => false,
    }
}

/// Whether a word is one of these options.
pub(crate) fn is_among(word: &str, choices: &[Choice]) -> bool
    ensures { result ≡ is_some (kind_named (entries_of choices.now) word.now) }
{
    kind_named(choices, word).is_some()
}

/// What the value of an option is, if the word is one of these.
fn kind_named(choices: &[Choice], word: &str) -> Option<Kind>
    ensures { result ≡ kind_named (entries_of choices.now) word.now }
{
    for choice in choices {
        if is_option(word, choice.name) {
            return Some(choice.kind);
        }
    }
    None
}

/// The value of an option.
pub(crate) fn value_of<'a>(words: &'a [String], option: &str) -> Option<&'a str>
    ensures { option_map (λ v. v.now) result ≡ value_of option.now
        (pairs_of (map (λ w. string_bytes w) words.now)) }
{
    let mut rest = words;
    while let [name, value, more @ ..] = rest {
        if name.as_str() == option {
            return Some(value.as_str());
        }
        rest = more;
    }
    None
}

/// The value of the option with this name.
fn value_named<'a>(words: &'a [String], name: &str) -> Option<&'a str>
    ensures { option_map (λ v. v.now) result ≡ value_of (option_word name.now)
        (pairs_of (map (λ w. string_bytes w) words.now)) }
{
    let mut rest = words;
    while let [option, value, more @ ..] = rest {
        if is_option(option.as_str(), name) {
            return Some(value.as_str());
        }
        rest = more;
    }
    None
}

/// Whether each option that is required has a value.
fn are_there(words: &[String], choices: &[Choice]) -> bool
    ensures { IsTrue result ↔ AreThere (entries_of choices.now)
        (pairs_of (map (λ w. string_bytes w) words.now)) }
{
    for choice in choices {
        if !is_there(choice.need, value_named(words, choice.name)) {
            return false;
        }
    }
    true
}
