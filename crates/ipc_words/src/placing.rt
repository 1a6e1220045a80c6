//! Words where `clap` has nothing to decide: values at a command's arguments in their order, and
//! options behind them.

ghost use Rattle.std.specs.Prelude.{◌≡◌, map, option_copied, option_map, find};
ghost use Rattle.std.specs.List.{list_all, list_any};
ghost use Rattle.std.specs.Str.{bytes_eq};
ghost use Rattle.clap.specs.Walk.{first_of};
ghost use Rattle.ipc_words.specs.Placing.{are_options, given_rows, is_flag_of, is_option_of, is_optional, is_placed, option_rows, option_value, placed_rows};

use crate::commands::{Argument, is_spelled};

/// Whether each word is the value of the argument at its place, or stands among the options behind
/// the values; and all other arguments may be left out.
#[tactic(auto, unfolding(crate::specs::Placing::is_placed))]
pub fn are_placed(words: &[&str], arguments: &[Argument]) -> bool
    ensures { result ≡ is_placed (map (λ w. w.now) words.now) arguments.now }
{
    let [word, next_words @ ..] = words else {
        return are_optional(arguments);
    };
    let [argument, next_arguments @ ..] = arguments else {
        return false;
    };
    if argument.is_value() {
        return !word.starts_with('-') && are_placed(next_words, next_arguments);
    }
    are_optional(arguments) && are_options(words, arguments, false)
}

/// Whether each of these may be left out.
fn are_optional(arguments: &[Argument]) -> bool
    ensures { result ≡ list_all is_optional arguments.now }
{
    arguments.iter().all(Argument::is_optional)
}

/// Whether each word is an option, none of them twice, or the value that is due behind one.
#[tactic(auto, unfolding(crate::specs::Placing::are_options))]
fn are_options(words: &[&str], arguments: &[Argument], is_value_due: bool) -> bool
    ensures { result ≡ are_options is_value_due arguments.now (map (λ w. w.now) words.now) }
{
    let [word, next_words @ ..] = words else {
        return !is_value_due;
    };
    if is_value_due {
        return !word.starts_with('-') && are_options(next_words, arguments, false);
    }
    match option_of(word, arguments) {
        Some(option) => {
            !is_among(next_words, word) && are_options(next_words, arguments, option.is_valued())
        }
        None => false,
    }
}

/// The option that the word spells.
fn option_of<'a>(word: &str, arguments: &'a [Argument]) -> Option<&'a Argument>
    ensures { option_copied result ≡ find (is_option_of word.now) arguments.now }
{
    arguments
        .iter()
        .find(|argument| argument.is_option_of(word))
}

/// Whether the word is one of these.
fn is_among(words: &[&str], word: &str) -> bool
    ensures { result ≡ list_any (bytes_eq word.now) (map (λ w. w.now) words.now) }
{
    words.iter().any(|other| *other == word)
}

/// The word at the first argument of this name. A flag that isn't given stands for `false`.
pub fn word_at<'a>(words: &[&'a str], arguments: &[Argument], name: &str) -> Option<&'a str>
    ensures { option_map (λ word. word.now) result ≡ first_of name.now (placed_rows (map (λ w. w.now) words.now) arguments.now) }
{
    match given_word(words, arguments, name) {
        Some(word) => Some(word),
        None if has_flag(arguments, name) => Some("false"),
        None => None,
    }
}

/// Whether some argument is the flag of this name.
fn has_flag(arguments: &[Argument], name: &str) -> bool
    ensures { result ≡ list_any (is_flag_of name.now) arguments.now }
{
    arguments.iter().any(|argument| argument.is_flag_of(name))
}

/// The word given for the first argument of this name.
#[tactic(auto, unfolding(crate::specs::Placing::given_rows))]
fn given_word<'a>(words: &[&'a str], arguments: &[Argument], name: &str) -> Option<&'a str>
    ensures { option_map (λ word. word.now) result ≡ first_of name.now (given_rows (map (λ w. w.now) words.now) arguments.now) }
{
    let [word, next_words @ ..] = words else {
        return None;
    };
    let [argument, next_arguments @ ..] = arguments else {
        return None;
    };
    if !argument.is_value() {
        return option_word(words, name);
    }
    if argument.name() == name {
        return Some(word);
    }
    given_word(next_words, next_arguments, name)
}

/// The word given for the option of this name. These words are options and their values.
#[tactic(auto, unfolding(crate::specs::Placing::option_rows))]
fn option_word<'a>(words: &[&'a str], name: &str) -> Option<&'a str>
    ensures { option_map (λ word. word.now) result ≡ first_of name.now (option_rows (map (λ w. w.now) words.now)) }
{
    let [word, next_words @ ..] = words else {
        return None;
    };
    if is_spelled(word, name) {
        return Some(option_value(next_words));
    }
    option_word(next_words, name)
}

/// The value of an option that these words follow. A flag stands for `true`.
fn option_value<'a>(words: &[&'a str]) -> &'a str
    ensures { result.now ≡ option_value (map (λ w. w.now) words.now) }
{
    match words {
        [value, ..] if !value.starts_with('-') => value,
        _ => "true",
    }
}
