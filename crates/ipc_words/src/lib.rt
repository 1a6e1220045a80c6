//! A command's words and the call that they mean; an answer and its line.
#![tactic(auto)]

ghost use Rattle.std.specs.Prelude.{◌≡◌, map};
ghost use Rattle.std.specs.Bool.{OnFalse, OnTrue};
ghost use Rattle.ipc_words.specs.Calls.{Means, MeansBehind};
ghost use Rattle.ipc_words.specs.Grammar.{form_of_row};
ghost use Rattle.ipc_words.specs.Hyphens.{any_breaks_hyphen_rule};
ghost use Rattle.ipc_words.specs.Placing.{FindsArguments};

mod answers;
mod calls;
mod commands;
mod faults;
mod hyphens;
mod numbers;
mod parsing;
mod placing;
mod printing;
mod readings;
mod records;
mod usage;
mod values;

use crate::calls::call_of_found;
use crate::commands::{Form, form_of_word};
use crate::hyphens::any_is_refused;
use crate::parsing::matches_of_words;
use crate::placing::are_placed;
use crate::readings::Found;
pub use answers::{line_of_answer, put_line};
pub use faults::{WordFault, put_fault};
use ipc_terms::Call;
pub use numbers::read_decimal;
pub use readings::{optional_count, optional_number, optional_word};
pub use records::put_record;
use std::alloc::Global;
pub use usage::{USAGE_OF_VALUES, usage_of_commands};

/// The call that a command's words mean, as `mq-open /jobs rw --create`.
///
/// A word that begins with `-` is an option's own name or refused; so bytes that begin with it are
/// written with `hex:`. What the grammar of the command line refuses is `Usage`, and a value that
/// doesn't read is `BadValue` of the first argument in the command's order.
pub fn call_of_words(alloc: Global, words: &[&str]) -> Result<Call, WordFault>
    ensures hyphen { OnTrue (any_breaks_hyphen_rule (map (λ w. w.now) words.now)) (result ≡ Err WordFault.Usage) }
    ensures meaning { OnFalse (any_breaks_hyphen_rule (map (λ w. w.now) words.now)) (Means (map (λ w. w.now) words.now) result) }
{
    if any_is_refused(words) {
        return Err(WordFault::Usage);
    }
    let [word, rest @ ..] = words else {
        return Err(WordFault::Usage);
    };
    match form_of_word(word) {
        Some(form) => call_of_form(alloc, form, rest),
        None => Err(WordFault::Usage),
    }
}

/// The call that the words behind a command's own mean. `clap` reads them where they leave it
/// something to decide.
fn call_of_form(alloc: Global, form: &Form, words: &[&str]) -> Result<Call, WordFault>
    requires { FindsArguments (form_of_row form.now) }
    ensures { MeansBehind (form_of_row form.now) (map (λ w. w.now) words.now) result }
{
    if are_placed(words, form.arguments) {
        let arguments = form.arguments;
        return call_of_found(alloc, form.op, &Found::Placed { words, arguments });
    }
    let matches = matches_of_words(alloc, form, words)?;
    call_of_found(alloc, form.op, &Found::Parsed(&matches))
}
