//! How each command is written.

ghost use Rattle.std.specs.Prelude.{◌≡◌, ◌++◌, IfOk, OnOk, map, flat_map};
ghost use Rattle.std.specs.String.{string_bytes};
ghost use Rattle.ipc_words.specs.Grammar.{form_of_row, forms, rule_of_argument};
ghost use Rattle.ipc_words.specs.Usage.{argument_usage, form_usage};

use crate::commands::{Argument, FORMS, Form};
use std::alloc::{AllocError, Global};

/// What may stand for each value in the lines of `usage_of_commands`, a line for each, without the last line end.
pub const USAGE_OF_VALUES: &str = "\
  <octal>           one to four octal digits, as 0660
  <name>            a slash and what the queue or semaphore is called, as /jobs
  <access>          r, w, rw
  <d>               a number, as `opened` or `taken` told it
  <prio>            a number, 0 to 32767
  <bytes>           text without blanks; of set-limit a number
  <len>             a number, at least the queue's message size
  <deadline>        a moment in milliseconds, by the server's clock
  <how>             of mq-setattr block, nonblock; of mq-notify on, off
  <sid>             a number, as `started` told it
  <family>          mq, sem
  <start>, <count>  a number
  <uid>, <gid>      a number; of chown also keep
  <value>           of --mode as <octal>; of other options a number
Numbers are decimal, without sign and leading zeros. A name and bytes may also be hex: and pairs of
lower-case hexadecimal digits.";

/// A line for each command, as `  mq-unlink <name>`: what stands in `[]` may be left out.
pub fn usage_of_commands(alloc: Global) -> Result<String, AllocError>
    ensures { IfOk result (λ text. string_bytes text ≡ flat_map form_usage forms) }
{
    let mut text = String::new(alloc);
    push_forms(&mut text, FORMS.as_slice())?;
    Ok(text)
}

fn push_forms(text: &mut String, forms: &[Form]) -> Result<(), AllocError>
    ensures { OnOk result (string_bytes text.new ≡ string_bytes text.old ++ flat_map form_usage (map form_of_row forms.now)) }
{
    for form in forms {
        push_form(text, form)?;
    }
    Ok(())
}

fn push_form(text: &mut String, form: &Form) -> Result<(), AllocError>
    ensures { OnOk result (string_bytes text.new ≡ string_bytes text.old ++ form_usage (form_of_row form.now)) }
{
    text.push_str("  ")?;
    text.push_str(form.word)?;
    push_arguments(text, form.arguments)?;
    text.push_str("\n")?;
    Ok(())
}

fn push_arguments(text: &mut String, arguments: &[Argument]) -> Result<(), AllocError>
    ensures { OnOk result (string_bytes text.new ≡ string_bytes text.old ++ flat_map argument_usage (map rule_of_argument arguments.now)) }
{
    for argument in arguments {
        push_argument(text, argument)?;
    }
    Ok(())
}

fn push_argument(text: &mut String, argument: &Argument) -> Result<(), AllocError>
    ensures { OnOk result (string_bytes text.new ≡ string_bytes text.old ++ argument_usage (rule_of_argument argument.now)) }
{
    match argument {
        Argument::Required(name) => push_between(text, " <", name, ">"),
        Argument::Optional(name) => push_between(text, " [", name, "]"),
        Argument::Flag(name) => push_between(text, " [--", name, "]"),
        Argument::Valued(name) => push_between(text, " [--", name, " <value>]"),
    }
}

fn push_between(text: &mut String, front: &str, name: &str, back: &str) -> Result<(), AllocError>
    ensures { OnOk result (string_bytes text.new ≡ string_bytes text.old ++ (front.now ++ name.now ++ back.now)) }
{
    text.push_str(front)?;
    text.push_str(name)?;
    text.push_str(back)?;
    Ok(())
}
