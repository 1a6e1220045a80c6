//! The page.

ghost use Rattle.std.specs.Prelude.{◌≡◌, ◌++◌, IfOk, OnOk, map, flat_map};
ghost use Rattle.std.specs.String.{string_bytes};
ghost use Rattle.ipc_metrics.specs.Families.{family_of_row};
ghost use Rattle.ipc_metrics.specs.declared.families.Samples.TheVariants.{Objects};
ghost use Rattle.ipc_metrics.specs.Pages.{comment, family_text, label, labelled, page_text, refusal_text, refusals_text, sample, samples_text, seconds_text};

use crate::families::{FAMILIES, Family, Samples};
use crate::numbers::Numbers;
use ipc_terms::{EVERY_RULE, NoMemory, Rule};
use std::alloc::{AllocError, Global};

/// The page of these numbers: each family with its help and its kind before its samples. A rule that refused nothing has a
/// sample too.
pub fn page(alloc: Global, numbers: &Numbers) -> Result<String, NoMemory>
    ensures { IfOk result (λ text. string_bytes text ≡ page_text numbers.now) }
{
    let mut text = String::new(alloc);
    put_families(&mut text, FAMILIES.as_slice(), numbers)?;
    Ok(text)
}

fn put_families(text: &mut String, families: &[Family], numbers: &Numbers) -> Result<(), AllocError>
    ensures { OnOk result (string_bytes text.new ≡ string_bytes text.old ++ flat_map (family_text numbers.now) (map family_of_row families.now)) }
{
    for family in families {
        put_family(text, family, numbers)?;
    }
    Ok(())
}

#[tactic(auto, unfolding(crate::specs::Pages::family_text))]
fn put_family(text: &mut String, family: &Family, numbers: &Numbers) -> Result<(), AllocError>
    ensures { OnOk result (string_bytes text.new ≡ string_bytes text.old ++ family_text numbers.now (family_of_row family.now)) }
{
    put_comment(text, "HELP", family.name, family.help)?;
    put_comment(text, "TYPE", family.name, family.kind.word())?;
    put_samples(text, family, numbers)
}

#[tactic(auto, unfolding(crate::specs::Pages::comment))]
fn put_comment(text: &mut String, word: &str, name: &str, told: &str) -> Result<(), AllocError>
    ensures { OnOk result (string_bytes text.new ≡ string_bytes text.old ++ comment word.now name.now told.now) }
{
    writeln!(text, "# {word} {name} {told}")
}

fn put_samples(text: &mut String, family: &Family, numbers: &Numbers) -> Result<(), AllocError>
    ensures { OnOk result (string_bytes text.new ≡ string_bytes text.old ++ samples_text numbers.now family.now.samples family.now.name.now) }
{
    let name = family.name;
    match family.samples {
        Samples::Sessions => put_sample(text, name, numbers.sessions),
        Samples::Connections => put_sample(text, name, numbers.connections),
        Samples::Objects => put_objects(text, name, numbers),
        Samples::Messages => put_sample(text, name, numbers.messages),
        Samples::MessageBytes => put_sample(text, name, numbers.message_bytes),
        Samples::ChargedBytes => put_sample(text, name, numbers.charged_bytes),
        Samples::Kept => put_sample(text, name, numbers.kept),
        Samples::KeptBytes => put_sample(text, name, numbers.kept_bytes),
        Samples::Recorded => put_sample(text, name, numbers.recorded),
        Samples::Accepted => put_sample(text, name, numbers.verdicts[0]),
        Samples::Refused => put_every_refusal(text, name, numbers),
        Samples::Rounds => put_sample(text, name, numbers.rounds),
        Samples::ProcessorSeconds => put_seconds(text, name, numbers.processor_ticks),
        Samples::Resident => put_sample(text, name, numbers.resident),
    }
}

fn put_sample(text: &mut String, name: &str, value: u64) -> Result<(), AllocError>
    ensures { OnOk result (string_bytes text.new ≡ string_bytes text.old ++ sample name.now value) }
{
    writeln!(text, "{name} {value}")
}

fn put_objects(text: &mut String, name: &str, numbers: &Numbers) -> Result<(), AllocError>
    ensures { OnOk result (string_bytes text.new ≡ string_bytes text.old ++ samples_text numbers.now Objects name.now) }
{
    put_labelled(text, name, "family=\"mq\"", numbers.queues)?;
    put_labelled(text, name, "family=\"sem\"", numbers.semaphores)
}

fn put_labelled(text: &mut String, name: &str, labels: &str, value: u64) -> Result<(), AllocError>
    ensures { OnOk result (string_bytes text.new ≡ string_bytes text.old ++ labelled name.now labels.now value) }
{
    writeln!(text, "{name}{{{labels}}} {value}")
}

/// Adds a sample for each rule.
fn put_every_refusal(text: &mut String, name: &str, numbers: &Numbers) -> Result<(), AllocError>
    ensures { OnOk result (string_bytes text.new ≡ string_bytes text.old ++ refusals_text numbers.now name.now) }
{
    put_refusals(text, name, numbers, EVERY_RULE.as_slice())
}

fn put_refusals(
    text: &mut String,
    name: &str,
    numbers: &Numbers,
    rules: &[Rule],
) -> Result<(), AllocError>
    ensures { OnOk result (string_bytes text.new ≡ string_bytes text.old ++ flat_map (refusal_text numbers.now name.now) rules.now) }
{
    for rule in rules {
        put_refusal(text, name, numbers, *rule)?;
    }
    Ok(())
}

#[tactic(auto, unfolding(crate::specs::Pages::refusal_text))]
fn put_refusal(
    text: &mut String,
    name: &str,
    numbers: &Numbers,
    rule: Rule,
) -> Result<(), AllocError>
    ensures { OnOk result (string_bytes text.new ≡ string_bytes text.old ++ refusal_text numbers.now name.now rule) }
{
    let number = rule.number();
    let refused = numbers.verdicts[usize::from(number)];
    write!(text, "{name}{{rule=\"{number}\"")?;
    put_label(text, "name", rule.name())?;
    put_label(text, "error", rule.errno())?;
    writeln!(text, "}} {refused}")
}

/// Adds a label that isn't the first.
#[tactic(auto, unfolding(crate::specs::Pages::label))]
fn put_label(text: &mut String, word: &str, value: &str) -> Result<(), AllocError>
    ensures { OnOk result (string_bytes text.new ≡ string_bytes text.old ++ label word.now value.now) }
{
    write!(text, ",{word}=\"{value}\"")
}

/// Adds a sample of hundredths of a second, in seconds.
fn put_seconds(text: &mut String, name: &str, ticks: u64) -> Result<(), AllocError>
    ensures { OnOk result (string_bytes text.new ≡ string_bytes text.old ++ (name.now ++ seconds_text ticks)) }
{
    let (seconds, tenth, hundredth) = (ticks / 100, ticks / 10 % 10, ticks % 10);
    writeln!(text, "{name} {seconds}.{tenth}{hundredth}")
}
