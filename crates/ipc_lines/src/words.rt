//! The words of a line.

ghost use Rattle.std.specs.Prelude.{◌≡◌, ◌++◌, map, IfOk, OnOk};
ghost use Rattle.ipc_lines.specs.Words.{words_in, words_of_run};

use memchr::memchr2_iter;
use std::alloc::{AllocError, Global};

/// For how many words room is made with the first: few lines have more.
const USUAL_WORDS: usize = 16;

/// The words of a line, parted by runs of spaces and tabs; those at its ends part nothing. Each other byte,
/// a carriage return too, belongs to a word.
pub fn words_of(alloc: Global, line: &str) -> Result<Vec<&str>, AllocError>
    ensures { IfOk result (λ words. map (λ word. word.now) words.items ≡ words_in line.now) }
{
    let mut words = Vec::new(alloc);
    let mut start = 0;
    for end in memchr2_iter(b' ', b'\t', line.as_bytes()) {
        push_run(&mut words, &line[start..end])?;
        start = end + 1;
    }
    push_run(&mut words, &line[start..])?;
    Ok(words)
}

/// Adds a run of bytes without a blank to the words, unless it is empty.
fn push_run<'a>(words: &mut Vec<&'a str>, run: &'a str) -> Result<(), AllocError>
    ensures { OnOk result (map (λ word. word.now) words.new.items ≡ map (λ word. word.now) words.old.items ++ words_of_run run.now) }
{
    if run.is_empty() {
        return Ok(());
    }
    if words.is_empty() {
        words.reserve_exact(USUAL_WORDS)?;
    }
    words.push(run)?;
    Ok(())
}
