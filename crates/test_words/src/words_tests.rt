//! Words that no line of a script or of `mqctl` can have, and what is said of the commands' words. `rows/mqctl` shows what lines mean.

use ipc_terms::NoMemory;
use ipc_words::{USAGE_OF_VALUES, WordFault, call_of_words, usage_of_commands};
use std::alloc::Global;
use std::test::Fail;

/// Whether the words are no command.
fn are_usage(alloc: Global, words: &[&str]) -> bool {
    matches!(call_of_words(alloc, words), Err(WordFault::Usage))
}

#[test]
fn no_word_and_an_empty_one_are_usage(rt: HostRuntime) {
    assert!(rt; are_usage(rt.alloc(), &[]));
    assert!(rt; are_usage(rt.alloc(), &[""]));
    assert!(rt; are_usage(rt.alloc(), &["interrupt", ""]));
}

/// A command with `_` in place of a word, words that don't read there, and the argument that is then named.
type Unread = (&'static str, &'static [&'static str], &'static str);

const NUMBERS: &[&str] = &["", "1 "];

const PAIRS: &[&str] = &["hex:2d "];

const FAMILIES: &[&str] = &["", "mq "];

static UNREAD: [Unread; 20] = [
    ("umask _", &["", "2 "], "octal"),
    ("mq-open /a r --mode _", &["", "2 "], "mode"),
    ("mq-open /a _", &["", "r "], "access"),
    ("mq-open _ r", PAIRS, "name"),
    ("mq-open /a r --maxmsg _ --msgsize 1", NUMBERS, "maxmsg"),
    ("mq-open /a r --msgsize _ --maxmsg 1", NUMBERS, "msgsize"),
    ("mq-close _", NUMBERS, "d"),
    ("mq-send 0 _ hi", NUMBERS, "prio"),
    ("mq-send 0 0 _", PAIRS, "bytes"),
    ("mq-receive 0 _", NUMBERS, "len"),
    ("mq-timedreceive 0 0 _", NUMBERS, "deadline"),
    ("mq-give 0 _", NUMBERS, "sid"),
    ("ls _ 0 1", FAMILIES, "family"),
    ("ls mq _ 1", NUMBERS, "start"),
    ("ls mq 0 _", NUMBERS, "count"),
    ("stat _", FAMILIES, "family"),
    ("set-limit _ 0", NUMBERS, "uid"),
    ("set-limit 0 _", NUMBERS, "bytes"),
    ("mq-setattr 0 _", &["", "block "], "how"),
    ("mq-notify 0 _", &["", "off "], "how"),
];

/// Whether each of the words, in its place, doesn't read and has its argument named.
fn all_are_named(alloc: Global, row: &Unread) -> Result<(), Fail> {
    let (line, unread, argument) = row;
    for word in *unread {
        if !is_named(alloc, line, word, argument)? {
            return Err(Fail::new(format_args!("{argument} at {word}")));
        }
    }
    Ok(())
}

/// Whether the argument is named as the one at fault where this word stands in place of `_`.
fn is_named(
    alloc: Global,
    line: &'static str,
    unread: &'static str,
    argument: &str,
) -> Result<bool, NoMemory> {
    let mut words = Vec::new(alloc);
    for word in line.split(' ') {
        words.push(if word == "_" { unread } else { word })?;
    }
    Ok(match call_of_words(alloc, &words) {
        Err(WordFault::BadValue(named)) => named == argument,
        _ => false,
    })
}

#[test]
fn values_that_no_line_has_do_not_read(rt: HostRuntime) -> Result<(), Fail> {
    for row in &UNREAD {
        all_are_named(rt.alloc(), row)?;
    }
    Ok(())
}

const USAGE: &str = "  umask <octal>
  mq-open <name> <access> [--create] [--excl] [--nonblock] [--mode <value>] [--maxmsg <value>] [--msgsize <value>]
  mq-close <d>
  mq-send <d> <prio> <bytes>
  mq-receive <d> <len>
  mq-timedsend <d> <prio> <deadline> <bytes>
  mq-timedreceive <d> <len> <deadline>
  mq-getattr <d>
  mq-setattr <d> <how>
  mq-notify <d> <how>
  mq-give <d> <sid>
  mq-unlink <name>
  sem-open <name> [--create] [--excl] [--mode <value>] [--value <value>]
  sem-close <d>
  sem-unlink <name>
  sem-post <d>
  sem-wait <d>
  sem-trywait <d>
  sem-timedwait <d> <deadline>
  sem-getvalue <d>
  ls <family> <start> <count>
  stat <family> [name]
  chmod <octal> <family> [name]
  chown <uid> <gid> <family> [name]
  set-limit <uid> <bytes>
  interrupt
  audit <start> <count>
";

#[test]
fn each_command_has_a_usage_line(rt: HostRuntime) -> Result<(), Fail> {
    assert!(rt; usage_of_commands(rt.alloc())?.as_str() == USAGE);
    Ok(())
}

#[test]
fn each_value_has_a_usage_line(rt: HostRuntime) -> Result<(), Fail> {
    for rest in USAGE.split('<').skip(1) {
        let name = rest.split('>').next().unwrap_or("");
        let value = format!(in rt.alloc(); "<{name}>")?;
        if !USAGE_OF_VALUES.contains(value.as_str()) {
            return Err(Fail::new(format_args!("{value} has no line")));
        }
    }
    Ok(())
}
