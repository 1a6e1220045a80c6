//! A script of many sessions, as `mqserve` runs it: lines of words in, lines of answers out.

use crate::chance::Chance;
use crate::setting::{Digest, Size, USERS};
use anyhow::Result;
use ipc_core::Limits;
use ipc_script::run_script;
use std::alloc::{AllocError, Global};

/// Labels, of which each has a queue and a semaphore.
const LABELS: u32 = 16;

/// Starts the sessions. Label `sN` opens queue and semaphore `N`, by descriptions `2N` and `2N + 1`.
fn put_start(alloc: Global, text: &mut String) -> Result<(), AllocError> {
    text.push_str(USERS)?;
    text.push_str(".\n# sessions\n")?;
    for number in 0..LABELS {
        let user = number % 8;
        let line = format!(in alloc; "s{number} hello k{user}\n")?;
        text.push_str(line.as_str())?;
    }
    for number in 0..LABELS {
        let line = format!(in alloc;
            "s{number} mq-open /jobs{number} rw --create --mode 0620 --maxmsg 10 --msgsize 4096\ns{number} sem-open /lock{number} --create\n"
        )?;
        text.push_str(line.as_str())?;
    }
    Ok(())
}

/// A word of a message: letters, or digits behind `hex:`.
fn message(alloc: Global, chance: &mut Chance) -> Result<String, AllocError> {
    let below = if chance.one_in(20) { 2_000 } else { 60 };
    let length = chance.below(below);
    let mut word = String::new(alloc);
    if chance.one_in(4) {
        word.push_str("hex:")?;
        for _ in 0..length {
            word.push_str("a7")?;
        }
    } else {
        for _ in 0..length + 1 {
            word.push_str("job-")?;
        }
    }
    Ok(word)
}

/// One or two lines of the label: a message is sent and taken, a semaphore posted and waited for, a name asked for, a
/// mask or a mode set, or a line is at fault.
fn lines(alloc: Global, chance: &mut Chance) -> Result<String, AllocError> {
    let number = chance.below(LABELS);
    let (queue, semaphore) = (2 * number, 2 * number + 1);
    match chance.below(10) {
        0..5 => {
            let priority = chance.below(100);
            let message = message(alloc, chance)?;
            format!(in alloc;
                "s{number} mq-send {queue} {priority} {}\ns{number} mq-receive {queue} 4096\n",
                message.as_str()
            )
        }
        5 => format!(in alloc; "s{number} sem-post {semaphore}\ns{number} sem-wait {semaphore}\n"),
        6 => {
            let other = chance.below(LABELS + 4);
            format!(in alloc; "s{number} stat mq /jobs{other}\n")
        }
        7 => {
            let mode = chance.below(8);
            format!(in alloc;
                "s{number}\tchmod 06{mode}0 mq /jobs{number}\ns{number} umask 02{mode}\n"
            )
        }
        8 => {
            let other = chance.below(LABELS);
            format!(in alloc;
                "s{number} mq-open /jobs{other} w --nonblock\ns{number} mq-getattr {queue}\n"
            )
        }
        _ => format!(in alloc;
            "# a line that is skipped\ns{number} sem-trywait {queue}\ns{number} no-command\n"
        ),
    }
}

/// A script that is drawn.
fn script(alloc: Global, chance: &mut Chance, count: u32) -> Result<String, AllocError> {
    let mut text = String::new(alloc);
    put_start(alloc, &mut text)?;
    for _ in 0..count {
        let added = lines(alloc, chance)?;
        text.push_str(added.as_str())?;
    }
    Ok(text)
}

/// One life of a server.
pub fn live(alloc: Global, chance: &mut Chance, size: Size, digest: &mut Digest) -> Result<()> {
    let text = script(alloc, chance, size.choose(100, 20_000))?;
    let mut output = Vec::new(alloc);
    run_script(alloc, Limits::STANDARD, text.as_bytes(), &mut output)?;
    digest.add(&output);
    Ok(())
}
