//! What `mqctl --help` says.

use ipc_words::{USAGE_OF_VALUES, usage_of_commands};
use std::alloc::{AllocError, Global};

/// How the program is run, each command, and what may stand for its values.
pub fn help_text(alloc: Global) -> Result<String, AllocError> {
    let commands = usage_of_commands(alloc)?;
    format!(in alloc; "{USAGE}\n{commands}\nValues:\n  {USAGE_OF_VALUES}\n\n{EXAMPLE}")
}

const USAGE: &str = "\
Speaks to mqserve.

Usage:
  mqctl ADDRESS KEY COMMAND   sends one command to the server at HOST:PORT or unix:PATH, as the user with this key
  mqctl ADDRESS KEY           sends each line of standard input
  mqctl                       prints the frame of each line of standard input, in hexadecimal
  mqctl --help                prints this
  mqctl --key-file FILE ADDRESS [COMMAND]   takes the key from the first line of FILE
  mqctl unix-user:PATH [COMMAND]   speaks as who may open the socket at PATH, or in the folder PATH the socket of its own
KEY - stands for the value of the variable MQSERVE_KEY.

An answer is a line. Those of a command end with the first that is neither a notice nor `taken`.

Without --one-thread each worker of the server serves one connection at a time. There are 4 by default, so a fifth
client waits.

At a server, commands that name a queue or a semaphore, which they open for themselves and close again:
  send <name> <prio> <bytes>
  receive <name>
  post <name>
  wait <name>
  list
`list` prints for each queue and semaphore its family, name, owner, group and mode, and its number of messages or its
value; - is what can't be told. In lines, `last` stands for the <d> that one of them opened last.

Commands:";

const EXAMPLE: &str = "\
Example:
  mqctl 127.0.0.1:7000 ka1 mq-open /jobs rw --create
  mqctl 127.0.0.1:7000 ka1 send /jobs 5 hello";
