//! What is told to a person who runs the program.

use ipc_words::{USAGE_OF_VALUES, usage_of_commands};
use std::alloc::{AllocError, Global};
use std::io::IsTerminal;

/// Where standard input is a terminal, says on standard error what is waited for. A standard error
/// that can't be written to is passed over.
pub fn hint(rt: &HostRuntime) {
    if rt.stdin().is_terminal() {
        let _ = eprintln!(rt;
            "mqserve: waiting for a user file, a line `.`, and then steps; see mqserve --help"
        );
    }
}

/// What `--help` says below the arguments: the form of a script, what a server does, and each command with what may stand
/// for its values.
pub fn help_text(alloc: Global) -> Result<String, AllocError> {
    let commands = usage_of_commands(alloc)?;
    format!(in alloc;
        "{FORM}\n\n{SERVER}\n\n{TRAIL}\n\nCommands:\n{commands}\nValues:\n  {USAGE_OF_VALUES}\n\n{EXAMPLE}"
    )
}

const FORM: &str = "\
A script is a user file, a line `.`, and then one step a line.
A user is NAME:KEY:UID:GID:GROUPS:LIMIT, where GROUPS and LIMIT may be empty.
A step is a label and what its session does:
  LABEL hello KEY    starts a session of the user with this key
  LABEL hangup       ends the session that the label started last
  LABEL COMMAND      calls, as that session
  LABEL tick MOMENT  tells the time in milliseconds, whatever the label";

const SERVER: &str = "\
A server reads its users, a line for each, from the file USERS. Clients speak to it by mqctl.
With --one-thread all clients are served, however many are connected (up to --connections), on one processor.
Without it each worker serves one connection at a time. There are 4 by default, so a fifth client waits. Workers use
several processors: they answer a few busy clients faster.";

const TRAIL: &str = "\
With --trail-file a server writes each record into FILE before it is answered. With the same USERS replay steps the records of such
files again, compares the rule of each with the policy's verdict, and prints what they count up to.";

const EXAMPLE: &str = "\
Example:
  ann:ka1:1000:1000::
  .
  a hello ka1
  a mq-open /jobs rw --create
  a mq-send 0 5 hi
  a mq-receive 0 8192";
