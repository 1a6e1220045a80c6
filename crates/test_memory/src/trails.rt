//! Trails.

use crate::fault::Fault;
use crate::made::{act, put_lines};
use crate::subject::{Fresh, Subject};
use ipc_terms::{Answer, Record, Rule};
use ipc_trail::{Receipt, Trail};
use std::alloc::Global;
use std::slice;

pub enum Step {
    /// Makes room for a record of a command by session 0 and of the rule that refused it, and pushes it.
    Push(&'static str, Option<Rule>),
    /// The line of a page.
    Page(u64, u16, &'static str),
}

use Step::{Page, Push};

pub static CASES: [(&str, &[Step]); 2] = [
    (
        "Trail::reserve_one",
        &[
            Push("mq-send 0 5 hi", None),
            Push("mq-unlink /jobs", Some(Rule::Absent)),
            Push("interrupt", Some(Rule::NotInCall)),
            Push("umask 022", None),
            Push("mq-close 0", None),
            Page(
                1,
                3,
                "records 3 1:0:mq-unlink:13:/jobs 2:0:interrupt:3:hex: 3:0:umask:0:hex:\n",
            ),
        ],
    ),
    (
        "Trail::page",
        &[
            Page(0, 9, "records 0\n"),
            Push("mq-open /jobs rw --create", None),
            Push("sem-open /lock --create", None),
            Page(0, 9, "records 2 0:0:mq-open:0:/jobs 1:0:sem-open:0:/lock\n"),
            Page(1, 1, "records 1 1:0:sem-open:0:/lock\n"),
        ],
    ),
];

fn push(
    trail: &mut Trail,
    alloc: Global,
    command: &str,
    rule: Option<Rule>,
) -> Result<bool, Fault> {
    let event = act(alloc, 0, command)?;
    let place = trail.len();
    trail.reserve_one()?;
    trail.push_reserved(Record { event, rule });
    Ok(trail.len() == place.wrapping_add(1))
}

fn is_page(
    trail: &Trail,
    alloc: Global,
    start: u64,
    count: u16,
    line: &str,
) -> Result<bool, Fault> {
    let answer = Answer::Records(trail.page(alloc, start, count)?);
    let mut text = String::new(alloc);
    put_lines(&mut text, slice::from_ref(&answer))?;
    Ok(text.as_str() == line)
}

impl Subject for Trail {
    type Step = Step;

    /// How many records there are, and what is seen of the second.
    type Seen = (usize, Option<Receipt>);

    fn gives(&mut self, alloc: Global, step: &Step) -> Result<bool, Fault> {
        match *step {
            Push(command, rule) => push(self, alloc, command, rule),
            Page(start, count, line) => is_page(self, alloc, start, count, line),
        }
    }

    fn seen(&self, _alloc: Global, _step: &Step) -> Result<Self::Seen, Fault> {
        Ok((self.len(), self.receipt(1)))
    }
}

impl Fresh for Trail {
    fn fresh(alloc: Global) -> Result<Trail, Fault> {
        Ok(Trail::new(alloc))
    }
}
