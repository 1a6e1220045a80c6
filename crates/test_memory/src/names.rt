//! Directories.

use crate::fault::Fault;
use crate::made::name;
use crate::subject::{Fresh, Subject};
use ipc_names::{NameDir, NameHashing};
use ipc_terms::{Family, Name};
use std::alloc::Global;

pub enum Step {
    /// Binds a name that is unbound.
    Bind(&'static [u8], u64),
    Unbind(&'static [u8], Option<u64>),
    /// The names of a page, each with its object, as they are seen.
    List(u32, u16, &'static [u8]),
}

use Step::{Bind, List, Unbind};

pub static CASES: [(&str, &[Step]); 2] = [
    (
        "NameDir::bind",
        &[
            Bind(b"/b", 7),
            Bind(b"/a", 8),
            Bind(b"/c", 9),
            Unbind(b"/b", Some(7)),
            Bind(b"/d", 10),
            Bind(b"/b", 11),
            List(0, 10, b"/a\x08/c\x09/d\x0a/b\x0b"),
        ],
    ),
    (
        "NameDir::list",
        &[
            List(0, 10, b""),
            Bind(b"/one", 1),
            Bind(b"/two", 2),
            Bind(b"/three", 3),
            List(0, 10, b"/one\x01/two\x02/three\x03"),
            List(1, 1, b"/two\x02"),
        ],
    ),
];

fn bind(directory: &mut NameDir, added: Name, object: u64) -> Result<bool, Fault> {
    if directory.get(&added).is_some() {
        return Ok(false);
    }
    directory.bind(added, object)?;
    Ok(true)
}

/// The names of a page, each with the last byte of its object's number.
fn page(directory: &NameDir, alloc: Global, start: u32, count: u16) -> Result<Vec<u8>, Fault> {
    let names = directory.list(alloc, start, count)?;
    let mut shown = Vec::new(alloc);
    for name in names.as_slice() {
        shown.extend_from_slice(name.as_slice())?;
        let [.., object] = directory.get(name).unwrap_or(0).to_be_bytes();
        shown.push(object)?;
    }
    Ok(shown)
}

impl Subject for NameDir {
    type Step = Step;

    type Seen = Vec<u8>;

    fn gives(&mut self, alloc: Global, step: &Step) -> Result<bool, Fault> {
        Ok(match *step {
            Bind(text, object) => bind(self, name(alloc, text)?, object)?,
            Unbind(text, wanted) => self.unbind(&name(alloc, text)?) == wanted,
            List(start, count, wanted) => page(self, alloc, start, count)?.as_slice() == wanted,
        })
    }

    fn seen(&self, alloc: Global, _step: &Step) -> Result<Vec<u8>, Fault> {
        page(self, alloc, 0, 1_000)
    }
}

impl Fresh for NameDir {
    fn fresh(alloc: Global) -> Result<NameDir, Fault> {
        Ok(NameDir::new(alloc, Family::Mq, NameHashing::new(7)))
    }
}
