//! Directories, as tables of steps, and what has the form of a name.

use ipc_access::DirFacts;
use ipc_names::{NameDir, NameHashing, check, has_form, is_long};
use ipc_terms::{Family, Gid, Mode, Name, NoMemory, Rule, Uid};
use std::alloc::{AllocError, Global};
use std::test::Fail;
use test_made::{joined, name};

/// One step on a directory, and what it is to give.
enum Step {
    /// Starts again, with an empty directory of the family.
    New(Family),
    /// Binds a name that is unbound.
    Bind(&'static str, u64),
    Unbind(&'static str, Option<u64>),
    Get(&'static str, Option<u64>),
    NamesObject(u64, bool),
    /// The names of a page, one after the other.
    List(u32, u16, &'static str),
    SetMode(u16),
    SetOwner(u32, u32),
    /// The owner, the group and the mode.
    Facts(u32, u32, u16),
}

use Step::{Bind, Facts, Get, List, NamesObject, New, SetMode, SetOwner, Unbind};

/// Binds the name, and says whether it was unbound.
fn binds(directory: &mut NameDir, added: Name, object: u64) -> Result<bool, NoMemory> {
    if directory.get(&added).is_some() {
        return Ok(false);
    }
    directory.bind(added, object)?;
    Ok(true)
}

/// Whether the names of the page, one after the other, are this text.
fn lists(
    alloc: Global,
    directory: &NameDir,
    start: u32,
    count: u16,
    wanted: &str,
) -> Result<bool, NoMemory> {
    let names = directory.list(alloc, start, count)?;
    Ok(joined(alloc, names.as_slice())?.as_slice() == wanted.as_bytes())
}

/// Whether the directory has these facts.
fn has_facts(directory: &NameDir, owner: u32, group: u32, mode: u16) -> bool {
    directory.facts()
        == DirFacts {
            owner: Uid(owner),
            group: Gid(group),
            mode: Mode(mode),
        }
}

fn unbinds(
    alloc: Global,
    directory: &mut NameDir,
    text: &str,
    wanted: Option<u64>,
) -> Result<bool, NoMemory> {
    let meant = name(alloc, text.as_bytes())?;
    Ok(directory.unbind(&meant) == wanted)
}

/// Does the step, and says whether it gave what it is to give.
fn gives(alloc: Global, directory: &mut NameDir, step: &Step) -> Result<bool, NoMemory> {
    Ok(match *step {
        New(family) => starts(alloc, directory, family),
        Bind(text, object) => binds(directory, name(alloc, text.as_bytes())?, object)?,
        Unbind(text, wanted) => unbinds(alloc, directory, text, wanted)?,
        Get(text, wanted) => directory.get(&name(alloc, text.as_bytes())?) == wanted,
        NamesObject(object, wanted) => directory.names_object(object) == wanted,
        List(start, count, wanted) => lists(alloc, directory, start, count, wanted)?,
        SetMode(mode) => {
            directory.set_mode(Mode(mode));
            true
        }
        SetOwner(owner, group) => {
            directory.set_owner(Uid(owner), Gid(group));
            true
        }
        Facts(owner, group, mode) => has_facts(directory, owner, group, mode),
    })
}

/// Starts again, and says whether the directory is of the family.
fn starts(alloc: Global, directory: &mut NameDir, family: Family) -> bool {
    *directory = NameDir::new(alloc, family, NameHashing::new(7));
    directory.family() == family
}

/// Does the steps in order.
fn all_give(alloc: Global, directory: &mut NameDir, steps: &[Step]) -> Result<(), Fail> {
    for (row, step) in steps.iter().enumerate() {
        if !gives(alloc, directory, step)? {
            return Err(Fail::new(format_args!("row {row} gives something else")));
        }
    }
    Ok(())
}

static STEPS: [Step; 41] = [
    // Names are listed in the order in which they were bound.
    New(Family::Mq),
    List(0, 10, ""),
    Bind("/b", 7),
    Bind("/a", 8),
    List(0, 10, "/b/a"),
    Get("/b", Some(7)),
    Get("/a", Some(8)),
    Get("/", None),
    Get("/ab", None),
    NamesObject(7, true),
    NamesObject(9, false),
    Unbind("/b", Some(7)),
    Get("/b", None),
    NamesObject(7, false),
    NamesObject(8, true),
    List(0, 10, "/a"),
    Unbind("/b", None),
    Bind("/b", 9),
    List(0, 10, "/a/b"),
    // Pages.
    New(Family::Sem),
    Bind("/d", 0),
    Bind("/c", 1),
    Bind("/b", 2),
    Bind("/a", 3),
    List(0, 0, ""),
    List(0, 1, "/d"),
    List(1, 2, "/c/b"),
    List(2, 2, "/b/a"),
    List(2, 3, "/b/a"),
    List(3, u16::MAX, "/a"),
    List(4, 1, ""),
    List(5, 1, ""),
    List(u32::MAX, u16::MAX, ""),
    // Facts.
    New(Family::Mq),
    Bind("/a", 8),
    Facts(0, 0, 0o1777),
    SetMode(0o755),
    Facts(0, 0, 0o755),
    SetOwner(1000, 50),
    Facts(1000, 50, 0o755),
    Get("/a", Some(8)),
];

#[test]
fn worked_directories(rt: HostRuntime) -> Result<(), Fail> {
    let mut directory = NameDir::new(rt.alloc(), Family::Mq, NameHashing::new(7));
    all_give(rt.alloc(), &mut directory, &STEPS)
}

/// What has the form of a name, and what hasn't.
static FORMS: [(&[u8], bool); 9] = [
    (b"", false),
    (b"ab", false),
    (b"//", false),
    (b"/a/", false),
    (b"/\0", false),
    (b"/a", true),
    (b"/...", true),
    (b"/.a", true),
    (b"/ \xff\n", true),
];

#[test]
fn names_have_a_form(_rt: HostRuntime) -> Result<(), Fail> {
    for (text, fine) in &FORMS {
        let wanted = if *fine { Ok(()) } else { Err(Rule::NameForm) };
        if has_form(text) != *fine
            || check(Family::Mq, text) != wanted
            || check(Family::Sem, text) != wanted
        {
            return Err(Fail::new(format_args!("at {text:?}")));
        }
    }
    Ok(())
}

/// Whether a name of so many bytes is long in the family, which is asked only where it has the form.
fn is_long_as(
    alloc: Global,
    family: Family,
    length: usize,
    long: bool,
) -> Result<bool, AllocError> {
    let mut name = Vec::from_elem(alloc, b'a', length)?;
    let is_formless = check(family, &name) == Err(Rule::NameForm);
    let Some(first) = name.first_mut() else {
        return Ok(false);
    };
    *first = b'/';
    let wanted = if long { Err(Rule::NameLong) } else { Ok(()) };
    Ok(is_formless && is_long(family, &name) == long && check(family, &name) == wanted)
}

#[test]
fn names_have_a_greatest_length(rt: HostRuntime) -> Result<(), Fail> {
    assert!(rt; is_long_as(rt.alloc(), Family::Mq, 256, false)?);
    assert!(rt; is_long_as(rt.alloc(), Family::Mq, 257, true)?);
    assert!(rt; is_long_as(rt.alloc(), Family::Sem, 252, false)?);
    assert!(rt; is_long_as(rt.alloc(), Family::Sem, 253, true)?);
    Ok(())
}
