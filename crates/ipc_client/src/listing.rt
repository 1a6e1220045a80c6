//! The queues and the semaphores, a line each.

ghost use Rattle.std.specs.Prelude.{◌≡◌, [], ◌∷◌, IfOk, OnOk, Some, codes, map};
ghost use Rattle.ipc_client.specs.Dialogues.{Talks, incoming_of, link};
ghost use Rattle.ipc_client.specs.Lists.{FamilyGoes, ListEnds, Looks, NameGoes, NamesGo, PageGoes, PageGoesOn, look_of, names_in, tells_names, word_of};

use crate::acts::Act;
use crate::fault::ClientFault;
use crate::frame::decimal_of;
use crate::session::{Session, opened_by};
use ipc_lines::words_of;
use ipc_terms::{Answer, Family, NoMemory};
use ipc_words::line_of_answer;
use std::alloc::{AllocError, Global};
use std::io::{Read, Write};

impl<R: Read + Drop, O: Write + Drop> Session<R, O> {
    /// Writes a line for each queue, and then for each semaphore. `true` where their names were told.
    pub(crate) fn list<W: Write>(&mut self, writer: &mut W) -> Result<bool, ClientFault>
        ensures { IfOk result (λ is_done. Talks (ListEnds is_done) (link R.remaining W.contents self.old writer.old) (link R.remaining W.contents self.new writer.new)) }
    {
        let queues = self.list_family(writer, Family::Mq)?;
        let semaphores = self.list_family(writer, Family::Sem)?;
        Ok(queues & semaphores)
    }

    /// Writes a line for each object of a family, by creation: page by page, until one is empty.
    fn list_family<W: Write>(&mut self, writer: &mut W, family: Family) -> Result<bool, ClientFault>
        ensures { IfOk result (λ are_all_told. Talks (FamilyGoes family are_all_told) (link R.remaining W.contents self.old writer.old) (link R.remaining W.contents self.new writer.new)) }
    {
        let mut start: u64 = 0;
        for _ in 0..u64::MAX {
            let Some(count) = self.list_page(writer, family, start)? else {
                return Ok(false);
            };
            if count == 0 {
                return Ok(true);
            }
            let Some(behind) = start.checked_add(count) else {
                return Err(ClientFault::Net);
            };
            start = behind;
        }
        // The connection's reads end long before.
        Err(ClientFault::Net)
    }

    /// Writes a line for each name that one answer tells, from this position on, and counts them. An answer that
    /// tells none is written.
    fn list_page<W: Write>(
        &mut self,
        writer: &mut W,
        family: Family,
        start: u64,
    ) -> Result<Option<u64>, ClientFault>
        ensures { IfOk result (λ count. Talks (PageGoes family start count) (link R.remaining W.contents self.old writer.old) (link R.remaining W.contents self.new writer.new)) }
    {
        let start = decimal_of(self.alloc, start)?;
        let page = self.ask_words(writer, &["ls", word_of(family), start.as_str(), "1000"])?;
        match &page {
            Some(answer) if tells_names(answer) => {
                let count = self.list_names(writer, family, answer)?;
                Ok(Some(count))
            }
            _ => {
                self.show(&page)?;
                Ok(None)
            }
        }
    }

    /// Writes a line for each name of an answer, and counts them.
    fn list_names<W: Write>(
        &mut self,
        writer: &mut W,
        family: Family,
        answer: &Answer,
    ) -> Result<u64, ClientFault>
        ensures { IfOk result (λ count. Talks (PageGoesOn family (Some (names_in answer.now)) (Some count)) (link R.remaining W.contents self.old writer.old) (link R.remaining W.contents self.new writer.new)) }
    {
        let line = line_of_answer(self.alloc, answer)?;
        let words = words_of(self.alloc, line.as_str())?;
        // The first two are `names` and their number.
        let names = words.get(2..).unwrap_or(&[]);
        self.list_each(writer, family, names)?;
        Ok(names.len() as u64)
    }

    fn list_each<W: Write>(
        &mut self,
        writer: &mut W,
        family: Family,
        names: &[&str],
    ) -> Result<(), ClientFault>
        ensures { OnOk result (Talks (NamesGo family (map (λ w. w.now) names.now)) (link R.remaining W.contents self.old writer.old) (link R.remaining W.contents self.new writer.new)) }
    {
        for name in names {
            self.list_name(writer, family, name)?;
        }
        Ok(())
    }

    /// Writes the line of an object: its family, name, owner, group and mode, and its number of messages or its
    /// value. What isn't told is `-`.
    fn list_name<W: Write>(
        &mut self,
        writer: &mut W,
        family: Family,
        name: &str,
    ) -> Result<(), ClientFault>
        ensures { OnOk result (Talks (NameGoes family name.now) (link R.remaining W.contents self.old writer.old) (link R.remaining W.contents self.new writer.new)) }
    {
        let words = stat_of(self.alloc, word_of(family), name)?;
        let facts = self.ask_words(writer, &words)?;
        let state = self.look(writer, look_of(family), name)?;
        self.write_object(word_of(family), name, &facts, &state)
    }

    /// Opens an object, asks for its messages or its value, and closes it.
    fn look<W: Write>(
        &mut self,
        writer: &mut W,
        act: Act,
        name: &str,
    ) -> Result<Option<Answer>, ClientFault>
        ensures { OnOk result (Talks (Looks act name.now) (link R.remaining W.contents self.old writer.old) (link R.remaining W.contents self.new writer.new)) }
    {
        let opened = self.ask_words(writer, &act.opening(self.alloc, name)?)?;
        let Some(desc) = opened_by(&opened) else {
            return Ok(None);
        };
        let desc = decimal_of(self.alloc, desc.0)?;
        let state = self.ask_words(writer, &act.acting(self.alloc, desc.as_str(), &[])?)?;
        self.close(writer, act, desc.as_str())?;
        Ok(state)
    }

    fn write_object(
        &mut self,
        family: &str,
        name: &str,
        facts: &Option<Answer>,
        state: &Option<Answer>,
    ) -> Result<(), ClientFault>
        ensures { incoming_of R.remaining self.new ≡ incoming_of R.remaining self.old }
    {
        put_object(&mut self.line, family, name, facts, state)?;
        self.write_line()
    }
}

/// The command that asks for an object's owner, group and mode.
fn stat_of<'a>(alloc: Global, family: &'a str, name: &'a str) -> Result<Vec<&'a str>, AllocError>
    ensures { IfOk result (λ words. map (λ w. w.now) words.items ≡ codes "stat" ∷ family.now ∷ name.now ∷ []) }
{
    Vec::from_slice(alloc, &["stat", family, name])
}

/// Lays out the line of an object.
fn put_object(
    line: &mut String,
    family: &str,
    name: &str,
    facts: &Option<Answer>,
    state: &Option<Answer>,
) -> Result<(), NoMemory> {
    line.clear();
    write!(line, "{family} {name} ")?;
    put_facts(line, facts)?;
    match state {
        Some(Answer::Attrs { messages, .. }) => write!(line, " {messages}\n")?,
        Some(Answer::Value(value)) => write!(line, " {value}\n")?,
        _ => line.push_str(" -\n")?,
    }
    Ok(())
}

/// Adds the owner, the group and the mode.
fn put_facts(line: &mut String, facts: &Option<Answer>) -> Result<(), NoMemory> {
    match facts {
        Some(Answer::Stat(facts)) => write!(
            line,
            "{} {} {:04o}",
            facts.owner.0, facts.group.0, facts.mode.0
        )?,
        _ => line.push_str("- - -")?,
    }
    Ok(())
}

fn tells_names(answer: &Answer) -> bool
    ensures { result ≡ tells_names answer.now }
{
    matches!(answer, Answer::Names(_))
}

fn word_of(family: Family) -> &'static str
    ensures { result.now ≡ word_of family }
{
    match family {
        Family::Mq => "mq",
        Family::Sem => "sem",
    }
}

/// The act as which an object is opened, asked for its messages or its value, and closed.
fn look_of(family: Family) -> Act
    ensures { result ≡ look_of family }
{
    match family {
        Family::Mq => Act::Receive,
        Family::Sem => Act::Value,
    }
}
