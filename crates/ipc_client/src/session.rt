//! Commands over a connection, each with its answers.

ghost use Rattle.std.specs.Prelude.{◌≡◌, ◌≤◌, ◌++◌, IfOk, OnOk, Some, codes, length, map};
ghost use Rattle.std.specs.Io.KnownBytes.{Appends};
ghost use Rattle.std.specs.String.{string_bytes};
ghost use Rattle.ipc_wire.specs.Streams.{spell};
ghost use Rattle.ipc_wire.specs.declared.request.Request.TheVariants.{Hello};
ghost use Rattle.ipc_words.specs.Answers.{answer_line};
ghost use Rattle.ipc_client.specs.Connections.{Reads};
ghost use Rattle.ipc_client.specs.Dialogues.{Goes, IsAnswered, Says, Talks, bytes_of, incoming_of, is_accepted, is_notice, is_refusal, last_after, link, opened_by};
ghost use Rattle.ipc_client.specs.Sessions.{CommandEnds, HelloEnds, LineEnds, LinesEnd, SessionEnds, act_asked, arguments_of, is_list, is_start, name_of};

use crate::acts::{Act, act_of_word};
use crate::connection::{Connection, send};
use crate::encode::put_fault_line;
use crate::fault::ClientFault;
use crate::frame::{frame_of_command, frame_of_words};
use ipc_lines::{Lines, Output, words_of};
use ipc_terms::{Answer, Bytes, Desc, NoMemory};
use ipc_wire::{Request, WriteFault, write_request};
use ipc_words::{WordFault, put_line};
use std::alloc::Global;
use std::io::{Read, Write};

/// The most bytes of a key, which a hello has room for.
pub const LONGEST_KEY: usize = 65_535;

/// Starts a session with the key over a connection, and does what each line of `commands` asks for, words parted by
/// spaces and tabs. Writes the line of each answer, and waits for the next answer as long as only notices and
/// descriptions that others gave have come. A command at fault is not sent; its line is `fault usage`, or
/// `fault value` and the argument. A refused hello is written too and ends it; an accepted one isn't. Each line is
/// written at once.
///
/// A line is a command, in which `last` stands for the description D that such a line opened last; or one that names its
/// object, which is opened for it and closed again: `send NAME PRIO BYTES`, `receive NAME`, `post NAME`, `wait NAME`;
/// or `list`.
///
/// `true` where the session started and every command was done: its words have a frame, and no answer is a refusal.
///
/// # Errors
///
/// The first fault of a line, of `commands`, of `output` or of the connection ends it; the answers before it are
/// written. `Net`: the connection failed, ended before an answer, or gave what is no answer. An interrupted read is
/// made again; 1,000,000,000 reads of the connection are made at most, and as many of `commands`.
pub fn client_session<R: Read + Drop, W: Write, C: Read + Drop, O: Write + Drop>(
    alloc: Global,
    key: &[u8],
    conn_reader: R,
    conn_writer: &mut W,
    commands: C,
    output: O,
) -> Result<bool, ClientFault>
    requires short_key { length key.now ≤ 65535 }
    ensures { IfOk result (SessionEnds key.now (R.remaining conn_reader) (W.contents conn_writer.old) (W.contents conn_writer.new)) }
{
    let connection = Connection::new(alloc, conn_reader)?;
    let mut lines = Lines::new(alloc, commands)?;
    let mut session = Session {
        alloc,
        connection,
        output: Output::new(alloc, output)?,
        line: String::new(alloc),
    };
    if !session.start(conn_writer, key)? {
        return Ok(false);
    }
    session.run(conn_writer, &mut lines)
}

/// What comes over a connection, and where it is written.
#[derive(Drop)]
pub(crate) struct Session<R: Read + Drop, O: Write + Drop> {
    pub(crate) alloc: Global,
    connection: Connection<R>,
    output: Output<O>,
    /// The line that is written next.
    pub(crate) line: String,
}

impl<R: Read + Drop, O: Write + Drop> Session<R, O> {
    /// Says hello. `false` where no session started, whose answer is written.
    fn start<W: Write>(&mut self, writer: &mut W, key: &[u8]) -> Result<bool, ClientFault>
        requires short_key { length key.now ≤ 65535 }
        ensures { IfOk result (λ has_started. Talks (HelloEnds key.now has_started) (link R.remaining W.contents self.old writer.old) (link R.remaining W.contents self.new writer.new)) }
    {
        let frame = hello_frame(self.alloc, key)?;
        let answer = self.answer_to(writer, &frame)?;
        if is_start(&answer) {
            return Ok(true);
        }
        self.write_answer(&answer)?;
        Ok(false)
    }

    /// Does what each line asks for. `true` where all was done.
    fn run<W: Write, C: Read + Drop>(
        &mut self,
        writer: &mut W,
        lines: &mut Lines<C>,
    ) -> Result<bool, ClientFault>
        ensures { IfOk result (λ all_are_done. Talks (LinesEnd all_are_done) (link R.remaining W.contents self.old writer.old) (link R.remaining W.contents self.new writer.new)) }
    {
        let mut last = None;
        let mut all_are_done = true;
        for _ in 0..u64::MAX {
            let Some(line) = lines.next_line()? else {
                break;
            };
            let words = words_of(self.alloc, line)?;
            all_are_done &= self.follow(writer, &mut last, &words)?;
        }
        Ok(all_are_done)
    }

    /// Does what a line's words ask for. `true` where it was done.
    fn follow<W: Write>(
        &mut self,
        writer: &mut W,
        last: &mut Option<Desc>,
        words: &[&str],
    ) -> Result<bool, ClientFault>
        ensures { IfOk result (λ is_done. Talks (LineEnds last.old (map (λ w. w.now) words.now) last.new is_done) (link R.remaining W.contents self.old writer.old) (link R.remaining W.contents self.new writer.new)) }
    {
        if is_list(words) {
            return self.list(writer);
        }
        match act_asked(words) {
            Some(act) => self.act_by_name(writer, act, name_of(words), arguments_of(words)),
            None => self.call(writer, last, words),
        }
    }

    /// Sends a command, and writes its answer, or the fault of its words. `true` where it was done.
    fn call<W: Write>(
        &mut self,
        writer: &mut W,
        last: &mut Option<Desc>,
        words: &[&str],
    ) -> Result<bool, ClientFault>
        ensures { IfOk result (λ is_done. Talks (CommandEnds last.old (map (λ w. w.now) words.now) last.new is_done) (link R.remaining W.contents self.old writer.old) (link R.remaining W.contents self.new writer.new)) }
    {
        let frame = frame_of_command(self.alloc, *last, words);
        let outcome = self.ask(writer, frame)?;
        *last = last_after(opened_by(&outcome), *last);
        self.show(&outcome)
    }

    /// Sends a command, as `ask` does.
    pub(crate) fn ask_words<W: Write>(
        &mut self,
        writer: &mut W,
        words: &[&str],
    ) -> Result<Option<Answer>, ClientFault>
        ensures { IfOk result (λ outcome. Talks (Says (map (λ w. w.now) words.now) outcome) (link R.remaining W.contents self.old writer.old) (link R.remaining W.contents self.new writer.new)) }
    {
        let frame = frame_of_words(self.alloc, words);
        self.ask(writer, frame)
    }

    /// Sends a command's frame, and gives the answer, which is not written. Where the words had a fault in place of a
    /// frame, that is written, and nothing sent.
    pub(crate) fn ask<W: Write>(
        &mut self,
        writer: &mut W,
        frame: Result<Vec<u8>, WordFault>,
    ) -> Result<Option<Answer>, ClientFault>
        ensures { IfOk result (λ outcome. Talks (Goes (bytes_of frame) outcome) (link R.remaining W.contents self.old writer.old) (link R.remaining W.contents self.new writer.new)) }
    {
        match frame {
            Ok(frame) => Ok(Some(self.answer_to(writer, &frame)?)),
            Err(WordFault::NoMemory) => Err(ClientFault::Memory),
            Err(fault) => {
                put_fault_line(&mut self.line, &fault)?;
                self.write_line()?;
                Ok(None)
            }
        }
    }

    /// Sends a request, and waits for its answer. The notices and descriptions that come before it are written.
    fn answer_to<W: Write>(&mut self, writer: &mut W, frame: &[u8]) -> Result<Answer, ClientFault>
        ensures answered { IfOk result (λ answer. Reads (IsAnswered answer) (incoming_of R.remaining self.old) (incoming_of R.remaining self.new)) }
        ensures sent { OnOk result (Appends (W.contents writer.old) (W.contents writer.new) frame.now) }
    {
        send(writer, frame)?;
        for _ in 0..u64::MAX {
            let answer = self.connection.next_answer(self.alloc)?;
            if !is_notice(&answer) {
                return Ok(answer);
            }
            self.write_answer(&answer)?;
        }
        // The connection's reads end long before.
        Err(ClientFault::Net)
    }

    /// Writes what a command was answered, if it was sent. `true` where it was done.
    pub(crate) fn show(&mut self, outcome: &Option<Answer>) -> Result<bool, ClientFault>
        ensures kept { incoming_of R.remaining self.new ≡ incoming_of R.remaining self.old }
        ensures done { IfOk result (λ is_done. is_done ≡ is_accepted outcome.now) }
    {
        match outcome {
            Some(answer) => {
                self.write_answer(answer)?;
                Ok(!is_refusal(answer))
            }
            None => Ok(false),
        }
    }

    /// Writes a refusal, and no other answer. `true` where the command was done.
    pub(crate) fn show_refusal(&mut self, outcome: &Option<Answer>) -> Result<bool, ClientFault>
        ensures kept { incoming_of R.remaining self.new ≡ incoming_of R.remaining self.old }
        ensures done { IfOk result (λ is_done. is_done ≡ is_accepted outcome.now) }
    {
        match outcome {
            Some(answer) if !is_refusal(answer) => Ok(true),
            _ => self.show(outcome),
        }
    }

    fn write_answer(&mut self, answer: &Answer) -> Result<(), ClientFault>
        ensures { incoming_of R.remaining self.new ≡ incoming_of R.remaining self.old }
    {
        put_answer_line(&mut self.line, answer)?;
        self.write_line()
    }

    /// Writes the line at once, so that whoever reads it has it before anything is waited for.
    pub(crate) fn write_line(&mut self) -> Result<(), ClientFault>
        ensures { incoming_of R.remaining self.new ≡ incoming_of R.remaining self.old }
    {
        self.output.put(self.line.as_str())?;
        self.output.flush()?;
        Ok(())
    }
}

/// Lays out the line of an answer, with its line end.
fn put_answer_line(line: &mut String, answer: &Answer) -> Result<(), NoMemory>
    ensures { OnOk result (string_bytes line.new ≡ answer_line answer.now ++ codes "\n") }
{
    line.clear();
    put_line(line, answer)?;
    line.push_str("\n")?;
    Ok(())
}

/// The frame of a hello with the key.
fn hello_frame(alloc: Global, key: &[u8]) -> Result<Vec<u8>, NoMemory>
    requires short_key { length key.now ≤ 65535 }
    ensures { IfOk result (λ frame. spell (Hello key.now) ≡ Some frame.items) }
{
    match write_request(alloc, &Request::Hello(Bytes::from_slice(alloc, key)?)) {
        Ok(frame) => Ok(frame),
        Err(WriteFault::NoMemory) => Err(NoMemory),
        Err(WriteFault::TooLong) => unreachable!(),
    }
}

/// Whether a line is `list` alone.
fn is_list(words: &[&str]) -> bool
    ensures { result ≡ is_list (map (λ w. w.now) words.now) }
{
    match words {
        [word] => *word == "list",
        _ => false,
    }
}

/// The act of a line's first word, where a name stands behind it.
fn act_asked(words: &[&str]) -> Option<Act>
    ensures { result ≡ act_asked (map (λ w. w.now) words.now) }
{
    match words {
        [word, _, ..] => act_of_word(word),
        _ => None,
    }
}

/// The word behind the first, if there is one.
fn name_of<'a>(words: &[&'a str]) -> &'a str
    ensures { result.now ≡ name_of (map (λ w. w.now) words.now) }
{
    match words {
        [_, name, ..] => name,
        _ => "",
    }
}

/// The words behind the first two.
fn arguments_of<'a, 'b>(words: &'b [&'a str]) -> &'b [&'a str]
    ensures { map (λ w. w.now) result.now ≡ arguments_of (map (λ w. w.now) words.now) }
{
    match words {
        [_, _, arguments @ ..] => arguments,
        _ => &[],
    }
}

/// Whether the answer to a hello starts its session.
fn is_start(answer: &Answer) -> bool
    ensures { result ≡ is_start answer.now }
{
    matches!(answer, Answer::Started(_))
}

/// Whether the answer is a notice, or tells of a description that another session gave: it is no call's.
fn is_notice(answer: &Answer) -> bool
    ensures { result ≡ is_notice answer.now }
{
    matches!(answer, Answer::Notice(_) | Answer::Taken(_))
}

/// The description that an answer tells of an open.
pub(crate) fn opened_by(outcome: &Option<Answer>) -> Option<Desc>
    ensures { result ≡ opened_by outcome.now }
{
    match outcome {
        Some(Answer::Opened(desc)) => Some(*desc),
        _ => None,
    }
}

/// The description opened last, behind an answer.
fn last_after(opened: Option<Desc>, last: Option<Desc>) -> Option<Desc>
    ensures { result ≡ last_after opened last }
{
    match opened {
        Some(desc) => Some(desc),
        None => last,
    }
}

fn is_refusal(answer: &Answer) -> bool
    ensures { result ≡ is_refusal answer.now }
{
    matches!(answer, Answer::Refused(_))
}
