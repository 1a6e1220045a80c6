//! Commands that name their object: each opens it, acts on it, and closes it again.

ghost use Rattle.std.specs.Prelude.{◌≡◌, [], ◌∷◌, IfOk, map};
ghost use Rattle.ipc_client.specs.Acts.{ActEnds, ByNameEnds, Does, IsOpening, act_of_word, acting, acting_word, closing, closing_word, opening, size_told};
ghost use Rattle.ipc_client.specs.Dialogues.{Says, Talks, bytes_of, link};

use crate::fault::ClientFault;
use crate::frame::{decimal_of, frame_of_words};
use crate::session::{Session, opened_by};
use ipc_terms::Answer;
use ipc_words::WordFault;
use std::alloc::{AllocError, Global};
use std::io::{Read, Write};

/// What a command does with the object that it names.
#[derive(Clone, Copy, Drop)]
pub(crate) enum Act {
    Send,
    Receive,
    Post,
    Wait,
    /// Asks for a semaphore's value.
    Value,
}

/// The act of a command's word. No word asks for `Value` alone.
pub(crate) fn act_of_word(word: &str) -> Option<Act>
    ensures { result ≡ act_of_word word.now }
{
    match word {
        "send" => Some(Act::Send),
        "receive" => Some(Act::Receive),
        "post" => Some(Act::Post),
        "wait" => Some(Act::Wait),
        _ => None,
    }
}

impl Act {
    /// The command that opens the object of this name.
    pub(crate) fn opening<'a>(
        self,
        alloc: Global,
        name: &'a str,
    ) -> Result<Vec<&'a str>, AllocError>
        ensures { IfOk result (λ words. map (λ w. w.now) words.items ≡ opening self name.now) }
    {
        match self {
            Act::Send => Vec::from_slice(alloc, &["mq-open", name, "w"]),
            Act::Receive => Vec::from_slice(alloc, &["mq-open", name, "r"]),
            Act::Post | Act::Wait | Act::Value => Vec::from_slice(alloc, &["sem-open", name]),
        }
    }

    /// The command that acts by a description; of a receive, the one that asks for the queue's message size first.
    pub(crate) fn acting<'a>(
        self,
        alloc: Global,
        desc: &'a str,
        arguments: &[&'a str],
    ) -> Result<Vec<&'a str>, AllocError>
        ensures { IfOk result (λ words. map (λ w. w.now) words.items ≡ acting self desc.now (map (λ w. w.now) arguments.now)) }
    {
        let mut words = command_of(alloc, self.acting_word(), desc)?;
        words.extend_from_slice(arguments)?;
        Ok(words)
    }

    fn acting_word(self) -> &'static str
        ensures { result.now ≡ acting_word self }
    {
        match self {
            Act::Send => "mq-send",
            Act::Receive => "mq-getattr",
            Act::Post => "sem-post",
            Act::Wait => "sem-wait",
            Act::Value => "sem-getvalue",
        }
    }

    /// The command that closes a description.
    pub(crate) fn closing<'a>(
        self,
        alloc: Global,
        desc: &'a str,
    ) -> Result<Vec<&'a str>, AllocError>
        ensures { IfOk result (λ words. map (λ w. w.now) words.items ≡ closing self desc.now) }
    {
        let words = command_of(alloc, self.closing_word(), desc)?;
        Ok(words)
    }

    fn closing_word(self) -> &'static str
        ensures { result.now ≡ closing_word self }
    {
        match self {
            Act::Send | Act::Receive => "mq-close",
            Act::Post | Act::Wait | Act::Value => "sem-close",
        }
    }

    /// The frame that opens the object of this name, where the act's own words are not at fault either.
    fn opening_frame(
        self,
        alloc: Global,
        name: &str,
        arguments: &[&str],
    ) -> Result<Vec<u8>, WordFault>
        ensures { IsOpening self name.now (map (λ w. w.now) arguments.now) (bytes_of result) }
    {
        let frame = frame_of_words(alloc, &self.opening(alloc, name)?)?;
        let _unsent = frame_of_words(alloc, &self.acting(alloc, "0", arguments)?)?;
        Ok(frame)
    }
}

/// A command's word and its first argument.
fn command_of<'a>(
    alloc: Global,
    word: &'a str,
    argument: &'a str,
) -> Result<Vec<&'a str>, AllocError>
    ensures { IfOk result (λ words. map (λ w. w.now) words.items ≡ word.now ∷ argument.now ∷ []) }
{
    Vec::from_slice(alloc, &[word, argument])
}

/// The message size that a receive was told.
fn size_told(act: Act, outcome: &Option<Answer>) -> Option<u32>
    ensures { result ≡ size_told act outcome.now }
{
    match (act, outcome) {
        (Act::Receive, Some(Answer::Attrs { attributes, .. })) => Some(attributes.msgsize),
        _ => None,
    }
}

impl<R: Read + Drop, O: Write + Drop> Session<R, O> {
    /// Opens the object of this name, acts on it, and closes it. Writes the act's answer, and each refusal. `true`
    /// where nothing was refused or at fault.
    pub(crate) fn act_by_name<W: Write>(
        &mut self,
        writer: &mut W,
        act: Act,
        name: &str,
        arguments: &[&str],
    ) -> Result<bool, ClientFault>
        ensures { IfOk result (λ is_done. Talks (ByNameEnds act name.now (map (λ w. w.now) arguments.now) is_done) (link R.remaining W.contents self.old writer.old) (link R.remaining W.contents self.new writer.new)) }
    {
        let frame = act.opening_frame(self.alloc, name, arguments);
        let opened = self.ask(writer, frame)?;
        let Some(desc) = opened_by(&opened) else {
            self.show(&opened)?;
            return Ok(false);
        };
        let number = decimal_of(self.alloc, desc.0)?;
        let desc = number.as_str();
        let is_done = self.act(writer, act, desc, arguments)?;
        let is_closed = self.close(writer, act, desc)?;
        Ok(is_done & is_closed)
    }

    /// Acts by a description, and writes the answer. `true` where it was done.
    fn act<W: Write>(
        &mut self,
        writer: &mut W,
        act: Act,
        desc: &str,
        arguments: &[&str],
    ) -> Result<bool, ClientFault>
        ensures { IfOk result (λ is_done. Talks (ActEnds act desc.now (map (λ w. w.now) arguments.now) is_done) (link R.remaining W.contents self.old writer.old) (link R.remaining W.contents self.new writer.new)) }
    {
        let words = act.acting(self.alloc, desc, arguments)?;
        let outcome = self.ask_words(writer, &words)?;
        match size_told(act, &outcome) {
            Some(size) => {
                let size = decimal_of(self.alloc, u64::from(size))?;
                self.perform(writer, &["mq-receive", desc, size.as_str()])
            }
            None => self.show(&outcome),
        }
    }

    /// Sends a command, and writes its answer. `true` where it was done.
    fn perform<W: Write>(&mut self, writer: &mut W, words: &[&str]) -> Result<bool, ClientFault>
        ensures { IfOk result (λ is_done. Talks (Does (map (λ w. w.now) words.now) is_done) (link R.remaining W.contents self.old writer.old) (link R.remaining W.contents self.new writer.new)) }
    {
        let outcome = self.ask_words(writer, words)?;
        self.show(&outcome)
    }

    /// Closes a description, and writes a refusal alone. `true` where it was done.
    pub(crate) fn close<W: Write>(
        &mut self,
        writer: &mut W,
        act: Act,
        desc: &str,
    ) -> Result<bool, ClientFault>
        ensures { IfOk result (λ is_done. Talks (Does (closing act desc.now) is_done) (link R.remaining W.contents self.old writer.old) (link R.remaining W.contents self.new writer.new)) }
    {
        let closed = self.ask_words(writer, &act.closing(self.alloc, desc)?)?;
        self.show_refusal(&closed)
    }
}
