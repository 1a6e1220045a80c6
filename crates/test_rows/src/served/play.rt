//! Labelled sessions over the loop: each is a connection, and each step a frame.

use anyhow::{Result, bail};
use ipc_client::frame_of_words;
use ipc_core::Config;
use ipc_lines::words_of;
use ipc_loop::{Ending, Keeping, Server};
use ipc_terms::{Answer, Bytes};
use ipc_wire::{Request, read_answer, remove_front, write_request};
use ipc_words::{WordFault, put_fault, put_line, read_decimal};
use std::alloc::{AllocError, Global};
use std::collections::BTreeMap;
use test_links::{Cut, Entry, Recorder, settle};

/// How many links are open at once.
const CONNECTIONS: usize = 4_096;

/// The peer of a link.
#[derive(Drop)]
struct Peer {
    /// Who started it, or tried to.
    label: String,
    /// What its link took that is no whole answer yet.
    kept: Vec<u8>,
    /// Its session was started, and not hung up.
    is_live: bool,
}

/// A server over the recorder, and labelled peers.
#[derive(Drop)]
pub struct Play {
    alloc: Global,
    server: Server,
    host: Recorder,
    peers: Vec<Peer>,
    /// By label, the link of the session that it started last.
    newest: BTreeMap<String, u64>,
    /// How many moves were looked at.
    seen: usize,
    /// What a script writes.
    output: String,
    /// How many calls were left out, since their label had no session.
    left_out: u64,
}

/// Whether the word is a label: 1 to 16 lower-case ASCII letters or digits.
fn is_label(word: &str) -> bool {
    1 <= word.len() && word.len() <= 16 && has_label_bytes(word.as_bytes())
}

fn has_label_bytes(bytes: &[u8]) -> bool {
    bytes
        .iter()
        .all(|byte| matches!(*byte, b'a'..=b'z' | b'0'..=b'9'))
}

/// The frame of a hello.
fn frame_of_hello(alloc: Global, key: &str) -> Result<Vec<u8>> {
    let key = Bytes::from_slice(alloc, key.as_bytes())?;
    Ok(write_request(alloc, &Request::Hello(key))?)
}

/// How a link has ended behind its hello: where no session was started, the hello was refused.
fn ending_of(is_live: bool) -> Option<Ending> {
    if is_live { None } else { Some(Ending::BadKey) }
}

impl Play {
    pub fn new(alloc: Global, config: Config, cut: Cut, keeping: Keeping) -> Result<Play> {
        let mut server = Server::new(alloc, config, CONNECTIONS, None)?;
        server.keep(keeping);
        Ok(Play {
            alloc,
            server,
            host: Recorder::new(alloc, cut),
            peers: Vec::new(alloc),
            newest: BTreeMap::new(alloc),
            seen: 0,
            output: String::new(alloc),
            left_out: 0,
        })
    }

    /// What was written, and how many calls were left out.
    pub fn into_output(self) -> (String, u64) {
        (self.output, self.left_out)
    }

    /// Plays a line of a script.
    pub fn take_line(&mut self, line: &str) -> Result<()> {
        if line.is_empty() || line.starts_with('#') {
            return Ok(());
        }
        let words = words_of(self.alloc, line)?;
        match words.as_slice() {
            [label, asked @ ..] if is_label(label) => self.ask(label, asked),
            _ => Ok(self.output.push_str("- fault line\n")?),
        }
    }

    fn ask(&mut self, label: &str, words: &[&str]) -> Result<()> {
        let [verb, rest @ ..] = words else {
            return self.call(label, words);
        };
        match (*verb, rest) {
            ("hello", [key]) => self.hello(label, key),
            ("hangup", []) => self.hang_up(label),
            ("tick", [moment]) => self.tick(label, moment),
            ("hello" | "hangup" | "tick", _) => self.blame(label, &WordFault::Usage),
            _ => self.call(label, words),
        }
    }

    /// Writes the fault of a label's words.
    fn blame(&mut self, label: &str, fault: &WordFault) -> Result<()> {
        self.output.push_str(label)?;
        self.output.push_str(" ")?;
        put_fault(&mut self.output, fault)?;
        self.output.push_str("\n")?;
        Ok(())
    }

    /// Connects a link for a session of the label.
    fn connect(&mut self, label: &str) -> Result<u64> {
        let label = String::from_str(self.alloc, label)?;
        self.peers.push(Peer {
            label,
            kept: Vec::new(self.alloc),
            is_live: false,
        })?;
        Ok(self.host.connect()?)
    }

    /// Sends a hello over a new link, which is closed where it is refused.
    fn hello(&mut self, label: &str, key: &str) -> Result<()> {
        let frame = frame_of_hello(self.alloc, key)?;
        let number = self.connect(label)?;
        self.host.send(number, &frame)?;
        self.collect(Some(number))?;
        self.check_ending(number, ending_of(self.is_live(number)))
    }

    fn hang_up(&mut self, label: &str) -> Result<()> {
        let Some(number) = self.link_of(label) else {
            return self.leave_out(label);
        };
        self.end(number)?;
        self.collect(None)
    }

    /// The link's peer sends no more, so that it is closed.
    fn end(&mut self, number: u64) -> Result<()> {
        self.host.finish(number);
        if let Some(peer) = self.peers.get_mut(number as usize) {
            peer.is_live = false;
        }
        self.rest()?;
        self.check_ending(number, Some(Ending::Closed))
    }

    fn tick(&mut self, label: &str, moment: &str) -> Result<()> {
        let Some(moment) = read_decimal(moment, u64::MAX) else {
            return self.blame(label, &WordFault::BadValue("moment"));
        };
        self.host.show(moment);
        self.collect(None)
    }

    fn call(&mut self, label: &str, words: &[&str]) -> Result<()> {
        let frame = match frame_of_words(self.alloc, words) {
            Ok(frame) => frame,
            Err(fault) => return self.blame(label, &fault),
        };
        let Some(number) = self.link_of(label) else {
            return self.leave_out(label);
        };
        self.host.send(number, &frame)?;
        self.collect(Some(number))
    }

    /// Nobody is there to make the call; a script refuses it.
    fn leave_out(&mut self, label: &str) -> Result<()> {
        self.left_out = self.left_out.saturating_add(1);
        self.output.push_str(label)?;
        self.output.push_str(" refused 1 ESRCH NoSession\n")?;
        Ok(())
    }

    fn is_live(&self, number: u64) -> bool {
        self.peers
            .get(number as usize)
            .is_some_and(|peer| peer.is_live)
    }

    /// The link of the label's newest session, if that is live.
    fn link_of(&self, label: &str) -> Option<u64> {
        let number = self.newest.get(label).copied()?;
        self.is_live(number).then_some(number)
    }

    fn check_ending(&self, number: u64, wanted: Option<Ending>) -> Result<()> {
        if self.host.ending(number) != wanted {
            bail!("link {number} ends otherwise");
        }
        Ok(())
    }

    /// Has the server come to rest.
    fn rest(&mut self) -> Result<()> {
        if !settle(&mut self.server, &mut self.host)? {
            bail!("the server goes on");
        }
        Ok(())
    }

    /// Writes what was answered since: first by this link, and then by others.
    fn collect(&mut self, first: Option<u64>) -> Result<()> {
        self.rest()?;
        let takers = self.take_moves()?;
        if let Some(number) = first {
            self.write_answers(number)?;
        }
        for number in takers {
            self.write_answers(number)?;
        }
        Ok(())
    }

    /// Puts what links took since to what is kept of each. The links, in order.
    fn take_moves(&mut self) -> Result<Vec<u64>, AllocError> {
        let mut takers = Vec::new(self.alloc);
        for entry in self.host.moves().iter().skip(self.seen) {
            if let Entry::Took(number, bytes, _) = entry {
                if let Some(peer) = self.peers.get_mut(*number as usize) {
                    peer.kept.extend_from_slice(bytes)?;
                    takers.push(*number)?;
                }
            }
        }
        self.seen = self.host.moves().len();
        Ok(takers)
    }

    /// Writes a line for each whole answer that is kept of the link.
    fn write_answers(&mut self, number: u64) -> Result<()> {
        for _ in 0..u64::MAX {
            let Some(answer) = self.next_answer(number)? else {
                break;
            };
            self.write_answer(number, &answer)?;
        }
        Ok(())
    }

    /// Takes the next whole answer of what is kept of the link.
    fn next_answer(&mut self, number: u64) -> Result<Option<Answer>> {
        let Some(peer) = self.peers.get_mut(number as usize) else {
            return Ok(None);
        };
        match read_answer(self.alloc, &peer.kept) {
            Ok(Some((answer, length))) => {
                remove_front(self.alloc, &mut peer.kept, length);
                Ok(Some(answer))
            }
            Ok(None) => Ok(None),
            Err(fault) => bail!("link {number} takes no answer: {fault}"),
        }
    }

    /// Writes an answer under the label of the link. One that starts a session has it act for the label.
    fn write_answer(&mut self, number: u64, answer: &Answer) -> Result<()> {
        let Some(peer) = self.peers.get_mut(number as usize) else {
            return Ok(());
        };
        if let Answer::Started(_) = answer {
            peer.is_live = true;
            let label = String::from_str(self.alloc, peer.label.as_str())?;
            self.newest.insert(label, number)?;
        }
        self.output.push_str(peer.label.as_str())?;
        self.output.push_str(" ")?;
        put_line(&mut self.output, answer)?;
        self.output.push_str("\n")?;
        Ok(())
    }

    /// Ends all links that are open: no other ending came before.
    pub fn end_all(&mut self) -> Result<()> {
        for number in 0..self.peers.len() as u64 {
            if self.is_live(number) {
                self.check_ending(number, None)?;
                self.end(number)?;
            }
        }
        Ok(())
    }
}
