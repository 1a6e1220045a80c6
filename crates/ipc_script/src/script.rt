//! Running a script.

ghost use Rattle.std.specs.Prelude.{◌≡◌, ℕ, List, [], ◌∷◌, ◌++◌, IfErr, IfOk, Ok, Err, IfSome, OnOk, MatchResult, codes, false, map};
ghost use Rattle.std.specs.String.{string_bytes};
ghost use Rattle.std.specs.Io.KnownBytes.{Appends};
ghost use Rattle.ipc_access.specs.UserFile.{lines_of, users_of};
ghost use Rattle.ipc_lines.specs.Lines.{lines_read, unread, written};
ghost use Rattle.ipc_lines.specs.Reading.{lines_in};
ghost use Rattle.ipc_script.specs.Faults.{IsOfOutput, is_users_memory, of_line};
ghost use Rattle.ipc_script.specs.Labels.{acting_for, label_for};
ghost use Rattle.ipc_script.specs.Printing.{AskedPrint, FaultPrints, LinePrints, NoLabelPrints, ScriptWrites, StepPrints, WordsPrint, is_skipped, labelled_line, with_start};
ghost use Rattle.ipc_script.specs.Running.{AreWritten, FileIsRead, Prints, RunPrints};
ghost use Rattle.ipc_script.specs.Steps.{AskFor, IsCall, IsHangup, IsHello, IsTick, tick_at};
ghost use Rattle.ipc_script.specs.Told.{to_session};
ghost use Rattle.ipc_words.specs.FaultLines.{fault_line};
ghost use Rattle.ipc_words.specs.Readings.{Reads};

use crate::fault::ScriptFault;
use crate::labels::{Labels, is_label};
use crate::stepping::{Stepper, Told};
use ipc_access::Users;
use ipc_core::{Config, Limits};
use ipc_lines::{LineFault, Lines, Output, words_of};
use ipc_terms::{Answer, Event, NoMemory, Sid};
use ipc_words::{WordFault, call_of_words, put_fault, put_line, read_decimal};
use std::alloc::{AllocError, Global};
use std::io::{Read, Write};

/// Runs a script.
///
/// The input is a user file, a line `.`, and then one step a line: a label and what its session
/// does, parted by spaces or tabs. `LABEL hello KEY` starts a session; `LABEL hangup` ends the
/// session that the label started last, and other words are a call of that session. `LABEL tick MOMENT`
/// tells a moment of the clock in milliseconds; it is no session's, so any label may stand there. Empty
/// lines and lines that begin with `#` are skipped. Each answer of a step is written as a line, in their
/// order and under the label that started the session which it is for. So a call that is parked writes
/// none until a later step answers it: another session's, its own interrupt, or a tick.
///
/// Lines are written in blocks. What was answered is written and flushed before more input is waited
/// for, so whoever reads the answers has each before the next step is given.
///
/// # Errors
///
/// The first fault of the input, of the reader or of the writer ends the run; what was answered
/// before it is written. The user file is read whole, then its faults are looked for, then those
/// of the limits. A line is at fault that has more than 1,048,576 bytes without its line feed, or
/// that is not UTF-8. An interrupted read is made again; 1,000,000,000 reads are made at most. Want
/// of memory is always `Memory`.
pub fn run_script<R: Read + Drop, W: Write + Drop>(
    alloc: Global,
    limits: Limits,
    reader: R,
    writer: W,
) -> Result<(), ScriptFault>
    ensures { IfErr result (λ fault. is_users_memory fault ≡ false) }
{
    let (_writer, outcome) = run_script_on(alloc, limits, reader, writer)?;
    outcome?;
    Ok(())
}

/// Runs a script as `run_script` does, and gives the writer back beside how the run ended.
///
/// # Errors
///
/// The first fault that stands before the first step: of the users, of the limits, of the reader or of a line up to
/// the `.`; or want of memory. Nothing is written then, and the writer is dropped.
pub fn run_script_on<R: Read + Drop, W: Write + Drop>(
    alloc: Global,
    limits: Limits,
    reader: R,
    writer: W,
) -> Result<(W, Result<(), ScriptFault>), ScriptFault>
    ensures prints { IfOk result (λ ended. IfSome (R.remaining reader) (λ input. ScriptWrites limits (lines_in input) ended.1 (W.contents writer) (W.contents ended.0))) }
    ensures fault { IfErr result (λ fault. is_users_memory fault ≡ false) }
    ensures fault_of_a_step { IfOk result (λ ended. IfErr ended.1 (λ fault. is_users_memory fault ≡ false)) }
{
    let mut lines = Lines::new(alloc, reader)?;
    let core = read_core(alloc, limits, &mut lines)?;
    let mut script = Script::new(alloc, core, writer)?;
    let outcome = script.run(lines);
    // What was answered before the run ended is written, however it ended.
    let (writer, written) = script.output.finish();
    Ok((writer, ended(outcome, written)))
}

/// How a run ended: as its lines did, if what they print is written, and else by the writer's fault.
fn ended(
    outcome: Result<(), ScriptFault>,
    written: Result<(), LineFault>,
) -> Result<(), ScriptFault>
    ensures { MatchResult written (λ _. result ≡ outcome) (λ fault. result ≡ Err (of_line fault)) }
{
    match written {
        Ok(()) => outcome,
        Err(fault) => Err(ScriptFault::from(fault)),
    }
}

/// A core with the users of the lines up to a line `.`.
fn read_core<R: Read + Drop>(
    alloc: Global,
    limits: Limits,
    lines: &mut Lines<R>,
) -> Result<Stepper, ScriptFault>
    ensures core { IfOk result (λ core. (file : List ℕ)
        × FileIsRead [] file (lines_read lines.old) (lines_read lines.new) (unread R.remaining lines.old) (unread R.remaining lines.new)
        × (core.config ≡ record { users = users_of (lines_of file); limits = limits }) × (core.history ≡ [])) }
    ensures fault { IfErr result (λ fault. is_users_memory fault ≡ false) }
{
    let mut file = Vec::new(alloc);
    read_user_file(lines, &mut file)?;
    let users = Users::read(alloc, &file)?;
    let core = Stepper::new(alloc, Config { users, limits })?;
    Ok(core)
}

/// Adds the lines up to a line `.` to the file, each with a line end.
fn read_user_file<R: Read + Drop>(
    lines: &mut Lines<R>,
    file: &mut Vec<u8>,
) -> Result<(), ScriptFault>
    ensures read { OnOk result (FileIsRead file.old.items file.new.items (lines_read lines.old) (lines_read lines.new) (unread R.remaining lines.old) (unread R.remaining lines.new)) }
    ensures fault { IfErr result (λ fault. is_users_memory fault ≡ false) }
{
    for _ in 0..u64::MAX {
        if !lines.read_next()? {
            break;
        }
        let line = lines.line()?;
        if line == "." {
            return Ok(());
        }
        file.extend_from_slice(line.as_bytes())?;
        file.push(b'\n')?;
    }
    Err(ScriptFault::Line(lines.next_number()))
}

/// The hang-up of the session, by what stands behind `hangup`.
fn hang_up(sid: Sid, words: &[&str]) -> Result<Event, WordFault>
    ensures { IsHangup sid (map (λ w. w.now) words.now) result }
{
    if words.is_empty() {
        Ok(Event::Hangup { sid })
    } else {
        Err(WordFault::Usage)
    }
}

/// The tick of the moment that the word behind `tick` tells.
fn tick(words: &[&str]) -> Result<Event, WordFault>
    ensures { IsTick (map (λ w. w.now) words.now) result }
{
    match words {
        [moment] => tick_at(moment),
        _ => Err(WordFault::Usage),
    }
}

fn tick_at(moment: &str) -> Result<Event, WordFault>
    ensures { Reads (tick_at moment.now) result }
{
    match read_decimal(moment, u64::MAX) {
        Some(moment) => Ok(Event::Tick { moment }),
        None => Err(WordFault::BadValue("moment")),
    }
}

/// Whether it is an empty line or a comment.
fn is_skipped(line: &[u8]) -> bool
    ensures { result ≡ is_skipped line.now }
{
    match line {
        [] => true,
        [byte, ..] => *byte == b'#',
    }
}

/// A script that runs.
#[derive(Drop)]
struct Script<W: Write + Drop> {
    alloc: Global,
    core: Stepper,
    labels: Labels,
    output: Output<W>,
    /// The line that is written next.
    line: String,
}

/// Begins a line: a label, and a space.
fn begin_line(line: &mut String, label: &str) -> Result<(), AllocError>
    ensures { OnOk result (string_bytes line.new ≡ label.now ++ codes " ") }
{
    line.clear();
    line.push_str(label)?;
    line.push_str(" ")?;
    Ok(())
}

/// Lays out a line: a label, an answer, and a line end.
fn lay_answer(line: &mut String, label: &str, answer: &Answer) -> Result<(), NoMemory>
    ensures { OnOk result (string_bytes line.new ≡ labelled_line label.now answer.now) }
{
    begin_line(line, label)?;
    put_line(line, answer)?;
    line.push_str("\n")?;
    Ok(())
}

/// Lays out a line: a label, the fault of the words behind it, and a line end.
fn lay_fault(line: &mut String, label: &str, fault: &WordFault) -> Result<(), NoMemory>
    ensures { OnOk result (string_bytes line.new ≡ label.now ++ codes " " ++ fault_line fault.now ++ codes "\n") }
{
    begin_line(line, label)?;
    put_fault(line, fault)?;
    line.push_str("\n")?;
    Ok(())
}

impl<W: Write + Drop> Script<W> {
    fn new(alloc: Global, core: Stepper, writer: W) -> Result<Self, ScriptFault>
        ensures core { IfOk result (λ script. script.core ≡ core) }
        ensures labels { IfOk result (λ script. script.labels ≡ []) }
        ensures nothing { IfOk result (λ script. Appends (W.contents writer) (written W.contents script.output) []) }
        ensures fault { IfErr result (λ fault. is_users_memory fault ≡ false) }
    {
        Ok(Script {
            alloc,
            core,
            labels: Labels::new(alloc),
            output: Output::new(alloc, writer)?,
            line: String::new(alloc),
        })
    }

    /// Takes line after line.
    fn run<R: Read + Drop>(&mut self, mut lines: Lines<R>) -> Result<(), ScriptFault>
        ensures prints { IfSome (unread R.remaining lines) (λ input.
            RunPrints W.contents (lines_read lines) (lines_in input) result self.old self.new) }
        ensures fault { IfErr result (λ fault. is_users_memory fault ≡ false) }
    {
        for _ in 0..u64::MAX {
            if !lines.read_next_after(&mut self.output)? {
                return Ok(());
            }
            self.take_line(lines.line()?)?;
        }
        // The reads end long before.
        Err(ScriptFault::Read)
    }

    fn take_line(&mut self, line: &str) -> Result<(), ScriptFault>
        ensures prints { OnOk result (Prints W.contents (LinePrints self.old.core.config line.now) self.old self.new) }
        ensures fault { IfErr result IsOfOutput }
    {
        if is_skipped(line.as_bytes()) {
            return Ok(());
        }
        let words = words_of(self.alloc, line)?;
        self.take_words(&words)?;
        Ok(())
    }

    fn take_words(&mut self, words: &[&str]) -> Result<(), ScriptFault>
        ensures prints { OnOk result (Prints W.contents (WordsPrint self.old.core.config (map (λ w. w.now) words.now)) self.old self.new) }
        ensures fault { IfErr result IsOfOutput }
    {
        let [label, asked @ ..] = words else {
            return self.blame_label();
        };
        if !is_label(label) {
            return self.blame_label();
        }
        self.ask(label, asked)?;
        Ok(())
    }

    /// Tells that a line has no label.
    fn blame_label(&mut self) -> Result<(), ScriptFault>
        ensures prints { OnOk result (Prints W.contents NoLabelPrints self.old self.new) }
        ensures fault { IfErr result IsOfOutput }
    {
        self.output.put("- fault line\n")?;
        Ok(())
    }

    /// Makes the step that a label's words ask for.
    fn ask(&mut self, label: &str, words: &[&str]) -> Result<(), ScriptFault>
        ensures prints { OnOk result (Prints W.contents (AskedPrint self.old.core.config label.now (map (λ w. w.now) words.now)) self.old self.new) }
        ensures fault { IfErr result IsOfOutput }
    {
        match self.event_of(label, words) {
            Ok(event) => self.step(label, event)?,
            Err(WordFault::NoMemory) => return Err(ScriptFault::Memory),
            Err(fault) => self.blame_words(label, &fault)?,
        }
        Ok(())
    }

    /// Tells the fault of a label's words.
    fn blame_words(&mut self, label: &str, fault: &WordFault) -> Result<(), ScriptFault>
        ensures prints { OnOk result (Prints W.contents (FaultPrints label.now fault.now) self.old self.new) }
        ensures fault { IfErr result IsOfOutput }
    {
        lay_fault(&mut self.line, label, fault)?;
        self.put()?;
        Ok(())
    }

    /// The event that a label's words ask for. Any label may tell a moment.
    fn event_of(&self, label: &str, words: &[&str]) -> Result<Event, WordFault>
        ensures { AskFor self.now.core.config.users (acting_for self.now.labels label.now) (map (λ w. w.now) words.now) result }
    {
        // The session that the label started last, live or not, and nobody where it never started one.
        let sid = self.labels.newest(label).unwrap_or(Sid::NOBODY);
        let [verb, rest @ ..] = words else {
            return self.call(sid, words);
        };
        if *verb == "hello" {
            self.hello(rest)
        } else if *verb == "hangup" {
            hang_up(sid, rest)
        } else if *verb == "tick" {
            tick(rest)
        } else {
            self.call(sid, words)
        }
    }

    /// The hello of the user whose key stands behind `hello`.
    fn hello(&self, words: &[&str]) -> Result<Event, WordFault>
        ensures { IsHello self.now.core.config.users (map (λ w. w.now) words.now) result }
    {
        match words {
            [key] => Ok(Event::Hello {
                found: self.core.config().users.find(key.as_bytes()),
            }),
            _ => Err(WordFault::Usage),
        }
    }

    /// The call of the session that the words mean.
    fn call(&self, sid: Sid, words: &[&str]) -> Result<Event, WordFault>
        ensures { IsCall sid (map (λ w. w.now) words.now) result }
    {
        let call = call_of_words(self.alloc, words)?;
        Ok(Event::Do { sid, call })
    }

    /// Makes the step, and writes its answers, the caller's first.
    fn step(&mut self, label: &str, event: Event) -> Result<(), ScriptFault>
        ensures prints { OnOk result (Prints W.contents (λ before after out. StepPrints self.old.core.config label.now before (Ok event) after out) self.old self.new) }
        ensures fault { IfErr result IsOfOutput }
    {
        match self.core.step(self.alloc, event)? {
            Told::Refused(sid, rule) => {
                self.write_answer(label, sid, &Answer::Refused(rule))?;
            }
            Told::Given(first, second) => {
                self.write_answers(label, first.sid, &first.answers)?;
                self.write_answers(label, second.sid, &second.answers)?;
            }
        }
        Ok(())
    }

    /// Writes the answers to a session, in their order.
    fn write_answers(&mut self, label: &str, sid: Sid, told: &[Answer]) -> Result<(), ScriptFault>
        ensures prints { OnOk result (Prints W.contents (AreWritten label.now (to_session sid told.now)) self.old self.new) }
        ensures fault { IfErr result IsOfOutput }
    {
        for answer in told {
            self.write_answer(label, sid, answer)?;
        }
        Ok(())
    }

    /// Writes an answer.
    fn write_answer(&mut self, label: &str, sid: Sid, answer: &Answer) -> Result<(), ScriptFault>
        ensures prints { OnOk result (Prints W.contents (AreWritten label.now ((sid, answer.now) ∷ [])) self.old self.new) }
        ensures fault { IfErr result IsOfOutput }
    {
        self.keep_start(label, answer)?;
        self.lay_answer(label, sid, answer)?;
        self.put()?;
        Ok(())
    }

    /// Keeps under which label a session was started.
    fn keep_start(&mut self, label: &str, answer: &Answer) -> Result<(), AllocError>
        ensures started { OnOk result (self.new.labels ≡ with_start self.old.labels label.now answer.now) }
        ensures kept { (self.new.core ≡ self.old.core) × (self.new.output ≡ self.old.output) }
    {
        match answer {
            Answer::Started(sid) => self.labels.start(self.alloc, label, *sid),
            _ => Ok(()),
        }
    }

    /// Lays out the line of an answer, under the label that started the session which it is for,
    /// and that of no session under the line's own.
    fn lay_answer(&mut self, label: &str, sid: Sid, answer: &Answer) -> Result<(), NoMemory>
        ensures line { OnOk result (string_bytes self.new.line
            ≡ labelled_line (label_for self.old.labels label.now sid) answer.now) }
        ensures kept { (self.new.core ≡ self.old.core) × (self.new.labels ≡ self.old.labels) × (self.new.output ≡ self.old.output) }
    {
        let label = self.labels.starter(sid).unwrap_or(label);
        lay_answer(&mut self.line, label, answer)
    }

    /// Puts the line that was laid out into the block.
    fn put(&mut self) -> Result<(), ScriptFault>
        ensures put { OnOk result (Appends (written W.contents self.old.output) (written W.contents self.new.output) (string_bytes self.old.line)) }
        ensures kept { (self.new.core ≡ self.old.core) × (self.new.labels ≡ self.old.labels) }
        ensures fault { IfErr result IsOfOutput }
    {
        self.output.put(self.line.as_str())?;
        Ok(())
    }
}
