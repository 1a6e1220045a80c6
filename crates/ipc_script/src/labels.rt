//! Labels: the names of sessions in a script.

ghost use Rattle.std.specs.Prelude.{◌≡◌, List, [], ◌∷◌, ◌++◌, length, OnOk, OnErr};
ghost use Rattle.ipc_script.specs.LabelMaps.{Follow};
ghost use Rattle.ipc_script.specs.declared.labels.Started.{Started};
ghost use Rattle.std.specs.List.{list_all};
ghost use Rattle.std.specs.Option.{option_map};
ghost use Rattle.ipc_script.specs.Labels.{is_label_byte, label_form, newest_of, starter_of};

use ipc_terms::Sid;
use std::alloc::{AllocError, Global};
use std::collections::BTreeMap;
use std::marker::Model;

/// Whether the word is a label: 1 to 16 lower-case ASCII letters or digits.
pub fn is_label(word: &str) -> bool
    ensures { result ≡ label_form word.now }
{
    1 <= word.len() && word.len() <= 16 && has_label_bytes(word.as_bytes())
}

fn has_label_bytes(bytes: &[u8]) -> bool
    ensures { result ≡ list_all is_label_byte bytes.now }
{
    bytes
        .iter()
        .all(|byte| matches!(*byte, b'a'..=b'z' | b'0'..=b'9'))
}

/// A label, seen as its bytes.
#[derive(Drop)]
pub struct Label {
    text: String,
}

impl Model for Label {
    ghost use Rattle.std.specs.Prelude.{ℕ, List, string_bytes};

    ghost Value = { List ℕ };

    ghost view = { λ l. string_bytes l.text };
}

impl Label {
    fn as_str(&self) -> &str
        ensures { result.now ≡ self.now }
    {
        self.text.as_str()
    }
}

/// A session, and the label that started it.
#[derive(Drop)]
pub struct Started {
    label: Label,
    sid: Sid,
}

/// The sessions that were started, the oldest first. A label may start several: its newest is the
/// one that acts for it, and answers to each go to the label that started it. No look-up scans.
#[derive(Drop)]
pub struct Labels {
    started: Vec<Started>,
    /// By label, the session that it started last.
    newest: BTreeMap<String, Sid>,
    /// By session, where it first stands among those started.
    places: BTreeMap<u64, usize>,
}

impl Model for Labels {
    ghost use Rattle.std.specs.Prelude.{List};
    ghost use Rattle.ipc_script.specs.declared.labels.Started.{Started};

    ghost Value = { List Started };

    ghost use Rattle.ipc_script.specs.LabelMaps.{Follow};

    ghost view = { λ l. l.started.items };

    ghost invariant = { λ l. Follow l.newest l.places l.started.items };
}

impl Labels {
    pub fn new(alloc: Global) -> Self
        ensures { result ≡ [] }
    {
        Labels {
            started: Vec::new(alloc),
            newest: BTreeMap::new(alloc),
            places: BTreeMap::new(alloc),
        }
    }

    /// The session was started under the label. On `Err` nothing changes.
    pub fn start(&mut self, alloc: Global, label: &str, sid: Sid) -> Result<(), AllocError>
        ensures added { OnOk result (self.new ≡ self.old ++ (record { label = label.now; sid = sid } ∷ [])) }
        ensures unchanged { OnErr result (self.new ≡ self.old) }
    {
        let text = String::from_str(alloc, label)?;
        let started = Started {
            label: Label { text },
            sid,
        };
        self.started.reserve(1)?;
        let place = self.started.len();
        enter(alloc, &mut self.newest, &mut self.places, label, sid, place)?;
        self.started.push_reserved(started);
        Ok(())
    }

    /// The session that the label started last.
    pub fn newest(&self, label: &str) -> Option<Sid>
        ensures { result ≡ newest_of self.now label.now }
    {
        self.newest.get(label).copied()
    }

    /// The label that started the session.
    pub fn starter(&self, sid: Sid) -> Option<&str>
        ensures { option_map (λ s. s.now) result ≡ starter_of self.now sid }
    {
        let place = *self.places.get(&sid.0)?;
        let started = self.started.get(place)?;
        Some(started.label.as_str())
    }
}

/// Enters into both maps that the label started the session which stands at the place. An `Err`
/// changes no look-up.
fn enter(
    alloc: Global,
    newest: &mut BTreeMap<String, Sid>,
    places: &mut BTreeMap<u64, usize>,
    label: &str,
    sid: Sid,
    place: usize,
) -> Result<(), AllocError>
    ensures ok { OnOk result ((started : List Started) → length started ≡ place → Follow newest.old places.old started → Follow newest.new places.new (started ++ record { label = label.now; sid = sid } ∷ [])) }
    ensures err { OnErr result ((started : List Started) → Follow newest.old places.old started → Follow newest.new places.new started) }
{
    let key = String::from_str(alloc, label)?;
    if places.contains_key(&sid.0) {
        // A session that was started before stays at its first place.
        newest.insert(key, sid)?;
        return Ok(());
    }
    places.insert(sid.0, place)?;
    if let Err(refused) = newest.insert(key, sid) {
        places.remove(&sid.0);
        return Err(refused.into());
    }
    Ok(())
}
