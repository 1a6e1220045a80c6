//! The directory of a family.

ghost use Rattle.std.specs.Prelude.{◌≡◌, [], ◌∷◌, ◌++◌, None, OnOk, OnErr, IfOk, length, slice_get};
ghost use Rattle.std.specs.Option.{option_map};
ghost use Rattle.ipc_terms.specs.Pages.{page};
ghost use Rattle.ipc_names.specs.Directory.{first_directory, object_named, without_name, names_object, bound_names};

use crate::hashing::NameHashing;
use crate::listing;
use indexmap::IndexMap;
use ipc_access::DirFacts;
use ipc_terms::{Family, Gid, Mode, Name, Names, NoMemory, Uid, counts, page_of};
use std::alloc::Global;
use std::collections::BTreeMap;
use std::marker::Model;

/// The names of a family that are bound, each to the number of an object, in the order in which
/// they were bound; with the owner, group and mode that decide who may use the directory.
#[derive(Drop)]
pub struct NameDir {
    family: Family,
    objects: IndexMap<Name, u64, NameHashing>,
    counts: BTreeMap<u64, usize>,
    facts: DirFacts,
}

impl Model for NameDir {
    ghost use Rattle.ipc_names.specs.Directory.{Directory};
    ghost use Rattle.ipc_names.specs.Counting.{bindings_of, Counts};

    ghost Value = { Directory };

    ghost view = { λ a. record { family = a.family; bindings = bindings_of a.objects.entries; facts = a.facts } };

    ghost invariant = { λ a. Counts a.counts (bindings_of a.objects.entries) };
}

impl NameDir {
    /// A directory without names, of user 0, group 0 and mode octal 1777: anyone may make a name,
    /// and only user 0 and the owner of its object may remove it. Its names will be hashed so. Takes no memory.
    pub fn new(alloc: Global, family: Family, hashing: NameHashing) -> Self
        ensures { result ≡ first_directory family }
    {
        NameDir {
            family,
            objects: IndexMap::with_hasher(alloc, hashing),
            counts: BTreeMap::new(alloc),
            facts: DirFacts {
                owner: Uid(0),
                group: Gid(0),
                mode: Mode(0o1777),
            },
        }
    }

    pub fn family(&self) -> Family
        ensures { result ≡ self.now.family }
    {
        self.family
    }

    /// How many names are bound.
    pub fn len(&self) -> usize
        ensures { result ≡ length self.now.bindings }
    {
        self.objects.len()
    }

    /// The object to which the name is bound; `None` where it is unbound.
    pub fn get(&self, name: &Name) -> Option<u64>
        ensures { result ≡ object_named self.now.bindings name.now }
    {
        self.objects.get(name).copied()
    }

    /// Whether a name is bound to the object. An object that has none may live on: it is open
    /// somewhere.
    pub fn names_object(&self, object: u64) -> bool
        ensures { result ≡ names_object self.now.bindings object }
    {
        counts::count(&self.counts, object) > 0
    }

    /// Binds a name that is unbound, whatever its form. An `Err` leaves the directory as it was, and
    /// the name is lost.
    pub fn bind(&mut self, name: Name, object: u64) -> Result<(), NoMemory>
        requires { object_named self.old.bindings name ≡ None }
        ensures ok { OnOk result (self.new ≡ record self.old { bindings = self.old.bindings ++ record { name = name; object = object } ∷ [] }) }
        ensures err { OnErr result (self.new ≡ self.old) }
    {
        // The length is what says that a name more can be counted.
        let _names = self.objects.len();
        self.objects.reserve(1)?;
        counts::raise(&mut self.counts, object)?;
        self.objects.insert(name, object).unwrap();
        Ok(())
    }

    /// Leaves the name unbound (POSIX.1-2017, `mq_unlink`, `sem_unlink`), and says to which object
    /// it was bound. At a name that is unbound nothing changes. Takes no memory.
    pub fn unbind(&mut self, name: &Name) -> Option<u64>
        ensures object { result ≡ object_named self.old.bindings name.now }
        ensures rest { self.new ≡ record self.old { bindings = without_name self.old.bindings name.now } }
    {
        let object = self.objects.shift_remove(name)?;
        counts::lower(&mut self.counts, object);
        Some(object)
    }

    /// The name that was bound at this turn of those that are bound, counted from 0, and its object.
    pub fn binding(&self, index: usize) -> Option<(&Name, u64)>
        ensures { option_map (λ b. record { name = b.0.now; object = b.1 }) result ≡ slice_get self.now.bindings index }
    {
        let (name, object) = self.objects.as_slice().get_index(index)?;
        Some((name, *object))
    }

    /// A page of the names that are bound, the first bound first: from the position `start` on,
    /// counted from 0, at most `count` names and at most 1,000. A page that starts past the last
    /// name is empty.
    pub fn list(&self, alloc: Global, start: u32, count: u16) -> Result<Names, NoMemory>
        ensures { IfOk result (λ names. names ≡ page start count (bound_names self.now.bindings)) }
    {
        let keys = self.objects.keys();
        let asked = page_of(keys.as_slice(), u64::from(start), count);
        Ok(Names::new(listing::names_of(alloc, asked)?))
    }

    /// The directory's owner, group and mode.
    pub fn facts(&self) -> DirFacts
        ensures { result ≡ self.now.facts }
    {
        self.facts
    }

    /// Gives the directory this mode, all of it: which bits a caller may set is not asked here
    /// (POSIX.1-2017, `chmod`).
    pub fn set_mode(&mut self, mode: Mode)
        ensures { self.new ≡ record self.old { facts = record self.old.facts { mode = mode } } }
    {
        self.facts.mode = mode;
    }

    /// Gives the directory this owner and this group (POSIX.1-2017, `chown`). Its mode stays.
    pub fn set_owner(&mut self, uid: Uid, gid: Gid)
        ensures { self.new ≡ record self.old { facts = record self.old.facts { owner = uid; group = gid } } }
    {
        self.facts.owner = uid;
        self.facts.group = gid;
    }
}
