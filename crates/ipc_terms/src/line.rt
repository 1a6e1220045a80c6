//! Lines of the audit.

ghost use Rattle.std.specs.Prelude.{◌≡◌};
ghost use Rattle.std.specs.Cmp.Rules.{comparing};
ghost use Rattle.std.proofs.Common.{rules};
ghost use Rattle.ipc_terms.specs.Lines.{same_line};
ghost use Rattle.ipc_terms.specs.declared.line.Line.{Line};

use crate::ids::Sid;
use crate::items::Items;
use crate::name::Name;
use std::alloc::AllocError;

/// What the audit shows of a record.
#[derive(Drop)]
pub struct Line {
    /// How many records came before it.
    pub place: u64,
    /// The session that the event names; a hello names nobody.
    pub sid: Sid,
    /// The number of the call, of a hello or of a hang-up.
    pub op: u8,
    /// The number of the rule that refused it, or 0.
    pub rule: u16,
    /// The first 256 bytes of the name that the call names, if it names one.
    pub name: Name,
}

impl Clone for Line {
    ghost is_clone = { λ line copy. copy ≡ line };

    fn clone(&self) -> Result<Line, AllocError> {
        Ok(Line {
            place: self.place,
            sid: self.sid,
            op: self.op,
            rule: self.rule,
            name: self.name.clone()?,
        })
    }
}

impl PartialEq for Line {
    ghost eq = { same_line };

    ghost laws = { Prim.search (comparing, rules) };

    fn eq(&self, other: &Line) -> bool {
        self.place == other.place
            && self.sid == other.sid
            && self.op == other.op
            && self.rule == other.rule
            && self.name == other.name
    }
}

/// Lines of the audit, in order of their places.
pub type Lines = Items<Line>;
