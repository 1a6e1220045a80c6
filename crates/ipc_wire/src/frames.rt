//! A stream of frames, in whatever pieces it comes.

ghost use Rattle.std.specs.Prelude.{◌≡◌, ◌<◌, ℕ, List, [], ◌∷◌, ◌++◌, length, drop, Some, option_map, IsSome, IsNone, IfOk, IsOkAnd, OnOk, OnErr, ◌≤◌, vec_len, vec_capacity};
ghost use Rattle.ipc_fields.specs.Given.{Gives};
ghost use Rattle.ipc_wire.specs.Streams.{front, cut, Feeds, new_stream, still_first};

use crate::request::Request;
use crate::request_reading::request_of;
use ipc_fields::{ReadFault, WireFault, body_of};
use ipc_terms::NoMemory;
use std::alloc::Global;
use std::marker::Model;

/// The request in front, as soon as its frame is whole, and what follows it. The first request of a stream
/// is a hello, and no other is.
pub fn read_request(
    alloc: Global,
    first: bool,
    bytes: &[u8],
) -> Result<Option<(Request, &[u8])>, ReadFault>
    ensures { Gives (option_map (λ x. (x.0, x.1.now))) result (front first bytes.now) }
{
    match body_of(bytes)? {
        None => Ok(None),
        Some((body, rest)) => {
            let request = request_of(alloc, first, body)?;
            Ok(Some((request, rest)))
        }
    }
}

/// About as many bytes as a short frame has.
const SHORT_FRAME: usize = 16;

/// For how many requests room is made at least where bytes stand behind the first.
const FEW_REQUESTS: usize = 4;

/// For how many requests room is made at most with the first.
const USUAL_REQUESTS: usize = 16;

/// Adds a request, with room for those that so many bytes behind it may hold where it is the first.
fn push_request(
    requests: &mut Vec<Request>,
    request: Request,
    behind: usize,
) -> Result<(), NoMemory>
    ensures { OnOk result (requests.new.items ≡ requests.old.items ++ request ∷ []) }
{
    if requests.is_empty() {
        let room = match behind {
            0 => 1,
            _ => (behind / SHORT_FRAME + 1).clamp(FEW_REQUESTS, USUAL_REQUESTS),
        };
        requests.reserve_exact(room)?;
    }
    requests.push(request)?;
    Ok(())
}

/// The requests of the whole frames in front, the bytes behind them, and the fault that stands there.
fn cut_of(
    alloc: Global,
    mut first: bool,
    bytes: &[u8],
) -> Result<(Vec<Request>, &[u8], Option<WireFault>), NoMemory>
    ensures { IfOk result (λ x. cut first bytes.now ≡ record { requests = x.0.items; rest = x.1.now; fault = x.2 }) }
{
    let mut requests = Vec::new(alloc);
    let mut rest = bytes;
    'frames: loop {
        match read_request(alloc, first, rest) {
            Ok(Some((request, after))) => {
                push_request(&mut requests, request, after.len())?;
                first = false;
                rest = after;
            }
            Ok(None) => return Ok((requests, rest, None)),
            Err(ReadFault::Wire(fault)) => return Ok((requests, rest, Some(fault))),
            Err(ReadFault::NoMemory) => return Err(NoMemory),
        }
    }
}

/// Whether the next request is still the first.
fn still_first(first: bool, requests: &[Request]) -> bool
    ensures { result ≡ still_first first requests.now }
{
    first && requests.is_empty()
}

/// The most memory that a stream keeps while nothing waits in it: 1 MiB.
pub const KEPT_ROOM: usize = 1_048_576;

/// Moves what stands behind the first bytes to the front. Who takes nothing away may not call it: a piece that completes no
/// frame would walk over all that is kept.
fn move_to_front(bytes: &mut Vec<u8>, n: usize)
    requires some { 0 < n }
    requires within { n ≤ vec_len bytes.old }
    ensures { bytes.new.items ≡ drop n bytes.old.items }
{
    let left = bytes.len() - n;
    bytes.copy_within(n.., 0);
    bytes.truncate(left);
}

/// Takes the first bytes of a stream away. A buffer that has grown large is given back once it is empty. Where bytes are
/// taken away, those behind them are moved; else nothing is done.
pub fn remove_front(alloc: Global, bytes: &mut Vec<u8>, n: usize)
    requires { n ≤ vec_len bytes.old }
    ensures rest { bytes.new.items ≡ drop n bytes.old.items }
    ensures given_back { n ≡ vec_len bytes.old → vec_capacity bytes.new ≤ KEPT_ROOM }
{
    if n < bytes.len() {
        if n > 0 {
            move_to_front(bytes, n);
        }
    } else if bytes.capacity() > KEPT_ROOM {
        *bytes = Vec::new(alloc);
    } else {
        bytes.clear();
    }
}

/// Cuts what is kept and the piece, and keeps the rest. Gives the requests, and the fault that ends them.
fn cut_behind(
    alloc: Global,
    first: bool,
    kept: &mut Vec<u8>,
    piece: &[u8],
) -> Result<(Vec<Request>, Option<WireFault>), NoMemory>
    ensures cut { IfOk result (λ x. cut first (kept.old.items ++ piece.now) ≡ record { requests = x.0.items; rest = kept.new.items; fault = x.1 }) }
    ensures err { OnErr result (kept.new.items ≡ kept.old.items) }
{
    let kept_before = kept.len();
    kept.extend_from_slice(piece)?;
    match cut_of(alloc, first, kept) {
        Ok((requests, rest, fault)) => {
            let taken = kept.len() - rest.len();
            remove_front(alloc, kept, taken);
            Ok((requests, fault))
        }
        Err(NoMemory) => {
            kept.truncate(kept_before);
            Err(NoMemory)
        }
    }
}

/// The same where nothing is kept: the piece is cut where it lies, and its rest alone is copied.
fn cut_in_place(
    alloc: Global,
    first: bool,
    kept: &mut Vec<u8>,
    piece: &[u8],
) -> Result<(Vec<Request>, Option<WireFault>), NoMemory>
    requires { kept.old.items ≡ [] }
    ensures cut { IfOk result (λ x. cut first (kept.old.items ++ piece.now) ≡ record { requests = x.0.items; rest = kept.new.items; fault = x.1 }) }
    ensures err { OnErr result (kept.new.items ≡ kept.old.items) }
{
    let (requests, rest, fault) = cut_of(alloc, first, piece)?;
    kept.extend_from_slice(rest)?;
    Ok((requests, fault))
}

/// A stream of requests. Contracts see what it keeps of the stream, whether a hello is still to come,
/// and the fault that ended it.
#[derive(Drop)]
pub struct Frames {
    kept: Vec<u8>,
    first: bool,
    fault: Option<WireFault>,
}

impl Model for Frames {
    ghost use Rattle.ipc_wire.specs.Streams.{Stream};

    ghost Value = { Stream };

    ghost view = { λ f. record { kept = f.kept.items; first = f.first; fault = f.fault } };
}

impl Frames {
    /// A stream of which nothing has come.
    pub fn new(alloc: Global) -> Frames
        ensures { result ≡ new_stream }
    {
        Frames {
            kept: Vec::new(alloc),
            first: true,
            fault: None,
        }
    }

    /// The fault that ended the stream, if one did.
    pub fn fault(&self) -> Option<WireFault>
        ensures { result ≡ self.now.fault }
    {
        self.fault
    }

    /// Takes the next piece of the stream, and gives the requests of the frames that are whole now, up to a
    /// fault. An `Err` changes nothing. A byte costs a constant on average, however the stream is cut, and
    /// what is kept grows as the bytes come, never by the length that a frame announces.
    pub fn feed(&mut self, alloc: Global, piece: &[u8]) -> Result<Vec<Request>, NoMemory>
        // Behind a fault nothing is read.
        ensures over { IsSome self.old.fault → IsOkAnd result (λ requests. (requests.items ≡ []) × (self.new ≡ self.old)) }
        ensures cut { IsNone self.old.fault → IfOk result (λ requests. Feeds self.old piece.now requests.items self.new) }
        ensures err { OnErr result (self.new ≡ self.old) }
    {
        if self.fault.is_some() {
            return Ok(Vec::new(alloc));
        }
        let (requests, fault) = if self.kept.is_empty() {
            cut_in_place(alloc, self.first, &mut self.kept, piece)?
        } else {
            cut_behind(alloc, self.first, &mut self.kept, piece)?
        };
        self.first = still_first(self.first, &requests);
        self.fault = fault;
        Ok(requests)
    }
}
