//! What the bytes of a request ask for.

ghost use Rattle.std.specs.Prelude.{◌≡◌, ◌≤◌, ℕ, List, length};
ghost use Rattle.httparse.specs.Grammar.{ReadsRequest, RequestHead};
ghost use Rattle.ipc_metrics.specs.Requests.{Asks, asked_for, asked_so_far, is_page};

use httparse::spans::{EMPTY_HEADER_SPAN, parse_request};
use httparse::{Error, Status};

/// So many bytes without a whole head are too many.
pub const MOST_HEAD: usize = 8_192;

/// The most header lines of a request.
const MOST_HEADERS: usize = 32;

/// What the bytes that came so far ask for.
#[derive(Clone, Copy, PartialEq, Eq, Debug)]
pub enum Asked {
    /// No whole head came, and more bytes may make one.
    Unfinished,
    /// The page.
    Page,
    /// The page's head alone.
    PageHead,
    OtherPath,
    /// The head alone of another path.
    OtherPathHead,
    OtherMethod,
    /// Whatever follows, it is no request.
    Malformed,
    /// The head has more bytes or more header lines than are read.
    TooLong,
}

/// What the bytes that came so far ask for. The page is at `/metrics`, with or without a query.
///
/// Bytes behind a whole head are not looked at, nor are the header lines' words, so a request's body and its `Host` don't
/// matter. Which of `Malformed` and `TooLong` is told of a head that is both, no clause says.
pub fn asked_by(head: &[u8]) -> Asked
    ensures asks { Asks head.now result }
    ensures whole { (h : RequestHead) (rest : List ℕ) → ReadsRequest head.now h rest → length h.fields ≤ 32 → result ≡ asked_for h.method h.target }
{
    let mut headers = [EMPTY_HEADER_SPAN; MOST_HEADERS];
    match parse_request(head, &mut headers) {
        Ok(Status::Complete(spans)) => asked_for(spans.method.of(head), spans.path.of(head)),
        Ok(Status::Partial) => asked_so_far(head),
        Err(Error::TooManyHeaders) => Asked::TooLong,
        Err(_) => Asked::Malformed,
    }
}

/// What a head that isn't whole asks for.
fn asked_so_far(head: &[u8]) -> Asked
    ensures { result ≡ asked_so_far (length head.now) }
{
    if head.len() < MOST_HEAD {
        Asked::Unfinished
    } else {
        Asked::TooLong
    }
}

/// What a whole head asks for.
fn asked_for(method: &[u8], target: &[u8]) -> Asked
    ensures { result ≡ asked_for method.now target.now }
{
    match method {
        b"GET" if is_page(target) => Asked::Page,
        b"HEAD" if is_page(target) => Asked::PageHead,
        b"GET" => Asked::OtherPath,
        b"HEAD" => Asked::OtherPathHead,
        _ => Asked::OtherMethod,
    }
}

/// Whether a request's target is the page, with or without a query.
fn is_page(target: &[u8]) -> bool
    ensures { result ≡ is_page target.now }
{
    match target.strip_prefix(b"/metrics") {
        Some(rest) => rest.is_empty() || rest[0] == b'?',
        None => false,
    }
}
