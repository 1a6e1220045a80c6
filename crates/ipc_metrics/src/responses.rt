//! The response to a request.

ghost use Rattle.std.specs.Prelude.{◌≡◌, ◌++◌, IfOk, OnOk};
ghost use Rattle.std.specs.String.{string_bytes};
ghost use Rattle.ipc_metrics.specs.Responses.{allow_line, body_of, field_line, first_lines, head_text, last_lines, response_text, status_line};

use crate::asked::Asked;
use ipc_terms::NoMemory;
use std::alloc::{AllocError, Global};

/// The format of every body.
const CONTENT_TYPE: &str = "text/plain; version=0.0.4; charset=utf-8";

/// The whole response, behind which the connection ends: to what asks for the page this page, and else a line that says what
/// is wrong. What answers a HEAD has no body (RFC 9110, 9.3.2).
pub fn response(alloc: Global, asked: Asked, page: &str) -> Result<Vec<u8>, NoMemory>
    ensures { IfOk result (λ bytes. bytes.items ≡ response_text asked page.now) }
{
    let mut text = String::new(alloc);
    let body = body_of(asked, page);
    put_head(&mut text, asked, body.len())?;
    if !matches!(asked, Asked::PageHead | Asked::OtherPathHead) {
        text.push_str(body)?;
    }
    Ok(text.into_bytes())
}

/// Adds the head of a response whose body has this length.
#[tactic(auto, unfolding(crate::specs::Responses::head_text))]
fn put_head(text: &mut String, asked: Asked, length: usize) -> Result<(), AllocError>
    ensures { OnOk result (string_bytes text.new ≡ string_bytes text.old ++ head_text asked length) }
{
    put_first_lines(text, asked)?;
    write!(text, "Content-Length: {length}\r\n")?;
    put_last_lines(text, asked)
}

/// Adds the lines before the body's length.
#[tactic(auto, unfolding(crate::specs::Responses::first_lines))]
fn put_first_lines(text: &mut String, asked: Asked) -> Result<(), AllocError>
    ensures { OnOk result (string_bytes text.new ≡ string_bytes text.old ++ first_lines asked) }
{
    text.push_str(status_line(asked))?;
    put_field(text, "Content-Type", CONTENT_TYPE)
}

/// Adds the lines behind the body's length.
#[tactic(auto, unfolding(crate::specs::Responses::last_lines))]
fn put_last_lines(text: &mut String, asked: Asked) -> Result<(), AllocError>
    ensures { OnOk result (string_bytes text.new ≡ string_bytes text.old ++ last_lines asked) }
{
    put_allow(text, asked)?;
    put_field(text, "Connection", "close")?;
    text.push_str("\r\n")
}

/// Adds a line of a head.
#[tactic(auto, unfolding(crate::specs::Responses::field_line))]
fn put_field(text: &mut String, name: &str, value: &str) -> Result<(), AllocError>
    ensures { OnOk result (string_bytes text.new ≡ string_bytes text.old ++ field_line name.now value.now) }
{
    write!(text, "{name}: {value}\r\n")
}

/// Adds the methods that are answered, where another was asked for.
#[tactic(auto, unfolding(crate::specs::Responses::allow_line))]
fn put_allow(text: &mut String, asked: Asked) -> Result<(), AllocError>
    ensures { OnOk result (string_bytes text.new ≡ string_bytes text.old ++ allow_line asked) }
{
    match asked {
        Asked::OtherMethod => put_field(text, "Allow", "GET, HEAD"),
        _ => Ok(()),
    }
}

#[tactic(auto, unfolding(crate::specs::Responses::status_line))]
fn status_line(asked: Asked) -> &'static str
    ensures { result.now ≡ status_line asked }
{
    match asked {
        Asked::Page | Asked::PageHead => "HTTP/1.1 200 OK\r\n",
        Asked::OtherPath | Asked::OtherPathHead => "HTTP/1.1 404 Not Found\r\n",
        Asked::OtherMethod => "HTTP/1.1 405 Method Not Allowed\r\n",
        Asked::Malformed => "HTTP/1.1 400 Bad Request\r\n",
        Asked::TooLong => "HTTP/1.1 431 Request Header Fields Too Large\r\n",
        Asked::Unfinished => "HTTP/1.1 408 Request Timeout\r\n",
    }
}

/// The page, or a line that says what is wrong.
#[tactic(auto, unfolding(crate::specs::Responses::body_of))]
fn body_of(asked: Asked, page: &str) -> &str
    ensures { result.now ≡ body_of asked page.now }
{
    match asked {
        Asked::Page | Asked::PageHead => page,
        Asked::OtherPath | Asked::OtherPathHead => "the page is /metrics\n",
        Asked::OtherMethod => "only GET and HEAD are answered\n",
        Asked::Malformed => "this is no request\n",
        Asked::TooLong => "the request's head is too long\n",
        Asked::Unfinished => "the request's head did not come in time\n",
    }
}
