//! What requests ask for, and what they are answered.

use ipc_metrics::{Asked, MOST_HEAD, asked_by, response};
use std::test::Fail;

/// What a client sends, and what it asks for.
static REQUESTS: [(&[u8], Asked); 15] = [
    (
        b"GET /metrics HTTP/1.1\r\nHost: localhost:9100\r\nUser-Agent: curl/8.5.0\r\nAccept: */*\r\n\r\n",
        Asked::Page,
    ),
    (
        b"GET /metrics?name[]=mqserve_sessions HTTP/1.1\r\nHost: localhost\r\n\r\n",
        Asked::Page,
    ),
    (b"GET /metrics HTTP/1.0\n\n", Asked::Page),
    (
        b"HEAD /metrics HTTP/1.1\r\nHost: localhost:9100\r\nAccept: */*\r\n\r\n",
        Asked::PageHead,
    ),
    (
        b"POST /metrics HTTP/1.1\r\nHost: localhost\r\nContent-Length: 3\r\n\r\na=b",
        Asked::OtherMethod,
    ),
    (
        b"DELETE / HTTP/1.1\r\nHost: localhost\r\n\r\n",
        Asked::OtherMethod,
    ),
    (b"get /metrics HTTP/1.1\r\n\r\n", Asked::OtherMethod),
    (
        b"GET / HTTP/1.1\r\nHost: localhost\r\n\r\n",
        Asked::OtherPath,
    ),
    (b"GET /metricsx HTTP/1.1\r\n\r\n", Asked::OtherPath),
    (b"HEAD /metric HTTP/1.1\r\n\r\n", Asked::OtherPathHead),
    (
        b"\x16\x03\x01\x02\0\x01\0\x01\xfc\x03\x03",
        Asked::Malformed,
    ),
    (b"GET /metrics HTTP/2.0\r\n\r\n", Asked::Malformed),
    (b"", Asked::Unfinished),
    (b"GET /met", Asked::Unfinished),
    (
        b"GET /metrics HTTP/1.1\r\nHost: localhost\r\n",
        Asked::Unfinished,
    ),
];

#[test]
fn requests_ask_so(rt: HostRuntime) -> Result<(), Fail> {
    for (number, (request, asked)) in REQUESTS.iter().enumerate() {
        if asked_by(request) != *asked {
            return Err(Fail::new(format_args!("request {number} asks otherwise")));
        }
    }
    Ok(())
}

/// A head of 9,000 bytes of header lines that has no end, and the longest that may go on.
#[test]
fn long_heads_are_refused(rt: HostRuntime) -> Result<(), Fail> {
    let mut head = Vec::new(rt.alloc());
    head.extend_from_slice(b"GET /metrics HTTP/1.1\r\nCookie: ")?;
    for _ in 0..8_969 {
        head.push(b'c')?;
    }
    assert!(rt; head.len() == 9_000 && asked_by(&head) == Asked::TooLong);
    head.truncate(MOST_HEAD);
    assert!(rt; head.len() == 8_192 && asked_by(&head) == Asked::TooLong);
    head.truncate(MOST_HEAD - 1);
    assert!(rt; head.len() == 8_191 && asked_by(&head) == Asked::Unfinished);
    Ok(())
}

/// So many header lines are read, and one more is too many.
#[test]
fn header_lines_are_counted(rt: HostRuntime) -> Result<(), Fail> {
    let mut head = Vec::new(rt.alloc());
    head.extend_from_slice(b"GET /metrics HTTP/1.1\r\n")?;
    for _ in 0..32 {
        head.extend_from_slice(b"A: b\r\n")?;
    }
    head.extend_from_slice(b"\r\n")?;
    assert!(rt; asked_by(&head) == Asked::Page);
    head.truncate(head.len() - 2);
    head.extend_from_slice(b"A: b\r\n\r\n")?;
    assert!(rt; asked_by(&head) == Asked::TooLong);
    Ok(())
}

/// What is asked for, and the whole response where the page is `up 1`.
static RESPONSES: [(Asked, &str); 8] = [
    (
        Asked::Page,
        "HTTP/1.1 200 OK\r\nContent-Type: text/plain; version=0.0.4; charset=utf-8\r\nContent-Length: 5\r\nConnection: close\r\n\r\nup 1\n",
    ),
    (
        Asked::PageHead,
        "HTTP/1.1 200 OK\r\nContent-Type: text/plain; version=0.0.4; charset=utf-8\r\nContent-Length: 5\r\nConnection: close\r\n\r\n",
    ),
    (
        Asked::OtherPath,
        "HTTP/1.1 404 Not Found\r\nContent-Type: text/plain; version=0.0.4; charset=utf-8\r\nContent-Length: 21\r\nConnection: close\r\n\r\nthe page is /metrics\n",
    ),
    (
        Asked::OtherPathHead,
        "HTTP/1.1 404 Not Found\r\nContent-Type: text/plain; version=0.0.4; charset=utf-8\r\nContent-Length: 21\r\nConnection: close\r\n\r\n",
    ),
    (
        Asked::OtherMethod,
        "HTTP/1.1 405 Method Not Allowed\r\nContent-Type: text/plain; version=0.0.4; charset=utf-8\r\nContent-Length: 31\r\nAllow: GET, HEAD\r\nConnection: close\r\n\r\nonly GET and HEAD are answered\n",
    ),
    (
        Asked::Malformed,
        "HTTP/1.1 400 Bad Request\r\nContent-Type: text/plain; version=0.0.4; charset=utf-8\r\nContent-Length: 19\r\nConnection: close\r\n\r\nthis is no request\n",
    ),
    (
        Asked::TooLong,
        "HTTP/1.1 431 Request Header Fields Too Large\r\nContent-Type: text/plain; version=0.0.4; charset=utf-8\r\nContent-Length: 31\r\nConnection: close\r\n\r\nthe request's head is too long\n",
    ),
    (
        Asked::Unfinished,
        "HTTP/1.1 408 Request Timeout\r\nContent-Type: text/plain; version=0.0.4; charset=utf-8\r\nContent-Length: 40\r\nConnection: close\r\n\r\nthe request's head did not come in time\n",
    ),
];

#[test]
fn responses_are_so(rt: HostRuntime) -> Result<(), Fail> {
    for (number, (asked, whole)) in RESPONSES.iter().enumerate() {
        let bytes = response(rt.alloc(), *asked, "up 1\n")?;
        if bytes.as_slice() != whole.as_bytes() {
            return Err(Fail::new(format_args!("response {number} is another")));
        }
    }
    Ok(())
}
