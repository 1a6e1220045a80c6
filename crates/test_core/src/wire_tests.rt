//! Frames: streams of requests in whatever pieces they come, answers, and the memory that they take.

use ipc_terms::{
    Answer, Bytes, Call, Desc, Event, Family, Gid, Name, NoMemory, Rule, Sid, Target, Uid,
};
use ipc_wire::{
    Frames, ReadFault, Request, WireFault, WriteFault, put_answer, put_request, read_answer,
    read_request, write_answer, write_request,
};
use std::alloc::Global;
use std::fs;
use std::test::Fail;
use test_made::{act, send};

/// What a stream gives: its bytes, how many requests, how many of the bytes these are, and the fault.
struct Stream {
    bytes: &'static [u8],
    requests: usize,
    read: usize,
    fault: Option<WireFault>,
}

/// A hello by the key `ka1`, then whatever follows.
static STREAMS: [Stream; 19] = [
    // An open of `/a` for both, which creates it with the mode 0666.
    Stream {
        bytes: b"\0\0\0\x06\x01\0\x03ka1\0\0\0\x0a\x03\0\x02/a\x03\x01\x01\xb6\0",
        requests: 2,
        read: 24,
        fault: None,
    },
    // Then a send and a receive.
    Stream {
        bytes: b"\0\0\0\x06\x01\0\x03ka1\0\0\0\x0a\x03\0\x02/a\x03\x01\x01\xb6\0\0\0\0\x0f\x06\0\0\0\0\0\0\0\0\0\0\0\x05hi\0\0\0\x0d\x07\0\0\0\0\0\0\0\0\0\0\x20\0",
        requests: 4,
        read: 60,
        fault: None,
    },
    // An interrupt.
    Stream {
        bytes: b"\0\0\0\x06\x01\0\x03ka1\0\0\0\x01\x17",
        requests: 2,
        read: 15,
        fault: None,
    },
    // Another key.
    Stream {
        bytes: b"\0\0\0\x05\x01\0\x02zz",
        requests: 1,
        read: 9,
        fault: None,
    },
    Stream {
        bytes: b"\0\0\0\x06\x01\0\x03ka1\0\0\0\0",
        requests: 1,
        read: 10,
        fault: Some(WireFault::Empty),
    },
    // A body of 16,777,301 bytes, and one of 16,777,300 that is awaited.
    Stream {
        bytes: b"\0\0\0\x06\x01\0\x03ka1\x01\0\0\x55",
        requests: 1,
        read: 10,
        fault: Some(WireFault::TooLong),
    },
    Stream {
        bytes: b"\0\0\0\x06\x01\0\x03ka1\x01\0\0\x54\x06\0\0\0\0\0\0\0\0",
        requests: 1,
        read: 10,
        fault: None,
    },
    // No such opcode.
    Stream {
        bytes: b"\0\0\0\x06\x01\0\x03ka1\0\0\0\x01\xff",
        requests: 1,
        read: 10,
        fault: Some(WireFault::BadOpcode),
    },
    // A close without a description.
    Stream {
        bytes: b"\0\0\0\x06\x01\0\x03ka1\0\0\0\x01\x04",
        requests: 1,
        read: 10,
        fault: Some(WireFault::BadField),
    },
    // An interrupt with a byte more.
    Stream {
        bytes: b"\0\0\0\x06\x01\0\x03ka1\0\0\0\x02\x17\0",
        requests: 1,
        read: 10,
        fault: Some(WireFault::Trailing),
    },
    // A first frame that is no hello, a second hello, and an answer.
    Stream {
        bytes: b"\0\0\0\x01\x17",
        requests: 0,
        read: 0,
        fault: Some(WireFault::BadOpcode),
    },
    Stream {
        bytes: b"\0\0\0\x06\x01\0\x03ka1\0\0\0\x06\x01\0\x03ka1",
        requests: 1,
        read: 10,
        fault: Some(WireFault::BadOpcode),
    },
    Stream {
        bytes: b"\0\0\0\x06\x01\0\x03ka1\0\0\0\x01\x42",
        requests: 1,
        read: 10,
        fault: Some(WireFault::BadOpcode),
    },
    // Timed calls and a give, and the numbers of a hang-up and of a tick, which have no frames.
    Stream {
        bytes: b"\0\0\0\x06\x01\0\x03ka1\0\0\0\x17\x1a\0\0\0\0\0\0\0\0\0\0\0\x05\0\0\0\0\0\0\0\x09hi\0\0\0\x15\x1b\0\0\0\0\0\0\0\0\0\0\x20\0\0\0\0\0\0\0\0\x09",
        requests: 3,
        read: 62,
        fault: None,
    },
    Stream {
        bytes: b"\0\0\0\x06\x01\0\x03ka1\0\0\0\x11\x1c\0\0\0\0\0\0\0\0\0\0\0\0\0\0\0\x05\0\0\0\x11\x1e\0\0\0\0\0\0\0\0\0\0\0\0\0\0\0\0",
        requests: 3,
        read: 52,
        fault: None,
    },
    Stream {
        bytes: b"\0\0\0\x06\x01\0\x03ka1\0\0\0\x01\x19",
        requests: 1,
        read: 10,
        fault: Some(WireFault::BadOpcode),
    },
    Stream {
        bytes: b"\0\0\0\x06\x01\0\x03ka1\0\0\0\x09\x1d\0\0\0\0\0\0\0\x05",
        requests: 1,
        read: 10,
        fault: Some(WireFault::BadOpcode),
    },
    Stream {
        bytes: b"\0\0\0\x06\x01\0\x03ka1\0\0\0\x10\x1c\0\0\0\0\0\0\0\0\0\0\0\0\0\0\0",
        requests: 1,
        read: 10,
        fault: Some(WireFault::BadField),
    },
    // A fault, and then a whole frame that is read no more.
    Stream {
        bytes: b"\0\0\0\x06\x01\0\x03ka1\0\0\0\0\0\0\0\x01\x17",
        requests: 1,
        read: 10,
        fault: Some(WireFault::Empty),
    },
];

/// Feeds the pieces, and adds the frames of the requests that they give; how many requests these are.
pub(crate) fn fed(
    alloc: Global,
    frames: &mut Frames,
    pieces: &[&[u8]],
    spelled: &mut Vec<u8>,
) -> Result<usize, Fail> {
    let mut count = 0_usize;
    for piece in pieces {
        let requests = frames.feed(alloc, piece)?;
        count = count.wrapping_add(requests.len());
        push_spelled(alloc, spelled, &requests)?;
    }
    Ok(count)
}

fn push_spelled(alloc: Global, spelled: &mut Vec<u8>, requests: &[Request]) -> Result<(), Fail> {
    for request in requests {
        spelled.extend_from_slice(&write_request(alloc, request)?)?;
    }
    Ok(())
}

/// Whether these pieces of the stream give its requests, spelled as they stand in it, and its fault.
fn gives(alloc: Global, stream: &Stream, pieces: &[&[u8]]) -> Result<bool, Fail> {
    let mut frames = Frames::new(alloc);
    let mut spelled = Vec::new(alloc);
    let count = fed(alloc, &mut frames, pieces, &mut spelled)?;
    Ok(
        count == stream.requests
            && stream.bytes.get(..stream.read) == Some(spelled.as_slice())
            && frames.fault() == stream.fault,
    )
}

/// Whether each byte by itself gives them.
fn gives_by_bytes(alloc: Global, stream: &Stream) -> Result<bool, Fail> {
    let pieces: Vec<&[u8]> = stream.bytes.chunks(1).collect(alloc)?;
    gives(alloc, stream, &pieces)
}

/// Whether each two pieces give them, also where one has nothing.
fn gives_by_halves(alloc: Global, stream: &Stream) -> Result<bool, Fail> {
    for cut in 0..=stream.bytes.len() {
        let (front, back) = stream.bytes.split_at(cut);
        if !gives(alloc, stream, &[front, back])? {
            return Ok(false);
        }
    }
    Ok(true)
}

#[test]
fn streams_are_read_alike_however_they_are_cut(rt: HostRuntime) -> Result<(), Fail> {
    for (at, stream) in STREAMS.iter().enumerate() {
        if !gives_by_bytes(rt.alloc(), stream)? || !gives_by_halves(rt.alloc(), stream)? {
            return Err(Fail::new(format_args!("stream {at}")));
        }
    }
    Ok(())
}

/// Texts of answers. Each is read as an answer that spells it, and takes all of it.
static ANSWERS: [&[u8]; 17] = [
    b"\0\0\0\x09\x41\0\0\0\0\0\0\0\0",
    b"\0\0\0\x01\x42",
    b"\0\0\0\x09\x43\0\0\0\0\0\0\0\x07",
    b"\0\0\0\x03\x44\0\x12",
    b"\0\0\0\x0e\x45\x01\0\0\0\x0a\0\0\x20\0\0\0\0\x03",
    b"\0\0\0\x01\x46",
    b"\0\0\0\x07\x47\0\0\0\x05hi",
    b"\0\0\0\x05\x48\x7f\xff\xff\xff",
    b"\0\0\0\x09\x49\0\x02\0\x02/a\0\0",
    b"\0\0\0\x0b\x4a\0\0\x03\xe8\0\0\0\x32\x01\xb6",
    b"\0\0\0\x1a\x4b\0\x01\0\0\0\0\0\0\0\x03\xff\xff\xff\xff\xff\xff\xff\xff\x01\0\0\0\x02/x",
    b"\0\0\0\x03\x4c\0\x1f",
    b"\0\0\0\x03\x4c\0\x20",
    b"\0\0\0\x03\x4c\0\x21",
    b"\0\0\0\x01\x4d",
    b"\0\0\0\x09\x4e\0\0\0\0\0\0\0\x02",
    b"\0\0\0\x09\x4f\0\0\0\0\0\0\0\x02",
];

/// Whether some front of the text that lacks a byte is an answer.
fn has_a_front(alloc: Global, text: &[u8]) -> Result<bool, Fail> {
    for end in 0..text.len() {
        let (front, _rest) = text.split_at(end);
        if read_answer(alloc, front)?.is_some() {
            return Ok(true);
        }
    }
    Ok(false)
}

/// Whether the text is read as an answer that spells it, and what follows it stays.
fn is_spelled_again(alloc: Global, text: &[u8]) -> Result<bool, Fail> {
    let mut longer = Vec::from_slice(alloc, text)?;
    longer.push(0)?;
    match read_answer(alloc, &longer)? {
        Some((answer, taken)) => {
            Ok(taken == text.len() && write_answer(alloc, &answer)?.as_slice() == text)
        }
        None => Ok(false),
    }
}

#[test]
fn answers_are_read_as_they_are_spelled(rt: HostRuntime) -> Result<(), Fail> {
    for (at, text) in ANSWERS.iter().enumerate() {
        if has_a_front(rt.alloc(), text)? || !is_spelled_again(rt.alloc(), text)? {
            return Err(Fail::new(format_args!("answer {at}")));
        }
    }
    Ok(())
}

/// Whether the answer of this text is put behind what stands in a buffer.
fn is_put_behind(alloc: Global, text: &[u8]) -> Result<bool, Fail> {
    let Some((answer, _taken)) = read_answer(alloc, text)? else {
        return Ok(false);
    };
    let mut out = Vec::from_slice(alloc, b"before")?;
    put_answer(&mut out, &answer)?;
    Ok(out.get(..6) == Some(b"before".as_slice()) && out.get(6..) == Some(text))
}

#[test]
fn answers_are_put_behind_what_stands_there(rt: HostRuntime) -> Result<(), Fail> {
    for (at, text) in ANSWERS.iter().enumerate() {
        if !is_put_behind(rt.alloc(), text)? {
            return Err(Fail::new(format_args!("answer {at}")));
        }
    }
    Ok(())
}

#[test]
fn a_start_is_read_with_its_length(rt: HostRuntime) -> Result<(), Fail> {
    let found = read_answer(rt.alloc(), b"\0\0\0\x09\x41\0\0\0\0\0\0\0\0\0")?;
    assert!(rt; matches!(&found, Some((Answer::Started(Sid(0)), 13))));
    Ok(())
}

/// The rule of the refusal that these bytes are.
fn refused(alloc: Global, bytes: &[u8]) -> Option<Rule> {
    match read_answer(alloc, bytes) {
        Ok(Some((Answer::Refused(rule), 7))) => Some(rule),
        _ => None,
    }
}

#[test]
fn rules_32_and_33_are_read(rt: HostRuntime) {
    assert!(rt; refused(rt.alloc(), b"\0\0\0\x03\x4c\0\x20") == Some(Rule::TimedOut));
    assert!(rt; refused(rt.alloc(), b"\0\0\0\x03\x4c\0\x21") == Some(Rule::NoTaker));
    assert!(rt;
        matches!(
            read_answer(rt.alloc(), b"\0\0\0\x03\x4c\0\x22"),
            Err(ReadFault::Wire(WireFault::BadField))
        )
    );
}

#[test]
fn a_description_that_was_passed_on_has_its_frame(rt: HostRuntime) -> Result<(), Fail> {
    let frame = write_answer(rt.alloc(), &Answer::Taken(Desc(0)))?;
    assert!(rt; frame.as_slice() == b"\0\0\0\x09\x4f\0\0\0\0\0\0\0\0".as_slice());
    Ok(())
}

/// A hello by a key of so many bytes.
fn hello_of(alloc: Global, length: usize) -> Result<Request, WriteFault> {
    let key = Vec::from_elem(alloc, b'a', length)?;
    Ok(Request::Hello(Bytes::from_vec(key)?))
}

/// How many bytes the request's frame has.
fn length_of(alloc: Global, request: &Request) -> Result<usize, WriteFault> {
    Ok(write_request(alloc, request)?.len())
}

/// How many bytes the frame of a hello has whose key has so many.
fn hello_length(alloc: Global, length: usize) -> Result<usize, WriteFault> {
    let request = hello_of(alloc, length)?;
    length_of(alloc, &request)
}

#[test]
fn a_text_of_65536_bytes_has_no_spelling(rt: HostRuntime) {
    assert!(rt; matches!(hello_length(rt.alloc(), 65_535), Ok(65_542)));
    assert!(rt; matches!(hello_length(rt.alloc(), 65_536), Err(WriteFault::TooLong)));
}

/// A request on a name of so many bytes.
fn unlink_of(alloc: Global, length: usize) -> Result<Request, WriteFault> {
    let name = Vec::from_elem(alloc, b'a', length)?;
    Ok(Request::Do(Call::SemUnlink(Name::new(Bytes::from_vec(name)?))))
}

/// Whether a request on a name of so many bytes is read as it was written, and nothing is left.
fn comes_back(alloc: Global, length: usize) -> Result<bool, Fail> {
    let frame = write_request(alloc, &unlink_of(alloc, length)?)?;
    let found = read_request(alloc, false, &frame)?;
    match &found {
        Some((Request::Do(Call::SemUnlink(name)), rest)) => Ok(
            rest.is_empty()
                && name.as_slice().len() == length
                && name.as_slice().iter().all(|byte| *byte == b'a'),
        ),
        _ => Ok(false),
    }
}

#[test]
fn long_names_come_back(rt: HostRuntime) -> Result<(), Fail> {
    assert!(rt; comes_back(rt.alloc(), 257)?);
    assert!(rt; comes_back(rt.alloc(), 65_535)?);
    Ok(())
}

#[test]
fn a_name_of_65536_bytes_leaves_the_buffer(rt: HostRuntime) -> Result<(), Fail> {
    let mut out = Vec::from_slice(rt.alloc(), b"before")?;
    let request = unlink_of(rt.alloc(), 65_536)?;
    assert!(rt; matches!(put_request(&mut out, &request), Err(WriteFault::TooLong)));
    assert!(rt; out.as_slice() == b"before".as_slice());
    Ok(())
}

/// The bytes that an event sends.
fn sent(event: &Event) -> &[u8] {
    match event {
        Event::Do {
            call: Call::MqSend { bytes, .. },
            ..
        } => bytes.as_slice(),
        _ => b"",
    }
}

/// Whether a copy of the event sends these bytes.
fn copy_sends(event: &Event, bytes: &[u8]) -> Result<bool, NoMemory> {
    let copy = event.copy()?;
    Ok(sent(&copy) == bytes)
}

fn is_copied(alloc: Global, bytes: &[u8]) -> Result<bool, NoMemory> {
    let call = send(alloc, 0, 5, bytes)?;
    copy_sends(&act(3, call), bytes)
}

#[test]
fn an_event_s_copy_sends_the_same(rt: HostRuntime) -> Result<(), Fail> {
    assert!(rt; is_copied(rt.alloc(), b"hi")?);
    Ok(())
}

/// A hello, and requests with each of their values its own.
const WRITTEN: &[u8] =
    b"\0\0\0\x06\x01\0\x03ka1\0\0\0\x0d\x07\x01\x02\x03\x04\x05\x06\x07\x08\x09\x0a\x0b\x0c\0\0\0\x0d\x15\x01\0\0\x03\xe8\x01\0\0\0\x32\x02\0\0\0\0\x0d\x16\0\0\x03\xea\0\0\0\0\0\x0d\xbb\xa0";

fn are_as_written(requests: &[Request]) -> bool {
    matches!(
        requests,
        [
            Request::Hello(_),
            Request::Do(Call::MqReceive {
                desc: Desc(0x0102_0304_0506_0708),
                length: 0x090a_0b0c
            }),
            Request::Do(Call::Chown {
                owner: Some(Uid(1_000)),
                group: Some(Gid(50)),
                target: Target::Dir(Family::Sem)
            }),
            Request::Do(Call::SetLimit {
                uid: Uid(1_002),
                bytes: 900_000
            }),
        ]
    )
}

#[test]
fn values_are_read_from_their_fields(rt: HostRuntime) -> Result<(), Fail> {
    let mut frames = Frames::new(rt.alloc());
    let requests = frames.feed(rt.alloc(), WRITTEN)?;
    assert!(rt; are_as_written(&requests));
    Ok(())
}

/// A hello, timed calls and a give, with each of their values its own.
const TIMED: &[u8] =
    b"\0\0\0\x06\x01\0\x03ka1\0\0\0\x17\x1a\0\0\0\0\0\0\0\x01\0\0\0\x02\0\0\0\0\0\0\0\x03hi\0\0\0\x15\x1b\0\0\0\0\0\0\0\x04\0\0\0\x05\x01\x02\x03\x04\x05\x06\x07\x08\0\0\0\x11\x1c\0\0\0\0\0\0\0\x06\0\0\0\0\0\0\0\x07\0\0\0\x11\x1e\0\0\0\0\0\0\0\x08\0\0\0\0\0\0\0\x09";

/// Whether this is a timed send of the bytes `hi`.
fn is_timed_send(request: &Request) -> bool {
    match request {
        Request::Do(
            Call::MqTimedSend {
                desc: Desc(1),
                priority: 2,
                deadline: 3,
                bytes,
            },
        ) => bytes.as_slice() == b"hi".as_slice(),
        _ => false,
    }
}

fn are_timed(requests: &[Request]) -> bool {
    matches!(
        requests,
        [
            Request::Hello(_),
            sent,
            Request::Do(Call::MqTimedReceive {
                desc: Desc(4),
                length: 5,
                deadline: 0x0102_0304_0506_0708
            }),
            Request::Do(Call::SemTimedWait {
                desc: Desc(6),
                deadline: 7
            }),
            Request::Do(Call::MqGive {
                desc: Desc(8),
                taker: Sid(9)
            }),
        ] if is_timed_send(sent)
    )
}

#[test]
fn deadlines_and_takers_are_read_from_their_fields(rt: HostRuntime) -> Result<(), Fail> {
    let mut frames = Frames::new(rt.alloc());
    let requests = frames.feed(rt.alloc(), TIMED)?;
    assert!(rt; are_timed(&requests));
    assert!(rt; put_all(rt.alloc(), &requests)?.as_slice() == TIMED);
    Ok(())
}

/// The frames of the requests, put one behind another.
fn put_all(alloc: Global, requests: &[Request]) -> Result<Vec<u8>, WriteFault> {
    let mut out = Vec::new(alloc);
    for request in requests {
        put_request(&mut out, request)?;
    }
    Ok(out)
}

#[test]
fn requests_are_put_one_behind_another(rt: HostRuntime) -> Result<(), Fail> {
    let mut frames = Frames::new(rt.alloc());
    let requests = frames.feed(rt.alloc(), WRITTEN)?;
    assert!(rt; put_all(rt.alloc(), &requests)?.as_slice() == WRITTEN);
    Ok(())
}

/// Whether a hello by the key `ka1` stands in front, and what is written behind it follows.
fn begins_with_a_hello(alloc: Global, bytes: &[u8]) -> Result<bool, Fail> {
    let found = read_request(alloc, true, bytes)?;
    match &found {
        Some((Request::Hello(key), rest)) => {
            Ok(key.as_slice() == b"ka1".as_slice() && bytes.get(10..) == Some(*rest))
        }
        _ => Ok(false),
    }
}

#[test]
fn a_request_is_read_in_front(rt: HostRuntime) -> Result<(), Fail> {
    assert!(rt; begins_with_a_hello(rt.alloc(), WRITTEN)?);
    assert!(rt; read_request(rt.alloc(), true, b"\0\0\0\x06\x01\0\x03ka")?.is_none());
    Ok(())
}

/// How many pages of memory the process has asked for.
fn pages(rt: &HostRuntime) -> Result<usize, Fail> {
    let sizes = fs::read_to_string(rt, "/proc/self/statm")?;
    let first = sizes.split(' ').next().unwrap_or("");
    Ok(first.parse()?)
}

/// A hello, and the front of a send whose body is to have 16,777,300 bytes.
const LONGEST: &[u8] = b"\0\0\0\x06\x01\0\x03ka1\x01\0\0\x54\x06\0\0\0\0\0\0\0\0";

/// How many pages are taken by so many streams, each of which announces the longest body.
fn taken(rt: &HostRuntime, streams: u32) -> Result<usize, Fail> {
    let before = pages(rt)?;
    let mut kept = Vec::new(rt.alloc());
    for _ in 0..streams {
        let mut frames = Frames::new(rt.alloc());
        frames.feed(rt.alloc(), LONGEST)?;
        kept.push(frames)?;
    }
    Ok(pages(rt)?.wrapping_sub(before))
}

#[test]
fn an_announced_body_takes_no_memory(rt: HostRuntime) -> Result<(), Fail> {
    // The longest body has 4,097 pages.
    assert!(rt; taken(&rt, 1_000)? < 4_097);
    Ok(())
}
