//! The arguments of a server, and how a program ends that can't serve.

use crate::shown::shows;
use ipc_access::UserFault;
use ipc_core::{Field, Limits};
use ipc_program::{Kept, ProgramFault, Task, Threading, task_of_words};
use ipc_script::ScriptFault;
use std::alloc::Global;
use std::io;
use std::io::ErrorKind;
use std::test::Fail;

/// On what threads a server serves, after how many connections it ends, and its limits.
type Told = (Threading, Option<u64>, Limits);

/// The records that one thread keeps where nothing is told of them.
const STANDARD_KEPT: Kept = Kept {
    records: Some(1_000_000),
    bytes: Some(268_435_456),
};

/// The words behind `mqserve serve users.txt 127.0.0.1:7000`, and what they tell the server.
static TOLD: [(&[&str], Told); 16] = [
    (&[], (Threading::Workers(4), None, Limits::STANDARD)),
    (
        &["--workers", "1"],
        (Threading::Workers(1), None, Limits::STANDARD),
    ),
    (
        &["--workers", "64"],
        (Threading::Workers(64), None, Limits::STANDARD),
    ),
    (
        &["--workers=8"],
        (Threading::Workers(8), None, Limits::STANDARD),
    ),
    (
        &["--stop-after", "0"],
        (Threading::Workers(4), Some(0), Limits::STANDARD),
    ),
    (
        &["--stop-after", "5"],
        (Threading::Workers(4), Some(5), Limits::STANDARD),
    ),
    (
        &["--stop-after", "18446744073709551615"],
        (
            Threading::Workers(4),
            Some(18_446_744_073_709_551_615),
            Limits::STANDARD,
        ),
    ),
    (
        &["--msg-max", "0"],
        (
            Threading::Workers(4),
            None,
            Limits {
                msg_max: 0,
                ..Limits::STANDARD
            },
        ),
    ),
    (
        &["--msgsize-max", "4294967295"],
        (
            Threading::Workers(4),
            None,
            Limits {
                msgsize_max: 4_294_967_295,
                ..Limits::STANDARD
            },
        ),
    ),
    (
        &["--queues-max", "65537"],
        (
            Threading::Workers(4),
            None,
            Limits {
                queues_max: 65_537,
                ..Limits::STANDARD
            },
        ),
    ),
    (
        &["--one-thread"],
        (
            Threading::OneThread(10_000, STANDARD_KEPT),
            None,
            Limits::STANDARD,
        ),
    ),
    (
        &["--connections", "1", "--stop-after", "2", "--one-thread"],
        (
            Threading::OneThread(1, STANDARD_KEPT),
            Some(2),
            Limits::STANDARD,
        ),
    ),
    (
        &[
            "--one-thread",
            "--keep-bytes",
            "0",
            "--keep-records",
            "1000",
        ],
        (
            Threading::OneThread(
                10_000,
                Kept {
                    records: Some(1_000),
                    bytes: Some(0),
                },
            ),
            None,
            Limits::STANDARD,
        ),
    ),
    (
        &["--keep-all", "--one-thread"],
        (
            Threading::OneThread(
                10_000,
                Kept {
                    records: None,
                    bytes: None,
                },
            ),
            None,
            Limits::STANDARD,
        ),
    ),
    (
        &["--stop-after", "3", "--workers", "2"],
        (Threading::Workers(2), Some(3), Limits::STANDARD),
    ),
    (
        &[
            "--queues-max",
            "7",
            "--msgsize-max",
            "6",
            "--msg-max",
            "5",
            "--stop-after",
            "4",
            "--workers",
            "3",
        ],
        (
            Threading::Workers(3),
            Some(4),
            Limits {
                msg_max: 5,
                msgsize_max: 6,
                queues_max: 7,
            },
        ),
    ),
];

/// The task of the words, behind some that stand in front of each.
fn task_behind(alloc: Global, front: &[&str], words: &[&str]) -> Result<Task, ProgramFault> {
    let mut all = Vec::new(alloc);
    all.extend_from_slice(front)?;
    all.extend_from_slice(words)?;
    task_of_words(alloc, "", &all)
}

static SERVE: [&str; 4] = ["mqserve", "serve", "users.txt", "127.0.0.1:7000"];

fn tells(task: &Task, told: &Told) -> bool {
    match task {
        Task::Serve(serving) => serving.users.as_str() == "users.txt"
            && serving.address.as_str() == "127.0.0.1:7000"
            && (serving.threading, serving.stop_after, serving.limits) == *told
            && serving.socket_mode == 0o600,
        _ => false,
    }
}

#[test]
fn words_tell_a_server(rt: HostRuntime) -> Result<(), Fail> {
    for (row, (words, told)) in TOLD.iter().enumerate() {
        let Ok(task) = task_behind(rt.alloc(), &SERVE, words) else {
            return Err(Fail::new(format_args!("row {row} is no task")));
        };
        if !tells(&task, told) {
            return Err(Fail::new(format_args!("row {row}")));
        }
    }
    Ok(())
}

/// The words behind `mqserve serve users.txt unix:/run/socket`, and the permission bits that they give its file.
static MODES: [(&[&str], u32); 4] = [
    (&[], 0o600),
    (&["--socket-mode", "0600"], 0o600),
    (&["--one-thread", "--socket-mode", "0617"], 0o617),
    (&["--socket-mode", "0000"], 0),
];

static SERVE_AT_FILE: [&str; 4] = ["mqserve", "serve", "users.txt", "unix:/run/socket"];

#[test]
fn words_tell_the_mode_of_a_socket(rt: HostRuntime) -> Result<(), Fail> {
    for (row, (words, mode)) in MODES.iter().enumerate() {
        let told = match task_behind(rt.alloc(), &SERVE_AT_FILE, words) {
            Ok(Task::Serve(serving)) => serving.socket_mode,
            _ => return Err(Fail::new(format_args!("row {row} is no server"))),
        };
        if told != *mode {
            return Err(Fail::new(format_args!("row {row} is {told:o}")));
        }
    }
    Ok(())
}

#[test]
fn faults_of_a_server_have_words_and_statuses(rt: HostRuntime) -> Result<(), Fail> {
    let full = io::Error::from(ErrorKind::OutOfMemory);
    let other = io::Error::from(ErrorKind::NotFound);
    let faults = [
        (ProgramFault::of_file(&other), "mqserve: read\n", 4),
        (ProgramFault::of_output(&other), "mqserve: write\n", 4),
        (ProgramFault::of_address(&other), "mqserve: net\n", 4),
        (ProgramFault::of_file(&full), "mqserve: memory\n", 5),
        (ProgramFault::of_output(&full), "mqserve: memory\n", 5),
        (ProgramFault::of_address(&full), "mqserve: memory\n", 5),
        (
            ScriptFault::Users(UserFault::BadLine(2)).into(),
            "mqserve: users BadLine 2\n",
            3,
        ),
        (
            ScriptFault::Config(Field::MsgMax).into(),
            "mqserve: config MsgMax\n",
            3,
        ),
        (
            ProgramFault::NotUtf8,
            "error: an argument is not UTF-8\n",
            2,
        ),
    ];
    for (fault, words, status) in &faults {
        shows(rt.alloc(), fault, words)?;
        if fault.status() != *status {
            return Err(Fail::new(format_args!("{words} has another status")));
        }
    }
    Ok(())
}
