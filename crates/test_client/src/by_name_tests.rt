//! Commands that name their object, `last`, and `list`: what is sent, what is printed, and how they end.

use crate::made::{Row, goes_cut};
use ipc_client::ClientFault;
use std::test::Fail;

static SESSIONS: [Row<'static>; 16] = [
    // A send, whose queue is opened to write.
    (
        "send /q 5 hi\n",
        b"\0\0\0\x09A\0\0\0\0\0\0\0\0\0\0\0\x09C\0\0\0\0\0\0\0\x07\0\0\0\x01F\0\0\0\x01B",
        b"\0\0\0\x0a\x03\0\x02/q\x02\0\x01\x80\0\0\0\0\x0f\x06\0\0\0\0\0\0\0\x07\0\0\0\x05hi\0\0\0\x09\x04\0\0\0\0\0\0\0\x07",
        "sent\n",
        Ok(true),
    ),
    // A send that is refused at the open, at the send, and at the close.
    (
        "send /q 5 hi\nsend /q 5 hi\nsend /q 5 hi\n",
        b"\0\0\0\x09A\0\0\0\0\0\0\0\0\0\0\0\x03L\0\x0d\0\0\0\x09C\0\0\0\0\0\0\0\x07\0\0\0\x03L\0\x1a\0\0\0\x01B\0\0\0\x09C\0\0\0\0\0\0\0\x08\0\0\0\x01F\0\0\0\x03L\0\x08",
        b"\0\0\0\x0a\x03\0\x02/q\x02\0\x01\x80\0\0\0\0\x0a\x03\0\x02/q\x02\0\x01\x80\0\0\0\0\x0f\x06\0\0\0\0\0\0\0\x07\0\0\0\x05hi\0\0\0\x09\x04\0\0\0\0\0\0\0\x07\0\0\0\x0a\x03\0\x02/q\x02\0\x01\x80\0\0\0\0\x0f\x06\0\0\0\0\0\0\0\x08\0\0\0\x05hi\0\0\0\x09\x04\0\0\0\0\0\0\0\x08",
        "refused 13 ENOENT Absent\nrefused 26 EMSGSIZE MessageLong\nsent\nrefused 8 EBADF BadDescr\n",
        Ok(false),
    ),
    // A receive, whose queue is opened to read, and which has room for its longest message. It waits: a notice and a
    // description come before its answer.
    (
        "receive /q\n",
        b"\0\0\0\x09A\0\0\0\0\0\0\0\0\0\0\0\x09C\0\0\0\0\0\0\0\x07\0\0\0\x0eE\0\0\0\0\x0a\0\0\x20\0\0\0\0\0\0\0\0\x09N\0\0\0\0\0\0\0\x03\0\0\0\x09O\0\0\0\0\0\0\0\x04\0\0\0\x07G\0\0\0\x05hi\0\0\0\x01B",
        b"\0\0\0\x0a\x03\0\x02/q\x01\0\x01\x80\0\0\0\0\x09\x08\0\0\0\0\0\0\0\x07\0\0\0\x0d\x07\0\0\0\0\0\0\0\x07\0\0\x20\0\0\0\0\x09\x04\0\0\0\0\0\0\0\x07",
        "notice 3\ntaken 4\nreceived 5 hi\n",
        Ok(true),
    ),
    // A receive that is refused at the open, at the question for the message size, at the receive, and at the close.
    (
        "receive /q\nreceive /q\nreceive /q\nreceive /q\n",
        b"\0\0\0\x09A\0\0\0\0\0\0\0\0\0\0\0\x03L\0\x0f\0\0\0\x09C\0\0\0\0\0\0\0\x07\0\0\0\x03L\0\x08\0\0\0\x01B\0\0\0\x09C\0\0\0\0\0\0\0\x08\0\0\0\x0eE\0\0\0\0\x01\0\0\0\x03\0\0\0\0\0\0\0\x03L\0\x0a\0\0\0\x01B\0\0\0\x09C\0\0\0\0\0\0\0\x09\0\0\0\x0eE\0\0\0\0\x01\0\0\0\x03\0\0\0\0\0\0\0\x05G\0\0\0\0\0\0\0\x03L\0\x08",
        b"\0\0\0\x0a\x03\0\x02/q\x01\0\x01\x80\0\0\0\0\x0a\x03\0\x02/q\x01\0\x01\x80\0\0\0\0\x09\x08\0\0\0\0\0\0\0\x07\0\0\0\x09\x04\0\0\0\0\0\0\0\x07\0\0\0\x0a\x03\0\x02/q\x01\0\x01\x80\0\0\0\0\x09\x08\0\0\0\0\0\0\0\x08\0\0\0\x0d\x07\0\0\0\0\0\0\0\x08\0\0\0\x03\0\0\0\x09\x04\0\0\0\0\0\0\0\x08\0\0\0\x0a\x03\0\x02/q\x01\0\x01\x80\0\0\0\0\x09\x08\0\0\0\0\0\0\0\x09\0\0\0\x0d\x07\0\0\0\0\0\0\0\x09\0\0\0\x03\0\0\0\x09\x04\0\0\0\0\0\0\0\x09",
        "refused 15 EACCES ModeDenied\nrefused 8 EBADF BadDescr\nrefused 10 EBADF NotForRead\nreceived 0 hex:\nrefused 8 EBADF BadDescr\n",
        Ok(false),
    ),
    // A post.
    (
        "post /s\n",
        b"\0\0\0\x09A\0\0\0\0\0\0\0\0\0\0\0\x09C\0\0\0\0\0\0\0\x07\0\0\0\x01B\0\0\0\x01B",
        b"\0\0\0\x0c\x0b\0\x02/s\0\x01\x80\0\0\0\0\0\0\0\x09\x0e\0\0\0\0\0\0\0\x07\0\0\0\x09\x0c\0\0\0\0\0\0\0\x07",
        "done\n",
        Ok(true),
    ),
    // A post that is refused at the open, at the post, and at the close.
    (
        "post /s\npost /s\npost /s\n",
        b"\0\0\0\x09A\0\0\0\0\0\0\0\0\0\0\0\x03L\0\x0d\0\0\0\x09C\0\0\0\0\0\0\0\x07\0\0\0\x03L\0\x1e\0\0\0\x01B\0\0\0\x09C\0\0\0\0\0\0\0\x08\0\0\0\x01B\0\0\0\x03L\0\x08",
        b"\0\0\0\x0c\x0b\0\x02/s\0\x01\x80\0\0\0\0\0\0\0\x0c\x0b\0\x02/s\0\x01\x80\0\0\0\0\0\0\0\x09\x0e\0\0\0\0\0\0\0\x07\0\0\0\x09\x0c\0\0\0\0\0\0\0\x07\0\0\0\x0c\x0b\0\x02/s\0\x01\x80\0\0\0\0\0\0\0\x09\x0e\0\0\0\0\0\0\0\x08\0\0\0\x09\x0c\0\0\0\0\0\0\0\x08",
        "refused 13 ENOENT Absent\nrefused 30 EOVERFLOW Overflow\ndone\nrefused 8 EBADF BadDescr\n",
        Ok(false),
    ),
    // A wait, behind a notice that came before its answer.
    (
        "wait /s\n",
        b"\0\0\0\x09A\0\0\0\0\0\0\0\0\0\0\0\x09C\0\0\0\0\0\0\0\x07\0\0\0\x09N\0\0\0\0\0\0\0\x02\0\0\0\x01B\0\0\0\x01B",
        b"\0\0\0\x0c\x0b\0\x02/s\0\x01\x80\0\0\0\0\0\0\0\x09\x0f\0\0\0\0\0\0\0\x07\0\0\0\x09\x0c\0\0\0\0\0\0\0\x07",
        "notice 2\ndone\n",
        Ok(true),
    ),
    // A wait that is refused at the open, at the wait, and at the close.
    (
        "wait /s\nwait /s\nwait /s\n",
        b"\0\0\0\x09A\0\0\0\0\0\0\0\0\0\0\0\x03L\0\x0d\0\0\0\x09C\0\0\0\0\0\0\0\x07\0\0\0\x03L\0\x08\0\0\0\x03L\0\x08\0\0\0\x09C\0\0\0\0\0\0\0\x08\0\0\0\x01B\0\0\0\x03L\0\x08",
        b"\0\0\0\x0c\x0b\0\x02/s\0\x01\x80\0\0\0\0\0\0\0\x0c\x0b\0\x02/s\0\x01\x80\0\0\0\0\0\0\0\x09\x0f\0\0\0\0\0\0\0\x07\0\0\0\x09\x0c\0\0\0\0\0\0\0\x07\0\0\0\x0c\x0b\0\x02/s\0\x01\x80\0\0\0\0\0\0\0\x09\x0f\0\0\0\0\0\0\0\x08\0\0\0\x09\x0c\0\0\0\0\0\0\0\x08",
        "refused 13 ENOENT Absent\nrefused 8 EBADF BadDescr\nrefused 8 EBADF BadDescr\ndone\nrefused 8 EBADF BadDescr\n",
        Ok(false),
    ),
    // A connection that ends while a wait is parked.
    (
        "wait /s\npost /s\n",
        b"\0\0\0\x09A\0\0\0\0\0\0\0\0\0\0\0\x09C\0\0\0\0\0\0\0\x07",
        b"\0\0\0\x0c\x0b\0\x02/s\0\x01\x80\0\0\0\0\0\0\0\x09\x0f\0\0\0\0\0\0\0\x07",
        "",
        Err(ClientFault::Net),
    ),
    // An open that tells no description: it is over.
    (
        "receive /q\n",
        b"\0\0\0\x09A\0\0\0\0\0\0\0\0\0\0\0\x01B",
        b"\0\0\0\x0a\x03\0\x02/q\x01\0\x01\x80\0",
        "done\n",
        Ok(false),
    ),
    // Words at fault, of which nothing is sent: the first argument that does not read is named.
    (
        "send /q x hi\nsend hex:1 x hi\nsend /q 5\nsend /q 5 hi ho\nreceive /q 8\npost\nwait /s 1\nlist mq\nreceive --create\nsend\n",
        b"\0\0\0\x09A\0\0\0\0\0\0\0\0",
        b"",
        "fault value prio\nfault value name\nfault usage\nfault usage\nfault usage\nfault usage\nfault usage\nfault usage\nfault usage\nfault usage\n",
        Ok(false),
    ),
    // `last` is the description that a command opened last, of either family; a refused open and an act by name leave
    // it.
    (
        "mq-close last\nmq-open /q rw\nmq-send last 5 last\nsem-open /s\nsem-post last\nmq-open /r r\npost /s\nmq-close last\nmq-close lasts\nmq-unlink last\n",
        b"\0\0\0\x09A\0\0\0\0\0\0\0\0\0\0\0\x09C\0\0\0\0\0\0\0\x04\0\0\0\x01F\0\0\0\x09C\0\0\0\0\0\0\0\x05\0\0\0\x01B\0\0\0\x03L\0\x0d\0\0\0\x09C\0\0\0\0\0\0\0\x06\0\0\0\x01B\0\0\0\x01B\0\0\0\x03L\0\x08\0\0\0\x01B",
        b"\0\0\0\x0a\x03\0\x02/q\x03\0\x01\x80\0\0\0\0\x11\x06\0\0\0\0\0\0\0\x04\0\0\0\x05last\0\0\0\x0c\x0b\0\x02/s\0\x01\x80\0\0\0\0\0\0\0\x09\x0e\0\0\0\0\0\0\0\x05\0\0\0\x0a\x03\0\x02/r\x01\0\x01\x80\0\0\0\0\x0c\x0b\0\x02/s\0\x01\x80\0\0\0\0\0\0\0\x09\x0e\0\0\0\0\0\0\0\x06\0\0\0\x09\x0c\0\0\0\0\0\0\0\x06\0\0\0\x09\x04\0\0\0\0\0\0\0\x05\0\0\0\x07\x05\0\x04last",
        "fault value d\nopened 4\nsent\nopened 5\ndone\nrefused 13 ENOENT Absent\ndone\nrefused 8 EBADF BadDescr\nfault value d\ndone\n",
        Ok(false),
    ),
    // `last` with a fault of another argument.
    (
        "mq-open /q w\nmq-send last x hi\nmq-send last 5\n",
        b"\0\0\0\x09A\0\0\0\0\0\0\0\0\0\0\0\x09C\0\0\0\0\0\0\0\x04",
        b"\0\0\0\x0a\x03\0\x02/q\x02\0\x01\x80\0",
        "opened 4\nfault value prio\nfault usage\n",
        Ok(false),
    ),
    // No queue and no semaphore.
    (
        "list\n",
        b"\0\0\0\x09A\0\0\0\0\0\0\0\0\0\0\0\x03I\0\0\0\0\0\x03I\0\0",
        b"\0\0\0\x08\x12\x01\0\0\0\0\x03\xe8\0\0\0\x08\x12\x02\0\0\0\0\x03\xe8",
        "",
        Ok(true),
    ),
    // Three queues over two pages, of which one can't be opened and one has gone, and a semaphore.
    (
        "list\n",
        b"\0\0\0\x09A\0\0\0\0\0\0\0\0\0\0\0\x0dI\0\x02\0\x02/a\0\x04/b\x20c\0\0\0\x0bJ\0\0\x03\xe8\0\0\0d\x01\x80\0\0\0\x09C\0\0\0\0\0\0\0\x07\0\0\0\x0eE\0\0\0\0\x0a\0\0\x20\0\0\0\0\x03\0\0\0\x01B\0\0\0\x0bJ\0\0\0\0\0\0\0\0\0\x07\0\0\0\x03L\0\x0f\0\0\0\x07I\0\x01\0\x02/c\0\0\0\x03L\0\x0d\0\0\0\x03L\0\x0d\0\0\0\x03I\0\0\0\0\0\x07I\0\x01\0\x02/s\0\0\0\x0bJ\0\0\0\x01\0\0\0\x02\x03\xb6\0\0\0\x09C\0\0\0\0\0\0\0\x08\0\0\0\x05H\0\0\0\x09\0\0\0\x01B\0\0\0\x03I\0\0",
        b"\0\0\0\x08\x12\x01\0\0\0\0\x03\xe8\0\0\0\x07\x13\x01\x01\0\x02/a\0\0\0\x0a\x03\0\x02/a\x01\0\x01\x80\0\0\0\0\x09\x08\0\0\0\0\0\0\0\x07\0\0\0\x09\x04\0\0\0\0\0\0\0\x07\0\0\0\x09\x13\x01\x01\0\x04/b\x20c\0\0\0\x0c\x03\0\x04/b\x20c\x01\0\x01\x80\0\0\0\0\x08\x12\x01\0\0\0\x02\x03\xe8\0\0\0\x07\x13\x01\x01\0\x02/c\0\0\0\x0a\x03\0\x02/c\x01\0\x01\x80\0\0\0\0\x08\x12\x01\0\0\0\x03\x03\xe8\0\0\0\x08\x12\x02\0\0\0\0\x03\xe8\0\0\0\x07\x13\x02\x01\0\x02/s\0\0\0\x0c\x0b\0\x02/s\0\x01\x80\0\0\0\0\0\0\0\x09\x11\0\0\0\0\0\0\0\x08\0\0\0\x09\x0c\0\0\0\0\0\0\0\x08\0\0\0\x08\x12\x02\0\0\0\x01\x03\xe8",
        "mq /a 1000 100 0600 3\nmq hex:2f622063 0 0 0007 -\nmq /c - - - -\nsem /s 1 2 1666 9\n",
        Ok(true),
    ),
    // A listing of queues that is refused; the semaphores are listed, of which one has no value to tell, and is not
    // closed.
    (
        "list\n",
        b"\0\0\0\x09A\0\0\0\0\0\0\0\0\0\0\0\x03L\0\x0c\0\0\0\x07I\0\x01\0\x02/s\0\0\0\x0bJ\0\0\0\x01\0\0\0\x01\0\0\0\0\0\x09C\0\0\0\0\0\0\0\x08\0\0\0\x03L\0\x08\0\0\0\x03L\0\x08\0\0\0\x03I\0\0",
        b"\0\0\0\x08\x12\x01\0\0\0\0\x03\xe8\0\0\0\x08\x12\x02\0\0\0\0\x03\xe8\0\0\0\x07\x13\x02\x01\0\x02/s\0\0\0\x0c\x0b\0\x02/s\0\x01\x80\0\0\0\0\0\0\0\x09\x11\0\0\0\0\0\0\0\x08\0\0\0\x09\x0c\0\0\0\0\0\0\0\x08\0\0\0\x08\x12\x02\0\0\0\x01\x03\xe8",
        "refused 12 EACCES DirRead\nrefused 8 EBADF BadDescr\nsem /s 1 1 0000 -\n",
        Ok(false),
    ),
];

#[test]
fn words_by_name_go_so(rt: HostRuntime) -> Result<(), Fail> {
    for (number, row) in SESSIONS.iter().enumerate() {
        if !goes_cut(rt.alloc(), row) {
            return Err(Fail::new(format_args!("session {number} goes otherwise")));
        }
    }
    Ok(())
}
