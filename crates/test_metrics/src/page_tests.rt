//! A page, written out by the format's rules.

use ipc_metrics::{Numbers, page};
use std::test::Fail;

/// Numbers that are told apart by their values.
fn numbers() -> Numbers {
    let mut verdicts = [0; 34];
    verdicts[0] = 18_446_744_073_709_551_615;
    verdicts[1] = 21;
    verdicts[17] = 22;
    verdicts[33] = 23;
    Numbers {
        sessions: 1,
        connections: 2,
        queues: 3,
        semaphores: 4,
        messages: 5,
        message_bytes: 60,
        charged_bytes: 6,
        recorded: 70,
        kept: 7,
        kept_bytes: 800,
        verdicts,
        rounds: 9,
        processor_ticks: 1_205,
        resident: 10_485_760,
    }
}

const PAGE: &str = "\
# HELP mqserve_sessions Sessions that live.
# TYPE mqserve_sessions gauge
mqserve_sessions 1
# HELP mqserve_connections Connections that are open.
# TYPE mqserve_connections gauge
mqserve_connections 2
# HELP mqserve_objects Queues (mq) and semaphores (sem) that exist.
# TYPE mqserve_objects gauge
mqserve_objects{family=\"mq\"} 3
mqserve_objects{family=\"sem\"} 4
# HELP mqserve_messages Messages that stand in queues.
# TYPE mqserve_messages gauge
mqserve_messages 5
# HELP mqserve_message_bytes Bytes of the messages that stand in queues.
# TYPE mqserve_message_bytes gauge
mqserve_message_bytes 60
# HELP mqserve_charged_bytes Bytes that queues take of their creators' limits.
# TYPE mqserve_charged_bytes gauge
mqserve_charged_bytes 6
# HELP mqserve_records_kept Records of the trail that are kept in memory.
# TYPE mqserve_records_kept gauge
mqserve_records_kept 7
# HELP mqserve_record_bytes Bytes of the records that are kept in memory.
# TYPE mqserve_record_bytes gauge
mqserve_record_bytes 800
# HELP mqserve_records_total Records that were ever made.
# TYPE mqserve_records_total counter
mqserve_records_total 70
# HELP mqserve_accepted_total Events that were accepted.
# TYPE mqserve_accepted_total counter
mqserve_accepted_total 18446744073709551615
# HELP mqserve_refused_total Events that were refused, by the rule.
# TYPE mqserve_refused_total counter
mqserve_refused_total{rule=\"1\",name=\"NoSession\",error=\"ESRCH\"} 21
mqserve_refused_total{rule=\"2\",name=\"InCall\",error=\"EBUSY\"} 0
mqserve_refused_total{rule=\"3\",name=\"NotInCall\",error=\"EINVAL\"} 0
mqserve_refused_total{rule=\"4\",name=\"NameForm\",error=\"EINVAL\"} 0
mqserve_refused_total{rule=\"5\",name=\"NameLong\",error=\"ENAMETOOLONG\"} 0
mqserve_refused_total{rule=\"6\",name=\"NotAdmin\",error=\"EPERM\"} 0
mqserve_refused_total{rule=\"7\",name=\"NoUser\",error=\"EINVAL\"} 0
mqserve_refused_total{rule=\"8\",name=\"BadDescr\",error=\"EBADF\"} 0
mqserve_refused_total{rule=\"9\",name=\"NotForWrite\",error=\"EBADF\"} 0
mqserve_refused_total{rule=\"10\",name=\"NotForRead\",error=\"EBADF\"} 0
mqserve_refused_total{rule=\"11\",name=\"DirSearch\",error=\"EACCES\"} 0
mqserve_refused_total{rule=\"12\",name=\"DirRead\",error=\"EACCES\"} 0
mqserve_refused_total{rule=\"13\",name=\"Absent\",error=\"ENOENT\"} 0
mqserve_refused_total{rule=\"14\",name=\"Present\",error=\"EEXIST\"} 0
mqserve_refused_total{rule=\"15\",name=\"ModeDenied\",error=\"EACCES\"} 0
mqserve_refused_total{rule=\"16\",name=\"DirWrite\",error=\"EACCES\"} 0
mqserve_refused_total{rule=\"17\",name=\"Sticky\",error=\"EACCES\"} 22
mqserve_refused_total{rule=\"18\",name=\"NotOwner\",error=\"EPERM\"} 0
mqserve_refused_total{rule=\"19\",name=\"ChownDenied\",error=\"EPERM\"} 0
mqserve_refused_total{rule=\"20\",name=\"AttrRange\",error=\"EINVAL\"} 0
mqserve_refused_total{rule=\"21\",name=\"ValueRange\",error=\"EINVAL\"} 0
mqserve_refused_total{rule=\"22\",name=\"QueueCount\",error=\"ENOSPC\"} 0
mqserve_refused_total{rule=\"23\",name=\"ByteLimit\",error=\"EMFILE\"} 0
mqserve_refused_total{rule=\"24\",name=\"DescrLimit\",error=\"EMFILE\"} 0
mqserve_refused_total{rule=\"25\",name=\"PrioRange\",error=\"EINVAL\"} 0
mqserve_refused_total{rule=\"26\",name=\"MessageLong\",error=\"EMSGSIZE\"} 0
mqserve_refused_total{rule=\"27\",name=\"BufferShort\",error=\"EMSGSIZE\"} 0
mqserve_refused_total{rule=\"28\",name=\"NotifyTaken\",error=\"EBUSY\"} 0
mqserve_refused_total{rule=\"29\",name=\"WouldBlock\",error=\"EAGAIN\"} 0
mqserve_refused_total{rule=\"30\",name=\"Overflow\",error=\"EOVERFLOW\"} 0
mqserve_refused_total{rule=\"31\",name=\"BadKey\",error=\"EACCES\"} 0
mqserve_refused_total{rule=\"32\",name=\"TimedOut\",error=\"ETIMEDOUT\"} 0
mqserve_refused_total{rule=\"33\",name=\"NoTaker\",error=\"ESRCH\"} 23
# HELP mqserve_rounds_total Rounds of the server's loop.
# TYPE mqserve_rounds_total counter
mqserve_rounds_total 9
# HELP process_cpu_seconds_total Seconds of processor time, in user and in system mode.
# TYPE process_cpu_seconds_total counter
process_cpu_seconds_total 12.05
# HELP process_resident_memory_bytes Bytes of memory that are resident.
# TYPE process_resident_memory_bytes gauge
process_resident_memory_bytes 10485760
";

#[test]
fn page_is_so(rt: HostRuntime) -> Result<(), Fail> {
    let text = page(rt.alloc(), &numbers())?;
    assert!(rt; text.as_str() == PAGE);
    Ok(())
}

/// Less than a second has its zeros.
#[test]
fn seconds_have_two_digits(rt: HostRuntime) -> Result<(), Fail> {
    let made = Numbers {
        processor_ticks: 7,
        ..numbers()
    };
    let text = page(rt.alloc(), &made)?;
    assert!(rt; text.contains("\nprocess_cpu_seconds_total 0.07\n"));
    Ok(())
}
