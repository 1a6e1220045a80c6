//! The table of a page's families.

ghost use Rattle.std.specs.Prelude.{◌≡◌};
ghost use Rattle.ipc_metrics.specs.Families.{kind_word};

/// How a family's samples change.
#[derive(Clone, Copy, Drop)]
pub enum Kind {
    Gauge,
    Counter,
}

impl Kind {
    /// The format's word.
    pub fn word(self) -> &'static str
        ensures { result.now ≡ kind_word self }
    {
        match self {
            Kind::Gauge => "gauge",
            Kind::Counter => "counter",
        }
    }
}

/// Which numbers a family's samples show.
#[derive(Clone, Copy, Drop)]
pub enum Samples {
    Sessions,
    Connections,
    /// A sample for queues, and one for semaphores.
    Objects,
    Messages,
    MessageBytes,
    ChargedBytes,
    Kept,
    KeptBytes,
    Recorded,
    Accepted,
    /// A sample for each rule.
    Refused,
    Rounds,
    ProcessorSeconds,
    Resident,
}

/// A family: samples under one name.
#[derive(Drop)]
pub struct Family {
    pub name: &'static str,
    pub help: &'static str,
    pub kind: Kind,
    pub samples: Samples,
}

/// All families, in the order of the page.
pub static FAMILIES: [Family; 14] = [
    Family {
        name: "mqserve_sessions",
        help: "Sessions that live.",
        kind: Kind::Gauge,
        samples: Samples::Sessions,
    },
    Family {
        name: "mqserve_connections",
        help: "Connections that are open.",
        kind: Kind::Gauge,
        samples: Samples::Connections,
    },
    Family {
        name: "mqserve_objects",
        help: "Queues (mq) and semaphores (sem) that exist.",
        kind: Kind::Gauge,
        samples: Samples::Objects,
    },
    Family {
        name: "mqserve_messages",
        help: "Messages that stand in queues.",
        kind: Kind::Gauge,
        samples: Samples::Messages,
    },
    Family {
        name: "mqserve_message_bytes",
        help: "Bytes of the messages that stand in queues.",
        kind: Kind::Gauge,
        samples: Samples::MessageBytes,
    },
    Family {
        name: "mqserve_charged_bytes",
        help: "Bytes that queues take of their creators' limits.",
        kind: Kind::Gauge,
        samples: Samples::ChargedBytes,
    },
    Family {
        name: "mqserve_records_kept",
        help: "Records of the trail that are kept in memory.",
        kind: Kind::Gauge,
        samples: Samples::Kept,
    },
    Family {
        name: "mqserve_record_bytes",
        help: "Bytes of the records that are kept in memory.",
        kind: Kind::Gauge,
        samples: Samples::KeptBytes,
    },
    Family {
        name: "mqserve_records_total",
        help: "Records that were ever made.",
        kind: Kind::Counter,
        samples: Samples::Recorded,
    },
    Family {
        name: "mqserve_accepted_total",
        help: "Events that were accepted.",
        kind: Kind::Counter,
        samples: Samples::Accepted,
    },
    Family {
        name: "mqserve_refused_total",
        help: "Events that were refused, by the rule.",
        kind: Kind::Counter,
        samples: Samples::Refused,
    },
    Family {
        name: "mqserve_rounds_total",
        help: "Rounds of the server's loop.",
        kind: Kind::Counter,
        samples: Samples::Rounds,
    },
    Family {
        name: "process_cpu_seconds_total",
        help: "Seconds of processor time, in user and in system mode.",
        kind: Kind::Counter,
        samples: Samples::ProcessorSeconds,
    },
    Family {
        name: "process_resident_memory_bytes",
        help: "Bytes of memory that are resident.",
        kind: Kind::Gauge,
        samples: Samples::Resident,
    },
];
