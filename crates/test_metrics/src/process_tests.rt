//! Texts of /proc.

use ipc_metrics::{processor_ticks, resident_pages};

/// A line of /proc/self/stat whose command is `a) (b) 1 2`.
const STAT: &str =
    "4021 (a) (b) 1 2) S 4000 4021 4000 34816 4021 4194304 1520 0 3 0 117 42 5 6 20 0 1 0 98123 7524352 800 18446744073709551615 1 1 0 0 0 0 0 4096 16387 0 0 0 17 2 0 0 0 0 0 0 0 0 0 0 0 0 0\n";

/// The processor's time is the sum of the fields 14 and 15.
#[test]
fn ticks_are_read(rt: HostRuntime) {
    assert!(rt; processor_ticks(STAT) == Some(159));
    assert!(rt; processor_ticks("4021 (cat) R 1 1 1 0 -1 0 0 0 0 0 7") == None);
    assert!(rt; processor_ticks("4021 (cat) R 1 1 1 0 -1 0 0 0 0 0 7 x 0") == None);
    assert!(rt;
        processor_ticks("4021 (cat) R 1 1 1 0 -1 0 0 0 0 0 18446744073709551615 1 0") == None
    );
    assert!(rt; processor_ticks("4021 cat") == None);
}

#[test]
fn pages_are_read(rt: HostRuntime) {
    assert!(rt; resident_pages("1837 800 712 5 0 160 0\n") == Some(800));
    assert!(rt; resident_pages("1837") == None);
    assert!(rt; resident_pages("1837 -1 712") == None);
    assert!(rt; resident_pages("") == None);
}
