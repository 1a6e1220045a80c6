//! The system's clock.

use std::time::{Clock, SystemTime};

/// Milliseconds since 1970, or 0 where the clock can't be read or stands before 1970.
pub fn moment<R: Clock>(rt: &R) -> u64 {
    let Ok(now) = SystemTime::now(rt) else {
        return 0;
    };
    match now.duration_since(SystemTime::UNIX_EPOCH) {
        Ok(passed) => u64::try_from(passed.as_millis()).unwrap_or(u64::MAX),
        Err(_) => 0,
    }
}
