//! A trail on its way to a disk that takes a few bytes at a time, and is full for a while.

use ipc_log::{Head, NO_RETELLING, TrailWriter, put_head, put_record};
use ipc_terms::{Event, NoMemory, Record};
use ipc_trail::Trail;
use std::alloc::Global;
use std::io;
use std::io::{ErrorKind, Write};
use std::test::Fail;

const HEAD: Head = Head {
    first: 0,
    msg_max: 10,
    msgsize_max: 8192,
    queues_max: 256,
    users: 7,
    retelling: NO_RETELLING,
};

/// Takes seven bytes at a time, as long as there is room.
#[derive(Drop)]
struct Disk {
    taken: Vec<u8>,
    room: usize,
}

impl Write for Disk {
    fn write(&mut self, bytes: &[u8]) -> io::Result<usize> {
        let count = bytes.len().min(7).min(self.room);
        if count == 0 {
            return Err(io::Error::from(ErrorKind::WriteZero));
        }
        self.taken.extend_from_slice(&bytes[..count])?;
        self.room -= count;
        Ok(count)
    }

    fn flush(&mut self) -> io::Result<()> {
        Ok(())
    }
}

fn tick(moment: u64) -> Record {
    Record {
        event: Event::Tick { moment },
        rule: None,
    }
}

/// Records a tick.
fn record_tick(trail: &mut Trail, moment: u64) -> Result<(), NoMemory> {
    trail.reserve_one()?;
    trail.push_reserved(tick(moment));
    Ok(())
}

/// Spells what isn't spelled yet, of a trail that has it all.
fn spell(writer: &mut TrailWriter, trail: &Trail) -> Result<(), Fail> {
    if trail.first() > writer.spelled() {
        return Err(Fail::new("forgotten"));
    }
    writer.spell(trail)?;
    Ok(())
}

/// The file of a head and so many ticks.
fn file_of(alloc: Global, count: u64) -> Result<Vec<u8>, Fail> {
    let mut file = Vec::new(alloc);
    put_head(&mut file, &HEAD)?;
    for place in 0..count {
        put_record(&mut file, place, &tick(place))?;
    }
    Ok(file)
}

/// Whether the writer has spelled so many records, and the disk has them.
fn is_written(alloc: Global, writer: &TrailWriter, disk: &Disk, count: u64) -> Result<bool, Fail> {
    let is_all = writer.is_empty() && writer.len() == 0 && writer.spelled() == count;
    Ok(is_all && disk.taken == file_of(alloc, count)?)
}

#[test]
fn each_record_is_written_once(rt: HostRuntime) -> Result<(), Fail> {
    let mut trail = Trail::new(rt.alloc());
    let mut writer = TrailWriter::new(rt.alloc(), &HEAD)?;
    let mut disk = Disk {
        taken: Vec::new(rt.alloc()),
        room: 0,
    };
    for place in 0..5 {
        record_tick(&mut trail, place)?;
        spell(&mut writer, &trail)?;
        // The first three rounds leave some bytes.
        disk.room = disk
            .room
            .saturating_add(30)
            .saturating_add(place as usize * 10);
        let is_full = writer.write(&mut disk).is_err();
        assert!(rt; is_full == (disk.room == 0));
    }
    assert!(rt; is_written(rt.alloc(), &writer, &disk, 5)?);
    Ok(())
}

#[test]
fn records_go_on_behind_those_of_a_file(rt: HostRuntime) -> Result<(), Fail> {
    let mut trail = Trail::new(rt.alloc());
    let mut disk = Disk {
        taken: file_of(rt.alloc(), 3)?,
        room: 1_000,
    };
    for place in 0..5 {
        record_tick(&mut trail, place)?;
    }
    let mut writer = TrailWriter::behind(rt.alloc(), 3);
    spell(&mut writer, &trail)?;
    writer.write(&mut disk)?;
    assert!(rt; is_written(rt.alloc(), &writer, &disk, 5)?);
    Ok(())
}
