//! The file of a trail that is being written.

use crate::files::{OWNER_S_MODE, beside_streams, lock, path_at, remove, sync_folder};
use ipc_log::{Head, TrailWriter};
use ipc_program::TrailFile;
use std::alloc::{AllocError, Global};
use std::fs::File;
use std::io;
use std::io::ErrorKind;
use std::os::unix::fs::OpenOptionsExt;
use std::rt::Files;

/// Files in which a trail goes on.
#[derive(Drop)]
pub struct Segments {
    /// The path of the first file.
    path: String,
    head: Head,
    /// After how many bytes another is begun.
    bytes: u64,
}

impl Segments {
    /// Those that are wanted of this trail, if any are.
    pub fn wanted(
        alloc: Global,
        wanted: &TrailFile,
        head: &Head,
    ) -> Result<Option<Segments>, AllocError> {
        let Some(bytes) = wanted.segment else {
            return Ok(None);
        };
        Ok(Some(Segments {
            path: String::from_str(alloc, wanted.path.as_str())?,
            head: *head,
            bytes,
        }))
    }

    /// Makes the file that goes on at the place.
    fn make<R: AllocGlobal + Files<File = File>>(
        &self,
        rt: &R,
        place: u64,
        is_synced: bool,
    ) -> io::Result<(File, TrailWriter)> {
        let path = path_at(rt.alloc(), self.path.as_str(), place)?;
        let head = Head {
            first: place,
            ..self.head
        };
        make(rt, path.as_str(), &head, is_synced)
    }
}

/// The file of a trail, and what is written into it.
#[derive(Drop)]
pub struct OpenTrail {
    /// The trail's first file, which stays locked, where another is written.
    first: Option<File>,
    file: File,
    /// How many bytes the file has; where no other could be begun, how many came since.
    grown: u64,
    segments: Option<Segments>,
    /// What is to be written.
    pub writer: TrailWriter,
    /// Whether what is written is synced.
    pub is_synced: bool,
    /// A sync failed: what was written before it may be lost, and no later sync would say so (fsync(2)).
    pub is_lost: bool,
}

impl OpenTrail {
    /// Makes the first file, in which the head stands then, and locks it. Its owner alone may read it. `AlreadyExists` where something
    /// has this path. Nothing is left at an `Err`.
    pub fn create<R: AllocGlobal + Files<File = File>>(
        rt: &R,
        wanted: &TrailFile,
        head: &Head,
    ) -> io::Result<OpenTrail> {
        let segments = Segments::wanted(rt.alloc(), wanted, head)?;
        let (file, writer) = make(rt, wanted.path.as_str(), head, wanted.is_synced)?;
        Ok(OpenTrail::new(None, file, 0, writer, segments, wanted.is_synced))
    }

    /// The file, which has so many bytes, and at the end of which the writer goes on; and the first one, where this is another.
    pub fn new(
        first: Option<File>,
        file: File,
        grown: u64,
        writer: TrailWriter,
        segments: Option<Segments>,
        is_synced: bool,
    ) -> OpenTrail {
        OpenTrail {
            first,
            file,
            grown,
            segments,
            writer,
            is_synced,
            is_lost: false,
        }
    }

    /// Leaves so many bytes of the file, if it can be cut.
    pub fn cut(&mut self, length: u64) {
        let _ = self.file.set_len(length);
    }

    /// Writes what is spelled, and syncs it where that is asked for.
    pub fn put(&mut self) -> io::Result<()> {
        let spelled = self.writer.len();
        let written = self.writer.write(&mut self.file);
        let left = self.writer.len();
        self.grown = self
            .grown
            .saturating_add(spelled.saturating_sub(left) as u64);
        written?;
        if !self.is_synced {
            return Ok(());
        }
        let synced = self.file.sync_data();
        self.is_lost |= synced.is_err();
        synced
    }

    /// Begins another file, where that is wanted after so many bytes and this one has all that is spelled. This one is synced before, so
    /// that a loss of power leaves no file without those that it goes on from. At an `Err` this one goes on, and the next try comes after
    /// as many bytes more.
    pub fn turn<R: AllocGlobal + Files<File = File>>(&mut self, rt: &R) -> io::Result<()> {
        let Some(segments) = &self.segments else {
            return Ok(());
        };
        if self.grown < segments.bytes || !self.writer.is_empty() {
            return Ok(());
        }
        self.grown = 0;
        if !self.is_synced {
            self.file.sync_data()?;
        }
        let (file, writer) = segments.make(rt, self.writer.spelled(), self.is_synced)?;
        let before = std::mem::replace(&mut self.file, file);
        if self.first.is_none() {
            self.first = Some(before);
        }
        self.writer = writer;
        Ok(())
    }
}

/// Makes a file, in which the head stands then, and locks it; and what is written behind the head. Nothing is left at an `Err`.
fn make<R: AllocGlobal + Files<File = File>>(
    rt: &R,
    path: &str,
    head: &Head,
    is_synced: bool,
) -> io::Result<(File, TrailWriter)> {
    let Ok(mut writer) = TrailWriter::new(rt.alloc(), head) else {
        return Err(io::Error::from(ErrorKind::OutOfMemory));
    };
    let file = File::options()
        .write(true)
        .create_new(true)
        .mode(OWNER_S_MODE)
        .open(rt, path)?;
    match begin(rt, path, &file, &mut writer, is_synced) {
        Ok(file) => Ok((file, writer)),
        Err(error) => {
            let _ = remove(rt, path);
            Err(error)
        }
    }
}

/// Locks the file, and writes the head. The file to go on with.
fn begin<R: Files<File = File>>(
    rt: &R,
    path: &str,
    file: &File,
    writer: &mut TrailWriter,
    is_synced: bool,
) -> io::Result<File> {
    let mut file = beside_streams(file)?;
    lock(&file)?;
    writer.write(&mut file)?;
    if is_synced {
        file.sync_data()?;
        sync_folder(rt, path)?;
    }
    Ok(file)
}
