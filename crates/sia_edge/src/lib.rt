//! The outside: where bytes come from, where they go, the links that others come in by, and the disks that keep them.
//!
//! The model of a disk is that of POSIX's pwrite, ftruncate and fsync on one file, read so that a crash may leave as much
//! as any file system leaves (specs/Disk.antt). The rest is POSIX's read, write, pread, lseek, flock, posix_fadvise, accept and
//! shutdown, as std and libc have them.
//!
//! ```
//! let mut disk = FileDisk::open(rt, b"journal");
//! disk.write_at(disk.length(), &record);
//! disk.sync();
//! ```
//!
//! # Promises
//!
//! - A call of a [`Source`], a [`Sink`], a [`Link`], a [`Door`] or a [`Disk`] fails only where its count of faults rose in it. The
//!   count never falls; one that stands at the greatest `u64` is taken as one that rose.
//! - Where the bytes are told, a [`Source`] gives the bytes left in order, and says that it is at its end only there; a [`Sink`]
//!   appends what it takes, and a failed write appends nothing. [`read_to_bound`] appends all that is left or says exactly that
//!   there is more than the bound, [`fill_from`] fills a buffer but where no more is left, and [`write_all`] writes the whole
//!   piece or a front part of it.
//! - A [`Link`] is both: a read leaves what was written, and a write leaves what is to be read. [`fill_from_link`] takes no byte
//!   behind the buffer that it fills, and [`write_to_link`] writes the whole piece or a front part of it.
//! - Where the links are told, a [`Door`] gives each of the links to come once and in their order, says that it is closed only
//!   where none is to come, and keeps those given back in their order.
//! - After each call of a [`Disk`] the images that a crash may leave are among those of the model; after a sync that was done
//!   there is one. The length is told always. [`read_whole`], [`read_into`] and [`read_onto`] give the bytes of a range, and
//!   [`read_onto`] takes no memory where there is room.
//! - Which calls of a [`MemSource`], a [`MemSink`], a [`MemLink`], a [`MemDoor`] or a [`MemDisk`] fail is exactly what was asked,
//!   but for want of memory in a write. A [`MemDisk`] tells every image that the model allows, and at run time keeps its bytes alone.
//! - [`FileDisk`] is proved over any [`OpenedFile`] that tells its bytes: a write that is done put all its bytes at the place, a cut
//!   that is done cut there, a sync that is done synced what the file holds, and a read gives what it holds. A write, a cut and
//!   a sync are done only where the file has the disk's own length.
//! - After a call of a [`FileDisk`] has failed there is no file, the length stays, and each later call fails and counts, until
//!   [`FileDisk::open`] is called again. [`FileDisk::empty`] is such a disk from the start.
//! - A [`FileSource`], a [`FileSink`] or a [`FileDisk`] without a file fails and counts in each call, [`FileSink::finish`] too. So
//!   do a [`TcpLink`] without a stream and a [`TcpDoor`] without a listener. A [`TcpDoor`] serves as many links as it was told.
//! - A [`SigCheck`] has one verdict of key, hash and signature, the same for every value of its type. A [`Signer`] has one key, and
//!   signs as its type's relation of key, hash and signature allows; its one error is want of memory.
//!
//! What no clause can say is tested over real files: what the system does at [`FileDisk::open`] (it locks the file without
//! waiting, syncs it and its folder, and drops the pages that the system keeps of it, on no descriptor of a standard stream),
//! and that the file of a [`FileSink`] keeps what it held until the first write or [`FileSink::finish`], which syncs it; and over
//! real connections: a link that is given back to a [`TcpDoor`] is closed so that its last bytes arrive. Neither a clause nor a
//! test says that a [`TcpLink`] sends what is written at once, and that an accept passes over a connection that is gone already.
//! There are no time-outs: a silent peer is waited for.
//! A crate above carries what its runs of disk calls leave by the lemmas of proofs/Runs.antt.
//!
//! # Stands on
//!
//! `sia_encoding` for byte strings and lists, and the kit's `libc` for posix_fadvise.
#![tactic(auto)]

mod all;
mod attempts;
mod disk;
mod door;
mod event_log;
mod fault_count;
mod fault_plan;
mod file_disk;
mod fill;
mod link;
mod mem_disk;
mod mem_door;
mod mem_link;
mod memory;
mod opened_file;
mod opening;
mod read_disk;
mod signing;
mod system;
mod tcp;
mod traits;

pub use all::{Ending, WriteFailed, read_to_bound, write_all};
pub use disk::{Did, Disk};
pub use door::{Door, Next};
pub use fault_plan::FaultPlan;
pub use file_disk::{Disks, FileDisk};
pub use fill::{ReadFailed, fill_from};
pub use link::{Link, fill_from_link, write_to_link};
pub use mem_disk::MemDisk;
pub use mem_door::MemDoor;
pub use mem_link::MemLink;
pub use memory::{MemSink, MemSource, SureSource};
pub use opened_file::OpenedFile;
pub use read_disk::{ReadFault, read_into, read_onto, read_whole};
pub use signing::{SigCheck, Signer};
pub use system::{FileSink, FileSource, StdSink};
pub use tcp::{TcpDoor, TcpLink, listen};
pub use traits::{Got, Put, Sink, Source};
