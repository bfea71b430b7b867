//! What is recorded of a run: streams, files and an acceptor over others, which keep what is to be told once the run has ended.
//!
//! `KeptSource` keeps the newest octets of an input, and why a read failed; `KeptFiles` the text of the last file; `NotedDisk` why
//! a file couldn't be read; `NotedSink` the number of a refused line; and `NotedAcceptor` the port. `ToldFiles` tell contracts what was read. Each is the stream, the files
//! or the acceptor that it is made of, with the clauses of the trait.

mod kept_files;
mod kept_source;
mod noted_acceptor;
mod noted_disk;
mod noted_sink;
mod recent_input;
mod told_files;

pub use kept_files::KeptFiles;
pub use kept_source::KeptSource;
pub use noted_acceptor::{DoorNote, NotedAcceptor};
pub use noted_disk::{DiskNote, NotedDisk};
pub use noted_sink::NotedSink;
pub use recent_input::RecentInput;
pub use told_files::ToldFiles;
