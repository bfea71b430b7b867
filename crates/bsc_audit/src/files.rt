//! The audit of journals in files, in memory that doesn't grow with them.
//!
//! Start at `specs/Together.antt`, which says what each answer means. `audit_files` (`auditing_files.rt`) reads all files twice: at
//! first each from its front to its end (`checking.rt`), and then all of them by the places of their entries (`merging.rt`), of
//! which only the next one of each file is known (`heads.rt`). `Pieces` says what is asked of files.

mod auditing_files;
mod bounds;
mod checking;
mod files_end;
mod head;
mod heads;
mod mem_pieces;
mod merging;
mod piece_reading;
mod pieces;
mod sums;
mod weighing;

pub use auditing_files::audit_files;
pub use bounds::MOST_ENTRIES;
pub use files_end::FilesEnd;
pub use mem_pieces::MemPieces;
pub use pieces::Pieces;
