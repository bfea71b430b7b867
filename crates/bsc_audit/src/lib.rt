//! The audit of journals: whether lines of any callers, in any order, tell one legal history of one hub, or where
//! they don't.
//!
//! `audit_explained` (`src/auditing.rt`) reads journals, and says what they come to and why; `audit` says what alone.
//! `specs/Verdicts.antt` says what each answer means, over `Audited` of `bsc_journal`, and `specs/Explaining.antt` what is told
//! beside it. It takes in all lines (`src/taking.rt`), of which each is heard as it comes
//! (`src/hearing.rt`), and then judges their entries in order (`src/judging.rt`).
#![tactic(auto)]

mod audit_end;
mod auditing;
mod cutting;
mod files;
mod heard;
mod hearing;
mod judging;
mod places;
mod reasons;
mod room;
mod taking;
mod verdict;

pub use audit_end::AuditEnd;
pub use auditing::{audit, audit_explained};
pub use files::{FilesEnd, MOST_ENTRIES, MemPieces, Pieces, audit_files};
pub use verdict::Verdict;
