//! The audit of journals in files.
ghost use Rattle.std.specs.Prelude.{◌≡◌, ◌≤◌, ◌<◌, ◌^◌, ℕ, List, length};
ghost use Rattle.bsc_outside.specs.Faults.{HasRisen};
ghost use Rattle.bsc_audit.specs.Merging.{AddsFiles};
ghost use Rattle.bsc_audit.specs.Together.{FilesAuditTo, FilesAudited, IsLegalOrFault};

use crate::files::bounds::MOST_ENTRIES;
use crate::files::checking::check_files;
use crate::files::files_end::FilesEnd;
use crate::files::merging::{first_heads, merge};
use crate::files::piece_reading::{Room, make_room};
use crate::files::pieces::Pieces;
use crate::files::sums::Sums;
use std::alloc::Global;

/// What the entries of so many files come to, whose lines are good and were summed up.
fn judge_files<F: Pieces>(
    files: &mut F,
    alloc: Global,
    count: usize,
    sums: &Sums,
    room: &mut Room,
) -> FilesEnd
    requires room { 0 < length room.old.chunk.items }
    ensures comes { (fs : List (List ℕ)) → F.holds files.new fs → length fs ≡ count → AddsFiles fs sums.now → FilesAuditTo fs result }
    ensures stays { (fs : List (List ℕ)) → F.holds files.new fs → F.holds files.old fs }
    ensures later { F.faults files.old ≤ F.faults files.new }
    ensures fault { (k : ℕ) → result ≡ FilesEnd.ReadFault k → HasRisen (F.faults files.old) (F.faults files.new) }
{
    if sums.hubs != 1 {
        return FilesEnd::Hubs { lines: sums.hubs };
    }
    let Some(about) = sums.about else {
        return FilesEnd::Hubs { lines: sums.hubs };
    };
    if sums.entries > MOST_ENTRIES {
        return FilesEnd::TooMany;
    }
    let heads = match first_heads(files, alloc, count, room) {
        Ok(heads) => heads,
        Err(end) => return end,
    };
    merge(files, alloc, &about, count, sums.entries, heads, room)
}

/// Audits journals in files: what the lines of so many files come to, taken together, where each file ends its last line.
///
/// It reads each file to its end and then once more, each time in pieces of at most 4,096 octets, and keeps of it where its next
/// entry stands: 24 octets for each file, and one line, the pieces of which are read one after another. No line may have more than
/// 300,000 octets. The history takes less than 100 kB. A fault is told at its file and line, or its place.
pub fn audit_files<F: Pieces>(alloc: Global, files: &mut F, count: usize) -> FilesEnd
    // What the answer says of the octets that the files have.
    ensures tells { (fs : List (List ℕ)) → F.holds files.new fs → length fs ≡ count → FilesAuditTo fs result }

    // Files that may be believed are told to be legal, but for a failed read or want of memory.
    ensures legal { (fs : List (List ℕ)) (entries : ℕ) → F.holds files.new fs → length fs ≡ count → FilesAudited fs entries →
        IsLegalOrFault entries count result }

    // What the files hold, they held before.
    ensures stays { (fs : List (List ℕ)) → F.holds files.new fs → F.holds files.old fs }

    // A read failed only where the files say so.
    ensures fault { (k : ℕ) → result ≡ FilesEnd.ReadFault k → HasRisen (F.faults files.old) (F.faults files.new) }
    ensures later { F.faults files.old ≤ F.faults files.new }
{
    let Ok(mut room) = make_room(alloc) else {
        return FilesEnd::NoMemory;
    };
    let sums = match check_files(files, alloc, count, &mut room) {
        Ok(sums) => sums,
        Err(end) => return end,
    };
    judge_files(files, alloc, count, &sums, &mut room)
}
