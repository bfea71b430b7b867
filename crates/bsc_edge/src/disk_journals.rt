//! Real journals.
ghost use Rattle.std.specs.Prelude.{◌≡◌, ◌≢◌, ◌≤◌, ◌↔◌, [], ◌∷◌, ◌++◌, true, false, codes, decimal, string_bytes, None, Some, Err, IsOk, IfOk, IfSome, option_map};
ghost use Rattle.bsc_edge.specs.Asked.{begun_by};
ghost use Rattle.bsc_edge.specs.declared.fault.LinkFault.{LinkFault};
ghost use Rattle.bsc_edge.specs.Held.{BeginsEmpty};
ghost use Rattle.bsc_outside.specs.Faults.{HasRisen};

use crate::begun::Begun;
use crate::disk_journal::DiskJournal;
use crate::fault::LinkFault;
use crate::journal_file::JournalFile;
use crate::journals::Journals;
use crate::losses::Losses;
use bsc_octets::NoMemory;
use bsc_outside::Sink;
use bsc_past::{Happened, Past};
use std::alloc::Global;
use std::fs::{self, File, Metadata};
use std::io::{self, Eprint, ErrorKind};
use std::sync::Arc;

/// Journals in files: that of number N under the prefix PREFIX is the file `PREFIX.N`. A file that is there already isn't written
/// into: then the journal isn't begun, and a line on standard error says so. The file of number 0, of the hub itself, is made anew as
/// its journal is begun. That of a session is made anew at its first line: so who joins no hub leaves no file, and where none can be
/// made, the session loses its line, and the hub serves on. Without a prefix a journal drops all. They tell which of them were begun,
/// whether lines were lost, and to how many octets their files are limited.
#[derive(Drop)]
pub struct DiskJournals<R> {
    rt: R,
    faults: u64,
    calls: Past<Begun>,
    lost: Past<bool>,
    limits: Past<u64>,
    limit: Option<u64>,
    /// What the journals share, once one was begun.
    losses: Option<Arc<Losses>>,
}

/// A call that begins a journal with its answer, each where it lies.
struct Beginning<'a, K> {
    prefix: Option<&'a str>,
    number: u64,
    answer: &'a Result<K, LinkFault>,
}

impl<K> Drop for Beginning<'_, K> {
    fn drop(self) {
        let Beginning {
            prefix: _,
            number: _,
            answer: _,
        } = self;
    }
}

impl<K> Happened<Begun> for Beginning<'_, K> {
    ghost happened = { λ b. begun_by (option_map (λ p. p.now) b.prefix) b.number b.answer.now ∷ [] };
}

impl<R: fs::Files + Eprint> DiskJournals<R> {
    pub fn new(rt: R) -> DiskJournals<R>
        ensures faults { result.faults ≡ 0 }
        ensures calls { result.calls.items ≡ [] }
        ensures lost { result.lost.items ≡ [] }
        ensures limits { result.limits.items ≡ [] }
        ensures limit { result.limit ≡ None }
    {
        DiskJournals {
            rt,
            faults: 0,
            calls: Past::new(),
            lost: Past::new(),
            limits: Past::new(),
            limit: None,
            losses: None,
        }
    }
}

/// Tells on standard error that the file of a journal is there already. Where nobody can be told, the fault says it all the same.
fn tell_there<R: Eprint>(rt: &R, path: &str) {
    let _ = eprintln!(rt; "bsc: the journal {path} is there already, and isn't written over");
}

/// Tells that a file couldn't be made.
fn tell_unmade<R: Eprint>(rt: &R, path: &str, error: io::Error) {
    if error.kind() == ErrorKind::AlreadyExists {
        tell_there(rt, path);
    } else {
        let _ = eprintln!(rt; "bsc: the journal {path} can't be made: {error}");
    }
}

/// The path of the journal with this number under this prefix.
fn path_of(alloc: Global, prefix: &str, number: u64) -> Result<String, NoMemory>
    ensures { IfOk result (λ path. string_bytes path ≡ prefix.now ++ codes "." ++ decimal number) }
{
    Ok(format!(in alloc; "{prefix}.{number}")?)
}

/// What the journals share: it is made for the first of them.
fn losses_of(alloc: Global, kept: &mut Option<Arc<Losses>>) -> Result<Arc<Losses>, NoMemory> {
    if let Some(losses) = kept {
        return Ok(Arc::try_clone(losses)?);
    }
    let losses = Arc::new(alloc, Losses::new())?;
    *kept = Some(Arc::try_clone(&losses)?);
    Ok(losses)
}

/// How many lines were lost since this was last asked.
fn count_in(losses: &Option<Arc<Losses>>) -> u64 {
    match losses {
        Some(losses) => losses.take_count(),
        None => 0,
    }
}

/// Whether a file is there, by what was found at its path: a link that leads nowhere is there too. Where it can't be looked at, it
/// shows as it is made.
fn is_there(found: &io::Result<Metadata>) -> bool
    ensures { result ≡ true ↔ IsOk found.now }
{
    found.is_ok()
}

/// Begins the journal of the hub itself, whose file was made or wasn't.
fn begin_own<R: fs::Files + Eprint + Copy>(
    rt: &R,
    alloc: Global,
    path: String,
    limit: Option<u64>,
    losses: Arc<Losses>,
    made: io::Result<R::File>,
) -> Result<DiskJournal<JournalFile<R>>, LinkFault>
    ensures begun { IsOk result ↔ IsOk made }
    ensures made { IfOk result (λ k. IfSome k.file (λ w. w.writer.writer.file ≢ None)) }
    ensures held { IfOk result (λ k. ⟦<DiskJournal<JournalFile<R>> as Sink>⟧.held k ≡ Some []) }
    ensures fresh { IfOk result (λ k. k.faults ≡ 0) }
{
    match made {
        Ok(file) => Ok(DiskJournal::into_file(JournalFile::new(
            *rt,
            alloc,
            path,
            Some(file),
            limit,
            losses,
        ))),
        Err(error) => {
            if error.kind() == ErrorKind::OutOfMemory {
                return Err(LinkFault::NoMemory);
            }
            tell_unmade(rt, path.as_str(), error);
            Err(LinkFault::Failed)
        }
    }
}

/// Begins the journal of a session, unless its file is there. It isn't made yet.
fn begin_later<R: fs::Files + Eprint + Copy>(
    rt: &R,
    alloc: Global,
    path: String,
    limit: Option<u64>,
    losses: Arc<Losses>,
    is_there: bool,
) -> Result<DiskJournal<JournalFile<R>>, LinkFault>
    ensures begun { IsOk result ↔ is_there ≡ false }
    ensures failed { result ≡ Err LinkFault.Failed ↔ is_there ≡ true }
    ensures unmade { IfOk result (λ k. IfSome k.file (λ w. w.writer.writer.file ≡ None)) }
    ensures held { IfOk result (λ k. ⟦<DiskJournal<JournalFile<R>> as Sink>⟧.held k ≡ Some []) }
    ensures fresh { IfOk result (λ k. k.faults ≡ 0) }
{
    if is_there {
        tell_there(rt, path.as_str());
        return Err(LinkFault::Failed);
    }
    Ok(DiskJournal::into_file(JournalFile::new(*rt, alloc, path, None, limit, losses)))
}

/// This answer. Where it is a fault of the outside, that is counted.
fn counted<K>(answer: Result<K, LinkFault>, faults: &mut u64) -> Result<K, LinkFault>
    ensures same { result ≡ answer }
    ensures later { faults.old ≤ faults.new }
    ensures failed { result ≡ Err LinkFault.Failed → HasRisen faults.old faults.new }
    ensures other { result ≢ Err LinkFault.Failed → faults.new ≡ faults.old }
{
    if let Err(LinkFault::Failed) = &answer {
        *faults = faults.saturating_add(1);
    }
    answer
}

/// Begins the journal with this number under this prefix, and counts where that fails.
fn begin_at<R: fs::Files + Eprint + Copy>(
    rt: &R,
    alloc: Global,
    prefix: Option<&str>,
    number: u64,
    limit: Option<u64>,
    kept: &mut Option<Arc<Losses>>,
    faults: &mut u64,
) -> Result<DiskJournal<JournalFile<R>>, LinkFault>
    ensures begun { IfOk result (λ k. BeginsEmpty (option_map (λ p. p.now) prefix.entry) (⟦<DiskJournal<JournalFile<R>> as Sink>⟧.held k)) }
    ensures fresh { IfOk result (λ k. k.faults ≡ 0) }
    ensures later { faults.old ≤ faults.new }
    ensures failed { result ≡ Err LinkFault.Failed → HasRisen faults.old faults.new }

    // The file of a session isn't made yet.
    ensures unmade { number ≢ 0 → IfOk result (λ k. IfSome k.file (λ w. w.writer.writer.file ≡ None)) }
    ensures dropping { prefix.entry ≡ None → IsOk result }
{
    let Some(prefix) = prefix else {
        return Ok(DiskJournal::dropping());
    };
    let (Ok(path), Ok(losses)) = (path_of(alloc, prefix, number), losses_of(alloc, kept)) else {
        return Err(LinkFault::NoMemory);
    };
    if number == 0 {
        let made = File::create_new(rt, path.as_str());
        return counted(begin_own(rt, alloc, path, limit, losses, made), faults);
    }
    let found = fs::symlink_metadata(rt, path.as_str());
    counted(
        begin_later(rt, alloc, path, limit, losses, is_there(&found)),
        faults,
    )
}

impl<R: fs::Files + Eprint + Copy> Journals<DiskJournal<JournalFile<R>>> for DiskJournals<R> {
    ghost faults = { λ j. j.faults };

    ghost begins = { λ prefix _ j. BeginsEmpty prefix (⟦<DiskJournal<JournalFile<R>> as Sink>⟧.held j) };

    ghost calls = { λ j. Some j.calls.items };

    ghost lost = { λ j. Some j.lost.items };

    ghost limits = { λ j. Some j.limits.items };

    fn begin(
        &mut self,
        alloc: Global,
        prefix: Option<&str>,
        number: u64,
    ) -> Result<DiskJournal<JournalFile<R>>, LinkFault> {
        let answer = begin_at(
            &self.rt,
            alloc,
            prefix,
            number,
            self.limit,
            &mut self.losses,
            &mut self.faults,
        );
        self.calls.note(&Beginning {
            prefix,
            number,
            answer: &answer,
        });
        answer
    }

    fn count_lost(&mut self) -> bool {
        let count = count_in(&self.losses);
        self.faults = self.faults.saturating_add(count);
        let are_lost = count > 0;
        self.lost.add(&are_lost);
        are_lost
    }

    fn set_limit(&mut self, octets: u64) {
        self.limit = Some(octets);
        self.limits.add(&octets);
    }
}
