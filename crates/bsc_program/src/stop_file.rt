//! The file that asks for the stop of a hub.
ghost use Rattle.std.specs.Prelude.{◌≡◌, [], Some};

use crate::status::Teller;
use bsc_cli::{Asked, ReadWords, status_path};
use bsc_hub::{HubStatus, Pass};
use bsc_octets::NoMemory;
use bsc_outside::Sink;
use bsc_serve::{AskerNotes, StopAsker};
use std::alloc::Global;
use std::env::Env;
use std::fs::{self, Files};
use std::io::{Eprint, ErrorKind};
use std::time::Clock;

/// Asks for the stop of a hub once anything stands at a path, and removes it once the hub has ended. Without a path it never
/// asks.
#[derive(Drop)]
pub(crate) struct StopFile<'a, H> {
    rt: H,
    path: Option<&'a str>,
    teller: Teller<'a, H>,
    notes: AskerNotes,
}

/// The path of the file that stops the hub of these words, if one may.
pub(crate) fn stop_path<'a>(read: &ReadWords<'a>) -> Option<&'a str> {
    match read.asked {
        Ok(Asked::Hub { stop_file, .. }) => stop_file,
        Ok(_) | Err(_) => None,
    }
}

/// Where the status of the hub of these words is kept, if anywhere.
pub(crate) fn status_path_of<'a>(
    alloc: Global,
    read: &ReadWords<'a>,
) -> Result<Option<&'a str>, NoMemory> {
    match read.asked {
        Ok(Asked::Hub { .. }) => status_path(alloc, read.words),
        Ok(_) | Err(_) => Ok(None),
    }
}

/// Removes the file at a path, and says whether one was there. Where it stays there, a line on standard error says why.
fn remove<H: Files + Eprint>(rt: &H, path: &str) -> bool {
    match fs::remove_file(rt, path) {
        Ok(()) => true,
        Err(error) => {
            if error.kind() != ErrorKind::NotFound {
                let _ = eprintln!(rt; "bsc: the stop file {path} can't be removed: {error}");
            }
            false
        }
    }
}

impl<'a, H: Files + Eprint> StopFile<'a, H> {
    /// The file at this path, if one may ask. One that is there already didn't ask this hub: it is removed, and a line on
    /// standard error says so.
    pub(crate) fn new(rt: H, path: Option<&'a str>, teller: Teller<'a, H>) -> StopFile<'a, H>
        ensures path { result.path ≡ path.entry }
        ensures asked { result.notes.asked ≡ 0 }
        ensures looks { result.notes.looks.items ≡ [] }
        ensures endings { result.notes.endings.items ≡ [] }
        ensures statuses { result.notes.statuses.items ≡ [] }
    {
        if let Some(path) = path {
            if remove(&rt, path) {
                let _ = eprintln!(rt;
                    "bsc: the stop file {path} was there already, and is removed"
                );
            }
        }
        StopFile {
            rt,
            path,
            teller,
            notes: AskerNotes::new(),
        }
    }
}

impl<H: Files + Eprint + Env + Clock> StopAsker for StopFile<'_, H> {
    ghost asked = { λ f. f.notes.asked };

    ghost looks = { λ f. Some f.notes.looks.items };

    ghost endings = { λ f. Some f.notes.endings.items };

    ghost statuses = { λ f. Some f.notes.statuses.items };

    fn asks(&mut self, pass: &Pass) -> bool {
        let answer = match self.path {
            Some(path) => self.rt.symlink_metadata(path).is_ok(),
            None => false,
        };
        self.notes.answered(answer, pass);
        answer
    }

    fn wants(&mut self, is_last: bool) -> bool {
        self.teller.is_due(is_last)
    }

    fn show(&mut self, status: HubStatus) {
        self.teller.tell(&status);
        self.notes.shown(status);
    }

    fn end<K: Sink>(&mut self, written: &K) {
        if let Some(path) = self.path {
            let _ = remove(&self.rt, path);
        }
        self.notes.ended(written);
    }
}
