//! How a hub is doing, for an operator: a line of the log each minute, and a file of metrics each ten seconds.
use bsc_hub::HubStatus;
use bsc_log::stamp_of;
use bsc_octets::NoMemory;
use bsc_sockets::Numbers;
use std::alloc::Global;
use std::env::Env;
use std::fs::{self, File, Files};
use std::io::{self, Eprint, ErrorKind, Read};
use std::sync::Arc;
use std::time::{Clock, Duration};

/// So many milliseconds lie between two lines of the log.
const LINE_MS: u64 = 60_000;

/// And so many between two files.
const FILE_MS: u64 = 10_000;

/// Tells how a hub is doing.
#[derive(Drop)]
pub(crate) struct Teller<'a, H> {
    rt: H,
    alloc: Global,
    /// Where the file is kept, if anywhere.
    path: Option<&'a str>,
    /// Whether lines are written.
    is_logged: bool,
    /// What the acceptor counts.
    numbers: Arc<Numbers>,
    /// When the next line and the next file are due, in milliseconds of the monotonic clock.
    line_due: u64,
    file_due: u64,
    /// Whether the last file couldn't be written.
    has_failed: bool,
    /// Whether this is the last time.
    is_last: bool,
}

/// Whether the environment asks for a log.
fn is_logged<H: Env>(rt: &H) -> bool {
    let mut room = [0; 2];
    match rt.var("BSC_LOG", &mut room) {
        Ok(1) => room[0] == b'1',
        Ok(_) | Err(_) => false,
    }
}

/// The monotonic time in milliseconds.
fn now_ms<H: Clock>(rt: &H) -> u64 {
    match rt.monotonic() {
        Ok(since) => u64::try_from(since.as_millis()).unwrap_or(u64::MAX),
        Err(_) => 0,
    }
}

/// The number behind a word of a text, 0 where the word or the number isn't there.
fn number_behind(text: &[u8], word: &[u8]) -> u64 {
    let mut met = 0_usize;
    let mut number = 0_u64;
    let mut has_digit = false;
    for octet in text.iter() {
        match word.get(met) {
            Some(next) => met = if *octet == *next {
                met.saturating_add(1)
            } else {
                0
            },
            None => if octet.is_ascii_digit() {
                number = number
                    .saturating_mul(10)
                    .saturating_add(u64::from(octet.saturating_sub(b'0')));
                has_digit = true;
            } else if has_digit {
                return number;
            },
        }
    }
    number
}

/// How many threads the program has, by the system's own word: 0 where that isn't known.
fn threads<H: Files>(rt: &H) -> u64 {
    let mut room = [0; 4096];
    let Ok(mut file) = File::open(rt, "/proc/self/status") else {
        return 0;
    };
    match file.read(&mut room) {
        Ok(_) => number_behind(room.as_slice(), b"Threads:"),
        Err(_) => 0,
    }
}

/// A number of a hub: its name, whether it only rises, what it says, and its value.
#[derive(Clone, Copy)]
struct Metric {
    name: &'static str,
    kind: &'static str,
    help: &'static str,
    value: u64,
}

/// A number that only rises.
fn counter(name: &'static str, help: &'static str, value: u64) -> Metric {
    Metric {
        name,
        kind: "counter",
        help,
        value,
    }
}

/// A number that rises and falls.
fn gauge(name: &'static str, help: &'static str, value: u64) -> Metric {
    Metric {
        name,
        kind: "gauge",
        help,
        value,
    }
}

/// All numbers of a hub.
fn metrics_of(status: &HubStatus, numbers: &Numbers, threads: u64) -> [Metric; 21] {
    let counts = status.counts;
    let turned = numbers.turned();
    [
        counter("links_total", "Links that came.", numbers.links()),
        gauge(
            "connections",
            "Connections that are live.",
            status.connections,
        ),
        gauge("rows", "Connections that have not left.", status.rows),
        gauge("threads", "Threads of the program.", threads),
        gauge("waiting", "Frames in all outboxes.", status.waiting),
        counter("joined_total", "Connects that joined.", counts.joined),
        counter(
            "replaced_total",
            "Connects that took over from a connection.",
            counts.replaced,
        ),
        counter(
            "refused_total",
            "Connects that were refused.",
            counts.refused,
        ),
        counter(
            "unicasts_total",
            "Unicasts that were forwarded or dropped.",
            counts.unicasts,
        ),
        counter(
            "broadcasts_total",
            "Broadcasts that were forwarded or dropped.",
            counts.broadcasts,
        ),
        counter(
            "appended_total",
            "Frames that joined an outbox.",
            counts.appended,
        ),
        counter(
            "dropped_total",
            "Messages that joined no outbox.",
            counts.dropped,
        ),
        counter(
            "full_total",
            "Connections that ended as their outbox was full.",
            counts.full,
        ),
        counter(
            "missed_total",
            "Broadcasts that a full outbox missed.",
            counts.missed,
        ),
        counter(
            "turned_no_protocol_total",
            "Handshakes without the sub-protocol.",
            turned.no_protocol,
        ),
        counter(
            "turned_late_total",
            "Handshakes that took too long.",
            turned.late,
        ),
        counter(
            "turned_long_head_total",
            "Handshakes with too long a head.",
            turned.long_head,
        ),
        counter(
            "turned_no_descriptor_total",
            "Streams without a file descriptor.",
            turned.no_descriptor,
        ),
        counter(
            "turned_pushed_out_total",
            "Handshakes that made room for others.",
            turned.pushed_out,
        ),
        counter(
            "turned_no_memory_total",
            "Handshakes without memory.",
            turned.no_memory,
        ),
        counter(
            "turned_failed_total",
            "Handshakes that failed otherwise.",
            turned.failed,
        ),
    ]
}

/// The text of the file: of each number its help, its type and its value.
fn file_text(alloc: Global, metrics: &[Metric]) -> Result<String, NoMemory> {
    let mut text = String::new(alloc);
    for metric in metrics.iter() {
        let Metric {
            name,
            kind,
            help,
            value,
        } = metric;
        let more = format!(in alloc;
            "# HELP bsc_hub_{name} {help}\n# TYPE bsc_hub_{name} {kind}\nbsc_hub_{name} {value}\n"
        )?;
        text.push_str(more.as_str())?;
    }
    Ok(text)
}

/// The text of a line of the log: the numbers by their names.
fn line_text(alloc: Global, stamp: &str, metrics: &[Metric]) -> Result<String, NoMemory> {
    let mut text = format!(in alloc; "{stamp} status")?;
    for metric in metrics.iter() {
        let name = metric.name;
        let value = metric.value;
        let more = format!(in alloc; " {name}={value}")?;
        text.push_str(more.as_str())?;
    }
    Ok(text)
}

/// Puts a text into a new file beside a path, and gives it that path.
fn put_file<H: Files>(rt: &H, alloc: Global, path: &str, text: &str) -> io::Result<()> {
    let Ok(beside) = format!(in alloc; "{path}.new") else {
        return Err(io::Error::from(ErrorKind::OutOfMemory));
    };
    fs::write(rt, beside.as_str(), text.as_bytes())?;
    fs::rename(rt, beside.as_str(), path)
}

impl<'a, H: Files + Eprint + Env + Clock> Teller<'a, H> {
    /// One that keeps a file at this path, if anywhere, and writes lines where the environment asks for a log.
    pub(crate) fn new(
        rt: H,
        alloc: Global,
        path: Option<&'a str>,
        numbers: Arc<Numbers>,
    ) -> Teller<'a, H> {
        let is_logged = is_logged(&rt);
        Teller {
            rt,
            alloc,
            path,
            is_logged,
            numbers,
            line_due: 0,
            file_due: 0,
            has_failed: false,
            is_last: false,
        }
    }

    /// Whether a line or a file is due.
    pub(crate) fn is_due(&mut self, is_last: bool) -> bool {
        self.is_last = is_last;
        let now = now_ms(&self.rt);
        (self.is_logged && (is_last || now >= self.line_due))
            || (self.path.is_some() && (is_last || now >= self.file_due))
    }

    /// Writes what is due.
    pub(crate) fn tell(&mut self, status: &HubStatus) {
        let now = now_ms(&self.rt);
        let threads = threads(&self.rt);
        if self.is_logged && (self.is_last || now >= self.line_due) {
            self.line_due = now.saturating_add(LINE_MS);
            self.write_line(status, threads);
        }
        if self.path.is_some() && (self.is_last || now >= self.file_due) {
            self.file_due = now.saturating_add(FILE_MS);
            self.write_file(status, threads);
        }
    }

    /// Writes a line of the log. Without memory for it there is none.
    fn write_line(&self, status: &HubStatus, threads: u64) {
        let metrics = metrics_of(status, &self.numbers, threads);
        let since = self.rt.since_1970().unwrap_or(Duration::ZERO);
        let stamp = stamp_of(since);
        if let Ok(text) = line_text(self.alloc, stamp.as_str(), &metrics) {
            let _ = eprintln!(self.rt; "{text}");
        }
    }

    /// Writes the file. A line on standard error says so where it can't be written, and once more where it can again.
    fn write_file(&mut self, status: &HubStatus, threads: u64) {
        let Some(path) = self.path else {
            return;
        };
        let metrics = metrics_of(status, &self.numbers, threads);
        let Ok(text) = file_text(self.alloc, &metrics) else {
            return;
        };
        match put_file(&self.rt, self.alloc, path, text.as_str()) {
            Ok(()) => {
                if self.has_failed {
                    let _ = eprintln!(self.rt; "bsc: the status file {path} is written again");
                }
                self.has_failed = false;
            }
            Err(error) => {
                if !self.has_failed {
                    let _ = eprintln!(self.rt;
                        "bsc: the status file {path} can't be written: {error}"
                    );
                }
                self.has_failed = true;
            }
        }
    }
}
