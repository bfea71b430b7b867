//! The copies of a broadcast.
#![tactic(auto)]

ghost use Rattle.std.specs.Prelude.{◌≡◌, ◌<◌, ◌+◌, vec_len, IfOk};
ghost use Rattle.std.specs.List.{AllByRecursion};
ghost use Rattle.bsc_octets.specs.Forwarding.{out};
ghost use Rattle.bsc_desk.specs.Copying.{AreBatches, AreCopies, count_of};

use crate::prepared::Prepared;
use bsc_octets::{NoMemory, Octets};
use std::alloc::Global;

/// How many copies a batch has.
const BATCH: usize = 32;

/// The copies of what is forwarded, in batches of 32 and a rest. Batches are small pieces of memory: a heap often
/// looks through all that was freed before it gives a large one, and the frames of the last broadcast were.
#[derive(Drop)]
pub(crate) struct Copies {
    pub(crate) loose: Vec<Octets>,
    pub(crate) batches: Vec<Vec<Octets>>,
}

/// So many copies of what is forwarded.
#[tactic(auto, using(crate::proofs::Casts::all_push))]
fn make_batch(alloc: Global, frame: &Prepared, count: usize) -> Result<Vec<Octets>, NoMemory>
    ensures len { IfOk result (λ v. vec_len v ≡ count) }
    ensures each { IfOk result (λ v. AllByRecursion (λ o. o ≡ out frame.now.message frame.now.sender) v.items) }
{
    let mut made = Vec::with_capacity(alloc, count)?;
    for _copy in 0..count {
        made.push(frame.copy(alloc)?)?;
    }
    Ok(made)
}

/// So many batches.
#[tactic(auto, using(crate::proofs::Casts::batch_push))]
fn make_batches(alloc: Global, frame: &Prepared, count: usize) -> Result<Vec<Vec<Octets>>, NoMemory>
    ensures len { IfOk result (λ v. vec_len v ≡ count) }
    ensures each { IfOk result (λ v. AreBatches (out frame.now.message frame.now.sender) v.items) }
{
    let mut made = Vec::with_capacity(alloc, count)?;
    for _batch in 0..count {
        made.push(make_batch(alloc, frame, BATCH)?)?;
    }
    Ok(made)
}

impl Copies {
    /// So many copies of what is forwarded.
    pub(crate) fn make(alloc: Global, frame: &Prepared, count: usize) -> Result<Copies, NoMemory>
        ensures count { IfOk result (λ c. count_of c ≡ count) }
        ensures each { IfOk result (λ c. AreCopies (out frame.now.message frame.now.sender) c) }
    {
        let loose = make_batch(alloc, frame, count % BATCH)?;
        let batches = make_batches(alloc, frame, count / BATCH)?;
        Ok(Copies { loose, batches })
    }

    /// Goes on to the next batch.
    fn open_batch(&mut self, frame: &Prepared)
        requires some { 0 < count_of self.old }
        requires none { vec_len self.old.loose ≡ 0 }
        requires each { AreCopies (out frame.now.message frame.now.sender) self.old }
        ensures some { 0 < vec_len self.new.loose }
        ensures each { AreCopies (out frame.now.message frame.now.sender) self.new }
        ensures count { count_of self.new ≡ count_of self.old }
    {
        match self.batches.pop() {
            Some(batch) => self.loose = batch,
            None => unreachable!(),
        }
    }

    /// The next of the loose copies.
    fn take_loose(&mut self, frame: &Prepared) -> Octets
        requires some { 0 < vec_len self.old.loose }
        requires each { AreCopies (out frame.now.message frame.now.sender) self.old }
        ensures value { result ≡ out frame.now.message frame.now.sender }
        ensures each { AreCopies (out frame.now.message frame.now.sender) self.new }
        ensures count { count_of self.new + 1 ≡ count_of self.old }
    {
        match self.loose.pop() {
            Some(copy) => copy,
            None => unreachable!(),
        }
    }

    /// The next copy.
    pub(crate) fn next(&mut self, frame: &Prepared) -> Octets
        requires some { 0 < count_of self.old }
        requires each { AreCopies (out frame.now.message frame.now.sender) self.old }
        ensures value { result ≡ out frame.now.message frame.now.sender }
        ensures each { AreCopies (out frame.now.message frame.now.sender) self.new }
        ensures count { count_of self.new + 1 ≡ count_of self.old }
    {
        if self.loose.is_empty() {
            self.open_batch(frame);
            self.take_loose(frame)
        } else {
            self.take_loose(frame)
        }
    }
}
