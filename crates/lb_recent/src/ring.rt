//! Rings of records.

use crate::record::Record;
use std::alloc::{AllocError, Global};
use std::sync::atomic::{AtomicU64, Ordering};
use std::sync::{Arc, Mutex, Wait};

/// The records of one thread, the oldest of which gives its room to the next. It is behind a lock of its own.
#[derive(Drop)]
pub struct Ring {
    /// How many records all rings were given.
    numbers: Arc<AtomicU64>,
    kept: Mutex<Kept>,
}

/// What a ring has under its lock.
#[derive(Drop)]
struct Kept {
    /// Records with their numbers among those of all rings. A place that has none yet is empty.
    places: Vec<Option<(u64, Record)>>,
    written: u64,
}

impl Ring {
    /// A ring with room for so many records. The one error is lack of memory.
    fn made(alloc: Global, room: u32, numbers: Arc<AtomicU64>) -> Result<Ring, AllocError> {
        let mut places = Vec::new(alloc);
        places.resize(room as usize, None)?;
        Ok(Ring {
            numbers,
            kept: Mutex::new(Kept { places, written: 0 }),
        })
    }

    /// Notes a query that ended.
    pub fn write<R: Wait>(&self, rt: &R, record: Record) {
        let number = self.numbers.fetch_add(1, Ordering::SeqCst);
        let mut guard = self.kept.lock(rt);
        let kept = &mut *guard;
        let place = place_of(kept.written, kept.places.len());
        if let Some(place) = kept.places.get_mut(place) {
            *place = Some((number, record));
            kept.written = kept.written.saturating_add(1);
        }
    }

    /// How many records it was given.
    fn written<R: Wait>(&self, rt: &R) -> u64 {
        let guard = self.kept.lock(rt);
        guard.written
    }

    /// The record that was given after so many others, with its number, if it is still there.
    fn at<R: Wait>(&self, rt: &R, before: u64) -> Option<(u64, Record)> {
        let guard = self.kept.lock(rt);
        let room = guard.places.len();
        if before >= guard.written || guard.written.saturating_sub(before) > room as u64 {
            return None;
        }
        *guard.places.get(place_of(before, room))?
    }
}

/// The place of the record that is given after so many others to a ring with this room.
fn place_of(before: u64, room: usize) -> usize {
    match before.checked_rem(room as u64) {
        Some(place) => place as usize,
        None => 0,
    }
}

/// The rings of all threads. Together they keep so many records: the last.
#[derive(Drop)]
pub struct Rings {
    room: u32,
    numbers: Arc<AtomicU64>,
    rings: Vec<Arc<Ring>>,
}

impl Rings {
    /// So many rings, which keep so many records together. Any one of them has room for all. The one error is lack of memory.
    pub fn made(alloc: Global, count: usize, room: u32) -> Result<Rings, AllocError> {
        let numbers = Arc::new(alloc, AtomicU64::new(0))?;
        let mut rings = Vec::with_capacity(alloc, count)?;
        for _ in 0..count {
            let ring = Ring::made(alloc, room, Arc::try_clone(&numbers)?)?;
            rings.push(Arc::new(alloc, ring)?)?;
        }
        Ok(Rings {
            room,
            numbers,
            rings,
        })
    }

    /// How many records they keep together.
    pub fn room(&self) -> u32 {
        self.room
    }

    /// A handle of the ring at a place.
    pub fn ring(&self, place: usize) -> Result<Option<Arc<Ring>>, AllocError> {
        match self.rings.get(place) {
            Some(ring) => Ok(Some(Arc::try_clone(ring)?)),
            None => Ok(None),
        }
    }

    /// The last records that a filter takes, the newest first and at most so many, with their numbers. A lock is held for one record
    /// at a time. The one error is lack of memory.
    pub fn newest<R: Wait, F: Fn(&Record) -> bool>(
        &self,
        rt: &R,
        alloc: Global,
        most: usize,
        takes: F,
    ) -> Result<Vec<(u64, Record)>, AllocError>
        requires { F.IsAlwaysCallable takes }
    {
        let first = self
            .numbers
            .load(Ordering::SeqCst)
            .saturating_sub(u64::from(self.room));
        let mut found = Vec::new(alloc);
        for ring in &self.rings {
            let written = ring.written(rt);
            let mut left = most;
            for before in (0..written).rev() {
                let Some((number, record)) = ring.at(rt, before) else {
                    break;
                };
                if number < first || left == 0 {
                    break;
                }
                if takes(&record) {
                    found.push((number, record))?;
                    left -= 1;
                }
            }
        }
        found.sort_unstable_by(|one, other| other.0.cmp(&one.0));
        found.truncate(most);
        Ok(found)
    }
}
