//! A host in memory.

ghost use Rattle.std.specs.Prelude.{◌≡◌, ◌+◌, ◌-◌, ◌^◌, ◌<◌, ℕ, List, [], ◌∷◌, ◌++◌, ◌↔◌, Some, true, false, MatchOption, length, map, min, replicate, slice_set, option_map, option_copied, if◌then◌else◌, IfOk, IfSome, OnOk, OnErr};
ghost use Rattle.std.specs.List.{position, slice_get};
ghost use Rattle.opfs_memory.specs.Counts.{counted, is_named};
ghost use Rattle.opfs_memory.specs.Shelves.{newest_disk, is_at, spot_at, image_at, given_at, Trail, fetched_disk, spot_lent, spot_made, spot_given, spot_thrown, can_take, has_image};

use crate::MemDisk;
use crate::place::Place;
use opfs_outside::{Failed, Host, HostStop};
use std::alloc::{AllocError, Global};
use std::marker::Model;

/// Images by path in memory. Its calls are numbered from 1; a call fails exactly where its number is named, where a
/// path to fetch has no image, or where a disk comes back and none that was fetched or made there is out.
#[derive(Drop)]
pub struct MemHost {
    alloc: Global,
    places: Vec<Place>,
    fails: Vec<u64>,
    disk_fails: Vec<u64>,
    stop: Option<u64>,
    room_calls: u64,
    room_bytes: u64,
    calls: u64,
    faults: u64,
    own_faults: u64,
}

impl Model for MemHost {
    ghost use Rattle.opfs_memory.specs.Shelves.{Shelf};

    ghost Value = { Shelf };

    ghost view = { λ host. record {
      places = host.places.items;
      fails = host.fails.items;
      disk_fails = host.disk_fails.items;
      stop = host.stop;
      room_calls = host.room_calls;
      room_bytes = host.room_bytes;
      calls = host.calls;
      all = host.faults;
      own = host.own_faults;
    } };
}

impl MemHost {
    /// A host of these images by path; of two with one path the first counts. The disks that it fetches and makes have these
    /// failing calls, this stop and this room.
    pub fn make(
        alloc: Global,
        images: Vec<(Vec<u8>, Vec<u8>)>,
        fails: Vec<u64>,
        disk_fails: Vec<u64>,
        stop: Option<u64>,
        calls: u64,
        bytes: u64,
    ) -> Result<MemHost, AllocError>
        ensures { IfOk result (λ host. host ≡ record {
          places = map (λ image. record { path = image.0.items; image = Some image.1.items; given = []; out = 0 }) images.items;
          fails = fails.items;
          disk_fails = disk_fails.items;
          stop = stop;
          room_calls = calls;
          room_bytes = bytes;
          calls = 0;
          all = 0;
          own = 0;
        }) }
    {
        let mut places = Vec::with_capacity(alloc, images.len())?;
        for (path, image) in images {
            places.push(Place::make(alloc, path, Some(image)))?;
        }
        Ok(MemHost {
            alloc,
            places,
            fails,
            disk_fails,
            stop,
            room_calls: calls,
            room_bytes: bytes,
            calls: 0,
            faults: 0,
            own_faults: 0,
        })
    }

    /// The disk that came back last for this path; none exactly where none did.
    pub fn given(&self, path: &str) -> Option<&MemDisk>
        ensures { option_copied result ≡ newest_disk (given_at self.now path.now) }
    {
        match self.find(path) {
            Some(at) => self.last_at(at),
            None => None,
        }
    }

    /// The image at this path; none exactly where there is none.
    pub fn image(&self, path: &str) -> Option<&[u8]>
        ensures { option_copied result ≡ image_at self.now path.now }
    {
        match self.find(path) {
            Some(at) => self.seen_at(at),
            None => None,
        }
    }

    fn last_at(&self, at: usize) -> Option<&MemDisk>
        requires { at < length self.now.places }
        ensures { IfSome (slice_get self.now.places at) (λ spot. option_copied result ≡ newest_disk spot.given) }
    {
        let place = &self.places[at];
        place.last()
    }

    fn seen_at(&self, at: usize) -> Option<&[u8]>
        requires { at < length self.now.places }
        ensures { IfSome (slice_get self.now.places at) (λ spot. option_copied result ≡ spot.image) }
    {
        let place = &self.places[at];
        place.image()
    }

    fn find(&self, path: &str) -> Option<usize>
        ensures { result ≡ position (is_at path.now) self.now.places }
    {
        let path = path.as_bytes();
        self.places.iter().position(|place| place.is_at(path))
    }

    // The place of this path where one that was fetched or made there is still out.
    fn find_out(&self, path: &str) -> Option<usize>
        ensures { MatchOption result (can_take (spot_at path.now self.now.places) ≡ false) (λ at.
            (position (is_at path.now) self.now.places ≡ Some at) × (can_take (slice_get self.now.places at) ≡ true)) }
    {
        match self.find(path) {
            Some(at) => if self.is_out(at) { Some(at) } else { None },
            None => None,
        }
    }

    // The place of this path where it has an image.
    fn find_image(&self, path: &str) -> Option<usize>
        ensures { MatchOption result (has_image (spot_at path.now self.now.places) ≡ false) (λ at.
            (position (is_at path.now) self.now.places ≡ Some at) × (has_image (slice_get self.now.places at) ≡ true)) }
    {
        match self.find(path) {
            Some(at) => if self.has_image(at) { Some(at) } else { None },
            None => None,
        }
    }

    fn disk_of(&self, content: Vec<u8>) -> Result<MemDisk, AllocError>
        ensures { IfOk result (λ disk. disk ≡ fetched_disk self.now content.items) }
    {
        let fails = self.disk_fails.to_vec(self.alloc)?;
        let disk = MemDisk::make(
            self.alloc,
            content,
            fails,
            self.stop,
            self.room_calls,
            self.room_bytes,
        )?;
        Ok(disk)
    }

    // A disk of the image at this place.
    fn fetch_at(&mut self, at: usize) -> Result<MemDisk, AllocError>
        requires { at < length self.old.places }
        ensures fresh { IfOk result (λ disk. (disk.log ≡ []) × (disk.faults ≡ 0)) }
        ensures fetched { IfOk result (λ disk. disk ≡ fetched_disk self.old disk.first) }
        ensures disk { IfOk result (λ disk. IfSome (slice_get self.old.places at) (λ spot. IfSome spot.image (λ image. disk.first ≡ image))) }
        ensures after { OnOk result (IfSome (slice_get self.old.places at) (λ spot. self.new.places ≡ slice_set self.old.places at (spot_lent spot))) }
        ensures counts { (self.new.all ≡ self.old.all) × (self.new.own ≡ self.old.own) }
        ensures same { OnErr result (self.new ≡ self.old) }
    {
        let content = self.copy_at(at)?;
        let disk = self.disk_of(content)?;
        self.lend(at)?;
        Ok(disk)
    }

    // A disk of so many zeros, for this place.
    fn make_at(&mut self, at: usize, size: u64) -> Result<MemDisk, AllocError>
        requires { at < length self.old.places }
        ensures disk { IfOk result (λ disk. disk ≡ fetched_disk self.old (replicate size 0)) }
        ensures after { OnOk result (IfSome (slice_get self.old.places at) (λ spot. self.new.places ≡ slice_set self.old.places at (spot_lent spot))) }
        ensures counts { (self.new.all ≡ self.old.all) × (self.new.own ≡ self.old.own) }
        ensures same { OnErr result (self.new ≡ self.old) }
    {
        let content = vec![in self.alloc; 0; size as usize]?;
        let disk = self.disk_of(content)?;
        self.lend(at)?;
        Ok(disk)
    }

    // A copy of the image at this place; nothing where there is none.
    fn copy_at(&self, at: usize) -> Result<Vec<u8>, AllocError>
        requires { at < length self.now.places }
        ensures { IfOk result (λ copy. IfSome (slice_get self.now.places at) (λ spot. IfSome spot.image (λ image. copy.items ≡ image))) }
    {
        match self.seen_at(at) {
            Some(bytes) => {
                let copy = bytes.to_vec(self.alloc)?;
                Ok(copy)
            }
            None => Ok(Vec::new(self.alloc)),
        }
    }

    fn lend(&mut self, at: usize) -> Result<(), AllocError>
        requires { at < length self.old.places }
        ensures lent { OnOk result (IfSome (slice_get self.old.places at) (λ spot. self.new ≡ record self.old { places = slice_set self.old.places at (spot_lent spot) })) }
        ensures same { OnErr result (self.new ≡ self.old) }
    {
        let place = &mut self.places[at];
        place.lend()?;
        Ok(())
    }

    fn is_out(&self, at: usize) -> bool
        requires { at < length self.now.places }
        ensures { result ≡ can_take (slice_get self.now.places at) }
    {
        let place = &self.places[at];
        place.is_out()
    }

    fn has_image(&self, at: usize) -> bool
        requires { at < length self.now.places }
        ensures { result ≡ has_image (slice_get self.now.places at) }
    {
        let place = &self.places[at];
        place.image().is_some()
    }

    fn keep(&mut self, at: usize, disk: MemDisk, placed: bool)
        requires out { can_take (slice_get self.old.places at) ≡ true }
        requires within { at < length self.old.places }
        ensures after { IfSome (slice_get self.old.places at) (λ spot. self.new.places ≡ slice_set self.old.places at (spot_given (record { disk = disk; placed = placed }) spot)) }
        ensures counts { (self.new.all ≡ self.old.all) × (self.new.own ≡ self.old.own) }
    {
        let place = &mut self.places[at];
        place.keep(disk, placed);
    }

    fn throw_away(&mut self, at: usize)
        requires out { can_take (slice_get self.old.places at) ≡ true }
        requires within { at < length self.old.places }
        ensures after { IfSome (slice_get self.old.places at) (λ spot. self.new.places ≡ slice_set self.old.places at (spot_thrown spot)) }
        ensures counts { (self.new.all ≡ self.old.all) × (self.new.own ≡ self.old.own) }
    {
        let place = &mut self.places[at];
        place.throw_away();
    }

    // A disk of so many zeros for a path that was not there, where there is no image still.
    fn make_new(&mut self, path: &str, size: u64) -> Result<MemDisk, AllocError>
        ensures disk { IfOk result (λ disk. disk ≡ fetched_disk self.old (replicate size 0)) }
        ensures after { OnOk result (self.new ≡ record self.old { places = self.old.places ++ spot_made path.now ∷ [] }) }
        ensures same { OnErr result (self.new ≡ self.old) }
    {
        let disk = self.disk_of(vec![in self.alloc; 0; size as usize]?)?;
        let path = path.as_bytes().to_vec(self.alloc)?;
        let mut place = Place::make(self.alloc, path, None);
        place.lend()?;
        self.places.push(place)?;
        Ok(disk)
    }

    // A disk of so many zeros for a path.
    fn make_beside(&mut self, path: &str, size: u64) -> Result<MemDisk, AllocError>
        ensures disk { IfOk result (λ disk. disk ≡ fetched_disk self.old (replicate size 0)) }
        ensures images { (p : List ℕ) → image_at self.new p ≡ image_at self.old p }
        ensures trails { (p c : List ℕ) → Trail self.new p c ↔ Trail self.old p c }
        ensures counts { (self.new.all ≡ self.old.all) × (self.new.own ≡ self.old.own) }
    {
        match self.find(path) {
            Some(at) => self.make_at(at, size),
            None => self.make_new(path, size),
        }
    }

    fn take_faults(&mut self, faults: u64)
        ensures { self.new ≡ record self.old { all = min (self.old.all + faults) (2 ^ 64 - 1) } }
    {
        self.faults = self.faults.saturating_add(faults);
    }

    // Counts a call: whether it is named.
    fn is_named(&mut self) -> bool
        ensures named { result ≡ is_named self.old.fails (counted self.old.calls) }
        ensures counted { self.new ≡ record self.old { calls = counted self.old.calls } }
    {
        self.calls = self.calls.saturating_add(1);
        self.fails.contains(&self.calls)
    }

    fn fail(&mut self)
        ensures { self.new ≡ record self.old { all = counted self.old.all; own = counted self.old.own } }
    {
        self.faults = self.faults.saturating_add(1);
        self.own_faults = self.own_faults.saturating_add(1);
    }
}

impl Host for MemHost {
    type D = MemDisk;

    type Made = MemDisk;

    ghost use Rattle.std.specs.Prelude.{◌≡◌, ◌≢◌, ◌↔◌, ◌⊎◌, ◌+◌, ◌-◌, ◌^◌, ◌≤◌, ℕ, List, Some, None, length, min, replicate, is_err, IsErrOf, IsTrue, IfOk, OnOk, OnErr};
    ghost use Rattle.opfs_memory.specs.Counts.{counted, is_named};
    ghost use Rattle.opfs_memory.specs.Drives.{LeftSince, content_of, moment_of};
    ghost use Rattle.opfs_memory.specs.Shelves.{image_at, moments_at, Trail, LeftAt, fetched_disk, fetch_fails, return_fails};
    ghost use Rattle.opfs_outside.specs.Faults.{Rose, RoseBy};

    ghost tells = { Unit {0} };

    ghost image = { image_at };

    ghost trail = { Trail };

    ghost moment = { moments_at };

    ghost since = { LeftAt };

    ghost faults = { λ host. min host.all (2 ^ 64 - 1) };

    ghost own_faults = { λ host. min host.own (2 ^ 64 - 1) };

    fn fetch(&mut self, path: &str) -> Result<MemDisk, HostStop>
        ensures fails { IsErrOf result HostStop.Failed ↔ IsTrue (fetch_fails self.old path.now) }
        ensures fetched { IfOk result (λ disk. disk ≡ fetched_disk self.old disk.first) }
        ensures fresh { IfOk result (λ disk. min disk.faults (2 ^ 64 - 1) ≡ 0) }
        ensures first { IfOk result (λ disk. moment_of disk ≡ 0) }
        ensures one_image { IfOk result (λ disk. (c : List ℕ) → LeftSince disk 0 c → c ≡ content_of disk) }
        ensures content { IfOk result (λ disk. image_at self.new path.now ≡ Some (content_of disk)) }
        ensures images_stay { (p : List ℕ) → image_at self.new p ≡ image_at self.old p }
        ensures trails_stay { (p c : List ℕ) → Trail self.new p c ↔ Trail self.old p c }
        ensures own_later { min self.old.own (2 ^ 64 - 1) ≤ min self.new.own (2 ^ 64 - 1) }
        ensures later { RoseBy (min self.new.own (2 ^ 64 - 1) - min self.old.own (2 ^ 64 - 1)) (min self.old.all (2 ^ 64 - 1)) (min self.new.all (2 ^ 64 - 1)) }
        ensures cause { IsErrOf result HostStop.Failed → Rose (min self.old.own (2 ^ 64 - 1)) (min self.new.own (2 ^ 64 - 1)) }
    {
        if self.is_named() {
            self.fail();
            return Err(HostStop::Failed);
        }
        let Some(at) = self.find_image(path) else {
            self.fail();
            return Err(HostStop::Failed);
        };
        match self.fetch_at(at) {
            Ok(disk) => Ok(disk),
            Err(_) => Err(HostStop::NoMemory),
        }
    }

    fn give_back(&mut self, path: &str, disk: MemDisk) -> Result<(), Failed>
        ensures fails { is_err result ≡ return_fails self.old path.now }
        ensures content { OnOk result (image_at self.new path.now ≡ Some (content_of disk)) }
        ensures old_or_new { (image_at self.new path.now ≡ image_at self.old path.now) ⊎ (image_at self.new path.now ≡ Some (content_of disk)) }
        ensures trail { OnOk result ((c : List ℕ) → Trail self.new path.now c ↔ (Trail self.old path.now c ⊎ LeftSince disk 0 c)) }
        ensures left { (c : List ℕ) → Trail self.new path.now c → Trail self.old path.now c ⊎ LeftSince disk 0 c }
        ensures moment { OnOk result (moments_at self.new path.now ≡ moment_of disk) }
        ensures since { OnOk result ((t : ℕ) (c : List ℕ) → LeftAt self.new path.now t c ↔ LeftSince disk t c) }
        ensures other_images { (p : List ℕ) → p ≢ path.now → image_at self.new p ≡ image_at self.old p }
        ensures other_trails { (p c : List ℕ) → p ≢ path.now → Trail self.new p c ↔ Trail self.old p c }
        ensures own_later { min self.old.own (2 ^ 64 - 1) ≤ min self.new.own (2 ^ 64 - 1) }
        ensures later { RoseBy (min disk.faults (2 ^ 64 - 1) + (min self.new.own (2 ^ 64 - 1) - min self.old.own (2 ^ 64 - 1))) (min self.old.all (2 ^ 64 - 1)) (min self.new.all (2 ^ 64 - 1)) }
        ensures cause { OnErr result (Rose (min self.old.own (2 ^ 64 - 1)) (min self.new.own (2 ^ 64 - 1))) }
    {
        let named = self.is_named();
        self.take_faults(disk.faults());
        if named {
            self.fail();
            return Err(Failed);
        }
        match self.find_out(path) {
            Some(at) => {
                self.keep(at, disk, false);
                Ok(())
            }
            None => {
                self.fail();
                Err(Failed)
            }
        }
    }

    fn make(&mut self, path: &str, size: u64) -> Result<MemDisk, HostStop>
        ensures fails { IsErrOf result HostStop.Failed ↔ IsTrue (is_named self.old.fails (counted self.old.calls)) }
        ensures made { IfOk result (λ disk. disk ≡ fetched_disk self.old (replicate size 0)) }
        ensures fresh { IfOk result (λ disk. min disk.faults (2 ^ 64 - 1) ≡ 0) }
        ensures size { IfOk result (λ disk. length disk.first ≡ size) }
        ensures zeros { IfOk result (λ disk. content_of disk ≡ replicate size 0) }
        ensures images_stay { (p : List ℕ) → image_at self.new p ≡ image_at self.old p }
        ensures trails_stay { (p c : List ℕ) → Trail self.new p c ↔ Trail self.old p c }
        ensures own_later { min self.old.own (2 ^ 64 - 1) ≤ min self.new.own (2 ^ 64 - 1) }
        ensures later { RoseBy (min self.new.own (2 ^ 64 - 1) - min self.old.own (2 ^ 64 - 1)) (min self.old.all (2 ^ 64 - 1)) (min self.new.all (2 ^ 64 - 1)) }
        ensures cause { IsErrOf result HostStop.Failed → Rose (min self.old.own (2 ^ 64 - 1)) (min self.new.own (2 ^ 64 - 1)) }
    {
        if self.is_named() {
            self.fail();
            return Err(HostStop::Failed);
        }
        match self.make_beside(path, size) {
            Ok(disk) => Ok(disk),
            Err(_) => Err(HostStop::NoMemory),
        }
    }

    fn replace(&mut self, path: &str, disk: MemDisk) -> Result<(), Failed>
        ensures fails { is_err result ≡ return_fails self.old path.now }
        ensures content { OnOk result (image_at self.new path.now ≡ Some (content_of disk)) }
        ensures old_or_new { (image_at self.new path.now ≡ image_at self.old path.now) ⊎ (image_at self.new path.now ≡ Some (content_of disk)) }
        ensures trail { (c : List ℕ) → Trail self.new path.now c → Trail self.old path.now c ⊎ (image_at self.old path.now ≡ Some c) ⊎ (c ≡ content_of disk) }
        ensures since { OnOk result ((t : ℕ) (c : List ℕ) → LeftAt self.new path.now t c → c ≡ content_of disk) }
        ensures other_images { (p : List ℕ) → p ≢ path.now → image_at self.new p ≡ image_at self.old p }
        ensures other_trails { (p c : List ℕ) → p ≢ path.now → Trail self.new p c ↔ Trail self.old p c }
        ensures own_later { min self.old.own (2 ^ 64 - 1) ≤ min self.new.own (2 ^ 64 - 1) }
        ensures later { RoseBy (min disk.faults (2 ^ 64 - 1) + (min self.new.own (2 ^ 64 - 1) - min self.old.own (2 ^ 64 - 1))) (min self.old.all (2 ^ 64 - 1)) (min self.new.all (2 ^ 64 - 1)) }
        ensures cause { OnErr result (Rose (min self.old.own (2 ^ 64 - 1)) (min self.new.own (2 ^ 64 - 1))) }
    {
        let named = self.is_named();
        self.take_faults(disk.faults());
        if named {
            self.fail();
            return Err(Failed);
        }
        match self.find_out(path) {
            Some(at) => {
                self.keep(at, disk, true);
                Ok(())
            }
            None => {
                self.fail();
                Err(Failed)
            }
        }
    }

    fn discard(&mut self, path: &str, disk: MemDisk)
        ensures images_stay { (p : List ℕ) → image_at self.new p ≡ image_at self.old p }
        ensures trails_stay { (p c : List ℕ) → Trail self.new p c ↔ Trail self.old p c }
        ensures own_later { min self.old.own (2 ^ 64 - 1) ≤ min self.new.own (2 ^ 64 - 1) }
        ensures later { RoseBy (min disk.faults (2 ^ 64 - 1) + (min self.new.own (2 ^ 64 - 1) - min self.old.own (2 ^ 64 - 1))) (min self.old.all (2 ^ 64 - 1)) (min self.new.all (2 ^ 64 - 1)) }
    {
        let named = self.is_named();
        self.take_faults(disk.faults());
        if named {
            self.fail();
            return;
        }
        match self.find_out(path) {
            Some(at) => self.throw_away(at),
            None => self.fail(),
        }
    }

    ghost use Rattle.opfs_memory.specs.Laws.{capped};

    ghost counted = { λ host. capped host.all };

    ghost own_counted = { λ host. capped host.own };

    ghost disk_tells = { λ told. told };

    ghost disk_crashes = { λ told. told };

    ghost made_tells = { λ told. told };
}
