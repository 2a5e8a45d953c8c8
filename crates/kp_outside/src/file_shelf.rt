ghost use Rattle.std.specs.Prelude.{◌≡◌, ℕ, List, None, OnOk, IfOk, IsErrOf};
ghost use Rattle.std.specs.Str.{IsUtf8};
ghost use Rattle.kp_outside.specs.Outside.{Counts, Gets, IsWithin, with_file};
ghost use Rattle.kp_outside.specs.Numbered.{faults_after};

use crate::transfer::{read_front, write_whole};
use crate::{Got, OutsideStop, Shelf};
use std::alloc::Global;
use std::fs;
use std::marker::Model;
use std::rt::Files;

/// The files of the machine. A name is a path, in UTF-8. It doesn't tell what they hold.
///
/// Each error of the machine is a fault, but for want of memory, and so is a name that isn't UTF-8.
/// What a signal interrupts is tried again. There is one count for the gets of all names, and one
/// for the puts.
#[derive(Drop)]
pub struct FileShelf<'a, R: Files> {
    rt: &'a R,
    get_faults: u64,
    put_faults: u64,
}

impl<'a, R: Files> Model for FileShelf<'a, R> {
    ghost use Rattle.kp_outside.specs.Edge.{FileFaults};

    ghost Value = { FileFaults };

    ghost view = { λ s. record { gets = s.get_faults; puts = s.put_faults } };
}

impl<'a, R: Files> FileShelf<'a, R> {
    /// The files that this runtime reaches. Nothing has failed so far.
    pub fn new(rt: &'a R) -> FileShelf<'a, R>
        ensures { result ≡ record { gets = 0; puts = 0 } }
    {
        FileShelf {
            rt,
            get_faults: 0,
            put_faults: 0,
        }
    }
}

fn read_file<R: Files>(rt: &R, alloc: Global, name: &[u8], most: usize) -> Result<Got, OutsideStop>
    ensures within { IfOk result (IsWithin most) }
    ensures named { ¬ (IsUtf8 name.now) → IsErrOf result OutsideStop.Failed }
{
    let Ok(path) = str::from_utf8(name) else {
        return Err(OutsideStop::Failed);
    };
    let mut file = fs::open(rt, path)?;
    read_front(&mut file, alloc, most)
}

fn write_file<R: Files>(rt: &R, name: &[u8], bytes: &[u8]) -> Result<(), OutsideStop>
    ensures { ¬ (IsUtf8 name.now) → IsErrOf result OutsideStop.Failed }
{
    let Ok(path) = str::from_utf8(name) else {
        return Err(OutsideStop::Failed);
    };
    let mut file = fs::create(rt, path)?;
    write_whole(&mut file, bytes)
}

impl<'a, R: Files> Shelf for FileShelf<'a, R> {
    ghost contents = { λ _. None };

    ghost get_faults = { λ s _. s.gets };

    ghost put_faults = { λ s _. s.puts };

    fn get(&mut self, alloc: Global, name: &[u8], most: usize) -> Result<Got, OutsideStop>
        ensures got { IfOk result (Gets None name.now most) }
        ensures within { IfOk result (IsWithin most) }
        ensures faults { Counts result name.now (λ _. self.old.gets) (λ _. self.new.gets) }
        ensures put_faults { (q : List ℕ) → self.new.puts ≡ self.old.puts }
        ensures after { self.new ≡ record self.old { gets = faults_after result self.old.gets } }
        ensures named { ¬ (IsUtf8 name.now) → IsErrOf result OutsideStop.Failed }
    {
        let result = read_file(self.rt, alloc, name, most);
        if matches!(&result, Err(OutsideStop::Failed)) {
            self.get_faults = self.get_faults.saturating_add(1);
        }
        result
    }

    fn put(&mut self, _alloc: Global, name: &[u8], bytes: &[u8]) -> Result<(), OutsideStop>
        ensures put { OnOk result (None ≡ with_file None name.now bytes.now) }
        ensures faults { Counts result name.now (λ _. self.old.puts) (λ _. self.new.puts) }
        ensures get_faults { (q : List ℕ) → self.new.gets ≡ self.old.gets }
        ensures after { self.new ≡ record self.old { puts = faults_after result self.old.puts } }
        ensures named { ¬ (IsUtf8 name.now) → IsErrOf result OutsideStop.Failed }
    {
        let result = write_file(self.rt, name, bytes);
        if matches!(&result, Err(OutsideStop::Failed)) {
            self.put_faults = self.put_faults.saturating_add(1);
        }
        result
    }
}
