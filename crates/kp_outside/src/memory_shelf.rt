ghost use Rattle.std.specs.Prelude.{◌≡◌, ◌⊎◌, ◌↔◌, ℕ, List, [], ◌∷◌, ◌++◌, Some, OnOk, OnErr, IfOk, IsErrOf, IsNone};
ghost use Rattle.std.specs.Option.{option_copied};
ghost use Rattle.std.specs.FinMap as map;
ghost use Rattle.kp_outside.specs.Outside.{Counts, Gets, IsFront, IsWithin, with_file, without_file};
ghost use Rattle.kp_outside.specs.Numbered.{next, IsFailing, faults_after};
ghost use Rattle.kp_outside.specs.MemoryShelf.{new_shelf};
ghost use Rattle.kp_outside.specs.Files.{files};

use crate::{Got, OutsideStop, Shelf};
use kp_base::{Memory, Row};
use std::alloc::Global;
use std::collections::BTreeMap;
use std::marker::Model;

/// A shelf in memory, some of whose calls fail.
///
/// Its gets and puts are numbered together from 1. A call fails where its number was given to
/// [`MemoryShelf::fail_at`]; besides, a get fails where nothing is held under its name.
#[derive(Drop)]
pub struct MemoryShelf {
    alloc: Global,
    contents: BTreeMap<Vec<u8>, Row<u8>>,
    calls: u64,
    failing: Row<u64>,
    get_faults: u64,
    put_faults: u64,
}

impl Model for MemoryShelf {
    ghost use Rattle.kp_outside.specs.MemoryShelf.{Shelved, shelved_code};
    ghost use Rattle.kp_outside.specs.Files.{files};

    ghost Value = { Shelved };

    ghost coded = { shelved_code };

    ghost view = { λ s. record { contents = files s.contents; calls = s.calls; failing = s.failing; get_faults = s.get_faults; put_faults = s.put_faults } };
}

// The first bytes, at most that many.
fn front(alloc: Global, content: &[u8], most: usize) -> Result<Got, Memory>
    ensures front { IfOk result (IsFront (Some content.now) most) }
    ensures within { IfOk result (IsWithin most) }
{
    let more = content.len() > most;
    let bytes = if more { &content[..most] } else { content };
    Ok(Got {
        bytes: Row::from_vec(bytes.to_vec(alloc)?),
        more,
    })
}

// Sets the content of a name.
#[tactic(auto, using(crate::proofs::Files::files_set))]
fn set(
    alloc: Global,
    contents: &mut BTreeMap<Vec<u8>, Row<u8>>,
    name: &[u8],
    bytes: &[u8],
) -> Result<(), Memory>
    ensures ok { OnOk result (files contents.new ≡ map.insert (files contents.old) name.now bytes.now) }
    ensures err { OnErr result (files contents.new ≡ files contents.old) }
{
    let name = name.to_vec(alloc)?;
    let bytes = Row::from_vec(bytes.to_vec(alloc)?);
    contents.insert(name, bytes)?;
    Ok(())
}

impl MemoryShelf {
    /// A shelf that holds nothing, none of whose calls fails.
    pub fn new(alloc: Global) -> Result<MemoryShelf, Memory>
        ensures { IfOk result (λ s. s ≡ new_shelf) }
    {
        Ok(MemoryShelf {
            alloc,
            contents: BTreeMap::new(alloc),
            calls: 0,
            failing: Row::new(alloc),
            get_faults: 0,
            put_faults: 0,
        })
    }

    /// Sets the content of a name. This is no call that is numbered. At `Memory` all is as before.
    pub fn hold(&mut self, name: &[u8], bytes: &[u8]) -> Result<(), Memory>
        ensures ok { OnOk result (self.new ≡ record self.old { contents = map.insert self.old.contents name.now bytes.now }) }
        ensures err { OnErr result (self.new ≡ self.old) }
    {
        set(self.alloc, &mut self.contents, name, bytes)
    }

    /// Makes the call of that number fail. This is no call that is numbered. At `Memory` all is as
    /// before.
    pub fn fail_at(&mut self, call: u64) -> Result<(), Memory>
        ensures ok { OnOk result (self.new ≡ record self.old { failing = self.old.failing ++ call ∷ [] }) }
        ensures err { OnErr result (self.new ≡ self.old) }
    {
        self.failing.push(call)
    }

    /// What is held under a name, or `None` where nothing is.
    #[tactic(auto, using(crate::proofs::Files::get_files))]
    pub fn held(&self, name: &[u8]) -> Option<&Row<u8>>
        ensures { option_copied result ≡ map.get self.now.contents name.now }
    {
        self.contents.get(name)
    }
}

impl Shelf for MemoryShelf {
    ghost contents = { λ s. Some s.contents };

    ghost get_faults = { λ s _. s.get_faults };

    ghost put_faults = { λ s _. s.put_faults };

    fn get(&mut self, alloc: Global, name: &[u8], most: usize) -> Result<Got, OutsideStop>
        ensures got { IfOk result (Gets (Some self.old.contents) name.now most) }
        ensures within { IfOk result (IsWithin most) }
        ensures contents { Some self.new.contents ≡ Some self.old.contents }
        ensures faults { Counts result name.now (λ _. self.old.get_faults) (λ _. self.new.get_faults) }
        ensures put_faults { (q : List ℕ) → self.new.put_faults ≡ self.old.put_faults }
        ensures failed { IsErrOf result OutsideStop.Failed
            ↔ (IsFailing self.old.failing self.old.calls ⊎ IsNone (map.get self.old.contents name.now)) }
        ensures after { self.new ≡ record self.old { calls = next self.old.calls; get_faults = faults_after result self.old.get_faults } }
    {
        self.calls = self.calls.saturating_add(1);
        if self.failing.slice().contains(&self.calls) {
            self.get_faults = self.get_faults.saturating_add(1);
            return Err(OutsideStop::Failed);
        }
        let Some(content) = self.held(name) else {
            self.get_faults = self.get_faults.saturating_add(1);
            return Err(OutsideStop::Failed);
        };
        Ok(front(alloc, content.slice(), most)?)
    }

    #[tactic(auto, using(crate::proofs::Files::others_stay))]
    fn put(&mut self, alloc: Global, name: &[u8], bytes: &[u8]) -> Result<(), OutsideStop>
        ensures put { OnOk result (Some self.new.contents ≡ with_file (Some self.old.contents) name.now bytes.now) }
        ensures others { without_file (Some self.new.contents) name.now ≡ without_file (Some self.old.contents) name.now }
        ensures faults { Counts result name.now (λ _. self.old.put_faults) (λ _. self.new.put_faults) }
        ensures get_faults { (q : List ℕ) → self.new.get_faults ≡ self.old.get_faults }
        ensures failed { IsErrOf result OutsideStop.Failed ↔ IsFailing self.old.failing self.old.calls }
        ensures ok { OnOk result (self.new ≡ record self.old { contents = map.insert self.old.contents name.now bytes.now; calls = next self.old.calls }) }
        ensures err { OnErr result (self.new ≡ record self.old { calls = next self.old.calls; put_faults = faults_after result self.old.put_faults }) }
    {
        self.calls = self.calls.saturating_add(1);
        if self.failing.slice().contains(&self.calls) {
            self.put_faults = self.put_faults.saturating_add(1);
            return Err(OutsideStop::Failed);
        }
        Ok(set(alloc, &mut self.contents, name, bytes)?)
    }
}
