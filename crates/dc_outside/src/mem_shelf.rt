// A shelf in memory.

ghost use Rattle.std.specs.Prelude.{◌≡◌, ◌≤◌, [], find};
ghost use Rattle.std.specs.Option.{option_copied};
ghost use Rattle.std.specs.Str.{bytes_eq};
ghost use Rattle.dc_outside.specs.Outside.{Takes, CountsTake, given_after, one_more};
ghost use Rattle.dc_outside.specs.MemShelf.{entries_of, file_of, Reads, TakesFromMemory, after_take};

use crate::script::Script;
use crate::{Shelf, ShelfLog, TakeFault};
use dc_base::{Or, Text};
use std::alloc::Global;
use std::marker::Model;

/// Files in memory. A call fails where its number, counted from 1, is listed or no file has the name.
/// Each call copies the name first. Contracts see it as a `ShelfState` of its specs.
#[derive(Debug, Drop)]
pub struct MemShelf {
    files: Vec<(Text, Vec<u8>)>,
    script: Script,
    faults: u64,
    last: Option<Text>,
    log: ShelfLog,
}

impl Model for MemShelf {
    ghost use Rattle.dc_outside.specs.MemShelf.{ShelfState, entries_of};

    ghost Value = { ShelfState };

    ghost view = { λ s. record {
      entries = entries_of s.files.items;
      fails = s.script.fails.items;
      calls = s.script.calls;
      faults = s.faults;
      last = s.last;
      given = s.log.given;
    } };
}

impl MemShelf {
    /// Of two files with one name the first is the file. `fails` are the numbers of the calls that fail.
    /// Takes no memory.
    pub fn of(files: Vec<(Text, Vec<u8>)>, fails: Vec<u32>) -> MemShelf
        ensures { result ≡ record {
          entries = entries_of files.items;
          fails = fails.items;
          calls = 0;
          faults = 0;
          last = None;
          given = [];
        } }
    {
        MemShelf {
            files,
            script: Script::of(fails),
            faults: 0,
            last: None,
            log: ShelfLog::new(),
        }
    }

    // Counts a failed call, which was given this name.
    fn count_fault(&mut self, name: Text)
        ensures never_falls { self.old.faults ≤ self.new.faults }
        ensures state { self.new ≡ record self.old {
          faults = one_more self.old.faults;
          last = Some name;
        } }
    {
        self.faults = self.faults.saturating_add(1);
        self.last = Some(name);
    }
}

impl Shelf for MemShelf {
    ghost use Rattle.std.specs.Prelude.{Some};
    ghost use Rattle.dc_outside.specs.MemShelf.{file_of};

    ghost files = { λ s. Some (file_of s.entries) };

    ghost faults = { λ s. s.faults };

    ghost last = { λ s. s.last };

    ghost given = { λ s. s.given };

    fn take(&mut self, alloc: Global, name: &Text, limit: u64) -> Result<Vec<u8>, Or<TakeFault>>
        ensures takes { Takes (Some (file_of self.old.entries)) name.now limit result }
        ensures gives { self.new.given ≡ given_after self.old.given name.now result }
        ensures counts { CountsTake name.now self.old.faults self.new.faults self.old.last
            self.new.last result }
        ensures never_falls { self.old.faults ≤ self.new.faults }
        ensures files { self.new.entries ≡ self.old.entries }

        // Which calls fail, and all that changes.
        ensures exact { TakesFromMemory self.old name.now result }
        ensures state { self.new ≡ after_take self.old name.now result }
    {
        let listed = self.script.next_fails();
        let copy = name.copied(alloc)?;
        if listed {
            self.count_fault(copy);
            return Err(Or::Fault(TakeFault::Failed));
        }
        let answer = read(&self.files, alloc, name.as_str(), limit);
        if let Err(Or::Fault(TakeFault::Failed)) = answer {
            self.count_fault(copy);
            return Err(Or::Fault(TakeFault::Failed));
        }
        self.log = self.log.and(name, &answer);
        answer
    }
}

fn entry_of<'a>(files: &'a [(Text, Vec<u8>)], name: &str) -> Option<&'a (Text, Vec<u8>)>
    ensures { option_copied result ≡ find (λ file. bytes_eq file.0 name.now) files.now }
{
    files.iter().find(|file| file.0.as_str() == name)
}

fn read(
    files: &[(Text, Vec<u8>)],
    alloc: Global,
    name: &str,
    limit: u64,
) -> Result<Vec<u8>, Or<TakeFault>>
    ensures { Reads (file_of (entries_of files.now) name.now) limit result }
{
    let Some(file) = entry_of(files, name) else {
        return Err(Or::Fault(TakeFault::Failed));
    };
    let length = file.1.len() as u64;
    if limit < length {
        return Err(Or::Fault(TakeFault::Longer(length)));
    }
    Ok(file.1.to_vec(alloc)?)
}

#[cfg(test)]
mod tests {
    use super::*;
    use std::test::Fail;

    #[test]
    fn gives_files_and_fails_as_listed(rt: HostRuntime) -> Result<(), Fail> {
        let alloc = rt.alloc();
        let mut files = Vec::new(alloc);
        files.push((Text::of(alloc, "a")?, Vec::from_slice(alloc, &[1, 2])?))?;
        files.push((Text::of(alloc, "b")?, Vec::from_slice(alloc, &[3, 4, 5])?))?;
        files.push((Text::of(alloc, "a")?, Vec::new(alloc)))?;
        let mut shelf = MemShelf::of(files, Vec::from_slice(alloc, &[3])?);
        for (name, want) in [
            ("a", "Ok([1, 2])"),
            ("b", "Err(Fault(Longer(3)))"),
            ("a", "Err(Fault(Failed))"),
            ("c", "Err(Fault(Failed))"),
            ("a", "Ok([1, 2])"),
        ] {
            let answer = shelf.take(alloc, &Text::of(alloc, name)?, 2);
            assert_eq!(rt;
                format!(in alloc; "{answer:?}")?.as_str(),
                want,
                "at {name}"
            );
        }
        Ok(())
    }
}
