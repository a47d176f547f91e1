//! The calls of a system in memory.
ghost use Rattle.std.specs.Prelude.{◌≤◌, length, drop, Some};
ghost use Rattle.host_system.specs.FolderPast.{HasFile, file_bytes};
ghost use Rattle.mem_system.specs.MemSystem.{Performs};
ghost use Rattle.mem_system.specs.SystemCall.{to_find, to_open, to_make, to_lock, to_read, to_read_at, to_write_at, to_sync, to_sync_read, to_remove, to_rename, to_sync_names, to_print, did_or_failed, found_or_failed, gave_or_failed, filled_or_failed};

use super::MemSystem;
use board_core::{Failed, FileNo};
use host_system::{FileName, System};
use ras_base::NoMemory;

impl System for MemSystem {
    ghost told = { λ s. Some s.past };

    ghost faults = { λ s. s.faults };

    fn find(&mut self, name: FileName) -> Result<Option<u64>, Failed>
        ensures performs { Performs (to_find name) (found_or_failed result) self.old self.new }
    {
        self.look()?;
        Ok(self.length(name))
    }

    fn open(&mut self, name: FileName) -> Result<(), Failed>
        ensures performs { Performs (to_open name) (did_or_failed result) self.old self.new }
    {
        self.look()?;
        self.open_file(name);
        Ok(())
    }

    fn make(&mut self, name: FileName) -> Result<(), Failed>
        ensures performs { Performs (to_make name) (did_or_failed result) self.old self.new }
    {
        let is_made = self.does_all();
        let is_chosen = self.begin();
        if !is_made {
            return self.end(is_chosen, Ok(()));
        }
        let made = self.make_file(name);
        self.end(is_chosen, made)
    }

    fn lock(&mut self, name: FileName) -> Result<(), Failed>
        ensures performs { Performs (to_lock name) (did_or_failed result) self.old self.new }
    {
        self.look()?;
        self.lock_file(name);
        Ok(())
    }

    fn read(&mut self, name: FileName, most: u64) -> Result<Option<Vec<u8>>, Failed>
        ensures performs { Performs (to_read name most) (gave_or_failed result) self.old self.new }
    {
        self.look()?;
        match self.front(name, most) {
            Ok(found) => Ok(found),
            Err(NoMemory) => Err(self.starve()),
        }
    }

    fn read_at(&mut self, name: FileName, place: u64, buf: &mut [u8]) -> Result<(), Failed>
        requires within { length buf.old ≤ length (drop place (file_bytes name self.old.past)) }
        ensures performs { Performs (to_read_at name place (length buf.old))
            (filled_or_failed buf.new result) self.old self.new }
    {
        self.look()?;
        self.fill(name, place, buf);
        Ok(())
    }

    fn write_at(&mut self, name: FileName, place: u64, bytes: &[u8]) -> Result<(), Failed>
        requires there { HasFile name self.old.past }
        requires within { place ≤ length (file_bytes name self.old.past) }
        ensures performs { Performs (to_write_at name place bytes.now) (did_or_failed result)
            self.old self.new }
    {
        let came = self.arriving(bytes);
        let is_chosen = self.begin();
        match came {
            Ok(Some(came)) => {
                let missing = (bytes.len() - came.len()) as u64;
                let made = self.write(name, place, &came, missing);
                self.end(is_chosen, made)
            }
            Ok(None) => self.end(is_chosen, Ok(())),
            Err(NoMemory) => self.end(is_chosen, Err(NoMemory)),
        }
    }

    fn sync(&mut self, name: FileName) -> Result<(), Failed>
        ensures performs { Performs (to_sync name) (did_or_failed result) self.old self.new }
    {
        if self.look().is_err() {
            self.lose_file(name);
            return Err(Failed);
        }
        self.sync_file(name);
        Ok(())
    }

    fn sync_read(&mut self, file: FileNo) -> Result<(), Failed>
        ensures performs { Performs (to_sync_read file) (did_or_failed result) self.old self.new }
    {
        self.sync(FileName::Journal(file))
    }

    fn remove(&mut self, name: FileName) -> Result<(), Failed>
        ensures performs { Performs (to_remove name) (did_or_failed result) self.old self.new }
    {
        let is_removed = self.does_all();
        let is_chosen = self.begin();
        if !is_removed {
            return self.end(is_chosen, Ok(()));
        }
        let made = self.remove_file(name);
        self.end(is_chosen, made)
    }

    fn rename(&mut self) -> Result<(), Failed>
        ensures performs { Performs to_rename (did_or_failed result) self.old self.new }
    {
        let is_renamed = self.does_all();
        let is_chosen = self.begin();
        if !is_renamed {
            return self.end(is_chosen, Ok(()));
        }
        let made = self.rename_file();
        self.end(is_chosen, made)
    }

    fn sync_names(&mut self) -> Result<(), Failed>
        ensures performs { Performs to_sync_names (did_or_failed result) self.old self.new }
    {
        self.look()?;
        self.settle();
        Ok(())
    }

    fn print(&mut self, bytes: &[u8]) -> Result<(), Failed>
        ensures performs { Performs (to_print bytes.now) (did_or_failed result) self.old self.new }
    {
        let part = self.printing(bytes);
        let is_chosen = self.begin();
        let made = self.append(part);
        self.end(is_chosen, made)
    }
}
