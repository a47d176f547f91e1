//! What is read of the files of a system in memory.
ghost use Rattle.std.specs.Prelude.{◌≡◌, ◌≤◌, length, take, drop, IfOk};
ghost use Rattle.std.specs.Option.{option_map};
ghost use Rattle.host_system.specs.FolderPast.{bytes_named, file_bytes, length_told};

use super::MemSystem;
use host_system::FileName;
use ras_base::NoMemory;

impl MemSystem {
    /// Returns the length of the file with this name in bytes, if the file exists.
    pub(super) fn length(&self, name: FileName) -> Option<u64>
        ensures { result ≡ length_told name self.now.past }
    {
        self.files.get(name).length()
    }

    /// Returns the first bytes of a file, at most `most`, if the file exists.
    pub(super) fn front(&self, name: FileName, most: u64) -> Result<Option<Vec<u8>>, NoMemory>
        ensures { IfOk result (λ found. option_map (λ v. v.items) found
            ≡ option_map (take most) (bytes_named name self.now.past)) }
    {
        self.files.get(name).front(self.alloc, most)
    }

    /// Fills the buffer with the bytes of a file from the offset `place` on. Requires that the file
    /// has that many bytes there.
    pub(super) fn fill(&self, name: FileName, place: u64, buf: &mut [u8])
        requires within { length buf.old ≤ length (drop place (file_bytes name self.now.past)) }
        ensures { buf.new ≡ take (length buf.old) (drop place (file_bytes name self.now.past)) }
    {
        let bytes = self.files.get(name).bytes();
        let start = place.min(bytes.len() as u64) as usize;
        buf.copy_from_slice(&bytes[start..start + buf.len()]);
    }
}
