//! The calls of a file system, each of which may fail.
ghost use Rattle.std.specs.Prelude.{◌≡◌, ◌≢◌, false, List, [], ◌∷◌, Option, IfOk};
ghost use Rattle.toml_replace.specs.Calls.{Adds, Call, as_text, compares, finds, makes, reads_mode, removes, renames, sets_mode, stores, syncs, writes};

use std::alloc::Global;
use std::io;

/// A file system. A call that fails may have done a part of its work, but for those that say more. Contracts see a disk as the
/// list of its calls with their answers.
pub trait Disk {
    /// The calls so far, in order. None where the disk keeps no list of them, as a writer that does not tell its bytes: of such
    /// a disk the clauses claim nothing.
    ghost calls: { Self → Option (List Call) };

    /// The path of what stands at a path: another one where that is a symbolic link, behind all of them.
    fn real_path(&mut self, alloc: Global, path: &str) -> io::Result<String>
        ensures { Adds (finds path.now (as_text result) ∷ []) (calls self.old) (calls self.new) };

    /// The permissions of the plain file at a path, as `chmod` counts them. An error where something else stands there, or nothing.
    fn mode(&mut self, path: &str) -> io::Result<u32>
        ensures { Adds (reads_mode path.now result ∷ []) (calls self.old) (calls self.new) };

    /// Makes an empty file, which its owner alone may read, and keeps it open; answers whether. No where something stands there
    /// already, whatever it is.
    fn create_new(&mut self, path: &str) -> io::Result<bool>
        ensures { Adds (makes path.now result ∷ []) (calls self.old) (calls self.new) };

    /// Writes the whole text to the file that was made last.
    fn write_all(&mut self, text: &[u8]) -> io::Result<()>
        ensures { Adds (writes text.now result ∷ []) (calls self.old) (calls self.new) };

    /// Brings the file that was made last to the device.
    fn sync(&mut self) -> io::Result<()>
        ensures { Adds (syncs result ∷ []) (calls self.old) (calls self.new) };

    /// Gives the file that was made last these permissions.
    fn set_mode(&mut self, mode: u32) -> io::Result<()>
        ensures { Adds (sets_mode mode result ∷ []) (calls self.old) (calls self.new) };

    /// Whether a path leads to the file at the other, by links of either kind too. No where nothing stands at the path.
    fn is_same(&mut self, path: &str, other: &str) -> io::Result<bool>
        ensures call { Adds (compares path.now other.now result ∷ []) (calls self.old) (calls self.new) }
        ensures apart { IfOk result (λ same. same ≡ false → path.now ≢ other.now) };

    /// Makes or empties a plain file, and writes the bytes.
    fn store(&mut self, path: &str, bytes: &[u8]) -> io::Result<()>
        ensures { Adds (stores path.now bytes.now result ∷ []) (calls self.old) (calls self.new) };

    /// Closes the file that was made last, and gives the file at a path the other path, in one step. What stood there goes. Where
    /// it fails, both stand as they did.
    fn rename(&mut self, from: &str, to: &str) -> io::Result<()>
        ensures { Adds (renames from.now to.now result ∷ []) (calls self.old) (calls self.new) };

    /// Closes the file that was made last, and takes the file at a path away.
    fn remove(&mut self, path: &str) -> io::Result<()>
        ensures { Adds (removes path.now result ∷ []) (calls self.old) (calls self.new) };
}
