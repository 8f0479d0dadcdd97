//! What a replacement does to a disk whose n-th call fails.
use crate::{Disk, ReplaceFault, replace};
use std::alloc::Global;
use std::io;

/// A disk with the file `/d/F`. So many names of new files are taken, and so many calls on fails one; at 0 none does.
#[derive(Drop)]
struct Fake {
    log: String,
    file: &'static str,
    made: &'static str,
    taken: usize,
    left: usize,
}

impl Fake {
    fn call(&mut self, word: &str) -> io::Result<()> {
        self.log.push_str(word)?;
        self.left = self.left.wrapping_sub(1);
        let fault = io::Error::other("it fails");
        if self.left == 0 { Err(fault) } else { Ok(()) }
    }
}

impl Disk for Fake {
    ghost use Rattle.std.specs.Prelude.{None};

    ghost calls = { λ _. None };

    fn real_path(&mut self, alloc: Global, _path: &str) -> io::Result<String> {
        self.call("find ")?;
        Ok(String::from_str(alloc, "/d/F")?)
    }

    fn mode(&mut self, _path: &str) -> io::Result<u32> {
        self.call("mode ").map(|_| 0o640)
    }

    fn create_new(&mut self, path: &str) -> io::Result<bool> {
        let is_free = self.taken == 0;
        self.taken = self.taken.saturating_sub(1);
        self.log.push_str("new:")?;
        self.log.push_str(path)?;
        self.call(" ").map(|_| is_free)
    }

    fn write_all(&mut self, text: &[u8]) -> io::Result<()> {
        self.made = if text.len() == 3 { "new" } else { "another" };
        self.call("write ")
    }

    fn sync(&mut self) -> io::Result<()> {
        self.call("sync ")
    }

    fn set_mode(&mut self, _mode: u32) -> io::Result<()> {
        self.call("chmod ")
    }

    fn is_same(&mut self, path: &str, other: &str) -> io::Result<bool> {
        self.call("same ")?;
        Ok(path == other)
    }

    fn store(&mut self, _path: &str, _bytes: &[u8]) -> io::Result<()> {
        self.call("store ")
    }

    fn rename(&mut self, _from: &str, _to: &str) -> io::Result<()> {
        self.call("rename ")?;
        (self.file, self.made) = (self.made, "");
        Ok(())
    }

    fn remove(&mut self, _path: &str) -> io::Result<()> {
        self.made = "";
        self.call("remove ")
    }
}

fn run(rt: &HostRuntime, taken: usize, left: usize, path: &str) -> (bool, Fake) {
    let mut disk = Fake {
        log: String::new(rt.alloc()),
        file: "old",
        made: "",
        taken,
        left,
    };
    let certificate = Some((path, b"".as_slice()));
    let done = replace(rt.alloc(), &mut disk, "F", b"new", certificate).is_ok();
    (done, disk)
}

#[test]
fn each_call_may_fail(rt: HostRuntime) {
    const WHOLE: &str = "find mode new:/d/.F.tomled0 write sync chmod same same store rename ";
    let mut all = String::new(rt.alloc());
    for (n, word) in WHOLE.split_inclusive(' ').enumerate() {
        assert!(rt; all.push_str(word).is_ok());
        let (done, disk) = run(&rt, 0, n.wrapping_add(1), "C");
        assert_eq!(rt; (done, disk.file, disk.made), (false, "old", ""), "at {n}");
        let last = if n < 3 { "" } else { "remove " };
        assert_eq!(rt; disk.log.as_str().strip_prefix(all.as_str()), Some(last));
    }
    let (done, disk) = run(&rt, 0, 0, "C");
    assert_eq!(rt; (done, disk.file, disk.log.as_str()), (true, "new", WHOLE));
}

#[test]
fn names_may_be_taken(rt: HostRuntime) {
    let (done, disk) = run(&rt, 2, 0, "C");
    assert!(rt; done && disk.log.as_str().contains(" new:/d/.F.tomled2 write"));
    let (done, disk) = run(&rt, 1000, 0, "C");
    assert!(rt; !done && disk.log.as_str().ends_with("tomled99 "));
    for path in ["/d/F", "/d/.F.tomled0"] {
        let (done, disk) = run(&rt, 0, 0, path);
        assert_eq!(rt; (done, disk.file, disk.made), (false, "old", ""), "{path}");
        assert!(rt; disk.log.as_str().ends_with("same remove "), "{path}");
    }
}
