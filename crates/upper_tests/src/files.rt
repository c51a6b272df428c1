//! Files of the system, and files in memory.
use super::memory::MemoryFiles;
use flagops_files::SystemFiles;
use flagops_shell::{FileSet, LoadFault, StoreFault};
use std::alloc::Global;
use std::test::Fail;
use std::{env, fs, process};

/// Whether a file that is read up to this number of bytes and one more has these.
fn reads<F: FileSet>(alloc: Global, files: &mut F, path: &str, max: u64, want: &str) -> bool {
    match files.read(alloc, path, max) {
        Ok(bytes) => bytes.as_slice() == want.as_bytes(),
        Err(_) => false,
    }
}

/// Whether a file cannot be read.
fn is_gone<F: FileSet>(alloc: Global, files: &mut F, path: &str) -> bool {
    matches!(files.read(alloc, path, 9), Err(LoadFault::Unreadable))
}

/// The most bytes that are read but one, and what is read of `abcdef`.
const READS: &[(u64, &str)] = &[
    (0, "a"),
    (4, "abcde"),
    (5, "abcdef"),
    (6, "abcdef"),
    (u64::MAX, "abcdef"),
];

#[test]
fn of_the_system(rt: HostRuntime) -> Result<(), Fail> {
    let alloc = rt.alloc();
    let id = process::id(rt.process());
    let mut path = env::temp_dir(&rt)?;
    path.push(format!(in alloc; "flagops-test-{id}")?.as_str())?;
    let path = path.as_str();
    let mut files = SystemFiles::new(&rt);
    files.write(alloc, path, b"abcdef")?;
    for (max, want) in READS {
        assert!(rt; reads(alloc, &mut files, path, *max, want), "at most {max}");
    }
    fs::remove_file(&rt, path)?;
    assert!(rt;
        is_gone(alloc, &mut files, path)
            && files.write(alloc, "/", b"") == Err(StoreFault::Unwritable)
    );
    Ok(())
}

#[test]
fn in_memory(rt: HostRuntime) {
    let alloc = rt.alloc();
    let mut files = MemoryFiles::new(alloc, true);
    assert!(rt;
        files.write(alloc, "a", b"old").is_ok()
            && files.write(alloc, "b", b"other").is_ok()
            && files.write(alloc, "a", b"new").is_ok()
            && reads(alloc, &mut files, "a", 9, "new")
            && reads(alloc, &mut files, "b", 1, "ot")
            && is_gone(alloc, &mut files, "c")
    );
    let mut sealed = MemoryFiles::new(alloc, false);
    assert!(rt; sealed.write(alloc, "a", b"") == Err(StoreFault::Unwritable));
}
