//! Outputs that fail midway, and want of memory.
use super::memory::{MemoryFiles, MemoryOutlet};
use flagops_commands::{Listed, ListedCall};
use flagops_files::Call;
use flagops_shell::{Console, FileSet, run, want};
use std::alloc::Global;
use std::sync::Wait;
use std::thread::Threads;

/// Whether an output that fails after so many bytes has exactly those, and the status is 1. An answer that is cut is told in no
/// words, and a refusal is.
fn is_cut(
    rt: &(impl AllocGlobal + Threads + Wait + Sync),
    file: &[u8],
    report: &[u8],
    count: usize,
) -> bool {
    let mut files = MemoryFiles::new(rt.alloc(), true);
    if files.write(rt.alloc(), "f", file).is_err() {
        return false;
    }
    let out = MemoryOutlet::new(rt.alloc(), count);
    let err = MemoryOutlet::new(rt.alloc(), usize::MAX);
    let mut console = Console::new(out, err);
    let words = ["bucket", "f", "test"];
    let status = run::<_, _, _, Listed<'_>, _, _>(rt, words.as_slice(), &mut files, &mut console);
    let (printed, told) = (&console.out.bytes, &console.err.bytes);
    status == 1
        && printed.len() == count
        && report.starts_with(printed.as_slice())
        && told.is_empty() == report.starts_with(b"h")
}

/// A rule file and the report.
const REPORTS: &[(&[u8], &[u8])] = &[
    (
        b"[[\"red\",50],[\"blue\",50]]",
        b"hash ba6bd213\npoint 72\nvariant \"blue\"\n",
    ),
    (b"[]", b"refused read_rule 1 NoWeight\n"),
];

/// An output that fails after k bytes has exactly those, and the status is 1.
#[test]
fn failing_outputs(rt: HostRuntime) {
    for (file, report) in REPORTS {
        for count in 0..report.len() {
            assert!(rt; is_cut(&rt, file, report, count), "after {count}");
        }
    }
}

/// Whether the line on want of memory is cut after so many bytes, and the status is 1.
fn is_wanting(alloc: Global, call: ListedCall, line: &[u8], count: usize) -> bool {
    let (out, err) = (
        MemoryOutlet::new(alloc, count),
        MemoryOutlet::new(alloc, count),
    );
    let mut console = Console::new(out, err);
    let status = want(&mut console, call.name());
    let printed = &console.out.bytes;
    status == 1 && printed.len() == count && line.starts_with(printed.as_slice())
}

/// A call, and the line on its want of memory.
const WANTS: &[(ListedCall, &[u8])] = &[
    (ListedCall::Flagops, b"refused flagops 0 WantOfMemory\n"),
    (
        ListedCall::Load(Call::Load),
        b"refused load 0 WantOfMemory\n",
    ),
    (
        ListedCall::Load(Call::ReadTree),
        b"refused read_tree 0 WantOfMemory\n",
    ),
    (
        ListedCall::Load(Call::ReadRule),
        b"refused read_rule 0 WantOfMemory\n",
    ),
    (ListedCall::Bucket, b"refused bucket 0 WantOfMemory\n"),
];

#[test]
fn want_of_memory(rt: HostRuntime) {
    for (call, line) in WANTS {
        for count in 0..=line.len() {
            assert!(rt;
                is_wanting(rt.alloc(), *call, line, count),
                "{line:?} after {count}"
            );
        }
    }
}
