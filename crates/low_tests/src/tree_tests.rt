//! Trees: their readers, equality and copies, values deeper than any text, and writers that fail.
use flag_text::{
    TextFault, Tree, WriteOutlet, is_in_range, print_tree, read_doc, read_tree, whole_tree,
    write_whole,
};
use std::alloc::{AllocError, Global};
use std::io;
use std::io::Write;
use std::test::Fail;

/// Whether each member is read as what it is.
fn has_members(tree: &Tree) -> bool {
    tree.member("t").and_then(Tree::as_text) == Some("x")
        && tree.member("b").and_then(Tree::as_bool) == Some(true)
        && tree.member("n").and_then(Tree::as_whole) == Some(-3)
        && tree.member("m").is_none()
        && tree
            .member("l")
            .and_then(Tree::as_list)
            .map_or(0, |items| items.len())
            == 1
        && tree.as_object().map_or(0, |members| members.len()) == 4
}

/// Whether each member of the text's tree is read as what it is, and the tree is whole.
fn are_read(alloc: Global, text: &[u8]) -> bool {
    match read_tree(alloc, text, 100) {
        Ok(tree) => has_members(&tree) && whole_tree(tree).is_ok(),
        Err(_) => false,
    }
}

#[test]
fn readers(rt: HostRuntime) {
    let text = b"{\"t\": \"x\", \"b\": true, \"l\": [1], \"n\": -3}";
    assert!(rt;
        are_read(rt.alloc(), text)
            && whole_tree(Tree::Other).err() == Some(TextFault::NotWhole)
            && is_in_range(-9007199254740991)
            && !is_in_range(9007199254740992)
            && !Tree::Whole(1 << 53).is_whole()
    );
}

/// Whether a tree equals the one at this place, and no other.
fn equals_one(tree: &Tree, others: &[Tree], place: usize) -> bool {
    for (i, other) in others.iter().enumerate() {
        if tree.equals(other) != (i == place) {
            return false;
        }
    }
    true
}

/// Whether each tree equals the one at its own place, and no other.
fn equal_their_own(trees: &[Tree], others: &[Tree]) -> bool {
    for (place, tree) in trees.iter().enumerate() {
        if !equals_one(tree, others, place) {
            return false;
        }
    }
    trees.len() == others.len()
}

/// Whether a list's items equal their own copies, and no others.
fn is_copied(alloc: Global, tree: &Tree) -> bool {
    match tree.copy(alloc) {
        Ok(copy) => match (tree, &copy) {
            (Tree::List(trees), Tree::List(others)) => equal_their_own(trees, others),
            _ => copy.equals(tree),
        },
        Err(_) => false,
    }
}

/// Whether all items of the text's list are unlike.
fn are_unlike(alloc: Global, text: &[u8], count: usize) -> bool {
    match read_doc(alloc, text, 100) {
        Ok(tree) => is_copied(alloc, &tree)
            && tree.as_list().map_or(0, |items| items.len()) == count,
        Err(_) => false,
    }
}

#[test]
fn unlike_trees(rt: HostRuntime) {
    let text = br#"[null,true,1,1.5,"1",[],[1],[1,1],{},{"a":1},{"a":2},{"b":1}]"#;
    assert!(rt; are_unlike(rt.alloc(), text, 12));
}

// As deep as a value that an evaluation makes can be. The build of `rt try` takes more stack for it than the usual 8 MB.
const DEEP: usize = 5000;

/// A list of the tree alone.
fn in_list(alloc: Global, tree: Tree) -> Result<Tree, AllocError> {
    let mut items = Vec::new(alloc);
    items.push(tree)?;
    Ok(Tree::List(items))
}

/// An object of the tree alone.
fn in_object(alloc: Global, tree: Tree) -> Result<Tree, AllocError> {
    let name = String::from_str(alloc, "accumulator")?;
    let mut members = Vec::new(alloc);
    members.push((name, tree))?;
    Ok(Tree::Object(members))
}

/// Null in lists and objects by turns.
fn deep_tree(alloc: Global) -> Result<Tree, AllocError> {
    let mut tree = Tree::Null;
    for level in 0..DEEP {
        tree = if level % 2 == 0 {
            in_list(alloc, tree)?
        } else {
            in_object(alloc, tree)?
        };
    }
    Ok(tree)
}

/// Whether the tree is whole, and its text has so many bytes.
fn has_length(alloc: Global, tree: &Tree, want: usize) -> bool {
    if !tree.is_whole() {
        return false;
    }
    match print_tree(alloc, tree) {
        Ok(text) => text.len() == want,
        Err(_) => false,
    }
}

#[test]
fn deep_values(rt: HostRuntime) -> Result<(), Fail> {
    let alloc = rt.alloc();
    let tree = deep_tree(alloc)?;
    assert!(rt; tree.fits(DEEP) && !tree.fits(DEEP - 1));
    assert!(rt; is_copied(alloc, &tree) && has_length(alloc, &tree, 4 + DEEP / 2 * 18));
    Ok(())
}

// A writer that takes three bytes at a time, and fails once it has no room left.
#[derive(Drop)]
struct Small {
    taken: Vec<u8>,
    room: usize,
}

impl Write for Small {
    fn write(&mut self, buf: &[u8]) -> io::Result<usize> {
        let n = buf.len().min(3);
        if n > self.room {
            return Err(io::ErrorKind::StorageFull.into());
        }
        self.taken.extend_from_slice(&buf[..n])?;
        self.room -= n;
        Ok(n)
    }

    fn flush(&mut self) -> io::Result<()> {
        Ok(())
    }
}

/// Whether a writer with so much room is written to as a whole, and has so many bytes then.
fn is_taken(alloc: Global, room: usize, whole: bool, taken: usize) -> bool {
    let mut small = Small {
        taken: Vec::new(alloc),
        room,
    };
    let mut out = WriteOutlet::new(&mut small);
    let is_whole = write_whole(&mut out, b"abcdefg");
    drop(out);
    is_whole == whole && small.taken.len() == taken
}

#[test]
fn writes(rt: HostRuntime) {
    let alloc = rt.alloc();
    assert!(rt; is_taken(alloc, 7, true, 7));
    assert!(rt; is_taken(alloc, 6, false, 6));
    assert!(rt; is_taken(alloc, 0, false, 0));
}
