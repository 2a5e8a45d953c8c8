use kp_base::{Lit, LitSet, Memory, Row, Text};
use kp_test_problems::{literal, set};
use std::alloc::{AllocError, Global};
use std::test::Fail;

// A type that reaches itself through rows.
#[derive(Debug, PartialEq, Drop)]
enum Tree {
    Leaf(u32),
    All(Row<Tree>),
}

fn copy_tree(alloc: Global, tree: &Tree) -> Result<Tree, Memory> {
    match tree {
        Tree::Leaf(number) => Ok(Tree::Leaf(*number)),
        Tree::All(parts) => {
            let mut row = Row::new(alloc);
            for part in parts.slice() {
                row.push(copy_tree(alloc, part)?)?;
            }
            Ok(Tree::All(row))
        }
    }
}

fn is_copied(alloc: Global, set: &LitSet, wanted: &[Lit]) -> Result<bool, Memory> {
    let copy = set.copy(alloc)?;
    Ok(copy.slice() == wanted)
}

#[test]
fn a_set_is_ascending_without_repeats(rt: HostRuntime) -> Result<(), Fail> {
    // Six different literals, more than lie in the set itself, and two of them twice.
    let lits = [
        (3, true),
        (1, false),
        (1, true),
        (3, true),
        (0, false),
        (7, true),
        (1, false),
        (2, false),
    ];
    let wanted = [
        literal((0, false)),
        literal((1, true)),
        literal((1, false)),
        literal((2, false)),
        literal((3, true)),
        literal((7, true)),
    ];
    let set = set(rt.alloc(), &lits)?;
    let is_wanted = set.slice() == wanted.as_slice();
    let is_copied = is_copied(rt.alloc(), &set, &wanted);
    drop(set);
    assert!(rt; is_wanted);
    assert!(rt; is_copied?);
    Ok(())
}

fn row_of(alloc: Global, bytes: &[u8]) -> Result<Row<u8>, Memory> {
    let mut row = Row::new(alloc);
    for byte in bytes {
        row.push(*byte)?;
    }
    Ok(row)
}

#[test]
fn a_row_keeps_what_is_pushed(rt: HostRuntime) -> Result<(), Fail> {
    let row = row_of(rt.alloc(), b"p_1")?;
    let is_kept = row.slice() == b"p_1".as_slice();
    let back = Row::from_vec(row.into_vec());
    let len = back.len();
    drop(back);
    assert!(rt; is_kept);
    assert_eq!(rt; len, 3);
    Ok(())
}

fn text_from(alloc: Global, bytes: &[u8]) -> Result<Text, Memory> {
    let mut text = Text::new(alloc);
    for byte in bytes {
        text.push(*byte)?;
    }
    Ok(text)
}

fn copies_text(alloc: Global, text: &Text) -> Result<bool, Memory> {
    let copy = text.copy(alloc)?;
    Ok(copy == *text)
}

#[test]
fn a_text_keeps_what_is_pushed(rt: HostRuntime) -> Result<(), Fail> {
    let text = text_from(rt.alloc(), b"p_1")?;
    let is_kept = text.slice() == b"p_1".as_slice() && text.len() == 3;
    let is_copied = copies_text(rt.alloc(), &text);
    drop(text);
    assert!(rt; is_kept);
    assert!(rt; is_copied?);
    Ok(())
}

// A leaf in a row, and another beside that row.
fn two_leaves(alloc: Global) -> Result<Tree, Memory> {
    let mut inner = Row::new(alloc);
    inner.push(Tree::Leaf(5))?;
    let mut outer = Row::new(alloc);
    outer.push(Tree::All(inner))?;
    outer.push(Tree::Leaf(6))?;
    Ok(Tree::All(outer))
}

fn copies_tree(alloc: Global, tree: &Tree) -> Result<bool, Memory> {
    let copy = copy_tree(alloc, tree)?;
    Ok(copy == *tree)
}

#[test]
fn a_tree_of_rows_is_copied(rt: HostRuntime) -> Result<(), Fail> {
    let tree = two_leaves(rt.alloc())?;
    let is_copied = copies_tree(rt.alloc(), &tree);
    drop(tree);
    assert!(rt; is_copied?);
    Ok(())
}

#[test]
fn memory_says_so(rt: HostRuntime) -> Result<(), Fail> {
    let text = format!(in rt.alloc(); "{}", Memory::from(AllocError))?;
    assert_eq!(rt; text.as_str(), "out of memory");
    Ok(())
}
