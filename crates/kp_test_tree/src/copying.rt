use bumpalo::Bump;
use bumpalo::collections::into_bump_slice;
use kp_base::Memory;
use kp_tree_arena::{
    AtomNode, CondNode, DomainNode, EffNode, ItemNode, LitNode, ProblemNode, SchemaNode, TypedNode,
    WordNode, copy_domain, copy_problem,
};
use kp_tree_grammar::{Domain, EffTree, ItemTree, Typed, Word};
use std::alloc::{AllocError, Global};
use std::test::Fail;

fn word<'a>(bump: &'a Bump, text: &str, byte: u32) -> Result<WordNode<'a>, AllocError> {
    let text = bump.try_alloc_str(text)?;
    Ok(WordNode { text, byte })
}

// The types above a room.
fn parents<'a>(bump: &'a Bump) -> Result<&'a [WordNode<'a>], AllocError> {
    let mut parents = Vec::new(bump);
    parents.push(word(bump, "place", 35)?)?;
    parents.push(word(bump, "thing", 41)?)?;
    Ok(into_bump_slice(parents))
}

// The domain of one type.
fn typed_domain<'a>(bump: &'a Bump) -> Result<DomainNode<'a>, AllocError> {
    let room = TypedNode {
        word: word(bump, "room", 24)?,
        kinds: parents(bump)?,
    };
    let mut kinds = Vec::new(bump);
    kinds.push(room)?;
    Ok(DomainNode {
        kinds: into_bump_slice(kinds),
        constants: &[],
        predicates: &[],
        schemas: &[],
    })
}

// The effect that deletes an atom where it holds.
fn deletion<'a>(bump: &'a Bump) -> Result<EffNode<'a>, Memory> {
    let atom = AtomNode {
        head: word(bump, "p", 60)?,
        terms: &[],
    };
    let body = bump.try_alloc(EffNode::Atom(false, atom))?;
    Ok(EffNode::When(CondNode::Atom(true, atom), body))
}

// The domain of one action, which does this.
fn deleting_domain<'a>(bump: &'a Bump) -> Result<DomainNode<'a>, Memory> {
    let action = SchemaNode {
        name: word(bump, "a", 33)?,
        params: &[],
        pre: CondNode::All(&[]),
        effect: deletion(bump)?,
    };
    let mut schemas = Vec::new(bump);
    schemas.push(action)?;
    Ok(DomainNode {
        kinds: &[],
        constants: &[],
        predicates: &[],
        schemas: into_bump_slice(schemas),
    })
}

// Whether a word has this text and stands at this byte.
fn is_at(word: &Word, text: &str, byte: u32) -> bool {
    word.text.slice() == text.as_bytes() && word.byte == byte
}

fn is_room(kind: &Typed) -> bool {
    let [place, thing] = kind.kinds.slice() else {
        return false;
    };
    is_at(&kind.word, "room", 24) && is_at(place, "place", 35) && is_at(thing, "thing", 41)
}

fn is_of_one_room(domain: &Domain) -> bool {
    match domain.kinds.slice() {
        [kind] => is_room(kind),
        _ => false,
    }
}

// A copy whose tree is in the arena.
fn typed_copy(alloc: Global, bump: &Bump) -> Result<Domain, Memory> {
    let node = typed_domain(bump)?;
    copy_domain(alloc, &node)
}

fn deletes_under_a_condition(effect: &EffTree) -> bool {
    match effect {
        EffTree::When(_, body) => matches!(**body, EffTree::Atom(false, _)),
        _ => false,
    }
}

fn is_of_one_deletion(domain: &Domain) -> bool {
    match domain.schemas.slice() {
        [schema] => {
            schema.name.text.slice() == b"a".as_slice() && deletes_under_a_condition(&schema.effect)
        }
        _ => false,
    }
}

// Whether these are one `oneof` of one literal and one literal that holds, at their places.
fn are_stated(items: &[ItemTree]) -> bool {
    match items {
        [
            ItemTree::OneOf(word, literals),
            ItemTree::Lit(positive, atom),
        ] => { word.byte == 3 && literals.len() == 1 && *positive && atom.head.byte == 7 }
        _ => false,
    }
}

#[test]
fn a_copy_outlives_its_arena(rt: HostRuntime) -> Result<(), Fail> {
    let mut bump = Bump::new(rt.alloc());
    let copied = typed_copy(rt.alloc(), &bump)?;
    let is_reset = bump.reset().is_ok();
    let is_written = word(&bump, "another word where the type was", 0).is_ok();
    let is_kept = is_of_one_room(&copied);
    drop(copied);
    drop(bump);
    assert!(rt; is_reset && is_written);
    assert!(rt; is_kept);
    Ok(())
}

#[test]
fn a_schema_is_copied(rt: HostRuntime) -> Result<(), Fail> {
    let bump = Bump::new(rt.alloc());
    let node = deleting_domain(&bump)?;
    let copied = copy_domain(rt.alloc(), &node)?;
    let is_copied = is_of_one_deletion(&copied);
    drop(copied);
    assert!(rt; is_copied);
    Ok(())
}

// Whether the items of a problem are copied in their order.
fn copies_items(alloc: Global) -> Result<bool, Memory> {
    let head = WordNode { text: "p", byte: 7 };
    let atom = AtomNode { head, terms: &[] };
    let literals = [LitNode {
        positive: false,
        atom,
    }];
    let oneof = WordNode {
        text: "oneof",
        byte: 3,
    };
    let items = [ItemNode::OneOf(oneof, &literals), ItemNode::Lit(true, atom)];
    let node = ProblemNode {
        objects: &[],
        init: &items,
        goal: CondNode::Atom(true, atom),
    };
    let copied = copy_problem(alloc, &node)?;
    let are_copied = are_stated(copied.init.slice());
    drop(copied);
    Ok(are_copied)
}

#[test]
fn items_are_copied_in_order(rt: HostRuntime) -> Result<(), Fail> {
    assert!(rt; copies_items(rt.alloc())?);
    Ok(())
}
