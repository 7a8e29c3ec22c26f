// Texts made by hand, each with its outcome: the number of nodes, or the fault and its place.
use crate::fault::TextFault;
use crate::fault::TextFault::{Broken, Limit};
use crate::node::Node;
use crate::part::Part;
use crate::read_text;
use crate::reader::Reader;
use crate::token::Token;
use crate::tree::Tree;
use std::alloc::{AllocError, Global};
use std::process::Abort;
use std::test::Fail;

// The number of nodes, or the fault.
fn outcome(heap: Global, text: &[u8]) -> Result<usize, TextFault> {
    let root = read_text(heap, text)?;
    Ok(nodes(&root))
}

// How many nodes a tree has.
fn nodes(root: &Tree) -> usize {
    let mut count: usize = 1;
    if let Tree::Bracket { parts, .. } = root {
        for part in parts {
            count = count.saturating_add(nodes(part));
        }
    }
    count
}

// The text is read, into this many nodes.
fn reads(rt: &impl Abort, heap: Global, text: &[u8], nodes: usize) {
    assert_eq!(rt; outcome(heap, text), Ok(nodes));
}

// The text is broken at this place.
fn breaks(rt: &impl Abort, heap: Global, text: &[u8], at: usize) {
    assert_eq!(rt; outcome(heap, text), Err(Broken { at }));
}

// Brackets in brackets.
fn deep(
    rt: &impl Abort,
    heap: Global,
    depth: usize,
    expected: Result<usize, TextFault>,
) -> Result<(), Fail> {
    let text = nested(heap, depth)?;
    assert_eq!(rt; outcome(heap, text.as_slice()), expected);
    Ok(())
}

// Parts under one bracket.
fn wide(
    rt: &impl Abort,
    heap: Global,
    parts: usize,
    expected: Result<usize, TextFault>,
) -> Result<(), Fail> {
    let text = flat(heap, parts)?;
    assert_eq!(rt; outcome(heap, text.as_slice()), expected);
    Ok(())
}

// A long quoted text.
fn lengthy(
    rt: &impl Abort,
    heap: Global,
    inside: usize,
    end: &[u8],
    expected: Result<usize, TextFault>,
) -> Result<(), Fail> {
    let text = long(heap, inside, end)?;
    assert_eq!(rt; outcome(heap, text.as_slice()), expected);
    Ok(())
}

// `(a` as often as told, and as many closing brackets.
fn nested(heap: Global, depth: usize) -> Result<Vec<u8>, AllocError> {
    let mut text = Vec::new(heap);
    for _ in 0..depth {
        text.extend_from_slice(b"(a")?;
    }
    for _ in 0..depth {
        text.push(b')')?;
    }
    Ok(text)
}

// One bracket with as many integers as told.
fn flat(heap: Global, parts: usize) -> Result<Vec<u8>, AllocError> {
    let mut text = Vec::new(heap);
    text.extend_from_slice(b"(a")?;
    for _ in 0..parts {
        text.extend_from_slice(b" 1")?;
    }
    text.push(b')')?;
    Ok(text)
}

// A first quote, as many bytes as told, and an end.
fn long(heap: Global, inside: usize, end: &[u8]) -> Result<Vec<u8>, AllocError> {
    let mut text = Vec::new(heap);
    text.push(b'"')?;
    for _ in 0..inside {
        text.push(b'x')?;
    }
    text.extend_from_slice(end)?;
    Ok(text)
}

// Terms, with blanks around them or none.
#[test]
fn terms(rt: HostRuntime) {
    let heap = rt.alloc();
    reads(&rt, heap, b"\"a\"", 1);
    reads(&rt, heap, b" \t\r\n\"\" ", 1);
    reads(&rt, heap, b"4294967295", 1);
    reads(&rt, heap, b"0004294967295\n", 1);
    reads(&rt, heap, b"(comm 1\"m\"\"h\"\"n\")", 5);
}

// Brackets, and symbols of any bytes.
#[test]
fn brackets(rt: HostRuntime) {
    let heap = rt.alloc();
    reads(&rt, heap, b"( tuple \"a\")", 2);
    reads(&rt, heap, b"(12 \"a\")", 2);
    reads(&rt, heap, b"(a\\\x00\xff(b)(c))", 3);
    reads(&rt, heap, b"(a(b 1)2)", 4);
}

// Texts without a term, and an unfinished one.
#[test]
fn no_term(rt: HostRuntime) {
    let heap = rt.alloc();
    breaks(&rt, heap, b"", 0);
    breaks(&rt, heap, b"  ", 2);
    breaks(&rt, heap, b"x", 0);
    breaks(&rt, heap, b")", 0);
}

// Brackets that lack something.
#[test]
fn no_symbol(rt: HostRuntime) {
    let heap = rt.alloc();
    breaks(&rt, heap, b"()", 1);
    breaks(&rt, heap, b"( \"a\")", 2);
    breaks(&rt, heap, b"(a", 2);
    breaks(&rt, heap, b"(a x)", 3);
}

// Quoted texts and integers that break.
#[test]
fn bad_tokens(rt: HostRuntime) {
    let heap = rt.alloc();
    breaks(&rt, heap, b"\"ab", 3);
    breaks(&rt, heap, b"\"a\\b\"", 2);
    breaks(&rt, heap, b"12x", 2);
    breaks(&rt, heap, b"4294967296", 9);
}

// More than one term.
#[test]
fn trailing(rt: HostRuntime) {
    let heap = rt.alloc();
    breaks(&rt, heap, b"12(a)", 2);
    breaks(&rt, heap, b"(a) (b\\", 4);
    breaks(&rt, heap, b"1)", 1);
}

// Thirty-two levels and four thousand parts under one bracket read alike: reading does not call itself.
#[test]
fn deep_and_wide(rt: HostRuntime) -> Result<(), Fail> {
    let heap = rt.alloc();
    deep(&rt, heap, 32, Ok(32))?;
    deep(&rt, heap, 33, Err(Limit { at: 64 }))?;
    wide(&rt, heap, 4000, Ok(4001))?;
    wide(&rt, heap, 4095, Ok(4096))?;
    wide(&rt, heap, 4096, Err(Limit { at: 8193 }))
}

// Texts about as long as a text may be.
#[test]
fn long_texts(rt: HostRuntime) -> Result<(), Fail> {
    let heap = rt.alloc();
    lengthy(&rt, heap, 65533, b"\"", Ok(1))?;
    lengthy(&rt, heap, 65533, b"\" ", Err(Limit { at: 65535 }))?;
    lengthy(&rt, heap, 65533, b"\"x", Err(Broken { at: 65535 }))?;
    lengthy(&rt, heap, 65534, b"\\", Err(Broken { at: 65535 }))?;
    lengthy(&rt, heap, 65600, b"\"", Err(Limit { at: 65535 }))
}

// Where the first node of a tree stands, the number after its last part if the nodes are numbered from the first on, and the
// place and length of its symbol or quoted text, or its value.
fn shown(tree: &Tree, number: usize) -> (usize, usize, usize, usize) {
    let end = nodes(tree).saturating_add(number);
    match tree.node() {
        Node::Quoted { at, inside } => (at, end, inside.at, inside.len),
        Node::Integer { at, value } => (at, end, value as usize, 0),
        Node::Bracket { at, symbol, .. } => (at, end, symbol.at, symbol.len),
    }
}

// The parts of a bracket.
fn parts_of(tree: &Tree) -> &[Tree] {
    match tree.node() {
        Node::Bracket { parts, .. } => parts,
        _ => &[],
    }
}

// A text with each kind of node, and its nodes.
const EACH_KIND: &[u8] = b" ( ab (c 7)\"de\" )";

fn has_each_kind(rt: &impl Abort, root: &Tree) {
    assert!(rt; nodes(root) == 4);
    assert_eq!(rt; shown(root, 0), (1, 4, 3, 2));
    let parts = parts_of(root);
    assert!(rt; parts.len() == 2);
    assert_eq!(rt; shown(&parts[0], 1), (6, 3, 7, 1));
    let inner = parts_of(&parts[0]);
    assert!(rt; inner.len() == 1);
    assert_eq!(rt; shown(&inner[0], 2), (9, 3, 7, 0));
    assert_eq!(rt; shown(&parts[1], 3), (11, 4, 12, 2));
}

#[test]
fn rows(rt: HostRuntime) -> Result<(), Fail> {
    let root = read_text(rt.alloc(), EACH_KIND)?;
    has_each_kind(&rt, &root);
    Ok(())
}

// A node can be copied, and the copy shows the same.
#[test]
fn copied(rt: HostRuntime) -> Result<(), Fail> {
    let root = read_text(rt.alloc(), EACH_KIND)?;
    let node = root.node();
    let copy = node;
    assert!(rt; matches!(node, Node::Bracket { at: 1, parts, .. } if parts.len() == 2));
    assert!(rt; matches!(copy, Node::Bracket { at: 1, parts, .. } if parts.len() == 2));
    Ok(())
}

// A clone has the same nodes, also where the first tree is gone.
#[test]
fn cloned(rt: HostRuntime) -> Result<(), Fail> {
    let root = read_text(rt.alloc(), EACH_KIND)?;
    let clone = root.clone()?;
    drop(root);
    has_each_kind(&rt, &clone);
    Ok(())
}

// A part of a text, also where it reaches past the end.
#[test]
fn parts(rt: HostRuntime) {
    let text: &[u8] = b"abcd";
    assert!(rt; Part { at: 1, len: 2 }.of(text) == &text[1..3]);
    assert!(rt; Part { at: 3, len: 5 }.of(text) == &text[3..4]);
    assert!(rt; Part { at: 9, len: 1 }.of(text).is_empty());
}

// Tokens, and where the reader stands: a fault leaves it in its place.
#[test]
fn tokens(rt: HostRuntime) {
    let mut reader = Reader::new(b" (a\"b\")");
    assert!(rt; matches!(reader.next(true), Err(Limit { at: 1 })));
    assert_eq!(rt; reader.at, 0);
    assert!(rt; matches!(reader.next(false), Ok(Token::Open { at: 1, .. })));
    assert_eq!(rt; reader.at, 3);
    assert!(rt; matches!(reader.next(false), Ok(Token::Quoted { at: 3, .. })));
    assert!(rt; matches!(reader.next(true), Ok(Token::Close { at: 6 })));
    assert_eq!(rt; reader.after_blanks(), 7);
}
