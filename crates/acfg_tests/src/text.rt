//! Outside examples of the Protocol Buffers text format, and each public call with ample memory.

use acfg_text::*;
use std::alloc::Global;
use std::process::Abort;

// What is printed of the tree that a text spells; nothing where it is refused.
fn printed(alloc: Global, source: &[u8]) -> Option<Vec<u8>> {
    let tree = read_tree(alloc, source).ok()?;
    print_tree(alloc, &tree).ok()
}

fn prints_as(rt: &impl Abort, alloc: Global, source: &[u8], line: &[u8]) {
    match printed(alloc, source) {
        Some(text) => assert!(rt; text.as_slice() == line),
        None => panic!(rt; "refused"),
    }
}

// Where a text is refused, and why.
fn fault_of(alloc: Global, source: &[u8]) -> Option<TextFault> {
    match read_tree(alloc, source) {
        Ok(_) => None,
        Err(fault) => Some(fault),
    }
}

#[test]
fn texts_are_printed_as_one_line(rt: HostRuntime) {
    let rows: [(&[u8], &[u8]); 12] = [
        (b"", b""),
        (b"a:1,b<c:'x\"'>", b"a: 1 b { c: \"x\\\"\" }"),
        (
            b"package: \"com.\" 'a' # c\ncontainer: \"c\";",
            b"package: \"com.a\" container: \"c\"",
        ),
        (
            b"f < n: \"\\x66\" d: 'it\\'s' b: [ \"b1\" ] > # end",
            b"f { n: \"f\" d: \"it's\" b: [\"b1\"] }",
        ),
        (b"a{}b:{}c<>", b"a { } b { } c { }"),
        (b"a[]b:[]", b"a: [] b: []"),
        (b"a[{b:1},<>]", b"a: [{ b: 1 }, { }]"),
        (b"a:[1permission, x, {}]", b"a: [1permission, x, { }]"),
        (
            b"a:\"\\a\\b\\t\\n\\v\\f\\r\\?\\\\\\'\\\"\"",
            b"a: \"\\007\\010\\011\\012\\013\\014\\015?\\\\'\\\"\"",
        ),
        (b"a:'\\0\\18\\101\\377' 'x'", b""),
        (b"a:'\\x4\\X41g\\1012'", b"a: \"\\004AgA2\""),
        (
            b"a:'\\u00e9\\U0001F600'",
            b"a: \"\\303\\251\\360\\237\\230\\200\"",
        ),
    ];
    for (source, line) in rows {
        if line.is_empty() && !source.is_empty() {
            assert!(rt; printed(rt.alloc(), source).is_none());
        } else {
            prints_as(&rt, rt.alloc(), source, line);
        }
    }
}

fn refused_at(rt: &impl Abort, alloc: Global, source: &[u8], place: usize, what: TextWhat) {
    match fault_of(alloc, source) {
        Some(fault) => assert!(rt; fault == TextFault::At(place, what)),
        None => panic!(rt; "not refused"),
    }
}

#[test]
fn faults_of_tokens_are_told_at_their_place(rt: HostRuntime) {
    let rows: [(&[u8], usize, TextWhat); 14] = [
        (b"a $", 2, TextWhat::BadByte),
        (b"a: .5", 3, TextWhat::BadByte),
        (b"a: 'x", 3, TextWhat::OpenString),
        (b"a: 'x\ny'", 3, TextWhat::OpenString),
        (b"'\\", 0, TextWhat::OpenString),
        (b"'\\\n'", 0, TextWhat::OpenString),
        (b"'\\q", 1, TextWhat::BadEscape),
        (b"a: 'x\\q'", 5, TextWhat::BadEscape),
        (b"'\\x'", 1, TextWhat::BadEscape),
        (b"'\\400'", 1, TextWhat::BadEscape),
        (b"'\\u12'", 1, TextWhat::BadEscape),
        (b"'\\ud800'", 1, TextWhat::BadEscape),
        (b"'\\U00110000'", 1, TextWhat::BadEscape),
        (b"[ $ '\\q'", 2, TextWhat::BadByte),
    ];
    for (source, place, what) in rows {
        refused_at(&rt, rt.alloc(), source, place, what);
    }
}

#[test]
fn faults_of_the_grammar_are_told_at_their_place(rt: HostRuntime) {
    let rows: [(&[u8], usize, TextWhat); 14] = [
        (b"1", 0, TextWhat::Unexpected),
        (b",a:1", 0, TextWhat::Unexpected),
        (b"a", 1, TextWhat::Unexpected),
        (b"a: b c", 6, TextWhat::Unexpected),
        (b"a 'x'", 2, TextWhat::Unexpected),
        (b"a:1,;", 4, TextWhat::Unexpected),
        (b"a[1]", 2, TextWhat::Unexpected),
        (b"a:[1 2]", 5, TextWhat::Unexpected),
        (b"a:[1,]", 5, TextWhat::Unexpected),
        (b"a:[[", 3, TextWhat::Unexpected),
        (b"a{b:1>", 5, TextWhat::Unexpected),
        (b"a{", 2, TextWhat::Unexpected),
        (b"a: '\\377'", 3, TextWhat::BadUtf8),
        (b"a: '\\303' 'x' 1", 3, TextWhat::BadUtf8),
    ];
    for (source, place, what) in rows {
        refused_at(&rt, rt.alloc(), source, place, what);
    }
}

#[test]
fn thirty_two_messages_may_be_open(rt: HostRuntime) {
    let source = b"a{a{a{a{a{a{a{a{a{a{a{a{a{a{a{a{a{a{a{a{a{a{a{a{a{a{a{a{a{a{a{a{a{";
    refused_at(&rt, rt.alloc(), source, 65, TextWhat::TooDeep);
    refused_at(&rt, rt.alloc(), &source[..64], 64, TextWhat::Unexpected);
}

#[test]
fn tokens_are_slices(rt: HostRuntime) {
    let source = b"ab 1.x# c\n'd' :";
    match tokens(rt.alloc(), source) {
        Ok(found) => {
            assert_eq!(rt; found.len(), 4);
            assert!(rt; found[0].kind == TokenKind::Word && found[0].text == b"ab".as_slice());
            assert!(rt; found[1].kind == TokenKind::Number && found[1].place == 3);
            assert!(rt; found[2].kind == TokenKind::Quoted && found[2].text == b"'d'".as_slice());
            assert!(rt; found[3].kind == TokenKind::Symbol && found[3].place == 14);
        }
        Err(_) => panic!(rt; "refused"),
    }
}
