//! Files with awkward bytes: the line at which each is refused, or what it is read as.

use protocol_reader::{ReadError, Spelled, read};
use std::alloc::Global;
use std::process::Abort;

// Files that end before they spell a protocol, or go wrong, with the line at which they do.
const REFUSED: [(&[u8], u32); 13] = [
    (b"", 1),
    // Only an LF ends a line.
    (b"protocol\r\n\t;", 2),
    (b"protocol\r\n\tb\rc\n", 2),
    (b"protocol\r\n\tb\r;\n", 3),
    // A run of letters, digits and _ is one lexeme.
    (
        b"protocol p version 2;home{start H;state H{}}remote{start R;state R{}}\n\
claim atmost 1in H;",
        2,
    ),
    // A comment goes on to an LF or to the end of the file, whatever its bytes are.
    (b"protocol//\xff\x80\0\r\ny", 2),
    (b"///\n/", 2),
    (b"///\nprotocol", 2),
    (b"//\n//\n\nb//", 4),
    (b"//\n//\n\nprotocol//", 4),
    (b"a/b// no line feed /", 1),
    (b"protocol\nb// no line feed /", 2),
    (b"/ /", 1),
];

// What follows each of these headers.
const BODY: &[u8] = b"home{start H;state H{}}remote{start R;state R{}}";

// Headers that go wrong on their second line.
const WRONG_HEADERS: [&[u8]; 9] = [
    // Every byte that isn't a letter, a digit, _ or white space is a lexeme by itself.
    b"protocol\n2a _9;",
    b"protocol a\n\0;",
    b"protocol a\n\x0b;",
    b"protocol a\n\x7f;",
    b"protocol\n\x80z\xff;",
    b"protocol z\n\xff;",
    // One slash begins no comment.
    b"protocol\na/b// no line feed /\n;",
    b"protocol b\n/;",
    b"protocol b\n/ /\n;",
];

// Headers with the name that they give, their line, and the line on which they end.
const HEADERS: [(&[u8], &[u8], u32, u32); 5] = [
    (b"protocol\r\n\tb\r;\n", b"b", 1, 3),
    (b"protocol _9;", b"_9", 1, 1),
    (b"protocol//\xff\x80\0\r\ny;", b"y", 1, 2),
    (b"///\nprotocol p;", b"p", 2, 2),
    (b"//\n//\n\nprotocol b//\n;", b"b", 4, 5),
];

// The file of this header and the body.
fn file_of(rt: &impl Abort, alloc: Global, header: &[u8]) -> Vec<u8> {
    let mut file = Vec::new(alloc);
    file.extend_from_slice(header).expect(rt, "no memory");
    file.extend_from_slice(BODY).expect(rt, "no memory");
    file
}

// The line at which the file is refused, or 0.
fn fault_line(alloc: Global, file: &[u8]) -> u32 {
    match read(alloc, file) {
        Err(ReadError::Syntax { line }) => line,
        _ => 0,
    }
}

fn each_is_refused(rt: &impl Abort, alloc: Global) {
    for (file, line) in REFUSED {
        assert_eq!(rt; fault_line(alloc, file), line, "in {file:?}");
    }
}

fn each_header_is_refused(rt: &impl Abort, alloc: Global) {
    for header in WRONG_HEADERS {
        let file = file_of(rt, alloc, header);
        assert_eq!(rt; fault_line(alloc, &file), 2, "in {header:?}");
    }
}

// What a file of this header is read as.
fn read_behind(rt: &impl Abort, alloc: Global, header: &[u8]) -> Spelled {
    let file = file_of(rt, alloc, header);
    read(alloc, &file).expect(rt, "a protocol")
}

// That the header gives this name, and that it and the six items of the body are on these lines.
fn is_named(rt: &impl Abort, spelled: &Spelled, name: &[u8], first: u32, last: u32) {
    assert_eq!(rt; spelled.protocol.name.bytes(), name);
    let lines = [first, last, last, last, last, last, last];
    assert_eq!(rt; spelled.lines.as_slice(), lines.as_slice(), "of {name:?}");
}

fn each_header_is_read(rt: &impl Abort, alloc: Global) {
    for (header, name, first, last) in HEADERS {
        let spelled = read_behind(rt, alloc, header);
        is_named(rt, &spelled, name, first, last);
    }
}

#[test]
fn awkward_bytes(rt: HostRuntime) {
    each_is_refused(&rt, rt.alloc());
    each_header_is_refused(&rt, rt.alloc());
    each_header_is_read(&rt, rt.alloc());
}
