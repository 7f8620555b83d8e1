//! Files that spell no protocol, and words of no form.

use memory_runs::{Wrong, each_file_ends, ends, over_nothing};
use rvc_top::Status;
use std::alloc::Global;

// Each file with the text that tells its fault.
const SYNTAX_FAULTS: [(&[u8], &[u8]); 21] = [
    // The file ends where it might go on.
    (b"", b"error file line 1 code 1\n"),
    (b"protocol p;\n", b"error file line 2 code 1\n"),
    (b"protocol p;\nmessage a up", b"error file line 2 code 1\n"),
    (
        b"protocol p;\nhome { start A; }\n",
        b"error file line 3 code 1\n",
    ),
    (
        b"protocol p;\nhome { start A; }\nremote { start B;\n",
        b"error file line 4 code 1\n",
    ),
    // A token that may not stand there.
    (
        b"protocol p;\nmessage a up\nhome {\n",
        b"error file line 3 code 1\n",
    ),
    (
        b"protocol p; home {\nstart A;\nvar x int 2 = 0;\n",
        b"error file line 3 code 1\n",
    ),
    (
        b"protocol p;\nhome { start A; }\nremote { start B; } }\n",
        b"error file line 3 code 1\n",
    ),
    (
        b"protocol p;home{start A;}remote{start B;}\nx",
        b"error file line 2 code 1\n",
    ),
    (b"protocol p\n-\n;\n", b"error file line 2 code 1\n"),
    (b"protocol\nhome;\n", b"error file line 2 code 1\n"),
    // Two words that touch are one.
    (b"protocolp;\n", b"error file line 1 code 1\n"),
    (
        b"protocol p;\nmessage a up int2;\n",
        b"error file line 2 code 1\n",
    ),
    // Words that are no token.
    (
        b"protocol p; message a up int\n100000;\n",
        b"error file line 2 code 1\n",
    ),
    (
        b"protocol p; message a up int\n00;\n",
        b"error file line 2 code 1\n",
    ),
    (
        b"protocol p; message a up int\n2a;\n",
        b"error file line 2 code 1\n",
    ),
    // Bytes that are no token.
    (b"\x7fELF\x02\x01\x01", b"error file line 1 code 1\n"),
    (b"protocol p;\n\0", b"error file line 2 code 1\n"),
    (b"protocol\n\xc3\xa9;", b"error file line 2 code 1\n"),
    (b"protocol p;\n\x0b", b"error file line 2 code 1\n"),
    (
        b"protocol p;\n/ message a up;",
        b"error file line 2 code 1\n",
    ),
];

// That with these words each of these files is refused so.
fn each_is_refused(alloc: Global, words: &[&str]) -> Result<(), Wrong> {
    each_file_ends(alloc, words, Status::FileRefused, &SYNTAX_FAULTS)
}

#[test]
fn print_tells_a_syntax_fault_by_its_line(rt: HostRuntime) -> Result<(), Wrong> {
    each_is_refused(rt.alloc(), &["print", "p"])
}

#[test]
fn check_tells_a_syntax_fault_by_its_line(rt: HostRuntime) -> Result<(), Wrong> {
    each_is_refused(rt.alloc(), &["check", "p"])
}

// Words that no command has, or has in another form.
const NO_FORM: [&[&str]; 26] = [
    &[],
    &["print"],
    &["print", "p", "p"],
    &["Print", "p"],
    &["", "p"],
    &["--help"],
    &["run", "M", "2", "1", "lean"],
    &["run", "M", "65", "2", "lean"],
    &["run", "M", "02", "2", "lean"],
    &["run", "M", "2", "2", "fast"],
    &["example", "other"],
    &["check"],
    &["rv", "p"],
    &["rv", "p", "2", "2"],
    &["table", "p"],
    &["table", "p", "fast"],
    &["table", "p", "Plain"],
    &["table", "p", "plain", "lean"],
    &["json", "p"],
    &["json", "lean", "p"],
    &["example"],
    &["example", "migratory", "lean"],
    &["run", "p", "1", "plain"],
    &["drive", "p", "1", "2", "plain", "6"],
    &["lossy", "p", "1", "2"],
    &["store", "p"],
];

// That these words end with a usage error, and nothing is read.
fn has_no_form(alloc: Global, words: &[&str]) -> Result<(), Wrong> {
    ends(alloc, &over_nothing(words, Status::Usage, b"error usage\n"))
}

#[test]
fn words_of_no_form_read_nothing(rt: HostRuntime) -> Result<(), Wrong> {
    for words in NO_FORM {
        has_no_form(rt.alloc(), words)?;
    }
    Ok(())
}
