//! Files that have no table.

use memory_runs::{Wrong, ends, ends_by, over_file};
use rvc_top::Status;

const COMMANDS: [&str; 2] = ["table", "json"];

const NOT_SPELLED: &[u8] = b"protocol p;\n";

const NOT_WELL_FORMED: &[u8] = b"protocol p;\nhome{start H;}\nremote{start R;state R{}}";

const REFUSED: [(&str, &[u8], &[u8]); 4] = [
    ("table", NOT_SPELLED, b"error file line 2 code 1\n"),
    ("table", NOT_WELL_FORMED, b"error file line 2 code 13\n"),
    ("json", NOT_SPELLED, b"error file line 2 code 1\n"),
    ("json", NOT_WELL_FORMED, b"error file line 2 code 13\n"),
];

#[test]
fn a_refused_file_has_no_table(rt: HostRuntime) -> Result<(), Wrong> {
    for (command, file, text) in REFUSED {
        let words = [command, "p", "lean"];
        let file = [file];
        let case = over_file(&words, &file, Status::FileRefused, text);
        ends(rt.alloc(), &case)?;
    }
    Ok(())
}

#[test]
fn a_long_file_has_no_table(rt: HostRuntime) -> Result<(), Wrong> {
    let blanks = vec![in rt.alloc(); b' '; 65_537].or(Err(Wrong::NoMemory))?;
    for command in COMMANDS {
        let words = [command, "p", "lean"];
        let file = [blanks.as_slice()];
        let case = over_file(&words, &file, Status::FileRefused, b"error file too long\n");
        ends_by(rt.alloc(), &case, 4_096)?;
    }
    Ok(())
}
