//! Where a program's script comes from.

use std::io::Read;
use std::{env, fs};

/// The bytes of the file that the first argument names, or else of standard input.
// No clause: what a file or standard input gives lies outside of every proof.
pub fn read_input(rt: &HostRuntime) -> anyhow::Result<Vec<u8>> {
    match env::args(rt)?.nth(1) {
        Some(path) => match fs::read(rt, path.as_str()) {
            Ok(bytes) => Ok(bytes),
            // a line of its own, with the whole path, and no `context`: that cuts a long one
            Err(e) => {
                eprintln!(rt; "cannot read {path}")?;
                Err(e.into())
            }
        },
        None => {
            let mut bytes = Vec::new(rt.alloc());
            rt.stdin().read_to_end(&mut bytes)?;
            Ok(bytes)
        }
    }
}
