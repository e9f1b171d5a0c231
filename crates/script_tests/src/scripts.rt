//! The cases that are scripts, in this folder: `TOPIC.cqa`, for `check` `TOPIC.lrat` or `TOPIC.rewriting`, for `judge`
//! `TOPIC.groups`, for `judge ranges` `TOPIC.ranges`, and beside each the output that it has to give, `TOPIC.out`.

use crate::comparing::ends_as_wanted;
use crate::running::Case;
use std::fs::DirEntry;
use std::{fs, io};

/// How many bytes one read gives: few, so that the pieces of a script end anywhere in its words, or the most of today.
const PIECES: [usize; 4] = [1, 2, 7, 65_536];

/// The bytes of an output that are kept beside those that are wanted.
const MORE_ROOM: usize = 4096;

/// The status that a script is to end with: 1 where a line of its output is a refusal, else 0.
fn wanted_status(wanted: &[u8]) -> u8 {
    let is_refusal = |line: &[u8]| line.starts_with(b"error ") || line.starts_with(b"refused ");
    u8::from(wanted.split(|byte| *byte == b'\n').any(is_refusal))
}

/// The output that a topic's script has to give.
fn wanted_output(rt: &HostRuntime, topic: &str) -> io::Result<Vec<u8>> {
    let name = format!(in rt.alloc(); "{topic}.out")?;
    fs::read(rt, name.as_str())
}

/// Whether a script gives an output, in pieces of each size.
fn gives(
    rt: &HostRuntime,
    name: &str,
    words: &[&str],
    script: &[u8],
    wanted: &[u8],
) -> io::Result<bool> {
    for piece in PIECES {
        let case = Case {
            words,
            input: script,
            piece,
            read: 0,
            write: 0,
            room: wanted.len().saturating_add(MORE_ROOM),
            status: wanted_status(wanted),
            output: wanted,
        };
        if !ends_as_wanted(rt, name, &case)? {
            println!(rt; "{name}: in pieces of {piece} bytes")?;
            return Ok(false);
        }
    }
    Ok(true)
}

/// Whether a script gives the output that stands beside it.
fn gives_its_output(rt: &HostRuntime, name: &str, topic: &str, words: &[&str]) -> io::Result<bool> {
    let Ok(wanted) = wanted_output(rt, topic) else {
        println!(rt; "{name}: no file {topic}.out")?;
        return Ok(false);
    };
    let script = fs::read(rt, name)?;
    gives(rt, name, words, script.as_slice(), wanted.as_slice())
}

/// Whether a topic has a script.
fn has_script(rt: &HostRuntime, topic: &str) -> io::Result<bool> {
    let alloc = rt.alloc();
    let script = format!(in alloc; "{topic}.cqa")?;
    let proof = format!(in alloc; "{topic}.lrat")?;
    let certificate = format!(in alloc; "{topic}.rewriting")?;
    let groups = format!(in alloc; "{topic}.groups")?;
    let ranges = format!(in alloc; "{topic}.ranges")?;
    Ok(
        fs::exists(rt, script.as_str())?
            || fs::exists(rt, proof.as_str())?
            || fs::exists(rt, certificate.as_str())?
            || fs::exists(rt, groups.as_str())?
            || fs::exists(rt, ranges.as_str())?,
    )
}

/// Whether a file is a script that gives its output, or the output of a script. A line says why it isn't.
fn passes(rt: &HostRuntime, name: &str) -> io::Result<bool> {
    let Some((topic, kind)) = name.rsplit_once('.') else {
        println!(rt; "{name}: neither a script nor an output")?;
        return Ok(false);
    };
    if kind == "cqa" {
        return gives_its_output(rt, name, topic, &["run"]);
    }
    if kind == "lrat" || kind == "rewriting" {
        return gives_its_output(rt, name, topic, &["check"]);
    }
    if kind == "groups" {
        return gives_its_output(rt, name, topic, &["judge"]);
    }
    if kind == "ranges" {
        return gives_its_output(rt, name, topic, &["judge", "ranges"]);
    }
    let is_output = kind == "out" && has_script(rt, topic)?;
    if !is_output {
        println!(rt; "{name}: not the output of a script")?;
    }
    Ok(is_output)
}

/// Whether the file of an entry passes.
fn entry_passes(rt: &HostRuntime, entry: io::Result<DirEntry>) -> io::Result<bool> {
    let entry = entry?;
    passes(rt, entry.file_name())
}

/// How many files of this folder pass, and how many fail.
pub fn tally(rt: &HostRuntime) -> io::Result<(u64, u64)> {
    let mut passed = 0u64;
    let mut failed = 0u64;
    for entry in fs::read_dir(rt, ".")? {
        if entry_passes(rt, entry)? {
            passed = passed.saturating_add(1);
        } else {
            failed = failed.saturating_add(1);
        }
    }
    Ok((passed, failed))
}
