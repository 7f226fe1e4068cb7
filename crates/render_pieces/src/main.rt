//! Renders the program of its folder `data` in pieces of 1, of 7 and of 4,096 samples, and tells
//! whether it made the same samples, the same text and the same wakes, whatever the pieces.
#![tactic(auto)]

mod compiling;
mod rendering;

use crate::compiling::machine;
use crate::rendering::{Told, render};
use anyhow::{Result, bail};
use ck_edges::DiskShelf;
use command_inputs::read_files;
use std::process::ExitCode;

/// Tells in a line whether two lists are alike.
fn compare<R: Print, T: PartialEq>(
    rt: &R,
    piece: u32,
    what: &str,
    one: &[T],
    other: &[T],
) -> Result<bool> {
    let same = one == other;
    let word = if same { "the same" } else { "other" };
    println!(rt; "pieces of {piece}: {word} {} {what}", other.len())?;
    Ok(same)
}

/// Tells of each of the three lists whether these pieces made it as pieces of 1 do.
fn compare_all<R: Print>(rt: &R, piece: u32, one: &Told, other: &Told) -> Result<bool> {
    let samples = compare(rt, piece, "samples", &one.samples, &other.samples)?;
    let text = compare(rt, piece, "bytes of text", &one.text, &other.text)?;
    let wakes = compare(rt, piece, "wakes", &one.wakes, &other.wakes)?;
    Ok(samples && text && wakes)
}

fn main(rt: HostRuntime) -> Result<ExitCode> {
    let alloc = rt.alloc();
    let names = [String::from_str(alloc, "voices.ck")?];
    let Ok(files) = read_files(alloc, &names, &mut DiskShelf::new(&rt)) else {
        bail!("the file can't be read");
    };
    let one = render(alloc, machine(alloc, &names, &files)?, 1)?;
    let mut same = true;
    for piece in [7, 4096] {
        let other = render(alloc, machine(alloc, &names, &files)?, piece)?;
        same = compare_all(&rt, piece, &one, &other)? && same;
    }
    Ok(ExitCode::from(u8::from(!same)))
}
