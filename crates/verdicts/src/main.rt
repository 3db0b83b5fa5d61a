// Prints the list of the element block on standard input; with a number from 0 to 255 as its only argument, the list under a floor of so
// many percent on distortion. With any other arguments it prints only `floor`.
#![tactic(auto)]

ghost use Rattle.std.specs.Prelude.{◌≤◌, ◌<◌, length, take};
ghost use Rattle.block.specs.Block.{place};
ghost use Rattle.verdicts.specs.Input.{ListsInput};

use floor::Profile;
use list::write_by;
use std::env::{Env, FillError};
use std::io;
use std::io::{Print, Read};
use streams::input::filled;
use text::read::{byte, only_word};

// Writes the list of an input, of which a buffer longer than any block holds the first n bytes, and answers its length.
fn list_input(bytes: &[u8], n: usize, by: Profile, out: &mut [u8]) -> usize
    requires read { (n ≤ length bytes.now) × (place 800 < length bytes.now) }
    requires room { 71680 ≤ length out.old }
    ensures text { ListsInput by bytes.now n (take result out.new) }
    ensures within { result ≤ length out.new }
{
    let r = write_by(&bytes[..n], out, by);
    r.length
}

// Prints the list by a profile.
fn print<R: Read, P: Print>(input: &mut R, to: &P, by: Profile) -> io::Result<()> {
    let mut bytes = [0u8; 65536];
    let n = filled(input, &mut bytes);
    let mut out = [0u8; 71680];
    let length = list_input(&bytes, n, by, &mut out);
    to.write_all(&out[..length])
}

// Whether the program has an argument of this number, of any length.
fn has_arg<E: Env>(env: &E, i: usize) -> bool {
    let mut word = [0u8; 16];
    match env.arg(i, &mut word) {
        Ok(_length) => true,
        Err(FillError::TooLong) => true,
        Err(_error) => false,
    }
}

// The percentage that the one argument is; none where it is no number from 0 to 255, or not the only one.
fn percent<E: Env>(env: &E) -> Option<u8> {
    if has_arg(env, 2) {
        return None;
    }
    let mut word = [0u8; 16];
    let n = env.arg(1, &mut word).unwrap_or(0);
    byte(only_word(&word[..n])?)
}

fn main(rt: HostRuntime) -> io::Result<()> {
    if !has_arg(&rt, 1) {
        return print(&mut rt.stdin(), &rt, Profile::Plain);
    }
    match percent(&rt) {
        Some(p) => print(&mut rt.stdin(), &rt, Profile::Floor(p)),
        None => rt.write_all(b"floor\n"),
    }
}
