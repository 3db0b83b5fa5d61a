// Standard input into a room, with a read that fails told from its end.
ghost use Rattle.std.specs.Prelude.{◌≤◌, length, IfOk, IfErr};

use std::io::Read;

// A read failed behind so many bytes of a room.
#[derive(Clone, Copy)]
pub struct Failed {
    pub have: usize,
}

// Reads behind the first bytes of a room until it is full or the input ends. Answers how many bytes of the room are filled.
pub fn fill<R: Read>(input: &mut R, room: &mut [u8], from: usize) -> Result<usize, Failed>
    requires { from ≤ length room.old }
    ensures read { IfOk result (λ have. have ≤ length room.old) }
    ensures failed { IfErr result (λ f. f.have ≤ length room.old) }
{
    let mut have = from;
    while have < room.len() {
        match input.read(&mut room[have..]) {
            Ok(0) => return Ok(have),
            Ok(bytes) => have += bytes,
            Err(_error) => return Err(Failed { have }),
        }
    }
    Ok(have)
}

// The same of a room of which nothing is filled, where a read that fails is the end of the input.
pub fn filled<R: Read>(input: &mut R, room: &mut [u8]) -> usize
    ensures { result ≤ length room.old }
{
    match fill(input, room, 0) {
        Ok(have) => have,
        Err(failed) => failed.have,
    }
}
