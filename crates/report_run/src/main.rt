// Runs the inputs of data/, 0000.in and so on up to the first number that is missing, through the same call as the report program,
// and prints each report behind its number. `stdout` holds what the users' vectors and the real blocks' files say.
#![tactic(auto)]

ghost use Rattle.std.specs.Prelude.{◌≤◌, length};

use std::fs::File;
use std::io::Read;
use std::rt::Files;

fn figure(n: u32) -> u8 {
    b'0' + (n % 10) as u8
}

// The name of input n, in the folder that the program is run in.
fn name(n: u32) -> [u8; 7] {
    [
        figure(n / 1000),
        figure(n / 100),
        figure(n / 10),
        figure(n),
        b'.',
        b'i',
        b'n',
    ]
}

// Reads until the room is full, the input ends or a read fails: how many bytes are at its start.
fn read_full<R: Read>(reader: &mut R, room: &mut [u8]) -> usize
    ensures { result ≤ length room.new }
{
    let mut done = 0;
    while done < room.len() {
        match reader.read(&mut room[done..]) {
            Ok(0) => break,
            Ok(n) => done += n,
            Err(_) => break,
        }
    }
    done
}

// The report of one file.
fn run<R: Read>(rt: &impl Print, file: &mut R) {
    let mut input = reporting::input_room();
    let got = read_full(file, &mut input);
    let mut out = reporting::output_room();
    let written = reporting::report(&input[..got], &mut out);
    let _ = rt.write_all(&out[..written]);
}

// Runs input n, if there is one.
fn run_number(rt: &(impl Files + Print), n: u32) -> bool {
    let path = name(n);
    let Ok(text) = str::from_utf8(&path) else {
        return false;
    };
    let Ok(mut file) = File::open(rt, text) else {
        return false;
    };
    let _ = rt.write_all(&path);
    let _ = rt.write_all(b"\n");
    run(rt, &mut file);
    true
}

fn main(rt: HostRuntime) {
    for n in 0..10000 {
        if !run_number(&rt, n) {
            return;
        }
    }
}
