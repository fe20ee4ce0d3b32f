// The report program: frames on standard input, the lines of the report on standard output. What is printed, and that the first
// `INPUT` bytes decide it, is proved in crates/reporting.
#![tactic(auto)]

ghost use Rattle.std.specs.Prelude.{◌≤◌, length};

use std::io::Read;

// Reads until the room is full, the input ends or a read fails: how many bytes are at its start.
fn read_full<R: Read>(reader: &mut R, room: &mut [u8]) -> usize
    ensures { result ≤ length room.new }
{
    let mut done = 0;
    while done < room.len() {
        match reader.read(&mut room[done..]) {
            Ok(0) => break,
            Ok(n) => done += n,
            Err(_) => break,
        }
    }
    done
}

fn main(rt: HostRuntime) {
    let mut input = reporting::input_room();
    let got = read_full(&mut rt.stdin(), &mut input);
    let mut out = reporting::output_room();
    let written = reporting::report(&input[..got], &mut out);
    if rt.write_all(&out[..written]).is_err() {
        let _ = eprintln!(rt; "report: the report could not be written");
    }
}
