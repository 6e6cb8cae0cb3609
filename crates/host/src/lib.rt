// What the programs share of the world outside: bytes and numbers on standard output, input and files read into lent memory, and the arguments.
#![tactic(auto)]

ghost use Rattle.std.specs.Prelude.{◌≡◌, ◌≤◌, length, take};
ghost use Rattle.std.specs.Io.{ReadsAtMost};

use std::io;
use std::io::Read;
use std::rt::Env;

// 4,096 zeros, which hold any path.
pub fn buffer() -> [u8; 4096]
    ensures { 4096 ≡ length result }
{
    [0; 4096]
}

// 65,536 zeros.
pub fn large_buffer() -> [u8; 65536]
    ensures { 65536 ≡ length result }
{
    [0; 65536]
}

// Writes all of some bytes, or fails.
pub fn write_all(rt: &impl Print, s: &[u8]) -> io::Result<()> {
    rt.write_all(s)
}

// Writes a number in decimal digits, with no line end.
pub fn print_decimal(rt: &impl Print, n: u64) -> io::Result<()> {
    print!(rt; "{n}")
}

// Writes a number in lower-case hexadecimal digits, with zeros in front up to `width` digits, at most 16, and with no line end.
pub fn print_hex(rt: &impl Print, n: u64, width: usize) -> io::Result<()> {
    let w = width.min(16);
    print!(rt; "{n:0w$x}")
}

// The lower-case hexadecimal digits of a byte's halves.
const DIGITS: [u8; 16] = *b"0123456789abcdef";

// Sets down the digits of the first 32 bytes, two for each.
fn put_digits(s: &[u8], digits: &mut [u8; 64]) {
    for k in 0..s.len().min(32) {
        let b = s[k];
        digits[2 * k] = DIGITS[(b / 16) as usize];
        digits[2 * k + 1] = DIGITS[(b % 16) as usize];
    }
}

// Writes bytes in lower-case hexadecimal digits, two for each, with no line end: 32 bytes by one call of the system's, so that an id takes one.
pub fn print_bytes(rt: &impl Print, s: &[u8]) -> io::Result<()> {
    let mut digits = [0u8; 64];
    for part in s.chunks(32) {
        put_digits(part, &mut digits);
        rt.write_all(&digits[..2 * part.len().min(32)])?;
    }
    Ok(())
}

// Reads until the room is full or the reader ends, and answers how many bytes it put at the room's start.
pub fn read_full<R: Read>(reader: &mut R, room: &mut [u8]) -> io::Result<usize>
    ensures { ReadsAtMost result room.new }
{
    let most = room.len();
    let mut done = 0;
    for _ in 0..most {
        if done == most {
            break;
        }
        let n = reader.read(&mut room[done..])?;
        if n == 0 {
            break;
        }
        done += n;
    }
    Ok(done)
}

// The same of standard input.
pub fn read_input(rt: &impl Input, room: &mut [u8]) -> io::Result<usize>
    ensures { ReadsAtMost result room.new }
{
    read_full(&mut rt.reader(), room)
}

// Puts an argument of the program (the first is 1) at the room's start and answers its length, 0 where it is missing or longer than the room.
pub fn argument(rt: &impl Env, i: usize, room: &mut [u8]) -> usize
    ensures bound { result ≤ length room.new }
    ensures prefix { result ≡ length (take result room.new) }
{
    match rt.arg(i, room) {
        Ok(n) => n,
        Err(_) => 0,
    }
}
