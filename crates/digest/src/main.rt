// The program: formats standard input with the empty option block, and writes the digest or, where the call refuses, the code and N. A
// digest may read like a refusal, and the program has no exit status to tell them apart by: so where standard output has no whole digest it
// also says so on standard error, where nothing of the notes goes.
#![tactic(auto)]

ghost use Rattle.std.specs.Prelude.{◌≤◌, length, IfOk};

use std::io;
use std::io::{Read, Write};

// As many of the output's bytes as an answer counts; all of them where it counts more or refuses.
fn counted(n: u64, output: &[u8]) -> usize
    ensures { result ≤ length output.now }
{
    n.min(output.len() as u64) as usize
}

// Measures, and writes with as much room as is needed, if it is there. What measuring refuses, writing refuses with any room.
fn ask(notes: &[u8], output: &mut [u8]) -> u64 {
    let room = counted(rudignals::rudignals_measure(b"", notes), output);
    rudignals::rudignals_write(b"", notes, &mut output[..room])
}

// Reads until there is no more room or the input ends, and answers how many bytes were read. A terminal is not asked again where it has
// ended, since it would wait for another line.
fn read_full(from: &mut impl Read, bytes: &mut [u8]) -> io::Result<usize>
    ensures { IfOk result (λ n. n ≤ length bytes.new) }
{
    let mut done = 0;
    while done < bytes.len() {
        let n = from.read(&mut bytes[done..])?;
        if n == 0 {
            break;
        }
        done += n;
    }
    Ok(done)
}

// Standard error has it even where standard output takes nothing.
fn refused(rt: &(impl Print + Eprint), code: u64, value: u64) -> io::Result<()> {
    let _ = println!(rt; "refused {code} {value}");
    eprintln!(rt; "digest: the notes were refused")
}

fn main(rt: HostRuntime) -> io::Result<()> {
    // One byte more than the call takes, so that notes that are too long are seen to be.
    let mut notes = [0u8; 65537];
    let mut output = [0u8; 65536];
    let Ok(n) = read_full(&mut rt.stdin(), &mut notes) else {
        return eprintln!(rt; "digest: standard input could not be read");
    };
    let answer = ask(&notes[..n], &mut output);
    let code = answer / 0x1_0000_0000;
    let value = answer % 0x1_0000_0000;
    if code != 0 {
        return refused(&rt, code, value);
    }
    let done = counted(value, &output);
    if rt.stdout().write_all(&output[..done]).is_err() {
        return eprintln!(rt; "digest: standard output could not be written");
    }
    Ok(())
}
