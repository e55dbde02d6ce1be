// The recorded answers of the Rust, asked of this library. Its arguments are the lists, files of data/, whose README.md
// defines their format. For each list it writes the list's name, how many lines it compared and how many differed,
// and one line more for the first that did.
#![tactic(auto)]

ghost use Rattle.std.specs.Prelude.{◌≡◌, ◌-◌, length, IfOk, IfSome, take, vec_len};
ghost use Rattle.std.specs.Str.{IsCharBoundary};

use replay_list::state::State;
use replay_list::{
    File, Level1, Level2, Level3, Level4, Output, Piece, Ring, Samples, replay_in_arrays,
};
use std::alloc::Allocator;
use std::io::Read;
use std::rt::{Env, Files};
use std::{env, fs, io};

// How many bytes of a list are read at most.
const TEXT_LIMIT: u64 = 131072;

// The name of a list is its path without its last four bytes, ".txt"; all of it where no character ends before these.
fn name_of(path: &str) -> &str
    ensures cut { IsCharBoundary path.now (length path.now - 4) → result.now ≡ take (length path.now - 4) path.now }
    ensures whole { ¬ (IsCharBoundary path.now (length path.now - 4)) → result.now ≡ path.now }
{
    match path.split_at_checked(path.len().saturating_sub(4)) {
        Some((name, _)) => name,
        None => path,
    }
}

fn report(rt: &impl Print, path: &str, s: State) -> io::Result<()> {
    let name = name_of(path);
    println!(rt; "{name} {} {}", s.compared, s.different)?;
    if s.different == 0 {
        return Ok(());
    }
    println!(rt; "{name} differs first in line {}", s.first)
}

// The first bytes of a list, as many as are read of it. They are all of its text: the last line ends where they end.
fn text_of<A: Allocator, F: Read + Drop>(alloc: A, file: F) -> io::Result<Vec<u8, A>>
    ensures { IfOk result (λ text. IfSome (F.remaining file) (λ bytes. text.items ≡ take 131072 bytes)) }
{
    let mut text = Vec::new(alloc);
    file.take(TEXT_LIMIT).read_to_end(&mut text)?;
    Ok(text)
}

// The list at a path. One that cannot be opened is reported, and has no lines.
fn read<R: Files + Alloc + Eprint>(rt: &R, path: &str) -> io::Result<Vec<u8, R::A>> {
    match fs::open(rt, path) {
        Ok(file) => text_of(rt.alloc(), file),
        Err(e) => {
            eprintln!(rt; "{path}: {e}")?;
            Ok(Vec::new(rt.alloc()))
        }
    }
}

// The lists that the arguments name, one after the other. Each begins with zeros where files stand.
fn lists<R: Files + Env + Alloc + Print + Eprint>(
    rt: &R,
    samples: &mut Samples,
    l1: &mut Level1,
    l2: &mut Level2,
    l3: &mut Level3,
    l4: &mut Level4,
    ring: &mut Ring,
    output: &mut Output,
    piece: &mut Piece,
    file: &mut File,
) -> io::Result<()> {
    for path in env::args(rt)?.skip(1) {
        let text = read(rt, &path)?;
        file.fill(0);
        let s = replay_in_arrays(&text, samples, l1, l2, l3, l4, ring, output, piece, file);
        report(rt, &path, s)?;
    }
    Ok(())
}

// The array that a Vec as long holds.
fn array<T, const N: usize>(numbers: &mut Vec<T>) -> &mut [T; N]
    requires { vec_len numbers.old ≡ N }
    ensures { result.now ≡ numbers.old.items }
{
    numbers.as_mut_array().unwrap()
}

// What is lent is too large for the stack.
fn main(rt: HostRuntime) -> io::Result<()> {
    let mut samples = vec![in rt.alloc(); 0; 4194304]?;
    let mut l1 = vec![in rt.alloc(); 0; 655360]?;
    let mut l2 = vec![in rt.alloc(); 0; 20480]?;
    let mut l3 = vec![in rt.alloc(); 0; 640]?;
    let mut l4 = vec![in rt.alloc(); 0; 20]?;
    let mut ring = vec![in rt.alloc(); 0; 524288]?;
    let mut output = vec![in rt.alloc(); 0; 131074]?;
    let mut piece = vec![in rt.alloc(); 0; 65536]?;
    let mut file = vec![in rt.alloc(); 0; 65536]?;
    lists(
        &rt,
        array(&mut samples),
        array(&mut l1),
        array(&mut l2),
        array(&mut l3),
        array(&mut l4),
        array(&mut ring),
        array(&mut output),
        array(&mut piece),
        array(&mut file),
    )
}
