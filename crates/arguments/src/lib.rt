// What the programs of stored cases share: how many words they were started with, a file and a number among these, and how much of a list of a given
// length is lent.
#![tactic(auto)]

ghost use Rattle.std.specs.Prelude.{◌≡◌, ◌≤◌, IfSome};
ghost use Rattle.io.specs.Counts.{IsPrefixLen};

use std::env::FillError;
use std::fmt::Display;
use std::io::Read;
use std::rt::{Env, Files};
use std::{fs, str};

const STDOUT: i32 = 1;

const STDERR: i32 = 2;

// How many arguments a program was started with, its own name among them. Nothing can be promised of what a program is started with.
pub fn count(rt: &impl Env) -> usize {
    for i in 0..usize::MAX {
        if is_missing(rt, i) {
            return i;
        }
    }
    usize::MAX
}

fn is_missing(rt: &impl Env, i: usize) -> bool {
    matches!(rt.arg(i, &mut [0u8; 1]), Err(FillError::NotPresent))
}

// Argument i, put at the start of a buffer; answers how long it is, or 0 where it is missing or longer than the buffer.
pub fn argument(rt: &impl Env, i: usize, word: &mut [u8]) -> usize
    ensures { IsPrefixLen result word.new }
{
    rt.arg(i, word).unwrap_or(0)
}

// The number that a word is: of a longer one the first six digits count.
fn number(word: &[u8]) -> usize {
    let mut value: usize = 0;
    for b in word {
        if value < 100000 {
            value = value * 10 + (*b % 16) as usize;
        }
    }
    value
}

// Writes a word and a blank.
fn print_word(word: &[u8]) {
    io::write_all(STDOUT, word);
    io::write_all(STDOUT, b" ");
}

// Argument i, put at the start of a buffer and printed, with a blank after it; answers how long it is.
pub fn word_at(rt: &impl Env, i: usize, word: &mut [u8]) -> usize
    ensures { IsPrefixLen result word.new }
{
    let n = argument(rt, i, word);
    print_word(&word[..n]);
    n
}

// The number that argument i is; the word is printed. Nothing can be promised of what a program is started with.
pub fn number_at(rt: &impl Env, i: usize) -> usize {
    let mut word = io::buffer();
    let n = word_at(rt, i, &mut word);
    number(&word[..n])
}

// Writes a line to standard error: the path, a colon and what failed.
fn fail<E: Display + Drop>(rt: &impl Eprint, path: &[u8], error: E) {
    io::write_all(STDERR, path);
    io::write_all(STDERR, b": ");
    let _ = rt.eprintln(error);
}

// The file of a path, open for reading. That of a path that is no text in UTF-8 cannot be opened.
fn opened<R: Files + Eprint>(rt: &R, path: &[u8]) -> Option<R::File> {
    match str::from_utf8(path) {
        Ok(name) => match fs::open(rt, name) {
            Ok(file) => Some(file),
            Err(error) => {
                fail(rt, path, error);
                None
            }
        },
        Err(error) => {
            fail(rt, path, error);
            None
        }
    }
}

// Reads until the buffer is full, the file ends or a read fails; answers how many bytes that is.
fn read_full(file: &mut impl Read, buffer: &mut [u8]) -> usize
    ensures { IsPrefixLen result buffer.new }
{
    let mut done: usize = 0;
    // A `while`: each read moves on by as many bytes as it brings.
    while done < buffer.len() {
        match file.read(&mut buffer[done..]) {
            Ok(n) if n > 0 => done += n,
            _ => break,
        }
    }
    done
}

// Reads the file of a path, as much of it as the buffer has room for; answers how many bytes that is. The path is printed, with a blank after it;
// that of a file that cannot be opened is not, and a line on standard error says why.
pub fn read_file(rt: &(impl Files + Eprint), path: &[u8], buffer: &mut [u8]) -> Option<usize>
    ensures { IfSome result (λ n. IsPrefixLen n buffer.new) }
{
    let mut file = opened(rt, path)?;
    let n = read_full(&mut file, buffer);
    print_word(path);
    Some(n)
}

// Reads the file that argument i names, as much of it as the buffer has room for; answers how many bytes that is. The word is printed, with a blank
// after it; that of a file that cannot be opened is not, and so the run is refused.
pub fn file_at(rt: &(impl Env + Files + Eprint), i: usize, buffer: &mut [u8]) -> usize
    ensures { IsPrefixLen result buffer.new }
{
    let mut path = io::buffer();
    let n = argument(rt, i, &mut path);
    read_file(rt, &path[..n], buffer).unwrap_or(0)
}

// How much is lent of a list of so many elements: what is asked, or all.
pub fn lesser(asked: usize, all: usize) -> usize
    ensures upper_bound { result ≤ all }
    ensures value { (asked ≤ all → result ≡ asked) × (all ≤ asked → result ≡ all) }
{
    asked.min(all)
}
