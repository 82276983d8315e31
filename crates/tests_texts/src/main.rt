//! Reads scripts and transcripts, and prints them back. `tests_texts FORM` takes standard input, and
//! `tests_texts FORM FILE FORM FILE ..` takes files. A form is `script`, `transcript`, or `replies`, which prints
//! the replies of a transcript alone. `rows` in place of a form prints what calls give that the lines of a file name.
#![tactic(auto)]

mod again;
mod bytes;
mod cut;
mod fault;
mod form;
mod hex;
mod objects;
mod reading;
mod rows;
mod scripts;
mod transcripts;
mod units;
mod words;

use crate::again::print_again;
use crate::form::Form;
use crate::rows::print_answers;
use std::process::ExitCode;
use std::{fs, io};
use tg_io::{Reading, Writing};

/// Prints the texts back that the words after the program's name tell.
fn main(rt: HostRuntime) -> io::Result<ExitCode> {
    let words: Vec<String> = std::env::args(&rt)?.skip(1).collect(rt.alloc())?;
    if let [word] = words.as_slice()
        && let Some(form) = Form::named(word.as_str())
    {
        return print_input(&rt, form);
    }
    for pair in words.as_slice().chunks(2) {
        let [word, name] = pair else {
            eprintln!(rt; "tests_texts: the words are FORM, or FORM FILE, as often as you like")?;
            return Ok(ExitCode::FAILURE);
        };
        if !prints(&rt, word.as_str(), name.as_str())? {
            return Ok(ExitCode::FAILURE);
        }
    }
    Ok(ExitCode::SUCCESS)
}

/// Prints what standard input is, read as a form.
fn print_input(rt: &HostRuntime, form: Form) -> io::Result<ExitCode> {
    let mut source = Reading::new(rt.stdin());
    let mut sink = Writing::new(rt.stdout());
    match print_again(rt.alloc(), form, &mut source, &mut sink) {
        Ok(()) => Ok(ExitCode::SUCCESS),
        Err(fault) => {
            eprintln!(rt; "tests_texts: {fault}")?;
            Ok(ExitCode::FAILURE)
        }
    }
}

/// Prints what a word makes of a file, and tells whether it could.
fn prints(rt: &HostRuntime, word: &str, name: &str) -> io::Result<bool> {
    let mut source = Reading::new(fs::open(rt, name)?);
    let mut sink = Writing::new(rt.stdout());
    let printed = match Form::named(word) {
        Some(form) => print_again(rt.alloc(), form, &mut source, &mut sink),
        None if word == "rows" => print_answers(rt.alloc(), &mut source, &mut sink),
        None => {
            eprintln!(rt; "tests_texts: {word} is no form")?;
            return Ok(false);
        }
    };
    if let Err(fault) = printed {
        eprintln!(rt; "tests_texts: {name}: {fault}")?;
        return Ok(false);
    }
    Ok(true)
}
