//! Texts that are read and printed back.

ghost use Rattle.std.specs.Prelude.{◌≡◌, ℕ, Err, IfSome, OnOk};
ghost use Rattle.tg_io.specs.Faults.{Rose, StaysSure};
ghost use Rattle.tests_texts.specs.Texts.{IsOf, IsPrinted, Prints, Told};
ghost use Rattle.tests_texts.specs.declared.fault.Fault.TheVariants as fault;

use crate::fault::Fault;
use crate::form::Form;
use crate::reading::read_all;
use crate::scripts::script_again;
use crate::transcripts::{replies_again, transcript_again};
use std::alloc::Global;
use tg_base::{List, TextFault};
use tg_io::{IoErr, Sink, Source, write_all};

/// Reads a text from the source, and writes to the sink what is printed of it.
pub fn print_again<S: Source, K: Sink>(
    alloc: Global,
    form: Form,
    source: &mut S,
    sink: &mut K,
) -> Result<(), Fault>
    // What was written of a script or a transcript is the text that was read.
    ensures printed { OnOk result (Told (S.left source.old) (K.written sink.old) (K.written sink.new) (IsPrinted form)) }
    // A text is refused only where it isn't of the form.
    ensures outside { (line : ℕ) → result ≡ Err (fault.Outside line) → IfSome (S.left source.old) (λ text. IsOf form text → ⊥) }
    // A fault has its cause in a count that rose.
    ensures read_fault { result ≡ Err fault.Read → Rose (S.faults source.old) (S.faults source.new) }
    ensures write_fault { result ≡ Err fault.Write → Rose (K.faults sink.old) (K.faults sink.new) }
    // What is sure never to fail stays so.
    ensures source { StaysSure (S.sure source.old) (S.sure source.new) (S.faults source.old) (S.faults source.new) }
    ensures sink { StaysSure (K.sure sink.old) (K.sure sink.new) (K.faults sink.old) (K.faults sink.new) }
{
    let text = match read_all(alloc, source) {
        Ok(text) => text,
        Err(IoErr::Failed) => return Err(Fault::Read),
        Err(IoErr::NoMemory) => return Err(Fault::NoMemory),
    };
    let out = again(alloc, form, text.as_slice())?;
    match write_all(sink, out.as_slice()) {
        Ok(()) => Ok(()),
        Err(IoErr::Failed) => Err(Fault::Write),
        Err(IoErr::NoMemory) => Err(Fault::NoMemory),
    }
}

/// What is printed of a text.
///
/// # Errors
/// `Outside` names the first line, from 1, that may not follow the lines before it.
fn again(alloc: Global, form: Form, text: &[u8]) -> Result<List<u8>, TextFault>
    ensures { Prints form text.now result }
{
    match form {
        Form::Script => script_again(alloc, text),
        Form::Transcript => transcript_again(alloc, text),
        Form::Replies => replies_again(alloc, text),
    }
}
