//! Printing transcripts back.

ghost use Rattle.std.specs.Prelude.{◌≡◌, IfOk};
ghost use Rattle.std.specs.List.{flat_map};
ghost use Rattle.tg_trace.specs.Transcripts.{reply_text};
ghost use Rattle.tests_texts.specs.Texts.{Prints};
ghost use Rattle.tests_texts.specs.declared.form.Form.TheVariants as form;

use std::alloc::Global;
use tg_base::{List, NoMemory, TextFault};
use tg_trace::{AnyMark, print_mark, read, render};

/// The transcript that a text is, as it is printed.
///
/// # Errors
/// Those of [`read`].
pub fn transcript_again(alloc: Global, text: &[u8]) -> Result<List<u8>, TextFault>
    ensures { Prints form.Transcript text.now result }
{
    let transcript = read(alloc, text)?;
    let out = render(
        alloc,
        transcript.objects.as_slice(),
        transcript.trace.as_slice(),
        transcript.history.as_slice(),
    )?;
    Ok(out)
}

/// The lines of the replies of the transcript that a text is.
///
/// # Errors
/// Those of [`read`].
pub fn replies_again(alloc: Global, text: &[u8]) -> Result<List<u8>, TextFault>
    ensures { Prints form.Replies text.now result }
{
    let transcript = read(alloc, text)?;
    let out = replies(alloc, transcript.trace.as_slice())?;
    Ok(out)
}

// The lines of replies.
fn replies(alloc: Global, trace: &[AnyMark]) -> Result<List<u8>, NoMemory>
    ensures { IfOk result (λ out. out ≡ flat_map reply_text trace.now) }
{
    let mut out = List::new(alloc);
    for mark in trace {
        print_mark(alloc, mark, &mut out)?;
    }
    Ok(out)
}
