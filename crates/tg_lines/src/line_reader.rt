//! The lines of a text that comes in pieces.

ghost use Rattle.std.specs.Prelude.{◌≡◌, ◌≤◌, ◌<◌, ◌+◌, ◌==◌, ◌∷◌, List, [], length, position, true, false, IfOk, IfSome, IsErrOf, OnErr};
ghost use Rattle.tg_io.specs.Bytes.{Gives, Grows};
ghost use Rattle.tg_io.specs.Faults.{HasCause, StaysSure};
ghost use Rattle.tg_io.specs.declared.fault.IoErr.TheVariants.{Failed};
ghost use Rattle.tg_lines.specs.Feeds.{TakesFeeds};
ghost use Rattle.tg_lines.specs.Lines.{IsTaken, IsUnbroken, TakesLine, ahead, last_of};
ghost use Rattle.tg_lines.specs.Reads.{ReadsLine};

use std::alloc::Global;
use std::marker::Model;
use tg_base::{List, NoMemory};
use tg_io::{IoErr, Source};

/// How many bytes are read at once.
const PIECE: usize = 4096;

/// Reads a source line by line. It stands for the bytes that were read and aren't part of a line yet.
#[derive(Drop)]
pub struct LineReader {
    piece: [u8; PIECE],
    from: usize,
    to: usize,
}

impl Model for LineReader {
    ghost use Rattle.std.specs.Prelude.{ℕ, List};
    ghost use Rattle.tg_lines.specs.Lines.{held, IsPiece};

    ghost Value = { List ℕ };

    ghost view = { λ r. held r.piece r.from r.to };

    ghost invariant = { λ r. IsPiece r.piece r.from r.to };
}

impl LineReader {
    /// Nothing was read.
    pub fn new() -> LineReader
        ensures { result ≡ [] }
    {
        LineReader {
            piece: [0; PIECE],
            from: 0,
            to: 0,
        }
    }

    /// The next line, without its line feed, which the last line may lack. `None` is the end of the text.
    ///
    /// An `Err` is a fault of the source, or want of memory; a part of a line may be lost then.
    pub fn next<S: Source>(
        &mut self,
        alloc: Global,
        source: &mut S,
    ) -> Result<Option<List<u8>>, IoErr>
        ensures line { IfOk result (TakesLine (ahead self.old (S.left source.old)) (ahead self.new (S.left source.new))) }
        // Each line makes what may come less.
        ensures less { IfOk result (λ line. IfSome line (λ l. length self.new + S.room source.new < length self.old + S.room source.old)) }
        ensures cause { HasCause (S.faults source.old) (S.faults source.new) result }
        ensures sure { StaysSure (S.sure source.old) (S.sure source.new) (S.faults source.old) (S.faults source.new) }
        // A line at hand is given without a read, and no read follows the one that brings its line feed.
        ensures at_hand { (IsUnbroken self.old → ⊥) → source.new ≡ source.old }
        ensures reads { IfOk result (ReadsLine self.old self.new (S.pieces source.old) (S.pieces source.new)) }
        ensures still { IfOk result (λ _. S.faults source.new ≡ S.faults source.old) }
        // What is taken has one line feed at most, and none where the source fails.
        ensures feeds { IfOk result (λ line. TakesFeeds 1 (ahead self.old (S.left source.old)) (ahead self.new (S.left source.new))) }
        ensures first { IsErrOf result Failed → TakesFeeds 0 (ahead self.old (S.left source.old)) (S.left source.new) }
    {
        let mut line = List::new(alloc);
        loop {
            if self.take(&mut line)? {
                return Ok(Some(line));
            }
            if !self.fill(source)? {
                return Ok(ended(line));
            }
        }
    }

    // Puts the bytes at hand last, up to a line feed, which is taken too; tells whether there was one.
    fn take(&mut self, line: &mut List<u8>) -> Result<bool, NoMemory>
        ensures { IfOk result (IsTaken self.old self.new line.old line.new) }
    {
        let rest = &self.piece[self.from..self.to];
        match line_end(rest) {
            Some(at) => {
                line.extend(&rest[..at])?;
                self.from += at + 1;
                Ok(true)
            }
            None => {
                line.extend(rest)?;
                self.from = self.to;
                Ok(false)
            }
        }
    }

    // Reads the next piece; tells whether there was one.
    fn fill<S: Source>(&mut self, source: &mut S) -> Result<bool, IoErr>
        ensures given { IfOk result (λ some. Gives (S.left source.old) self.new (S.left source.new)) }
        ensures some { IfOk result (λ some. some ≡ true → 0 < length self.new) }
        ensures none { IfOk result (λ some. some ≡ false → self.new ≡ []) }
        ensures end { IfOk result (λ some. some ≡ false → IfSome (S.left source.old) (λ bytes. bytes ≡ [])) }
        ensures room { IfOk result (λ some. S.room source.new + length self.new ≡ S.room source.old) }
        ensures cause { HasCause (S.faults source.old) (S.faults source.new) result }
        ensures sure { StaysSure (S.sure source.old) (S.sure source.new) (S.faults source.old) (S.faults source.new) }
        ensures piece { IfOk result (λ some. Grows (S.pieces source.old) (self.new ∷ []) (S.pieces source.new)) }
        ensures still { IfOk result (λ some. S.faults source.new ≡ S.faults source.old) }
        ensures kept { OnErr result (S.left source.new ≡ S.left source.old) }
    {
        let count = source.read(&mut self.piece)?;
        self.from = 0;
        self.to = count;
        Ok(count > 0)
    }
}

// The place of the first line feed.
fn line_end(bytes: &[u8]) -> Option<usize>
    ensures { result ≡ position (λ b. b == 10) bytes.now }
{
    bytes.iter().position(|byte| *byte == b'\n')
}

// The last line of a text, if its last line feed isn't its end.
fn ended(line: List<u8>) -> Option<List<u8>>
    ensures { result ≡ last_of line }
{
    if line.is_empty() {
        return None;
    }
    Some(line)
}

/// All bytes of a source, to its end. An `Err` is a fault of the source, or want of memory.
pub fn read_all<S: Source>(alloc: Global, source: &mut S) -> Result<List<u8>, IoErr>
    ensures read { IfSome (S.left source.old) (λ bytes. IfOk result (λ text. text ≡ bytes)) }
    ensures cause { HasCause (S.faults source.old) (S.faults source.new) result }
    ensures sure { StaysSure (S.sure source.old) (S.sure source.new) (S.faults source.old) (S.faults source.new) }
    // The count of faults rises only where a fault, or want of memory, is answered.
    ensures still { IfOk result (λ _. S.faults source.new ≡ S.faults source.old) }
{
    let mut text = List::new(alloc);
    let mut piece = [0; PIECE];
    loop {
        let count = source.read(&mut piece)?;
        if count == 0 {
            return Ok(text);
        }
        text.extend(&piece[..count])?;
    }
}
