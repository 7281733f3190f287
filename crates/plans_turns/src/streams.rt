// Standard input and standard output as the programs over plans take them, and a writer that keeps an error.
ghost use Rattle.std.specs.Prelude.{◌≡◌, ◌-◌, ◌<◌, IfOk, IfErr, IsOk, IsSome, OnOk, Ok, None, Some, false, true, length};
ghost use Rattle.std.specs.Counts.{IsPrefixLen};
ghost use Rattle.std.specs.Io.{ReadsAtMost, WritesAtMost};
ghost use Rattle.std.specs.Io.Buffered.{writer_buffer, writer_capacity, writer_contents};
ghost use Rattle.std.specs.Io.KnownBytes.{Appends, Keeps, ReadConsumes, WriteAppends};

use std::io;
use std::io::{BufWriter, Read, Write};

// The buffers of both.
pub const BUFFER: usize = 65536;

// A reader that fills what it is lent, until a read gives nothing or fails. The input is at its end when such a filling gives
// no byte at all, as a terminal may say more than once, and nothing is read after that.
#[derive(Drop)]
pub struct Filling<R> {
    pub inner: R,
    pub ended: bool,
}

impl<R> Filling<R> {
    pub fn new(inner: R) -> Filling<R>
        ensures inner { result.inner ≡ inner }
        ensures ended { result.ended ≡ false }
    {
        Filling {
            inner,
            ended: false,
        }
    }
}

// How many bytes stand at the front of `buf`.
fn fill<R: Read>(from: &mut R, buf: &mut [u8]) -> usize
    ensures { IsPrefixLen result buf.new }
{
    let mut done = 0;
    while done < buf.len() {
        let n = from.read(&mut buf[done..]).unwrap_or(0);
        if n == 0 {
            break;
        }
        done += n;
    }
    done
}

impl<R: Read> Read for Filling<R> {
    fn read(&mut self, buf: &mut [u8]) -> io::Result<usize>
        ensures bound { ReadsAtMost result buf.new }
        ensures bytes { ReadConsumes None None result buf.new }
        ensures ok { IsOk result }
        ensures after { self.old.ended ≡ true → result ≡ Ok 0 }
        ensures end { 0 < length buf.old → result ≡ Ok 0 → self.new.ended ≡ true }
    {
        if self.ended {
            return Ok(0);
        }
        let n = fill(&mut self.inner, buf);
        self.ended = n == 0 && !buf.is_empty();
        Ok(n)
    }
}

// A writer that takes all there is to write. What cannot be written is passed over.
#[derive(Drop)]
pub struct Unfailing<W> {
    pub inner: W,
}

impl<W> Unfailing<W> {
    pub fn new(inner: W) -> Unfailing<W>
        ensures { result.inner ≡ inner }
    {
        Unfailing { inner }
    }
}

impl<W: Write> Write for Unfailing<W> {
    fn write(&mut self, buf: &[u8]) -> io::Result<usize>
        ensures bound { WritesAtMost result buf.now }
        ensures bytes { WriteAppends None None result buf.now }
        ensures all { result ≡ Ok (length buf.now) }
    {
        let _ = self.inner.write_all(buf);
        Ok(buf.len())
    }

    fn flush(&mut self) -> io::Result<()>
        ensures bytes { Keeps None None }
        ensures ok { IsOk result }
    {
        let _ = self.inner.flush();
        Ok(())
    }
}

// A writer that keeps the error of a `write_all` that fails, for those who are handed less than the error.
#[derive(Drop)]
pub(crate) struct Telling<W> {
    pub inner: W,
    pub failed: Option<io::Error>,
}

impl<W> Telling<W> {
    pub fn new(inner: W) -> Telling<W>
        ensures inner { result.inner ≡ inner }
        ensures failed { result.failed ≡ None }
    {
        Telling {
            inner,
            failed: None,
        }
    }

    // The error that is kept, where there is one.
    pub fn error(&self) -> io::Error
        ensures { IsSome self.now.failed → self.now.failed ≡ Some result }
    {
        self.failed.unwrap_or(io::Error::from(io::ErrorKind::Other))
    }
}

impl<W: Write> Write for Telling<W> {
    ghost contents = { λ t. W.contents t.inner };

    fn write(&mut self, buf: &[u8]) -> io::Result<usize> {
        self.inner.write(buf)
    }

    fn flush(&mut self) -> io::Result<()> {
        self.inner.flush()
    }

    fn write_all(&mut self, buf: &[u8]) -> io::Result<()>
        ensures bytes { OnOk result (Appends (W.contents self.old.inner) (W.contents self.new.inner) buf.now) }
        ensures kept { IfErr result (λ e. self.new.failed ≡ Some e) }
    {
        let done = self.inner.write_all(buf);
        if let Err(error) = done {
            self.failed = Some(error);
        }
        done
    }
}

// A buffer that is written when it is full and more comes, in blocks of one length. `BufWriter` alone writes before a part that
// does not fit: then it would be other bytes that are lost where a write fails and the next one does not.
#[derive(Drop)]
pub struct Blocks<W: Write + Drop> {
    pub inner: BufWriter<W>,
}

impl<W: Write + Drop> Blocks<W> {
    pub fn new(inner: BufWriter<W>) -> Blocks<W>
        ensures { result.inner ≡ inner }
    {
        Blocks { inner }
    }

    // How much more the block takes.
    #[inline]
    fn room(&self) -> usize
        ensures { result ≡ writer_capacity self.now.inner - length (writer_buffer self.now.inner) }
    {
        self.inner
            .capacity()
            .saturating_sub(self.inner.buffer().len())
    }
}

impl<W: Write + Drop> Write for Blocks<W> {
    ghost contents = { λ b. writer_contents W.contents b.inner };

    fn write(&mut self, buf: &[u8]) -> io::Result<usize> {
        let room = self.room();
        let most = if room == 0 { buf.len() } else { room };
        self.inner.write(&buf[..buf.len().min(most)])
    }

    fn flush(&mut self) -> io::Result<()> {
        self.inner.flush()
    }

    #[inline(always)]
    fn write_all(&mut self, buf: &[u8]) -> io::Result<()> {
        let (first, rest) = buf.split_at(buf.len().min(self.room()));
        self.inner.write_all(first)?;
        if rest.is_empty() {
            return Ok(());
        }
        self.inner.write_all(rest)
    }
}
