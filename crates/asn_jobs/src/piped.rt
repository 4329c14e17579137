//! A writer that tells whether its reader has gone.
ghost use Rattle.std.specs.Prelude.{◌≡◌, ◌≢◌, true, false, IfErr, OnOk};
ghost use Rattle.std.specs.Io.{WritesAtMost};
ghost use Rattle.std.specs.Io.KnownBytes.{Keeps, WriteAppends};
ghost use Rattle.std.specs.IoError.{error_kind};
ghost use Rattle.std.specs.declared.io.ErrorKind.TheVariants as kind;

use std::io;
use std::io::{ErrorKind, Write};

/// A writer that notes whether its reader has gone, as `head` does once it has its lines.
#[derive(Drop)]
pub struct Piped<W> {
    inner: W,
    is_closed: bool,
}

impl<W> Piped<W> {
    /// Wraps a writer whose reader is there.
    pub fn new(inner: W) -> Piped<W>
        ensures inner { result.inner ≡ inner }
        ensures open { result.is_closed ≡ false }
    {
        Piped {
            inner,
            is_closed: false,
        }
    }

    /// Whether a write was answered with a broken pipe.
    pub fn is_closed(&self) -> bool
        ensures { result ≡ self.now.is_closed }
    {
        self.is_closed
    }
}

impl<W: Write> Write for Piped<W> {
    ghost contents = { λ it. W.contents it.inner };

    fn write(&mut self, buf: &[u8]) -> io::Result<usize>
        ensures bound { WritesAtMost result buf.now }
        ensures bytes { WriteAppends (W.contents self.old.inner) (W.contents self.new.inner) result buf.now }
        ensures closes { IfErr result (λ e. error_kind e ≡ kind.BrokenPipe → self.new.is_closed ≡ true) }
        ensures stays { IfErr result (λ e. error_kind e ≢ kind.BrokenPipe
            → self.new.is_closed ≡ self.old.is_closed) }
        ensures written { OnOk result (self.new.is_closed ≡ self.old.is_closed) }
    {
        let result = self.inner.write(buf);
        let is_closed = match &result {
            Ok(_) => false,
            Err(fault) => fault.kind() == ErrorKind::BrokenPipe,
        };
        self.is_closed = self.is_closed || is_closed;
        result
    }

    fn flush(&mut self) -> io::Result<()>
        ensures bytes { Keeps (W.contents self.old.inner) (W.contents self.new.inner) }
        ensures stays { self.new.is_closed ≡ self.old.is_closed }
    {
        self.inner.flush()
    }
}
