//! A reader or writer that counts the faults that it answered.
ghost use Rattle.std.specs.Prelude.{◌≡◌, true, OnOk, OnErr, ◌≤◌, length, drop};
ghost use Rattle.std.specs.Io.{ReadsAtMost, WritesAtMost};
ghost use Rattle.std.specs.Io.KnownBytes.{Appends, Keeps, ReadConsumes, WriteAppends};
ghost use Rattle.asn_rules.specs.Faults.{inner_of, faults_of, count_after, write_failed, failed, Rose, IsBeginning};

use std::io;
use std::io::{ErrorKind, Read, Write};

/// A reader or writer, and how many faults it answered: the count stops at `u64::MAX`.
#[derive(Debug, Drop)]
pub struct Counted<T> {
    inner: T,
    faults: u64,
}

impl<T> Counted<T> {
    /// Wraps a reader or writer, with no faults yet.
    pub fn new(inner: T) -> Counted<T>
        ensures inner { inner_of result ≡ inner }
        ensures faults { faults_of result ≡ 0 }
    {
        Counted { inner, faults: 0 }
    }

    /// The number of faults it answered.
    pub fn faults(&self) -> u64
        ensures { result ≡ faults_of self.now }
    {
        self.faults
    }

    /// Unwraps the reader or writer.
    pub fn into_inner(self) -> T
        ensures { result ≡ inner_of self }
    {
        self.inner
    }

    /// Counts one more fault.
    fn count(&mut self)
        ensures inner { inner_of self.new ≡ inner_of self.old }
        ensures faults { faults_of self.new ≡ count_after true (faults_of self.old) }
    {
        self.faults = self.faults.saturating_add(1);
    }
}

impl<R: Read> Read for Counted<R> {
    ghost use Rattle.asn_rules.specs.Faults.{inner_of, faults_of, count_after};

    ghost remaining = { λ c. R.remaining (inner_of c) };

    fn read(&mut self, buf: &mut [u8]) -> io::Result<usize>
        ensures bound { ReadsAtMost result buf.new }
        ensures bytes { ReadConsumes (R.remaining (inner_of self.old)) (R.remaining (inner_of self.new))
            result buf.new }
        ensures faults { faults_of self.new ≡ count_after (failed result) (faults_of self.old) }
    {
        let result = self.inner.read(buf);
        if result.is_err() {
            self.count();
        }
        result
    }
}

impl<W: Write> Write for Counted<W> {
    ghost use Rattle.asn_rules.specs.Faults.{inner_of, faults_of, count_after, write_failed, failed, Rose, IsBeginning};

    ghost contents = { λ c. W.contents (inner_of c) };

    fn write(&mut self, buf: &[u8]) -> io::Result<usize>
        ensures bound { WritesAtMost result buf.now }
        ensures bytes { WriteAppends (W.contents (inner_of self.old)) (W.contents (inner_of self.new)) result buf.now }
        ensures faults { faults_of self.new ≡ count_after (write_failed result buf.now) (faults_of self.old) }
    {
        let result = self.inner.write(buf);
        let is_fault = match &result {
            Ok(count) => *count == 0 && !buf.is_empty(),
            Err(_) => true,
        };
        if is_fault {
            self.count();
        }
        result
    }

    fn flush(&mut self) -> io::Result<()>
        ensures bytes { Keeps (W.contents (inner_of self.old)) (W.contents (inner_of self.new)) }
        ensures faults { faults_of self.new ≡ count_after (failed result) (faults_of self.old) }
    {
        let result = self.inner.flush();
        if result.is_err() {
            self.count();
        }
        result
    }

    /// Writes all octets. A call that fails is not tried again.
    fn write_all(&mut self, buf: &[u8]) -> io::Result<()>
        ensures bytes { OnOk result (Appends (W.contents (inner_of self.old)) (W.contents (inner_of self.new))
            buf.now) }
        ensures beginning { OnErr result (IsBeginning (W.contents (inner_of self.old))
            (W.contents (inner_of self.new)) buf.now) }
        ensures fault { OnErr result (Rose (faults_of self.old) (faults_of self.new)) }
        ensures same { OnOk result (faults_of self.new ≡ faults_of self.old) }
    {
        let mut rest = buf;
        while !rest.is_empty() {
            let count = self.write(rest)?;
            if count == 0 {
                return Err(io::Error::from(ErrorKind::WriteZero));
            }
            rest = after(rest, count);
        }
        Ok(())
    }
}

/// The octets after the first `count`.
pub(crate) fn after(bytes: &[u8], count: usize) -> &[u8]
    requires { count ≤ length bytes.now }
    ensures { result.now ≡ drop count bytes.now }
{
    &bytes[count..]
}
