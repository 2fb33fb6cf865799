//! Readers and writers with their faults and flushes counted. They pass each call on, hand back its
//! answer as it is, and count the answers that are faults. A fault is a failure where it is not tried
//! again: each is one but an interrupted read or write.
ghost use Rattle.std.specs.Prelude.{◌≡◌, ◌+◌, ◌-◌, ◌^◌, ◌<◌, false, min, not};
ghost use Rattle.std.specs.Io.{ReadsAtMost, WritesAtMost};
ghost use Rattle.std.specs.Io.KnownBytes.{Keeps, ReadConsumes, WriteAppends};
ghost use Rattle.counted_io.specs.Counted.{inner_of, faults_of, failures_of, flushes_of, is_flushed};
ghost use Rattle.counted_io.specs.DeviceFaults.{is_error, is_interruption, is_read_failure};
ghost use Rattle.counted_io.specs.DeviceFaults.{is_write_failure, is_write_fault, one_if, one_more_if};
ghost use Rattle.std.specs.IoError.{error_kind};

use std::io;
use std::io::{ErrorKind, Read, Write};

/// A reader or a writer, and how many of its calls were faults.
#[derive(Drop)]
pub struct Counted<D> {
    inner: D,
    faults: u64,
    /// How many of its faults were failures, up to the largest number.
    failures: u64,
    /// How often it was flushed, up to the largest number.
    flushes: u64,
    /// Whether its last flush succeeded, and no write was tried since.
    is_flushed: bool,
}

impl<D> Counted<D> {
    /// A reader or a writer that has had no fault.
    pub fn new(inner: D) -> Counted<D>
        ensures inner { inner_of result ≡ inner }
        ensures faults { faults_of result ≡ 0 }
        ensures failures { failures_of result ≡ 0 }
        ensures flushes { flushes_of result ≡ 0 }
        ensures flushed { is_flushed result ≡ false }
    {
        Counted {
            inner,
            faults: 0,
            failures: 0,
            flushes: 0,
            is_flushed: false,
        }
    }

    /// What is wrapped.
    pub fn inner(&self) -> &D
        ensures { result.now ≡ inner_of self.now }
    {
        &self.inner
    }

    /// What is wrapped, back again.
    pub fn into_inner(self) -> D
        ensures { result ≡ inner_of self }
    {
        let Counted { inner, .. } = self;
        inner
    }

    /// How many calls were faults.
    pub fn faults(&self) -> u64
        ensures { result ≡ faults_of self.now }
    {
        self.faults
    }

    // Counts a call, if it was a fault or even a failure.
    fn count(&mut self, is_fault: bool, is_failure: bool)
        requires { faults_of self.old < 2 ^ 64 - 1 }
        ensures inner { inner_of self.new ≡ inner_of self.old }
        ensures faults { faults_of self.new ≡ faults_of self.old + one_if is_fault }
        ensures failures { failures_of self.new ≡ one_more_if is_failure (failures_of self.old) }
        ensures flushes { flushes_of self.new ≡ flushes_of self.old }
        ensures flushed { is_flushed self.new ≡ is_flushed self.old }
    {
        if is_fault {
            self.faults += 1;
        }
        if is_failure {
            self.failures = self.failures.saturating_add(1);
        }
    }
}

impl<D: Read> Counted<D> {
    /// One read of the reader, at most the buffer's length. An error is a fault, and a failure unless
    /// it is an interruption.
    pub fn read(&mut self, buffer: &mut [u8]) -> io::Result<usize>
        requires { faults_of self.old < 2 ^ 64 - 1 }
        ensures bound { ReadsAtMost result buffer.new }
        ensures bytes { ReadConsumes (D.remaining (inner_of self.old)) (D.remaining
            (inner_of self.new))
            result buffer.new }
        ensures faults { faults_of self.new ≡ faults_of self.old + one_if (is_error result) }
        ensures failures { failures_of self.new
            ≡ one_more_if (is_read_failure result) (failures_of self.old) }
        ensures flushes { flushes_of self.new ≡ flushes_of self.old }
        ensures flushed { is_flushed self.new ≡ is_flushed self.old }
    {
        let answer = self.inner.read(buffer);
        let is_failure = match &answer {
            Ok(_) => false,
            Err(error) => !is_interrupted(error),
        };
        self.count(answer.is_err(), is_failure);
        answer
    }
}

impl<D: Write> Counted<D> {
    /// One write of the writer, which takes some of the bytes from the first on. An error is a
    /// fault, and so is a write of at least one byte that took none. Each is a failure but an
    /// interruption.
    pub fn write(&mut self, bytes: &[u8]) -> io::Result<usize>
        requires { faults_of self.old < 2 ^ 64 - 1 }
        ensures bound { WritesAtMost result bytes.now }
        ensures bytes { WriteAppends (D.contents (inner_of self.old))
            (D.contents (inner_of self.new)) result
            bytes.now }
        ensures faults { faults_of self.new
            ≡ faults_of self.old + one_if (is_write_fault bytes.now result) }
        ensures failures { failures_of self.new
            ≡ one_more_if (is_write_failure bytes.now result) (failures_of self.old) }
        ensures flushes { flushes_of self.new ≡ flushes_of self.old }
        ensures flushed { is_flushed self.new ≡ false }
    {
        let answer = self.inner.write(bytes);
        let (is_fault, is_failure) = match &answer {
            Ok(taken) => {
                let took_none = *taken == 0 && !bytes.is_empty();
                (took_none, took_none)
            }
            Err(error) => (true, !is_interrupted(error)),
        };
        self.count(is_fault, is_failure);
        self.is_flushed = false;
        answer
    }

    /// One flush of the writer. An error is a fault, and a failure.
    pub fn flush(&mut self) -> io::Result<()>
        requires { faults_of self.old < 2 ^ 64 - 1 }
        ensures bytes { Keeps (D.contents (inner_of self.old)) (D.contents (inner_of self.new)) }
        ensures faults { faults_of self.new ≡ faults_of self.old + one_if (is_error result) }
        ensures failures { failures_of self.new
            ≡ one_more_if (is_error result) (failures_of self.old) }
        ensures flushes { flushes_of self.new ≡ min (flushes_of self.old + 1) (2 ^ 64 - 1) }
        ensures flushed { is_flushed self.new ≡ not (is_error result) }
    {
        let answer = self.inner.flush();
        self.count(answer.is_err(), answer.is_err());
        self.flushes = self.flushes.saturating_add(1);
        self.is_flushed = answer.is_ok();
        answer
    }
}

/// Whether a read or a write may be tried again.
pub(crate) fn is_interrupted(error: &io::Error) -> bool
    ensures { result ≡ is_interruption (error_kind error.now) }
{
    matches!(error.kind(), ErrorKind::Interrupted)
}
