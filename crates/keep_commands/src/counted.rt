//! A reader or a writer that counts its calls.
//!
//! Its contracts say of the inner one what std's traits let one say: which bytes a reader has left, and a writer holds,
//! where it says so, and that the answer is within the buffer. No clause can name a call of the inner one, or what it
//! answered.
ghost use Rattle.std.specs.Prelude.{◌≡◌, ◌||◌, false};
ghost use Rattle.std.specs.Io.{ReadsAtMost, WritesAtMost};
ghost use Rattle.std.specs.Io.KnownBytes.{ReadConsumes, WriteAppends};

use std::io;
use std::io::{Read, Write};

/// A reader or a writer, with the number of its calls and whether one of them failed.
#[derive(Drop)]
pub struct Counted<T> {
    inner: T,
    calls: u64,
    failed: bool,
}

impl<T> Counted<T> {
    ghost use Rattle.keep_commands.specs.Counted.{has_failed, inner_of, is_err, is_refused, next_call, calls_of};

    /// No call so far.
    pub fn new(inner: T) -> Counted<T>
        ensures inner { inner_of result ≡ inner }
        ensures calls { calls_of result ≡ 0 }
        ensures failed { has_failed result ≡ false }
    {
        Counted {
            inner,
            calls: 0,
            failed: false,
        }
    }

    /// The reader or the writer itself.
    pub fn into_inner(self) -> T
        ensures { result ≡ inner_of self }
    {
        let Counted { inner, .. } = self;
        inner
    }

    /// The calls so far, which stop at the largest number.
    pub fn calls(&self) -> u64
        ensures { result ≡ calls_of self.now }
    {
        let Counted { calls, .. } = self;
        *calls
    }

    /// Whether a call answered an error, or a write of something took nothing.
    pub fn failed(&self) -> bool
        ensures { result ≡ has_failed self.now }
    {
        let Counted { failed, .. } = self;
        *failed
    }

    /// Reads once: the inner one is asked for the whole buffer, and its answer is handed on. The clauses say that the
    /// bytes which it is known to have left lose exactly those that are answered, and none on an error; that it was
    /// asked is tested.
    pub fn read(&mut self, buf: &mut [u8]) -> io::Result<usize>
    where
        T: Read,
        ensures bound { ReadsAtMost result buf.new }
        ensures bytes { ReadConsumes (T.remaining (inner_of self.old))
            (T.remaining (inner_of self.new)) result buf.new }
        ensures calls { calls_of self.new ≡ next_call (calls_of self.old) }
        ensures failed { has_failed self.new ≡ (has_failed self.old || is_err result) }
    {
        let result = self.inner.read(buf);
        self.calls = self.calls.saturating_add(1);
        if result.is_err() {
            self.failed = true;
        }
        result
    }

    /// Writes once: the inner one is given the whole buffer, and its answer is handed on. The clauses say that the
    /// bytes which it is known to hold grow by exactly those that are answered, and by none on an error; that it was
    /// asked is tested. A write of nothing that takes nothing has not failed.
    pub fn write(&mut self, buf: &[u8]) -> io::Result<usize>
    where
        T: Write,
        ensures bound { WritesAtMost result buf.now }
        ensures bytes { WriteAppends (T.contents (inner_of self.old)) (T.contents (inner_of self.new)) result buf.now }
        ensures calls { calls_of self.new ≡ next_call (calls_of self.old) }
        ensures failed { has_failed self.new ≡ (has_failed self.old || is_refused result buf.now) }
    {
        let result = self.inner.write(buf);
        self.calls = self.calls.saturating_add(1);
        if !buf.is_empty() && matches!(&result, Ok(0)) {
            self.failed = true;
        }
        if result.is_err() {
            self.failed = true;
        }
        result
    }
}
