ghost use Rattle.std.specs.Prelude.{◌≡◌, ◌<◌, ◌^◌, MatchResult, OnOk, ◌==◌, ◌&&◌, false, not, length};
ghost use Rattle.text_lines.specs.Broken.{is_broken};
ghost use Rattle.std.specs.Io.{ReadsAtMost, WritesAtMost};
ghost use Rattle.std.specs.Io.KnownBytes.{ReadConsumes, WriteAppends, Keeps, Appends};

mod octets;

pub(crate) use octets::Stop;
use std::io;
use std::io::{ErrorKind, Read, Write};

/// Whether this says that nobody reads what is written.
fn is_broken(kind: ErrorKind) -> bool
    ensures { result ≡ is_broken kind }
{
    matches!(kind, ErrorKind::BrokenPipe)
}

/// A reader or a writer, and how many of its calls failed: reads that answered an error, and
/// writes that answered one or took no octet. Of a reader, how many octets it gave, too; of a
/// writer, whether one failed since nobody reads what is written.
#[derive(Drop)]
pub struct Counted<T> {
    device: T,
    failures: u64,
    given: u64,
    unread: bool,
    ghost within: { given < 2 ^ 64 },
}

impl<T> Counted<T> {
    ghost use Rattle.text_lines.specs.Counted.{device_of, failures_of, given_of, is_unread, HasFailed, HasNotFailed, HasGiven};

    /// The device, of which no call has failed yet, and which has given no octet.
    pub fn new(device: T) -> Counted<T>
        ensures device { device_of result ≡ device }
        ensures failures { failures_of result ≡ 0 }
        ensures given { given_of result ≡ 0 }
        ensures unread { is_unread result ≡ false }
    {
        Counted {
            device,
            failures: 0,
            given: 0,
            unread: false,
        }
    }

    /// The device, as the calls left it.
    pub fn into_inner(self) -> T
        ensures { result ≡ device_of self }
    {
        self.device
    }

    /// How many calls failed; the count stays at 2^64 - 1.
    pub fn failures(&self) -> u64
        ensures { result ≡ failures_of self.now }
    {
        self.failures
    }

    /// How many octets the reader gave; the count stays at 2^64 - 1.
    pub fn octets_given(&self) -> u64
        ensures { result ≡ given_of self.now }
    {
        self.given
    }

    /// Whether a write failed since nobody reads what is written, as behind a pipe whose reader went away.
    pub fn is_unread(&self) -> bool
        ensures { result ≡ is_unread self.now }
    {
        self.unread
    }

    fn count_failure(&mut self)
        ensures device { device_of self.new ≡ device_of self.old }
        ensures failed { HasFailed self.old self.new }
        ensures given { given_of self.new ≡ given_of self.old }
        ensures unread { is_unread self.new ≡ is_unread self.old }
    {
        self.failures = self.failures.saturating_add(1);
    }

    fn count_given(&mut self, count: usize)
        ensures device { device_of self.new ≡ device_of self.old }
        ensures failures { HasNotFailed self.old self.new }
        ensures given { HasGiven count self.old self.new }
    {
        self.given = self.given.saturating_add(count as u64);
    }
}

impl<R: Read> Counted<R> {
    ghost use Rattle.text_lines.specs.Counted.{device_of, given_of, HasFailed, HasNotFailed};

    /// Asks the reader once, and counts where it fails, but not what it gives.
    fn ask(&mut self, buf: &mut [u8]) -> io::Result<usize>
        ensures bound { ReadsAtMost result buf.new }
        ensures bytes { ReadConsumes (R.remaining (device_of self.old)) (R.remaining (device_of self.new))
            result buf.new }
        ensures count { MatchResult result (λ _. HasNotFailed self.old self.new) (λ _. HasFailed self.old self.new) }
        ensures given { given_of self.new ≡ given_of self.old }
    {
        let answer = self.device.read(buf);
        if answer.is_err() {
            self.count_failure();
        }
        answer
    }
}

impl<R: Read> Read for Counted<R> {
    ghost use Rattle.text_lines.specs.Counted.{device_of, given_of, HasFailed, HasNotFailed, HasGiven};

    ghost remaining = { λ c. R.remaining (device_of c) };

    /// Reads as the device does, and counts the octets, or the failure.
    fn read(&mut self, buf: &mut [u8]) -> io::Result<usize>
        ensures bound { ReadsAtMost result buf.new }
        ensures bytes { ReadConsumes (R.remaining (device_of self.old)) (R.remaining (device_of self.new))
            result buf.new }
        ensures count { MatchResult result (λ _. HasNotFailed self.old self.new) (λ _. HasFailed self.old self.new) }
        ensures given { MatchResult result
            (λ n. HasGiven n self.old self.new)
            (λ _. given_of self.new ≡ given_of self.old) }
    {
        let count = self.ask(buf)?;
        self.count_given(count);
        Ok(count)
    }
}

impl<W: Write> Write for Counted<W> {
    ghost use Rattle.text_lines.specs.Counted.{device_of, given_of, is_unread, HasFailed, HasNotFailed, HasFailedIf};
    ghost use Rattle.text_lines.specs.Counted.{TellsUnread};

    ghost contents = { λ c. W.contents (device_of c) };

    /// Writes as the device does, and counts a failure: an error, or that nothing was taken of some octets.
    fn write(&mut self, buf: &[u8]) -> io::Result<usize>
        ensures bound { WritesAtMost result buf.now }
        ensures bytes { WriteAppends (W.contents (device_of self.old)) (W.contents (device_of self.new))
            result buf.now }
        // An empty write takes nothing and hasn't failed.
        ensures count { MatchResult result
            (λ taken. HasFailedIf (taken == 0 && not (length buf.now == 0)) self.old self.new)
            (λ _. HasFailed self.old self.new) }
        ensures given { given_of self.new ≡ given_of self.old }
        ensures unread { MatchResult result
            (λ _. is_unread self.new ≡ is_unread self.old)
            (λ error. TellsUnread error self.old self.new) }
    {
        let answer = self.device.write(buf);
        match &answer {
            Ok(taken) if *taken > 0 || buf.is_empty() => {}
            Ok(_) => self.count_failure(),
            Err(error) => {
                self.count_failure();
                self.unread = self.unread || is_broken(error.kind());
            }
        }
        answer
    }

    /// Flushes as the device does. No failure of that is counted.
    fn flush(&mut self) -> io::Result<()>
        ensures bytes { Keeps (W.contents (device_of self.old)) (W.contents (device_of self.new)) }
        ensures count { HasNotFailed self.old self.new }
        ensures given { given_of self.new ≡ given_of self.old }
        ensures unread { is_unread self.new ≡ is_unread self.old }
    {
        self.device.flush()
    }

    /// Writes all octets, and stops at the first write that fails.
    fn write_all(&mut self, buf: &[u8]) -> io::Result<()>
        ensures bytes { OnOk result
            (Appends (W.contents (device_of self.old)) (W.contents (device_of self.new)) buf.now) }
        ensures count { MatchResult result (λ _. HasNotFailed self.old self.new) (λ _. HasFailed self.old self.new) }
        ensures given { given_of self.new ≡ given_of self.old }
        ensures unread { MatchResult result
            (λ _. is_unread self.new ≡ is_unread self.old)
            (λ error. TellsUnread error self.old self.new) }
    {
        let mut rest = buf;
        while !rest.is_empty() {
            let taken = self.write(rest)?;
            if taken == 0 {
                return Err(io::Error::from(ErrorKind::WriteZero));
            }
            rest = &rest[taken..];
        }
        Ok(())
    }
}
