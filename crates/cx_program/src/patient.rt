//! Readers and writers that wait until they are ready.

use std::io::{Error, ErrorKind, Read, Result, Write};
use std::thread::sleep;
use std::time::{Clock, Duration};

/// How many milliseconds pass before a call is tried again.
const PAUSE: u64 = 1;

/// A reader or a writer whose call is made again, after a pause, where it was not ready or a signal came between: neither is a fault, and
/// no byte was moved. A pipe or a terminal that another program has set not to wait answers so.
#[derive(Drop)]
pub struct Patient<E: Drop, C: Clock + Drop> {
    pub end: E,
    pub clock: C,
}

// Whether a call that failed so may be made again.
fn may_pass(error: &Error) -> bool {
    matches!(error.kind(), ErrorKind::WouldBlock | ErrorKind::Interrupted)
}

impl<R: Read + Drop, C: Clock + Drop> Read for Patient<R, C> {
    fn read(&mut self, buf: &mut [u8]) -> Result<usize> {
        for _ in 0..u64::MAX {
            match self.end.read(buf) {
                Ok(n) => return Ok(n),
                Err(error) => {
                    if !may_pass(&error) {
                        return Err(error);
                    }
                    sleep(&self.clock, Duration::from_millis(PAUSE));
                }
            }
        }
        Err(Error::from(ErrorKind::TimedOut))
    }
}

impl<W: Write + Drop, C: Clock + Drop> Write for Patient<W, C> {
    fn write(&mut self, buf: &[u8]) -> Result<usize> {
        for _ in 0..u64::MAX {
            match self.end.write(buf) {
                Ok(n) => return Ok(n),
                Err(error) => {
                    if !may_pass(&error) {
                        return Err(error);
                    }
                    sleep(&self.clock, Duration::from_millis(PAUSE));
                }
            }
        }
        Err(Error::from(ErrorKind::TimedOut))
    }

    fn flush(&mut self) -> Result<()> {
        self.end.flush()
    }
}
