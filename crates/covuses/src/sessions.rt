//! A use of covsession.

ghost use Rattle.std.specs.Prelude.{IfOk, Some};
ghost use Rattle.covsession.specs.Session.{IsSession};

use covnamed::session;
use covsession::SessionFault;
use covstream::{Failed, FromRead, Sink};
use std::alloc::Global;

/// A sink that stores all bytes.
#[derive(Drop)]
struct Kept {
    text: Vec<u8>,
    failed: u64,
}

impl Sink for Kept {
    ghost written = { λ s. Some s.text.items };

    ghost held = { λ s. 0 };

    ghost failed_writes = { λ s. s.failed };

    fn write(&mut self, bytes: &[u8]) -> Result<usize, Failed> {
        match self.text.extend_from_slice(bytes) {
            Ok(()) => Ok(bytes.len()),
            Err(_) => {
                self.failed += 1;
                Err(Failed)
            }
        }
    }

    fn flush(&mut self) -> Result<(), Failed> {
        Ok(())
    }
}

/// The answers of a session to these commands.
pub fn answers_to(alloc: Global, commands: &[u8]) -> Result<Vec<u8>, SessionFault>
    ensures { IfOk result (λ answers. IsSession commands.now answers.items) }
{
    let mut source = FromRead::new(commands);
    let mut sink = Kept {
        text: Vec::new(alloc),
        failed: 0,
    };
    session(alloc, &mut source, &mut sink)?;
    Ok(sink.text)
}
