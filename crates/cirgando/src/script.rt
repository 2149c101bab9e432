// The lines of a transcript.
use std::alloc::Global;
use std::io::BufRead;

/// The lines of a transcript, read one by one as they are played.
#[derive(Drop)]
pub(crate) struct Script<R: Drop> {
    input: R,
    line: Vec<u8>,
}

impl<R: BufRead + Drop> Script<R> {
    pub(crate) fn new(input: R, heap: Global) -> Script<R> {
        Script {
            input,
            line: Vec::new(heap),
        }
    }

    /// The next line; none at the end of the input.
    pub(crate) fn next_line(&mut self) -> anyhow::Result<Option<&[u8]>> {
        self.line.clear();
        if self.input.read_until(b'\n', &mut self.line)? == 0 {
            return Ok(None);
        }
        Ok(Some(self.line.as_slice()))
    }
}
