//! Output that counts as read only while the journal's paths lead to the files that were opened.
use exec_lines::Output;
use file_disk::JournalPaths;
use std::io;

/// The output of a session over a journal. If a path of the journal leads to another file, or to none, the output counts as read by
/// nobody: so a session that makes no device call, as `serve` while nothing happens, ends within a second.
#[derive(Drop)]
pub struct Guarded<W> {
    rt: HostRuntime,
    output: W,
    paths: Option<JournalPaths>,
}

impl<W> Guarded<W> {
    /// The output of a session, and the journal paths to be checked, if any.
    pub fn new(rt: HostRuntime, paths: Option<JournalPaths>, output: W) -> Guarded<W> {
        Guarded { rt, output, paths }
    }
}

impl<W: Output> Output for Guarded<W> {
    ghost contents = { λ g. W.contents g.output };

    ghost flushed = { λ g. W.flushed g.output };

    ghost broke = { λ g. W.broke g.output };

    fn put(&mut self, bytes: &[u8]) -> io::Result<usize> {
        self.output.put(bytes)
    }

    fn flush_out(&mut self) -> io::Result<()> {
        self.output.flush_out()
    }

    fn has_reader(&self) -> bool {
        let is_there = match &self.paths {
            Some(paths) => paths.check(&self.rt).is_ok(),
            None => true,
        };
        is_there && self.output.has_reader()
    }
}
