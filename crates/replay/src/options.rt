//! The words of the command line.
use std::env;

/// What is replayed, and how it is shown.
#[derive(Drop)]
pub struct Options {
    /// Whether frames are shown whole, however long they are.
    pub whole_frames: bool,
    /// The files of the scripts. Where none is named, the script is read from standard input.
    pub scripts: Vec<String>,
}

impl Options {
    /// `--hex` shows frames whole; each other word names a script.
    pub fn from_args(rt: &HostRuntime) -> anyhow::Result<Options> {
        let mut options = Options {
            whole_frames: false,
            scripts: Vec::new(rt.alloc()),
        };
        for word in env::args(rt)?.skip(1) {
            if word.as_str() == "--hex" {
                options.whole_frames = true;
            } else {
                options.scripts.push(word)?;
            }
        }
        Ok(options)
    }
}
